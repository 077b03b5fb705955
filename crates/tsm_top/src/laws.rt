// What the definitions mean, as laws. Each stands on a function that does nothing.
ghost use Rattle.std.specs.Prelude.{◌≡◌, ℕ, ◌-◌, ◌≤◌, true, false, List, [], take, Option, Some, Result, String};
ghost use Rattle.std.specs.declared.alloc.Global.{Global};
ghost use Rattle.std.specs.Str.Lines.{lines};
ghost use Rattle.tree_api.specs.Cause.{Rose as RoseIn};
ghost use Rattle.store_api.specs.Disk.{History, ImageAt, now, reads};
ghost use Rattle.entries.specs.declared.entry.Entry.{Entry};
ghost use Rattle.inventory.specs.Meant.{meaning};
ghost use Rattle.inventory_rows.specs.declared.backup.Backup.{Backup};
ghost use Rattle.inventory_rows.specs.State.{Inv};
ghost use Rattle.inventory_rules.specs.Backups.{backup_at};
ghost use Rattle.script_loop.specs.declared.ends.End.{End};
ghost use Rattle.vault.specs.Openings.{is_formatted};
ghost use Rattle.vault.specs.Recovery.{Recovers};
ghost use Rattle.machine.specs.State.{Machine, after};
ghost use Rattle.hall.specs.Protected.{AlwaysBacked, IsProtected, IsRow, Taken};
ghost use Rattle.block_results.specs.command_steps.Clients.{Client};
ghost use Rattle.db_restore.specs.declared.done.RestoreDone.{RestoreDone};
ghost use Rattle.db_restore.specs.declared.refused.NotRestored.{NotRestored};
ghost use Rattle.tsm_top.specs.Legal.{AreLegal, EndsWell, FormatsWell, IsPlain, NoneRose, StartsWith};
ghost use Rattle.tsm_top.specs.Restored.{ComesBack, IsRestored, ReturnsAs};
ghost use Rattle.tsm_top.specs.Serve.{Asks, Closing, Command, Had, HasCauseOf, RanSafe, RanScript, Shuts, Sure, format};
ghost use Rattle.tsm_top.specs.Sites.{site};
ghost use Rattle.tsm_top.specs.declared.note.Note.{Note};

/// A database backup that is younger than the reuse delays, once restored, finds every version that it placed on sequential volumes. What `serve` says of a run and of a restore is joined here: the run was over a store that
/// was sound and had its backups; an image that a stop may have left at some moment since the opening recovers to a database that lists the backup as whole, and on whose day it is protected; and the backup is restored where
/// the files of volumes and of backups read as in that image (`run`). So it is of an image of whatever moments at which each image backs the database to which it recovers (`always`): those of a run from the start of the call on, where each did then (`RanSafe`,
/// `throughout`), those within opening (`SparesAll`), and those within a restore (`IsRestored`, `within`).
pub fn kept_backups_return()
    ensures run { (command : Command) (contents : ℕ → List ℕ) (told : Option History) (h : History) (opened : ℕ) (journal : List Entry) (stamps : List ℕ) (base : Option Inv) → RanSafe command told (Some h) opened journal stamps base → Sure command contents told → Had command told
        → (moment : ℕ) (image : ℕ → List ℕ) → opened ≤ moment → moment ≤ now h → ImageAt h moment image → (v : Inv) → Recovers meaning image v → (file : ℕ) (b : Backup) → IsProtected v file b
        → (day : ℕ) (skipped : List ℕ) (came : Result RestoreDone NotRestored) (old new : History) → ((other : ℕ) → 4 ≤ other → reads old other ≡ image other) → IsRestored file day skipped came old new
        → (t : Taken) × IsRow b t × ComesBack file day skipped t came new }
    ensures always { (since : ℕ) (h : History) → AlwaysBacked since h → (moment : ℕ) (image : ℕ → List ℕ) → since ≤ moment → moment ≤ now h → ImageAt h moment image → (v : Inv) → Recovers meaning image v → (file : ℕ) (b : Backup) → IsProtected v file b
        → (day : ℕ) (skipped : List ℕ) (came : Result RestoreDone NotRestored) (old new : History) → ((other : ℕ) → 4 ≤ other → reads old other ≡ image other) → IsRestored file day skipped came old new
        → (t : Taken) × IsRow b t × ComesBack file day skipped t came new }
{}

/// A database backup that began in a run, once restored, brings back the run's database behind the transaction by which it began, and no later one, whether it is protected or not. What `serve` says of a run and of a restore is joined here: the run was over a
/// store that was sound and had its backups; an image that a stop may have left at the moment of the return recovers to a database that lists the backup as whole; its number, that of the transaction by which it began, isn't below the one of the
/// database that was run; and the backup is restored where the files of volumes and of backups read as in that image. Then what the restore leaves recovers to what is left of the database behind so many of the journal's transactions; or nothing was
/// restored, and it isn't for what a file is (`ReturnsAs`).
pub fn own_backups_return()
    ensures { (command : Command) (contents : ℕ → List ℕ) (told : Option History) (h : History) (opened : ℕ) (journal : List Entry) (stamps : List ℕ) (base : Inv) → RanSafe command told (Some h) opened journal stamps (Some base) → Sure command contents told → Had command told
        → (image : ℕ → List ℕ) → ImageAt h (now h) image → (v : Inv) → Recovers meaning image v → (file : ℕ) (b : Backup) → backup_at file v ≡ Some b → b.is_done ≡ true → base.number ≤ b.number
        → (day : ℕ) (skipped : List ℕ) (came : Result RestoreDone NotRestored) (old new : History) → ((other : ℕ) → 4 ≤ other → reads old other ≡ image other) → IsRestored file day skipped came old new
        → ReturnsAs file day skipped b (after base (take (b.number - base.number) journal)) came old new }
{}

/// A script whose lines are legal in turn, with room, ends well. What `serve` says of a run (`RanScript`) is joined here, line by line: the source tells the script, which is within its limits and has no block (`IsPlain`);
/// no file's count of faults rose; and from whatever state the run may have begun in, each line is legal where it runs, with room (`AreLegal`). Then the status is 0, with no refused line and no failed file; or memory was wanted, with status 8;
/// or the source or the sink failed, with 3 or 4; or the moment was all but the last, with 9 (`EndsWell`). So it is over whatever store (`whole`); and over a store that is known to be sound it is enough that the lines are legal there, with the bytes of its objects (`sound`).
pub fn legal_scripts_end_well()
    ensures whole { (command : Command) (k : Client) (told left_told : Option History) (before after : ℕ → ℕ) (opened last : ℕ) (end : End) (status : ℕ) (journal : List Entry) (stamps : List ℕ) (notes : List Note) (base : Option Inv) (generation : ℕ) (script left was is : Option (List ℕ)) → RanScript command k told left_told before after opened last end status journal stamps notes base generation script left was is
        → (all : List ℕ) → IsPlain script all → NoneRose before after
        → ((first : Machine) → StartsWith command told base opened before first → AreLegal ⊥ k.choice left_told 1 (site first k.old []) (lines all)) → EndsWell end status last }
    ensures sound { (command : Command) (k : Client) (told left_told : Option History) (before after : ℕ → ℕ) (opened last : ℕ) (end : End) (status : ℕ) (journal : List Entry) (stamps : List ℕ) (notes : List Note) (base : Option Inv) (generation : ℕ) (script left was is : Option (List ℕ)) → RanScript command k told left_told before after opened last end status journal stamps notes base generation script left was is
        → (all : List ℕ) → IsPlain script all → NoneRose before after → (contents : ℕ → List ℕ) → Sure command contents told
        → ((first : Machine) → StartsWith command told base opened before first → first.contents ≡ contents → AreLegal (Unit {0}) k.choice left_told 1 (site first k.old []) (lines all)) → EndsWell end status last }
{}

/// Where a new database is asked for, the store tells its bytes and has no image with an open gate, and no file's count of faults rose, one is made, with status 0; or memory was wanted, with status 8; or the sink failed,
/// with 4; or the moment was all but the last, with 9 (`FormatsWell`). What `serve` says of a call that ran no script is joined here (`HasCauseOf`, `Shuts`).
pub fn formatting_ends_well()
    ensures { (words : List (String Global)) (why : Closing) (told left : Option History) (last : ℕ) (before after : ℕ → ℕ) (put_before put_after : Option (List ℕ)) (sink_before sink_after : ℕ) (status : ℕ) (journal : List Entry) (stamps : List ℕ) (notes : List Note) (base : Option Inv) (generation opened : ℕ)
        → HasCauseOf why words told left last before after → Shuts why put_before put_after (RoseIn sink_before sink_after) status journal stamps notes base generation opened last
        → Asks words format → (h : History) → told ≡ Some h → is_formatted (reads h) ≡ false → NoneRose before after → FormatsWell why (RoseIn sink_before sink_after) status last }
{}
