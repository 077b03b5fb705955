// The top call.
ghost use Rattle.std.specs.Prelude.{◌≡◌, ◌⊎◌, ◌↔◌, ◌^◌, ◌-◌, ◌<◌, ◌≤◌, ◌++◌, [], ℕ, codes, decimal, None, Some, IfErr, IfOk, OnOk, IsTrue, IfSome, false, is_some, length};
ghost use Rattle.tree_api.specs.Cause.{Rose as RoseIn};
ghost use Rattle.store_api.specs.Cause.{NoneFell, Rose};
ghost use Rattle.store_api.specs.Disk.{History};
ghost use Rattle.store_api.specs.Runs.{GoesOn};
ghost use Rattle.store_api.specs.Told.{Told};
ghost use Rattle.kinds.specs.declared.refusal.OpenRefused.{OpenRefused};
ghost use Rattle.kinds.specs.declared.refusal.OpenRefused.TheVariants.{Memory as NoMemory};
ghost use Rattle.script_loop.specs.declared.ends.End.{End};
ghost use Rattle.script_loop.specs.Ends.{SourceCause, SinkCause};
ghost use Rattle.vault.specs.log_file.Cursor.{Looked};
ghost use Rattle.block_results.specs.command_steps.Clients.{client};
ghost use Rattle.machine.specs.State.{Machine};
ghost use Rattle.hall.specs.Good.{Is};
ghost use Rattle.hall.specs.Opening.{IsNewHall};
ghost use Rattle.tsm_top.specs.Serve.{Asks, AskToRestore, Command, format, run, fresh_run, Closing, no_command, formatted, exists, refused_opening, closing_line, closing_status, HasCauseOf, HasCause, Shuts, OpensNot, PutsLine, RoseBetween, IsOurFile, IsOurClosing, closing_of, HasImage, Spares, Opens, IsNew, StillTells, MakesNot, RanScript, RanFrom, Images, Later};

use crate::note::Note;
use crate::recover::recover;
use crate::script::{answer_script, clocks_agree};
use crate::server::Server;
use crate::session::{HallPlaces, Session, rows_ascend};
use block_results::command_steps::laws::lines_change_their_tree;
use block_results::line_results::laws::{answered_lines_hold, lines_come_to};
use choosers::Binder;
use client_trees::Tree;
use crew::Gate;
use crew::laws::blocks_are_turns;
use entries::Entry;
use hall::laws::trusted_halls_are_safe;
use hall::{Closed, Hall};
use hall_turns::laws::{halls_at_rest_are_there, halls_leave_sound_stores, runs_are_alone};
use inventory::Inventory;
use kinds::OpenRefused;
use program_words::{Asked, read_words};
use script_loop::number_line;
use std::alloc::Global;
use std::sync::Wait;
use std::thread::Threads;
use store_api::Store;
use tree_api::{Sink, Source, put_all};
use vault::{Vault, is_formatted};

/// What a call of `serve` leaves.
#[derive(Drop)]
pub struct Ended<S: Store, T: Tree> {
    /// The exit status.
    pub status: u8,
    /// The store as it was left.
    pub store: S,
    /// The clients' trees as they were left, in their order.
    pub trees: Vec<T>,
    /// The transactions that this run made, oldest first. Those that have no stamp, which only a fault of a log or an image or a full run leaves, are in doubt: a stop may leave them or not.
    pub journal: Vec<Entry>,
    /// The store's moment at which each of the journal's first transactions was known to be durable, oldest first.
    pub stamps: Vec<u64>,
    /// What was noted of the script's command lines whose printed lines were made, in their order.
    pub notes: Vec<Note>,
    /// The database that opening gave; none where nothing was opened.
    pub base: Option<Inventory>,
    /// The generation of the newest image at the return; 0 where nothing was opened.
    pub generation: u64,
    /// The store's moment when opening ended, or at the return where nothing was opened.
    pub opened: u64,
}

// Why there is no new database in a store.
enum NotMade {
    // An image is there already.
    Exists,
    // Its files can't be read or written.
    Refused(OpenRefused),
}

/// The line that is put where the words are no command.
pub const USAGE: &[u8] = b"USAGE format | run | fresh | restoredb FILE DAY [FILES] | load N\n";

/// Does what the words behind the program's name ask, and answers how it ended. `format` makes a new database in a store that has none,
/// `run` opens the store's database, answers each line of a script and puts the answers, and `fresh` does the one and then the other. `restoredb FILE DAY [FILES]` restores the database that the backup in
/// a file gives, on a day, without the copies that lie in the files behind it, as `restore_from` of `db_restore` says, and puts a line for each object that was lost by it, and the counts.
/// `alloc` gives the memory, `trees` are the clients' trees, which lines name by their place, from 0, and `binder` has the include-exclude list by which the paths of files are bound to management classes. `rt` starts
/// the threads of jobs and waits for them, and `gate` is passed before each of their steps.
///
/// A line is a comment or a command of the administrative command language (`admin_words`). Between PARALLEL and END, or the script's end, the lines are those of jobs, of which AND ends one and begins the next; they
/// are done side by side at the block's end, and printed job by job. Each command is done but DSMC ARCHIVE and DSMC RETRIEVE,
/// which are refused with `UnknownWord(1)`. Where no script is run the trees are given back as they came.
pub fn serve<
    S: Store + Send,
    T: Tree + Drop + Send,
    I: Source,
    O: Sink,
    R: Threads + Wait + Sync,
    G: Gate + Sync,
>(
    rt: &R,
    alloc: Global,
    words: &[String],
    store: S,
    trees: Vec<T>,
    script: &mut I,
    out: &mut O,
    gate: &G,
    binder: Binder,
) -> Ended<S, T>
    // What was put, what is in the journal, and what images of the store give back, by how the call ended. Where a script was run each line outside blocks has what `Holds` of `line_results` says: which transactions
    // it made, and that its command orders them; the rows that queries show; the bytes that files are shown with; what each stored version says of its bytes; why lines are refused; what lines did that are
    // answered OK; which lines aren't refused; and in which no file fails. No line changed another tree than the one that it names, in which a WRITE left its file with its bytes and its time, and an ERASE none (`LeavesFile`). What the lines of a block did are a run of the machine by the actors of its jobs, in one order, and their answers are what was said of them, job by job (`RunsBlock`).
    ensures outcome { ((why : Closing) × HasCauseOf why words.now (S.told store) (S.told result.store) (S.moment_of result.store) (S.faults_of store) (S.faults_of result.store)
        × Shuts why (O.contents out.old) (O.contents out.new) (RoseIn (O.fault_count out.old) (O.fault_count out.new)) result.status result.journal.items result.stamps.items result.notes.items result.base result.generation result.opened (S.moment_of result.store) × (script.new ≡ script.old) × (result.trees ≡ trees))
        ⊎ ((command : Command) × Asks words.now command × (end : End) × (opening : S) × (S.moment_of opening ≡ result.opened) × Later S.moment_of S.faults_of store opening × Later S.moment_of S.faults_of opening result.store × Opens command (S.told store) (S.told opening) × Told (S.told opening) (S.told result.store) (GoesOn (λ file. Unit {0}))
        × RanScript command (client T.files T.fault_count binder trees.items result.trees.items) (S.told store) (S.told result.store) (S.faults_of opening) (S.faults_of result.store) result.opened (S.moment_of result.store) end result.status result.journal.items result.stamps.items result.notes.items result.base result.generation (I.left script.old) (I.left script.new) (O.contents out.old) (O.contents out.new)
        × SourceCause end (I.fault_count script.old) (I.fault_count script.new) × SinkCause end (O.fault_count out.old) (O.fault_count out.new)) }

    // Each status by its cause.
    ensures source_fault { result.status ≡ 3 → RoseIn (I.fault_count script.old) (I.fault_count script.new) }
    ensures sink_fault { result.status ≡ 4 → RoseIn (O.fault_count out.old) (O.fault_count out.new) }
    ensures store_fault { result.status ≡ 5 → (file : ℕ) × ((file < 4) ⊎ AskToRestore words.now) × Rose (S.faults_of store file) (S.faults_of result.store file) }
    ensures log_fault { result.status ≡ 6 → (file : ℕ) × (file < 4) × Rose (S.faults_of store file) (S.faults_of result.store file) }
    ensures no_command { result.status ≡ 2 → (command : Command) → Asks words.now command → ⊥ }
    ensures counts { NoneFell (S.faults_of store) (S.faults_of result.store) }
    ensures opened { (S.moment_of store ≤ result.opened) × (result.opened ≤ S.moment_of result.store) }

    // At every moment since the opening each image that a stop may leave is safe, and what is left is a sound store. Each image gives back the database backups of the database to which it recovers, as `KeepsBacked` and `Throughout` say.
    ensures images { Images (Asks words.now) S.told store result.store result.opened result.journal.items result.stamps.items result.base }
{
    clocks_agree::<S>();
    call(rt, alloc, words, store, trees, script, out, gate, binder)
}

// Does what the words ask.
fn call<
    S: Store + Send,
    T: Tree + Drop + Send,
    I: Source,
    O: Sink,
    R: Threads + Wait + Sync,
    G: Gate + Sync,
>(
    rt: &R,
    alloc: Global,
    words: &[String],
    store: S,
    trees: Vec<T>,
    script: &mut I,
    out: &mut O,
    gate: &G,
    binder: Binder,
) -> Ended<S, T>
    ensures outcome { ((why : Closing) × HasCauseOf why words.now (S.told store) (S.told result.store) (S.moment_of result.store) (S.faults_of store) (S.faults_of result.store)
        × Shuts why (O.contents out.old) (O.contents out.new) (RoseIn (O.fault_count out.old) (O.fault_count out.new)) result.status result.journal.items result.stamps.items result.notes.items result.base result.generation result.opened (S.moment_of result.store) × (script.new ≡ script.old) × (result.trees ≡ trees))
        ⊎ ((command : Command) × Asks words.now command × (end : End) × (opening : S) × (S.moment_of opening ≡ result.opened) × Later S.moment_of S.faults_of store opening × Later S.moment_of S.faults_of opening result.store × Opens command (S.told store) (S.told opening) × Told (S.told opening) (S.told result.store) (GoesOn (λ file. Unit {0}))
        × RanScript command (client T.files T.fault_count binder trees.items result.trees.items) (S.told store) (S.told result.store) (S.faults_of opening) (S.faults_of result.store) result.opened (S.moment_of result.store) end result.status result.journal.items result.stamps.items result.notes.items result.base result.generation (I.left script.old) (I.left script.new) (O.contents out.old) (O.contents out.new)
        × SourceCause end (I.fault_count script.old) (I.fault_count script.new) × SinkCause end (O.fault_count out.old) (O.fault_count out.new)) }
    ensures source_fault { result.status ≡ 3 → RoseIn (I.fault_count script.old) (I.fault_count script.new) }
    ensures sink_fault { result.status ≡ 4 → RoseIn (O.fault_count out.old) (O.fault_count out.new) }
    ensures store_fault { result.status ≡ 5 → (file : ℕ) × ((file < 4) ⊎ AskToRestore words.now) × Rose (S.faults_of store file) (S.faults_of result.store file) }
    ensures log_fault { result.status ≡ 6 → (file : ℕ) × (file < 4) × Rose (S.faults_of store file) (S.faults_of result.store file) }
    ensures no_command { result.status ≡ 2 → (command : Command) → Asks words.now command → ⊥ }
    ensures counts { NoneFell (S.faults_of store) (S.faults_of result.store) }
    ensures opened { (S.moment_of store ≤ result.opened) × (result.opened ≤ S.moment_of result.store) }
{
    let asked = match read_words(alloc, words) {
        Ok(Some(asked)) => asked,
        Ok(None) => return closed(alloc, store, trees, out, 2, USAGE),
        Err(_) => return closed(alloc, store, trees, out, 8, b"MEMORY\n"),
    };
    match asked {
        Asked::Format => format(alloc, store, trees, out),
        Asked::Run => open(rt, alloc, store, trees, script, out, gate, binder),
        Asked::Fresh => format_and_run(rt, alloc, store, trees, script, out, gate, binder),
        Asked::Restore(wanted) => recover(alloc, &wanted, store, trees, out),
    }
}

// What is left where no script was run.
fn unopened<S: Store, T: Tree>(alloc: Global, store: S, trees: Vec<T>, status: u8) -> Ended<S, T>
    ensures status { result.status ≡ status }
    ensures journal { result.journal.items ≡ [] }
    ensures stamps { result.stamps.items ≡ [] }
    ensures notes { result.notes.items ≡ [] }
    ensures base { result.base ≡ None }
    ensures generation { result.generation ≡ 0 }
    ensures store { result.store ≡ store }
    ensures trees { result.trees ≡ trees }
    ensures opened { result.opened ≡ S.moment_of store }
{
    let opened = store.moment();
    Ended {
        status,
        store,
        trees,
        journal: Vec::new(alloc),
        stamps: Vec::new(alloc),
        notes: Vec::new(alloc),
        base: None,
        generation: 0,
        opened,
    }
}

// Puts the line, or the lines, of a call that runs no script; the sink may fail at them.
pub(crate) fn closed<S: Store, T: Tree, O: Sink>(
    alloc: Global,
    store: S,
    trees: Vec<T>,
    out: &mut O,
    status: u8,
    line: &[u8],
) -> Ended<S, T>
    ensures line { PutsLine line.now status result.status (O.contents out.old) (O.contents out.new) (RoseIn (O.fault_count out.old) (O.fault_count out.new)) }
    ensures journal { result.journal.items ≡ [] }
    ensures stamps { result.stamps.items ≡ [] }
    ensures notes { result.notes.items ≡ [] }
    ensures base { result.base ≡ None }
    ensures generation { result.generation ≡ 0 }
    ensures store { result.store ≡ store }
    ensures trees { result.trees ≡ trees }
    ensures opened { result.opened ≡ S.moment_of store }
{
    match put_all(out, line) {
        Ok(()) => unopened(alloc, store, trees, status),
        Err(_) => unopened(alloc, store, trees, 4),
    }
}

// What stands in front of the place of a damage in this file.
fn damaged_words(file: u32) -> &'static [u8]
    requires { file < 4 }
    ensures words { result.now ≡ codes "DAMAGED " ++ (decimal file ++ codes " ") }
    ensures short { length result.now ≤ 40 }
{
    match file {
        0 => b"DAMAGED 0 ",
        1 => b"DAMAGED 1 ",
        2 => b"DAMAGED 2 ",
        _ => b"DAMAGED 3 ",
    }
}

// Puts the line of a call that couldn't open the store.
fn refused_by<S: Store, T: Tree, O: Sink>(
    alloc: Global,
    store: S,
    trees: Vec<T>,
    out: &mut O,
    refusal: OpenRefused,
) -> Ended<S, T>
    requires ours { IsOurFile refusal }
    ensures line { PutsLine (closing_line (refused_opening refusal)) (closing_status (refused_opening refusal)) result.status (O.contents out.old) (O.contents out.new) (RoseIn (O.fault_count out.old) (O.fault_count out.new)) }
    ensures journal { result.journal.items ≡ [] }
    ensures stamps { result.stamps.items ≡ [] }
    ensures notes { result.notes.items ≡ [] }
    ensures base { result.base ≡ None }
    ensures generation { result.generation ≡ 0 }
    ensures store { result.store ≡ store }
    ensures trees { result.trees ≡ trees }
    ensures opened { result.opened ≡ S.moment_of store }
{
    match refusal {
        OpenRefused::ReadFault(file) => {
            let line = number_line(b"STORE FAULT ", u64::from(file));
            closed(alloc, store, trees, out, 5, line.as_slice())
        }
        OpenRefused::Damaged(file, at) => {
            let line = number_line(damaged_words(file), at);
            closed(alloc, store, trees, out, 7, line.as_slice())
        }
        OpenRefused::NotFormatted => closed(alloc, store, trees, out, 7, b"NOT FORMATTED\n"),
        OpenRefused::RunFull => closed(alloc, store, trees, out, 9, b"RUN FULL\n"),
        OpenRefused::Memory => closed(alloc, store, trees, out, 8, b"MEMORY\n"),
    }
}

// Puts the line of a call that couldn't make a new database.
fn not_made<S: Store, T: Tree, O: Sink>(
    alloc: Global,
    store: S,
    trees: Vec<T>,
    out: &mut O,
    why: NotMade,
) -> Ended<S, T>
    requires ours { IsOurClosing why }
    ensures line { PutsLine (closing_line (closing_of why)) (closing_status (closing_of why)) result.status (O.contents out.old) (O.contents out.new) (RoseIn (O.fault_count out.old) (O.fault_count out.new)) }
    ensures journal { result.journal.items ≡ [] }
    ensures stamps { result.stamps.items ≡ [] }
    ensures notes { result.notes.items ≡ [] }
    ensures base { result.base ≡ None }
    ensures generation { result.generation ≡ 0 }
    ensures store { result.store ≡ store }
    ensures trees { result.trees ≡ trees }
    ensures opened { result.opened ≡ S.moment_of store }
{
    match why {
        NotMade::Exists => closed(alloc, store, trees, out, 1, b"REFUSED 11 Exists\n"),
        NotMade::Refused(refusal) => refused_by(alloc, store, trees, out, refusal),
    }
}

// Looks whether a store has no image yet.
fn has_none<S: Store>(store: &mut S) -> Result<(), NotMade>
    ensures none { OnOk result (HasImage false (S.told store.old)) }
    ensures looked { Told (S.told store.old) (S.told store.new) Looked }
    ensures not_made { IfErr result (λ why. MakesNot (S.told store.old) (S.told store.new) (S.moment_of store.new) (RoseBetween (S.faults_of store.old) (S.faults_of store.new)) why) }
    ensures later { Later S.moment_of S.faults_of store.old store.new }
{
    match is_formatted(store) {
        Ok(false) => Ok(()),
        Ok(true) => Err(NotMade::Exists),
        Err(refusal) => Err(NotMade::Refused(refusal)),
    }
}

// Makes a new database in a store that has none.
fn make<S: Store>(alloc: Global, store: &mut S) -> Result<(), NotMade>
    ensures made { OnOk result (HasImage false (S.told store.old)) }
    ensures new { OnOk result (IsNew (S.told store.new)) }
    ensures tells { StillTells (S.told store.old) (S.told store.new) }
    ensures not_made { IfErr result (λ why. MakesNot (S.told store.old) (S.told store.new) (S.moment_of store.new) (RoseBetween (S.faults_of store.old) (S.faults_of store.new)) why) }
    ensures later { Later S.moment_of S.faults_of store.old store.new }
{
    match has_none(store) {
        Ok(()) => {}
        Err(why) => return Err(why),
    }
    let fresh = match Inventory::fresh(alloc) {
        Ok(fresh) => fresh,
        Err(_) => return Err(NotMade::Refused(OpenRefused::Memory)),
    };
    match Vault::format(alloc, store, &fresh) {
        Ok(()) => Ok(()),
        Err(refusal) => Err(NotMade::Refused(refusal)),
    }
}

// Makes a new database, and no more.
fn format<S: Store, T: Tree, O: Sink>(
    alloc: Global,
    store: S,
    trees: Vec<T>,
    out: &mut O,
) -> Ended<S, T>
    ensures outcome { (why : Closing) × HasCause (λ command. command ≡ format) why (S.told store) (S.told result.store) (S.moment_of result.store) (S.faults_of store) (S.faults_of result.store) × Shuts why (O.contents out.old) (O.contents out.new) (RoseIn (O.fault_count out.old) (O.fault_count out.new)) result.status result.journal.items result.stamps.items result.notes.items result.base result.generation result.opened (S.moment_of result.store) }
    ensures trees { result.trees ≡ trees }
    ensures later { Later S.moment_of S.faults_of store result.store }
    ensures opened { (S.moment_of store ≤ result.opened) × (result.opened ≤ S.moment_of result.store) }
{
    let mut store = store;
    match make(alloc, &mut store) {
        Ok(()) => closed(alloc, store, trees, out, 0, b"FORMATTED\n"),
        Err(why) => not_made(alloc, store, trees, out, why),
    }
}

// Makes a new database, and runs the script over it.
fn format_and_run<
    S: Store + Send,
    T: Tree + Drop + Send,
    I: Source,
    O: Sink,
    R: Threads + Wait + Sync,
    G: Gate + Sync,
>(
    rt: &R,
    alloc: Global,
    store: S,
    trees: Vec<T>,
    script: &mut I,
    out: &mut O,
    gate: &G,
    binder: Binder,
) -> Ended<S, T>
    ensures outcome { ((why : Closing) × HasCause (λ command. command ≡ fresh_run) why (S.told store) (S.told result.store) (S.moment_of result.store) (S.faults_of store) (S.faults_of result.store) × Shuts why (O.contents out.old) (O.contents out.new) (RoseIn (O.fault_count out.old) (O.fault_count out.new)) result.status result.journal.items result.stamps.items result.notes.items result.base result.generation result.opened (S.moment_of result.store) × (script.new ≡ script.old) × (result.trees ≡ trees))
        ⊎ ((end : End) × (opening : S) × (S.moment_of opening ≡ result.opened) × Later S.moment_of S.faults_of store opening × Later S.moment_of S.faults_of opening result.store × Opens fresh_run (S.told store) (S.told opening) × Told (S.told opening) (S.told result.store) (GoesOn (λ file. Unit {0}))
        × RanScript fresh_run (client T.files T.fault_count binder trees.items result.trees.items) (S.told store) (S.told result.store) (S.faults_of opening) (S.faults_of result.store) result.opened (S.moment_of result.store) end result.status result.journal.items result.stamps.items result.notes.items result.base result.generation (I.left script.old) (I.left script.new) (O.contents out.old) (O.contents out.new)
        × SourceCause end (I.fault_count script.old) (I.fault_count script.new) × SinkCause end (O.fault_count out.old) (O.fault_count out.new)) }
    ensures later { Later S.moment_of S.faults_of store result.store }
    ensures opened { (S.moment_of store ≤ result.opened) × (result.opened ≤ S.moment_of result.store) }
{
    let mut store = store;
    match make(alloc, &mut store) {
        Ok(()) => open(rt, alloc, store, trees, script, out, gate, binder),
        Err(why) => not_made(alloc, store, trees, out, why),
    }
}

// Opens the store's database, and runs the script over it.
fn open<
    S: Store + Send,
    T: Tree + Drop + Send,
    I: Source,
    O: Sink,
    R: Threads + Wait + Sync,
    G: Gate + Sync,
>(
    rt: &R,
    alloc: Global,
    store: S,
    trees: Vec<T>,
    script: &mut I,
    out: &mut O,
    gate: &G,
    binder: Binder,
) -> Ended<S, T>
    ensures outcome { ((why : OpenRefused) × OpensNot run (S.told store) (S.moment_of result.store) (RoseBetween (S.faults_of store) (S.faults_of result.store)) why × Spares run (S.told store) (S.told result.store) × Shuts (refused_opening why) (O.contents out.old) (O.contents out.new) (RoseIn (O.fault_count out.old) (O.fault_count out.new)) result.status result.journal.items result.stamps.items result.notes.items result.base result.generation result.opened (S.moment_of result.store) × (script.new ≡ script.old) × (result.trees ≡ trees))
        ⊎ ((end : End) × (opening : S) × (S.moment_of opening ≡ result.opened) × Later S.moment_of S.faults_of store opening × Later S.moment_of S.faults_of opening result.store × Opens run (S.told store) (S.told opening) × Told (S.told opening) (S.told result.store) (GoesOn (λ file. Unit {0}))
        × RanScript run (client T.files T.fault_count binder trees.items result.trees.items) (S.told store) (S.told result.store) (S.faults_of opening) (S.faults_of result.store) result.opened (S.moment_of result.store) end result.status result.journal.items result.stamps.items result.notes.items result.base result.generation (I.left script.old) (I.left script.new) (O.contents out.old) (O.contents out.new)
        × SourceCause end (I.fault_count script.old) (I.fault_count script.new) × SinkCause end (O.fault_count out.old) (O.fault_count out.new)) }
    ensures later { Later S.moment_of S.faults_of store result.store }
    ensures opened { (S.moment_of store ≤ result.opened) × (result.opened ≤ S.moment_of result.store) }
{
    let hall = match Hall::open(alloc, store) {
        Ok(hall) => hall,
        Err((store, refusal)) => return refused_by(alloc, store, trees, out, refusal),
    };
    match pieces(alloc) {
        Ok(buffer) => run_script(rt, alloc, hall, trees, binder, buffer, script, out, gate),
        Err(refusal) => refused_by(alloc, into_store(hall), trees, out, refusal),
    }
}

// The store of a hall that is used no more.
fn into_store<S: Store>(hall: Hall<S>) -> S
    ensures { result ≡ hall.store }
{
    let Closed { store, .. } = hall.close();
    store
}

// A buffer for pieces of files, of 65,536 bytes.
fn pieces(alloc: Global) -> Result<Vec<u8>, OpenRefused>
    ensures long { IfOk result (λ buffer. length buffer.items ≡ 65536) }
    ensures memory { IfErr result (λ e. e ≡ NoMemory) }
{
    let mut buffer = Vec::new(alloc);
    match buffer.resize(65536, 0) {
        Ok(()) => Ok(buffer),
        Err(_) => Err(OpenRefused::Memory),
    }
}

// Runs the script on a hall that was just opened.
fn run_script<
    S: Store + Send,
    T: Tree + Drop + Send,
    I: Source,
    O: Sink,
    R: Threads + Wait + Sync,
    G: Gate + Sync,
>(
    rt: &R,
    alloc: Global,
    hall: Hall<S>,
    trees: Vec<T>,
    binder: Binder,
    buffer: Vec<u8>,
    script: &mut I,
    out: &mut O,
    gate: &G,
) -> Ended<S, T>
    requires fresh { IsNewHall (S.moment_of hall.store) hall.held }
    requires state { (m : Machine) × Is S.told S.moment_of S.faults_of hall m }
    requires long { length buffer.items ≡ 65536 }
    ensures { (end : End) × RanFrom S.told S.moment_of S.faults_of hall (client T.files T.fault_count binder trees.items result.trees.items) result.store end result.status result.journal.items result.stamps.items result.notes.items result.generation (I.left script.old) (I.left script.new) (O.contents out.old) (O.contents out.new)
        × (result.base ≡ Some hall.held.base) × (result.opened ≡ S.moment_of hall.store)
        × SourceCause end (I.fault_count script.old) (I.fault_count script.new) × SinkCause end (O.fault_count out.old) (O.fault_count out.new) }
{
    rows_ascend(&hall);
    runs_are_alone::<S>();
    halls_at_rest_are_there::<S>();
    halls_leave_sound_stores::<S>();
    trusted_halls_are_safe::<S>();
    lines_come_to::<HallPlaces>();
    answered_lines_hold::<HallPlaces>();
    lines_change_their_tree();
    blocks_are_turns::<S>();
    clocks_agree::<S>();
    let session = Session {
        hall,
        trees,
        binder,
        buffer,
        notes: Vec::new(alloc),
    };
    let server = Server {
        session,
        block: None,
        jobs: 0,
    };
    let (server, end) = answer_script(rt, gate, alloc, server, script, out);
    let Server { session, .. } = server;
    let Session {
        hall,
        trees,
        notes,
        ..
    } = session;
    let generation = hall.generation();
    let Closed {
        store,
        base,
        journal,
        stamps,
        opened,
    } = hall.close();
    Ended {
        status: end.status(),
        store,
        trees,
        journal,
        stamps,
        notes,
        base: Some(base),
        generation,
        opened,
    }
}
