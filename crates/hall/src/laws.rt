// What the definitions mean, as laws. Each stands on a function that does nothing.
ghost use Rattle.std.specs.Prelude.{◌≡◌, ◌+◌, ◌≤◌, ℕ, true, List, ◌∷◌, ◌++◌, Err, None, Some, length};
ghost use Rattle.std.specs.List.{AllByRecursion, Contains};
ghost use Rattle.kinds.specs.Refusals.{foremost};
ghost use Rattle.kinds.specs.declared.refusal.Refusal.{Refusal};
ghost use Rattle.kinds.specs.declared.segment.Segment.{Segment};
ghost use Rattle.store_api.specs.Disk.{History, Leaves, back, now, reads, standing, ImageAt};
ghost use Rattle.store_api.specs.Runs.{GoesOn, WroteWithin};
ghost use Rattle.store_api.specs.Told.{StopsAs};
ghost use Rattle.contents.specs.Contents.{HaveAll, Holds, InStore, IsKept as IsKeptBy};
ghost use Rattle.steps.specs.Events.{Deed, Event, event, is_listed};
ghost use Rattle.steps.specs.Events.Deed.{Commit};
ghost use Rattle.steps.specs.declared.asked.Asked.{Asked};
ghost use Rattle.steps.specs.declared.step.Reply.{Reply};
ghost use Rattle.inventory.specs.Meant.{meaning};
ghost use Rattle.inventory_rows.specs.Fresh.{fresh};
ghost use Rattle.inventory_rows.specs.State.{Inv};
ghost use Rattle.machine.specs.Fits.{Fits, History as Run};
ghost use Rattle.machine.specs.Laws.{GoesWhereAimed, RefusesElsewhere};
ghost use Rattle.machine.specs.Machine.{Made, asked_change};
ghost use Rattle.machine.specs.State.{Core, Machine, Ticket, inventory};
ghost use Rattle.machine.specs.Turns.{own_in};
ghost use Rattle.vault.specs.Files.{IsOurs};
ghost use Rattle.vault.specs.Recovery.{Recovers};
ghost use Rattle.hall.specs.declared.turn.Turn.{Turn};
ghost use Rattle.hall.specs.Alone.{AreExact, Continues, Ran};
ghost use Rattle.hall.specs.Beside.{IsBeside, IsKeptBut};
ghost use Rattle.hall.specs.Commits.{change_asked, commit_causes};
ghost use Rattle.hall.specs.Covered.{NumbersAreDrawn, SpaceIsClear, covered, left_open};
ghost use Rattle.hall.specs.Good.{Is, IsKept, WasSound};
ghost use Rattle.hall.specs.Held.{Hall, Held};
ghost use Rattle.hall.specs.Placed.{hall_places};
ghost use Rattle.hall.specs.Protected.{AlwaysBacked, HadBackups, HoldTheirDatabases, KeepsBackups};
ghost use Rattle.hall.specs.Plays.{Plays, RunsTurns};
ghost use Rattle.hall.specs.Seats.{ended_at};
ghost use Rattle.hall.specs.Steps.{Goes, IsTrusted, Steps};

use inventory::Inventory;
use store_api::Store;
use vault::laws::pending;

/// What is kept of the covered copies is kept of each database that a stop may bring back.
pub fn covered_is_kept()
    ensures { (contents : ℕ → List ℕ) (h : History) (c : Core) → HaveAll (InStore h) contents (covered c) → AllByRecursion (IsKeptBy contents h) (left_open c) }
{}

/// Each image that a stop right now may leave of a hall that keeps what it should holds every copy of every object of each of these databases.
pub fn images_hold_what_is_covered()
    ensures { (m : Machine) (held : Held) (h : History) (image : ℕ → List ℕ) → IsKept m held h → ImageAt h (now h) image → AllByRecursion (Holds m.contents image) (left_open m.core) }
{}

/// Where the store had the backups of the base when the hall was opened, each image that a stop right now may leave of a hall that keeps what it should gives back every backup that a database which
/// the stop may bring back lists as whole and that is protected on its day: the database of its number, and each copy of that in a sequential pool. At every moment since the opening each image did so
/// of the database to which it recovers, and that one has what its backups need.
pub fn backups_are_kept()
    ensures now { (m : Machine) (held : Held) (h : History) (image : ℕ → List ℕ) → IsKept m held h → HadBackups held.base held.opened h → ImageAt h (now h) image → AllByRecursion (KeepsBackups image) (left_open m.core) }
    ensures always { (m : Machine) (held : Held) (h : History) → IsKept m held h → HadBackups held.base held.opened h → AlwaysBacked held.opened h }
{}

/// Where the store had the backups of the base when the hall was opened, each image that a stop right now may leave of a hall that keeps what it should holds the database of each backup of this run that a database
/// which the stop may bring back lists as whole, be it protected or not: the run's database behind the transaction by which the backup began, and no later one. So it is of the database to which the image recovers.
pub fn backups_hold_their_databases()
    ensures now { (m : Machine) (held : Held) (h : History) (image : ℕ → List ℕ) → IsKept m held h → HadBackups held.base held.opened h → ImageAt h (now h) image
        → AllByRecursion (HoldTheirDatabases image m.core.base m.core.journal) (left_open m.core) }
    ensures recovered { (m : Machine) (held : Held) (h : History) (image : ℕ → List ℕ) → IsKept m held h → HadBackups held.base held.opened h → ImageAt h (now h) image
        → (v : Inv) → Recovers meaning image v → HoldTheirDatabases image m.core.base m.core.journal v }
{}

/// A store of which each image has in the files from 4 on what a stop might have left of such a hall has the backups of each database that the stop may bring back: so a hall that is opened there keeps
/// them, too.
pub fn backups_outlive_stops()
    ensures { (m : Machine) (held : Held) (h : History) (v : Inv) (new : History) → IsKept m held h → HadBackups held.base held.opened h → Contains (left_open m.core) v
        → ((image : ℕ → List ℕ) → ImageAt new (now new) image → (file : ℕ) → 4 ≤ file → Leaves (standing h file) (image file)) → HadBackups v (now new) new }
{}

/// Calls on the vault's files alone, as those of an opening, leave a store the backups of a database that it had; a new server's database has none that a store could lack; and where each image of a run's
/// moments backs its own database, the store that a stop of the machine at one of them leaves has the backups of the database to which it recovers.
pub fn stores_have_backups()
    ensures since { (base : Inv) (h new : History) → GoesOn IsOurs h new → HadBackups base (now h) h → HadBackups base (now new) new }
    ensures fresh { (h : History) → HadBackups fresh (now h) h }
    ensures stopped { (opened : ℕ) (h : History) (moment : ℕ) (after : History) (v : Inv) → AlwaysBacked opened h → opened ≤ moment → moment ≤ now h → StopsAs (back h moment) after → Recovers meaning (reads after) v
        → HadBackups v (now after) after }
{}

/// Over a store that tells its bytes and was sound when the hall was opened, a step of the hall is a step of the machine with the very bytes that its objects have, those that a read gives
/// among them; and behind each step the store is still one that was sound then. So of such halls each run of steps is a run of the machine.
pub fn steps_are_exact<S: Store>()
    ensures exact { (actor : ℕ) (deed : Deed) (old new : Hall S) (m : Machine) → IsTrusted (S.told old.store) old.held → Is S.told S.moment_of S.faults_of old m → Steps S.told S.moment_of S.faults_of actor deed old new
        → (next : Machine) × Made hall_places actor (event (inventory m.core).number deed) m next × Is S.told S.moment_of S.faults_of new next }
    ensures trusted { (old new : Hall S) (m : Machine) → IsTrusted (S.told old.store) old.held → Is S.told S.moment_of S.faults_of old m → Goes S.told old new → IsTrusted (S.told new.store) new.held }
{}

/// Over such a store a hall keeps what no stop may take from it: at every moment since the opening each image recovers to the database behind a transaction that is at least the last with a
/// stamp by then, and holds every copy of every object of it; and it keeps all backups, where the store had those of the base.
pub fn trusted_halls_are_safe<S: Store>()
    ensures { (hall : Hall S) (m : Machine) (h : History) → S.told hall.store ≡ Some h → Is S.told S.moment_of S.faults_of hall m → WasSound hall.held.base hall.held.opened h → IsKept m hall.held h }
{}

/// Over a sound store the turns of whatever actors, with stops of the machine between them and an opening behind each, are a run of the machine in which every byte is exact; a stop brings back
/// the database behind a transaction that is at least the last with a stamp. Behind them the store is still one that was sound at the last opening.
pub fn turns_are_exact<S: Store>()
    ensures { (turns : List Turn) (replies : List Reply) (old new : Hall S) (m : Machine) → IsTrusted (S.told old.store) old.held → Is S.told S.moment_of S.faults_of old m
        → Plays S.told S.moment_of S.faults_of turns replies old new → (last : Machine) × RunsTurns turns replies m last × Is S.told S.moment_of S.faults_of new last × IsTrusted (S.told new.store) new.held }
{}

/// Where the hall places objects is as the machine asks it of placing: it is refused for want of room, for room that others hold, and for numbers at their bounds alone, and an object goes
/// into one of the pools that its aim walks.
pub fn places_are_lawful()
    ensures elsewhere { RefusesElsewhere hall_places }
    ensures aimed { GoesWhereAimed hall_places }
{}

/// A commit is refused by the machine exactly with what refuses it over what the hall holds: behind a full run and a fault the foremost of the causes that specs/Commits lists, each of them one that a commit may
/// be answered with; and the change that it asks for is the same.
pub fn commits_are_refused_alike<S: Store>()
    ensures refused { (actor : ℕ) (asked : Asked) (numbers : List ℕ) (hall : Hall S) (e : Refusal) → foremost (ended_at (S.moment_of hall.store) hall.held) ≡ None → foremost (commit_causes actor asked numbers hall.held) ≡ Some e
        → Steps S.told S.moment_of S.faults_of actor (Commit asked numbers (Err e)) hall hall × (is_listed (Commit asked numbers (Err e)) ≡ true) }
    ensures change { (actor : ℕ) (asked : Asked) (numbers : List ℕ) (hall : Hall S) (m : Machine) → Is S.told S.moment_of S.faults_of hall m → change_asked actor asked numbers hall.held ≡ asked_change actor asked numbers m.core }
{}

/// What one actor did on a hall that it has alone fits every history that goes on from there: each of its steps was made on the database of its number, and what joined by it stands in the history. So it is
/// over whatever store, where nothing was read, and over one that tells its bytes and was sound when the hall was opened, of every run; what was read then are the objects' bytes.
pub fn alone_fits<S: Store>()
    ensures { (actor reached : ℕ) (events : List Event) (old new : Hall S) (m : Machine) → Is S.told S.moment_of S.faults_of old m
        → AreExact (IsTrusted (S.told old.store) old.held) events → Ran S.told S.moment_of S.faults_of actor events old new → reached ≤ (inventory m.core).number
        → (last : Machine) × Is S.told S.moment_of S.faults_of new last
        × ((w : Run) → Continues last w → (n : ℕ) × (n ≤ (inventory last.core).number) × Fits w actor (own_in actor reached m.core) events (own_in actor n last.core)) }
{}

/// A ticket's frame is written, in part or whole, whether the call fails or not: all is kept that no stop may take from the hall, and what every other ticket took. A segment of a ticket is
/// one in whose place that may be done: it lies beside every copy of every database that a stop may bring back, and beside the other tickets'.
pub fn frame_is_written_beside()
    ensures written { (m : Machine) (held : Held) (h new : History) (pool number : ℕ) (s : Segment) → m.core.fault ≡ None → length m.core.stamps ≤ length m.core.journal → IsKept m held h
        → IsBeside m.core pool number s → WroteWithin s.file s.offset (32 + s.len) h new → IsKeptBut number m held new }
    ensures beside { (c : Core) (front back : List Ticket) (t : Ticket) (ahead beyond : List Segment) (s : Segment) → c.tickets ≡ front ++ (t ∷ back) → t.place.segments ≡ ahead ++ (s ∷ beyond)
        → SpaceIsClear c → NumbersAreDrawn c → IsBeside c t.place.pool t.number s }
{
    pending::<Inventory>();
}
