// What runs of one actor on a hall mean, as laws. Each stands on a function that does nothing.
ghost use Rattle.std.specs.Prelude.{◌≡◌, ◌≤◌, ℕ, List, length, None, Some};
ghost use Rattle.store_api.specs.Disk.{History, ImageAt, back, now, reads};
ghost use Rattle.store_api.specs.Runs.{EachImage, GoesOn};
ghost use Rattle.store_api.specs.Told.{StopsAs, Told};
ghost use Rattle.inventory.specs.Meant.{meaning};
ghost use Rattle.inventory_rows.specs.Fresh.{fresh};
ghost use Rattle.inventory_rows.specs.State.{Inv};
ghost use Rattle.log_file.specs.Safety.{acknowledged};
ghost use Rattle.vault.specs.Openings.{Spared};
ghost use Rattle.vault.specs.Recovery.{Recovers, RecoversWithin};
ghost use Rattle.steps.specs.Events.{Event};
ghost use Rattle.machine.specs.Alone.{Alone};
ghost use Rattle.machine.specs.Stamps.{KeepsStamps};
ghost use Rattle.machine.specs.State.{Machine};
ghost use Rattle.hall.specs.Alone.{Ran};
ghost use Rattle.hall.specs.Good.{AlwaysSafe, Is, WasSound};
ghost use Rattle.hall.specs.Held.{Hall};
ghost use Rattle.hall.specs.Opening.{IsSound};
ghost use Rattle.hall.specs.Placed.{hall_places};
ghost use Rattle.hall.specs.Protected.{AlwaysBacked, HadBackups};
ghost use Rattle.hall.specs.Steps.{IsTrusted};
ghost use Rattle.hall_turns.specs.Left.{GivesState, HasFirst, IsOnDisk, LeavesSound};
ghost use Rattle.hall_turns.specs.Runs.{HasOwnBackups, IsBacked};

use store_api::Store;

/// What one actor did on a hall that it has alone is a run of the machine by this actor alone. Over a store that tells its bytes and was sound when the hall was opened what it read are the very
/// bytes that its objects have, and behind it the store is still one that was sound then. The stamps that were there stay. The store goes on from what it told.
pub fn runs_are_alone<S: Store>()
    ensures alone { (actor : ℕ) (events : List Event) (old new : Hall S) (m : Machine) → Is S.told S.moment_of S.faults_of old m → Ran S.told S.moment_of S.faults_of actor events old new
        → (last : Machine) × Alone ⊥ hall_places actor events m last × Is S.told S.moment_of S.faults_of new last × KeepsStamps m.core last.core }
    ensures exact { (actor : ℕ) (events : List Event) (old new : Hall S) (m : Machine) → Is S.told S.moment_of S.faults_of old m → IsTrusted (S.told old.store) old.held
        → Ran S.told S.moment_of S.faults_of actor events old new
        → (last : Machine) × Alone (Unit {0}) hall_places actor events m last × Is S.told S.moment_of S.faults_of new last × IsTrusted (S.told new.store) new.held × KeepsStamps m.core last.core }
    ensures goes { (actor : ℕ) (events : List Event) (old new : Hall S) → Ran S.told S.moment_of S.faults_of actor events old new
        → (new.held.base ≡ old.held.base) × (new.held.opened ≡ old.held.opened) × Told (S.told old.store) (S.told new.store) (GoesOn (λ file. Unit {0})) }
{}

/// Over such a store, where each transaction of a hall is durable and no fault has halted it, each image that a stop right now may leave gives back the hall's state.
pub fn halls_at_rest_are_there<S: Store>()
    ensures { (hall : Hall S) (m : Machine) (h : History) (image : ℕ → List ℕ) → S.told hall.store ≡ Some h → Is S.told S.moment_of S.faults_of hall m → WasSound hall.held.base hall.held.opened h
        → m.core.fault ≡ None → length m.core.stamps ≡ length m.core.journal → ImageAt h (now h) image → GivesState m image }
{}

/// And whatever halted it, the store is one over which a hall may be opened again, with every transaction that has a stamp.
pub fn halls_leave_sound_stores<S: Store>()
    ensures { (hall : Hall S) (m : Machine) (h : History) → S.told hall.store ≡ Some h → Is S.told S.moment_of S.faults_of hall m → WasSound hall.held.base hall.held.opened h → LeavesSound m h }
{}

/// It has the backups of the database to which it recovers, where it had those of the base when the hall was opened.
pub fn halls_leave_backups<S: Store>()
    ensures { (hall : Hall S) (m : Machine) (h : History) (v : Inv) → S.told hall.store ≡ Some h → Is S.told S.moment_of S.faults_of hall m → WasSound hall.held.base hall.held.opened h
        → HadBackups hall.held.base hall.held.opened h → Recovers meaning (reads h) v → HadBackups v (now h) h }
{}

/// Where each image of a run's moments is safe, the store that a stop of the machine at one of them leaves recovers to the database behind a transaction that is at least the last that was acknowledged by
/// then, and a hall may be opened over it.
pub fn stopped_stores_are_sound()
    ensures { (m : Machine) (opened : ℕ) (h : History) (moment : ℕ) (after : History) → AlwaysSafe m.contents m.core opened h → opened ≤ moment → moment ≤ now h → StopsAs (back h moment) after
        → IsOnDisk after × HasFirst m (acknowledged moment m.core.stamps) after }
{}

/// Where a store that a stop has left has what was made up to some transaction, so has the store that another stop leaves while it is opened; and so on, however often that may be.
pub fn stops_while_opening()
    ensures { (m : Machine) (count : ℕ) (start mid : History) (second : ℕ) (after : History) → IsOnDisk start → HasFirst m count start → Spared meaning start mid → now start ≤ second → second ≤ now mid
        → StopsAs (back mid second) after → IsOnDisk after × HasFirst m count after }
{}

/// While a store is opened no stop takes a database backup from it. Where it is sound, and each image that a stop may leave at the start backs the database to which it recovers, so does each image of each moment since (`within`).
/// That is so at the start where it was so at every moment since a hall was opened (`left`); where a stop left the store at a moment at which it was so, of a run or of an opening (`stopped`); and where each image recovers to a
/// new server's database (`fresh`). What a stop leaves also has the backups of the database to which it recovers, and what one leaves within an opening is sound (`sound`): so a store may be stopped while it is opened, and
/// stopped again while it is opened behind that, however often that may be.
pub fn openings_keep_backups()
    ensures within { (contents : ℕ → List ℕ) (start mid : History) → IsSound contents start → Spared meaning start mid → IsBacked start → AlwaysBacked (now start) mid }
    ensures left { (opened : ℕ) (h : History) → AlwaysBacked opened h → opened ≤ now h → IsBacked h }
    ensures stopped { (opened : ℕ) (h : History) (moment : ℕ) (after : History) → AlwaysBacked opened h → opened ≤ moment → moment ≤ now h → StopsAs (back h moment) after → IsBacked after × HasOwnBackups after }
    ensures sound { (contents : ℕ → List ℕ) (start mid : History) (moment : ℕ) (after : History) → IsSound contents start → Spared meaning start mid → now start ≤ moment → moment ≤ now mid → StopsAs (back mid moment) after → IsSound contents after }
    ensures fresh { (h : History) → EachImage (now h) h (λ files. RecoversWithin meaning files fresh) → IsBacked h × HasOwnBackups h }
{}

/// A hall may be opened over a store each of whose images recovers to a new server's database, as after formatting, whatever bytes the objects are to have: there is no version yet.
pub fn new_stores_are_sound()
    ensures { (contents : ℕ → List ℕ) (h : History) → EachImage (now h) h (λ files. RecoversWithin meaning files fresh) → IsSound contents h }
{}
