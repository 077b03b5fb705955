// What the definitions mean, as laws. Each stands on a function that does nothing.
ghost use Rattle.std.specs.Prelude.{◌≡◌, List, Some};
ghost use Rattle.store_api.specs.Runs.{GoesOn};
ghost use Rattle.store_api.specs.Told.{Told};
ghost use Rattle.machine.specs.Stamps.{KeepsStamps};
ghost use Rattle.machine.specs.State.{Machine};
ghost use Rattle.machine.specs.Turns.{Turn};
ghost use Rattle.hall.specs.Good.{Is};
ghost use Rattle.hall.specs.Held.{Hall};
ghost use Rattle.hall.specs.Placed.{hall_places};
ghost use Rattle.hall.specs.Steps.{IsTrusted};
ghost use Rattle.crew.specs.Ran.{EachFits, RanFrom, ReadExactly, Turned, began};

use store_api::Store;

/// What each actor did in a block fits every history that goes on from behind the block: each of its steps was made on the database of its number, and what joined by it stands in the history. So it is over whatever
/// store, where nobody read, and over one that tells its bytes and was sound when the hall was opened, of every block; what was read then are the objects' bytes, and the store is still one that was sound then.
pub fn blocks_fit<S: Store>()
    ensures fits { (turns : List Turn) (hall new : Hall S) (m : Machine) → Is S.told S.moment_of S.faults_of hall m → ReadExactly (IsTrusted (S.told hall.store) hall.held) turns
        → RanFrom S.told S.moment_of S.faults_of (Some (began S.told S.moment_of S.faults_of hall)) turns new
        → (last : Machine) × Is S.told S.moment_of S.faults_of new last × EachFits turns m last }
    ensures trusted { (turns : List Turn) (hall new : Hall S) (m : Machine) → Is S.told S.moment_of S.faults_of hall m → IsTrusted (S.told hall.store) hall.held
        → RanFrom S.told S.moment_of S.faults_of (Some (began S.told S.moment_of S.faults_of hall)) turns new → IsTrusted (S.told new.store) new.held }
{}

/// What was done in a block is a run of the machine by all of its actors, turn by turn. Over a store that tells its bytes and was sound when the hall was opened what they read are the very bytes that the objects
/// have, what each of them did fits every history that goes on from behind that very run, and behind it the store is still one that was sound then. The stamps that were there stay. The store goes on from what it told.
pub fn blocks_are_turns<S: Store>()
    ensures turned { (turns : List Turn) (hall new : Hall S) (m : Machine) → Is S.told S.moment_of S.faults_of hall m → RanFrom S.told S.moment_of S.faults_of (Some (began S.told S.moment_of S.faults_of hall)) turns new
        → (last : Machine) × Turned ⊥ hall_places turns m last × Is S.told S.moment_of S.faults_of new last × KeepsStamps m.core last.core }
    ensures exact { (turns : List Turn) (hall new : Hall S) (m : Machine) → Is S.told S.moment_of S.faults_of hall m → IsTrusted (S.told hall.store) hall.held
        → RanFrom S.told S.moment_of S.faults_of (Some (began S.told S.moment_of S.faults_of hall)) turns new
        → (last : Machine) × Turned (Unit {0}) hall_places turns m last × Is S.told S.moment_of S.faults_of new last × IsTrusted (S.told new.store) new.held × KeepsStamps m.core last.core × EachFits turns m last }
    ensures goes { (turns : List Turn) (hall new : Hall S) → RanFrom S.told S.moment_of S.faults_of (Some (began S.told S.moment_of S.faults_of hall)) turns new
        → (new.held.base ≡ hall.held.base) × (new.held.opened ≡ hall.held.opened) × Told (S.told hall.store) (S.told new.store) (GoesOn (λ file. Unit {0})) }
{}
