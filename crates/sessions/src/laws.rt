// What the definitions mean for a history, as laws. Each stands on a function that does nothing.
ghost use Rattle.std.specs.Prelude.{◌≡◌, ℕ, List, [], Option, Result, None, Ok, false};
ghost use Rattle.choosers.specs.declared.rule.Rule.{Rule};
ghost use Rattle.client_trees.specs.Files.{ClientFile};
ghost use Rattle.client_trees.specs.declared.tree.FileRow.{FileRow};
ghost use Rattle.entries.specs.declared.change.Change.{Change};
ghost use Rattle.machine.specs.Fits.{Fits, History, Own};
ghost use Rattle.steps.specs.Events.{Event};
ghost use Rattle.kinds.specs.declared.refusal.Refusal.{Refusal};
ghost use Rattle.sessions.specs.BackedUp.{IsPut, LeavesNone};
ghost use Rattle.sessions.specs.Changing.{Changes, IsJournaled};
ghost use Rattle.sessions.specs.Checkpoints.{Checkpoints, may_leave};
ghost use Rattle.sessions.specs.Getting.{GetsAll, IsActiveVersion};
ghost use Rattle.sessions.specs.Putting.{Puts};
ghost use Rattle.sessions.specs.Validating.{IsValidated, Validates};
ghost use Rattle.sessions.specs.declared.getting.FileRead.{FileRead};

/// A change that was answered with a number is the transaction with this number in every history that its steps fit.
pub fn answered_changes_are_journaled()
    ensures { (w : History) (actor : ℕ) (old new : Own) (c : Change) (number : ℕ) (events : List Event) → Fits w actor old events new → Changes c events (Ok number) → IsJournaled w actor c number }
{}

/// Behind a checkpoint of an actor who had no image in progress it has none, unless the hall is halted, the run is full, or memory was wanted.
pub fn no_image_is_left()
    ensures { (w : History) (actor : ℕ) (old new : Own) (events : List Event) (result : Result ℕ Refusal) → Fits w actor old events new → old.image ≡ None → Checkpoints events result → may_leave result ≡ false
        → new.image ≡ None }
{}

/// What is read of a path is its active version at a number between the one that the actor had reached before and the one that it has reached then, in every history that the steps fit: the bytes are those
/// of the version's object, where these are as many as the version is said to have.
pub fn active_versions_are_read()
    ensures { (w : History) (actor : ℕ) (old new : Own) (node filespace path : List ℕ) (events : List Event) (r : FileRead) → Fits w actor old events new → GetsAll node filespace path events r
        → IsActiveVersion w old.reached new.reached node filespace path r }
{}

/// What is answered of a policy set is so at a number between the one that the actor had reached before and the one that it has reached then, in every history that the steps fit: it may be activated, or its
/// activation would be so refused; unless the hall is halted, the run is full, or memory was wanted.
pub fn validated_sets_may_be_activated()
    ensures { (w : History) (actor : ℕ) (old new : Own) (domain set : List ℕ) (events : List Event) (result : Result (Unit {0}) Refusal) → Fits w actor old events new → Validates domain set events result
        → IsValidated w old.reached new.reached domain set result }
{}

/// A file that was put by an actor that had no ticket is there, in every history that the steps fit: one of their transactions, which they acknowledge, makes it the newest version of its path
/// under the class that the path is bound to, and the version's object has the file's bytes, its size and its SHA-256. However it ends, no ticket is left, unless the hall is halted or the run is full.
pub fn put_files_have_their_bytes()
    ensures stored { (w : History) (actor : ℕ) (old new : Own) (node filespace : List ℕ) (choice : List Rule) (given : Option ClientFile) (file : FileRow) (events : List Event) (object : ℕ) → Fits w actor old events new
        → old.tickets ≡ [] → Puts node filespace choice given file events (Ok object) → IsPut w actor node choice given file events }
    ensures spent { (w : History) (actor : ℕ) (old new : Own) (node filespace : List ℕ) (choice : List Rule) (given : Option ClientFile) (file : FileRow) (events : List Event) (result : Result ℕ Refusal)
        → Fits w actor old events new → old.tickets ≡ [] → Puts node filespace choice given file events result → LeavesNone result new.tickets }
{}
