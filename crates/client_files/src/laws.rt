// What the definitions mean for a history, as laws. Each stands on a function that does nothing.
ghost use Rattle.std.specs.Prelude.{◌≡◌, ℕ, List, [], length, Option, Result, Ok};
ghost use Rattle.kinds.specs.declared.refusal.Refusal.{Refusal};
ghost use Rattle.client_trees.specs.Files.{ClientFile};
ghost use Rattle.steps.specs.Events.{Event};
ghost use Rattle.machine.specs.Fits.{Fits, History, Own};
ghost use Rattle.client_files.specs.declared.restoring.Stored.{Stored};
ghost use Rattle.client_files.specs.declared.outcome.Came.{Came};
ghost use Rattle.client_files.specs.Outcomes.{Sending};
ghost use Rattle.client_files.specs.Restoring.{ReadsAll, read_in};
ghost use Rattle.client_files.specs.Tickets.{LeavesTickets};

/// What an actor's steps read whole of an object, whatever other actors did between them, is the object's bytes, where these are as
/// many as it is said to have.
pub fn restored_bytes_are_stored()
    ensures { (w : History) (actor : ℕ) (old new : Own) (s : Stored) (before after : ℕ) (events : List Event) → Fits w actor old events new → ReadsAll s before after events (Ok s.digest)
        → length (w.contents s.object) ≡ s.size → read_in events ≡ w.contents s.object }
{}

/// Behind a file that was sent an actor that had no ticket has the one that was sealed, with the client's bytes in it, in every history that the steps fit; or none, unless
/// the hall is halted or the run is full.
pub fn sent_files_are_ticketed()
    ensures { (w : History) (actor : ℕ) (old new : Own) (file : Option ClientFile) (pool size before after : ℕ) (events : List Event) (result : Result Came Refusal) → Fits w actor old events new → old.tickets ≡ []
        → Sending file pool size before after events result → LeavesTickets actor file size result new.tickets }
{}
