// What the definitions mean for a history, as laws. Each stands on a function that does nothing.
ghost use Rattle.std.specs.Prelude.{◌≡◌, ℕ, List, Option, Result, None, Ok, Err, false};
ghost use Rattle.kinds.specs.declared.refusal.Refusal.TheVariants.{NotFound};
ghost use Rattle.kinds.specs.declared.refusal.Refusal.{Refusal};
ghost use Rattle.copy_runs.specs.Ends.{first_of};
ghost use Rattle.machine.specs.Fits.{Fits, History, Own};
ghost use Rattle.steps.specs.Events.{Event};
ghost use Rattle.db_backup.specs.declared.taking.Taken.{Taken};
ghost use Rattle.db_backup.specs.Backups.{FollowsNewest};
ghost use Rattle.db_backup.specs.Rows.{FollowsAt, IsBackedUp, IsNoneToFollow};
ghost use Rattle.db_backup.specs.Taking.{Backs, kind_of, may_leave};

/// A backup that was made holds what the database was behind its own beginning, which is the transaction with its number; its end stands in the journal behind it.
pub fn backups_are_journaled()
    ensures { (w : History) (actor : ℕ) (old new : Own) (after : Option ℕ) (events : List Event) (t : Taken) → Fits w actor old events new → Backs (kind_of after) events (Ok t) → IsBackedUp w actor after t }
{}

/// Behind a backup of an actor who had no image in progress it has none, unless the hall is halted, the run is full, or memory was wanted.
pub fn no_image_is_left()
    ensures { (w : History) (actor : ℕ) (old new : Own) (after : Option ℕ) (events : List Event) (result : Result Taken Refusal) → Fits w actor old events new → old.image ≡ None → Backs (kind_of after) events result
        → may_leave result ≡ false → new.image ≡ None }
{}

/// A backup that follows another follows the whole one that has the greatest number where it begins. It isn't refused for want of such a one unless there is none, or that one couldn't be followed when its turn came.
pub fn increments_follow_the_newest()
    ensures made { (w : History) (actor : ℕ) (old new : Own) (events : List Event) (t : Taken) → Fits w actor old events new → FollowsNewest events (Ok t) → FollowsAt w actor (first_of events) t }
    ensures refused { (w : History) (actor : ℕ) (old new : Own) (events : List Event) → Fits w actor old events new → FollowsNewest events (Err NotFound) → IsNoneToFollow w events }
{}
