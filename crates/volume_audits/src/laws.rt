// What the definitions mean for a history, as laws. Each stands on a function that does nothing.
ghost use Rattle.std.specs.Prelude.{◌≡◌, ℕ, List, [], Bool};
ghost use Rattle.inventory_work.specs.declared.lines.CopyLine.{CopyLine};
ghost use Rattle.machine.specs.Fits.{Fits, History, Own};
ghost use Rattle.steps.specs.Events.{Event};
ghost use Rattle.steps.specs.Receipts.{made};
ghost use Rattle.volume_audits.specs.declared.audit.Audit.{Audit};
ghost use Rattle.volume_audits.specs.Auditing.{IsInOrder};
ghost use Rattle.volume_audits.specs.Rows.{AreStored};

/// In a history whose objects have the bytes that were stored an audit finds no damaged copy, and commits nothing.
pub fn sound_stores_are_clean()
    ensures { (w : History) (actor : ℕ) (old new : Own) (fix : Bool) (file : ℕ) (lines : List CopyLine) (events : List Event) (a : Audit) → AreStored w → Fits w actor old events new → IsInOrder fix file lines events a
        → (a.damaged ≡ []) × (made events ≡ []) }
{}
