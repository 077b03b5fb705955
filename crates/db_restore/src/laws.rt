// What the definitions mean, as laws. Each stands on a function that does nothing.
ghost use Rattle.std.specs.Prelude.{◌≡◌, ℕ, true, List, Result};
ghost use Rattle.std.specs.List.{AllByRecursion};
ghost use Rattle.store_api.specs.Disk.{History, reads};
ghost use Rattle.volume_frames.specs.Frames.{bytes_of};
ghost use Rattle.inventory_rows.specs.Search.{versions};
ghost use Rattle.inventory_rows.specs.State.{Inv};
ghost use Rattle.inventory_rules.specs.Valid.{is_valid};
ghost use Rattle.db_losses.specs.Losses.{Losses, restored};
ghost use Rattle.db_restore.specs.Missing.{AreJudged};
ghost use Rattle.db_restore.specs.Restoring.{Restores};
ghost use Rattle.db_restore.specs.Sequential.{KeepsSequential, SparesSequential, StandSequential, with_sequential};
ghost use Rattle.db_restore.specs.declared.done.RestoreDone.{RestoreDone};
ghost use Rattle.db_restore.specs.declared.refused.RestoreRefused.{RestoreRefused};

/// Where the copies in sequential pools still stand as a backup's database says, and none of them is passed over, no object with such a copy is lost, and each such copy is kept; they stand so where their
/// frames have their objects' bytes. And whatever came of a restore, each copy's bytes read as before.
pub fn sequential_copies_stay()
    ensures stay { (image : ℕ → List ℕ) (skipped : List ℕ) (losses : Losses) (file day : ℕ) (p : Inv) → KeepsSequential image p → SparesSequential skipped p → AreJudged image skipped losses p → with_sequential p (versions (restored losses file day p)) ≡ with_sequential p (versions p) }
    ensures found { (image : ℕ → List ℕ) (contents : ℕ → List ℕ) (p : Inv) → StandSequential contents image p → KeepsSequential image p }
    ensures bytes { (p : Inv) (file day : ℕ) (skipped : List ℕ) (result : Result RestoreDone RestoreRefused) (old new : History) → is_valid p ≡ true → Restores p file day skipped result old new → AllByRecursion (λ w. AllByRecursion (λ c. bytes_of (reads new) c.segments ≡ bytes_of (reads old) c.segments) w.copies) (versions p) }
{}
