// What the definitions mean, as laws. Each stands on a function that does nothing.
ghost use Rattle.std.specs.Prelude.{◌≡◌, ℕ, List, Option, Some, IfErr, Result};
ghost use Rattle.kinds.specs.declared.refusal.Refusal.{Refusal};
ghost use Rattle.steps.specs.Events.{Event};
ghost use Rattle.client_files.specs.declared.outcome.Gave.{Gave};
ghost use Rattle.client_trees.specs.Files.{Files, file_at};
ghost use Rattle.restores.specs.Causes.{AreReading, IsCaused};
ghost use Rattle.restores.specs.Given.{Gives};
ghost use Rattle.restores.specs.Restores.{Restores};
ghost use Rattle.inventory_answers.specs.declared.lines.VersionLine.{VersionLine};
ghost use Rattle.restores.specs.Chosen.{chosen};
ghost use Rattle.restores.specs.Standing.{AreApart, Ascend, HaveFiles, IsNoneOf};
ghost use Rattle.restores.specs.declared.choosing.RestoreLine.{RestoreLine};
ghost use Rattle.restores.specs.declared.choosing.Which.{Which};
ghost use Rattle.restores.specs.declared.process.Restored.{Restored};

/// Where objects are restored to different paths of a tree that tells its files, each that was restored stands there at the end, of
/// its size and with its digest and time, whatever came of the others; and at every other path the tree has what it had.
pub fn restored_files_stand()
    ensures files { (lines : List RestoreLine) (gave : List Gave) (before after : ℕ) (old new : Files) (events : List Event) → AreApart lines → Gives lines gave before after (Some old) (Some new) events
        → HaveFiles lines gave new }
    ensures others { (lines : List RestoreLine) (gave : List Gave) (before after : ℕ) (old new : Files) (events : List Event) (path : List ℕ) → IsNoneOf path lines
        → Gives lines gave before after (Some old) (Some new) events → file_at path new ≡ file_at path old }
{}

/// A restore only asks and reads. It ends with a refusal only for want of memory, or where one of its steps was refused so: since the filespace isn't there, the hall is halted, or the run is full.
pub fn restores_only_read()
    ensures steps { (node filespace : List ℕ) (which : Which) (before after : ℕ) (old new : Option Files) (events : List Event) (result : Result Restored Refusal)
        → Restores node filespace which before after old new events result → AreReading events }
    ensures cause { (node filespace : List ℕ) (which : Which) (before after : ℕ) (old new : Option Files) (events : List Event) (result : Result Restored Refusal)
        → Restores node filespace which before after old new events result → IfErr result (λ e. IsCaused events e) }
{}

/// Of versions that stand by path no two are restored to one path, whichever are asked.
pub fn chosen_paths_differ()
    ensures { (which : Which) (lines : List VersionLine) → Ascend lines → AreApart (chosen which lines) }
{}
