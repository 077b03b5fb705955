//! The process.
ghost use Rattle.std.specs.Prelude.{◌≡◌, ◌⊎◌, ◌≤◌, ◌+◌, ◌-◌, ◌^◌, IfOk};
ghost use Rattle.steps.specs.Calls.{Call};
ghost use Rattle.migration.specs.Migrating.{Migration};
ghost use Rattle.migration.specs.Sweeping.{AllMigration};

use crate::sweep::sweep;
use crate::turns::lower;
use choosers::Chooser;
use copy_attempts::stopping;
use copy_runs::Moved;
use kinds::Refusal;
use std::alloc::Global;
use steps::Stepper;

/// Moves copies of the pool with this number to the next pool of the hierarchy, and from there on to the first with room, until at most `low` hundredths of it are used or each copy
/// was tried, and answers how many were moved and for how many objects none could be moved. Which copy is next is picked by the chooser among those of the pool that
/// weren't tried yet, in ascending order of their objects; how much is used is asked before each. It passes over an object that was removed meanwhile, and over one whose copy
/// was moved or dropped. `NotFound` where the pool isn't there, or the next one, also where it goes meanwhile, and `BadHierarchy` where it has no next one. It ends with
/// `InventoryFull`, `LogFault`, `RunFull` or `Memory` where a step of its own answers so, and with `Busy` where a step of its own and then `wait` answer so; what it moved until
/// then stays moved.
pub fn migrate<P: Stepper, C: Chooser>(
    alloc: Global,
    p: &mut P,
    chooser: &C,
    pool: u32,
    low: u8,
) -> Result<Moved, Refusal>
    ensures came { Call P.did p.old p.new (λ events. Migration (C.picks chooser.now) pool low events result) }
    ensures rise { IfOk result (λ m. (P.refused_of p.old + m.failed ≤ P.refused_of p.new) ⊎ (2 ^ 64 - 1 ≤ P.refused_of p.new)) }
{
    let moved = match lower(alloc, p, chooser, pool, low) {
        Ok(moved) => moved,
        Err(refusal) => return Err(refusal),
    };
    match p.force() {
        Ok(_) => Ok(moved),
        Err(refusal) => Err(stopping(refusal)),
    }
}

/// Migrates each primary pool with a next one of which at least its HIGHMIG is used when its turn comes, by ascending number, down to its LOWMIG, as `migrate` does, and answers how
/// many copies were moved and for how many objects none could be moved. It ends as `migrate` does where the migration of a pool ends with a refusal.
pub fn migrate_all<P: Stepper, C: Chooser>(
    alloc: Global,
    p: &mut P,
    chooser: &C,
) -> Result<Moved, Refusal>
    ensures came { Call P.did p.old p.new (λ events. AllMigration (C.picks chooser.now) events result) }
    ensures rise { IfOk result (λ m. (P.refused_of p.old + m.failed ≤ P.refused_of p.new) ⊎ (2 ^ 64 - 1 ≤ P.refused_of p.new)) }
{
    let moved = match sweep(alloc, p, chooser) {
        Ok(moved) => moved,
        Err(refusal) => return Err(refusal),
    };
    match p.force() {
        Ok(_) => Ok(moved),
        Err(refusal) => Err(stopping(refusal)),
    }
}
