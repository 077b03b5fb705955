//! The process that empties one volume.
ghost use Rattle.std.specs.Prelude.{◌⊎◌, ◌≤◌, ◌+◌, ◌-◌, ◌^◌, ◌==◌, IfOk};
ghost use Rattle.steps.specs.Calls.{Call};
ghost use Rattle.reclamation.specs.Moving.{Allows, Begins, Checks, DataMove};

use crate::asking::{ask_volumes, list};
use crate::target::{goes, wanted};
use copy_runs::{Moved, Wanted, ask_pools, copy_and_finish};
use inventory_work::Listed;
use kinds::Refusal;
use std::alloc::Global;
use steps::Stepper;

/// Asks whether what lies on the volume may move to the pool.
fn check<P: Stepper>(p: &mut P, file: u32, to: u32) -> Result<(), Refusal>
    ensures { Call P.did p.old p.new (λ events. Checks file to events result) }
{
    let volumes = match ask_volumes(p) {
        Ok(volumes) => volumes,
        Err(refusal) => return Err(refusal),
    };
    match ask_pools(p) {
        Ok(pools) => goes(volumes.as_slice(), pools.as_slice(), file, to),
        Err(refusal) => Err(refusal),
    }
}

/// Asks so where a pool is named.
fn check_if<P: Stepper>(p: &mut P, file: u32, to: u32) -> Result<(), Refusal>
    ensures { Call P.did p.old p.new (λ events. Allows (to == 0) file to events result) }
{
    if to == 0 { Ok(()) } else { check(p, file, to) }
}

/// Asks which copies are wanted.
fn begin<P: Stepper>(
    alloc: Global,
    p: &mut P,
    file: u32,
    to: u32,
) -> Result<Listed<Wanted>, Refusal>
    ensures { Call P.did p.old p.new (λ events. Begins file to events result) }
{
    let lines = match list(p, file) {
        Ok(lines) => lines,
        Err(refusal) => return Err(refusal),
    };
    match check_if(p, file, to) {
        Ok(()) => wanted(alloc, lines.as_slice(), to),
        Err(refusal) => Err(refusal),
    }
}

/// Moves what lies on the volume with this file number to other volumes, of the pool with the number `to`, or with 0 of its own, and answers how many copies were moved
/// and for how many objects none could be moved. The volume itself isn't used. It passes over an object that was removed meanwhile, and over one whose copy was moved or
/// dropped. `NotFound` where the volume isn't there, or the pool, also where the pool goes meanwhile. `BadHierarchy` where the pool is another than the volume's and one of
/// the two is a copy pool. It ends with `InventoryFull`, `LogFault`, `RunFull` or `Memory` where a step of its own answers so, and with `Busy` where a step of its own and
/// then `wait` answer so; what it moved until then stays moved.
pub fn move_data<P: Stepper>(alloc: Global, p: &mut P, file: u32, to: u32) -> Result<Moved, Refusal>
    ensures came { Call P.did p.old p.new (λ events. DataMove file to events result) }
    ensures rise { IfOk result (λ m. (P.refused_of p.old + m.failed ≤ P.refused_of p.new) ⊎ (2 ^ 64 - 1 ≤ P.refused_of p.new)) }
{
    let wanted = match begin(alloc, p, file, to) {
        Ok(wanted) => wanted,
        Err(refusal) => return Err(refusal),
    };
    copy_and_finish(p, wanted.as_slice(), file)
}
