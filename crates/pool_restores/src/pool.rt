//! The process that restores a pool.
ghost use Rattle.std.specs.Prelude.{◌≡◌, ◌⊎◌, ◌≤◌, ◌+◌, ◌-◌, ◌^◌, IfOk};
ghost use Rattle.steps.specs.Calls.{Call};
ghost use Rattle.pool_restores.specs.Restoring.{BeginsPool, ChecksThere, PoolRestore};

use crate::asking::ask_volumes;
use crate::listing::{collect, destroyed_of, is_there};
use copy_runs::{Moved, Wanted, ask_pools, copy_and_finish};
use inventory_work::Listed;
use kinds::Refusal;
use std::alloc::Global;
use steps::Stepper;

/// Asks whether the pool is there.
fn check<P: Stepper>(p: &mut P, pool: u32) -> Result<(), Refusal>
    ensures { Call P.did p.old p.new (λ events. ChecksThere pool events result) }
{
    let lines = match ask_pools(p) {
        Ok(lines) => lines,
        Err(refusal) => return Err(refusal),
    };
    let there = is_there(lines.as_slice(), pool);
    drop(lines);
    if there {
        Ok(())
    } else {
        Err(Refusal::NotFound)
    }
}

/// Asks which copies are wanted.
fn begin<P: Stepper>(alloc: Global, p: &mut P, pool: u32) -> Result<Listed<Wanted>, Refusal>
    ensures { Call P.did p.old p.new (λ events. BeginsPool pool events result) }
{
    let volumes = match ask_volumes(p) {
        Ok(volumes) => volumes,
        Err(refusal) => return Err(refusal),
    };
    match check(p, pool) {
        Ok(()) => (),
        Err(refusal) => return Err(refusal),
    }
    match destroyed_of(alloc, volumes.as_slice()) {
        Ok(files) => collect(alloc, p, Some(pool), files.as_slice()),
        Err(refusal) => Err(refusal),
    }
}

/// Copies what the DESTROYED volumes of the pool with this number held into the pool again, or where it has no room to the pools behind it, from other copies of the objects, and
/// answers how many copies were made and for how many objects none could be made. It passes over an object that was removed meanwhile, and over one whose copy was moved or dropped.
/// `NotFound` where the pool isn't there, also where it goes meanwhile, or one of these volumes does. It ends with `InventoryFull`, `LogFault`, `RunFull` or `Memory` where a step of its
/// own answers so, and with `Busy` where a step of its own and then `wait` answer so; what it restored until then stays so.
pub fn restore_pool<P: Stepper>(alloc: Global, p: &mut P, pool: u32) -> Result<Moved, Refusal>
    ensures came { Call P.did p.old p.new (λ events. PoolRestore pool events result) }
    ensures rise { IfOk result (λ m. (P.refused_of p.old + m.failed ≤ P.refused_of p.new) ⊎ (2 ^ 64 - 1 ≤ P.refused_of p.new)) }
{
    let wanted = match begin(alloc, p, pool) {
        Ok(wanted) => wanted,
        Err(refusal) => return Err(refusal),
    };
    copy_and_finish(p, wanted.as_slice(), 0)
}
