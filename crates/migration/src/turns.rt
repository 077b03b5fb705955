//! The copies of a pool, one after the other.
ghost use Rattle.std.specs.Prelude.{◌≡◌, ◌+◌, ℕ, length, IfSome};
ghost use Rattle.steps.specs.Calls.{Call};
ghost use Rattle.copy_runs.specs.Parts.{both_moved};
ghost use Rattle.migration.specs.Migrating.{Lowers, Turning};
ghost use Rattle.migration.specs.Turns.{rest_of};

use crate::left::{Left, fill, take, unasked};
use crate::marks::look;
use choosers::Chooser;
use copy_runs::{Moved, copy_all};
use kinds::Refusal;
use std::alloc::Global;
use steps::Stepper;

/// The counts of two parts; none where one of them is more than a number of 64 bits.
pub(crate) fn both(so_far: Moved, more: Moved) -> Option<Moved>
    ensures { IfSome result (λ m. m ≡ both_moved so_far more) }
{
    match (
        so_far.moved.checked_add(more.moved),
        so_far.failed.checked_add(more.failed),
    ) {
        (Some(moved), Some(failed)) => Some(Moved { moved, failed }),
        _ => None,
    }
}

/// Tries to move one more copy, and answers what came of it; none where at most the mark is used, or none is left that wasn't tried.
fn turn<P: Stepper, C: Chooser>(
    alloc: Global,
    p: &mut P,
    chooser: &C,
    pool: u32,
    low: u8,
    left: &mut Left,
) -> Result<Option<Moved>, Refusal>
    requires { length left.old.placed.items ≡ length left.old.candidates.items }
    ensures turning { Call P.did p.old p.new (λ events. Turning (C.picks chooser.now) pool low (rest_of left.old) (rest_of left.new) events result) }
    ensures same { length left.new.placed.items ≡ length left.new.candidates.items }
{
    let to = match look(p, pool, low) {
        Ok(Some(to)) => to,
        Ok(None) => return Ok(None),
        Err(refusal) => return Err(refusal),
    };
    match fill(alloc, p, pool, left) {
        Ok(()) => (),
        Err(refusal) => return Err(refusal),
    }
    if left.candidates.is_empty() {
        return Ok(None);
    }
    let wanted = take(chooser, pool, to, left);
    match copy_all(p, &[wanted], 0) {
        Ok(moved) => Ok(Some(moved)),
        Err(refusal) => Err(refusal),
    }
}

/// Moves copies of the pool to the pools behind it while more of it is used than the mark, and answers how many were moved and for how many objects none could be moved.
pub(crate) fn lower<P: Stepper, C: Chooser>(
    alloc: Global,
    p: &mut P,
    chooser: &C,
    pool: u32,
    low: u8,
) -> Result<Moved, Refusal>
    ensures { Call P.did p.old p.new (λ events. Lowers (C.picks chooser.now) pool low events result) }
{
    let mut left = unasked(alloc);
    let mut so_far = Moved {
        moved: 0,
        failed: 0,
    };
    let mut tries = 0;
    'turns: while tries < u64::MAX {
        match turn(alloc, p, chooser, pool, low, &mut left) {
            Ok(Some(more)) => match both(so_far, more) {
                Some(sum) => {
                    so_far = sum;
                    tries += 1;
                }
                None => return Err(Refusal::Memory),
            },
            Ok(None) => return Ok(so_far),
            Err(refusal) => return Err(refusal),
        }
    }
    Err(Refusal::Memory)
}
