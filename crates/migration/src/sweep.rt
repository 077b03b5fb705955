//! The pools that are due, one after the other.
ghost use Rattle.std.specs.Prelude.{◌≡◌};
ghost use Rattle.steps.specs.Calls.{Call};
ghost use Rattle.migration.specs.Sweeping.{AsksDue, SweepTurn, SweepsAll, due_at, due_of, is_behind, is_due};

use crate::marks::has_reached;
use crate::turns::{both, lower};
use choosers::Chooser;
use copy_runs::{Moved, ask_pools};
use inventory_answers::PoolLine;
use inventory_rows::is_primary_kind;
use kinds::Refusal;
use std::alloc::Global;
use steps::Stepper;

/// A pool that is to be migrated.
#[derive(Clone, Copy)]
pub(crate) struct Due {
    /// Its number.
    pub pool: u32,
    /// Its low mark, in hundredths.
    pub low: u8,
}

/// What came of a pool.
#[derive(Clone, Copy)]
pub(crate) struct Swept {
    /// Its number.
    pub pool: u32,
    pub moved: Moved,
}

/// Whether the pool comes behind the one with the number `before`, where there was one.
fn is_behind(before: Option<u32>, number: u32) -> bool
    ensures { result ≡ is_behind before number }
{
    match before {
        Some(before) => before < number,
        None => true,
    }
}

/// Whether the pool is a primary one with a next one, of which at least its high mark is used.
fn is_due(before: Option<u32>, line: &PoolLine) -> bool
    ensures { result ≡ is_due before line.now }
{
    is_behind(before, line.number)
        && is_primary_kind(line.kind)
        && line.settings.next.is_some()
        && has_reached(line, line.settings.high)
}

fn due_at(line: &PoolLine) -> Due
    ensures { result ≡ due_at line.now }
{
    Due {
        pool: line.number,
        low: line.settings.low,
    }
}

/// The first pool that is due.
fn due_of(before: Option<u32>, lines: &[PoolLine]) -> Option<Due>
    ensures { result ≡ due_of before lines.now }
{
    match lines.iter().find(|line| is_due(before, line)) {
        Some(line) => Some(due_at(line)),
        None => None,
    }
}

/// Asks which pool is due.
fn ask_due<P: Stepper>(p: &mut P, before: Option<u32>) -> Result<Option<Due>, Refusal>
    ensures { Call P.did p.old p.new (λ events. AsksDue before events result) }
{
    match ask_pools(p) {
        Ok(lines) => {
            let next = due_of(before, lines.as_slice());
            drop(lines);
            Ok(next)
        }
        Err(refusal) => Err(refusal),
    }
}

/// Migrates the next pool that is due; none where none is.
fn sweep_one<P: Stepper, C: Chooser>(
    alloc: Global,
    p: &mut P,
    chooser: &C,
    before: Option<u32>,
) -> Result<Option<Swept>, Refusal>
    ensures { Call P.did p.old p.new (λ events. SweepTurn (C.picks chooser.now) before events result) }
{
    let next = match ask_due(p, before) {
        Ok(Some(next)) => next,
        Ok(None) => return Ok(None),
        Err(refusal) => return Err(refusal),
    };
    match lower(alloc, p, chooser, next.pool, next.low) {
        Ok(moved) => Ok(Some(Swept {
            pool: next.pool,
            moved,
        })),
        Err(refusal) => Err(refusal),
    }
}

/// Migrates the pools that are due, one after the other, by ascending number.
pub(crate) fn sweep<P: Stepper, C: Chooser>(
    alloc: Global,
    p: &mut P,
    chooser: &C,
) -> Result<Moved, Refusal>
    ensures { Call P.did p.old p.new (λ events. SweepsAll (C.picks chooser.now) events result) }
{
    let mut before = None;
    let mut so_far = Moved {
        moved: 0,
        failed: 0,
    };
    let mut turns = 0;
    'pools: while turns < u32::MAX {
        match sweep_one(alloc, p, chooser, before) {
            Ok(Some(swept)) => match both(so_far, swept.moved) {
                Some(sum) => {
                    so_far = sum;
                    before = Some(swept.pool);
                    turns += 1;
                }
                None => return Err(Refusal::Memory),
            },
            Ok(None) => return Ok(so_far),
            Err(refusal) => return Err(refusal),
        }
    }
    Err(Refusal::Memory)
}
