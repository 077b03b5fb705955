//! Copies on a volume, which go: of a copy pool's volume they are dropped, by transactions of at most 256, and one by one where such a transaction is refused.
ghost use Rattle.std.specs.Prelude.{◌≡◌, ◌≤◌, ◌<◌, ◌+◌, ◌^◌, map, length, IfOk};
ghost use Rattle.kinds.specs.Answers.{AnswersBy};
ghost use Rattle.steps.specs.Calls.{Call};
ghost use Rattle.deletions.specs.Discarding.{TriesAsked};
ghost use Rattle.deletions.specs.Dropping.{DiscardsLast, Drops, dropping, doomed, sum};

use crate::lists::{run_of, try_objects};
use crate::objects::{Doomed, Tried, outcome};
use entries::Change;
use entries::change_items::{Batch, DiscardReason, DropReason, DroppedCopies, DroppedCopy};
use inventory_work::{CopyLine, Listed};
use kinds::Refusal;
use std::alloc::Global;
use steps::{Asked, Stepper};

/// What went with a volume.
#[derive(Clone, Copy, Debug, PartialEq, Eq)]
pub struct Removed {
    /// How many objects were discarded.
    pub discarded: u64,
    /// How many copies were dropped of objects that have others.
    pub dropped: u64,
}

/// Both together.
fn sum(first: Removed, second: Removed) -> Removed
    requires discarded { first.discarded + second.discarded < 2 ^ 64 }
    requires dropped { first.dropped + second.dropped < 2 ^ 64 }
    ensures { result ≡ sum first second }
{
    Removed {
        discarded: first.discarded + second.discarded,
        dropped: first.dropped + second.dropped,
    }
}

/// The objects of these copies. Its one refusal is want of memory.
pub(crate) fn doomed_by(alloc: Global, lines: &[CopyLine]) -> Result<Listed<Doomed>, Refusal>
    ensures { AnswersBy (λ objects. objects) result (map doomed lines.now) }
{
    let mut objects = Vec::new(alloc);
    'lines: for line in lines {
        objects.push(Doomed {
            object: line.object,
            found: line.digest,
        })?;
    }
    Ok(Listed::from_vec(objects))
}

/// The transaction that drops these copies, since their volume is deleted. Its one refusal is want of memory.
fn dropping(alloc: Global, file: u32, lines: &[CopyLine]) -> Result<Asked, Refusal>
    requires { length lines.now ≤ 256 }
    ensures { AnswersBy (λ asked. asked) result (dropping file lines.now) }
{
    let mut items = Batch::new(alloc);
    'lines: for line in lines {
        items.push(DroppedCopy {
            object: line.object,
            pool: line.pool,
            placed: line.placed,
            found: line.digest,
        })?;
    }
    let reason = DropReason::Volume { file };
    Ok(Asked::Plain(Change::DropCopies(DroppedCopies { reason, items })))
}

/// Tries one transaction that drops these copies.
fn try_copies<P: Stepper>(
    alloc: Global,
    p: &mut P,
    file: u32,
    lines: &[CopyLine],
) -> Result<Tried, Refusal>
    requires { length lines.now ≤ 256 }
    ensures { Call P.did p.old p.new (λ events. TriesAsked (dropping file lines.now) events result) }
{
    let asked = match dropping(alloc, file, lines) {
        Ok(asked) => asked,
        Err(refusal) => return Err(refusal),
    };
    let answer = p.commit(&asked, &[]);
    drop(asked);
    outcome(answer)
}

/// Discards the object of one copy that couldn't be dropped alone, and answers what went: nothing where that is refused too.
fn discard_last<P: Stepper>(
    alloc: Global,
    p: &mut P,
    file: u32,
    lines: &[CopyLine],
) -> Result<Removed, Refusal>
    requires { length lines.now ≡ 1 }
    ensures works { Call P.did p.old p.new (λ events. DiscardsLast file lines.now events result) }
    ensures few { IfOk result (λ m. m.discarded + m.dropped ≤ 1) }
{
    let objects = match doomed_by(alloc, lines) {
        Ok(objects) => objects,
        Err(refusal) => return Err(refusal),
    };
    let reason = DiscardReason::Volume { file };
    match try_objects(alloc, p, reason, objects.as_slice()) {
        Ok(Tried::Made) => Ok(Removed {
            discarded: 1,
            dropped: 0,
        }),
        Ok(Tried::Refused) => Ok(Removed {
            discarded: 0,
            dropped: 0,
        }),
        // The transaction of one object is never so long.
        Ok(Tried::TooLong) => Err(Refusal::Memory),
        Err(refusal) => Err(refusal),
    }
}

/// Drops one copy by a transaction of its own, or discards its object where it can't be dropped, and answers what went: nothing where the object or the copy is
/// gone.
fn drop_alone<P: Stepper>(
    alloc: Global,
    p: &mut P,
    file: u32,
    lines: &[CopyLine],
) -> Result<Removed, Refusal>
    requires { length lines.now ≡ 1 }
    ensures works { Call P.did p.old p.new (λ events. Drops file lines.now events result) }
    ensures few { IfOk result (λ m. m.discarded + m.dropped ≤ length lines.now) }
{
    match try_copies(alloc, p, file, lines) {
        Ok(Tried::Made) => Ok(Removed {
            discarded: 0,
            dropped: lines.len() as u64,
        }),
        Ok(Tried::Refused) => discard_last(alloc, p, file, lines),
        // The transaction of one copy is never so long.
        Ok(Tried::TooLong) => Err(Refusal::Memory),
        Err(refusal) => Err(refusal),
    }
}

/// Drops copies, each by a transaction of its own, and answers what went.
fn one_by_one<P: Stepper>(
    alloc: Global,
    p: &mut P,
    file: u32,
    lines: &[CopyLine],
) -> Result<Removed, Refusal>
    ensures works { Call P.did p.old p.new (λ events. Drops file lines.now events result) }
    ensures few { IfOk result (λ m. m.discarded + m.dropped ≤ length lines.now) }
{
    let mut so_far = Removed {
        discarded: 0,
        dropped: 0,
    };
    'lines: for place in 0..lines.len() {
        match drop_alone(alloc, p, file, &lines[place..place + 1]) {
            Ok(more) => so_far = sum(so_far, more),
            Err(refusal) => return Err(refusal),
        }
    }
    Ok(so_far)
}

/// Drops copies by one transaction, or where that is refused each by itself, and answers what went.
fn drop_run<P: Stepper>(
    alloc: Global,
    p: &mut P,
    file: u32,
    lines: &[CopyLine],
) -> Result<Removed, Refusal>
    requires { length lines.now ≤ 256 }
    ensures works { Call P.did p.old p.new (λ events. Drops file lines.now events result) }
    ensures few { IfOk result (λ m. m.discarded + m.dropped ≤ length lines.now) }
{
    match try_copies(alloc, p, file, lines) {
        Ok(Tried::Made) => Ok(Removed {
            discarded: 0,
            dropped: lines.len() as u64,
        }),
        Ok(Tried::Refused) => one_by_one(alloc, p, file, lines),
        Ok(Tried::TooLong) => one_by_one(alloc, p, file, lines),
        Err(refusal) => Err(refusal),
    }
}

/// Drops copies of a copy pool's volume, discards the objects that have no other, and answers what went.
pub(crate) fn drop_all<P: Stepper>(
    alloc: Global,
    p: &mut P,
    file: u32,
    lines: &[CopyLine],
) -> Result<Removed, Refusal>
    ensures { Call P.did p.old p.new (λ events. Drops file lines.now events result) }
{
    let mut so_far = Removed {
        discarded: 0,
        dropped: 0,
    };
    let mut at = 0;
    'runs: while at < lines.len() {
        let rest = &lines[at..];
        let run = run_of(rest.len());
        match drop_run(alloc, p, file, &rest[..run]) {
            Ok(more) => so_far = sum(so_far, more),
            Err(refusal) => return Err(refusal),
        }
        at += run;
    }
    Ok(so_far)
}
