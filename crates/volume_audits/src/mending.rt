//! A damaged copy goes.
ghost use Rattle.std.specs.Prelude.{◌≡◌, ◌≤◌, true, IfOk};
ghost use Rattle.kinds.specs.Answers.{AnswersBy};
ghost use Rattle.steps.specs.Calls.{Call};
ghost use Rattle.volume_audits.specs.Mending.{Discards, Drops, Mends, MendsIf, discarded_as, discarding, dropped_as, dropping, undropped};

use copy_attempts::stopping;
use entries::Change;
use entries::change_items::{
    Batch, DiscardReason, DiscardedVersion, DiscardedVersions, DropReason, DroppedCopies,
    DroppedCopy,
};
use inventory_work::CopyLine;
use kinds::{Digest, Refusal};
use std::alloc::Global;
use steps::{Asked, Stepper};

/// What came of a copy that was to be dropped.
#[derive(Clone, Copy, Debug, PartialEq, Eq)]
pub(crate) enum Dropped {
    /// It is dropped.
    Gone,
    /// It is the object's last one.
    Last,
    /// It isn't as it was named, or the object is gone.
    Passed,
}

/// The transaction that drops the copy. Its one refusal is want of memory.
fn dropping(alloc: Global, file: u32, line: &CopyLine, found: Digest) -> Result<Asked, Refusal>
    ensures { AnswersBy (λ asked. asked) result (dropping file line.now found) }
{
    let mut items = Batch::new(alloc);
    items.push(DroppedCopy {
        object: line.object,
        pool: line.pool,
        placed: line.placed,
        found,
    })?;
    let reason = DropReason::Audit { file };
    Ok(Asked::Plain(Change::DropCopies(DroppedCopies { reason, items })))
}

/// The transaction that discards the object of the copy. Its one refusal is want of memory.
fn discarding(alloc: Global, file: u32, line: &CopyLine, found: Digest) -> Result<Asked, Refusal>
    ensures { AnswersBy (λ asked. asked) result (discarding file line.now found) }
{
    let mut items = Batch::new(alloc);
    items.push(DiscardedVersion {
        object: line.object,
        found,
    })?;
    let reason = DiscardReason::Audit { file };
    Ok(Asked::Plain(Change::Discard(DiscardedVersions { reason, items })))
}

/// What comes of a copy whose drop was so refused.
fn undropped(refusal: Refusal) -> Result<Dropped, Refusal>
    ensures { result ≡ undropped refusal }
{
    match refusal.number() {
        10 | 22 | 23 => Ok(Dropped::Passed),
        12 => Ok(Dropped::Last),
        _ => Err(stopping(refusal)),
    }
}

/// What the transaction came to that drops a copy.
fn dropped_as(answer: Result<u64, Refusal>) -> Result<Dropped, Refusal>
    ensures { result ≡ dropped_as answer }
{
    match answer {
        Ok(_) => Ok(Dropped::Gone),
        Err(refusal) => undropped(refusal),
    }
}

/// How many objects went by the transaction that discards one.
fn discarded_as(answer: Result<u64, Refusal>) -> Result<u64, Refusal>
    ensures is { result ≡ discarded_as answer }
    ensures few { IfOk result (λ count. count ≤ 1) }
{
    match answer {
        Ok(_) => Ok(1),
        Err(refusal) => match refusal.number() {
            10 | 12 | 22 | 23 => Ok(0),
            _ => Err(stopping(refusal)),
        },
    }
}

/// Tries to drop a copy.
fn drop_copy<P: Stepper>(
    alloc: Global,
    p: &mut P,
    file: u32,
    line: &CopyLine,
    found: Digest,
) -> Result<Dropped, Refusal>
    ensures { Call P.did p.old p.new (λ events. Drops file line.now found events result) }
{
    let asked = match dropping(alloc, file, line, found) {
        Ok(asked) => asked,
        Err(refusal) => return Err(refusal),
    };
    let answer = p.commit(&asked, &[]);
    drop(asked);
    dropped_as(answer)
}

/// Tries to discard the object of a copy, and answers how many went.
fn discard_object<P: Stepper>(
    alloc: Global,
    p: &mut P,
    file: u32,
    line: &CopyLine,
    found: Digest,
) -> Result<u64, Refusal>
    ensures discards { Call P.did p.old p.new (λ events. Discards file line.now found events result) }
    ensures few { IfOk result (λ count. count ≤ 1) }
{
    let asked = match discarding(alloc, file, line, found) {
        Ok(asked) => asked,
        Err(refusal) => return Err(refusal),
    };
    let answer = p.commit(&asked, &[]);
    drop(asked);
    discarded_as(answer)
}

/// Drops a damaged copy, or discards its object where it is the last one, and answers how many went: none where the copy or the object isn't as it was named any more.
fn mend<P: Stepper>(
    alloc: Global,
    p: &mut P,
    file: u32,
    line: &CopyLine,
    found: Digest,
) -> Result<u64, Refusal>
    ensures mends { Call P.did p.old p.new (λ events. Mends file line.now found events result) }
    ensures few { IfOk result (λ count. count ≤ 1) }
{
    match drop_copy(alloc, p, file, line, found) {
        Ok(Dropped::Gone) => Ok(1),
        Ok(Dropped::Passed) => Ok(0),
        Ok(Dropped::Last) => discard_object(alloc, p, file, line, found),
        Err(refusal) => Err(refusal),
    }
}

/// Mends a damaged copy, where that is asked, and answers how many went.
pub(crate) fn mend_if<P: Stepper>(
    alloc: Global,
    p: &mut P,
    fix: bool,
    file: u32,
    line: &CopyLine,
    found: Digest,
) -> Result<u64, Refusal>
    ensures mends { Call P.did p.old p.new (λ events. MendsIf fix file line.now found events result) }
    ensures few { IfOk result (λ count. count ≤ 1) }
{
    if fix {
        mend(alloc, p, file, line, found)
    } else {
        Ok(0)
    }
}
