//! Lines of what isn't retained, and the transactions that remove them.
ghost use Rattle.std.specs.Prelude.{◌≡◌, ◌≤◌, ◌<◌, length, take};
ghost use Rattle.kinds.specs.Answers.{AnswersBy};
ghost use Rattle.expiration.specs.Expiring.{AreOf, ending, outcome, refused_as, removing};

use entries::Change;
use entries::change_items::{Batch, NamedVersion, NamedVersions};
use inventory_work::UnretainedLine;
use kinds::Refusal;
use std::alloc::Global;
use steps::Asked;

/// What came of a transaction that was tried.
#[derive(Clone, Copy, Debug, PartialEq, Eq)]
pub(crate) enum Tried {
    /// Its objects are removed.
    Removed,
    /// One of its objects is gone, is retained, or isn't as it was named.
    Refused,
    /// It has more bytes than a record may have.
    TooLong,
}

/// How many transactions' objects stand in one transaction at most.
pub(crate) const MOST: usize = 256;

/// The transaction that removes these objects of one filespace. Its one refusal is want of memory.
pub(crate) fn removing(
    alloc: Global,
    filespace: u32,
    lines: &[UnretainedLine],
) -> Result<Asked, Refusal>
    requires { length lines.now ≤ 256 }
    ensures { AnswersBy (λ asked. asked) result (removing filespace lines.now) }
{
    let mut items = Batch::new(alloc);
    'lines: for line in lines {
        let path = line.path.clone()?;
        items.push(NamedVersion {
            path,
            object: line.object,
        })?;
    }
    Ok(Asked::Plain(Change::Expire(NamedVersions { filespace, items })))
}

/// The refusal with which an expiration ends where a step answered this one. What a step can't answer here stands for want of memory.
pub(crate) fn ending(refusal: Refusal) -> Refusal
    ensures { result ≡ ending refusal }
{
    match refusal.number() {
        31 | 40 | 41 | 50 => refusal,
        _ => Refusal::Memory,
    }
}

/// What a refused transaction came to.
fn refused_as(refusal: Refusal) -> Result<Tried, Refusal>
    ensures { result ≡ refused_as refusal }
{
    match refusal.number() {
        10 | 12 | 22 | 23 => Ok(Tried::Refused),
        30 => Ok(Tried::TooLong),
        _ => Err(ending(refusal)),
    }
}

/// What a transaction came to.
pub(crate) fn outcome(answer: Result<u64, Refusal>) -> Result<Tried, Refusal>
    ensures { result ≡ outcome answer }
{
    match answer {
        Ok(_) => Ok(Tried::Removed),
        Err(refusal) => refused_as(refusal),
    }
}

/// The filespace of the first of these objects, and how many, from the first on, one transaction removes: those of that filespace, as far as they stand together,
/// and at most 256.
pub(crate) fn run_of(lines: &[UnretainedLine]) -> (u32, usize)
    requires { 1 ≤ length lines.now }
    ensures some { 1 ≤ result.1 }
    ensures few { result.1 ≤ 256 }
    ensures within { result.1 ≤ length lines.now }
    ensures of { AreOf result.0 (take result.1 lines.now) }
{
    let filespace = lines[0].filespace;
    let mut run = 1;
    'run: while run < lines.len() && run < MOST && lines[run].filespace == filespace {
        run += 1;
    }
    (filespace, run)
}
