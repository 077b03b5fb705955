//! Objects that go, and the transactions that discard them.
ghost use Rattle.std.specs.Prelude.{◌≡◌, ◌≤◌, length};
ghost use Rattle.kinds.specs.Answers.{AnswersBy};
ghost use Rattle.deletions.specs.Discarding.{discarding, outcome, refused_as};

use copy_attempts::stopping;
use entries::Change;
use entries::change_items::{Batch, DiscardReason, DiscardedVersion, DiscardedVersions};
use kinds::{Digest, Refusal};
use std::alloc::Global;
use steps::Asked;

/// An object that goes with all its copies.
#[derive(Clone, Copy)]
pub(crate) struct Doomed {
    /// Its object number.
    pub(crate) object: u64,
    /// The digest of its bytes.
    pub(crate) found: Digest,
}

/// What came of a transaction that was tried.
#[derive(Clone, Copy, Debug, PartialEq, Eq)]
pub(crate) enum Tried {
    /// It was made.
    Made,
    /// One of its objects or copies is gone, or isn't as it was named, or the reason doesn't hold of it.
    Refused,
    /// It has more bytes than a record may have.
    TooLong,
}

/// The transaction that discards these objects for this reason. Its one refusal is want of memory.
pub(crate) fn discarding(
    alloc: Global,
    reason: DiscardReason,
    objects: &[Doomed],
) -> Result<Asked, Refusal>
    requires { length objects.now ≤ 256 }
    ensures { AnswersBy (λ asked. asked) result (discarding reason objects.now) }
{
    let mut items = Batch::new(alloc);
    'objects: for it in objects {
        items.push(DiscardedVersion {
            object: it.object,
            found: it.found,
        })?;
    }
    Ok(Asked::Plain(Change::Discard(DiscardedVersions { reason, items })))
}

/// What a refused transaction came to.
fn refused_as(refusal: Refusal) -> Result<Tried, Refusal>
    ensures { result ≡ refused_as refusal }
{
    match refusal.number() {
        10 | 12 | 22 | 23 => Ok(Tried::Refused),
        30 => Ok(Tried::TooLong),
        _ => Err(stopping(refusal)),
    }
}

/// What a transaction came to.
pub(crate) fn outcome(answer: Result<u64, Refusal>) -> Result<Tried, Refusal>
    ensures { result ≡ outcome answer }
{
    match answer {
        Ok(_) => Ok(Tried::Made),
        Err(refusal) => refused_as(refusal),
    }
}
