//! What answers lead to.
ghost use Rattle.std.specs.Prelude.{◌≡◌};
ghost use Rattle.reuse_delay.specs.Reusing.{holder_of, outcome, passed_as, refused_as};

use copy_attempts::stopping;
use kinds::{Holder, Refusal};

/// What came of a volume whose reuse was tried.
#[derive(Clone, Copy, Debug, PartialEq, Eq)]
pub(crate) enum Tried {
    /// It was reused.
    Reused,
    /// It isn't there or isn't emptied any more, holds copies again, or its reuse delay isn't over.
    Passed,
    /// This one has to be waited for.
    Held(Holder),
}

/// Who is waited for, where a step was so refused.
fn holder_of(refusal: Refusal) -> Option<Holder>
    ensures { result ≡ holder_of refusal }
{
    match refusal {
        Refusal::Busy(holder) => Some(holder),
        _ => None,
    }
}

/// What comes of a volume whose reuse was so refused, and that nobody holds.
fn passed_as(refusal: Refusal) -> Result<Tried, Refusal>
    ensures { result ≡ passed_as refusal }
{
    match refusal.number() {
        10 | 12 | 32 => Ok(Tried::Passed),
        _ => Err(stopping(refusal)),
    }
}

/// What comes of a volume whose reuse was so refused.
fn refused_as(refusal: Refusal) -> Result<Tried, Refusal>
    ensures { result ≡ refused_as refusal }
{
    match holder_of(refusal) {
        Some(holder) => Ok(Tried::Held(holder)),
        None => passed_as(refusal),
    }
}

/// What comes of a volume whose reuse was so answered.
pub(crate) fn outcome(answer: Result<u64, Refusal>) -> Result<Tried, Refusal>
    ensures { result ≡ outcome answer }
{
    match answer {
        Ok(_) => Ok(Tried::Reused),
        Err(refusal) => refused_as(refusal),
    }
}
