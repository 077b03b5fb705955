//! What answers lead to.
ghost use Rattle.std.specs.Prelude.{◌≡◌};
ghost use Rattle.copy_attempts.specs.Attempts.{behind_drop, came_of, holder_in, is_spent_by, piece_count, stopping, unopened};

use kinds::{Holder, ObjectSize, Refusal};

/// What came of an object whose copy was to be made.
#[derive(Clone, Copy, Debug, PartialEq, Eq)]
pub enum Came {
    /// Its copy was made, by the transaction with this number.
    Copied(u64),
    /// It can't be copied now: no pool has room for it, no copy of it can be read, a volume can't be written, or its transaction is too long.
    Failed,
    /// The object, or the copy that was named, was changed or removed meanwhile; or a copy stands there already.
    Passed,
}

/// How many bytes a piece has at most.
const PIECE: u64 = 1 << 16;

/// In how many pieces an object of this size is copied.
pub(crate) fn piece_count(size: ObjectSize) -> u64
    ensures { result ≡ piece_count size }
{
    let bytes = size.bytes();
    let rest = if bytes % PIECE == 0 { 0 } else { 1 };
    bytes / PIECE + rest
}

/// The refusal with which an attempt, or a process that makes attempts, ends where a step answered this one. What a step can't answer there stands for want of
/// memory.
pub fn stopping(refusal: Refusal) -> Refusal
    ensures { result ≡ stopping refusal }
{
    match refusal.number() {
        21 | 31 | 40 | 41 | 50 => refusal,
        _ => Refusal::Memory,
    }
}

/// What comes of an object for which a step was so refused.
pub(crate) fn came_of(refusal: Refusal) -> Result<Came, Refusal>
    ensures { result ≡ came_of refusal }
{
    match refusal.number() {
        10 | 12 | 22 | 23 => Ok(Came::Passed),
        20 | 24 | 25 | 30 => Ok(Came::Failed),
        _ => Err(stopping(refusal)),
    }
}

/// What comes of an object for which no ticket was given. A pool that isn't there ends the process.
pub(crate) fn unopened(refusal: Refusal) -> Result<Came, Refusal>
    ensures { result ≡ unopened refusal }
{
    match refusal.number() {
        10 => Err(refusal),
        _ => came_of(refusal),
    }
}

/// The ticket is no longer there behind a step that was so refused, or nobody can give it back: a fault of writing has dropped it, the hall is halted or
/// the run is full.
pub(crate) fn is_spent_by(refusal: Refusal) -> bool
    ensures { result ≡ is_spent_by refusal }
{
    matches!(refusal.number(), 25 | 40 | 41)
}

/// What comes of an object for which a step was refused, where this is how its ticket was given back.
pub(crate) fn behind_drop(refusal: Refusal, dropped: Result<(), Refusal>) -> Result<Came, Refusal>
    ensures { result ≡ behind_drop refusal dropped }
{
    match dropped {
        Ok(()) => came_of(refusal),
        Err(refused) => Err(stopping(refused)),
    }
}

/// Who holds what the object waits for, where that is what came of it.
pub(crate) fn holder_in(came: Result<Came, Refusal>) -> Option<Holder>
    ensures { result ≡ holder_in came }
{
    match came {
        Err(Refusal::Busy(holder)) => Some(holder),
        _ => None,
    }
}
