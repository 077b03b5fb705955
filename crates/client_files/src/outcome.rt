// What answers lead to.
ghost use Rattle.std.specs.Prelude.{◌≡◌};
ghost use Rattle.client_files.specs.Sending.{behind_drop, failing, is_spent_by, stopping, unopened, unwritten};
ghost use Rattle.client_files.specs.Restoring.{given_up};

use kinds::{Digest, Holder, Refusal};

/// What came of a file that was to be sent.
#[derive(Clone, Copy)]
pub enum Came {
    /// Its bytes stand in the ticket with this number, and this is their SHA-256.
    Written(u64, Digest),
    /// It isn't stored: the pool went, no pool has room for it, a volume or the tree failed, its length isn't the listed one,
    /// it is too large, or a number or a count is at its bound.
    Failed(Refusal),
    /// This holder has the room that it needs.
    Held(Holder),
}

/// What came of an object that was to be restored.
#[derive(Clone, Copy)]
pub enum Gave {
    /// The file stands at its path, with the bytes that were stored and their time.
    Restored,
    /// No file stands there: the object went, none of its copies can be read, a call on the tree failed, or what was read has
    /// another digest than the kept one.
    Failed(Refusal),
}

/// The refusal with which a call ends where a step answered this one. What a step can't answer there stands for want of memory.
pub fn stopping(refusal: Refusal) -> Refusal
    ensures { result ≡ stopping refusal }
{
    match refusal.number() {
        40 | 41 | 50 => refusal,
        _ => Refusal::Memory,
    }
}

/// What comes of a file for which no ticket was given.
pub(crate) fn unopened(refusal: Refusal) -> Result<Came, Refusal>
    ensures { result ≡ unopened refusal }
{
    if let Refusal::Busy(holder) = refusal {
        return Ok(Came::Held(holder));
    }
    match refusal.number() {
        10 | 20 | 29 | 31 => Ok(Came::Failed(refusal)),
        _ => Err(stopping(refusal)),
    }
}

/// What comes of a file whose ticket isn't filled, for this cause.
pub(crate) fn failing(refusal: Refusal) -> Result<Came, Refusal>
    ensures { result ≡ failing refusal }
{
    match refusal.number() {
        25 | 26 | 27 => Ok(Came::Failed(refusal)),
        _ => Err(stopping(refusal)),
    }
}

/// Why a ticket isn't filled, where writing or sealing was refused so.
pub(crate) fn unwritten(refusal: Refusal) -> Refusal
    ensures { result ≡ unwritten refusal }
{
    match refusal.number() {
        25 => refusal,
        _ => stopping(refusal),
    }
}

/// The ticket is no longer there behind a step that was so refused, or nobody can give it back: a fault of writing has dropped
/// it, the hall is halted or the run is full.
pub(crate) fn is_spent_by(refusal: Refusal) -> bool
    ensures { result ≡ is_spent_by refusal }
{
    matches!(refusal.number(), 25 | 40 | 41)
}

/// What comes of a file whose ticket isn't filled, for this cause, where this is how the ticket was given back.
pub(crate) fn behind_drop(refusal: Refusal, dropped: Result<(), Refusal>) -> Result<Came, Refusal>
    ensures { result ≡ behind_drop refusal dropped }
{
    match dropped {
        Ok(()) => failing(refusal),
        Err(refused) => Err(stopping(refused)),
    }
}

/// What comes of an object whose file isn't restored, for this cause.
pub(crate) fn given_up(refusal: Refusal) -> Result<Gave, Refusal>
    ensures { result ≡ given_up refusal }
{
    match refusal.number() {
        23 | 24 | 26 | 28 => Ok(Gave::Failed(refusal)),
        _ => Err(stopping(refusal)),
    }
}
