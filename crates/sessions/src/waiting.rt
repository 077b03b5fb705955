// What is held, and is waited for.
ghost use Rattle.std.specs.Prelude.{◌≡◌};
ghost use Rattle.sessions.specs.Waiting.{holder_in};

use kinds::{Holder, Refusal};

/// Who holds what is waited for, where an answer says so.
pub(crate) fn holder_in<A: Copy>(answer: Result<A, Refusal>) -> Option<Holder>
    ensures { result ≡ holder_in answer }
{
    match answer {
        Err(Refusal::Busy(holder)) => Some(holder),
        _ => None,
    }
}
