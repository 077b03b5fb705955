//! Tickets that are given back.
ghost use Rattle.std.specs.Prelude.{◌≡◌};
ghost use Rattle.steps.specs.Calls.{Call};
ghost use Rattle.client_batches.specs.Tickets.{DropsEach, GivesBack, is_lasting, lasting_in};

use kinds::Refusal;
use steps::Stepper;

/// Whether the hall is halted or the run is full: nobody can give a ticket back any more.
pub(crate) fn is_lasting(refusal: Refusal) -> bool
    ensures { result ≡ is_lasting refusal }
{
    matches!(refusal.number(), 40 | 41)
}

fn lasting_in(answer: Result<(), Refusal>) -> Option<Refusal>
    ensures { result ≡ lasting_in answer }
{
    match answer {
        Ok(()) => None,
        Err(refusal) => {
            if is_lasting(refusal) {
                Some(refusal)
            } else {
                None
            }
        }
    }
}

/// Gives these tickets back, one after the other, and answers why it ended before the last, where it did.
fn drop_each<P: Stepper>(p: &mut P, tickets: &[u64]) -> Option<Refusal>
    ensures { Call P.did p.old p.new (λ events. DropsEach tickets.now events result) }
{
    'tickets: for place in 0..tickets.len() {
        let ticket = tickets[place];
        match lasting_in(p.drop_ticket(ticket)) {
            Some(refusal) => return Some(refusal),
            None => {}
        }
    }
    None
}

/// Gives these tickets back where a call ends with this refusal, and answers the one with which it ends then.
pub(crate) fn give_back<P: Stepper>(p: &mut P, tickets: &[u64], refusal: Refusal) -> Refusal
    ensures { Call P.did p.old p.new (λ events. GivesBack tickets.now refusal events result) }
{
    if is_lasting(refusal) {
        refusal
    } else {
        match drop_each(p, tickets) {
            Some(other) => other,
            None => refusal,
        }
    }
}
