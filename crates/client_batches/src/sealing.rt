//! The tickets of a batch, sealed when all its files are written.
ghost use Rattle.std.specs.Prelude.{◌≡◌, ◌<◌, ◌≤◌, [], ◌∷◌, ◌++◌, length, OnOk};
ghost use Rattle.std.specs.Vec.{vec_capacity};
ghost use Rattle.steps.specs.Calls.{Call};
ghost use Rattle.client_batches.specs.Seals.{Seals, SealsOne, SealsSo, sealed_as};
ghost use Rattle.client_batches.specs.Sends.{tickets_in};

use crate::sending::{hold, make_room};
use crate::tickets::give_back;
use client_files::{Came, stopping};
use kinds::{Digest, Refusal};
use steps::Stepper;

/// What came of a file that is written, where its ticket's seal was answered so.
fn sealed_as(ticket: u64, digest: Digest, answer: Result<(), Refusal>) -> Result<Came, Refusal>
    ensures { result ≡ sealed_as ticket digest answer }
{
    match answer {
        Ok(()) => Ok(Came::Written(ticket, digest)),
        Err(refusal) => match refusal.number() {
            25 => Ok(Came::Failed(refusal)),
            _ => Err(stopping(refusal)),
        },
    }
}

/// Seals the ticket of a file that is written.
fn seal_one<P: Stepper>(p: &mut P, it: Came) -> Result<Came, Refusal>
    ensures { Call P.did p.old p.new (λ events. SealsOne it events result) }
{
    match it {
        Came::Written(ticket, digest) => sealed_as(ticket, digest, p.seal(ticket)),
        Came::Failed(_) => Ok(it),
        Came::Held(_) => Ok(it),
    }
}

/// Adds what came of one more file behind its seal, and its ticket where it still has one.
fn keep_sealed(sealed: &mut Vec<Came>, held: &mut Vec<u64>, it: Came)
    requires room { length sealed.old.items < vec_capacity sealed.old }
    requires free { length held.old.items < vec_capacity held.old }
    ensures sealed { sealed.new.items ≡ sealed.old.items ++ it ∷ [] }
    ensures held { held.new.items ≡ held.old.items ++ tickets_in (it ∷ []) }
{
    sealed.push_reserved(it);
    hold(held, it);
}

/// Seals the tickets of these files, one after the other; and adds what came of each, and the tickets that are sealed.
fn seal_each<P: Stepper>(
    p: &mut P,
    came: &[Came],
    sealed: &mut Vec<Came>,
    held: &mut Vec<u64>,
) -> Result<(), Refusal>
    requires none { sealed.old.items ≡ [] }
    requires free { held.old.items ≡ [] }
    ensures seals { Call P.did p.old p.new (λ events. SealsSo came.now sealed.new.items events result) }
    ensures held { held.new.items ≡ tickets_in sealed.new.items }
{
    'came: for it in came {
        match make_room(sealed, held) {
            Ok(()) => {}
            Err(refusal) => return Err(refusal),
        }
        let behind = match seal_one(p, *it) {
            Ok(behind) => behind,
            Err(refusal) => return Err(refusal),
        };
        keep_sealed(sealed, held, behind);
    }
    Ok(())
}

/// Seals the tickets of these files as `seal_each` does, and gives all tickets of theirs back where that ends with a refusal.
pub(crate) fn seal_batch<P: Stepper>(
    p: &mut P,
    came: &[Came],
    tickets: &[u64],
    sealed: &mut Vec<Came>,
    held: &mut Vec<u64>,
) -> Result<(), Refusal>
    requires of { tickets.now ≡ tickets_in came.now }
    requires few { length tickets.now ≤ 32 }
    requires none { sealed.old.items ≡ [] }
    requires free { held.old.items ≡ [] }
    ensures seals { Call P.did p.old p.new (λ events. Seals came.now sealed.new.items events result) }
    ensures held { held.new.items ≡ tickets_in sealed.new.items }
    ensures most { OnOk result (length held.new.items ≤ 32) }
{
    match seal_each(p, came, sealed, held) {
        Ok(()) => Ok(()),
        Err(refusal) => Err(give_back(p, tickets, refusal)),
    }
}
