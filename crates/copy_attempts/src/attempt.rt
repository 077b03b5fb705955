//! The attempt.
ghost use Rattle.std.specs.Prelude.{◌≡◌, [], ◌∷◌};
ghost use Rattle.steps.specs.declared.asked.Asked.TheVariants.{Placed};
ghost use Rattle.steps.specs.Calls.{Call, Made};
ghost use Rattle.steps.specs.Events.Deed.{Commit};
ghost use Rattle.copy_attempts.specs.Attempts.{Copies, Fills, GivesUp, Goes, Makes, Spends, Tries};
ghost use Rattle.copy_attempts.specs.Outcomes.{Attempt};

use crate::outcome::{
    Came, behind_drop, came_of, holder_in, is_spent_by, piece_count, stopping, unopened,
};
use kinds::{ObjectSize, Refusal};
use space::Aim;
use steps::{Asked, Stepper};

/// Copies so many pieces of the ticket's object.
fn copy_pieces<P: Stepper>(p: &mut P, ticket: u64, count: u64) -> Result<(), Refusal>
    ensures { Call P.did p.old p.new (λ events. Copies ticket count events result) }
{
    let mut copied = 0;
    'pieces: while copied < count {
        match p.copy_piece(ticket) {
            Ok(_) => copied += 1,
            Err(refusal) => return Err(refusal),
        }
    }
    Ok(())
}

/// Copies the ticket's object, and makes the copy durable.
fn fill<P: Stepper>(p: &mut P, ticket: u64, size: ObjectSize) -> Result<(), Refusal>
    ensures { Call P.did p.old p.new (λ events. Fills ticket size events result) }
{
    match copy_pieces(p, ticket, piece_count(size)) {
        Ok(()) => p.seal(ticket),
        Err(refusal) => Err(refusal),
    }
}

/// Commits the ticket's copy.
fn place<P: Stepper>(p: &mut P, ticket: u64) -> Result<u64, Refusal>
    ensures { Call P.did p.old p.new (λ events. Made (Commit Placed (ticket ∷ []) result) events) }
{
    let asked = Asked::Placed;
    let answer = p.commit(&asked, &[ticket]);
    drop(asked);
    answer
}

/// Makes the ticket's copy, and commits it.
fn fill_and_place<P: Stepper>(p: &mut P, ticket: u64, size: ObjectSize) -> Result<u64, Refusal>
    ensures { Call P.did p.old p.new (λ events. Makes ticket size events result) }
{
    match fill(p, ticket, size) {
        Ok(()) => place(p, ticket),
        Err(refusal) => Err(refusal),
    }
}

/// Gives the ticket back for which a step was so refused, where it is still there, and answers what comes of its object.
fn give_up<P: Stepper>(p: &mut P, ticket: u64, refusal: Refusal) -> Result<Came, Refusal>
    ensures { Call P.did p.old p.new (λ events. GivesUp ticket refusal events result) }
{
    if is_spent_by(refusal) {
        came_of(refusal)
    } else {
        behind_drop(refusal, p.drop_ticket(ticket))
    }
}

/// Makes the ticket's copy and commits it, or gives the ticket back.
fn spend<P: Stepper>(p: &mut P, ticket: u64, size: ObjectSize) -> Result<Came, Refusal>
    ensures { Call P.did p.old p.new (λ events. Spends ticket size events result) }
{
    match fill_and_place(p, ticket, size) {
        Ok(number) => Ok(Came::Copied(number)),
        Err(refusal) => give_up(p, ticket, refusal),
    }
}

/// Tries once to make an object's copy.
fn try_once<P: Stepper>(
    p: &mut P,
    object: u64,
    aim: Aim,
    avoid: u32,
    size: ObjectSize,
) -> Result<Came, Refusal>
    ensures { Call P.did p.old p.new (λ events. Tries object aim avoid size events result) }
{
    match p.open_copy(object, aim, avoid) {
        Ok(ticket) => spend(p, ticket, size),
        Err(refusal) => unopened(refusal),
    }
}

/// Tries to make an object's copy, and where others hold the room waits and tries again.
fn try_all<P: Stepper>(
    p: &mut P,
    object: u64,
    aim: Aim,
    avoid: u32,
    size: ObjectSize,
) -> Result<Came, Refusal>
    ensures { Call P.did p.old p.new (λ events. Goes object aim avoid size events result) }
{
    let mut tries = 0;
    'tries: while tries < u64::MAX {
        let came = try_once(p, object, aim, avoid, size);
        match holder_in(came) {
            Some(holder) => match p.wait(holder) {
                Ok(()) => tries += 1,
                Err(refusal) => return Err(stopping(refusal)),
            },
            None => return came,
        }
    }
    Err(Refusal::Memory)
}

/// Makes one object's copy by a ticket of its own, and commits it. `size` is the object's size, and `avoid` a volume that is not to be used, or 0. Where
/// others hold the room it waits and tries again. The caller holds no other ticket, and none is left at the end, unless that is with `LogFault` or `RunFull`.
/// It ends with `NotFound` where the pool that is aimed at isn't there, with `InventoryFull`, `LogFault`, `RunFull` or `Memory` where a step of its own
/// answers so, and with `Busy` where a step of its own and then `wait` answer so.
pub fn make_copy<P: Stepper>(
    p: &mut P,
    object: u64,
    aim: Aim,
    avoid: u32,
    size: ObjectSize,
) -> Result<Came, Refusal>
    ensures { Call P.did p.old p.new (λ events. Attempt object aim avoid size events result) }
{
    try_all(p, object, aim, avoid, size)
}
