//! A change, and a query.
ghost use Rattle.std.specs.Prelude.{◌≡◌, [], Ok};
ghost use Rattle.steps.specs.declared.asked.Asked.TheVariants.{Plain};
ghost use Rattle.steps.specs.Calls.{Call, Made};
ghost use Rattle.steps.specs.Events.Deed.{Ask, Commit};
ghost use Rattle.sessions.specs.Changing.{Changes, Changing, Joins};

use crate::waiting::holder_in;
use entries::Change;
use inventory_answers::{Answer, Query};
use kinds::Refusal;
use steps::{Asked, Stepper};

/// Commits what takes no ticket, and where others hold what it takes away waits and tries again. It answers the number of the transaction, which the next force makes
/// durable. It is refused as that is, with `Busy` where a step of its own and then `wait` answer so, and with `LogFault`, `RunFull` or `Memory`.
pub fn join<P: Stepper>(p: &mut P, asked: &Asked) -> Result<u64, Refusal>
    ensures { Call P.did p.old p.new (λ events. Joins asked.now events result) }
{
    let mut tries = 0;
    'tries: while tries < u64::MAX {
        let answer = p.commit(asked, &[]);
        match holder_in(answer) {
            Some(holder) => match p.wait(holder) {
                Ok(()) => tries += 1,
                Err(refusal) => return Err(refusal),
            },
            None => return answer,
        }
    }
    Err(Refusal::Memory)
}

/// Commits a change, and makes it durable.
fn join_and_force<P: Stepper>(p: &mut P, change: Change) -> Result<u64, Refusal>
    ensures { Call P.did p.old p.new (λ events. Changes change events result) }
{
    let asked = Asked::Plain(change);
    let answer = join(p, &asked);
    drop(asked);
    match answer {
        Ok(number) => match p.force() {
            Ok(_) => Ok(number),
            Err(refusal) => Err(refusal),
        },
        Err(refusal) => Err(refusal),
    }
}

/// Commits one change that takes no ticket, makes it durable, and answers the number of its transaction. Where others hold what it takes away it waits and tries again.
/// It is refused as its transaction is, the foremost refusal first, with `Busy` where a step of its own and then `wait` answer so, and with `LogFault`, `RunFull` or `Memory`
/// where a step of its own answers so; behind a force that was refused its transaction is in doubt.
pub fn commit_change<P: Stepper>(p: &mut P, change: Change) -> Result<u64, Refusal>
    ensures { Call P.did p.old p.new (λ events. Changing change events result) }
{
    join_and_force(p, change)
}

/// Answers a query, by one step. It is refused with `NotFound` where what it names isn't there, and with `LogFault`, `RunFull` or `Memory`.
pub fn show<P: Stepper>(p: &mut P, query: &Query) -> Result<Answer, Refusal>
    ensures { Call P.did p.old p.new (λ events. Made (Ask query.now result) events) }
{
    p.ask(query)
}
