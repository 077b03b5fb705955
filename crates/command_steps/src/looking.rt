// The look-ups of a command.
ghost use Rattle.steps.specs.Calls.{Call};
ghost use Rattle.admin_commands.specs.Orders.{needs};
ghost use Rattle.command_steps.specs.Doing.{AsksAll};
ghost use Rattle.sessions.specs.InTurn.{OrMemory};

use admin_commands::needs;
use admin_words::Command;
use inventory_answers::{Answer, Query};
use inventory_work::Listed;
use kinds::Refusal;
use std::alloc::Global;
use steps::Stepper;

/// Asks all queries, one after the other, and gives their answers in this order, or the first refusal.
fn ask_all<P: Stepper>(
    alloc: Global,
    p: &mut P,
    queries: &[Query],
) -> Result<Listed<Answer>, Refusal>
    ensures { Call P.did p.old p.new (λ events. AsksAll queries.now events result) }
{
    let mut answers = Vec::new(alloc);
    'queries: for query in queries {
        match p.ask(query) {
            Ok(answer) => match answers.push(answer) {
                Ok(()) => {}
                Err(_) => return Err(Refusal::Memory),
            },
            Err(refusal) => return Err(refusal),
        }
    }
    Ok(Listed::from_vec(answers))
}

/// Asks what a command has to look up before its work.
pub(crate) fn look_up<P: Stepper>(
    alloc: Global,
    p: &mut P,
    command: &Command,
) -> Result<Listed<Answer>, Refusal>
    ensures { Call P.did p.old p.new (λ events. OrMemory (AsksAll (needs command.now)) events result) }
{
    match needs(alloc, command) {
        Ok(queries) => {
            let answers = ask_all(alloc, p, queries.as_slice());
            drop(queries);
            answers
        }
        Err(_) => Err(Refusal::Memory),
    }
}
