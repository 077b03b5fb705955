// The replies to a command.
ghost use Rattle.std.specs.Prelude.{◌≡◌, Err};
ghost use Rattle.command_steps.specs.Answers.{Ends, IsRefused, counting, failed_in, halt_by};

use crate::outcome::Outcome;
use crate::text::{failed_gave, outcome_lines};
use kinds::Refusal;
use reports::{Shown, print_refused};
use script_loop::{Halt, Reply};
use std::alloc::Global;

/// How a refusal ends the run, where it does.
fn halt_by(refusal: Refusal) -> Option<Halt>
    ensures { result ≡ halt_by refusal }
{
    match refusal {
        Refusal::LogFault { file, count: _ } => Some(Halt::LogFault(file)),
        Refusal::RunFull => Some(Halt::RunFull),
        Refusal::Memory => Some(Halt::Memory),
        _ => None,
    }
}

/// The reply to a line that is refused so, whatever the refusal is.
pub(crate) fn refused_so(
    alloc: Global,
    line: u32,
    why: Refusal,
) -> Result<(Reply, Option<Refusal>), Halt>
    ensures { IsRefused line why result }
{
    match print_refused(alloc, line, &why) {
        Ok(text) => Ok((Reply::refused(text), Some(why))),
        Err(_) => Err(Halt::Memory),
    }
}

/// The reply to a command in this line that is refused, where the refusal doesn't end the run.
fn refused(alloc: Global, line: u32, why: Refusal) -> Result<(Reply, Option<Refusal>), Halt>
    ensures { Ends line (Err why) result }
{
    match halt_by(why) {
        Some(how) => Err(how),
        None => refused_so(alloc, line, why),
    }
}

/// How many files or objects failed in what a command came to.
fn failed_in(outcome: &Outcome) -> u64
    ensures { result ≡ failed_in outcome.now }
{
    match outcome {
        Outcome::Said(Shown::Copied { copied: _, failed })
        | Outcome::Said(
            Shown::Moved {
                moved: _,
                failed,
                reused: _,
            },
        )
        | Outcome::Said(
            Shown::RestoredCopies {
                restored: _,
                failed,
                reused: _,
            },
        ) => *failed,
        Outcome::Sent(sent) => sent.failed.as_slice().len() as u64,
        Outcome::Restored(it) => failed_gave(it.gave.as_slice()),
        _ => 0,
    }
}

/// The reply to a command that was done, with these printed lines, in which so many files or objects failed.
fn counting(text: Vec<u8>, failed: u64) -> Reply
    ensures { result ≡ counting text.items failed }
{
    let mut reply = Reply::command(text);
    reply.tally.failed = failed;
    reply
}

/// The reply to what came of a command in this line.
pub(crate) fn ends(
    alloc: Global,
    line: u32,
    said: Result<Outcome, Refusal>,
) -> Result<(Reply, Option<Refusal>), Halt>
    ensures { Ends line said result }
{
    match said {
        Ok(outcome) => {
            let failed = failed_in(&outcome);
            let text = outcome_lines(alloc, line, &outcome);
            drop(outcome);
            match text {
                Ok(text) => Ok((counting(text, failed), None)),
                Err(_) => Err(Halt::Memory),
            }
        }
        Err(why) => refused(alloc, line, why),
    }
}
