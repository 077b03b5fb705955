//! A line of a script is answered.
ghost use Rattle.std.specs.Prelude.{◌≡◌, ◌<◌, ◌≤◌, ◌-◌, ◌^◌, length, nat_lt, IfErr, IfOk};
ghost use Rattle.kinds.specs.declared.refusal.Refusal.TheVariants.{Memory as NoMemory};
ghost use Rattle.inventory_answers.specs.declared.reply.Rows.TheVariants as rows;
ghost use Rattle.inventory_rows.specs.version_groups.Entries.{on_ok};
ghost use Rattle.sessions.specs.Asking.{unasked};
ghost use Rattle.steps.specs.Calls.{Call};
ghost use Rattle.command_steps.specs.Answering.{AnswersLine, AsksLog, DoesOrWants, Follows, IfLong, halted_behind, long_log, unless_full};
ghost use Rattle.command_steps.specs.Clients.{client};
ghost use Rattle.command_steps.specs.Lines.{line_in, line_of};

use crate::doing::do_command;
use crate::lines::{Line, line_in};
use crate::reply::{ends, refused_so};
use choosers::Binder;
use client_trees::Tree;
use inventory_answers::{Answer, Query, Rows};
use kinds::Refusal;
use script_loop::{Halt, Reply};
use sessions::checkpoint;
use std::alloc::Global;
use steps::Stepper;

/// How long a log is behind which a checkpoint is made unasked, in bytes: 4 MiB.
const LONG_LOG: u64 = 4194304;

// ---- the line itself

/// Does what a line is that stands in a block, or in none, and answers it.
pub(crate) fn do_line<P: Stepper, T: Tree>(
    alloc: Global,
    p: &mut P,
    trees: &mut [T],
    binder: &Binder,
    buffer: &mut [u8],
    number: u32,
    line: &[u8],
    in_block: bool,
) -> Result<(Reply, Option<Refusal>), Halt>
    requires some { 1 ≤ length buffer.old }
    requires few { length buffer.old ≤ 2 ^ 16 }
    requires short { length line.now < 2 ^ 32 - 1 }
    ensures does { Call P.did p.old p.new (λ events. DoesOrWants (client T.files T.fault_count binder.now trees.old trees.new) number (line_in in_block line.now) events result) }
    ensures long { length buffer.new ≡ length buffer.old }
{
    match line_in(alloc, line, in_block) {
        Ok(Line::Comment) => Ok((Reply::nothing(alloc), None)),
        Ok(Line::Refused(why)) => refused_so(alloc, number, why),
        Ok(Line::Asks(command)) => {
            let said = do_command(alloc, p, trees, binder, buffer, &command);
            drop(command);
            ends(alloc, number, said)
        }
        Err(_) => Err(Halt::Memory),
    }
}

// ---- behind it

/// The refusal with which a question ends that was refused so. What can't be answered there stands for want of memory.
fn unasked(refusal: Refusal) -> Refusal
    ensures { result ≡ unasked refusal }
{
    match refusal.number() {
        10 | 40 | 41 => refusal,
        _ => Refusal::Memory,
    }
}

/// The length that an answer has. An answer to another query has none, and stands for want of memory.
fn length_of(answer: Answer) -> Result<u64, Refusal>
    ensures ok { IfOk result (λ count. answer.rows ≡ rows.LogBytes count) }
    ensures err { IfErr result (λ e. e ≡ NoMemory) }
{
    match answer.rows {
        Rows::LogBytes(count) => Ok(count),
        other => {
            drop(other);
            Err(Refusal::Memory)
        }
    }
}

/// Asks how many bytes the log has.
fn ask_log<P: Stepper>(p: &mut P) -> Result<u64, Refusal>
    ensures { Call P.did p.old p.new (λ events. AsksLog events result) }
{
    let query = Query::LogBytes;
    let answer = p.ask(&query);
    drop(query);
    match answer {
        Ok(answer) => length_of(answer),
        Err(refusal) => Err(unasked(refusal)),
    }
}

/// Whether a log of so many bytes is too short for a checkpoint.
fn is_short(count: u64) -> bool
    ensures { result ≡ nat_lt count long_log }
{
    count < LONG_LOG
}

fn done(answer: Result<u64, Refusal>) -> Result<(), Refusal>
    ensures { result ≡ on_ok (λ seq. tt) answer }
{
    match answer {
        Ok(_) => Ok(()),
        Err(refusal) => Err(refusal),
    }
}

/// Makes a checkpoint where the log, which has so many bytes, is long.
fn checkpoint_if_long<P: Stepper>(p: &mut P, count: u64) -> Result<(), Refusal>
    ensures { Call P.did p.old p.new (λ events. IfLong count events result) }
{
    if is_short(count) {
        Ok(())
    } else {
        done(checkpoint(p))
    }
}

/// What a question that was refused so comes to: that the run is full is left to the next line.
fn unless_full(refusal: Refusal) -> Result<(), Refusal>
    ensures { result ≡ unless_full refusal }
{
    match refusal {
        Refusal::RunFull => Ok(()),
        other => Err(other),
    }
}

/// Makes a checkpoint where the log is long.
fn follow<P: Stepper>(p: &mut P) -> Result<(), Refusal>
    ensures { Call P.did p.old p.new (λ events. Follows events result) }
{
    match ask_log(p) {
        Ok(count) => checkpoint_if_long(p, count),
        Err(refusal) => unless_full(refusal),
    }
}

/// How what follows a line ends the run, where it does.
fn halted_behind(made: Result<(), Refusal>) -> Option<Halt>
    ensures { result ≡ halted_behind made }
{
    match made {
        Err(Refusal::LogFault { file, count: _ }) => Some(Halt::LogFault(file)),
        Err(Refusal::RunFull) => Some(Halt::RunFull),
        Err(Refusal::Memory) => Some(Halt::Memory),
        _ => None,
    }
}

// ---- both

/// Does what a line of a script is, by steps, and answers it with the lines that are printed and with its refusal, where it is refused. Behind it a checkpoint is made where the log has
/// 4 MiB or more. `number` is the line's in the script, and a tree's number its place among the trees, from 0; the buffer has 1 to 65,536 bytes, and its contents don't matter. Of the trees only the
/// one that the line names changes, and none where the line names no tree or is refused before its work. The run ends with `LogFault` where a step of the line's or of what comes behind it answered
/// so, with `RunFull` where one of the line's or of that checkpoint did, and for want of memory.
pub fn answer_line<P: Stepper, T: Tree>(
    alloc: Global,
    p: &mut P,
    trees: &mut [T],
    binder: &Binder,
    buffer: &mut [u8],
    number: u32,
    line: &[u8],
) -> Result<(Reply, Option<Refusal>), Halt>
    requires some { 1 ≤ length buffer.old }
    requires few { length buffer.old ≤ 2 ^ 16 }
    requires short { length line.now < 2 ^ 32 - 1 }
    ensures answers { Call P.did p.old p.new (λ events. AnswersLine (client T.files T.fault_count binder.now trees.old trees.new) number (line_of line.now) events result) }
    ensures long { length buffer.new ≡ length buffer.old }
{
    match do_line(alloc, p, trees, binder, buffer, number, line, false) {
        Ok(replied) => match halted_behind(follow(p)) {
            None => Ok(replied),
            Some(how) => Err(how),
        },
        Err(how) => Err(how),
    }
}
