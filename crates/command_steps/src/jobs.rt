//! A line of a job of a block is answered.
ghost use Rattle.std.specs.Prelude.{◌≡◌, ◌⊎◌, ◌<◌, ◌≤◌, ◌-◌, ◌^◌, Err, Some, length, true};
ghost use Rattle.kinds.specs.declared.refusal.Refusal.TheVariants.{Memory as NoMemory};
ghost use Rattle.admin_commands.specs.Orders.{work_of};
ghost use Rattle.steps.specs.Calls.{Call};
ghost use Rattle.command_steps.specs.Answers.{IsRefused};
ghost use Rattle.command_steps.specs.Clients.{Client, IsKept, client};
ghost use Rattle.command_steps.specs.Jobs.{AnswersInJob, Withholds, refused_for, withheld};
ghost use Rattle.command_steps.specs.Lines.{line_in};

use crate::answering::do_line;
use crate::lines::{Line, line_in};
use crate::looking::look_up;
use crate::reply::{ends, refused_so};
use admin_commands::work_of;
use admin_words::Command;
use choosers::Binder;
use client_trees::Tree;
use inventory_answers::Answer;
use kinds::{By, Refusal};
use script_loop::{Halt, Reply};
use std::alloc::Global;
use steps::Stepper;

/// Why the tree with this number, which an earlier job has, can't be had, where there are so many trees.
fn withheld(count: u64, number: u64) -> Refusal
    ensures { result ≡ withheld count number }
{
    if number < 4294967296 && number < count {
        Refusal::InUse(By::Tree(number as u32))
    } else {
        Refusal::NotFound
    }
}

/// Why a command is refused whose tree is withheld, by the answers to its look-ups.
fn refused_for(
    alloc: Global,
    count: u64,
    number: u64,
    command: &Command,
    answers: &[Answer],
) -> Refusal
    ensures { (result ≡ NoMemory) ⊎ (result ≡ refused_for count number (work_of command.now answers.now)) }
{
    match work_of(alloc, command, answers) {
        Ok(work) => {
            drop(work);
            withheld(count, number)
        }
        Err(refusal) => refusal,
    }
}

/// Refuses a command whose tree, the one with this number, is withheld.
fn withhold<P: Stepper>(
    alloc: Global,
    p: &mut P,
    count: u64,
    number: u64,
    command: &Command,
) -> Refusal
    ensures { (k : Client) → IsKept k → length k.old ≡ count → Call P.did p.old p.new (λ events. Withholds k number command.now events (Err result)) }
{
    match look_up(alloc, p, command) {
        Ok(answers) => {
            let why = refused_for(alloc, count, number, command, answers.as_slice());
            drop(answers);
            why
        }
        Err(refusal) => refusal,
    }
}

/// Answers a line of a job that names the tree with this number, which an earlier job has, where there are so many trees.
fn answer_withheld<P: Stepper>(
    alloc: Global,
    p: &mut P,
    count: u64,
    tree: u64,
    number: u32,
    line: &[u8],
) -> Result<(Reply, Option<Refusal>), Halt>
    requires { length line.now < 2 ^ 32 - 1 }
    ensures { (k : Client) → IsKept k → length k.old ≡ count → Call P.did p.old p.new (λ events. AnswersInJob k (Some tree) number (line_in true line.now) events result) }
{
    match line_in(alloc, line, true) {
        Ok(Line::Comment) => Ok((Reply::nothing(alloc), None)),
        Ok(Line::Refused(why)) => refused_so(alloc, number, why),
        Ok(Line::Asks(command)) => {
            let why = withhold(alloc, p, count, tree, &command);
            drop(command);
            ends(alloc, number, Err(why))
        }
        Err(_) => Err(Halt::Memory),
    }
}

/// Does what a line of a job of a block is, by steps, and answers it with the lines that are printed and with its refusal, where it is refused. `in_use` is the number of the tree that the line names, where
/// an earlier job of the block has that tree: a command that isn't refused by its look-ups or its own words is refused then with `InUse`, or with `NotFound` where there is no such tree. Of the trees only
/// the one that the line names changes. `number` is the line's in the script, and a tree's number its place among the trees, from 0; the buffer has 1 to 65,536 bytes, and its contents don't matter. The run
/// ends with `LogFault` or `RunFull` where a step answered so, and for want of memory.
pub fn answer_in_job<P: Stepper, T: Tree>(
    alloc: Global,
    p: &mut P,
    trees: &mut [T],
    binder: &Binder,
    buffer: &mut [u8],
    number: u32,
    line: &[u8],
    in_use: Option<u64>,
) -> Result<(Reply, Option<Refusal>), Halt>
    requires some { 1 ≤ length buffer.old }
    requires few { length buffer.old ≤ 2 ^ 16 }
    requires short { length line.now < 2 ^ 32 - 1 }
    ensures answers { Call P.did p.old p.new (λ events. AnswersInJob (client T.files T.fault_count binder.now trees.old trees.new) in_use number (line_in true line.now) events result) }
    ensures long { length buffer.new ≡ length buffer.old }
{
    match in_use {
        None => do_line(alloc, p, trees, binder, buffer, number, line, true),
        Some(tree) => answer_withheld(alloc, p, trees.len() as u64, tree, number, line),
    }
}

/// Refuses a line of a job that is one too many.
pub fn refuse_line(
    alloc: Global,
    number: u32,
    why: Refusal,
) -> Result<(Reply, Option<Refusal>), Halt>
    ensures { IsRefused number why result }
{
    refused_so(alloc, number, why)
}
