//! The process.
ghost use Rattle.std.specs.Prelude.{◌≡◌, ◌≤◌, length, IfOk, IfErr};
ghost use Rattle.kinds.specs.declared.refusal.Refusal.TheVariants.{Memory as NoMemory};
ghost use Rattle.inventory_answers.specs.declared.reply.Rows.TheVariants as rows;
ghost use Rattle.steps.specs.Calls.{Call};
ghost use Rattle.expiration.specs.Expiring.{AreOf, AsksToday, Expiration, Finishes, Lists, Tries, Works};

use crate::lines::{Tried, ending, outcome, removing, run_of};
use inventory_answers::{Answer, Query, Rows};
use inventory_work::{Listed, UnretainedLine};
use kinds::Refusal;
use std::alloc::Global;
use steps::Stepper;

/// Tries one transaction that removes these objects of one filespace.
fn try_lines<P: Stepper>(
    alloc: Global,
    p: &mut P,
    filespace: u32,
    lines: &[UnretainedLine],
) -> Result<Tried, Refusal>
    requires { length lines.now ≤ 256 }
    ensures { Call P.did p.old p.new (λ events. Tries filespace lines.now events result) }
{
    let asked = match removing(alloc, filespace, lines) {
        Ok(asked) => asked,
        Err(refusal) => return Err(refusal),
    };
    let answer = p.commit(&asked, &[]);
    drop(asked);
    outcome(answer)
}

/// Removes one object of a filespace by a transaction of its own, and answers how many went: none where it is gone, is retained, or isn't as it was named.
fn remove_alone<P: Stepper>(
    alloc: Global,
    p: &mut P,
    filespace: u32,
    lines: &[UnretainedLine],
) -> Result<u64, Refusal>
    requires one { length lines.now ≡ 1 }
    requires of { AreOf filespace lines.now }
    ensures works { Call P.did p.old p.new (λ events. Works lines.now events result) }
    ensures few { IfOk result (λ count. count ≤ length lines.now) }
{
    match try_lines(alloc, p, filespace, lines) {
        Ok(Tried::Removed) => Ok(lines.len() as u64),
        Ok(Tried::Refused) => Ok(0),
        // The transaction of one object is never so long.
        Ok(Tried::TooLong) => Err(Refusal::Memory),
        Err(refusal) => Err(refusal),
    }
}

/// Removes objects of one filespace, each by a transaction of its own, and answers how many went.
fn one_by_one<P: Stepper>(
    alloc: Global,
    p: &mut P,
    filespace: u32,
    lines: &[UnretainedLine],
) -> Result<u64, Refusal>
    requires of { AreOf filespace lines.now }
    ensures works { Call P.did p.old p.new (λ events. Works lines.now events result) }
    ensures few { IfOk result (λ count. count ≤ length lines.now) }
{
    let mut count = 0;
    'lines: for place in 0..lines.len() {
        match remove_alone(alloc, p, filespace, &lines[place..place + 1]) {
            Ok(more) => count += more,
            Err(refusal) => return Err(refusal),
        }
    }
    Ok(count)
}

/// Removes objects of one filespace by one transaction, or where that is refused each by itself, and answers how many went.
fn remove_run<P: Stepper>(
    alloc: Global,
    p: &mut P,
    filespace: u32,
    lines: &[UnretainedLine],
) -> Result<u64, Refusal>
    requires few { length lines.now ≤ 256 }
    requires of { AreOf filespace lines.now }
    ensures works { Call P.did p.old p.new (λ events. Works lines.now events result) }
    ensures few { IfOk result (λ count. count ≤ length lines.now) }
{
    match try_lines(alloc, p, filespace, lines) {
        Ok(Tried::Removed) => Ok(lines.len() as u64),
        Ok(Tried::Refused) => one_by_one(alloc, p, filespace, lines),
        Ok(Tried::TooLong) => one_by_one(alloc, p, filespace, lines),
        Err(refusal) => Err(refusal),
    }
}

/// Removes objects, and answers how many went.
fn remove_all<P: Stepper>(
    alloc: Global,
    p: &mut P,
    lines: &[UnretainedLine],
) -> Result<u64, Refusal>
    ensures { Call P.did p.old p.new (λ events. Works lines.now events result) }
{
    let mut count = 0;
    let mut at = 0;
    'runs: while at < lines.len() {
        let rest = &lines[at..];
        let (filespace, run) = run_of(rest);
        match remove_run(alloc, p, filespace, &rest[..run]) {
            Ok(more) => count += more,
            Err(refusal) => return Err(refusal),
        }
        at += run;
    }
    Ok(count)
}

/// The lines that an answer has. An answer to another query has none, and stands for want of memory.
fn lines_of(answer: Answer) -> Result<Listed<UnretainedLine>, Refusal>
    ensures ok { IfOk result (λ lines. answer.rows ≡ rows.Unretained lines) }
    ensures err { IfErr result (λ e. e ≡ NoMemory) }
{
    match answer.rows {
        Rows::Unretained(lines) => Ok(lines),
        other => {
            drop(other);
            Err(Refusal::Memory)
        }
    }
}

/// Asks what isn't retained.
fn list<P: Stepper>(p: &mut P) -> Result<Listed<UnretainedLine>, Refusal>
    ensures { Call P.did p.old p.new (λ events. Lists events result) }
{
    let query = Query::Unretained;
    let answer = p.ask(&query);
    drop(query);
    match answer {
        Ok(answer) => lines_of(answer),
        Err(refused) => Err(ending(refused)),
    }
}

/// Asks for the number of the last transaction.
fn ask_today<P: Stepper>(p: &mut P) -> Result<(), Refusal>
    ensures { Call P.did p.old p.new (λ events. AsksToday events result) }
{
    let query = Query::Today;
    let answer = p.ask(&query);
    drop(query);
    match answer {
        Ok(answer) => {
            drop(answer);
            Ok(())
        }
        Err(refusal) => Err(ending(refusal)),
    }
}

/// Makes all durable, and asks for the number of the last transaction.
fn finish<P: Stepper>(p: &mut P) -> Result<(), Refusal>
    ensures { Call P.did p.old p.new (λ events. Finishes events result) }
{
    match p.force() {
        Ok(_) => ask_today(p),
        Err(refusal) => Err(ending(refusal)),
    }
}

/// Removes the objects that are not retained, versions and held objects, in ascending order of their numbers, and answers how many went: what was kept and
/// unretained all along is gone then. It passes over an object that went meanwhile or that is retained again. It ends with `InventoryFull`, `LogFault`,
/// `RunFull` or `Memory` where a step of its own answers so, and what it removed until then stays removed.
pub fn expire<P: Stepper>(alloc: Global, p: &mut P) -> Result<u64, Refusal>
    ensures { Call P.did p.old p.new (λ events. Expiration events result) }
{
    let lines = match list(p) {
        Ok(lines) => lines,
        Err(refusal) => return Err(refusal),
    };
    let count = match remove_all(alloc, p, lines.as_slice()) {
        Ok(count) => count,
        Err(refusal) => return Err(refusal),
    };
    match finish(p) {
        Ok(_) => Ok(count),
        Err(refusal) => Err(refusal),
    }
}
