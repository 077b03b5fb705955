//! Lines on a machine of plain lists that an actor has alone, or with others whose transactions come between its steps.
use crate::fault::Fault;
use crate::processes;
use kinds::{Holder, Refusal};
use plain_hall::{Between, Hall, ListMachine, Mark, Others, Trace};
use std::alloc::{AllocError, Global};
use std::mem;
use step_words::{long, number, numbered};
use steps::Stepper;

/// What is waited for.
fn holder(words: &[&str]) -> Result<Holder, Fault> {
    match words {
        ["ticket", number] => Ok(Holder::Ticket(long(number)?)),
        ["image", actor] => Ok(Holder::Image(number(actor)?)),
        ["unforced", number] => Ok(Holder::Unforced(long(number)?)),
        _ => Err(Fault::NoCommand),
    }
}

fn wait<P: Stepper>(alloc: Global, p: &mut P, words: &[&str]) -> Result<String, Fault> {
    let answer = p.wait(holder(words)?);
    Ok(step_words::done(alloc, &answer)?)
}

fn put_mark(out: &mut String, mark: &Mark) -> Result<(), AllocError> {
    let n = mark.n;
    let kind = mark.kind;
    write!(out, "\n{n} {kind:?}")?;
    match mark.refusal {
        Some(refusal) => write!(out, " {refusal:?}"),
        None => Ok(()),
    }
}

/// What a process answered, and behind it a line for each of its steps.
fn with_marks(
    alloc: Global,
    answer: Result<u64, Refusal>,
    marks: &[Mark],
) -> Result<String, AllocError> {
    let mut out = numbered(alloc, "count", &answer)?;
    for mark in marks {
        put_mark(&mut out, mark)?;
    }
    Ok(out)
}

/// Expiration, and the steps that it made.
fn expire<B: Between>(alloc: Global, machine: &mut ListMachine<B>) -> Result<String, Fault> {
    machine.trace.clear();
    let answer = expiration::expire(alloc, machine);
    if !machine.trace.is_whole {
        return Err(Fault::Refused(Refusal::Memory));
    }
    let marks = machine.trace.marks.as_slice();
    Ok(with_marks(alloc, answer, marks)?)
}

/// Another actor makes the steps from now on; nothing of what it does is noted yet.
fn turn_to<B: Between>(machine: &mut ListMachine<B>, alloc: Global, actor: u32) {
    if machine.trace.actor != actor {
        machine.trace = Trace::new(alloc, actor);
    }
}

/// What an actor's line is answered.
pub fn answer<B: Between>(
    alloc: Global,
    machine: &mut ListMachine<B>,
    line: &[&str],
) -> Result<String, Fault> {
    let [actor, rest @ ..] = line else {
        return Err(Fault::NoCommand);
    };
    turn_to(machine, alloc, number(actor)?);
    match rest {
        ["EXPIRE"] => expire(alloc, machine),
        ["wait", words @ ..] => wait(alloc, machine, words),
        ["refused"] => {
            let count = machine.refused();
            Ok(format!(in alloc; "refused {count}")?)
        }
        rest => processes::answer(alloc, machine, rest),
    }
}

/// The machine becomes new.
pub fn begin<B: Between>(alloc: Global, machine: &mut ListMachine<B>) -> Result<String, Fault> {
    drop(mem::replace(&mut machine.hall, Hall::new(alloc)?));
    machine.trace = Trace::new(alloc, 1);
    Ok(String::from_str(alloc, "done")?)
}

/// Another actor's transaction comes before one of the next steps.
pub fn queue(
    alloc: Global,
    others: &mut Others,
    actor: &str,
    digits: &str,
) -> Result<String, Fault> {
    let actor = number(actor)?;
    others.queue(actor, step_words::entry(alloc, digits)?)?;
    Ok(String::from_str(alloc, "queued")?)
}
