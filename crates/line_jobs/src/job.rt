// A job of a block.
ghost use Rattle.std.specs.Prelude.{◌≡◌, ◌⊎◌, ◌<◌, ◌≤◌, ◌-◌, ◌^◌, ◌++◌, Err, IfOk, List, false, length, true};
ghost use Rattle.script_loop.specs.declared.ends.Halt.TheVariants.{Memory};
ghost use Rattle.steps.specs.Calls.{Call};
ghost use Rattle.command_steps.specs.Clients.{all_seen, client};
ghost use Rattle.command_steps.specs.Jobs.{AnswersInJob};
ghost use Rattle.command_steps.specs.Lines.{line_in};
ghost use Rattle.line_jobs.specs.Jobs.{AnswersOne, DoesLines, Takes, is_held, lines_of};
ghost use Rattle.line_jobs.specs.Lents.{faults_of, files_of};
ghost use Rattle.line_jobs.specs.declared.job.Said.{Said as IsSaid};

use crate::lent::Lent;
use blocks::{Fate, Line, in_use};
use choosers::Binder;
use client_trees::Tree;
use command_steps::{answer_in_job, refuse_line};
use crew::Job;
use kinds::Refusal;
use script_loop::{Halt, Reply};
use std::alloc::Global;
use std::marker::Model;
use steps::Stepper;

/// What is said of a line that was answered.
#[derive(Drop)]
pub struct Said {
    /// The place of its job in the block, from 0.
    pub job: u32,
    /// Its number in the script.
    pub number: u32,
    /// The lines that are printed, and what they count.
    pub reply: Reply,
    /// Why it was refused; none where it was done.
    pub why: Option<Refusal>,
}

/// A job of a block.
#[derive(Drop)]
pub struct LineJob<'a, T: Tree> {
    /// What gives memory.
    pub alloc: Global,
    /// The lines of its block.
    pub lines: &'a [Line],
    /// Its place in the block, from 0.
    pub job: u32,
    /// The clients' trees by their numbers, from 0. Those that it doesn't name first are lent out.
    pub trees: Vec<Lent<T>>,
    /// The include-exclude list of the client's files.
    pub binder: &'a Binder,
    /// 1 to 65,536 bytes, for pieces of files.
    pub buffer: Vec<u8>,
    /// What is said of the lines that were answered, in their order.
    pub said: Vec<Said>,
    /// How a line ended the run, if one did: those behind it aren't answered.
    pub ended: Option<Halt>,
}

impl<'a, T: Tree> Model for LineJob<'a, T> {
    ghost use Rattle.std.specs.Prelude.{◌≤◌, ◌^◌, length};
    ghost use Rattle.line_jobs.specs.Jobs.{Job};

    ghost Value = { Job T };

    ghost view = { λ j. record { choice = j.binder.now; lines = j.lines.now; job = j.job; trees = j.trees.items; said = j.said.items; ended = j.ended } };

    ghost invariant = { λ j. (1 ≤ length j.buffer.items) × (length j.buffer.items ≤ 2 ^ 16) };
}

/// Whether another actor holds what was wanted.
fn is_held(why: &Option<Refusal>) -> bool
    ensures { result ≡ is_held why.now }
{
    matches!(why, Some(Refusal::Busy(_)))
}

/// What a line came to. A job waits for what another actor holds and tries again, so no line is refused for that: where the wait was refused, nobody is left who would give it back, and the run ends as for want of memory.
fn unless_held(
    answered: Result<(Reply, Option<Refusal>), Halt>,
) -> Result<(Reply, Option<Refusal>), Halt>
    ensures same { (result ≡ answered) ⊎ (result ≡ Err Memory) }
    ensures unheld { IfOk result (λ reply. is_held reply.1 ≡ false) }
{
    match answered {
        Ok(replied) => {
            let (reply, why) = replied;
            if is_held(&why) {
                drop(reply);
                return Err(Halt::Memory);
            }
            Ok((reply, why))
        }
        Err(how) => Err(how),
    }
}

/// Answers a line of a job that isn't one too many.
fn answer_done<P: Stepper, T: Tree>(
    alloc: Global,
    p: &mut P,
    trees: &mut [Lent<T>],
    binder: &Binder,
    buffer: &mut [u8],
    number: u32,
    line: &[u8],
    in_use: Option<u64>,
) -> Result<(Reply, Option<Refusal>), Halt>
    requires some { 1 ≤ length buffer.old }
    requires few { length buffer.old ≤ 2 ^ 16 }
    requires short { length line.now < 2 ^ 32 - 1 }
    ensures answers { Call P.did p.old p.new (λ events. AnswersInJob (client (files_of T.files) (faults_of T.fault_count) binder.now trees.old trees.new) in_use number (line_in true line.now) events result × IfOk result (λ reply. is_held reply.1 ≡ false)) }
    ensures long { length buffer.new ≡ length buffer.old }
{
    unless_held(answer_in_job(alloc, p, trees, binder, buffer, number, line, in_use))
}

/// Answers a line of a job, which names the tree `in_use`, where an earlier job has that tree.
fn answer_one<P: Stepper, T: Tree>(
    alloc: Global,
    p: &mut P,
    trees: &mut [Lent<T>],
    binder: &Binder,
    buffer: &mut [u8],
    line: &Line,
    in_use: Option<u64>,
) -> Result<(Reply, Option<Refusal>), Halt>
    requires some { 1 ≤ length buffer.old }
    requires few { length buffer.old ≤ 2 ^ 16 }
    ensures answers { Call P.did p.old p.new (λ events. AnswersOne (client (files_of T.files) (faults_of T.fault_count) binder.now trees.old trees.new) (record { line = line.now; in_use = in_use }) events result) }
    ensures long { length buffer.new ≡ length buffer.old }
{
    match line.fate {
        Fate::Beyond => refuse_line(alloc, line.number, Refusal::Syntax(1)),
        Fate::Done(_) => answer_done(
            alloc,
            p,
            trees,
            binder,
            buffer,
            line.number,
            &line.text,
            in_use,
        ),
    }
}

/// Answers a line of the job, and keeps what is said of it. Room for that is taken before anything is done.
fn keep_one<P: Stepper, T: Tree>(
    alloc: Global,
    p: &mut P,
    trees: &mut [Lent<T>],
    binder: &Binder,
    buffer: &mut [u8],
    lines: &[Line],
    line: &Line,
    said: &mut Vec<Said>,
) -> Result<(), Halt>
    requires some { 1 ≤ length buffer.old }
    requires few { length buffer.old ≤ 2 ^ 16 }
    ensures takes { Call P.did p.old p.new (λ events. Takes binder.now lines.now line.now.job line.now (all_seen (files_of T.files) (faults_of T.fault_count) trees.old) events said.old.items said.new.items result (all_seen (files_of T.files) (faults_of T.fault_count) trees.new)) }
    ensures long { length buffer.new ≡ length buffer.old }
{
    if said.reserve(1).is_err() {
        return Err(Halt::Memory);
    }
    let used = in_use(lines, line);
    match answer_one(alloc, p, trees, binder, buffer, line, used) {
        Ok(replied) => {
            let (reply, why) = replied;
            let job = line.job;
            let number = line.number;
            match said.push(Said {
                job,
                number,
                reply,
                why,
            }) {
                Ok(()) => Ok(()),
                Err(_) => unreachable!(),
            }
        }
        Err(how) => Err(how),
    }
}

/// Takes a line of the block: one of another job is passed over.
fn take_one<P: Stepper, T: Tree>(
    alloc: Global,
    p: &mut P,
    trees: &mut [Lent<T>],
    binder: &Binder,
    buffer: &mut [u8],
    lines: &[Line],
    job: u32,
    line: &Line,
    said: &mut Vec<Said>,
) -> Result<(), Halt>
    requires some { 1 ≤ length buffer.old }
    requires few { length buffer.old ≤ 2 ^ 16 }
    ensures takes { Call P.did p.old p.new (λ events. Takes binder.now lines.now job line.now (all_seen (files_of T.files) (faults_of T.fault_count) trees.old) events said.old.items said.new.items result (all_seen (files_of T.files) (faults_of T.fault_count) trees.new)) }
    ensures long { length buffer.new ≡ length buffer.old }
{
    if line.job == job {
        return keep_one(alloc, p, trees, binder, buffer, lines, line, said);
    }
    Ok(())
}

/// Takes all lines of the block, one after the other, and tells how one of the job's ended the run, if one did.
fn take_all<P: Stepper, T: Tree>(
    alloc: Global,
    p: &mut P,
    trees: &mut [Lent<T>],
    binder: &Binder,
    buffer: &mut [u8],
    lines: &[Line],
    job: u32,
    said: &mut Vec<Said>,
) -> Option<Halt>
    requires some { 1 ≤ length buffer.old }
    requires few { length buffer.old ≤ 2 ^ 16 }
    ensures does { Call P.did p.old p.new (λ events. (more : List IsSaid) × (said.new.items ≡ said.old.items ++ more) × DoesLines binder.now (lines_of lines.now job lines.now) (all_seen (files_of T.files) (faults_of T.fault_count) trees.old) events more result (all_seen (files_of T.files) (faults_of T.fault_count) trees.new)) }
    ensures long { length buffer.new ≡ length buffer.old }
{
    'lines: for line in lines {
        match take_one(alloc, p, trees, binder, buffer, lines, job, line, said) {
            Ok(()) => {}
            Err(how) => return Some(how),
        }
    }
    None
}

/// Its lines are answered one after the other, up to one that ends the run.
impl<T: Tree> Job for LineJob<'_, T> {
    ghost use Rattle.line_jobs.specs.Jobs.{Did};
    ghost use Rattle.line_jobs.specs.Lents.{faults_of, files_of};

    ghost did = { λ old actor events new. Did (files_of T.files) (faults_of T.fault_count) old events new };

    fn run<P: Stepper>(&mut self, p: &mut P) {
        self.ended = take_all(
            self.alloc,
            p,
            &mut self.trees,
            self.binder,
            &mut self.buffer,
            self.lines,
            self.job,
            &mut self.said,
        );
    }
}
