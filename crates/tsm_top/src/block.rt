// A block of jobs is run.
ghost use Rattle.std.specs.Prelude.{◌≡◌, ◌⊎◌, ◌<◌, ◌+◌, ◌^◌, ℕ, [], ◌∷◌, ◌++◌, IfErr, IfOk};
ghost use Rattle.script_loop.specs.declared.ends.Halt.TheVariants.{LogFault, Memory};
ghost use Rattle.tsm_top.specs.InBlock.{BlockEnds, BlockRan, IsCause};
ghost use Rattle.tsm_top.specs.Notes.{note_in_block, notes_of};
ghost use Rattle.tsm_top.specs.Sessions.{can_serve};

use crate::note::Note;
use crate::session::{Session, answer_alone};
use block_results::line_jobs::{Ran, Said, print_said, run_lines};
use blocks::Block;
use client_trees::Tree;
use crew::Gate;
use hall::Hall;
use script_loop::{Halt, Reply};
use std::alloc::{AllocError, Global};
use std::sync::Wait;
use std::thread::Threads;
use store_api::Store;

/// How often calls on each of the vault's files have failed.
#[derive(Clone, Copy)]
struct Counts {
    images: (u64, u64),
    logs: (u64, u64),
}

fn count_faults<S: Store>(hall: &Hall<S>) -> Counts
    ensures images { (result.images.0 ≡ S.faults_of hall.now.store 0) × (result.images.1 ≡ S.faults_of hall.now.store 1) }
    ensures logs { (result.logs.0 ≡ S.faults_of hall.now.store 2) × (result.logs.1 ≡ S.faults_of hall.now.store 3) }
{
    Counts {
        images: (hall.faults(0), hall.faults(1)),
        logs: (hall.faults(2), hall.faults(3)),
    }
}

/// The fault of this file, where its count rose. A count that has reached 2^64 - 1 stays there.
fn rose(file: u32, before: u64, after: u64) -> Halt
    requires { file < 4 }
    ensures cause { (old new : ℕ → ℕ) (moment : ℕ) → before ≡ old file → after ≡ new file → IsCause old new moment result }
    ensures same { (result ≡ LogFault file) ⊎ (result ≡ Memory) }
{
    if after >= before.saturating_add(1) {
        Halt::LogFault(file)
    } else {
        Halt::Memory
    }
}

/// How a run ends that is said to have ended so, as far as the counts and the hall bear it out; else it ends as for want of memory.
fn borne_out<S: Store>(before: Counts, hall: &Hall<S>, how: Halt) -> Halt
    ensures cause { (old : S) → before.images.0 ≡ S.faults_of old 0 → before.images.1 ≡ S.faults_of old 1 → before.logs.0 ≡ S.faults_of old 2 → before.logs.1 ≡ S.faults_of old 3 → IsCause (S.faults_of old) (S.faults_of hall.now.store) (S.moment_of hall.now.store) result }
    ensures same { (result ≡ how) ⊎ (result ≡ Memory) }
{
    match how {
        Halt::LogFault(0) => rose(0, before.images.0, hall.faults(0)),
        Halt::LogFault(1) => rose(1, before.images.1, hall.faults(1)),
        Halt::LogFault(2) => rose(2, before.logs.0, hall.faults(2)),
        Halt::LogFault(3) => rose(3, before.logs.1, hall.faults(3)),
        Halt::LogFault(_) => Halt::Memory,
        Halt::RunFull => {
            if hall.is_late() {
                Halt::RunFull
            } else {
                Halt::Memory
            }
        }
        Halt::Memory => Halt::Memory,
    }
}

/// The note of a line of a block.
fn note_said(first: u32, before: u64, after: u64, said: &Said) -> Note
    ensures { result ≡ note_in_block first before after said.now }
{
    Note {
        line: said.number,
        actor: first.saturating_add(said.job),
        n: before,
        last: after,
        refused: said.why,
    }
}

/// The note of a line is added to those before it. A comment has none.
#[tactic(auto, using(crate::proofs::Noted::noted, crate::proofs::Noted::unnoted))]
fn add_note(
    notes: Vec<Note>,
    first: u32,
    before: u64,
    after: u64,
    said: &Said,
) -> Result<Vec<Note>, AllocError>
    ensures { IfOk result (λ all. all.items ≡ notes.items ++ notes_of first before after (said.now ∷ [])) }
{
    if said.reply.tally.commands == 0 {
        return Ok(notes);
    }
    let mut notes = notes;
    notes.push(note_said(first, before, after, said))?;
    Ok(notes)
}

/// The notes of a block's lines.
fn note_all(
    alloc: Global,
    first: u32,
    before: u64,
    after: u64,
    said: &[Said],
) -> Result<Vec<Note>, AllocError>
    ensures { IfOk result (λ notes. notes.items ≡ notes_of first before after said.now) }
{
    let mut notes = Vec::new(alloc);
    'said: for one in said {
        notes = add_note(notes, first, before, after, one)?;
    }
    Ok(notes)
}

impl<S: Store, T: Tree> Session<S, T> {
    ghost use Rattle.tsm_top.specs.InBlock.{BlockAnswered, BlockHalted, IsAnswered};
    ghost use Rattle.tsm_top.specs.Sessions.{HaltsLine};

    /// What was said of the lines of a block becomes its answer, and is noted; behind it a checkpoint is made where the log is long, as behind a line without words.
    fn answer_said(
        &mut self,
        alloc: Global,
        said: &[Said],
        first: u32,
        before: u64,
        number: u32,
    ) -> Result<Reply, Halt>
        requires ready { can_serve self.old }
        ensures served { IfOk result (λ answer. IsAnswered S.told S.moment_of S.faults_of T.files T.fault_count self.old said.now first before number answer self.new) }
        ensures halted { IfErr result (λ how. HaltsLine S.told S.moment_of S.faults_of T.files T.fault_count self.old number [] how self.new) }
        ensures ready { can_serve self.new }
    {
        let Ok(reply) = print_said(alloc, said) else {
            return Err(Halt::Memory);
        };
        let Ok(mut more) = note_all(alloc, first, before, self.hall.number(), said) else {
            return Err(Halt::Memory);
        };
        if self.notes.reserve(more.len()).is_err() {
            return Err(Halt::Memory);
        }
        match answer_alone(
            alloc,
            &mut self.hall,
            &mut self.trees,
            &self.binder,
            &mut self.buffer,
            number,
            b"",
        ) {
            Ok(_) => {}
            Err(how) => return Err(how),
        }
        match self.notes.append(&mut more) {
            Ok(()) => Ok(reply),
            Err(_) => unreachable!(),
        }
    }

    /// What is left behind the jobs of a block that ended none of the run: the answer, where nothing is in progress any more. No line of a job leaves anything in progress; where one did the run ends as for want of memory.
    fn answer_jobs(
        &mut self,
        alloc: Global,
        said: &[Said],
        first: u32,
        before: u64,
        number: u32,
    ) -> Result<Reply, Halt>
        requires ready { can_serve self.old }
        ensures served { IfOk result (λ answer. BlockAnswered S.told S.moment_of S.faults_of T.files T.fault_count self.old said.now first before number answer self.new) }
        ensures halted { IfErr result (λ how. BlockHalted S.told S.moment_of S.faults_of T.files T.fault_count self.old number how self.new) }
        ensures ready { can_serve self.new }
    {
        if !self.hall.is_at_rest() {
            return Err(Halt::Memory);
        }
        self.answer_said(alloc, said, first, before, number)
    }
}

/// Runs the jobs of a block, each as an actor of its own, numbered from `first` on. The printed lines come job by job. Where a job ended the run nothing of the block is printed or noted.
pub(crate) fn run_block<
    S: Store + Send,
    T: Tree + Drop + Send,
    R: Threads + Wait + Sync,
    G: Gate + Sync,
>(
    rt: &R,
    gate: &G,
    alloc: Global,
    session: Session<S, T>,
    block: &Block,
    first: u32,
    number: u32,
) -> (Session<S, T>, Result<Reply, Halt>)
    requires ready { can_serve session }
    requires actors { first + (block.now.job + 1) < 2 ^ 32 }
    ensures served { IfOk result.1 (λ answer. BlockRan S.told S.moment_of S.faults_of T.files T.fault_count block.now first number session answer result.0) }
    ensures halted { IfErr result.1 (λ how. BlockEnds S.told S.moment_of S.faults_of T.files T.fault_count block.now first number session how result.0) }
    ensures ready { can_serve result.0 }
{
    let before = session.hall.number();
    let counted = count_faults(&session.hall);
    let Session {
        hall,
        trees,
        binder,
        buffer,
        notes,
    } = session;
    let Ran { hall, trees, ended } = run_lines(
        rt,
        alloc,
        hall,
        trees,
        &binder,
        block.lines(),
        block.jobs(),
        first,
        gate,
    );
    let mut session = Session {
        hall,
        trees,
        binder,
        buffer,
        notes,
    };
    match ended {
        Ok(said) => {
            let answer = session.answer_jobs(alloc, said.as_slice(), first, before, number);
            (session, answer)
        }
        Err(how) => {
            let how = borne_out(counted, &session.hall, how);
            (session, Err(how))
        }
    }
}
