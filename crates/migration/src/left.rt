//! What is left of a list of copies.
ghost use Rattle.std.specs.Prelude.{◌≡◌, ◌<◌, ◌∷◌, ℕ, length, IfOk, IfErr};
ghost use Rattle.std.specs.List.{flat_map};
ghost use Rattle.kinds.specs.Answers.{AnswersBy};
ghost use Rattle.kinds.specs.declared.refusal.Refusal.TheVariants.{Memory as NoMemory};
ghost use Rattle.inventory_answers.specs.declared.reply.Rows.TheVariants as rows;
ghost use Rattle.inventory_rows.specs.version_groups.Entries.{is_nil};
ghost use Rattle.steps.specs.Calls.{Call};
ghost use Rattle.migration.specs.Turns.{AsksPool, Fills, FillsFrom, IsPicked, candidate, candidates_of, is_fresh, listed, moving, placings_of, rest_of, unasked};

use choosers::{Candidate, Chooser};
use copy_runs::{Wanted, unlisted};
use inventory_answers::{Answer, Query, Rows};
use inventory_work::{CopyLine, Listed};
use kinds::Refusal;
use space::Aim;
use std::alloc::Global;
use std::collections::VecDeque;
use steps::Stepper;

/// The copies of the last list that weren't tried yet, in ascending order of their objects.
#[derive(Drop)]
pub(crate) struct Left {
    /// The copies. (A queue, since the first one is mostly what is taken.)
    pub candidates: VecDeque<Candidate>,
    /// The number of the transaction that placed each of them.
    pub placed: VecDeque<u64>,
    /// Behind which transaction the list was asked for, where one was.
    pub seen: Option<u64>,
}

/// No list was asked for yet.
pub(crate) fn unasked(alloc: Global) -> Left
    ensures none { rest_of result ≡ unasked }
    ensures same { length result.placed.items ≡ length result.candidates.items }
{
    Left {
        candidates: VecDeque::new(alloc),
        placed: VecDeque::new(alloc),
        seen: None,
    }
}

/// Whether the copy was placed behind the list before, where there was one.
fn is_fresh(seen: Option<u64>, line: &CopyLine) -> bool
    ensures { result ≡ is_fresh seen line.now }
{
    match seen {
        Some(seen) => seen < line.placed,
        None => true,
    }
}

fn candidate(line: &CopyLine) -> Candidate
    ensures { result ≡ candidate line.now }
{
    Candidate {
        object: line.object,
        size: line.size,
        stored: line.stored,
        node: line.node,
    }
}

/// The copies of these that weren't tried yet.
fn candidates(
    alloc: Global,
    seen: Option<u64>,
    lines: &[CopyLine],
) -> Result<Vec<Candidate>, Refusal>
    ensures { AnswersBy (λ them. them.items) result (flat_map (candidates_of seen) lines.now) }
{
    let mut them = Vec::new(alloc);
    'lines: for line in lines {
        if is_fresh(seen, line) {
            them.push(candidate(line))?;
        }
    }
    Ok(them)
}

/// The numbers of the transactions that placed them.
fn placings(alloc: Global, seen: Option<u64>, lines: &[CopyLine]) -> Result<Vec<u64>, Refusal>
    ensures { AnswersBy (λ them. them.items) result (flat_map (placings_of seen) lines.now) }
{
    let mut them = Vec::new(alloc);
    'lines: for line in lines {
        if is_fresh(seen, line) {
            them.push(line.placed)?;
        }
    }
    Ok(them)
}

/// What is left of a list that was just asked for, behind this transaction.
fn listed(
    alloc: Global,
    number: u64,
    seen: Option<u64>,
    lines: &[CopyLine],
) -> Result<Left, Refusal>
    ensures them { AnswersBy rest_of result (listed number seen lines.now) }
    ensures same { IfOk result (λ l. length l.placed.items ≡ length l.candidates.items) }
{
    let candidates = candidates(alloc, seen, lines)?;
    let placed = placings(alloc, seen, lines)?;
    Ok(Left {
        candidates: VecDeque::from_vec(candidates),
        placed: VecDeque::from_vec(placed),
        seen: Some(number),
    })
}

/// The copies that an answer has. An answer to another query has none, and stands for want of memory.
fn copies_of(answer: Answer) -> Result<Listed<CopyLine>, Refusal>
    ensures ok { IfOk result (λ lines. answer.rows ≡ rows.OnPool lines) }
    ensures err { IfErr result (λ e. e ≡ NoMemory) }
{
    match answer.rows {
        Rows::OnPool(lines) => Ok(lines),
        other => {
            drop(other);
            Err(Refusal::Memory)
        }
    }
}

/// Asks for the copies in the pool.
fn ask_pool<P: Stepper>(p: &mut P, pool: u32) -> Result<Answer, Refusal>
    ensures { Call P.did p.old p.new (λ events. AsksPool pool events result) }
{
    let query = Query::OnPool { pool };
    let answer = p.ask(&query);
    drop(query);
    match answer {
        Ok(answer) => Ok(answer),
        Err(refusal) => Err(unlisted(refusal)),
    }
}

/// Asks for the copies in the pool, and leaves those that weren't tried yet.
fn fill_from<P: Stepper>(
    alloc: Global,
    p: &mut P,
    pool: u32,
    seen: Option<u64>,
) -> Result<Left, Refusal>
    ensures fills { Call P.did p.old p.new (λ events. FillsFrom pool seen events result) }
    ensures same { IfOk result (λ l. length l.placed.items ≡ length l.candidates.items) }
{
    let answer = match ask_pool(p, pool) {
        Ok(answer) => answer,
        Err(refusal) => return Err(refusal),
    };
    let number = answer.n;
    match copies_of(answer) {
        Ok(lines) => listed(alloc, number, seen, lines.as_slice()),
        Err(refusal) => Err(refusal),
    }
}

/// Where no copy is left, asks for those in the pool.
pub(crate) fn fill<P: Stepper>(
    alloc: Global,
    p: &mut P,
    pool: u32,
    left: &mut Left,
) -> Result<(), Refusal>
    requires { length left.old.placed.items ≡ length left.old.candidates.items }
    ensures fills { Call P.did p.old p.new (λ events. Fills (is_nil left.old.candidates.items) pool (rest_of left.old) events (rest_of left.new) result) }
    ensures same { length left.new.placed.items ≡ length left.new.candidates.items }
{
    if !left.candidates.is_empty() {
        return Ok(());
    }
    match fill_from(alloc, p, pool, left.seen) {
        Ok(new) => {
            *left = new;
            Ok(())
        }
        Err(refusal) => Err(refusal),
    }
}

/// The move that is wanted of a copy.
fn moving(pool: u32, to: u32, candidate: Candidate, placed: u64) -> Wanted
    ensures { result ≡ moving pool to candidate placed }
{
    Wanted {
        object: candidate.object,
        aim: Aim::Move {
            from: pool,
            placed,
            to,
            along: true,
        },
        size: candidate.size,
    }
}

/// Takes the copy that is picked from those that are left.
pub(crate) fn take<C: Chooser>(chooser: &C, pool: u32, to: u32, left: &mut Left) -> Wanted
    requires some { 0 < length left.old.candidates.items }
    requires same { length left.old.placed.items ≡ length left.old.candidates.items }
    ensures picked { IsPicked (C.picks chooser.now) pool to (rest_of left.old) (rest_of left.new) result }
    ensures same { length left.new.placed.items ≡ length left.new.candidates.items }
{
    let place = chooser.pick(left.candidates.make_contiguous());
    let candidate = left.candidates[place];
    let placed = left.placed[place];
    let _ = left.candidates.remove(place);
    let _ = left.placed.remove(place);
    moving(pool, to, candidate, placed)
}
