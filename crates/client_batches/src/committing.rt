//! Lists that are committed together, or one by one where that is refused.
ghost use Rattle.std.specs.Prelude.{◌≡◌, ◌≤◌, None, drop, length, map, take};
ghost use Rattle.kinds.specs.Answers.{AnswersBy};
ghost use Rattle.steps.specs.Calls.{Call};
ghost use Rattle.client_batches.specs.Commits.{Alone, Commits, CommitsAll, EachAlone, Tries, outcome, refused_as, taken_out};

use crate::listing::Listing;
use crate::tickets::{give_back, is_lasting};
use client_files::stopping;
use inventory_work::Listed;
use kinds::Refusal;
use std::alloc::Global;
use steps::Stepper;

/// What a refused transaction came to: one of its lines is in the way, or the call ends.
fn refused_as(refusal: Refusal) -> Result<Option<Refusal>, Refusal>
    ensures { result ≡ refused_as refusal }
{
    match refusal.number() {
        10 | 12 | 22 | 23 | 30 | 31 => Ok(Some(refusal)),
        _ => Err(stopping(refusal)),
    }
}

/// What a transaction came to: none where its lines are committed.
fn outcome(answer: Result<u64, Refusal>) -> Result<Option<Refusal>, Refusal>
    ensures { result ≡ outcome answer }
{
    match answer {
        Ok(_) => Ok(None),
        Err(refusal) => refused_as(refusal),
    }
}

/// What came of a line that was refused alone, where its ticket was given back with this refusal.
fn taken_out(refusal: Refusal) -> Result<Option<Refusal>, Refusal>
    ensures { result ≡ taken_out refusal }
{
    if is_lasting(refusal) {
        Err(refusal)
    } else {
        Ok(Some(refusal))
    }
}

/// Tries one transaction of these lines with these tickets.
fn try_lines<P: Stepper, L: Listing>(
    alloc: Global,
    p: &mut P,
    filespace: u32,
    lines: &[L],
    tickets: &[u64],
) -> Result<Option<Refusal>, Refusal>
    requires few { length lines.now ≤ 256 }
    requires held { length tickets.now ≤ 256 }
    ensures { Call P.did p.old p.new (λ events. Tries (L.asking filespace lines.now) tickets.now events result) }
{
    let asked = match L::asking(alloc, filespace, lines) {
        Ok(asked) => asked,
        Err(refusal) => return Err(refusal),
    };
    let answer = p.commit(&asked, tickets);
    drop(asked);
    outcome(answer)
}

/// Commits one line by a transaction of its own, with its ticket, which is given back where that is refused.
fn commit_alone<P: Stepper, L: Listing>(
    alloc: Global,
    p: &mut P,
    filespace: u32,
    line: &[L],
    ticket: &[u64],
) -> Result<Option<Refusal>, Refusal>
    requires few { length line.now ≤ 256 }
    requires held { length ticket.now ≤ 256 }
    ensures { Call P.did p.old p.new (λ events. Alone (L.asking filespace line.now) ticket.now events result) }
{
    match try_lines(alloc, p, filespace, line, ticket) {
        Ok(tried) => match tried {
            None => Ok(None),
            Some(why) => taken_out(give_back(p, ticket, why)),
        },
        Err(refusal) => Err(refusal),
    }
}

/// The ticket of the line at this place, where lines have tickets.
fn own_ticket(tickets: &[u64], place: usize) -> &[u64]
    ensures { result.now ≡ take 1 (drop place tickets.now) }
{
    if place < tickets.len() {
        &tickets[place..place + 1]
    } else {
        &tickets[tickets.len()..]
    }
}

/// Commits these lines, each by a transaction of its own, and answers why each isn't committed that isn't.
fn one_by_one<P: Stepper, L: Listing>(
    alloc: Global,
    p: &mut P,
    filespace: u32,
    lines: &[L],
    tickets: &[u64],
) -> Result<Listed<Option<Refusal>>, Refusal>
    ensures { Call P.did p.old p.new (λ events. EachAlone (L.asking filespace) lines.now tickets.now events result) }
{
    let mut outs = Vec::new(alloc);
    'lines: for place in 0..lines.len() {
        let ticket = own_ticket(tickets, place);
        match commit_alone(alloc, p, filespace, &lines[place..place + 1], ticket) {
            Ok(out) => match outs.push(out) {
                Ok(()) => {}
                Err(_) => return Err(Refusal::Memory),
            },
            Err(refusal) => return Err(refusal),
        }
    }
    Ok(Listed::from_vec(outs))
}

/// The answer where all lines are committed.
fn all_committed<L: Listing>(alloc: Global, lines: &[L]) -> Result<Listed<Option<Refusal>>, Refusal>
    ensures { AnswersBy (λ outs. outs) result (map (λ l. None) lines.now) }
{
    let mut outs = Vec::new(alloc);
    'lines: for _line in lines {
        outs.push(None)?;
    }
    Ok(Listed::from_vec(outs))
}

/// Commits these lines by one transaction, or where one of them is in the way each by itself.
fn commit_all<P: Stepper, L: Listing>(
    alloc: Global,
    p: &mut P,
    filespace: u32,
    lines: &[L],
    tickets: &[u64],
) -> Result<Listed<Option<Refusal>>, Refusal>
    requires few { length lines.now ≤ 256 }
    requires held { length tickets.now ≤ 256 }
    ensures { Call P.did p.old p.new (λ events. CommitsAll (L.asking filespace) lines.now tickets.now events result) }
{
    match try_lines(alloc, p, filespace, lines, tickets) {
        Ok(tried) => match tried {
            None => all_committed(alloc, lines),
            Some(_) => one_by_one(alloc, p, filespace, lines, tickets),
        },
        Err(refusal) => Err(refusal),
    }
}

/// Commits these lines of a filespace, at most 256, by one transaction, or where one of them is in the way each by a transaction of its own; and answers of each why it isn't committed,
/// or none where it is. The i-th ticket is that of the i-th line; or there are no tickets. No ticket is left at the end, unless that is with `LogFault` or `RunFull`. It ends with these two
/// and `Memory` where a step of its own answers so, and with `Memory` for want of its own; what it committed until then stays.
pub fn commit_lines<P: Stepper, L: Listing>(
    alloc: Global,
    p: &mut P,
    filespace: u32,
    lines: &[L],
    tickets: &[u64],
) -> Result<Listed<Option<Refusal>>, Refusal>
    requires few { length lines.now ≤ 256 }
    requires held { length tickets.now ≤ 256 }
    ensures { Call P.did p.old p.new (λ events. Commits (L.asking filespace) lines.now tickets.now events result) }
{
    match commit_all(alloc, p, filespace, lines, tickets) {
        Ok(outs) => Ok(outs),
        Err(refusal) => Err(give_back(p, tickets, refusal)),
    }
}
