//! The blocks of a random-access volume, as lines ask for them.
use crate::answer::{Answer, Fault, text};
use crate::words::{large, number};
use extent_map::{Extents, Run};
use std::alloc::{AllocError, Global};
use std::mem;

/// The volume becomes one of so many blocks.
fn start(alloc: Global, extents: &mut Extents, blocks: &str) -> Result<Answer, Fault> {
    let fresh = Extents::new(alloc, number(blocks)?)?;
    drop(mem::replace(extents, fresh));
    Ok(Answer::Done)
}

fn read_run(first: &str, blocks: &str) -> Result<Run, Fault> {
    Ok(Run {
        first: number(first)?,
        blocks: number(blocks)?,
    })
}

/// Gives a run back, where all of it is in use.
fn give(extents: &mut Extents, run: Run) -> Answer {
    if !extents.are_used(run) {
        return Answer::Unmet;
    }
    extents.give(run);
    Answer::Done
}

/// What a command other than `take` is answered.
fn answer(alloc: Global, extents: &mut Extents, words: &[&str]) -> Result<Answer, Fault> {
    match words {
        ["new", blocks] => start(alloc, extents, blocks),
        ["room"] => Ok(Answer::Number(extents.room())),
        ["used", first, blocks] => Ok(Answer::Is(extents.are_used(read_run(first, blocks)?))),
        ["give", first, blocks] => Ok(give(extents, read_run(first, blocks)?)),
        _ => Err(Fault::NoCommand),
    }
}

/// Each run as its first block and how many there are, or words for no run.
fn runs_text(alloc: Global, runs: &[Run]) -> Result<String, AllocError> {
    if runs.is_empty() {
        return String::from_str(alloc, "no run");
    }
    let mut out = String::new(alloc);
    for run in runs {
        let first = run.first;
        let blocks = run.blocks;
        if !out.is_empty() {
            out.push(' ')?;
        }
        write!(out, "{first}+{blocks}")?;
    }
    Ok(out)
}

/// Takes blocks for so many bytes.
fn take(alloc: Global, extents: &mut Extents, bytes: u64) -> Result<String, AllocError> {
    match extents.take(alloc, bytes) {
        Ok(Some(runs)) => runs_text(alloc, runs.as_slice()),
        Ok(None) => text(alloc, &Ok(Answer::Nothing)),
        Err(refusal) => text(alloc, &Err(Fault::Refused(refusal))),
    }
}

/// What the words are answered.
pub fn say(alloc: Global, extents: &mut Extents, words: &[&str]) -> Result<String, AllocError> {
    match words {
        ["take", bytes] => match large(bytes) {
            Ok(bytes) => take(alloc, extents, bytes),
            Err(fault) => text(alloc, &Err(fault)),
        },
        _ => text(alloc, &answer(alloc, extents, words)),
    }
}
