//! The words of a line, and what they stand for.
use crate::answer::Fault;
use crate::steps::Step;
use kinds::{Day, Refusal};
use std::alloc::{AllocError, Global};

/// The words of the line.
pub fn words_of<'a>(alloc: Global, line: &'a str) -> Result<Vec<&'a str>, AllocError> {
    line.split_whitespace().collect(alloc)
}

pub fn number(word: &str) -> Result<u32, Fault> {
    word.parse::<u32>().ok().ok_or(Fault::NoCommand)
}

pub fn large(word: &str) -> Result<u64, Fault> {
    word.parse::<u64>().ok().ok_or(Fault::NoCommand)
}

fn day(word: &str) -> Result<Day, Fault> {
    Day::new(number(word)?).ok_or(Fault::NoCommand)
}

/// The numbers that the words are.
pub fn numbers(alloc: Global, words: &[&str]) -> Result<Vec<u64>, Fault> {
    let mut list = Vec::new(alloc);
    for word in words {
        match list.push(large(word)?) {
            Ok(()) => {}
            Err(_) => return Err(Fault::Refused(Refusal::Memory)),
        }
    }
    Ok(list)
}

/// The step of a transaction: forced, or waiting for a force where `+` stands before the day.
fn day_step(word: &str) -> Result<Step, Fault> {
    match word.strip_prefix("+") {
        Some(digits) => Ok(Step::Wait(day(digits)?)),
        None => Ok(Step::Commit(day(word)?)),
    }
}

/// The step that a word stands for.
pub fn step(word: &str) -> Result<Step, Fault> {
    match word {
        "format" => Ok(Step::Format),
        "long" => Ok(Step::Long),
        "open" => Ok(Step::Open),
        "checkpoint" => Ok(Step::Checkpoint),
        "begin" => Ok(Step::Begin),
        "next" => Ok(Step::Next),
        "install" => Ok(Step::Install),
        "force" => Ok(Step::Force),
        other => day_step(other),
    }
}

/// The steps that the words stand for.
pub fn steps(alloc: Global, words: &[&str]) -> Result<Vec<Step>, Fault> {
    let mut list = Vec::new(alloc);
    for word in words {
        match list.push(step(word)?) {
            Ok(()) => {}
            Err(_) => return Err(Fault::Refused(Refusal::Memory)),
        }
    }
    Ok(list)
}
