//! What a command is answered, and its words.
use kinds::{ArchiveRule, Refusal, RuleFound};
use std::alloc::{AllocError, Global};

/// What a command is answered.
#[derive(Clone, Copy)]
pub enum Answer {
    /// The call was made, and refused nothing.
    Done,
    /// What the call requires does not hold, and it was not made.
    Unmet,
    /// There is nothing of what was asked for.
    Nothing,
    Is(bool),
    Number(u64),
    Rule(RuleFound),
    Archive(ArchiveRule),
}

/// Why a command has no answer.
#[derive(Clone, Copy)]
pub enum Fault {
    /// The line is no command.
    NoCommand,
    /// The call refused.
    Refused(Refusal),
}

impl From<Refusal> for Fault {
    fn from(refusal: Refusal) -> Fault {
        Fault::Refused(refusal)
    }
}

impl From<AllocError> for Fault {
    fn from(_error: AllocError) -> Fault {
        Fault::Refused(Refusal::Memory)
    }
}

/// The number, where there is one.
pub fn number(found: Option<u32>) -> Answer {
    match found {
        Some(number) => Answer::Number(u64::from(number)),
        None => Answer::Nothing,
    }
}

/// The word of an answer that is no number and no rule.
fn word(answer: Answer) -> &'static str {
    match answer {
        Answer::Done => "done",
        Answer::Unmet => "unmet",
        Answer::Nothing => "none",
        Answer::Is(true) => "yes",
        Answer::Is(false) => "no",
        Answer::Number(_) => "a number",
        Answer::Rule(_) => "a rule",
        Answer::Archive(_) => "an archive rule",
    }
}

fn rule_text(alloc: Global, rule: &RuleFound) -> Result<String, AllocError> {
    format!(in alloc; "{rule:?}")
}

fn archive_text(alloc: Global, rule: &ArchiveRule) -> Result<String, AllocError> {
    format!(in alloc; "{rule:?}")
}

fn answer_text(alloc: Global, answer: Answer) -> Result<String, AllocError> {
    match answer {
        Answer::Number(number) => format!(in alloc; "{number}"),
        Answer::Rule(rule) => rule_text(alloc, &rule),
        Answer::Archive(rule) => archive_text(alloc, &rule),
        other => String::from_str(alloc, word(other)),
    }
}

fn refusal_text(alloc: Global, refusal: &Refusal) -> Result<String, AllocError> {
    format!(in alloc; "{refusal:?}")
}

fn fault_text(alloc: Global, fault: &Fault) -> Result<String, AllocError> {
    match fault {
        Fault::NoCommand => String::from_str(alloc, "no command"),
        Fault::Refused(refusal) => refusal_text(alloc, refusal),
    }
}

/// The words of what a command was answered.
pub fn text(alloc: Global, answered: &Result<Answer, Fault>) -> Result<String, AllocError> {
    match answered {
        Ok(answer) => answer_text(alloc, *answer),
        Err(fault) => fault_text(alloc, fault),
    }
}
