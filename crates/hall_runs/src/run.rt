//! A run over the lines.
use crate::both::Both;
use crate::desk::Desk;
use crate::fault::Fault;
use crate::lists;
use crate::script::Script;
use plain_hall::{Hall, ListMachine, Nobody, Others};
use std::alloc::{AllocError, Global};
use std::mem;
use step_words::long;

/// On what lines are made.
#[derive(Clone, Copy)]
pub enum Mode {
    /// A store and its hall.
    Hall,
    /// A hall, and a machine of plain lists.
    Both,
    /// A machine of plain lists that the actor has alone.
    Alone,
    /// One on which other actors' transactions come between its steps.
    Among,
}

/// What the lines are about: a store with the hall over it and the lines that were made on them, the machine of plain lists of an actor that has it alone, and that of one that has it with others.
#[derive(Drop)]
pub struct Run<'a> {
    pub alloc: Global,
    pub script: &'a mut Script,
    pub plain: &'a mut ListMachine<Nobody>,
    pub among: &'a mut ListMachine<Others>,
    pub mode: Mode,
}

/// The words of why a line has no answer.
fn fault_text(alloc: Global, fault: &Fault) -> Result<String, AllocError> {
    match fault {
        Fault::NoCommand => String::from_str(alloc, "no command"),
        Fault::Closed => String::from_str(alloc, "no hall is open"),
        Fault::Refused(refusal) => step_words::refusal(alloc, refusal),
        Fault::NotOpened(refused) => format!(in alloc; "{refused:?}"),
        Fault::Wrong(finding) => format!(in alloc; "{finding:?}"),
        Fault::Found(call, choice, finding) => {
            format!(in alloc; "call {call}, choice {choice}: {finding:?}")
        }
    }
}

/// A stop of the machine, of which both are opened again: the number of the last transaction that is there.
fn stop_both(
    alloc: Global,
    desk: &mut Desk,
    plain: &mut ListMachine<Nobody>,
    choice: u64,
) -> Result<u64, Fault> {
    let mut both = Both::new(alloc, desk, plain);
    let number = both.stop(choice);
    drop(both);
    number
}

/// So many stretches of turns from a seed on both.
fn play_both(
    alloc: Global,
    desk: &mut Desk,
    plain: &mut ListMachine<Nobody>,
    seed: u64,
    count: u64,
) -> Result<String, Fault> {
    let mut both = Both::new(alloc, desk, plain);
    let text = both.play(seed, count);
    drop(both);
    text
}

/// A line on both.
fn answer_both(
    alloc: Global,
    desk: &mut Desk,
    plain: &mut ListMachine<Nobody>,
    line: &str,
) -> Result<String, Fault> {
    let mut both = Both::new(alloc, desk, plain);
    let text = both.line(line);
    drop(both);
    text
}

impl Run<'_> {
    /// A new store.
    fn start_again(&mut self) -> Result<String, Fault> {
        self.mode = Mode::Hall;
        self.script.start_again()
    }

    /// A new store with a hall over it, and a new machine of plain lists.
    fn both(&mut self) -> Result<String, Fault> {
        self.mode = Mode::Both;
        drop(mem::replace(&mut self.plain.hall, Hall::new(self.alloc)?));
        self.script.desk.begin(Vec::new(self.alloc))?;
        let number = self.script.desk.open()?;
        Ok(format!(in self.alloc; "number {number}")?)
    }

    fn alone(&mut self) -> Result<String, Fault> {
        self.mode = Mode::Alone;
        lists::begin(self.alloc, self.plain)
    }

    fn among(&mut self) -> Result<String, Fault> {
        self.mode = Mode::Among;
        lists::begin(self.alloc, self.among)
    }

    fn stop(&mut self, choice: &str) -> Result<String, Fault> {
        let choice = long(choice)?;
        let number = stop_both(self.alloc, &mut self.script.desk, self.plain, choice)?;
        Ok(format!(in self.alloc; "number {number}")?)
    }

    fn turns(&mut self, seed: &str, count: &str) -> Result<String, Fault> {
        let seed = long(seed)?;
        let count = long(count)?;
        play_both(self.alloc, &mut self.script.desk, self.plain, seed, count)
    }

    /// A line on the hall and on the machine of plain lists.
    fn line_on_both(&mut self, line: &str, words: &[&str]) -> Result<String, Fault> {
        match words {
            ["stop", choice] => self.stop(choice),
            ["turns", seed, count] => self.turns(seed, count),
            _ => answer_both(self.alloc, &mut self.script.desk, self.plain, line),
        }
    }

    /// A line on what lines are made on.
    fn made(&mut self, line: &str, words: &[&str]) -> Result<String, Fault> {
        match self.mode {
            Mode::Hall => self.script.answer(line, words),
            Mode::Both => self.line_on_both(line, words),
            Mode::Alone => lists::answer(self.alloc, self.plain, words),
            Mode::Among => lists::answer(self.alloc, self.among, words),
        }
    }

    fn answer(&mut self, line: &str) -> Result<String, Fault> {
        let words: Vec<&str> = line.split_whitespace().collect(self.alloc)?;
        match words.as_slice() {
            ["new"] => self.start_again(),
            ["both"] => self.both(),
            ["alone"] => self.alone(),
            ["among"] => self.among(),
            ["other", actor, digits] => {
                lists::queue(self.alloc, &mut self.among.between, actor, digits)
            }
            words => self.made(line, words),
        }
    }

    /// What the line is answered. An empty line, and a comment, which begins with `#`, are given back.
    pub fn line(&mut self, line: &str) -> Result<String, AllocError> {
        if line.is_empty() || line.starts_with('#') {
            return String::from_str(self.alloc, line);
        }
        match self.answer(line) {
            Ok(text) => Ok(text),
            Err(fault) => fault_text(self.alloc, &fault),
        }
    }
}
