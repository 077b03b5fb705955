//! Lines on a store and its hall.
use crate::desk::Desk;
use crate::fault::Fault;
use crate::{sweeps, turns};
use std::alloc::Global;
use std::mem;
use step_words::{long, longs, number};

/// What the lines are about: a store and its hall, the lines since the store was new, and those over which lines are made again.
#[derive(Drop)]
pub struct Script {
    alloc: Global,
    pub desk: Desk,
    trial: Desk,
    /// The lines that were made since the store was new.
    lines: Vec<String>,
    /// How many of them stood before the first that is swept.
    mark: usize,
    /// The moments at which calls fail.
    failing: Vec<u64>,
}

impl Script {
    /// A store that was not formatted.
    pub fn new(alloc: Global) -> Script {
        Script {
            alloc,
            desk: Desk::new(alloc),
            trial: Desk::new(alloc),
            lines: Vec::new(alloc),
            mark: 0,
            failing: Vec::new(alloc),
        }
    }

    fn done(&self) -> Result<String, Fault> {
        Ok(String::from_str(self.alloc, "done")?)
    }

    /// The store becomes that of a new database, over which no hall is open.
    pub fn start_again(&mut self) -> Result<String, Fault> {
        drop(mem::replace(&mut self.lines, Vec::new(self.alloc)));
        self.mark = 0;
        self.failing = Vec::new(self.alloc);
        self.desk.begin(Vec::new(self.alloc))?;
        self.done()
    }

    /// The lines to come are those that are swept.
    fn begin(&mut self) -> Result<String, Fault> {
        self.mark = self.lines.len();
        self.done()
    }

    /// The calls that begin so many calls later fail: all lines are made again over a store that has these among the moments at which it fails.
    fn fail(&mut self, calls: &[&str]) -> Result<String, Fault> {
        let calls = longs(self.alloc, calls)?;
        let lines = self.lines.as_slice();
        let moment = sweeps::moment_behind(self.alloc, &mut self.trial, lines, &self.failing)?;
        for call in &calls {
            self.failing.push(moment.saturating_add(*call))?;
        }
        sweeps::make_all(self.alloc, &mut self.desk, lines, &self.failing)?;
        self.done()
    }

    fn sweep(&mut self) -> Result<String, Fault> {
        if !self.failing.is_empty() {
            return Err(Fault::NoCommand);
        }
        sweeps::stop_each(
            self.alloc,
            &mut self.trial,
            self.lines.as_slice(),
            self.mark,
        )
    }

    fn fail_each(&mut self) -> Result<String, Fault> {
        if !self.failing.is_empty() {
            return Err(Fault::NoCommand);
        }
        sweeps::fail_each(
            self.alloc,
            &mut self.trial,
            self.lines.as_slice(),
            self.mark,
        )
    }

    fn turns(&mut self, seed: &str, count: &str) -> Result<String, Fault> {
        let seed = long(seed)?;
        let count = long(count)?;
        let lines = self.lines.as_slice();
        turns::play(self.alloc, &mut self.trial, lines, seed, count)
    }

    fn faults(&self, file: &str) -> Result<String, Fault> {
        let count = self.desk.faults(number(file)?);
        Ok(format!(in self.alloc; "{count}")?)
    }

    /// What a line on the store and its hall is answered, which is kept.
    fn keep(&mut self, line: &str) -> Result<String, Fault> {
        self.lines.push(String::from_str(self.alloc, line)?)?;
        self.desk.make(line)
    }

    /// What a line is answered.
    pub fn answer(&mut self, line: &str, words: &[&str]) -> Result<String, Fault> {
        match words {
            ["begin"] => self.begin(),
            ["fail", calls @ ..] => self.fail(calls),
            ["sweep"] => self.sweep(),
            ["fail_each"] => self.fail_each(),
            ["turns", seed, count] => self.turns(seed, count),
            ["state"] => self.desk.state(),
            ["faults", file] => self.faults(file),
            _ => self.keep(line),
        }
    }
}
