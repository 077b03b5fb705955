//! A run over a script.
use crate::answer::{Fault, text};
use crate::steps::Desk;
use crate::sweeps;
use crate::words::{large, number, numbers, step, steps, words_of};
use calendar::Calendar;
use db_chains::read_chain;
use entries::Database;
use hex::{decode, encode};
use mem_store::MemStore;
use std::alloc::{AllocError, Global};
use store_api::Store;

/// The store and the vault that the commands are about, and those over which steps are made again and again.
#[derive(Drop)]
pub struct Run {
    alloc: Global,
    desk: Desk,
    trial: Desk,
}

/// A calendar's number and day.
fn calendar_text(alloc: Global, calendar: &Calendar) -> Result<String, Fault> {
    let number = calendar.number();
    let day = calendar.today().number();
    Ok(format!(in alloc; "number {number}, day {day}")?)
}

/// What a command on copies of a store is answered.
fn sweep(
    alloc: Global,
    trial: &mut Desk,
    store: &MemStore,
    words: &[&str],
) -> Result<String, Fault> {
    match words {
        ["stops", choice, words @ ..] => {
            let steps = steps(alloc, words)?;
            sweeps::stops(alloc, trial, store, large(choice)?, &steps)
        }
        ["again", choice, words @ ..] => {
            let steps = steps(alloc, words)?;
            sweeps::again(alloc, trial, store, large(choice)?, &steps)
        }
        ["faults", words @ ..] => {
            let steps = steps(alloc, words)?;
            sweeps::faults(alloc, trial, store, &steps)
        }
        _ => Err(Fault::NoCommand),
    }
}

impl Run {
    /// An empty store.
    pub fn new(alloc: Global) -> Run {
        Run {
            alloc,
            desk: Desk::new(alloc),
            trial: Desk::new(alloc),
        }
    }

    fn done(&self) -> Result<String, Fault> {
        Ok(String::from_str(self.alloc, "done")?)
    }

    fn start_again(&mut self) -> Result<String, Fault> {
        self.desk.begin(self.alloc);
        self.done()
    }

    fn stop(&mut self, choice: &str) -> Result<String, Fault> {
        self.desk.stop(self.alloc, large(choice)?);
        self.done()
    }

    fn fail(&mut self, words: &[&str]) -> Result<String, Fault> {
        let moments = numbers(self.alloc, words)?;
        self.desk.fail_at(self.alloc, moments);
        self.done()
    }

    fn write(&mut self, file: &str, offset: &str, bytes: &str) -> Result<String, Fault> {
        let file = number(file)?;
        let bytes = match decode(self.alloc, bytes) {
            Ok(bytes) => bytes,
            Err(_) => return Err(Fault::NoCommand),
        };
        self.desk.write(file, large(offset)?, &bytes)?;
        self.done()
    }

    fn cut(&mut self, file: &str, len: &str) -> Result<String, Fault> {
        self.desk.cut(number(file)?, large(len)?)?;
        self.done()
    }

    fn show(&self, file: &str) -> Result<String, Fault> {
        Ok(encode(self.alloc, self.desk.store.bytes(number(file)?))?)
    }

    fn chain(&mut self, file: &str) -> Result<String, Fault> {
        match read_chain::<Calendar, MemStore>(self.alloc, &mut self.desk.store, number(file)?) {
            Ok(calendar) => calendar_text(self.alloc, &calendar),
            Err(refused) => Ok(format!(in self.alloc; "{refused:?}")?),
        }
    }

    fn moment(&self) -> Result<String, Fault> {
        let moment = self.desk.store.moment();
        Ok(format!(in self.alloc; "{moment}")?)
    }

    fn make(&mut self, word: &str) -> Result<String, Fault> {
        self.desk.make(self.alloc, step(word)?)?;
        Ok(self.desk.text(self.alloc)?)
    }

    /// What a command on many stores is answered, which begins with copies of the store or with empty ones.
    fn sweep(&mut self, words: &[&str]) -> Result<String, Fault> {
        match words {
            ["here", words @ ..] => sweep(self.alloc, &mut self.trial, &self.desk.store, words),
            _ => sweep(
                self.alloc,
                &mut self.trial,
                &MemStore::new(self.alloc),
                words,
            ),
        }
    }

    /// What a command on the store is answered.
    fn on_store(&mut self, words: &[&str]) -> Result<String, Fault> {
        match words {
            ["stop", choice] => self.stop(choice),
            ["fail", moments @ ..] => self.fail(moments),
            ["write", file, offset, bytes] => self.write(file, offset, bytes),
            ["cut", file, len] => self.cut(file, len),
            ["show", file] => self.show(file),
            ["chain", file] => self.chain(file),
            _ => self.sweep(words),
        }
    }

    /// What a command is answered.
    fn answer(&mut self, words: &[&str]) -> Result<String, Fault> {
        match words {
            [] => Ok(String::new(self.alloc)),
            ["new"] => self.start_again(),
            ["moment"] => self.moment(),
            [word] => self.make(word),
            _ => self.on_store(words),
        }
    }

    /// What the line is answered. A line that begins with `#` is a comment, and is given back.
    pub fn line(&mut self, line: &str) -> Result<String, AllocError> {
        if line.starts_with('#') {
            return String::from_str(self.alloc, line);
        }
        let words = words_of(self.alloc, line)?;
        let answered = self.answer(words.as_slice());
        text(self.alloc, answered)
    }
}
