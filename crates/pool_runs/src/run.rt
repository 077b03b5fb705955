//! A run over a script.
use crate::answer::{Answer, Fault, text};
use crate::words::{number, words_of};
use crate::{changes, extents, parts, questions, rows, segments, tickets, volumes};
use extent_map::Extents;
use kinds::Refusal;
use pool_rows::Pools;
use space::Space;
use std::alloc::{AllocError, Global};
use std::mem;

/// What the commands are about: the value of `Pools`, another one that was put aside, the blocks of a volume, and what tickets hold.
#[derive(Drop)]
pub struct Run {
    alloc: Global,
    pools: Pools,
    aside: Pools,
    extents: Extents,
    space: Space,
}

/// The file number that is the only word.
fn file(words: &[&str]) -> Result<u32, Fault> {
    let [file] = words else {
        return Err(Fault::NoCommand);
    };
    number(file)
}

impl Run {
    /// What a new server has, twice, and no blocks.
    pub fn new(alloc: Global) -> Result<Self, Refusal> {
        Ok(Run {
            alloc,
            pools: Pools::fresh(alloc)?,
            aside: Pools::fresh(alloc)?,
            extents: Extents::new(alloc, 0)?,
            space: Space::new(alloc, 4),
        })
    }

    fn start_again(&mut self) -> Result<Answer, Fault> {
        let fresh = Pools::fresh(self.alloc)?;
        drop(mem::replace(&mut self.pools, fresh));
        Ok(Answer::Done)
    }

    /// Puts a copy aside.
    fn copy(&mut self) -> Result<Answer, Fault> {
        let copy = self.pools.clone()?;
        drop(mem::replace(&mut self.aside, copy));
        Ok(Answer::Done)
    }

    fn swap(&mut self) -> Answer {
        mem::swap(&mut self.pools, &mut self.aside);
        Answer::Done
    }

    fn take_up(&mut self, made: Option<Pools>) -> Answer {
        match made {
            Some(pools) => {
                drop(mem::replace(&mut self.pools, pools));
                Answer::Done
            }
            None => Answer::Nothing,
        }
    }

    fn made(&mut self, words: &[&str]) -> Result<Answer, Fault> {
        let made = parts::made(self.alloc, words)?;
        Ok(self.take_up(made))
    }

    fn made_again(&mut self) -> Result<Answer, Fault> {
        let made = parts::made_again(self.alloc, &self.pools)?;
        Ok(self.take_up(made))
    }

    /// What a command on the whole is answered.
    fn on_all(&mut self, command: &str, words: &[&str]) -> Result<Answer, Fault> {
        match command {
            "new" => self.start_again(),
            "copy" => self.copy(),
            "swap" => Ok(self.swap()),
            "parts" => self.made(words),
            "again" => self.made_again(),
            _ => Err(Fault::NoCommand),
        }
    }

    /// What a question about pools is answered.
    fn on_pools(&mut self, command: &str, words: &[&str]) -> Result<Answer, Fault> {
        match command {
            "atleast" => questions::at_least(&self.pools, words),
            "atmost" => questions::at_most(&self.pools, words),
            "named" => questions::named(self.alloc, &self.pools, words),
            "capacity" => questions::capacity(self.alloc, &self.pools, words),
            "sequential" => questions::sequential(&self.pools, words),
            _ => self.on_all(command, words),
        }
    }

    /// What a command on one volume is answered.
    fn on_volume(&mut self, command: &str, words: &[&str]) -> Result<Answer, Fault> {
        match command {
            "scratch" => volumes::scratch(&mut self.pools, words),
            "bare" => Ok(volumes::bare(&self.pools, file(words)?)),
            "drop" => Ok(volumes::drop(&mut self.pools, file(words)?)),
            "status" => Ok(volumes::status(&self.pools, file(words)?)),
            "reclaimable" => volumes::reclaimable(&self.pools, words),
            "may" => volumes::may(&self.pools, words),
            "reuse" => volumes::reuse(&mut self.pools, words),
            _ => self.on_pools(command, words),
        }
    }

    /// What a command on a segment is answered.
    fn on_segment(&mut self, command: &str, words: &[&str]) -> Result<Answer, Fault> {
        match command {
            "fits" => segments::fits(&self.pools, words),
            "holds" => segments::holds(&self.pools, words),
            "put" => segments::put(&mut self.pools, words),
            "take" => segments::take(&mut self.pools, words),
            "undo" => segments::undo(&mut self.pools, words),
            "blocks" => segments::blocks(words),
            "bytes" => segments::bytes(words),
            _ => self.on_volume(command, words),
        }
    }

    /// What a command is answered.
    fn answer(&mut self, command: &str, words: &[&str]) -> Result<Answer, Fault> {
        match command {
            "class" => changes::class(self.alloc, &mut self.pools, words),
            "pool" => changes::pool(self.alloc, &mut self.pools, words),
            "volume" => changes::volume(self.alloc, &mut self.pools, words),
            _ => self.on_segment(command, words),
        }
    }

    /// The words of what a command is answered, and whether the rows are others then.
    fn answer_text(&mut self, command: &str, words: &[&str]) -> Result<String, AllocError> {
        let before = rows::all(self.alloc, &self.pools)?;
        let answered = self.answer(command, words);
        let mut out = text(self.alloc, &answered)?;
        let after = rows::all(self.alloc, &self.pools)?;
        if before.as_str() != after.as_str() {
            out.push_str(", changed")?;
        }
        Ok(out)
    }

    fn show(&self, word: &str) -> Result<String, AllocError> {
        match number(word) {
            Ok(file) => rows::volume(self.alloc, &self.pools, file),
            Err(fault) => text(self.alloc, &Err(fault)),
        }
    }

    /// What a command on the space of tickets is answered.
    fn on_space(&mut self, words: &[&str]) -> Result<String, AllocError> {
        let answered = tickets::answer(self.alloc, &mut self.space, words);
        text(self.alloc, &answered)
    }

    /// What the line with these words is answered.
    fn say(&mut self, words: &[&str]) -> Result<String, AllocError> {
        match words {
            [] => Ok(String::new(self.alloc)),
            ["classes"] => rows::classes(self.alloc, &self.pools),
            ["pools"] => rows::pools(self.alloc, &self.pools),
            ["volumes"] => rows::volumes(self.alloc, &self.pools),
            ["show", word] => self.show(word),
            ["extents", words @ ..] => extents::say(self.alloc, &mut self.extents, words),
            ["space", words @ ..] => self.on_space(words),
            ["choose", words @ ..] => tickets::choose(self.alloc, &self.pools, &self.space, words),
            [command, words @ ..] => self.answer_text(command, words),
        }
    }

    /// What the line is answered. A line that begins with `#` is a comment, and is given back.
    pub fn line(&mut self, line: &str) -> Result<String, AllocError> {
        if line.starts_with('#') {
            return String::from_str(self.alloc, line);
        }
        let words = words_of(self.alloc, line)?;
        self.say(words.as_slice())
    }
}
