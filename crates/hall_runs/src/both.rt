//! Processes and commands as turns of actors, on a hall and on the machine of plain lists, which answer alike; and stops of the machine, between them or in one.
use crate::checks::{Databases, databases_of, opened};
use crate::desk::Desk;
use crate::fault::{Fault, Finding};
use crate::made::Made;
use crate::seeds::Seeds;
use crate::{files, orders, processes};
use entries::Database;
use hall::Hall;
use hall_turns::Direct;
use mem_store::MemStore;
use plain_hall::{Hall as Plain, ListMachine, Nobody, Trace};
use std::alloc::Global;
use std::mem;
use step_words::number;

/// The machine stops behind so many turns at the latest.
const TURNS: u64 = 40;

/// Calls begin to fail at one of so many.
const CALLS: u64 = 600;

/// So many calls fail from that one on: more than a turn makes where calls fail, so that no call is made in a machine that has stopped.
const REST: u64 = 256;

/// Each of these is to do something at least once.
const WORDS: [&str; 18] = [
    "PUT",
    "GET",
    "CHANGE",
    "EXPIRE",
    "BACKUP",
    "MIGRATE",
    "MIGRATE_ALL",
    "RECLAIM",
    "MOVE",
    "RESTORE",
    "RESTORE_VOLUME",
    "REUSE",
    "DELETE_VOLUME",
    "DELETE_FILESPACE",
    "CHECKPOINT",
    "open_new",
    "drop",
    "ask",
];

/// These make all durable before they end, where they aren't refused.
const FORCED: [&str; 12] = [
    "PUT",
    "CHANGE",
    "EXPIRE",
    "BACKUP",
    "MIGRATE",
    "MIGRATE_ALL",
    "RECLAIM",
    "MOVE",
    "RESTORE",
    "RESTORE_VOLUME",
    "DELETE_VOLUME",
    "DELETE_FILESPACE",
];

/// The answer isn't a refusal: these alone begin with a capital letter.
fn is_fine(answer: &str) -> bool {
    match answer.as_bytes().first() {
        Some(byte) => !byte.is_ascii_uppercase(),
        None => true,
    }
}

/// It did something: it isn't refused, and counts of what it did aren't 0.
fn did_something(answer: &str) -> bool {
    is_fine(answer)
        && answer != "count 0"
        && !answer.starts_with("moved 0,")
        && answer != "discarded 0, dropped 0"
}

/// The line is one of those that make all durable.
fn is_forced(line: &[&str]) -> bool {
    match line.first() {
        Some(made) => FORCED.iter().any(|word| *word == *made),
        None => false,
    }
}

/// The number of the last of the hall's transactions that is known to be durable.
fn durable(hall: &Hall<MemStore>) -> u64 {
    hall.base()
        .number()
        .saturating_add(hall.stamps().len() as u64)
}

/// What a line is answered, which an actor has the hall alone for.
fn on_hall(
    alloc: Global,
    hall: &mut Hall<MemStore>,
    actor: u32,
    line: &[&str],
) -> Result<String, Fault> {
    let mut direct = Direct::new(hall, actor);
    processes::answer(alloc, &mut direct, line)
}

/// What both answer to a line.
#[derive(Drop)]
struct Answers {
    hall: String,
    plain: String,
}

/// So many moments from this one on.
fn moments(alloc: Global, first: u64, count: u64) -> Result<Vec<u64>, Fault> {
    let mut moments = Vec::new(alloc);
    for later in 0..count {
        moments.push(first.saturating_add(later))?;
    }
    Ok(moments)
}

/// The hall, and the machine of plain lists.
#[derive(Drop)]
pub struct Both<'a> {
    alloc: Global,
    desk: &'a mut Desk,
    plain: &'a mut ListMachine<Nobody>,
    /// Which words did something.
    made: Made,
    /// How often calls had failed when the hall was opened.
    faults: u64,
}

impl<'a> Both<'a> {
    /// Both, where no call has failed since the hall was opened.
    pub fn new(alloc: Global, desk: &'a mut Desk, plain: &'a mut ListMachine<Nobody>) -> Both<'a> {
        let faults = desk.all_faults();
        Both {
            alloc,
            desk,
            plain,
            made: Made::new(),
            faults,
        }
    }
}

impl Both<'_> {
    /// A call has failed since the hall was opened.
    fn has_failed(&self) -> bool {
        self.desk.all_faults() > self.faults
    }

    /// What the hall answers, and what is known to be durable then.
    fn on_hall(&mut self, actor: u32, line: &[&str]) -> Result<String, Fault> {
        let Some(hall) = &mut self.desk.hall else {
            return Err(Fault::Closed);
        };
        let answer = on_hall(self.alloc, hall, actor, line)?;
        let forced = durable(hall);
        if forced < hall.number() && is_fine(answer.as_str()) && is_forced(line) {
            return Err(Fault::Wrong(Finding::Lost));
        }
        self.desk.acknowledged = self.desk.acknowledged.max(forced);
        Ok(answer)
    }

    /// What the machine of plain lists answers.
    fn on_plain(&mut self, actor: u32, line: &[&str]) -> Result<String, Fault> {
        self.plain.trace = Trace::new(self.alloc, actor);
        processes::answer(self.alloc, self.plain, line)
    }

    /// What both answer to a line.
    fn answers(&mut self, line: &str) -> Result<Answers, Fault> {
        let words: Vec<&str> = line.split_whitespace().collect(self.alloc)?;
        let [actor, line @ ..] = words.as_slice() else {
            return Err(Fault::NoCommand);
        };
        let actor = number(actor)?;
        let plain = self.on_plain(actor, line)?;
        let hall = self.on_hall(actor, line)?;
        if did_something(hall.as_str()) {
            self.made.note(&WORDS, line);
        }
        Ok(Answers { hall, plain })
    }

    /// They answer alike, or a call has failed.
    fn are_alike(&self, answers: &Answers) -> bool {
        answers.hall == answers.plain || self.has_failed()
    }

    /// What both answer to a line, or where they don't answer alike both answers.
    pub fn line(&mut self, line: &str) -> Result<String, Fault> {
        let answers = self.answers(line)?;
        let are_alike = self.are_alike(&answers);
        let Answers { hall, plain } = answers;
        if are_alike {
            return Ok(hall);
        }
        Ok(format!(in self.alloc; "{hall}, but {plain}")?)
    }

    /// A turn; what they answer where that isn't alike.
    fn turn(&mut self, seeds: &mut Seeds) -> Result<Option<String>, Fault> {
        let line = orders::line(self.alloc, seeds, &self.plain.hall)?;
        let answers = self.answers(line.as_str())?;
        if self.are_alike(&answers) {
            return Ok(None);
        }
        let Answers { hall, plain } = answers;
        Ok(Some(format!(in self.alloc; "{line}: {hall}, but {plain}")?))
    }

    /// Both have the same database.
    fn check_same(&self, databases: &Databases) -> Result<(), Fault> {
        let bytes = self.plain.hall.inventory.encode(self.alloc)?;
        if databases.is_last(bytes.as_slice()) {
            Ok(())
        } else {
            Err(Fault::Wrong(Finding::OtherDatabase))
        }
    }

    /// The machine stops. Both have the same database then, unless a call has failed, and the hall that is opened one of those before it.
    fn stop_hall(&mut self, choice: u64) -> Result<(), Fault> {
        let databases = databases_of(self.alloc, self.desk)?;
        if !self.has_failed() {
            self.check_same(&databases)?;
        }
        self.desk.stop(choice);
        let _ = opened(self.alloc, self.desk, &databases)?;
        Ok(())
    }

    /// The machine of plain lists begins with the database of the hall, and with the bytes of its objects.
    fn begin_again(&mut self) -> Result<(), Fault> {
        let Some(hall) = &self.desk.hall else {
            return Err(Fault::Closed);
        };
        let contents = files::contents_of(self.alloc, hall.base().tables())?;
        let inventory = hall.base().copy(self.alloc)?;
        let plain = Plain::behind(self.alloc, inventory, hall.generation(), contents);
        drop(mem::replace(&mut self.plain.hall, plain));
        self.faults = self.desk.all_faults();
        Ok(())
    }

    /// The machine stops, and both go on with what is left: the number of its last transaction.
    pub fn stop(&mut self, choice: u64) -> Result<u64, Fault> {
        self.stop_hall(choice)?;
        self.begin_again()?;
        Ok(self.plain.hall.number())
    }

    /// The hall is opened again over a store of which so many calls fail, from one a number of calls later on. Where the opening makes that one the machine stops there once more, and none
    /// fails then.
    fn open_failing(&mut self, later: u64, count: u64, choice: u64) -> Result<(), Fault> {
        let databases = databases_of(self.alloc, self.desk)?;
        let first = self.desk.moment().saturating_add(later);
        self.desk.fail_at(moments(self.alloc, first, count)?);
        if self.desk.open().is_err() {
            self.desk.stop(choice);
            let _ = opened(self.alloc, self.desk, &databases)?;
        }
        self.begin_again()
    }

    /// In the turns that follow no call fails, or one alone, or all from one on.
    fn fail_later(&mut self, seeds: &mut Seeds) -> Result<(), Fault> {
        let count = match seeds.below(3) {
            0 => 0,
            1 => 1,
            _ => REST,
        };
        self.open_failing(seeds.below(CALLS), count, seeds.number())
    }

    /// Turns up to a stop of the machine, which comes behind the turn in which a call fails; what they answer where that isn't alike.
    fn stretch(&mut self, seeds: &mut Seeds) -> Result<Option<String>, Fault> {
        for _ in 0..TURNS {
            if let Some(found) = self.turn(seeds)? {
                return Ok(Some(found));
            }
            if self.has_failed() {
                break;
            }
        }
        let _ = self.stop(seeds.number())?;
        self.fail_later(seeds)?;
        Ok(None)
    }

    /// So many stretches of turns, each up to a stop: how many, or what they answer where that isn't alike, or a word that did nothing.
    pub fn play(&mut self, seed: u64, count: u64) -> Result<String, Fault> {
        let mut seeds = Seeds::new(seed);
        for _ in 0..count {
            if let Some(found) = self.stretch(&mut seeds)? {
                return Ok(found);
            }
        }
        match self.made.lacking(&WORDS) {
            Some(word) => Ok(format!(in self.alloc; "no {word}")?),
            None => Ok(format!(in self.alloc; "{count} stops")?),
        }
    }
}
