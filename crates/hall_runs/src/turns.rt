//! Turns of three actors on a hall and on a machine of plain lists, which are to answer alike, with stops of the machine between them.
use crate::checks::{databases_of, opened};
use crate::desk::Desk;
use crate::fault::{Fault, Finding};
use crate::made::Made;
use crate::seeds::Seeds;
use crate::{choices, plain};
use entries::Database;
use plain_hall::Hall;
use std::alloc::Global;
use std::collections::BTreeMap;
use std::mem;
use step_words::number;

/// How many actors there are.
const ACTORS: u64 = 3;

/// The machine stops behind so many turns.
const STOP: u64 = 40;

/// More steps than an image takes.
const MOST: u64 = 1000;

/// Each of these steps is to be made, and not refused, at least once.
const WORDS: [&str; 15] = [
    "open_new",
    "open_copy",
    "write",
    "copy_piece",
    "seal",
    "backup",
    "hold",
    "placed",
    "plain",
    "drop",
    "read",
    "ask",
    "image",
    "reuse",
    "force",
];

/// The hall, and the machine of plain lists.
#[derive(Drop)]
struct Both<'a> {
    alloc: Global,
    desk: &'a mut Desk,
    plain: Hall,
    /// Of which words steps weren't refused.
    made: Made,
}

/// The answer isn't a refusal: these alone begin with a capital letter, but for what an image came to.
fn is_fine(answer: &str) -> bool {
    let is_refusal = match answer.as_bytes().first() {
        Some(byte) => byte.is_ascii_uppercase(),
        None => false,
    };
    !is_refusal || answer.starts_with("Begun") || answer.starts_with("Done")
}

/// The answers of both machines to a line.
#[derive(Drop)]
struct Answers {
    hall: String,
    plain: String,
}

impl Both<'_> {
    /// What the hall answers; an image is written to its end.
    fn on_hall(&mut self, line: &str) -> Result<String, Fault> {
        for _ in 0..MOST {
            let answer = self.desk.make(line)?;
            if answer.as_str() != "More" {
                return Ok(answer);
            }
        }
        Err(Fault::Wrong(Finding::Endless))
    }

    /// What the machine of plain lists answers, likewise.
    fn on_plain(&mut self, actor: u32, line: &[&str]) -> Result<String, Fault> {
        for _ in 0..MOST {
            let answer = plain::answer(self.alloc, &mut self.plain, actor, line)?;
            if answer.as_str() != "More" {
                return Ok(answer);
            }
        }
        Err(Fault::Wrong(Finding::Endless))
    }

    /// What both answer to a line.
    fn answers(&mut self, line: &str) -> Result<Answers, Fault> {
        let words: Vec<&str> = line.split_whitespace().collect(self.alloc)?;
        let [actor, step @ ..] = words.as_slice() else {
            return Err(Fault::NoCommand);
        };
        let hall = self.on_hall(line)?;
        let plain = self.on_plain(number(actor)?, step)?;
        if is_fine(hall.as_str()) {
            self.made.note(&WORDS, step);
        }
        Ok(Answers { hall, plain })
    }

    /// A line that both are to answer alike; else what they answer.
    fn compare(&mut self, line: &str) -> Result<Option<String>, Fault> {
        let Answers { hall, plain } = self.answers(line)?;
        if hall == plain {
            return Ok(None);
        }
        Ok(Some(format!(in self.alloc; "{line}: {hall}, but {plain}")?))
    }

    /// An actor's turn.
    fn turn(&mut self, seeds: &mut Seeds) -> Result<Option<String>, Fault> {
        let actor = (seeds.number() % ACTORS) as u32 + 1;
        let step = choices::step(self.alloc, seeds, &self.plain, actor)?;
        let line = format!(in self.alloc; "{actor} {step}")?;
        self.compare(line.as_str())
    }

    /// The machine stops. Both have the same database then, and the hall that is opened one of those before it, which the machine of plain lists goes on with.
    fn stop(&mut self, choice: u64) -> Result<(), Fault> {
        let databases = databases_of(self.alloc, self.desk)?;
        let bytes = self.plain.inventory.encode(self.alloc)?;
        if !databases.is_last(bytes.as_slice()) {
            return Err(Fault::Wrong(Finding::OtherDatabase));
        }
        self.desk.stop(choice);
        let _ = opened(self.alloc, self.desk, &databases)?;
        self.begin_again()
    }

    /// The machine of plain lists begins with the database of the hall, and with the bytes of all objects.
    fn begin_again(&mut self) -> Result<(), Fault> {
        let Some(hall) = &self.desk.hall else {
            return Err(Fault::Closed);
        };
        let inventory = hall.base().copy(self.alloc)?;
        let contents = mem::replace(&mut self.plain.contents, BTreeMap::new(self.alloc));
        let plain = Hall::behind(self.alloc, inventory, hall.generation(), contents);
        drop(mem::replace(&mut self.plain, plain));
        Ok(())
    }

    /// So many turns; or the first line that they answer otherwise.
    fn turns(&mut self, seeds: &mut Seeds, count: u64) -> Result<Option<String>, Fault> {
        for turn in 0..count {
            if let Some(found) = self.turn(seeds)? {
                return Ok(Some(found));
            }
            if turn % STOP == STOP - 1 {
                self.stop(seeds.number())?;
            }
        }
        Ok(None)
    }

    /// Makes these lines on both.
    fn begin(&mut self, lines: &[String]) -> Result<Option<String>, Fault> {
        for line in lines {
            if line.as_str() != "open" {
                if let Some(found) = self.compare(line.as_str())? {
                    return Ok(Some(found));
                }
            }
        }
        Ok(None)
    }
}

/// What came of the turns on both, behind the lines.
fn played(both: &mut Both<'_>, lines: &[String], seed: u64, count: u64) -> Result<String, Fault> {
    if let Some(found) = both.begin(lines)? {
        return Ok(found);
    }
    if let Some(found) = both.turns(&mut Seeds::new(seed), count)? {
        return Ok(found);
    }
    let alloc = both.alloc;
    match both.made.lacking(&WORDS) {
        Some(word) => Ok(format!(in alloc; "no {word}")?),
        None => {
            let stops = count / STOP;
            Ok(format!(in alloc; "{count} turns, {stops} stops")?)
        }
    }
}

/// So many turns from a seed behind these lines, which are made on a new store: how many there were, and how many stops; or the first line that is answered otherwise by the machine of plain
/// lists.
pub fn play(
    alloc: Global,
    desk: &mut Desk,
    lines: &[String],
    seed: u64,
    count: u64,
) -> Result<String, Fault> {
    desk.begin(Vec::new(alloc))?;
    desk.open()?;
    let mut both = Both {
        alloc,
        desk,
        plain: Hall::new(alloc)?,
        made: Made::new(),
    };
    let text = played(&mut both, lines, seed, count);
    drop(both);
    text
}
