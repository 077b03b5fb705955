//! What the words of a line stand for.
use crate::fault::Fault;
use entries::Entry;
use inventory_answers::Query;
use inventory_work::Listed;
use kinds::{Digest, Name, Path, Text};
use sha2::{Digest as _, Sha256};
use space::Aim;
use std::alloc::Global;
use steps::{Asked, HeldItem, ImageKind, Item, Step};

/// A text has at most so many bytes.
const MOST_BYTES: usize = 1 << 20;

/// The words of a line, read one after the other. One that is missing, or isn't what it is read as, is remembered, and an empty word, or 0, stands in its place.
#[derive(Drop)]
pub struct Words<'a> {
    rest: &'a [&'a str],
    is_fine: bool,
}

impl<'a> Words<'a> {
    /// No word is read yet.
    pub fn new(words: &'a [&'a str]) -> Words<'a> {
        Words {
            rest: words,
            is_fine: true,
        }
    }

    /// The word that was read stands for nothing.
    fn fail(&mut self) {
        self.is_fine = false;
    }

    /// The next word.
    pub fn word(&mut self) -> &'a str {
        match self.rest {
            [word, rest @ ..] => {
                self.rest = rest;
                *word
            }
            _ => {
                self.is_fine = false;
                ""
            }
        }
    }

    /// The next word as a number of 32 bits.
    pub fn number(&mut self) -> u32 {
        match self.word().parse::<u32>() {
            Ok(number) => number,
            Err(_) => {
                self.is_fine = false;
                0
            }
        }
    }

    /// The next word as a number of 64 bits.
    pub fn long(&mut self) -> u64 {
        match self.word().parse::<u64>() {
            Ok(number) => number,
            Err(_) => {
                self.is_fine = false;
                0
            }
        }
    }

    /// The words that are left are numbers of 64 bits.
    pub fn longs(&self, alloc: Global) -> Result<Vec<u64>, Fault> {
        longs(alloc, self.rest)
    }

    /// The next word as a day until which something is kept; `-` is none.
    fn until(&mut self) -> Option<u32> {
        match self.rest {
            ["-", rest @ ..] => {
                self.rest = rest;
                None
            }
            _ => Some(self.number()),
        }
    }

    /// All words that were read were there, and were what they were read as.
    fn fine(&self) -> Result<(), Fault> {
        if self.is_fine {
            Ok(())
        } else {
            Err(Fault::NoCommand)
        }
    }

    /// The step, where all words were read and were what they were read as.
    pub fn make(&self, step: Step) -> Result<Step, Fault> {
        if self.is_fine & self.rest.is_empty() {
            return Ok(step);
        }
        drop(step);
        Err(Fault::NoCommand)
    }
}

/// A number of 32 bits.
pub fn number(word: &str) -> Result<u32, Fault> {
    word.parse::<u32>().ok().ok_or(Fault::NoCommand)
}

/// A number of 64 bits.
pub fn long(word: &str) -> Result<u64, Fault> {
    word.parse::<u64>().ok().ok_or(Fault::NoCommand)
}

/// The numbers that the words are.
pub fn longs(alloc: Global, words: &[&str]) -> Result<Vec<u64>, Fault> {
    let mut out = Vec::new(alloc);
    for word in words {
        out.push(long(word)?)?;
    }
    Ok(out)
}

/// Adds so many bytes, all alike.
fn add_repeated(out: &mut Vec<u8>, count: &str, byte: &str) -> Result<(), Fault> {
    let count = number(count)? as usize;
    let byte = byte.parse::<u8>().ok().ok_or(Fault::NoCommand)?;
    let len = out.len().saturating_add(count);
    if len > MOST_BYTES {
        return Err(Fault::NoCommand);
    }
    Ok(out.resize(len, byte)?)
}

/// The bytes of a word; or, of `COUNT*BYTE`, so many bytes with this number; `+` stands between several of these, and `-` is none.
pub fn bytes_of(alloc: Global, word: &str) -> Result<Vec<u8>, Fault> {
    let mut out = Vec::new(alloc);
    if word == "-" {
        return Ok(out);
    }
    for part in word.split('+') {
        match part.split_once('*') {
            Some((count, byte)) => add_repeated(&mut out, count, byte)?,
            None => out.extend_from_slice(part.as_bytes())?,
        }
    }
    Ok(out)
}

/// The SHA-256 of what a word stands for.
pub fn digest(alloc: Global, word: &str) -> Result<Digest, Fault> {
    let bytes = bytes_of(alloc, word)?;
    let mut hasher = Sha256::new();
    hasher.update(bytes.as_slice());
    Ok(Digest(hasher.finalize()))
}

/// The transaction that hexadecimal digits stand for.
pub fn entry(alloc: Global, digits: &str) -> Result<Entry, Fault> {
    let bytes = hex::decode(alloc, digits.as_bytes())
        .ok()
        .ok_or(Fault::NoCommand)?;
    match Entry::decode(alloc, bytes.as_slice())? {
        Some(entry) => Ok(entry),
        None => Err(Fault::NoCommand),
    }
}

/// The change of a transaction that is asked as such.
pub fn plain(alloc: Global, digits: &str) -> Result<Asked, Fault> {
    let Entry { actor: _, change } = entry(alloc, digits)?;
    Ok(Asked::Plain(change))
}

/// One item in a list.
fn only<T: Drop>(alloc: Global, item: T) -> Result<Listed<T>, Fault> {
    let mut items = Vec::new(alloc);
    items.push(item)?;
    Ok(Listed::from_vec(items))
}

fn item(alloc: Global, words: &mut Words<'_>) -> Result<Item, Fault> {
    let path = words.word();
    let mtime = words.long();
    let text = words.word();
    words.fine()?;
    let digest = digest(alloc, text)?;
    let class = Name::read(alloc, b"STANDARD", 30)?;
    Ok(Item {
        path: Path::read(alloc, path.as_bytes())?,
        class,
        mtime,
        digest,
    })
}

/// What is to be committed: a file that becomes a version of its path, in the class STANDARD.
pub fn backup(alloc: Global, words: &mut Words<'_>) -> Result<Asked, Fault> {
    let filespace = words.number();
    let items = only(alloc, item(alloc, words)?)?;
    Ok(Asked::Backup { filespace, items })
}

fn held_item(alloc: Global, words: &mut Words<'_>) -> Result<HeldItem, Fault> {
    let path = words.word();
    let until = words.until();
    let text = words.word();
    words.fine()?;
    let digest = digest(alloc, text)?;
    let description = Text::read(alloc, b"")?;
    Ok(HeldItem {
        path: Path::read(alloc, path.as_bytes())?,
        description,
        mtime: 0,
        digest,
        until,
    })
}

/// A file that is archived, until a day or for ever, without a description.
pub fn hold(alloc: Global, words: &mut Words<'_>) -> Result<Asked, Fault> {
    let filespace = words.number();
    let items = only(alloc, held_item(alloc, words)?)?;
    Ok(Asked::Hold { filespace, items })
}

/// A copy that moves from one pool to another.
fn moved(words: &mut Words<'_>) -> Aim {
    let from = words.number();
    let placed = words.long();
    let to = words.number();
    Aim::Move {
        from,
        placed,
        to,
        along: words.word() == "along",
    }
}

/// What a copy is for.
pub fn aim(words: &mut Words<'_>) -> Aim {
    match words.word() {
        "copy" => Aim::Copy { to: words.number() },
        "move" => moved(words),
        "new" => Aim::New {
            pool: words.number(),
        },
        _ => {
            words.fail();
            Aim::New { pool: 0 }
        }
    }
}

/// What is asked of an image.
pub fn image(words: &mut Words<'_>) -> ImageKind {
    match words.word() {
        "checkpoint" => ImageKind::Checkpoint,
        "backup" => ImageKind::Backup,
        "since" => ImageKind::Since {
            after: words.number(),
        },
        "next" => ImageKind::Next,
        _ => {
            words.fail();
            ImageKind::Next
        }
    }
}

/// What is asked of the database.
pub fn query(words: &mut Words<'_>) -> Query {
    match words.word() {
        "today" => Query::Today,
        "unretained" => Query::Unretained,
        "emptied" => Query::Emptied,
        "log" => Query::LogBytes,
        "held" => Query::Held {
            filespace: words.number(),
        },
        "onpool" => Query::OnPool {
            pool: words.number(),
        },
        _ => {
            words.fail();
            Query::Today
        }
    }
}
