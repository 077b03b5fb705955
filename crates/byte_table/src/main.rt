//! Reads lines about bytes and prints what each comes to. BYTES are written as words of hexadecimal digits; `*N` behind a word
//! stands for it N times. A line that is none of these is printed as it stands.
//!
//! - BYTES alone: what the transaction with this spelling changes, its groups of changes and its segments as copies of them
//!   say it; or that there is none. It is seen too that the transaction and its copy are encoded as the same bytes, and that
//!   no proper prefix of them is a transaction's spelling.
//! - `first BYTES`: the same of the first form, in which transactions were written before, and how the transaction is spelled now.
//! - `long BYTES`: in how many bytes the transaction with this spelling is encoded, or the refusal.
//! - `day N`: the spelling of the transaction of actor 0 by which the day N begins.
//! - `name BYTES`, `node BYTES`, `path BYTES`, `filespace BYTES`, `description BYTES`: as what the bytes are read, or the refusal.
//! - `form KIND BYTES`: whether the bytes are a value's of this kind, of those in forms.rt.
//! - `read FIELD.. of BYTES`: the fields that are read one after the other, of those in reading.rt, and what is written then.
//! - `backup BYTES`: what the database backup with this payload holds, as backups.rt says.
//! - `put BYTES`, `items BYTES`, `list BYTES`, `map BYTES`, `empty`: values with a length in front, as lists.rt says.
#![tactic(auto)]

mod backups;
mod digits;
mod entry;
mod forms;
mod lists;
mod names;
mod reading;
mod show;

use kinds::Refusal;
use std::alloc::Global;
use std::io;
use std::io::{BufWriter, Write};

/// What a line comes to whose first word says that it is about bytes and nothing else; none where it doesn't.
fn about_bytes(alloc: Global, word: &str, bytes: &[u8]) -> Result<Option<String>, Refusal> {
    match word {
        "first" => Ok(Some(entry::first(alloc, bytes)?)),
        "long" => Ok(Some(entry::encoded(alloc, bytes)?)),
        "backup" => backups::backup(alloc, bytes),
        "name" => names::name(alloc, bytes),
        "node" => names::node(alloc, bytes),
        "path" => names::path(alloc, bytes),
        "filespace" => names::filespace(alloc, bytes),
        "description" => names::description(alloc, bytes),
        "put" => lists::put(alloc, bytes),
        "items" => lists::pushed(alloc, bytes),
        "list" => lists::list(alloc, bytes),
        "map" => lists::map(alloc, bytes),
        "empty" => lists::empty(alloc),
        _ => Ok(None),
    }
}

/// What a line comes to that begins with this word; none where it is printed as it stands.
fn answer(alloc: Global, line: &str, word: &str, rest: &str) -> Result<Option<String>, Refusal> {
    match word {
        "day" => entry::day(alloc, rest),
        "form" => forms::line(alloc, rest),
        "read" => reading::line(alloc, rest),
        _ => match digits::bytes_of(alloc, line) {
            Some(bytes) => Ok(Some(entry::transaction(alloc, bytes.as_slice())?)),
            None => match digits::bytes_of(alloc, rest) {
                Some(bytes) => about_bytes(alloc, word, bytes.as_slice()),
                None => Ok(None),
            },
        },
    }
}

/// What is printed for a line.
fn printed(alloc: Global, line: &str) -> Result<String, Refusal> {
    let (word, rest) = line.split_once(' ').unwrap_or((line, ""));
    match answer(alloc, line, word, rest)? {
        Some(text) => Ok(text),
        None => Ok(String::from_str(alloc, line)?),
    }
}

fn main(rt: HostRuntime) -> io::Result<()> {
    let alloc = rt.alloc();
    let mut out = BufWriter::new(alloc, io::writer(&rt))?;
    for line in rt.lines(alloc) {
        let line = line?;
        match printed(alloc, line.as_str()) {
            Ok(text) => out.write_all(text.as_bytes())?,
            Err(_) => out.write_all(b"want of memory")?,
        }
        out.write_all(b"\n")?;
    }
    out.flush()
}
