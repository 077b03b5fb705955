//! Reads lines in sections and prints what each comes to. A line `= NAME` begins a section and is printed as it stands.
//!
//! - `commands`: a line of the command language, and what it says: its command with its fields, or the refusal with the column
//!   of the word that it is about. A line that begins with `>` is read as one of a block, without that sign.
//! - `table`: no lines; the manual's table of commands is printed.
//! - `words`: a line, and its words, each behind its column and with a bar behind it, one with wrong quotes with a `!`.
//! - `choices`: a word at column 7, and which of VOLUME, VOLHISTORY, DOMAIN and NODE it stands for.
//! - `values`: a kind, a space and a text at column 3, and whether the text is a value of this kind, of those in reading.rt.
//! - `row`: words for the places and keywords of the row in reading.rt, and what is given for them by number, the places before
//!   a slash.
//! - `fields`: a reader of fields, a space and a text, and what it reads.
//! - `patterns`: a pattern, a space and a path, and whether the pattern matches the path.
//! - `rules`: `file TEXT`, the text of a rule file, and its rules; `path TEXT`, and how the rules of the last file bind this path
//!   and to which class, where BIG is the one class of the set and STANDARD the default class.
//!
//! In values and rules `\n` is a line feed, `\r` a carriage return, `\t` a tab, and `\xHH` the byte with these digits.
#![tactic(auto)]

mod commands;
mod paths;
mod reading;
mod table;
mod text;

use std::alloc::{AllocError, Global};
use std::io;
use std::io::{BufWriter, Write};

/// What the lines of a section are.
#[derive(Clone, Copy)]
enum Section {
    Commands,
    Table,
    Words,
    Choices,
    Values,
    Row,
    Fields,
    Patterns,
    Rules,
}

fn section_of(name: &[u8]) -> Option<Section> {
    match name {
        b"commands" => Some(Section::Commands),
        b"table" => Some(Section::Table),
        b"words" => Some(Section::Words),
        b"choices" => Some(Section::Choices),
        b"values" => Some(Section::Values),
        b"row" => Some(Section::Row),
        b"fields" => Some(Section::Fields),
        b"patterns" => Some(Section::Patterns),
        b"rules" => Some(Section::Rules),
        _ => None,
    }
}

/// The section that a line begins.
fn begun(line: &[u8]) -> Option<Section> {
    match line {
        [b'=', b' ', name @ ..] => section_of(name),
        _ => None,
    }
}

/// What a line of a section comes to; in `file` stands the text of the last rule file.
fn answer(
    alloc: Global,
    section: Section,
    file: &mut Vec<u8>,
    line: &[u8],
) -> Result<Vec<u8>, AllocError> {
    match section {
        Section::Commands => commands::line(alloc, line),
        Section::Table => Vec::from_slice(alloc, line),
        Section::Words => reading::words(alloc, line),
        Section::Choices => reading::choice(alloc, line),
        Section::Values => reading::value(alloc, line),
        Section::Row => reading::row(alloc, line),
        Section::Fields => reading::field(alloc, line),
        Section::Patterns => paths::pattern(alloc, line),
        Section::Rules => paths::rules(alloc, file, line),
    }
}

/// The line that begins a section, and all of the section that has no lines.
fn heading(alloc: Global, section: Section, line: &[u8]) -> Result<Vec<u8>, AllocError> {
    let mut out = Vec::from_slice(alloc, line)?;
    if matches!(section, Section::Table) {
        out.extend_from_slice(table::lines(alloc)?.as_bytes())?;
    }
    Ok(out)
}

fn main(rt: HostRuntime) -> io::Result<()> {
    let alloc = rt.alloc();
    let mut out = BufWriter::new(alloc, io::writer(&rt))?;
    let mut section = Section::Commands;
    let mut file = Vec::new(alloc);
    for line in rt.lines(alloc) {
        let line = line?;
        let text = match begun(line.as_bytes()) {
            Some(next) => {
                section = next;
                heading(alloc, next, line.as_bytes())?
            }
            None => answer(alloc, section, &mut file, line.as_bytes())?,
        };
        out.write_all(text.as_slice())?;
        out.write_all(b"\n")?;
    }
    out.flush()
}
