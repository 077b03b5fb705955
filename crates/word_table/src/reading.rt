//! The reader of a command language that a table gives: words, choices, values, rows and fields.
//!
//! Kinds of values are `name`, `node`, `name-or-none`, `path`, `filespace`, `pattern`, `share` (1 to 100), `volume-size` (64K to 1T),
//! `size` (below 2^64), `versions` (1 to 9999, or no limit), `description`, and `option` (one of the four words that are chosen from). The row has a place for
//! a name and one for STANDARD, which may be missing, and the keywords TYPE with BACKUP, which must be there, and TEXT of up to 99
//! bytes on one side or SIZE up to 99999 bytes and FILL up to 250 on the other. Readers of fields are `name`, `path`, `text`,
//! `percent`, `limit` (up to 9999), `long-limit` (up to 30000), `bytes`, and `word`, which reads one of the four words.
use crate::text::{parted, plain, refused, show_number};
use command_words::{
    Given, Kind, Need, Place, Slot, Word, choose, field, row_values, torn_at, valued, words_of,
};
use kinds::Refusal;
use std::alloc::{AllocError, Global};

const OPTIONS: [&str; 4] = ["VOLUME", "VOLHISTORY", "DOMAIN", "NODE"];

/// The longest line that is read.
const LONGEST: usize = 4096;

/// A word behind its column, with a `!` where its quotes are wrong.
fn show_word(alloc: Global, out: &mut Vec<u8>, word: &Word) -> Result<(), AllocError> {
    show_number(alloc, out, word.0 as usize)?;
    out.push(b' ')?;
    out.extend_from_slice(word.1)?;
    if !word.2 {
        out.push(b'!')?;
    }
    out.push(b'|')?;
    Ok(())
}

fn show_words(alloc: Global, words: &[Word]) -> Result<Vec<u8>, AllocError> {
    let mut out = Vec::new(alloc);
    for word in words {
        show_word(alloc, &mut out, word)?;
    }
    if let Some(column) = torn_at(words) {
        out.extend_from_slice(b" torn at ")?;
        show_number(alloc, &mut out, column as usize)?;
    }
    Ok(out)
}

pub fn words(alloc: Global, line: &[u8]) -> Result<Vec<u8>, AllocError> {
    if line.len() > LONGEST {
        return Vec::from_slice(alloc, b"too long");
    }
    let words = words_of(alloc, line)?;
    if words.is_empty() {
        return Vec::from_slice(alloc, b"no words");
    }
    show_words(alloc, words.as_slice())
}

pub fn choice(alloc: Global, word: &[u8]) -> Result<Vec<u8>, AllocError> {
    match choose(7, word, OPTIONS.as_slice()) {
        Ok(at) => Vec::from_slice(alloc, OPTIONS[at].as_bytes()),
        Err(refusal) => refused(alloc, &refusal),
    }
}

fn kind_of(name: &[u8]) -> Option<Kind> {
    match name {
        b"name" => Some(Kind::Name),
        b"node" => Some(Kind::NodeName),
        b"name-or-none" => Some(Kind::NameOrNone),
        b"path" => Some(Kind::Path),
        b"filespace" => Some(Kind::FilespaceName),
        b"pattern" => Some(Kind::Pattern),
        b"share" => Some(Kind::Number {
            least: 1,
            most: 100,
        }),
        b"volume-size" => Some(Kind::Size {
            least: 65536,
            most: 1 << 40,
        }),
        b"size" => Some(Kind::Size {
            least: 0,
            most: u64::MAX,
        }),
        b"versions" => Some(Kind::Limit {
            least: 1,
            most: 9999,
        }),
        b"description" => Some(Kind::Description),
        b"option" => Some(Kind::OneOf),
        _ => None,
    }
}

/// Whether the text is a value of this kind.
fn fitted(alloc: Global, kind: Kind, text: &[u8]) -> Result<Vec<u8>, AllocError> {
    match valued(kind, OPTIONS.as_slice(), 3, text) {
        Ok(_) => Vec::from_slice(alloc, b"a value"),
        Err(refusal) => refused(alloc, &refusal),
    }
}

pub fn value(alloc: Global, line: &[u8]) -> Result<Vec<u8>, AllocError> {
    let (name, text) = parted(line);
    let text = plain(alloc, text)?;
    match kind_of(name) {
        Some(kind) => fitted(alloc, kind, text.as_slice()),
        None => Vec::from_slice(alloc, b"no kind"),
    }
}

const PLACES: [Place; 2] = [(Kind::Name, &[], true), (Kind::OneOf, &["STANDARD"], false)];

const SLOTS: [Slot; 4] = [
    ("TYPE", Kind::OneOf, &["BACKUP"], Need::Required),
    (
        "TEXT",
        Kind::Text { least: 0, most: 99 },
        &[],
        Need::OneSide(0),
    ),
    (
        "SIZE",
        Kind::Size {
            least: 0,
            most: 99999,
        },
        &[],
        Need::OneSide(1),
    ),
    (
        "FILL",
        Kind::Number {
            least: 0,
            most: 250,
        },
        &[],
        Need::OneSide(1),
    ),
];

/// What was given, each value behind its number and before a bar.
fn show_given(alloc: Global, out: &mut Vec<u8>, given: &[Given]) -> Result<(), AllocError> {
    for one in given {
        show_number(alloc, out, one.0)?;
        out.push(b' ')?;
        out.extend_from_slice(one.1)?;
        out.push(b'|')?;
    }
    Ok(())
}

/// What the words of a line give for the row.
fn given(alloc: Global, line: &[u8]) -> Result<Vec<u8>, Refusal> {
    let mut out = Vec::new(alloc);
    if line.len() > LONGEST {
        return Ok(out);
    }
    let words = words_of(alloc, line)?;
    let end = line.len() as u32 + 1;
    let (places, keys) = row_values(
        alloc,
        PLACES.as_slice(),
        SLOTS.as_slice(),
        end,
        words.as_slice(),
    )?;
    show_given(alloc, &mut out, places.as_slice())?;
    out.push(b'/')?;
    show_given(alloc, &mut out, keys.as_slice())?;
    Ok(out)
}

pub fn row(alloc: Global, line: &[u8]) -> Result<Vec<u8>, AllocError> {
    match given(alloc, line) {
        Ok(shown) => Ok(shown),
        Err(refusal) => refused(alloc, &refusal),
    }
}

fn name_field(alloc: Global, text: &[u8]) -> Result<Vec<u8>, AllocError> {
    match field::name(alloc, Some(text)) {
        Ok(name) => Vec::from_slice(alloc, name.as_bytes()),
        Err(refusal) => refused(alloc, &refusal),
    }
}

fn path_field(alloc: Global, text: &[u8]) -> Result<Vec<u8>, AllocError> {
    match field::path(alloc, Some(text)) {
        Ok(path) => Vec::from_slice(alloc, path.as_bytes()),
        Err(refusal) => refused(alloc, &refusal),
    }
}

fn text_field(alloc: Global, text: &[u8]) -> Result<Vec<u8>, AllocError> {
    match field::text(alloc, Some(text)) {
        Ok(read) => Vec::from_slice(alloc, read.as_bytes()),
        Err(refusal) => refused(alloc, &refusal),
    }
}

/// What a reader of numbers, limits or words reads.
fn number_field(alloc: Global, name: &[u8], text: &[u8]) -> Result<String, AllocError> {
    match name {
        b"percent" => format!(in alloc; "{:?}", field::percent(Some(text))),
        b"limit" => format!(in alloc; "{:?}", field::limit(Some(text), 9999)),
        b"long-limit" => format!(in alloc; "{:?}", field::limit(Some(text), 30000)),
        b"bytes" => format!(in alloc; "{:?}", field::bytes(Some(text))),
        b"word" => format!(in alloc; "{:?}", field::word(Some(text), OPTIONS.as_slice())),
        _ => String::from_str(alloc, "no reader"),
    }
}

pub fn field(alloc: Global, line: &[u8]) -> Result<Vec<u8>, AllocError> {
    let (name, text) = parted(line);
    match name {
        b"name" => name_field(alloc, text),
        b"path" => path_field(alloc, text),
        b"text" => text_field(alloc, text),
        _ => Vec::from_slice(alloc, number_field(alloc, name, text)?.as_bytes()),
    }
}
