//! Transactions: what is told of their bytes.
use crate::digits::show_digits;
use crate::show::show;
use entries::{Change, Entry};
use kinds::{Day, Refusal};
use std::alloc::{AllocError, Global};

/// Whether there is an entry, which goes.
fn is_one(read: Option<Entry>) -> bool {
    let found = read.is_some();
    drop(read);
    found
}

/// Whether the bytes are an entry's spelling.
fn is_entry(alloc: Global, bytes: &[u8]) -> Result<bool, Refusal> {
    match Entry::decode(alloc, bytes) {
        Ok(read) => Ok(is_one(read)),
        Err(refusal) => Err(refusal),
    }
}

/// Whether a proper prefix of the bytes is an entry's spelling.
fn has_entry_in_front(alloc: Global, bytes: &[u8]) -> Result<bool, Refusal> {
    for end in 0..bytes.len() {
        if is_entry(alloc, &bytes[..end])? {
            return Ok(true);
        }
    }
    Ok(false)
}

/// The spelling of the entry, which goes.
fn last_spelling(alloc: Global, entry: Entry) -> Result<Vec<u8>, Refusal> {
    let spelling = entry.encode(alloc);
    drop(entry);
    spelling
}

/// The spelling of a copy.
fn copy_spelling(alloc: Global, entry: &Entry) -> Result<Vec<u8>, Refusal> {
    match entry.copy(alloc) {
        Ok(copy) => last_spelling(alloc, copy),
        Err(refusal) => Err(refusal),
    }
}

fn is_spelled_so(alloc: Global, entry: &Entry, bytes: &[u8]) -> Result<bool, Refusal> {
    let spelled = entry.encode(alloc)?;
    let copied = copy_spelling(alloc, entry)?;
    Ok(spelled.as_slice() == bytes && copied.as_slice() == bytes)
}

/// What the entry changes, and whether its bytes are wrong.
fn words_of(alloc: Global, entry: &Entry, bytes: &[u8]) -> Result<String, Refusal> {
    let mut words = show(alloc, entry)?;
    if !is_spelled_so(alloc, entry, bytes)? {
        words.push_str(", SPELLED OTHERWISE")?;
    }
    if has_entry_in_front(alloc, bytes)? {
        words.push_str(", BEHIND ANOTHER")?;
    }
    Ok(words)
}

fn no_entry(alloc: Global) -> Result<String, Refusal> {
    Ok(String::from_str(alloc, "no entry")?)
}

/// What the transaction with this spelling changes.
pub fn transaction(alloc: Global, bytes: &[u8]) -> Result<String, Refusal> {
    match Entry::decode(alloc, bytes) {
        Ok(Some(entry)) => {
            let words = words_of(alloc, &entry, bytes);
            drop(entry);
            words
        }
        Ok(None) => no_entry(alloc),
        Err(refusal) => Err(refusal),
    }
}

/// Whether the bytes are an entry's spelling in the first form.
fn is_first(alloc: Global, bytes: &[u8]) -> Result<bool, Refusal> {
    match Entry::decode_one(alloc, bytes) {
        Ok(read) => Ok(is_one(read)),
        Err(refusal) => Err(refusal),
    }
}

/// Whether a proper prefix of the bytes is an entry's spelling in the first form.
fn has_first_in_front(alloc: Global, bytes: &[u8]) -> Result<bool, Refusal> {
    for end in 0..bytes.len() {
        if is_first(alloc, &bytes[..end])? {
            return Ok(true);
        }
    }
    Ok(false)
}

/// What the entry changes, and its spelling.
fn spelled_anew(alloc: Global, entry: &Entry, bytes: &[u8]) -> Result<String, Refusal> {
    let mut words = show(alloc, entry)?;
    words.push_str(", now ")?;
    show_digits(&mut words, entry.encode(alloc)?.as_slice())?;
    if has_first_in_front(alloc, bytes)? {
        words.push_str(", BEHIND ANOTHER")?;
    }
    Ok(words)
}

/// What the transaction changes whose spelling in the first form these bytes are, and how it is spelled in the second.
pub fn first(alloc: Global, bytes: &[u8]) -> Result<String, Refusal> {
    match Entry::decode_one(alloc, bytes) {
        Ok(Some(entry)) => {
            let words = spelled_anew(alloc, &entry, bytes);
            drop(entry);
            words
        }
        Ok(None) => no_entry(alloc),
        Err(refusal) => Err(refusal),
    }
}

/// How many bytes a spelling has, or the refusal.
fn length(alloc: Global, spelling: Result<Vec<u8>, Refusal>) -> Result<String, AllocError> {
    match spelling {
        Ok(bytes) => format!(in alloc; "{} bytes", bytes.len()),
        Err(refusal) => format!(in alloc; "{refusal:?}"),
    }
}

/// In how many bytes the transaction with this spelling is encoded.
pub fn encoded(alloc: Global, bytes: &[u8]) -> Result<String, Refusal> {
    match Entry::decode(alloc, bytes) {
        Ok(Some(entry)) => Ok(length(alloc, last_spelling(alloc, entry))?),
        Ok(None) => no_entry(alloc),
        Err(refusal) => Err(refusal),
    }
}

/// The spelling of the transaction of actor 0 by which a day begins.
fn day_spelling(alloc: Global, day: Day) -> Result<Vec<u8>, Refusal> {
    let entry = Entry {
        actor: 0,
        change: Change::Day { day },
    };
    last_spelling(alloc, entry)
}

/// The spelling of the transaction by which the day of this number begins.
pub fn day(alloc: Global, number: &str) -> Result<Option<String>, Refusal> {
    let Ok(number) = number.parse::<u32>() else {
        return Ok(None);
    };
    let mut out = String::new(alloc);
    match Day::new(number) {
        None => out.push_str("no day")?,
        Some(day) => show_digits(&mut out, day_spelling(alloc, day)?.as_slice())?,
    }
    Ok(Some(out))
}
