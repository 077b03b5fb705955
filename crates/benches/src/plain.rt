//! The same bytes written and read with no hall: calls of the store alone, on one file.
use crate::fault::Fault;
use crate::said::say;
use crate::text::Text;
use sha2::{Digest as _, Sha256};
use std::alloc::Global;
use std::io::Write;
use store_api::Store;

/// The file.
const FILE: u32 = 4;

/// It is synced behind so many objects.
const BATCH: u64 = 32;

/// From this moment on no call is made.
const LATE: u64 = 1 << 61;

fn write<S: Store>(store: &mut S, offset: u64, bytes: &[u8]) -> Result<(), Fault> {
    if store.moment() >= LATE {
        return Err(Fault::Failed);
    }
    Ok(store.write_at(FILE, offset, bytes)?)
}

fn sync<S: Store>(store: &mut S) -> Result<(), Fault> {
    if store.moment() >= LATE {
        return Err(Fault::Failed);
    }
    Ok(store.sync(FILE)?)
}

fn read<S: Store>(store: &mut S, offset: u64, into: &mut [u8]) -> Result<(), Fault> {
    if store.moment() >= LATE {
        return Err(Fault::Failed);
    }
    store.read_at(FILE, offset, into)?;
    Ok(())
}

fn len<S: Store>(store: &mut S) -> Result<u64, Fault> {
    if store.moment() >= LATE {
        return Err(Fault::Failed);
    }
    Ok(store.len(FILE)?)
}

/// Writes an object, piece by piece, from an offset on, and hashes it.
fn write_object<S: Store>(store: &mut S, text: &Text, offset: u64) -> Result<(), Fault> {
    let mut hasher = Sha256::new();
    for number in 0..text.pieces() {
        let piece = text.piece(number);
        hasher.update(piece);
        write(store, offset.saturating_add(text.offset(number)), piece)?;
    }
    if hasher.finalize() == text.digest.0 {
        Ok(())
    } else {
        Err(Fault::Failed)
    }
}

/// Writes so many objects, one behind the other.
fn write_all<S: Store>(store: &mut S, text: &Text, count: u64) -> Result<(), Fault> {
    for number in 0..count {
        write_object(store, text, number.saturating_mul(text.size))?;
        if number % BATCH == BATCH - 1 {
            sync(store)?;
        }
    }
    sync(store)
}

/// Writes so many objects in a store.
pub fn write_new<S: Store, W: Write>(
    store: &mut S,
    text: &Text,
    count: u64,
    out: &mut W,
) -> Result<(), Fault> {
    sync(store)?;
    say(out, b"ready\n")?;
    write_all(store, text, count)?;
    say(out, b"done\n")
}

/// Reads so many pieces, each the first one of an object, one object behind the other, of a file that has so many bytes.
fn read_all<S: Store>(
    store: &mut S,
    into: &mut [u8],
    text: &Text,
    len: u64,
    count: u64,
) -> Result<(), Fault> {
    let objects = (len / text.size.max(1)).max(1);
    for number in 0..count {
        read(store, (number % objects).saturating_mul(text.size), into)?;
    }
    Ok(())
}

/// Reads so many pieces of the store's file.
pub fn read_old<S: Store, W: Write>(
    alloc: Global,
    store: &mut S,
    text: &Text,
    count: u64,
    out: &mut W,
) -> Result<(), Fault> {
    let mut into = text.room(alloc)?;
    let len = len(store)?;
    say(out, b"ready\n")?;
    read_all(store, into.as_mut_slice(), text, len, count)?;
    say(out, b"done\n")
}
