//! Encodes or decodes a transaction of 256 new versions many times over, or copies its bytes as they stand, so that the three
//! can be timed against each other. It prints how many bytes were made or read.

use crate::paths;
use entries::Entry;
use std::alloc::{AllocError, Global};
use std::io;

/// How many times it is done where no number is given.
pub(crate) const USUAL_COUNT: u32 = 4;

/// The spelling of a new version, 136 bytes: its path; its class STANDARD, its size and time; its digest; its object, pool and segment.
fn put_version(out: &mut Vec<u8>, number: u32) -> Result<(), AllocError> {
    out.extend_from_slice(b"\0\x28")?;
    out.extend_from_slice(paths::spell(number).as_slice())?;
    out.extend_from_slice(b"\0\x08STANDARD\0\0\0\0\0\0\x03\xe8\0\0\0\0\0\0\0\x07")?;
    out.extend_from_slice(&[7; 32])?;
    out.extend_from_slice(b"\0\0\0\0\0\0\0\x01\0\0\0\x01\0\0\0\x01")?;
    out.extend_from_slice(b"\0\0\0\x04\0\0\0\0\0\0\x10\0\0\0\0\0\0\0\x03\xe8")?;
    Ok(())
}

/// The spelling of a transaction of 256 new versions: 17 bytes, and the versions.
fn spelling(alloc: Global) -> Result<Vec<u8>, AllocError> {
    let mut out = Vec::from_slice(alloc, b"\0\0\0\x01\x0c\0\0\0\x01\0\0\0\0\0\0\x01\0")?;
    for number in 0..256 {
        put_version(&mut out, number)?;
    }
    Ok(out)
}

/// How many bytes the entry is encoded in; none for want of memory.
fn encoded(alloc: Global, entry: &Entry) -> Option<u64> {
    let bytes = entry.encode(alloc).ok()?;
    Some(bytes.len() as u64)
}

fn encode(alloc: Global, entry: &Entry, count: u32) -> Option<u64> {
    let mut total = 0u64;
    for _ in 0..count {
        total = total.wrapping_add(encoded(alloc, entry)?);
    }
    Some(total)
}

fn encode_what_is_read(alloc: Global, bytes: &[u8], count: u32) -> Option<u64> {
    match Entry::decode(alloc, bytes) {
        Ok(Some(entry)) => {
            let total = encode(alloc, &entry, count);
            drop(entry);
            total
        }
        Ok(None) => None,
        Err(_) => None,
    }
}

/// How many bytes were an entry's spelling; none where they are no entry's, or for want of memory.
fn decoded(alloc: Global, bytes: &[u8]) -> Option<u64> {
    match Entry::decode(alloc, bytes) {
        Ok(Some(entry)) => {
            drop(entry);
            Some(bytes.len() as u64)
        }
        Ok(None) => None,
        Err(_) => None,
    }
}

fn decode(alloc: Global, bytes: &[u8], count: u32) -> Option<u64> {
    let mut total = 0u64;
    for _ in 0..count {
        total = total.wrapping_add(decoded(alloc, bytes)?);
    }
    Some(total)
}

fn copy(alloc: Global, bytes: &[u8], count: u32) -> Option<u64> {
    let mut total = 0u64;
    for _ in 0..count {
        let copied = Vec::from_slice(alloc, bytes).ok()?;
        total = total.wrapping_add(copied.len() as u64);
    }
    Some(total)
}

fn run(alloc: Global, kind: &str, count: u32) -> Option<u64> {
    let bytes = spelling(alloc).ok()?;
    match kind {
        "decode" => decode(alloc, &bytes, count),
        "copy" => copy(alloc, &bytes, count),
        _ => encode_what_is_read(alloc, &bytes, count),
    }
}

/// Encodes the transaction so many times, or decodes or copies its bytes where the kind is `decode` or `copy`.
pub(crate) fn report(rt: &impl Print, alloc: Global, kind: &str, count: u32) -> io::Result<()> {
    match run(alloc, kind, count) {
        Some(total) => println!(rt; "{total} bytes"),
        None => println!(rt; "want of memory"),
    }
}
