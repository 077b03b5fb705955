//! Texts, lists and maps.
//!
//! - `put`: how many bytes the spelling of the text of these bytes has, and the first three of them.
//! - `items`: how many bytes a list of at most two has when these were added as long as there was room, and which.
//! - `list`: the spelling of the list of these bytes, and what is read from it as a list of at most two.
//! - `map`: the entries of the map of at most two entries that the bytes begin with, and the byte behind it.
//! - `empty`: the spelling of the empty map, and how many entries it has.
use crate::digits::show_digits;
use fields::{
    Fault, Items, Own, Reader, put_list, put_table, put_text, take_front, take_list, take_table,
};
use kinds::{Refusal, all_fit};
use std::alloc::{AllocError, Global};
use std::collections::BTreeMap;

/// The longest text has so many bytes.
const LONGEST: usize = 65535;

pub fn put(alloc: Global, bytes: &[u8]) -> Result<Option<String>, Refusal> {
    if bytes.len() > LONGEST {
        return Ok(None);
    }
    let mut spelling = Vec::new(alloc);
    put_text(&mut spelling, bytes)?;
    let mut out = format!(in alloc; "{} bytes, the first ", spelling.len())?;
    show_digits(&mut out, spelling.get(..3).unwrap_or(spelling.as_slice()))?;
    Ok(Some(out))
}

/// Adds the bytes to a list, as long as there is room.
fn push_all(items: &mut Items<u8, 2>, bytes: &[u8]) -> Result<(), Refusal> {
    for byte in bytes {
        if items.len() < 2 {
            items.push(*byte)?;
        }
    }
    Ok(())
}

pub fn pushed(alloc: Global, bytes: &[u8]) -> Result<Option<String>, Refusal> {
    let mut items: Items<u8, 2> = Items::new(alloc);
    push_all(&mut items, bytes)?;
    let mut out = format!(in alloc; "{}: ", items.len())?;
    show_digits(&mut out, items.as_slice())?;
    Ok(Some(out))
}

/// What the bytes are read as, as a list of at most two.
fn show_list(alloc: Global, out: &mut String, spelling: &[u8]) -> Result<(), Refusal> {
    let mut reader = Reader::new(spelling);
    let read: Result<Vec<u8>, Fault> = take_list::<u8, Own>(alloc, &mut reader, 2);
    match read {
        Ok(bytes) => Ok(show_digits(out, bytes.as_slice())?),
        Err(Fault::Malformed) => Ok(out.push_str("no list")?),
        Err(Fault::Memory) => Err(Refusal::Memory),
    }
}

pub fn list(alloc: Global, bytes: &[u8]) -> Result<Option<String>, Refusal> {
    if bytes.len() > LONGEST {
        return Ok(None);
    }
    all_fit(bytes);
    let mut spelling = Vec::new(alloc);
    put_list::<u8, Own>(&mut spelling, bytes)?;
    let mut out = String::new(alloc);
    show_digits(&mut out, spelling.as_slice())?;
    out.push_str(", read as ")?;
    show_list(alloc, &mut out, spelling.as_slice())?;
    Ok(Some(out))
}

/// The entries of a map, each before a comma.
fn show_entries(out: &mut String, map: &BTreeMap<u8, u8>) -> Result<(), AllocError> {
    for (key, value) in map.iter() {
        write!(out, "{key}: {value}, ")?;
    }
    Ok(())
}

/// The byte that the reader stands before.
fn show_front(alloc: Global, out: &mut String, reader: &mut Reader) -> Result<(), Refusal> {
    let front: Option<u8> = take_front::<u8, Own>(alloc, reader)?;
    match front {
        Some(byte) => write!(out, "behind it {byte}")?,
        None => out.push_str("nothing behind it")?,
    }
    Ok(())
}

pub fn map(alloc: Global, bytes: &[u8]) -> Result<Option<String>, Refusal> {
    let mut reader = Reader::new(bytes);
    let mut out = String::new(alloc);
    let read: Result<BTreeMap<u8, u8>, Fault> = take_table::<u8, u8, Own>(alloc, &mut reader, 2);
    match read {
        Ok(map) => {
            show_entries(&mut out, &map)?;
            show_front(alloc, &mut out, &mut reader)?;
        }
        Err(Fault::Malformed) => out.push_str("no map")?,
        Err(Fault::Memory) => return Err(Refusal::Memory),
    }
    Ok(Some(out))
}

pub fn empty(alloc: Global) -> Result<Option<String>, Refusal> {
    let none: BTreeMap<u8, u8> = BTreeMap::new(alloc);
    let mut spelling = Vec::new(alloc);
    put_table::<u8, u8, Own>(&mut spelling, &none)?;
    let mut out = String::new(alloc);
    show_digits(&mut out, spelling.as_slice())?;
    write!(out, ", {} entries", none.len())?;
    Ok(Some(out))
}
