//! The words of a line, and what they stand for.
use crate::answer::Fault;
use kinds::{Access, Capacity, Day, DefineOrDelete, Name, PoolKind, Verb};
use std::alloc::{AllocError, Global};

/// The words of the line.
pub fn words_of<'a>(alloc: Global, line: &'a str) -> Result<Vec<&'a str>, AllocError> {
    line.split_whitespace().collect(alloc)
}

pub fn byte(word: &str) -> Result<u8, Fault> {
    word.parse::<u8>().ok().ok_or(Fault::NoCommand)
}

pub fn small(word: &str) -> Result<u16, Fault> {
    word.parse::<u16>().ok().ok_or(Fault::NoCommand)
}

pub fn number(word: &str) -> Result<u32, Fault> {
    word.parse::<u32>().ok().ok_or(Fault::NoCommand)
}

pub fn large(word: &str) -> Result<u64, Fault> {
    word.parse::<u64>().ok().ok_or(Fault::NoCommand)
}

pub fn day(word: &str) -> Result<Day, Fault> {
    Day::new(number(word)?).ok_or(Fault::NoCommand)
}

/// A day, or `none`.
pub fn day_or_none(word: &str) -> Result<Option<Day>, Fault> {
    if word == "none" {
        Ok(None)
    } else {
        Ok(Some(day(word)?))
    }
}

pub fn capacity(word: &str) -> Result<Capacity, Fault> {
    Capacity::new(large(word)?).ok_or(Fault::NoCommand)
}

pub fn name(alloc: Global, word: &str) -> Result<Name, Fault> {
    let name = Name::read(alloc, word.as_bytes(), 30)?;
    Ok(name)
}

pub fn define_or_delete(word: &str) -> Result<DefineOrDelete, Fault> {
    match word {
        "define" => Ok(DefineOrDelete::Define),
        "delete" => Ok(DefineOrDelete::Delete),
        _ => Err(Fault::NoCommand),
    }
}

pub fn verb(word: &str) -> Result<Verb, Fault> {
    match word {
        "define" => Ok(Verb::Define),
        "update" => Ok(Verb::Update),
        "delete" => Ok(Verb::Delete),
        _ => Err(Fault::NoCommand),
    }
}

pub fn kind(word: &str) -> Result<PoolKind, Fault> {
    match word {
        "primary" => Ok(PoolKind::Primary),
        "copy" => Ok(PoolKind::Copy),
        _ => Err(Fault::NoCommand),
    }
}

pub fn access(word: &str) -> Result<Access, Fault> {
    match word {
        "readwrite" => Ok(Access::ReadWrite),
        "readonly" => Ok(Access::ReadOnly),
        "unavailable" => Ok(Access::Unavailable),
        "offsite" => Ok(Access::Offsite),
        "destroyed" => Ok(Access::Destroyed),
        _ => Err(Fault::NoCommand),
    }
}
