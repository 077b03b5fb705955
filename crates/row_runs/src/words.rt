//! The words of a line, and what they stand for.
use crate::answer::Fault;
use kinds::{Day, Days, DefineOrDelete, FilespaceName, Name, NodeName, Path, Verb};
use std::alloc::{AllocError, Global};

/// The words of the line.
pub fn words_of<'a>(alloc: Global, line: &'a str) -> Result<Vec<&'a str>, AllocError> {
    line.split_whitespace().collect(alloc)
}

pub fn small(word: &str) -> Result<u16, Fault> {
    word.parse::<u16>().ok().ok_or(Fault::NoCommand)
}

pub fn number(word: &str) -> Result<u32, Fault> {
    word.parse::<u32>().ok().ok_or(Fault::NoCommand)
}

pub fn large(word: &str) -> Result<u64, Fault> {
    word.parse::<u64>().ok().ok_or(Fault::NoCommand)
}

pub fn day(word: &str) -> Result<Day, Fault> {
    Day::new(number(word)?).ok_or(Fault::NoCommand)
}

pub fn days(word: &str) -> Result<Days, Fault> {
    Days::new(small(word)?).ok_or(Fault::NoCommand)
}

pub fn name(alloc: Global, word: &str) -> Result<Name, Fault> {
    let name = Name::read(alloc, word.as_bytes(), 30)?;
    Ok(name)
}

pub fn node_name(alloc: Global, word: &str) -> Result<NodeName, Fault> {
    let name = NodeName::read(alloc, word.as_bytes(), 64)?;
    Ok(name)
}

pub fn filespace_name(alloc: Global, word: &str) -> Result<FilespaceName, Fault> {
    let name = FilespaceName::read(alloc, word.as_bytes())?;
    Ok(name)
}

pub fn path(alloc: Global, word: &str) -> Result<Path, Fault> {
    let path = Path::read(alloc, word.as_bytes())?;
    Ok(path)
}

pub fn define_or_delete(word: &str) -> Result<DefineOrDelete, Fault> {
    match word {
        "define" => Ok(DefineOrDelete::Define),
        "delete" => Ok(DefineOrDelete::Delete),
        _ => Err(Fault::NoCommand),
    }
}

pub fn verb(word: &str) -> Result<Verb, Fault> {
    match word {
        "define" => Ok(Verb::Define),
        "update" => Ok(Verb::Update),
        "delete" => Ok(Verb::Delete),
        _ => Err(Fault::NoCommand),
    }
}

/// Whether a file is there, or gone.
pub fn is_there(word: &str) -> Result<bool, Fault> {
    match word {
        "there" => Ok(true),
        "gone" => Ok(false),
        _ => Err(Fault::NoCommand),
    }
}
