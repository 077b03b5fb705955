//! What a command is answered.
use std::alloc::{AllocError, Global};
use tree_api::Failed;

/// Why a line has no answer.
#[derive(Clone, Copy)]
pub enum Fault {
    /// The line is no command.
    NoCommand,
    /// The store refused.
    Store,
    /// A call on a tree failed.
    Tree,
    /// Memory was wanted.
    Memory,
}

impl From<AllocError> for Fault {
    fn from(_error: AllocError) -> Fault {
        Fault::Memory
    }
}

impl From<Failed> for Fault {
    fn from(_failed: Failed) -> Fault {
        Fault::Tree
    }
}

/// The words of what a command was answered.
pub fn text(alloc: Global, answered: Result<String, Fault>) -> Result<String, AllocError> {
    match answered {
        Ok(text) => Ok(text),
        Err(Fault::NoCommand) => String::from_str(alloc, "no command"),
        Err(Fault::Store) => String::from_str(alloc, "the store failed"),
        Err(Fault::Tree) => String::from_str(alloc, "the tree failed"),
        Err(Fault::Memory) => Err(AllocError),
    }
}

pub fn number(word: &str) -> Result<u32, Fault> {
    word.parse::<u32>().ok().ok_or(Fault::NoCommand)
}

pub fn large(word: &str) -> Result<u64, Fault> {
    word.parse::<u64>().ok().ok_or(Fault::NoCommand)
}

/// The numbers that the words are.
pub fn numbers(alloc: Global, words: &[&str]) -> Result<Vec<u64>, Fault> {
    let mut list = Vec::new(alloc);
    for word in words {
        match list.push(large(word)?) {
            Ok(()) => {}
            Err(_) => return Err(Fault::Memory),
        }
    }
    Ok(list)
}
