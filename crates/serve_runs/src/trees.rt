//! The clients' trees in memory, and single steps on them.
use crate::answer::{Fault, large, number, numbers};
use choosers::{Binder, read_rules};
use client_trees::{MemTree, Tree};
use hex::encode;
use kinds::{Path, Refusal};
use std::alloc::{AllocError, Global};
use std::mem;

/// The longest include-exclude list that is read.
const LONGEST: usize = 4096;

/// The include-exclude list that a text is.
pub fn binder_of(alloc: Global, text: &[u8]) -> Result<Binder, Fault> {
    if text.len() > LONGEST {
        return Err(Fault::NoCommand);
    }
    match read_rules(alloc, text) {
        Ok(rules) => Ok(Binder::new(rules)),
        Err(Refusal::Memory) => Err(Fault::Memory),
        Err(_) => Err(Fault::NoCommand),
    }
}

/// So many empty trees, at most as many as a command of the program's has.
pub fn empty(alloc: Global, count: u32) -> Result<Vec<MemTree>, AllocError> {
    let mut trees = Vec::new(alloc);
    for _ in 0..count.min(8) {
        trees.push(MemTree::new(alloc))?;
    }
    Ok(trees)
}

fn read_path(alloc: Global, word: &str) -> Result<Path, Fault> {
    match Path::read(alloc, word.as_bytes()) {
        Ok(path) => Ok(path),
        Err(Refusal::Memory) => Err(Fault::Memory),
        Err(_) => Err(Fault::NoCommand),
    }
}

fn tree_of<'a>(trees: &'a mut [MemTree], word: &str) -> Result<&'a mut MemTree, Fault> {
    let at = number(word)? as usize;
    trees.get_mut(at).ok_or(Fault::NoCommand)
}

/// Puts a file with this time and these bytes into a tree, by three calls.
pub fn put(
    alloc: Global,
    trees: &mut [MemTree],
    tree: &str,
    path: &str,
    mtime: &str,
    bytes: &[u8],
) -> Result<(), Fault> {
    let path = read_path(alloc, path)?;
    let mtime = large(mtime)?;
    let tree = tree_of(trees, tree)?;
    tree.create(&path)?;
    tree.append(&path, bytes)?;
    tree.finish(&path, mtime)?;
    Ok(())
}

/// The time of a tree's file and its bytes; `-` where there is none.
pub fn show(alloc: Global, trees: &[MemTree], tree: &str, path: &str) -> Result<String, Fault> {
    let path = read_path(alloc, path)?;
    let at = number(tree)? as usize;
    let Some(tree) = trees.get(at) else {
        return Err(Fault::NoCommand);
    };
    match tree.file(&path) {
        None => Ok(String::from_str(alloc, "-")?),
        Some(file) => {
            let bytes = encode(alloc, file.bytes())?;
            let mtime = file.mtime();
            Ok(format!(in alloc; "{mtime} {bytes}")?)
        }
    }
}

/// These calls of a tree fail, counted from its first, and no others.
pub fn fail_at(
    alloc: Global,
    trees: &mut [MemTree],
    tree: &str,
    calls: &[&str],
) -> Result<(), Fault> {
    let calls = numbers(alloc, calls)?;
    let tree = tree_of(trees, tree)?;
    let before = mem::replace(tree, MemTree::new(alloc));
    drop(mem::replace(tree, before.with_failing(calls)));
    Ok(())
}
