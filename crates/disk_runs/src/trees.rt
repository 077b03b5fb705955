//! The files of a client: in memory, and in a folder of the system.
use crate::answer::{Fault, done, number_text, read_text, word_text};
use crate::words::{buffer, bytes, large, numbers};
use client_trees::{FileRow, ListRefused, MemTree, Tree};
use folder_trees::FolderTree;
use kinds::{Path, Refusal};
use std::alloc::Global;
use std::{mem, str};

// The folder of a client's files, in the folder that the program is run in.
const FOLDER: &str = "tree";

/// A tree in memory, and that of a folder.
#[derive(Drop)]
pub struct Trees {
    memory: MemTree,
    folder: FolderTree<HostRuntime>,
}

impl From<ListRefused> for Fault {
    fn from(refused: ListRefused) -> Fault {
        match refused {
            ListRefused::Failed => Fault::Failed,
            ListRefused::Memory => Fault::Refused(Refusal::Memory),
        }
    }
}

/// A file's row: its path, how many bytes it has, and its time.
fn add_row(alloc: Global, text: &mut String, row: &FileRow) -> Result<(), Fault> {
    let Ok(path) = str::from_utf8(row.path.as_bytes()) else {
        return Err(Fault::NotText);
    };
    let row = format!(in alloc; "{path} {} {};", row.size, row.mtime)?;
    text.push_str(row.as_str())?;
    Ok(())
}

fn list<T: Tree>(tree: &mut T, alloc: Global) -> Result<String, Fault> {
    let rows = tree.list(alloc)?;
    if rows.is_empty() {
        return word_text(alloc, "-");
    }
    let mut text = String::new(alloc);
    for row in &rows {
        add_row(alloc, &mut text, row)?;
    }
    Ok(text)
}

fn read<T: Tree>(
    tree: &mut T,
    alloc: Global,
    path: &str,
    offset: &str,
    count: &str,
) -> Result<String, Fault> {
    let path = Path::read(alloc, path.as_bytes())?;
    let offset = large(offset)?;
    let mut into = buffer(alloc, count)?;
    let count = tree.read(&path, offset, &mut into)?;
    read_text(alloc, count, &into)
}

fn append<T: Tree>(
    tree: &mut T,
    alloc: Global,
    path: &str,
    pieces: &[&str],
) -> Result<String, Fault> {
    let path = Path::read(alloc, path.as_bytes())?;
    let bytes = bytes(alloc, pieces)?;
    tree.append(&path, &bytes)?;
    done(alloc)
}

fn create<T: Tree>(tree: &mut T, alloc: Global, path: &str) -> Result<String, Fault> {
    let path = Path::read(alloc, path.as_bytes())?;
    tree.create(&path)?;
    done(alloc)
}

fn finish<T: Tree>(tree: &mut T, alloc: Global, path: &str, mtime: &str) -> Result<String, Fault> {
    let path = Path::read(alloc, path.as_bytes())?;
    let mtime = large(mtime)?;
    tree.finish(&path, mtime)?;
    done(alloc)
}

fn remove<T: Tree>(tree: &mut T, alloc: Global, path: &str) -> Result<String, Fault> {
    let path = Path::read(alloc, path.as_bytes())?;
    tree.remove(&path)?;
    done(alloc)
}

/// What a line about a tree is answered.
fn answer<T: Tree>(tree: &mut T, alloc: Global, words: &[&str]) -> Result<String, Fault> {
    match words {
        ["list"] => list(tree, alloc),
        ["read", path, offset, count] => read(tree, alloc, path, offset, count),
        ["create", path] => create(tree, alloc, path),
        ["append", path, pieces @ ..] => append(tree, alloc, path, pieces),
        ["finish", path, mtime] => finish(tree, alloc, path, mtime),
        ["remove", path] => remove(tree, alloc, path),
        ["faults"] => number_text(alloc, tree.faults()),
        _ => Err(Fault::NoCommand),
    }
}

impl Trees {
    /// An empty tree in memory, and that of the folder, of which nothing is known yet.
    pub fn new(rt: HostRuntime) -> Trees {
        let alloc = rt.alloc();
        Trees {
            memory: MemTree::new(alloc),
            folder: FolderTree::new(rt, alloc, FOLDER),
        }
    }

    fn new_memory(&mut self, alloc: Global, calls: &[&str]) -> Result<String, Fault> {
        let calls = numbers(alloc, calls)?;
        let tree = MemTree::new(alloc).with_failing(calls);
        drop(mem::replace(&mut self.memory, tree));
        done(alloc)
    }

    /// What a line about the tree in memory is answered.
    pub fn on_memory(&mut self, alloc: Global, words: &[&str]) -> Result<String, Fault> {
        match words {
            ["new", calls @ ..] => self.new_memory(alloc, calls),
            _ => answer(&mut self.memory, alloc, words),
        }
    }

    /// What a line about the tree of the folder is answered.
    pub fn on_folder(&mut self, alloc: Global, words: &[&str]) -> Result<String, Fault> {
        answer(&mut self.folder, alloc, words)
    }
}
