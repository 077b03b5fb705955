//! A store over the files of a folder in memory.
use crate::answer::{Fault, done};
use crate::calls;
use crate::words::{large, number, numbers};
use mem_files::MemFiles;
use real_edge::FolderStore;
use std::alloc::{AllocError, Global};
use std::mem;
use store_api::Stop;

/// A store over the files of a folder in memory.
#[derive(Drop)]
pub struct MemFolder {
    store: FolderStore<MemFiles>,
}

/// A store over an empty folder, which is still to be made.
fn empty(alloc: Global) -> FolderStore<MemFiles> {
    FolderStore::new(MemFiles::new(alloc), alloc)
}

/// One list of calls.
fn only(alloc: Global, calls: Vec<u64>) -> Result<Vec<Vec<u64>>, AllocError> {
    let mut lists = Vec::new(alloc);
    lists.push(calls)?;
    Ok(lists)
}

impl MemFolder {
    /// A store over an empty folder.
    pub fn new(alloc: Global) -> MemFolder {
        MemFolder {
            store: empty(alloc),
        }
    }

    fn begin(&mut self, alloc: Global, most: &str, calls: &[&str]) -> Result<String, Fault> {
        let most = number(most)? as usize;
        let calls = numbers(alloc, calls)?;
        let files = MemFiles::new(alloc).with_failing(calls, most);
        drop(mem::replace(&mut self.store, FolderStore::new(files, alloc)));
        done(alloc)
    }

    fn begin_again(&mut self, alloc: Global, most: &str, calls: &[&str]) -> Result<String, Fault> {
        let most = number(most)? as usize;
        let later = only(alloc, numbers(alloc, calls)?)?;
        let files = MemFiles::new(alloc)
            .with_failing(Vec::new(alloc), most)
            .failing_behind_stops(later);
        drop(mem::replace(&mut self.store, FolderStore::new(files, alloc)));
        done(alloc)
    }

    fn stop(&mut self, alloc: Global, choice: &str) -> Result<String, Fault> {
        let choice = large(choice)?;
        let store = mem::replace(&mut self.store, empty(alloc));
        drop(mem::replace(&mut self.store, store.stop(choice)));
        done(alloc)
    }

    /// What a line about the store is answered.
    pub fn answer(&mut self, alloc: Global, words: &[&str]) -> Result<String, Fault> {
        match words {
            ["new", most, calls @ ..] => self.begin(alloc, most, calls),
            ["again", most, calls @ ..] => self.begin_again(alloc, most, calls),
            ["stop", choice] => self.stop(alloc, choice),
            _ => calls::answer(alloc, &mut self.store, words),
        }
    }
}
