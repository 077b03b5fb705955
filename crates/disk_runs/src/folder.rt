//! Stores in folders of the system.
use crate::answer::{Fault, done};
use crate::calls;
use real_edge::{FolderStore, RealFiles};
use std::alloc::Global;
use std::mem;

/// A store in a folder, where one is open.
#[derive(Drop)]
pub struct Folder {
    store: Option<FolderStore<RealFiles<HostRuntime>>>,
}

/// The folders in which stores may lie. A folder's path has to last as long as the program.
fn path(word: &str) -> Result<&'static str, Fault> {
    match word {
        "kept" => Ok("kept"),
        "many" => Ok("many"),
        "faulty" => Ok("faulty"),
        "faulty/f00000007" => Ok("faulty/f00000007"),
        _ => Err(Fault::NoCommand),
    }
}

impl Folder {
    /// No store is open.
    pub fn new() -> Folder {
        Folder { store: None }
    }

    fn close(&mut self) {
        drop(self.store.take());
    }

    fn open(&mut self, rt: &HostRuntime, word: &str) -> Result<String, Fault> {
        let path = path(word)?;
        self.close();
        let files = RealFiles::new(*rt, rt.alloc(), path);
        let store = FolderStore::new(files, rt.alloc());
        drop(mem::replace(&mut self.store, Some(store)));
        done(rt.alloc())
    }

    fn close_told(&mut self, alloc: Global) -> Result<String, Fault> {
        self.close();
        done(alloc)
    }

    fn call(&mut self, alloc: Global, words: &[&str]) -> Result<String, Fault> {
        match &mut self.store {
            Some(store) => calls::answer(alloc, store, words),
            None => Err(Fault::NotMade),
        }
    }

    /// What a line about the store is answered.
    pub fn answer(&mut self, rt: &HostRuntime, words: &[&str]) -> Result<String, Fault> {
        match words {
            ["open", path] => self.open(rt, path),
            ["close"] => self.close_told(rt.alloc()),
            _ => self.call(rt.alloc(), words),
        }
    }
}
