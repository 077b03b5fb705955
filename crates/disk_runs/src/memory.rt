//! The store in memory, and what lies in its files.
use crate::answer::{Fault, bytes_text, done};
use crate::image::Images;
use crate::logs::Logs;
use crate::words::{large, number, numbers};
use crate::{calls, stops, within};
use mem_store::MemStore;
use std::alloc::Global;
use std::mem;
use store_api::Stop;

/// The store in memory, a log over it and an image that is written to it.
#[derive(Drop)]
pub struct Memory {
    store: MemStore,
    logs: Logs,
    images: Images,
}

impl Memory {
    /// An empty store, no log and no image.
    pub fn new(alloc: Global) -> Memory {
        Memory {
            store: MemStore::new(alloc),
            logs: Logs::new(alloc),
            images: Images::new(),
        }
    }

    fn begin(&mut self, alloc: Global) -> Result<String, Fault> {
        drop(mem::replace(&mut self.store, MemStore::new(alloc)));
        done(alloc)
    }

    fn fail(&mut self, alloc: Global, words: &[&str]) -> Result<String, Fault> {
        let moments = numbers(alloc, words)?;
        let store = mem::replace(&mut self.store, MemStore::new(alloc));
        drop(mem::replace(&mut self.store, store.with_failing(moments)));
        done(alloc)
    }

    fn stop(&mut self, alloc: Global, choice: &str) -> Result<String, Fault> {
        let choice = large(choice)?;
        let store = mem::replace(&mut self.store, MemStore::new(alloc));
        drop(mem::replace(&mut self.store, store.stop(choice)));
        done(alloc)
    }

    fn show(&self, alloc: Global, file: &str) -> Result<String, Fault> {
        bytes_text(alloc, self.store.bytes(number(file)?))
    }

    /// What a line about the store is answered.
    pub fn answer(&mut self, alloc: Global, words: &[&str]) -> Result<String, Fault> {
        match words {
            ["new"] => self.begin(alloc),
            ["fail", moments @ ..] => self.fail(alloc, moments),
            ["stop", choice] => self.stop(alloc, choice),
            ["stops", choice] => stops::answer(alloc, choice),
            ["show", file] => self.show(alloc, file),
            ["within", words @ ..] => within::answer(alloc, &mut self.store, words),
            ["log", words @ ..] => self.logs.answer(alloc, &mut self.store, words),
            ["image", words @ ..] => self.images.answer(alloc, &mut self.store, words),
            _ => calls::answer(alloc, &mut self.store, words),
        }
    }
}
