//! A log over the store in memory.
use crate::answer::{Fault, bytes_text, done, number_text, truth_text};
use crate::calls::ready;
use crate::words::{bytes, number};
use log_file::Log;
use mem_store::MemStore;
use std::alloc::Global;
use std::mem;

/// The log that is appended to, and the records that were read of one.
#[derive(Drop)]
pub struct Logs {
    log: Option<Log>,
    records: Vec<Vec<u8>>,
}

impl Logs {
    /// No log, and no records.
    pub fn new(alloc: Global) -> Logs {
        Logs {
            log: None,
            records: Vec::new(alloc),
        }
    }

    fn log(&mut self) -> Result<&mut Log, Fault> {
        self.log.as_mut().ok_or(Fault::NotMade)
    }

    fn record(&self, place: &str) -> Result<&[u8], Fault> {
        match self.records.get(number(place)? as usize) {
            Some(record) => Ok(record.as_slice()),
            None => Err(Fault::NotMade),
        }
    }

    fn create(&mut self, alloc: Global, store: &mut MemStore, file: &str) -> Result<String, Fault> {
        let file = number(file)?;
        drop(self.log.take());
        ready(store)?;
        let log = Log::create(store, file)?;
        drop(mem::replace(&mut self.log, Some(log)));
        done(alloc)
    }

    fn append(
        &mut self,
        alloc: Global,
        store: &mut MemStore,
        pieces: &[&str],
    ) -> Result<String, Fault> {
        let framed = Log::frame(alloc, &bytes(alloc, pieces)?)?;
        let log = self.log()?;
        ready(store)?;
        log.append(store, &framed)?;
        done(alloc)
    }

    fn force(&mut self, alloc: Global, store: &mut MemStore) -> Result<String, Fault> {
        let log = self.log()?;
        ready(store)?;
        log.force(store)?;
        done(alloc)
    }

    fn end(&mut self, alloc: Global) -> Result<String, Fault> {
        let end = self.log()?.end();
        number_text(alloc, end)
    }

    fn start(&mut self, alloc: Global, store: &mut MemStore, file: &str) -> Result<String, Fault> {
        let (log, records) = Log::start(alloc, store, number(file)?)?;
        let (end, count) = (log.end(), records.len());
        drop(mem::replace(&mut self.log, Some(log)));
        drop(mem::replace(&mut self.records, records));
        Ok(format!(in alloc; "end {end}, {count} records")?)
    }

    fn show(&self, alloc: Global, place: &str) -> Result<String, Fault> {
        bytes_text(alloc, self.record(place)?)
    }

    fn same(&self, alloc: Global, place: &str, pieces: &[&str]) -> Result<String, Fault> {
        let bytes = bytes(alloc, pieces)?;
        truth_text(alloc, self.record(place)? == bytes.as_slice())
    }

    /// What a line about the log is answered.
    pub fn answer(
        &mut self,
        alloc: Global,
        store: &mut MemStore,
        words: &[&str],
    ) -> Result<String, Fault> {
        match words {
            ["create", file] => self.create(alloc, store, file),
            ["frame", pieces @ ..] => frame(alloc, pieces),
            ["append", pieces @ ..] => self.append(alloc, store, pieces),
            ["force"] => self.force(alloc, store),
            ["end"] => self.end(alloc),
            ["start", file] => self.start(alloc, store, file),
            ["record", place] => self.show(alloc, place),
            ["same", place, pieces @ ..] => self.same(alloc, place, pieces),
            _ => Err(Fault::NoCommand),
        }
    }
}

fn frame(alloc: Global, pieces: &[&str]) -> Result<String, Fault> {
    let framed = Log::frame(alloc, &bytes(alloc, pieces)?)?;
    number_text(alloc, framed.len())
}
