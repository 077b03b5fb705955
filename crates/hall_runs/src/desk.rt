//! A store in memory, and the hall that is open over it.
use crate::fault::Fault;
use entries::Database;
use hall::{Closed, Hall};
use inventory::Inventory;
use kinds::OpenRefused;
use mem_store::MemStore;
use std::alloc::{AllocError, Global};
use std::mem;
use step_words::{long, number};
use steps::Reply;
use store_api::{Stop, Store};
use vault::Vault;

/// Calls that fail are looked for on files with numbers below this.
const FILES: u32 = 16;

/// Fewer files are drawn between two stops.
const TAKEN_BACK: u32 = 256;

/// A store, and the hall that is open over it, which has the store then.
#[derive(Drop)]
pub struct Desk {
    alloc: Global,
    store: MemStore,
    pub hall: Option<Hall<MemStore>>,
    /// The number of the last transaction that was said to be durable.
    pub acknowledged: u64,
}

/// The store of a hall that is used no more.
fn store_of(hall: Hall<MemStore>) -> MemStore {
    let Closed {
        store,
        base,
        journal,
        stamps: _,
        opened: _,
    } = hall.close();
    drop(base);
    drop(journal);
    store
}

/// The store becomes that of a new database.
fn format(alloc: Global, store: &mut MemStore) -> Result<(), Fault> {
    let fresh = Inventory::fresh(alloc)?;
    let formatted = Vault::format(alloc, store, &fresh);
    drop(fresh);
    Ok(formatted?)
}

/// What a hall has, in words.
fn state(alloc: Global, hall: &Hall<MemStore>) -> Result<String, AllocError> {
    let made = hall.journal().len();
    let number = hall.base().number().saturating_add(made as u64);
    let forced = hall.stamps().len();
    let generation = hall.generation();
    let (file, object, ticket) = hall.next();
    format!(in alloc;
        "number {number}, {forced} of {made} forced, generation {generation}, next file {file}, object {object}, ticket {ticket}"
    )
}

/// What an actor's step is answered.
fn made(
    alloc: Global,
    hall: &mut Hall<MemStore>,
    actor: u32,
    line: &[&str],
) -> Result<Reply, Fault> {
    let step = step_words::step(alloc, line)?;
    let reply = hall_turns::step(alloc, hall, actor, &step);
    drop(step);
    Ok(reply)
}

impl Desk {
    /// A store that was not formatted.
    pub fn new(alloc: Global) -> Desk {
        Desk {
            alloc,
            store: MemStore::new(alloc),
            hall: None,
            acknowledged: 0,
        }
    }

    /// The store has no hall then.
    pub fn close(&mut self) {
        if let Some(hall) = self.hall.take() {
            drop(mem::replace(&mut self.store, store_of(hall)));
        }
    }

    /// The store of a new database, of which the calls that begin at these moments fail. No hall is open over it.
    pub fn begin(&mut self, failing: Vec<u64>) -> Result<(), Fault> {
        self.close();
        self.acknowledged = 0;
        let store = MemStore::new(self.alloc).with_failing(failing);
        drop(mem::replace(&mut self.store, store));
        format(self.alloc, &mut self.store)
    }

    /// Opens a hall, and answers the number of the last transaction.
    pub fn open(&mut self) -> Result<u64, Fault> {
        self.close();
        let store = mem::replace(&mut self.store, MemStore::new(self.alloc));
        match Hall::open(self.alloc, store) {
            Ok(hall) => Ok(self.keep(hall)),
            Err((store, refused)) => Err(self.give_back(store, refused)),
        }
    }

    fn keep(&mut self, hall: Hall<MemStore>) -> u64 {
        let number = hall.base().number();
        drop(mem::replace(&mut self.hall, Some(hall)));
        number
    }

    fn give_back(&mut self, store: MemStore, refused: OpenRefused) -> Fault {
        drop(mem::replace(&mut self.store, store));
        Fault::NotOpened(refused)
    }

    /// The machine stops and starts again. No hall is open then.
    pub fn stop(&mut self, choice: u64) {
        self.close();
        let store = mem::replace(&mut self.store, MemStore::new(self.alloc));
        drop(mem::replace(&mut self.store, store.stop(choice)));
    }

    /// No hall is open then, and the calls that begin at these moments fail, and no others.
    pub fn fail_at(&mut self, moments: Vec<u64>) {
        self.close();
        let store = mem::replace(&mut self.store, MemStore::new(self.alloc));
        drop(mem::replace(&mut self.store, store.with_failing(moments)));
    }

    /// The store's moment. No hall is open then.
    pub fn moment(&mut self) -> u64 {
        self.close();
        self.store.moment()
    }

    /// How often calls on a file have failed.
    pub fn faults(&self, file: u32) -> u64 {
        match &self.hall {
            Some(hall) => hall.faults(file),
            None => self.store.faults(file),
        }
    }

    /// How often calls on the files with these numbers have failed, together.
    fn faults_below(&self, files: u32) -> u64 {
        let mut sum: u64 = 0;
        for file in 0..files {
            sum = sum.saturating_add(self.faults(file));
        }
        sum
    }

    /// Whether a call on one of the first 16 files has failed.
    pub fn has_faults(&self) -> bool {
        self.faults_below(FILES) > 0
    }

    /// How often calls have failed on all files, where a hall is open: on those that were drawn, and those behind them that a stop has taken back.
    pub fn all_faults(&self) -> u64 {
        match &self.hall {
            Some(hall) => self.faults_below(hall.next().0.saturating_add(TAKEN_BACK)),
            None => 0,
        }
    }

    /// What the open hall has.
    pub fn state(&self) -> Result<String, Fault> {
        match &self.hall {
            Some(hall) => Ok(state(self.alloc, hall)?),
            None => Err(Fault::Closed),
        }
    }

    /// An actor makes a step.
    fn step(&mut self, actor: u32, line: &[&str]) -> Result<String, Fault> {
        let Some(hall) = &mut self.hall else {
            return Err(Fault::Closed);
        };
        let reply = made(self.alloc, hall, actor, line)?;
        if let Some(number) = step_words::acknowledged(&reply) {
            self.acknowledged = self.acknowledged.max(number);
        }
        let text = step_words::text(self.alloc, &reply);
        drop(reply);
        Ok(text?)
    }

    fn opened(&mut self) -> Result<String, Fault> {
        let number = self.open()?;
        Ok(format!(in self.alloc; "number {number}")?)
    }

    fn done(&self) -> Result<String, Fault> {
        Ok(String::from_str(self.alloc, "done")?)
    }

    fn answer(&mut self, words: &[&str]) -> Result<String, Fault> {
        match words {
            ["open"] => self.opened(),
            ["close"] => {
                self.close();
                self.done()
            }
            ["stop", choice] => {
                self.stop(long(choice)?);
                self.opened()
            }
            [actor, line @ ..] => self.step(number(actor)?, line),
            [] => Err(Fault::NoCommand),
        }
    }

    /// Makes what a line says.
    pub fn make(&mut self, line: &str) -> Result<String, Fault> {
        let words: Vec<&str> = line.split_whitespace().collect(self.alloc)?;
        self.answer(words.as_slice())
    }
}
