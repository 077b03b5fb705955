//! Steps on a vault over a store in memory.
use crate::answer::Fault;
use calendar::Calendar;
use entries::{Change, Database, Entry};
use kinds::{Day, OpenRefused, Refusal};
use mem_store::MemStore;
use std::alloc::{AllocError, Global};
use std::mem;
use store_api::{Stop, Store};
use vault::{Progress, Vault};

/// From this moment on no step is made.
const LATE: u64 = 1 << 61;

/// How many bytes a long memo has.
const MEMO: usize = 200_000;

/// The most bytes that a memo may have.
const MOST: usize = 1 << 20;

/// How many files a vault has.
const FILES: u32 = 4;

/// From this generation on no checkpoint is made.
const LAST: u64 = 1 << 61;

/// A step.
#[derive(Clone, Copy)]
pub enum Step {
    Format,
    /// A format with a calendar that has a long memo.
    Long,
    Open,
    /// A transaction that brings this day, and a force.
    Commit(Day),
    /// A transaction that brings this day, and waits for a force.
    Wait(Day),
    Force,
    Checkpoint,
    /// A checkpoint is begun.
    Begin,
    /// The next step of the checkpoint that was begun.
    Next,
    Install,
}

/// A store, and the vault that is open over it.
#[derive(Drop)]
pub struct Desk {
    pub store: MemStore,
    vault: Option<Vault<Calendar>>,
}

/// The vault's answer to a transaction that brings this day, which is forced or waits.
fn commit_day(
    alloc: Global,
    vault: &mut Vault<Calendar>,
    store: &mut MemStore,
    day: Day,
    forced: bool,
) -> Result<u64, Refusal> {
    if store.moment() >= LATE {
        return Err(Refusal::RunFull);
    }
    let entry = Entry {
        actor: 0,
        change: Change::Day { day },
    };
    match vault.database().legal(&entry) {
        Ok(()) if forced => vault.commit_forced(alloc, store, entry),
        Ok(()) => vault.commit(alloc, store, entry),
        Err(refusal) => {
            drop(entry);
            Err(refusal)
        }
    }
}

fn force_all(vault: &mut Vault<Calendar>, store: &mut MemStore) -> Result<u64, Refusal> {
    if store.moment() >= LATE {
        return Err(Refusal::RunFull);
    }
    vault.force(store)
}

fn write_image(
    alloc: Global,
    vault: &mut Vault<Calendar>,
    store: &mut MemStore,
) -> Result<(), Refusal> {
    if store.moment() >= LATE || vault.generation() >= LAST {
        return Err(Refusal::RunFull);
    }
    vault.checkpoint(alloc, store)
}

fn begin_image(
    alloc: Global,
    vault: &mut Vault<Calendar>,
    store: &mut MemStore,
) -> Result<(u32, u64), Refusal> {
    if store.moment() >= LATE || vault.generation() >= LAST {
        return Err(Refusal::RunFull);
    }
    vault.begin_checkpoint(alloc, store)
}

fn write_on(
    alloc: Global,
    vault: &mut Vault<Calendar>,
    store: &mut MemStore,
) -> Result<Progress, Refusal> {
    if store.moment() >= LATE || vault.generation() >= LAST || !vault.in_checkpoint() {
        return Err(Refusal::RunFull);
    }
    vault.next_checkpoint(alloc, store)
}

fn install_own(
    alloc: Global,
    vault: &Vault<Calendar>,
    store: &mut MemStore,
) -> Result<(), OpenRefused> {
    Vault::<Calendar>::install(alloc, store, vault.database())
}

/// The call that makes a file durable.
fn settle(store: &mut MemStore, file: u32) -> Result<(), Fault> {
    if store.moment() >= LATE {
        return Err(Fault::NoCommand);
    }
    match store.sync(file) {
        Ok(()) => Ok(()),
        Err(_) => Err(Fault::NoCommand),
    }
}

/// Writes bytes and makes them durable.
fn write_bytes(store: &mut MemStore, file: u32, offset: u64, bytes: &[u8]) -> Result<(), Fault> {
    if store.moment() >= LATE {
        return Err(Fault::NoCommand);
    }
    match store.write_at(file, offset, bytes) {
        Ok(()) => settle(store, file),
        Err(_) => Err(Fault::NoCommand),
    }
}

/// Cuts a file and makes that durable.
fn cut_file(store: &mut MemStore, file: u32, len: u64) -> Result<(), Fault> {
    if store.moment() >= LATE {
        return Err(Fault::NoCommand);
    }
    match store.cut(file, len) {
        Ok(()) => settle(store, file),
        Err(_) => Err(Fault::NoCommand),
    }
}

/// The byte of a long memo at this place.
fn memo_byte(at: usize) -> u8 {
    (at % 251) as u8
}

/// A calendar with a long memo.
fn long_calendar(alloc: Global) -> Result<Calendar, Fault> {
    let mut memo = Vec::with_capacity(alloc, MEMO)?;
    for at in 0..MEMO {
        match memo.push(memo_byte(at)) {
            Ok(()) => {}
            Err(_) => return Err(Fault::Refused(Refusal::Memory)),
        }
    }
    if memo.len() > MOST {
        return Err(Fault::NoCommand);
    }
    Ok(Calendar::with_memo(memo))
}

/// Whether a calendar has no memo, or the long one.
fn is_whole(calendar: &Calendar) -> bool {
    let memo = calendar.memo();
    memo.is_empty()
        || memo.len() == MEMO
            && memo
                .iter()
                .enumerate()
                .all(|(at, byte)| *byte == memo_byte(at))
}

/// What is known of an open vault.
fn shown(alloc: Global, vault: &Vault<Calendar>) -> Result<String, AllocError> {
    let number = vault.database().number();
    let day = vault.database().today().number();
    let generation = vault.generation();
    let made = vault.journal().len();
    let waiting = made.saturating_sub(vault.forced());
    let begun = if vault.in_checkpoint() {
        ", in a checkpoint"
    } else {
        ""
    };
    if waiting > 0 {
        return format!(in alloc;
            "number {number}, day {day}, generation {generation}, {made} of this run, {waiting} not forced{begun}"
        );
    }
    format!(in alloc;
        "number {number}, day {day}, generation {generation}, {made} of this run{begun}"
    )
}

impl Desk {
    /// An empty store.
    pub fn new(alloc: Global) -> Desk {
        Desk {
            store: MemStore::new(alloc),
            vault: None,
        }
    }

    /// The number of the last transaction of the open vault, where its memo is one that was formatted.
    pub fn number(&self) -> Option<u64> {
        match &self.vault {
            Some(vault) if is_whole(vault.database()) => Some(vault.database().number()),
            _ => None,
        }
    }

    /// An empty store.
    pub fn begin(&mut self, alloc: Global) {
        self.close();
        self.store = MemStore::new(alloc);
    }

    /// A store whose files read as those of another, all of them on the disk.
    pub fn copy(&mut self, alloc: Global, store: &MemStore) -> Result<(), Fault> {
        self.begin(alloc);
        for file in 0..FILES {
            let bytes = store.bytes(file);
            if !bytes.is_empty() {
                self.write(file, 0, bytes)?;
            }
        }
        Ok(())
    }

    /// Closes the vault that is open.
    fn close(&mut self) {
        drop(self.vault.take());
    }

    fn format(&mut self, alloc: Global, calendar: Calendar) -> Result<(), Fault> {
        self.close();
        Vault::<Calendar>::format(alloc, &mut self.store, &calendar)?;
        Ok(())
    }

    fn open(&mut self, alloc: Global) -> Result<(), Fault> {
        self.close();
        let vault = Vault::open(alloc, &mut self.store)?;
        drop(mem::replace(&mut self.vault, Some(vault)));
        Ok(())
    }

    fn commit(&mut self, alloc: Global, day: Day, forced: bool) -> Result<(), Fault> {
        let Some(vault) = &mut self.vault else {
            return Err(Fault::Closed);
        };
        commit_day(alloc, vault, &mut self.store, day, forced)?;
        Ok(())
    }

    fn force(&mut self) -> Result<(), Fault> {
        let Some(vault) = &mut self.vault else {
            return Err(Fault::Closed);
        };
        force_all(vault, &mut self.store)?;
        Ok(())
    }

    fn checkpoint(&mut self, alloc: Global) -> Result<(), Fault> {
        let Some(vault) = &mut self.vault else {
            return Err(Fault::Closed);
        };
        write_image(alloc, vault, &mut self.store)?;
        Ok(())
    }

    fn begin_checkpoint(&mut self, alloc: Global) -> Result<(), Fault> {
        let Some(vault) = &mut self.vault else {
            return Err(Fault::Closed);
        };
        begin_image(alloc, vault, &mut self.store)?;
        Ok(())
    }

    fn next_checkpoint(&mut self, alloc: Global) -> Result<(), Fault> {
        let Some(vault) = &mut self.vault else {
            return Err(Fault::Closed);
        };
        write_on(alloc, vault, &mut self.store)?;
        Ok(())
    }

    fn install(&mut self, alloc: Global) -> Result<(), Fault> {
        let Some(vault) = &self.vault else {
            return Err(Fault::Closed);
        };
        install_own(alloc, vault, &mut self.store)?;
        Ok(())
    }

    /// Makes a step.
    pub fn make(&mut self, alloc: Global, step: Step) -> Result<(), Fault> {
        match step {
            Step::Format => self.format(alloc, Calendar::new(alloc)),
            Step::Long => self.format(alloc, long_calendar(alloc)?),
            Step::Open => self.open(alloc),
            Step::Commit(day) => self.commit(alloc, day, true),
            Step::Wait(day) => self.commit(alloc, day, false),
            Step::Force => self.force(),
            Step::Checkpoint => self.checkpoint(alloc),
            Step::Begin => self.begin_checkpoint(alloc),
            Step::Next => self.next_checkpoint(alloc),
            Step::Install => self.install(alloc),
        }
    }

    /// Makes the steps up to the first that is refused.
    pub fn make_all(&mut self, alloc: Global, steps: &[Step]) -> Result<(), Fault> {
        for step in steps {
            self.make(alloc, *step)?;
        }
        Ok(())
    }

    /// The machine stops and starts again.
    pub fn stop(&mut self, alloc: Global, choice: u64) {
        self.close();
        let store = mem::replace(&mut self.store, MemStore::new(alloc));
        self.store = store.stop(choice);
    }

    /// The device calls that begin at these moments fail, and no others.
    pub fn fail_at(&mut self, alloc: Global, moments: Vec<u64>) {
        let store = mem::replace(&mut self.store, MemStore::new(alloc));
        self.store = store.with_failing(moments);
    }

    /// Writes bytes and makes them durable.
    pub fn write(&mut self, file: u32, offset: u64, bytes: &[u8]) -> Result<(), Fault> {
        write_bytes(&mut self.store, file, offset, bytes)
    }

    /// Cuts a file and makes that durable.
    pub fn cut(&mut self, file: u32, len: u64) -> Result<(), Fault> {
        cut_file(&mut self.store, file, len)
    }

    /// What the open vault has, or that none is open.
    pub fn text(&self, alloc: Global) -> Result<String, AllocError> {
        match &self.vault {
            Some(vault) => shown(alloc, vault),
            None => String::from_str(alloc, "closed"),
        }
    }
}
