//! Makes steps on a vault of the inventory over a store in memory, so that they can be timed. The first number is how many transactions are
//! committed, or how many versions the inventory is filled with, and the second one which steps are made: 1 formats the store and opens it, 2 commits
//! too, each forced by itself, 3 opens it once more, with a log of so many records; 4 fills an inventory, 5 installs it in an empty store too, 6 opens
//! that, 7 makes a checkpoint; 8 does as 2 does, with one force behind them all. It prints the number of the last transaction, the generation of the newest image, how many bytes the newest image and its log have, and
//! how many calls the store was given.

use crate::filling::fill;
use entries::{Change, Database, Entry};
use inventory::Inventory;
use kinds::{Day, OpenRefused, Refusal};
use mem_store::MemStore;
use std::alloc::Global;
use std::io;
use store_api::Store;
use vault::Vault;

/// How many transactions or versions there are, and which steps are made, where no number is given.
pub(crate) const USUAL_COUNT: u32 = 1024;

pub(crate) const USUAL_STEP: u32 = 3;

/// From this moment on no step is made.
pub(crate) const LATE: u64 = 1 << 61;

/// From this generation on no checkpoint is made.
pub(crate) const LAST: u64 = 1 << 61;

/// Why a step isn't made.
pub(crate) enum Fault {
    /// The vault or the database refused it.
    Refused(Refusal),
    /// Formatting, installing or opening was refused.
    NotOpened(OpenRefused),
}

impl From<Refusal> for Fault {
    fn from(refusal: Refusal) -> Fault {
        Fault::Refused(refusal)
    }
}

impl From<OpenRefused> for Fault {
    fn from(refused: OpenRefused) -> Fault {
        Fault::NotOpened(refused)
    }
}

/// What an open vault has: the number of the last transaction, and the generation of the newest image.
#[derive(Clone, Copy, Debug, PartialEq, Eq)]
struct Shown {
    number: u64,
    generation: u64,
}

fn state_of<D: Database>(vault: &Vault<D>) -> Shown {
    Shown {
        number: vault.database().number(),
        generation: vault.generation(),
    }
}

/// What the vault has, which is closed.
fn last_state<D: Database>(vault: Vault<D>) -> Shown {
    let shown = state_of(&vault);
    drop(vault);
    shown
}

/// What the vault has behind a step, where that was made; the vault is closed.
fn state_after<D: Database>(made: Result<(), Refusal>, vault: Vault<D>) -> Result<Shown, Fault> {
    let shown = last_state(vault);
    match made {
        Ok(()) => Ok(shown),
        Err(refusal) => Err(Fault::Refused(refusal)),
    }
}

/// Commits a transaction that brings the first day, where the database takes it, and forces it or leaves it waiting.
fn commit_day<D: Database>(
    alloc: Global,
    vault: &mut Vault<D>,
    store: &mut MemStore,
    forced: bool,
) -> Result<u64, Refusal> {
    if store.moment() >= LATE {
        return Err(Refusal::RunFull);
    }
    let entry = Entry {
        actor: 0,
        change: Change::Day {
            day: Day::default(),
        },
    };
    match vault.database().legal(&entry) {
        Ok(()) if forced => vault.commit_forced(alloc, store, entry),
        Ok(()) => vault.commit(alloc, store, entry),
        Err(refusal) => {
            drop(entry);
            Err(refusal)
        }
    }
}

/// Forces what waits.
pub(crate) fn force<D: Database>(
    vault: &mut Vault<D>,
    store: &mut MemStore,
) -> Result<(), Refusal> {
    if store.moment() >= LATE {
        return Err(Refusal::RunFull);
    }
    match vault.force(store) {
        Ok(_) => Ok(()),
        Err(refusal) => Err(refusal),
    }
}

/// Commits so many transactions, and forces each of them by itself, or none.
pub(crate) fn append_all<D: Database>(
    alloc: Global,
    vault: &mut Vault<D>,
    store: &mut MemStore,
    count: u32,
    forced: bool,
) -> Result<(), Refusal> {
    for _ in 0..count {
        match commit_day(alloc, vault, store, forced) {
            Ok(_) => {}
            Err(refusal) => return Err(refusal),
        }
    }
    Ok(())
}

/// Commits so many transactions, each forced by itself or all together.
fn commit_all<D: Database>(
    alloc: Global,
    vault: &mut Vault<D>,
    store: &mut MemStore,
    count: u32,
    forced: bool,
) -> Result<(), Refusal> {
    append_all(alloc, vault, store, count, forced)?;
    force(vault, store)
}

/// Opens the vault.
fn open<D: Database>(alloc: Global, store: &mut MemStore) -> Result<Shown, Fault> {
    match Vault::<D>::open(alloc, store) {
        Ok(vault) => Ok(last_state(vault)),
        Err(refused) => Err(Fault::NotOpened(refused)),
    }
}

/// Opens the vault and commits so many transactions.
fn open_and_commit<D: Database>(
    alloc: Global,
    store: &mut MemStore,
    count: u32,
    forced: bool,
) -> Result<Shown, Fault> {
    match Vault::<D>::open(alloc, store) {
        Ok(mut vault) => {
            let made = commit_all(alloc, &mut vault, store, count, forced);
            state_after(made, vault)
        }
        Err(refused) => Err(Fault::NotOpened(refused)),
    }
}

/// Writes the next image.
fn write_image<D: Database>(
    alloc: Global,
    vault: &mut Vault<D>,
    store: &mut MemStore,
) -> Result<(), Refusal> {
    if store.moment() >= LATE || vault.generation() >= LAST {
        return Err(Refusal::RunFull);
    }
    vault.checkpoint(alloc, store)
}

/// Opens the vault and writes the next image.
fn open_and_write<D: Database>(alloc: Global, store: &mut MemStore) -> Result<Shown, Fault> {
    match Vault::<D>::open(alloc, store) {
        Ok(mut vault) => {
            let made = write_image(alloc, &mut vault, store);
            state_after(made, vault)
        }
        Err(refused) => Err(Fault::NotOpened(refused)),
    }
}

/// The steps on the log, over an empty store.
fn with_log<D: Database>(
    alloc: Global,
    store: &mut MemStore,
    fresh: &D,
    count: u32,
    step: u32,
) -> Result<Shown, Fault> {
    Vault::<D>::format(alloc, store, fresh)?;
    match step {
        1 => open::<D>(alloc, store),
        2 => open_and_commit::<D>(alloc, store, count, true),
        8 => open_and_commit::<D>(alloc, store, count, false),
        _ => {
            open_and_commit::<D>(alloc, store, count, true)?;
            open::<D>(alloc, store)
        }
    }
}

/// The steps on an image, over an empty store.
fn with_image<D: Database>(
    alloc: Global,
    store: &mut MemStore,
    database: &mut D,
    count: u32,
    step: u32,
) -> Result<Shown, Fault> {
    fill(alloc, database, count)?;
    if step > 4 {
        Vault::<D>::install(alloc, store, database)?;
    }
    match step {
        4 | 5 => Ok(Shown {
            number: database.number(),
            generation: 0,
        }),
        6 => open::<D>(alloc, store),
        _ => open_and_write::<D>(alloc, store),
    }
}

/// The steps from a database that was just formatted.
fn run_from<D: Database>(
    alloc: Global,
    store: &mut MemStore,
    database: &mut D,
    count: u32,
    step: u32,
) -> Result<Shown, Fault> {
    if step < 4 || step == 8 {
        with_log(alloc, store, database, count, step)
    } else {
        with_image(alloc, store, database, count, step)
    }
}

/// The steps.
fn run(alloc: Global, store: &mut MemStore, count: u32, step: u32) -> Result<Shown, Fault> {
    match Inventory::fresh(alloc) {
        Ok(mut inventory) => {
            let shown = run_from(alloc, store, &mut inventory, count, step);
            drop(inventory);
            shown
        }
        Err(refusal) => Err(Fault::Refused(refusal)),
    }
}

/// Makes the steps up to this one with so many transactions or versions.
pub(crate) fn report(rt: &impl Print, alloc: Global, count: u32, step: u32) -> io::Result<()> {
    let mut store = MemStore::new(alloc);
    match run(alloc, &mut store, count, step) {
        Ok(Shown { number, generation }) => {
            let file = (generation % 2) as u32;
            let image = store.bytes(file).len();
            let log = store.bytes(file + 2).len();
            let calls = store.moment();
            println!(rt;
                "number {number}, generation {generation}, {image} bytes and a log of {log}, {calls} calls"
            )
        }
        Err(Fault::Refused(refusal)) => println!(rt; "{refusal:?}"),
        Err(Fault::NotOpened(refused)) => println!(rt; "{refused:?}"),
    }
}
