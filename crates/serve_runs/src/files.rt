//! Single steps on a store.
use crate::answer::Fault;
use mem_store::MemStore;
use std::alloc::Global;
use std::mem;
use store_api::{Stop, Store, write_synced};

/// From this moment on no call is made.
const LATE: u64 = 1 << 61;

/// Each file of a store has a number below this.
pub const FILES: u32 = 10;

/// The machine stops and starts again.
pub fn stop(alloc: Global, store: &mut MemStore, choice: u64) {
    let before = mem::replace(store, MemStore::new(alloc));
    drop(mem::replace(store, before.stop(choice)));
}

/// The calls that begin at these moments fail, and no others.
pub fn fail_at(alloc: Global, store: &mut MemStore, moments: Vec<u64>) {
    let before = mem::replace(store, MemStore::new(alloc));
    drop(mem::replace(store, before.with_failing(moments)));
}

/// Writes bytes and makes them durable.
pub fn write<S: Store>(store: &mut S, file: u32, offset: u64, bytes: &[u8]) -> Result<(), Fault> {
    if store.moment() >= LATE {
        return Err(Fault::Store);
    }
    match write_synced(store, file, offset, bytes) {
        Ok(()) => Ok(()),
        Err(_) => Err(Fault::Store),
    }
}

/// An empty store, whose files then read as those of another, all of them on the disk.
pub fn copied<S: Store + Drop>(empty: S, store: &MemStore) -> Result<S, Fault> {
    let mut copy = empty;
    for file in 0..FILES {
        write(&mut copy, file, 0, store.bytes(file))?;
    }
    Ok(copy)
}
