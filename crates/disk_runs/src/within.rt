//! The single steps on a store by which the layers above it work.
use crate::answer::{Fault, done, read_text};
use crate::calls::ready;
use crate::words::{buffer, bytes, large, number};
use mem_store::MemStore;
use std::alloc::Global;
use store_api::{read_within, sync_within, write_synced, write_within};

fn read(
    alloc: Global,
    store: &mut MemStore,
    file: &str,
    offset: &str,
    count: &str,
) -> Result<String, Fault> {
    let mut into = buffer(alloc, count)?;
    let file = number(file)?;
    let offset = large(offset)?;
    ready(store)?;
    let count = read_within(store, file, offset, &mut into)?;
    read_text(alloc, count, &into)
}

fn write(
    alloc: Global,
    store: &mut MemStore,
    file: &str,
    offset: &str,
    pieces: &[&str],
) -> Result<String, Fault> {
    let bytes = bytes(alloc, pieces)?;
    let file = number(file)?;
    let offset = large(offset)?;
    ready(store)?;
    write_within(store, file, offset, &bytes)?;
    done(alloc)
}

fn sync(alloc: Global, store: &mut MemStore, file: &str) -> Result<String, Fault> {
    let file = number(file)?;
    ready(store)?;
    sync_within(store, file)?;
    done(alloc)
}

fn synced(
    alloc: Global,
    store: &mut MemStore,
    file: &str,
    offset: &str,
    pieces: &[&str],
) -> Result<String, Fault> {
    let bytes = bytes(alloc, pieces)?;
    let file = number(file)?;
    let offset = large(offset)?;
    ready(store)?;
    write_synced(store, file, offset, &bytes)?;
    done(alloc)
}

/// What a step on the store is answered.
pub fn answer(alloc: Global, store: &mut MemStore, words: &[&str]) -> Result<String, Fault> {
    match words {
        ["read", file, offset, count] => read(alloc, store, file, offset, count),
        ["write", file, offset, pieces @ ..] => write(alloc, store, file, offset, pieces),
        ["sync", file] => sync(alloc, store, file),
        ["synced", file, offset, pieces @ ..] => synced(alloc, store, file, offset, pieces),
        _ => Err(Fault::NoCommand),
    }
}
