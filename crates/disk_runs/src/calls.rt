//! The calls on a store, in memory or in a folder.
ghost use Rattle.std.specs.Prelude.{◌<◌, ◌^◌, OnOk};

use crate::answer::{Fault, done, number_text, read_text};
use crate::words::{buffer, bytes, large, number};
use std::alloc::Global;
use store_api::Store;

/// From this moment on no call is made.
const LATE: u64 = 1 << 61;

/// Whether calls are still made.
pub fn ready<S: Store>(store: &S) -> Result<(), Fault>
    ensures { OnOk result (S.moment_of store.now < 2 ^ 61) }
{
    if store.moment() < LATE {
        Ok(())
    } else {
        Err(Fault::NoCommand)
    }
}

fn len<S: Store>(alloc: Global, store: &mut S, file: &str) -> Result<String, Fault> {
    let file = number(file)?;
    ready(store)?;
    let len = store.len(file)?;
    number_text(alloc, len)
}

fn read<S: Store>(
    alloc: Global,
    store: &mut S,
    file: &str,
    offset: &str,
    count: &str,
) -> Result<String, Fault> {
    let mut into = buffer(alloc, count)?;
    let file = number(file)?;
    let offset = large(offset)?;
    ready(store)?;
    let count = store.read_at(file, offset, &mut into)?;
    read_text(alloc, count, &into)
}

fn write<S: Store>(
    alloc: Global,
    store: &mut S,
    file: &str,
    offset: &str,
    pieces: &[&str],
) -> Result<String, Fault> {
    let bytes = bytes(alloc, pieces)?;
    let file = number(file)?;
    let offset = large(offset)?;
    ready(store)?;
    store.write_at(file, offset, &bytes)?;
    done(alloc)
}

fn cut<S: Store>(alloc: Global, store: &mut S, file: &str, len: &str) -> Result<String, Fault> {
    let file = number(file)?;
    let len = large(len)?;
    ready(store)?;
    store.cut(file, len)?;
    done(alloc)
}

fn sync<S: Store>(alloc: Global, store: &mut S, file: &str) -> Result<String, Fault> {
    let file = number(file)?;
    ready(store)?;
    store.sync(file)?;
    done(alloc)
}

fn faults<S: Store>(alloc: Global, store: &S, file: &str) -> Result<String, Fault> {
    number_text(alloc, store.faults(number(file)?))
}

/// What a call on the store is answered.
pub fn answer<S: Store>(alloc: Global, store: &mut S, words: &[&str]) -> Result<String, Fault> {
    match words {
        ["len", file] => len(alloc, store, file),
        ["read", file, offset, count] => read(alloc, store, file, offset, count),
        ["write", file, offset, pieces @ ..] => write(alloc, store, file, offset, pieces),
        ["cut", file, length] => cut(alloc, store, file, length),
        ["sync", file] => sync(alloc, store, file),
        ["moment"] => number_text(alloc, store.moment()),
        ["faults", file] => faults(alloc, store, file),
        _ => Err(Fault::NoCommand),
    }
}
