//! Two images of one file, stopped at each of their device calls.
use crate::answer::Fault;
use crate::calls::ready;
use crate::words::large;
use db_image::{Image, Mark, Progress};
use mem_store::MemStore;
use std::alloc::{AllocError, Global};
use store_api::Stop;

/// More moments than writing both images takes.
const MOST: u64 = 100;

/// Writes an image, up to the first step that fails.
fn write_whole(store: &mut MemStore, image: &mut Image) -> Result<(), Fault> {
    for _ in 0..MOST {
        ready(store)?;
        match image.next(store)? {
            Progress::More => {}
            Progress::Done => return Ok(()),
        }
    }
    Err(Fault::NoCommand)
}

fn write(alloc: Global, store: &mut MemStore, number: u64, payload: &[u8]) -> Result<(), Fault> {
    let mut image = Image::begin(payload.to_vec(alloc)?, Mark::Server, number, 0);
    let written = write_whole(store, &mut image);
    drop(image);
    written
}

fn write_both(alloc: Global, store: &mut MemStore) -> Result<(), Fault> {
    write(alloc, store, 4, b"old")?;
    write(alloc, store, 6, b"newer")
}

/// The sign of an image that was read.
fn sign(number: u64, payload: &[u8]) -> char {
    if number == 4 && payload == b"old".as_slice() {
        '4'
    } else if number == 6 && payload == b"newer".as_slice() {
        '6'
    } else {
        '!'
    }
}

/// The sign of what the file holds.
fn found(alloc: Global, store: &mut MemStore) -> char {
    match Image::read(alloc, store, 0, Mark::Server) {
        Ok(Some((number, payload))) => sign(number, &payload),
        Ok(None) => '-',
        Err(_) => '!',
    }
}

/// What the file holds where the call at this moment fails and the machine then stops, and whether both images were written.
fn stopped(alloc: Global, moment: u64, choice: u64) -> Result<(char, bool), AllocError> {
    let failing = [moment].to_vec(alloc)?;
    let mut store = MemStore::new(alloc).with_failing(failing);
    let is_written = write_both(alloc, &mut store).is_ok();
    let mut after = store.stop(choice).with_failing(Vec::new(alloc));
    let sign = found(alloc, &mut after);
    drop(after);
    Ok((sign, is_written))
}

/// What the file holds behind a stop at each moment.
pub fn answer(alloc: Global, choice: &str) -> Result<String, Fault> {
    let choice = large(choice)?;
    let mut signs = String::new(alloc);
    for moment in 0..MOST {
        let (sign, is_written) = stopped(alloc, moment, choice)?;
        signs.push(sign)?;
        if is_written {
            return Ok(signs);
        }
    }
    Err(Fault::NoCommand)
}
