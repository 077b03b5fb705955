//! Fills an inventory with versions by transactions of 256, encodes it and decodes its bytes, so that many versions can be timed against few. It prints
//! the number of the inventory's last transaction and how many bytes it has.
//!
//! The numbers are how many versions there are, which steps are made (1 makes the transactions only, 2 fills an inventory with them, 3 encodes it
//! too, 4 encodes it once and decodes too), and how many times it is encoded or decoded in the last step.

use crate::filling::{fill, read_batches};
use entries::Database;
use inventory::Inventory;
use kinds::Refusal;
use std::alloc::Global;
use std::io;

/// How many versions there are, which steps are made, and how many times the last one, where no number is given.
pub(crate) const USUAL_COUNT: u32 = 1024;

pub(crate) const ALL_STEPS: u32 = 4;

pub(crate) const USUAL_TIMES: u32 = 1;

/// What was done.
struct Totals {
    /// The number of the last transaction; in the first step how many there were.
    number: u64,
    /// How many bytes were made or read.
    bytes: u64,
}

/// How many bytes the database has.
fn encoded<D: Database>(alloc: Global, database: &D) -> Result<u64, Refusal> {
    match database.encode(alloc) {
        Ok(bytes) => Ok(bytes.len() as u64),
        Err(refusal) => Err(refusal),
    }
}

/// How many bytes the database has, over all the times that it is encoded.
fn encode_all<D: Database>(alloc: Global, database: &D, times: u32) -> Result<u64, Refusal> {
    let mut total: u64 = 0;
    for _ in 0..times {
        total = total.wrapping_add(encoded(alloc, database)?);
    }
    Ok(total)
}

/// How many bytes are a database's; 0 where they are none's.
fn decoded<D: Database>(alloc: Global, bytes: &[u8]) -> Result<u64, Refusal> {
    match D::decode_two(alloc, bytes) {
        Ok(Some(database)) => {
            drop(database);
            Ok(bytes.len() as u64)
        }
        Ok(None) => Ok(0),
        Err(refusal) => Err(refusal),
    }
}

/// How many bytes are a database's, over all the times that they are decoded.
fn decode_all<D: Database>(alloc: Global, database: &D, times: u32) -> Result<u64, Refusal> {
    let bytes = match database.encode(alloc) {
        Ok(bytes) => bytes,
        Err(refusal) => return Err(refusal),
    };
    let mut total: u64 = 0;
    for _ in 0..times {
        total = total.wrapping_add(decoded::<D>(alloc, &bytes)?);
    }
    Ok(total)
}

/// The steps from the second on, in a database that was just formatted.
fn run<D: Database>(
    alloc: Global,
    database: &mut D,
    count: u32,
    step: u32,
    times: u32,
) -> Result<Totals, Refusal> {
    fill(alloc, database, count)?;
    let bytes = match step {
        2 => 0,
        3 => encode_all(alloc, database, times)?,
        _ => decode_all(alloc, database, times)?,
    };
    Ok(Totals {
        number: database.number(),
        bytes,
    })
}

/// All steps.
fn run_all(alloc: Global, count: u32, step: u32, times: u32) -> Result<Totals, Refusal> {
    if step < 2 {
        let read = read_batches(alloc, count)?;
        return Ok(Totals {
            number: u64::from(read),
            bytes: 0,
        });
    }
    match Inventory::fresh(alloc) {
        Ok(mut inventory) => {
            let totals = run(alloc, &mut inventory, count, step, times);
            drop(inventory);
            totals
        }
        Err(refusal) => Err(refusal),
    }
}

/// Makes the steps up to this one with so many versions, the last of them so many times.
pub(crate) fn report(
    rt: &impl Print,
    alloc: Global,
    count: u32,
    step: u32,
    times: u32,
) -> io::Result<()> {
    match run_all(alloc, count, step, times) {
        Ok(Totals { number, bytes }) => println!(rt; "{number} transactions, {bytes} bytes"),
        Err(refusal) => println!(rt; "{refusal:?}"),
    }
}
