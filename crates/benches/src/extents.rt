//! Stores and removes objects on a fragmented random-access volume, so that volumes of different sizes can be timed against each
//! other. It prints how many objects were stored, in how many pieces, and the room that is left, in bytes.

use extent_map::{Extents, Run};
use kinds::Refusal;
use std::alloc::Global;
use std::io;

/// How many blocks the volume has, and how many objects are stored, where no numbers are given.
pub(crate) const USUAL_BLOCKS: u32 = 4096;

pub(crate) const USUAL_COUNT: u32 = 1000;

/// What was done, and what is left.
struct Totals {
    pieces: u64,
    room: u64,
}

/// A number that this one scatters.
fn scattered(number: u32) -> u64 {
    (number as u64)
        .wrapping_mul(0x9e37_79b9_7f4a_7c15)
        .rotate_left(31)
        .wrapping_mul(0xbf58_476d_1ce4_e5b9)
        .rotate_left(29)
}

/// Gives back those of the runs that are in use.
fn give_all(extents: &mut Extents, runs: &[Run]) {
    for run in runs {
        if extents.are_used(*run) {
            extents.give(*run);
        }
    }
}

/// Fills the volume, and then frees one to four blocks of every eight.
fn fragment(alloc: Global, extents: &mut Extents, blocks: u32) -> Result<(), Refusal> {
    extents.take(alloc, extents.room())?;
    for group in 0..blocks / 8 {
        let number = scattered(group);
        let hole = Run {
            first: 8 * group + (number % 5) as u32,
            blocks: 1 + (number / 8 % 4) as u32,
        };
        give_all(extents, [hole].as_slice());
    }
    Ok(())
}

/// Puts an object of so many bytes in the place of the one that these runs hold, and says in how many pieces.
fn replace(
    alloc: Global,
    extents: &mut Extents,
    runs: &mut Vec<Run>,
    bytes: u64,
) -> Result<u64, Refusal> {
    give_all(extents, runs.as_slice());
    *runs = match extents.take(alloc, bytes)? {
        Some(runs) => runs,
        None => Vec::new(alloc),
    };
    Ok(runs.len() as u64)
}

/// Stores so many objects of 1 to 65,536 bytes, each in the place of an older one, of which there is one for every 64 blocks.
fn churn(alloc: Global, blocks: u32, count: u32) -> Result<Totals, Refusal> {
    let mut extents = Extents::new(alloc, blocks)?;
    fragment(alloc, &mut extents, blocks)?;
    let mut objects = Vec::new(alloc);
    let places = blocks / 64 + 1;
    for _ in 0..places {
        objects.push(Vec::new(alloc))?;
    }
    let mut pieces: u64 = 0;
    for number in 0..count {
        let place = (scattered(number) % places as u64) as usize;
        let bytes = 1 + scattered(number) / 65_536 % 65_536;
        if let Some(runs) = objects.get_mut(place) {
            pieces = pieces.wrapping_add(replace(alloc, &mut extents, runs, bytes)?);
        }
    }
    Ok(Totals {
        pieces,
        room: extents.room(),
    })
}

/// Stores so many objects on a volume of so many blocks.
pub(crate) fn report(rt: &impl Print, alloc: Global, blocks: u32, count: u32) -> io::Result<()> {
    match churn(alloc, blocks, count) {
        Ok(Totals { pieces, room }) => println!(rt;
            "{count} objects in {pieces} pieces, room for {room} bytes left"
        ),
        Err(_) => println!(rt; "want of memory"),
    }
}
