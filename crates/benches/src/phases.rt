//! The phases of a vault's work over a store in memory, each timed by itself inside one process, and beside it what the same bytes take with no vault.
//!
//! How many device calls there are is exact. Times are the processor's that this process had, as Linux tells them in
//! /proc/self/schedstat; where it doesn't, each is 0. Each phase is run several times, in turn with what it is compared with, and the least of each
//! counts. The numbers are how many transactions are committed, how many versions the inventory is filled with, and how many times.

use crate::filling::fill;
use crate::vaults::{Fault, LAST, LATE, append_all, force};
use entries::Database;
use inventory::Inventory;
use kinds::Refusal;
use mem_store::MemStore;
use std::alloc::Global;
use std::rt::Files;
use std::{fs, io};
use store_api::Store;
use vault::{Progress, Vault};

/// How many times each phase is run, where no number is given.
pub(crate) const USUAL_TIMES: u32 = 5;

/// How many bytes a write of a plain copy has.
const PIECE: usize = 65536;

/// Calls of a store and time of the processor, in nanoseconds.
#[derive(Clone, Copy)]
struct Cost {
    calls: u64,
    time: u64,
}

/// The cost of which the least is to be found.
const ENDLESS: Cost = Cost {
    calls: 0,
    time: u64::MAX,
};

/// What commits cost: all of them before a force, that force, and as many that are forced one by one.
#[derive(Clone, Copy)]
struct Commits {
    together: Cost,
    force: Cost,
    one_by_one: Cost,
}

/// What an image costs: to open, and as much decoded with no store; to write in pieces, and as much encoded and written with no vault. Of the pieces
/// how many steps there were, and how many calls the first made, and any between it and the last at most.
#[derive(Clone, Copy)]
struct Images {
    opened: Cost,
    decoded: Cost,
    written: Cost,
    copied: Cost,
    steps: u64,
    first: u64,
    most: u64,
}

/// The time that the processor has spent on this process.
fn spent(rt: &(impl Files + AllocGlobal)) -> u64 {
    match fs::read_to_string(rt, "/proc/self/schedstat") {
        Ok(text) => {
            let text = text.as_str();
            let (word, _) = text.split_once(' ').unwrap_or((text, ""));
            word.parse::<u64>().unwrap_or(0)
        }
        Err(_) => 0,
    }
}

/// What was spent since.
fn since(rt: &(impl Files + AllocGlobal), store: &MemStore, before: Cost) -> Cost {
    Cost {
        calls: store.moment().saturating_sub(before.calls),
        time: spent(rt).saturating_sub(before.time),
    }
}

/// What was spent until now.
fn now(rt: &(impl Files + AllocGlobal), store: &MemStore) -> Cost {
    Cost {
        calls: store.moment(),
        time: spent(rt),
    }
}

/// The one of less time.
fn lesser(cost: Cost, other: Cost) -> Cost {
    if other.time < cost.time { other } else { cost }
}

/// What commits cost, forced one by one or not at all, and what the force behind them does.
fn commit_and_force<D: Database>(
    rt: &(impl Files + AllocGlobal),
    alloc: Global,
    vault: &mut Vault<D>,
    store: &mut MemStore,
    count: u32,
    forced: bool,
) -> Result<(Cost, Cost), Refusal> {
    let begun = now(rt, store);
    append_all(alloc, vault, store, count, forced)?;
    let made = since(rt, store, begun);
    let waiting = now(rt, store);
    force(vault, store)?;
    Ok((made, since(rt, store, waiting)))
}

/// The same in a new vault.
fn cost_of_commits<D: Database>(
    rt: &(impl Files + AllocGlobal),
    alloc: Global,
    fresh: &D,
    count: u32,
    forced: bool,
) -> Result<(Cost, Cost), Fault> {
    let mut store = MemStore::new(alloc);
    Vault::<D>::format(alloc, &mut store, fresh)?;
    match Vault::<D>::open(alloc, &mut store) {
        Ok(vault) => {
            let mut vault = vault;
            let cost = commit_and_force(rt, alloc, &mut vault, &mut store, count, forced)?;
            Ok(cost)
        }
        Err(refused) => Err(Fault::NotOpened(refused)),
    }
}

/// The least that commits cost, of so many runs.
fn least_commits<D: Database>(
    rt: &(impl Files + AllocGlobal),
    alloc: Global,
    fresh: &D,
    count: u32,
    times: u32,
) -> Result<Commits, Fault> {
    let mut least = Commits {
        together: ENDLESS,
        force: ENDLESS,
        one_by_one: ENDLESS,
    };
    for _ in 0..times {
        let (together, force) = cost_of_commits(rt, alloc, fresh, count, false)?;
        let (one_by_one, _) = cost_of_commits(rt, alloc, fresh, count, true)?;
        least = Commits {
            together: lesser(least.together, together),
            force: lesser(least.force, force),
            one_by_one: lesser(least.one_by_one, one_by_one),
        };
    }
    Ok(least)
}

/// One more step of a checkpoint that was begun, and how many calls it made.
fn step<D: Database>(
    alloc: Global,
    vault: &mut Vault<D>,
    store: &mut MemStore,
) -> Result<(Progress, u64), Refusal> {
    if store.moment() >= LATE || vault.generation() >= LAST || !vault.in_checkpoint() {
        return Err(Refusal::RunFull);
    }
    let before = store.moment();
    match vault.next_checkpoint(alloc, store) {
        Ok(progress) => Ok((progress, store.moment().saturating_sub(before))),
        Err(refusal) => Err(refusal),
    }
}

/// Writes the next image step by step: how many steps there were, how many calls the first made, and any between it and the last at most.
fn write_steps<D: Database>(
    alloc: Global,
    vault: &mut Vault<D>,
    store: &mut MemStore,
) -> Result<(u64, u64, u64), Refusal> {
    if store.moment() >= LATE || vault.generation() >= LAST {
        return Err(Refusal::RunFull);
    }
    let before = store.moment();
    match vault.begin_checkpoint(alloc, store) {
        Ok(_) => {}
        Err(refusal) => return Err(refusal),
    }
    let first = store.moment().saturating_sub(before);
    let mut most = 0;
    for steps in 2..u64::MAX {
        match step(alloc, vault, store) {
            Ok((Progress::More, calls)) => most = if calls > most { calls } else { most },
            Ok((Progress::Done, _)) => return Ok((steps, first, most)),
            Err(refusal) => return Err(refusal),
        }
    }
    Err(Refusal::RunFull)
}

/// Writes bytes piece by piece and makes them durable.
fn write_plainly(store: &mut MemStore, bytes: &[u8]) -> Result<(), Refusal> {
    let mut at = 0;
    for piece in bytes.chunks(PIECE) {
        if store.moment() >= LATE || store.write_at(0, at, piece).is_err() {
            return Err(Refusal::RunFull);
        }
        at = at.saturating_add(piece.len() as u64);
    }
    if store.moment() >= LATE || store.sync(0).is_err() {
        return Err(Refusal::RunFull);
    }
    Ok(())
}

/// Encodes the database and writes it with no vault, and decodes it again: what both cost.
fn plain<D: Database>(
    rt: &(impl Files + AllocGlobal),
    alloc: Global,
    database: &D,
) -> Result<(Cost, Cost), Refusal> {
    let mut store = MemStore::new(alloc);
    let begun = now(rt, &store);
    let bytes = match database.encode(alloc) {
        Ok(bytes) => bytes,
        Err(refusal) => return Err(refusal),
    };
    write_plainly(&mut store, &bytes)?;
    let copied = since(rt, &store, begun);
    drop(bytes);
    let written = now(rt, &store);
    match D::decode_two(alloc, store.bytes(0)) {
        Ok(_) => Ok((copied, since(rt, &store, written))),
        Err(refusal) => Err(refusal),
    }
}

/// What an image of the database costs.
fn cost_of_images<D: Database>(
    rt: &(impl Files + AllocGlobal),
    alloc: Global,
    database: &D,
) -> Result<Images, Fault> {
    let (copied, decoded) = plain(rt, alloc, database)?;
    let mut store = MemStore::new(alloc);
    Vault::<D>::install(alloc, &mut store, database)?;
    let begun = now(rt, &store);
    match Vault::<D>::open(alloc, &mut store) {
        Ok(vault) => {
            let opened = since(rt, &store, begun);
            let mut vault = vault;
            let resting = now(rt, &store);
            let (steps, first, most) = write_steps(alloc, &mut vault, &mut store)?;
            Ok(Images {
                opened,
                decoded,
                written: since(rt, &store, resting),
                copied,
                steps,
                first,
                most,
            })
        }
        Err(refused) => Err(Fault::NotOpened(refused)),
    }
}

/// The least that an image costs, of so many runs.
fn least_images<D: Database>(
    rt: &(impl Files + AllocGlobal),
    alloc: Global,
    database: &D,
    times: u32,
) -> Result<Images, Fault> {
    let mut least = cost_of_images(rt, alloc, database)?;
    for _ in 1..times {
        let one = cost_of_images(rt, alloc, database)?;
        least = Images {
            opened: lesser(least.opened, one.opened),
            decoded: lesser(least.decoded, one.decoded),
            written: lesser(least.written, one.written),
            copied: lesser(least.copied, one.copied),
            steps: one.steps,
            first: one.first,
            most: one.most,
        };
    }
    Ok(least)
}

/// So many hundredths of the other time.
fn percent(cost: Cost, other: Cost) -> u64 {
    cost.time.saturating_mul(100) / other.time.max(1)
}

fn micros(cost: Cost) -> u64 {
    cost.time / 1000
}

/// Times the phases.
fn run(
    rt: &(impl Files + AllocGlobal),
    alloc: Global,
    count: u32,
    versions: u32,
    times: u32,
) -> Result<(Commits, Images), Fault> {
    let mut inventory = Inventory::fresh(alloc)?;
    let commits = least_commits(rt, alloc, &inventory, count, times)?;
    fill(alloc, &mut inventory, versions)?;
    let images = least_images(rt, alloc, &inventory, times)?;
    Ok((commits, images))
}

/// Tells what commits cost.
fn report_commits(rt: &impl Print, count: u32, commits: Commits) -> io::Result<()> {
    let Commits {
        together,
        force,
        one_by_one,
    } = commits;
    println!(rt;
        "{count} commits: {} calls, {} us; the force behind them: {} calls, {} us",
        together.calls,
        micros(together),
        force.calls,
        micros(force)
    )?;
    println!(rt;
        "{count} commits, each forced: {} calls, {} us; {} percent of these took those before one force",
        one_by_one.calls,
        micros(one_by_one),
        percent(together, one_by_one)
    )
}

/// Tells what an image costs.
fn report_images(rt: &impl Print, versions: u32, images: Images) -> io::Result<()> {
    let Images {
        opened,
        decoded,
        written,
        copied,
        steps,
        first,
        most,
    } = images;
    println!(rt;
        "{versions} versions, an image in pieces: {steps} steps, the first of {first} calls, the next of {most} at most, {} calls together",
        written.calls
    )?;
    println!(rt;
        "{versions} versions, an image in pieces: {} us, {} percent of what encoding and writing it plainly took, {} us by {} calls",
        micros(written),
        percent(written, copied),
        micros(copied),
        copied.calls
    )?;
    println!(rt;
        "{versions} versions, opened by {} calls: {} us, {} percent of what decoding them took, {} us",
        opened.calls,
        micros(opened),
        percent(opened, decoded),
        micros(decoded)
    )
}

/// Times the phases with so many transactions and versions, and tells what each costs.
pub(crate) fn report(
    rt: &(impl Print + Files + AllocGlobal),
    alloc: Global,
    count: u32,
    versions: u32,
    times: u32,
) -> io::Result<()> {
    match run(rt, alloc, count, versions, times) {
        Ok((commits, images)) => {
            report_commits(rt, count, commits)?;
            report_images(rt, versions, images)
        }
        Err(Fault::Refused(refusal)) => println!(rt; "{refusal:?}"),
        Err(Fault::NotOpened(refused)) => println!(rt; "{refused:?}"),
    }
}
