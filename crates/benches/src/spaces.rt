//! Places objects of 1 to 65,536 bytes in a storage pool, of random access or sequential, with so many volumes that together have room for
//! all of them, and removes half of them again: after every second object one that was placed 201 before. Beside so many live tickets, of the same
//! actor or, where there are more volumes than tickets, every second one of another. It prints `ready` once the pool is made, and behind each part of
//! the objects how many were placed, in how many segments, and how many were removed.

ghost use Rattle.std.specs.Prelude.{OnOk};
ghost use Rattle.space.specs.Claims.{Claims};
ghost use Rattle.space_index.specs.Tails.{IsIndexOf};

use crate::fault::Fault;
use kinds::{Access, Capacity, Day, Name, PoolKind, PoolSettings, Refusal, Segment};
use pool_rows::{Pool, Pools};
use space::{Aim, Claim, Placed, Places, Request, Space};
use space_index::{Index, choose};
use std::alloc::Global;
use std::collections::BTreeMap;
use std::io;
use volume_rows::{Holdings, Volume};

/// How many volumes the pool has, and how many objects are placed, where no numbers are given.
pub(crate) const USUAL_VOLUMES: u32 = 10;

pub(crate) const USUAL_COUNT: u32 = 1000;

/// What was done.
#[derive(Clone, Copy, Debug, PartialEq, Eq)]
struct Totals {
    segments: u64,
    removed: u64,
}

/// A number that this one scatters.
fn scattered(number: u32) -> u64 {
    (number as u64)
        .wrapping_mul(0x9e37_79b9_7f4a_7c15)
        .rotate_left(31)
        .wrapping_mul(0xbf58_476d_1ce4_e5b9)
        .rotate_left(29)
}

/// A segment of an object comes.
fn put(pools: &mut Pools, index: &mut Index, object: u64, segment: &Segment) -> Result<(), Refusal>
    ensures { (c : Claims) → IsIndexOf index.old pools.old c → OnOk result (IsIndexOf index.new pools.new c) }
{
    if !pools.fits(object, segment) {
        return Err(Refusal::NotFound);
    }
    pools.put_segment(object, segment)?;
    index.put_copy_in(pools, segment)?;
    Ok(())
}

/// A segment of an object goes.
fn take(
    pools: &mut Pools,
    index: &mut Index,
    object: u64,
    segment: &Segment,
    today: Day,
) -> Result<(), Refusal>
    ensures { (c : Claims) → IsIndexOf index.old pools.old c → OnOk result (IsIndexOf index.new pools.new c) }
{
    pools.take_segment(object, segment, today)?;
    index.take_copy_in(pools, segment)?;
    Ok(())
}

fn put_all(
    pools: &mut Pools,
    index: &mut Index,
    object: u64,
    places: &[Placed],
) -> Result<(), Refusal>
    ensures { (c : Claims) → IsIndexOf index.old pools.old c → OnOk result (IsIndexOf index.new pools.new c) }
{
    'places: for place in places {
        put(pools, index, object, &place.segment)?;
    }
    Ok(())
}

fn take_all(
    pools: &mut Pools,
    index: &mut Index,
    object: u64,
    places: &[Placed],
    today: Day,
) -> Result<(), Refusal>
    ensures { (c : Claims) → IsIndexOf index.old pools.old c → OnOk result (IsIndexOf index.new pools.new c) }
{
    'places: for place in places {
        take(pools, index, object, &place.segment, today)?;
    }
    Ok(())
}

/// What an object of the pool asks for.
fn request_of(actor: u32, object: u32, pool: u32) -> Request {
    Request {
        actor,
        size: 1 + scattered(object) / 65_536 % 65_536,
        aim: Aim::New { pool },
        prefer: 0,
        avoid: 0,
    }
}

/// An actor's ticket gets space for an object, under a number that no ticket has.
fn open(
    alloc: Global,
    pools: &Pools,
    index: &mut Index,
    space: &mut Space,
    actor: u32,
    number: u32,
    pool: u32,
) -> Result<(), Refusal>
    requires { IsIndexOf index.old pools.now space.old }
    ensures { OnOk result (IsIndexOf index.new pools.now space.new) }
{
    let places = choose(alloc, pools, space, index, &request_of(actor, number, pool))?;
    let claim = Claim { actor, places };
    let ticket = u64::from(number);
    let None = space.tickets().get(&ticket) else {
        return Err(Refusal::NotFound);
    };
    let Ok(()) = index.hold(pools, &claim) else {
        return Err(Refusal::Memory);
    };
    space.hold(ticket, claim)?;
    Ok(())
}

/// So many tickets get space.
fn open_all(
    alloc: Global,
    pools: &Pools,
    index: &mut Index,
    space: &mut Space,
    pool: u32,
    tickets: u32,
    apart: bool,
) -> Result<(), Refusal>
    requires { IsIndexOf index.old pools.now space.old }
    ensures { OnOk result (IsIndexOf index.new pools.now space.new) }
{
    'tickets: for number in 0..tickets {
        let actor = if apart && number % 2 == 1 {
            number.saturating_add(1)
        } else {
            1
        };
        open(alloc, pools, index, space, actor, number, pool)?;
    }
    Ok(())
}

/// Places an object.
fn place(
    alloc: Global,
    pools: &mut Pools,
    index: &mut Index,
    space: &Space,
    object: u32,
    pool: u32,
) -> Result<Places, Refusal>
    requires { IsIndexOf index.old pools.old space.now }
    ensures { OnOk result (IsIndexOf index.new pools.new space.now) }
{
    let places = choose(alloc, pools, space, index, &request_of(1, object, pool))?;
    put_all(pools, index, u64::from(object), places.as_slice())?;
    Ok(places)
}

/// After every second object, removes the one that was placed 201 before it, which has an even number; whether there is one.
fn remove_one(
    pools: &mut Pools,
    index: &mut Index,
    space: &Space,
    objects: &mut Vec<Option<Places>>,
    object: u32,
    today: Day,
) -> Result<bool, Refusal>
    requires { IsIndexOf index.old pools.old space.now }
    ensures { OnOk result (IsIndexOf index.new pools.new space.now) }
{
    if object % 2 == 0 {
        return Ok(false);
    }
    let Some(number) = object.checked_sub(201) else {
        return Ok(false);
    };
    let Some(there) = objects.get_mut(number as usize) else {
        return Ok(false);
    };
    let Some(places) = there.take() else {
        return Ok(false);
    };
    take_all(pools, index, u64::from(number), places.as_slice(), today)?;
    Ok(true)
}

/// Places the objects from the first number to below the end, and removes every second one.
fn churn(
    alloc: Global,
    pools: &mut Pools,
    index: &mut Index,
    space: &Space,
    objects: &mut Vec<Option<Places>>,
    pool: u32,
    first: u32,
    end: u32,
    today: Day,
) -> Result<Totals, Refusal>
    requires { IsIndexOf index.old pools.old space.now }
    ensures { OnOk result (IsIndexOf index.new pools.new space.now) }
{
    let mut segments: u64 = 0;
    let mut removed: u64 = 0;
    'objects: for object in first..end {
        let places = place(alloc, pools, index, space, object, pool)?;
        segments = segments.wrapping_add(places.as_slice().len() as u64);
        objects.push(Some(places))?;
        if remove_one(pools, index, space, objects, object, today)? {
            removed = removed.wrapping_add(1);
        }
    }
    Ok(Totals { segments, removed })
}

/// Prints how far it is.
fn say_totals(rt: &impl Print, count: u32, totals: &Totals) -> Result<(), Fault> {
    let Totals { segments, removed } = totals;
    println!(rt; "{count} objects in {segments} segments, {removed} removed")
        .ok()
        .ok_or(Fault::NotPrinted)
}

/// Places so many objects, and removes every second one; behind each of so many parts it prints how far it is.
fn churn_all(
    rt: &impl Print,
    alloc: Global,
    pools: &mut Pools,
    index: &mut Index,
    space: &Space,
    pool: u32,
    count: u32,
    parts: u32,
    today: Day,
) -> Result<(), Fault>
    requires { IsIndexOf index.old pools.old space.now }
{
    let mut objects = Vec::new(alloc);
    let mut totals = Totals {
        segments: 0,
        removed: 0,
    };
    let mut first: u32 = 0;
    'parts: for part in 1..=parts {
        let end = (u64::from(count) * u64::from(part) / u64::from(parts)) as u32;
        let Totals { segments, removed } = churn(
            alloc,
            pools,
            index,
            space,
            &mut objects,
            pool,
            first,
            end,
            today,
        )?;
        totals.segments = totals.segments.wrapping_add(segments);
        totals.removed = totals.removed.wrapping_add(removed);
        say_totals(rt, end, &totals)?;
        first = end;
    }
    Ok(())
}

fn name(alloc: Global, text: &str) -> Result<Name, Refusal> {
    let name = Name::read(alloc, text.as_bytes(), 30)?;
    Ok(name)
}

/// A pool of a device class.
fn pool_of(
    alloc: Global,
    text: &str,
    class: &str,
    settings: PoolSettings,
) -> Result<Pool, Refusal> {
    Ok(Pool {
        name: name(alloc, text)?,
        class: name(alloc, class)?,
        kind: PoolKind::Primary,
        settings,
    })
}

/// The pools 1, on DISK, and 2, of sequential volumes.
fn pools_of(alloc: Global, settings: PoolSettings) -> Result<BTreeMap<u32, Pool>, Refusal> {
    let mut pools = BTreeMap::new(alloc);
    pools.insert(1, pool_of(alloc, "DISKS", "DISK", settings)?)?;
    pools.insert(2, pool_of(alloc, "TAPES", "TAPE", settings)?)?;
    Ok(pools)
}

fn classes_of(
    alloc: Global,
    capacity: Capacity,
) -> Result<BTreeMap<Name, Option<Capacity>>, Refusal> {
    let mut classes = BTreeMap::new(alloc);
    classes.insert(name(alloc, "DISK")?, None)?;
    classes.insert(name(alloc, "TAPE")?, Some(capacity))?;
    Ok(classes)
}

fn volume(alloc: Global, file: u32, pool: u32, capacity: Capacity) -> Result<Volume, Refusal> {
    let text = format!(in alloc; "V{file}")?;
    Ok(Volume {
        name: name(alloc, text.as_str())?,
        pool,
        scratch: false,
        capacity,
        access: Access::ReadWrite,
        end: 0,
        emptied: None,
        segments: Holdings::new(alloc),
    })
}

/// So many empty volumes of a pool, with the file numbers from 1 on.
fn volumes_of(
    alloc: Global,
    pool: u32,
    volumes: u32,
    capacity: Capacity,
) -> Result<BTreeMap<u32, Volume>, Refusal> {
    let mut rows = BTreeMap::new(alloc);
    for number in 0..volumes {
        let file = number + 1;
        rows.insert(file, volume(alloc, file, pool, capacity)?)?;
    }
    Ok(rows)
}

/// The settings of a new server's pool.
fn usual_settings(alloc: Global) -> Result<PoolSettings, Refusal> {
    let fresh = Pools::fresh(alloc)?;
    match fresh.pools().get(&1) {
        Some(pool) => Ok(pool.settings),
        None => Err(Refusal::NotFound),
    }
}

/// The rows of so many volumes of a pool, which together have so many bytes.
fn rows_of(alloc: Global, pool: u32, volumes: u32, bytes: u64) -> Result<Pools, Refusal> {
    let each = bytes / u64::from(volumes.max(1)) / 4096 * 4096;
    let Some(capacity) = Capacity::new(each) else {
        return Err(Refusal::NotFound);
    };
    let settings = usual_settings(alloc)?;
    let made = Pools::from_parts(
        alloc,
        classes_of(alloc, capacity)?,
        pools_of(alloc, settings)?,
        volumes_of(alloc, pool, volumes, capacity)?,
    )?;
    made.ok_or(Refusal::NotFound)
}

/// Makes the pool, and places the objects in it.
fn all(
    rt: &impl Print,
    alloc: Global,
    pool: u32,
    volumes: u32,
    bytes: u64,
    count: u32,
    tickets: u32,
    parts: u32,
) -> Result<(), Fault> {
    let Some(today) = Day::new(1) else {
        return Err(Fault::NoCommand);
    };
    let mut pools = rows_of(alloc, pool, volumes, bytes)?;
    let mut space = Space::new(alloc, volumes.saturating_add(1));
    let Ok(mut index) = Index::of(alloc, &pools, &space) else {
        return Err(Fault::Refused(Refusal::Memory));
    };
    let apart = tickets < volumes;
    open_all(alloc, &pools, &mut index, &mut space, pool, tickets, apart)?;
    println!(rt; "ready").ok().ok_or(Fault::NotPrinted)?;
    churn_all(
        rt, alloc, &mut pools, &mut index, &space, pool, count, parts, today,
    )
}

/// Places so many objects on so many volumes with room for as many objects as `room` says, sequential or not, beside so many tickets, and prints behind each of so many parts of them how far it is.
pub(crate) fn report(
    rt: &impl Print,
    alloc: Global,
    sequential: bool,
    volumes: u32,
    count: u32,
    room: u32,
    tickets: u32,
    parts: u32,
) -> io::Result<()> {
    let pool = if sequential { 2 } else { 1 };
    match all(
        rt,
        alloc,
        pool,
        volumes,
        40_960 * u64::from(room),
        count,
        tickets,
        parts,
    ) {
        Ok(()) => Ok(()),
        Err(Fault::Refused(Refusal::Memory)) => println!(rt; "want of memory"),
        Err(_) => println!(rt; "no room"),
    }
}
