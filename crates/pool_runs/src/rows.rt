//! The rows of device classes, storage pools and volumes in words.
use kinds::{Capacity, Day, Name, PoolRule};
use pool_rows::{Pool, Pools};
use std::alloc::{AllocError, Global};
use volume_rows::{HeldSegment, Volume};

fn put_name(out: &mut String, name: &Name) -> Result<(), AllocError> {
    for byte in name.as_bytes() {
        out.push(char::from(*byte))?;
    }
    Ok(())
}

fn put_class(out: &mut String, name: &Name, capacity: &Option<Capacity>) -> Result<(), AllocError> {
    put_name(out, name)?;
    match capacity {
        Some(capacity) => put_number(out, " ", capacity.bytes()),
        None => out.push_str(" random"),
    }
}

/// Some words, and a number.
fn put_number(out: &mut String, words: &str, number: u64) -> Result<(), AllocError> {
    write!(out, "{words}{number}")
}

fn put_next(out: &mut String, next: Option<u32>) -> Result<(), AllocError> {
    match next {
        Some(pool) => put_number(out, " next ", u64::from(pool)),
        None => Ok(()),
    }
}

fn put_rule(out: &mut String, rule: &PoolRule) -> Result<(), AllocError> {
    let max_size = &rule.max_size;
    let high = rule.high;
    let low = rule.low;
    let reclaim = rule.reclaim;
    let delay = rule.reuse_delay.count();
    let scratch = rule.max_scratch;
    put_next(out, rule.next)?;
    write!(
        out,
        " max {max_size:?} high {high} low {low} reclaim {reclaim} delay {delay} scratch {scratch}"
    )?;
    if rule.collocate {
        out.push_str(" collocate")?;
    }
    Ok(())
}

fn put_pool(out: &mut String, number: u32, pool: &Pool) -> Result<(), AllocError> {
    let kind = &pool.kind;
    put_number(out, "", u64::from(number))?;
    out.push(' ')?;
    put_name(out, &pool.name)?;
    out.push(' ')?;
    put_name(out, &pool.class)?;
    write!(out, " {kind:?}")?;
    put_rule(out, &pool.settings.rule())
}

fn put_segment(out: &mut String, segment: &HeldSegment, repeats: u64) -> Result<(), AllocError> {
    let object = segment.object;
    let offset = segment.offset;
    let len = segment.len;
    write!(out, " {object}@{offset}+{len}")?;
    if repeats > 0 {
        put_number(out, " x", repeats.saturating_add(1))?;
    }
    Ok(())
}

fn put_emptied(out: &mut String, emptied: Option<Day>) -> Result<(), AllocError> {
    match emptied {
        Some(day) => put_number(out, " emptied ", u64::from(day.number())),
        None => Ok(()),
    }
}

fn put_segments(out: &mut String, volume: &Volume) -> Result<(), AllocError> {
    for (segment, repeats) in volume.segments.as_map() {
        put_segment(out, segment, *repeats)?;
    }
    Ok(())
}

fn put_volume(out: &mut String, file: u32, volume: &Volume) -> Result<(), AllocError> {
    let pool = volume.pool;
    let kind = if volume.scratch { "scratch" } else { "defined" };
    let capacity = volume.capacity.bytes();
    let access = &volume.access;
    put_number(out, "", u64::from(file))?;
    out.push(' ')?;
    put_name(out, &volume.name)?;
    write!(out, " pool {pool} {kind} {capacity} {access:?}")?;
    put_number(out, " end ", volume.end)?;
    put_emptied(out, volume.emptied)?;
    put_segments(out, volume)
}

/// A semicolon between two rows.
fn put_sign(out: &mut String) -> Result<(), AllocError> {
    if out.is_empty() {
        Ok(())
    } else {
        out.push_str("; ")
    }
}

/// The word for no rows.
fn put_none(out: &mut String) -> Result<(), AllocError> {
    if out.is_empty() {
        out.push_str("none")
    } else {
        Ok(())
    }
}

/// The device classes, each with its volumes' bytes, or `none`.
pub fn classes(alloc: Global, pools: &Pools) -> Result<String, AllocError> {
    let mut out = String::new(alloc);
    for (name, capacity) in pools.classes() {
        put_sign(&mut out)?;
        put_class(&mut out, name, capacity)?;
    }
    put_none(&mut out)?;
    Ok(out)
}

/// The storage pools with their settings, or `none`.
pub fn pools(alloc: Global, pools: &Pools) -> Result<String, AllocError> {
    let mut out = String::new(alloc);
    for (number, pool) in pools.pools() {
        put_sign(&mut out)?;
        put_pool(&mut out, *number, pool)?;
    }
    put_none(&mut out)?;
    Ok(out)
}

/// The volumes with their segments, each as its object, its place and its length, and how often it stands there; or `none`.
pub fn volumes(alloc: Global, pools: &Pools) -> Result<String, AllocError> {
    let mut out = String::new(alloc);
    for (file, volume) in pools.volumes() {
        put_sign(&mut out)?;
        put_volume(&mut out, *file, volume)?;
    }
    put_none(&mut out)?;
    Ok(out)
}

/// The row of one volume, or `none`.
pub fn volume(alloc: Global, pools: &Pools, file: u32) -> Result<String, AllocError> {
    let mut out = String::new(alloc);
    match pools.volumes().get(&file) {
        Some(volume) => put_volume(&mut out, file, volume)?,
        None => out.push_str("none")?,
    }
    Ok(out)
}

/// All rows.
pub fn all(alloc: Global, state: &Pools) -> Result<String, AllocError> {
    let mut out = classes(alloc, state)?;
    out.push_str(" | ")?;
    let of_pools = pools(alloc, state)?;
    out.push_str(of_pools.as_str())?;
    out.push_str(" | ")?;
    let of_volumes = volumes(alloc, state)?;
    out.push_str(of_volumes.as_str())?;
    Ok(out)
}
