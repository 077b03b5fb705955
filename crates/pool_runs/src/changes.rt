//! Changes that an administrator makes, as lines spell them.
use crate::answer::{Answer, Fault};
use crate::words::{
    access, byte, capacity, define_or_delete, kind, large, name, number, small, verb,
};
use kinds::{Days, PoolChange, PoolRule, PoolSettings, SizeLimit};
use pool_rows::Pools;
use std::alloc::Global;

/// The settings that a new pool has where nothing else is said.
fn usual_rule() -> Result<PoolRule, Fault> {
    Ok(PoolRule {
        max_size: SizeLimit::NoLimit,
        next: None,
        high: 90,
        low: 70,
        reclaim: 60,
        reuse_delay: Days::new(0).ok_or(Fault::NoCommand)?,
        max_scratch: 0,
        collocate: false,
    })
}

fn days(word: &str) -> Result<Days, Fault> {
    Days::new(small(word)?).ok_or(Fault::NoCommand)
}

/// Writes the setting that the word has, as `next=3`.
fn set(rule: &mut PoolRule, word: &str) -> Result<(), Fault> {
    let (key, value) = word.split_once('=').ok_or(Fault::NoCommand)?;
    match key {
        "max" => rule.max_size = SizeLimit::At(large(value)?),
        "next" => rule.next = Some(number(value)?),
        "high" => rule.high = byte(value)?,
        "low" => rule.low = byte(value)?,
        "reclaim" => rule.reclaim = byte(value)?,
        "delay" => rule.reuse_delay = days(value)?,
        "scratch" => rule.max_scratch = small(value)?,
        "collocate" => rule.collocate = value == "node",
        _ => return Err(Fault::NoCommand),
    }
    Ok(())
}

/// The settings of these words, and the usual ones for the rest.
pub fn settings(words: &[&str]) -> Result<PoolSettings, Fault> {
    let mut rule = usual_rule()?;
    for word in words {
        set(&mut rule, word)?;
    }
    PoolSettings::new(rule).ok_or(Fault::NoCommand)
}

fn class_change(alloc: Global, words: &[&str]) -> Result<PoolChange, Fault> {
    let [verb, class, bytes] = words else {
        return Err(Fault::NoCommand);
    };
    Ok(PoolChange::DevClass {
        verb: define_or_delete(verb)?,
        class: name(alloc, class)?,
        capacity: capacity(bytes)?,
    })
}

fn pool_change(alloc: Global, words: &[&str]) -> Result<PoolChange, Fault> {
    let [what, _, pool, class, of, rest @ ..] = words else {
        return Err(Fault::NoCommand);
    };
    Ok(PoolChange::Pool {
        verb: verb(what)?,
        pool: name(alloc, pool)?,
        class: name(alloc, class)?,
        kind: kind(of)?,
        settings: settings(rest)?,
    })
}

fn volume_change(alloc: Global, words: &[&str]) -> Result<PoolChange, Fault> {
    let [what, file, volume, pool, bytes, may] = words else {
        return Err(Fault::NoCommand);
    };
    Ok(PoolChange::Volume {
        verb: verb(what)?,
        volume: name(alloc, volume)?,
        pool: number(pool)?,
        file: number(file)?,
        capacity: capacity(bytes)?,
        access: access(may)?,
    })
}

/// Makes the change, where what it defines may have its number and its name.
fn make_free(pools: &mut Pools, change: &PoolChange, number: u32) -> Result<Answer, Fault> {
    if !pools.is_free(change, number) {
        return Ok(Answer::Unmet);
    }
    pools.change(change, number)?;
    Ok(Answer::Done)
}

/// Makes the change, which goes.
fn make(pools: &mut Pools, change: PoolChange, number: u32) -> Result<Answer, Fault> {
    let made = make_free(pools, &change, number);
    drop(change);
    made
}

/// `define|delete CLASS BYTES`.
pub fn class(alloc: Global, pools: &mut Pools, words: &[&str]) -> Result<Answer, Fault> {
    make(pools, class_change(alloc, words)?, 0)
}

/// `define|update|delete NUMBER POOL CLASS KIND`, and settings as `next=3`.
pub fn pool(alloc: Global, pools: &mut Pools, words: &[&str]) -> Result<Answer, Fault> {
    let [_, place, ..] = words else {
        return Err(Fault::NoCommand);
    };
    let place = number(place)?;
    make(pools, pool_change(alloc, words)?, place)
}

/// `define|update|delete FILE VOLUME POOL BYTES ACCESS`.
pub fn volume(alloc: Global, pools: &mut Pools, words: &[&str]) -> Result<Answer, Fault> {
    make(pools, volume_change(alloc, words)?, 0)
}
