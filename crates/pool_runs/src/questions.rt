//! What can be asked of the classes, pools and volumes.
use crate::answer::{Answer, Fault, bytes, number as found};
use crate::words::{byte, name, number};
use pool_rows::Pools;
use std::alloc::Global;

/// Whether the pool's percentage is at least this, `POOL PERCENT`.
pub fn at_least(pools: &Pools, words: &[&str]) -> Result<Answer, Fault> {
    let [pool, percent] = words else {
        return Err(Fault::NoCommand);
    };
    let reached = pools.percent_at_least(number(pool)?, byte(percent)?);
    Ok(Answer::Is(reached))
}

/// Whether the pool's percentage is at most this, `POOL PERCENT`.
pub fn at_most(pools: &Pools, words: &[&str]) -> Result<Answer, Fault> {
    let [pool, percent] = words else {
        return Err(Fault::NoCommand);
    };
    let kept = pools.percent_at_most(number(pool)?, byte(percent)?);
    Ok(Answer::Is(kept))
}

/// The number under which a pool or a volume of this name stands, `pool NAME` or `volume NAME`.
pub fn named(alloc: Global, pools: &Pools, words: &[&str]) -> Result<Answer, Fault> {
    let [what, text] = words else {
        return Err(Fault::NoCommand);
    };
    let text = name(alloc, text)?;
    match *what {
        "pool" => Ok(found(pools.pool_named(&text))),
        "volume" => Ok(found(pools.volume_named(&text))),
        _ => Err(Fault::NoCommand),
    }
}

/// How many bytes the volumes of a device class have, `class NAME`, or of a pool, `pool NUMBER`.
pub fn capacity(alloc: Global, pools: &Pools, words: &[&str]) -> Result<Answer, Fault> {
    let [what, of] = words else {
        return Err(Fault::NoCommand);
    };
    match *what {
        "class" => Ok(bytes(pools.class_capacity(&name(alloc, of)?))),
        "pool" => Ok(bytes(pools.pool_capacity(number(of)?))),
        _ => Err(Fault::NoCommand),
    }
}

/// Whether a pool, `pool NUMBER`, or a volume, `volume FILE`, is there and sequential.
pub fn sequential(pools: &Pools, words: &[&str]) -> Result<Answer, Fault> {
    let [what, of] = words else {
        return Err(Fault::NoCommand);
    };
    match *what {
        "pool" => Ok(Answer::Is(pools.is_sequential(number(of)?))),
        "volume" => Ok(Answer::Is(pools.is_sequential_at(number(of)?))),
        _ => Err(Fault::NoCommand),
    }
}
