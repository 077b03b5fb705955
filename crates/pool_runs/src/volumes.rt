//! Whole volumes: their status, their reuse, and scratch volumes.
ghost use Rattle.std.specs.Prelude.{◌≤◌, IsTrue};
ghost use Rattle.std.specs.Option.{ForSome};
ghost use Rattle.pool_tables.specs.Rows.{row_at};

use crate::answer::{Answer, Fault};
use crate::words::{byte, day, number};
use kinds::Day;
use pool_rows::Pools;

/// Makes a scratch volume, `POOL FILE`, where no volume has the file number.
pub fn scratch(pools: &mut Pools, words: &[&str]) -> Result<Answer, Fault> {
    let [pool, file] = words else {
        return Err(Fault::NoCommand);
    };
    let pool = number(pool)?;
    let file = number(file)?;
    if pools.volumes().get(&file).is_some() {
        return Ok(Answer::Unmet);
    }
    pools.add_scratch(pool, file)?;
    Ok(Answer::Done)
}

/// Whether the volume is a scratch volume without segments.
pub fn bare(pools: &Pools, file: u32) -> Answer {
    Answer::Is(pools.is_bare_scratch(file))
}

/// Takes the row of a scratch volume without segments away.
pub fn drop(pools: &mut Pools, file: u32) -> Answer {
    if !pools.is_bare_scratch(file) {
        return Answer::Unmet;
    }
    pools.drop_scratch(file);
    Answer::Done
}

/// How the volume is used, where it is there.
pub fn status(pools: &Pools, file: u32) -> Answer {
    match pools.volumes().get(&file) {
        Some(_) => Answer::Status(pools.status(file)),
        None => Answer::Unmet,
    }
}

fn is_reclaimable(pools: &Pools, file: u32, threshold: u8) -> Answer {
    match pools.volumes().get(&file) {
        Some(_) => Answer::Is(pools.reclaimable(file, threshold)),
        None => Answer::Unmet,
    }
}

/// Whether the volume is to be reclaimed, `FILE THRESHOLD`, where it is there.
pub fn reclaimable(pools: &Pools, words: &[&str]) -> Result<Answer, Fault> {
    let [file, threshold] = words else {
        return Err(Fault::NoCommand);
    };
    Ok(is_reclaimable(pools, number(file)?, byte(threshold)?))
}

/// Whether the volume, if it is there, was not emptied on a later day than this.
fn is_past(pools: &Pools, file: u32, today: Day) -> bool
    ensures { IsTrue result → ForSome (row_at file pools.now.volumes) (λ v. ForSome v.emptied (λ day. day ≤ today)) }
{
    match pools.volumes().get(&file) {
        Some(volume) => match volume.emptied {
            Some(day) => day.number() <= today.number(),
            None => true,
        },
        None => true,
    }
}

/// Whether the volume may be reused, `FILE DAY`, where it was not emptied on a later day.
pub fn may(pools: &Pools, words: &[&str]) -> Result<Answer, Fault> {
    let [file, today] = words else {
        return Err(Fault::NoCommand);
    };
    let file = number(file)?;
    let today = day(today)?;
    if !is_past(pools, file, today) {
        return Ok(Answer::Unmet);
    }
    pools.may_reuse(file, today)?;
    Ok(Answer::Is(true))
}

/// Reuses the volume, `FILE DAY`, where it was not emptied on a later day.
pub fn reuse(pools: &mut Pools, words: &[&str]) -> Result<Answer, Fault> {
    let [file, today] = words else {
        return Err(Fault::NoCommand);
    };
    let file = number(file)?;
    let today = day(today)?;
    if !is_past(pools, file, today) {
        return Ok(Answer::Unmet);
    }
    pools.reuse(file, today)?;
    Ok(Answer::Done)
}
