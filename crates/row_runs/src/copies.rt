//! Copies of versions, as lines ask for them.
use crate::answer::{Answer, Fault};
use crate::words::{large, number};
use kinds::{Refusal, Segment, Segments};
use object_rows::Objects;
use std::alloc::Global;
use version_groups::CopyRow;

/// A copy of one segment of five bytes.
fn copy(alloc: Global, pool: u32, placed: u64) -> Result<CopyRow, Refusal> {
    let segments = vec![in alloc;
        Segment {
            file: 4,
            offset: 0,
            len: 5
        },
    ]?;
    Ok(CopyRow {
        pool,
        placed,
        segments: Segments::new(segments),
    })
}

/// Adds a copy in a pool where the object has none.
fn add_copy(objects: &mut Objects, object: u64, copy: CopyRow) -> Result<Answer, Fault> {
    if objects.has_copy(object, copy.pool) {
        return Ok(Answer::Unmet);
    }
    objects.add_copy(object, copy)?;
    Ok(Answer::Done)
}

/// `OBJECT POOL PLACED`.
pub fn add(alloc: Global, objects: &mut Objects, words: &[&str]) -> Result<Answer, Fault> {
    let [object, pool, placed] = words else {
        return Err(Fault::NoCommand);
    };
    let object = large(object)?;
    let copy = copy(alloc, number(pool)?, large(placed)?)?;
    add_copy(objects, object, copy)
}

/// Replaces the copy of the object in the pool `from` by one in a pool where the object has no other.
fn replace_copy(
    objects: &mut Objects,
    object: u64,
    from: u32,
    copy: CopyRow,
) -> Result<Answer, Fault> {
    if objects.has_other_copy(object, from, copy.pool) {
        return Ok(Answer::Unmet);
    }
    objects.replace_copy(object, from, copy)?;
    Ok(Answer::Done)
}

/// `OBJECT FROM POOL PLACED`.
pub fn replace(alloc: Global, objects: &mut Objects, words: &[&str]) -> Result<Answer, Fault> {
    let [object, from, pool, placed] = words else {
        return Err(Fault::NoCommand);
    };
    let object = large(object)?;
    let from = number(from)?;
    let copy = copy(alloc, number(pool)?, large(placed)?)?;
    replace_copy(objects, object, from, copy)
}

/// `OBJECT POOL`.
pub fn drop_copy(objects: &mut Objects, words: &[&str]) -> Result<Answer, Fault> {
    let [object, pool] = words else {
        return Err(Fault::NoCommand);
    };
    objects.drop_copy(large(object)?, number(pool)?)?;
    Ok(Answer::Done)
}
