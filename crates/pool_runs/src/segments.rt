//! Segments on volumes, as lines spell them.
use crate::answer::{Answer, Fault};
use crate::words::{day, day_or_none, large, number};
use kinds::Segment;
use pool_rows::Pools;
use volume_rows::HeldSegment;

/// A segment, and the object to which it belongs.
struct Piece {
    object: u64,
    segment: Segment,
}

/// `OBJECT FILE OFFSET LEN`.
fn read_piece(words: &[&str]) -> Result<Piece, Fault> {
    let [object, file, offset, len] = words else {
        return Err(Fault::NoCommand);
    };
    let segment = Segment {
        file: number(file)?,
        offset: large(offset)?,
        len: large(len)?,
    };
    Ok(Piece {
        object: large(object)?,
        segment,
    })
}

/// A segment of so many bytes.
fn of_length(words: &[&str]) -> Result<HeldSegment, Fault> {
    let [len] = words else {
        return Err(Fault::NoCommand);
    };
    let segment = Segment {
        file: 4,
        offset: 0,
        len: large(len)?,
    };
    Ok(HeldSegment::new(1, &segment))
}

fn told(number: u128) -> Result<Answer, Fault> {
    let number = u64::try_from(number).ok().ok_or(Fault::NoCommand)?;
    Ok(Answer::Number(number))
}

/// How many blocks the frame of a segment of so many bytes uses.
pub fn blocks(words: &[&str]) -> Result<Answer, Fault> {
    told(of_length(words)?.blocks())
}

/// How many bytes the frame of a segment of so many bytes has.
pub fn bytes(words: &[&str]) -> Result<Answer, Fault> {
    told(of_length(words)?.frame_bytes())
}

/// Whether the segment ends within its volume's capacity.
pub fn fits(pools: &Pools, words: &[&str]) -> Result<Answer, Fault> {
    let Piece { object, segment } = read_piece(words)?;
    Ok(Answer::Is(pools.fits(object, &segment)))
}

/// Whether the segment stands on its volume.
pub fn holds(pools: &Pools, words: &[&str]) -> Result<Answer, Fault> {
    let Piece { object, segment } = read_piece(words)?;
    Ok(Answer::Is(pools.holds(object, &segment)))
}

/// Puts a segment on its volume, where it fits.
pub fn put(pools: &mut Pools, words: &[&str]) -> Result<Answer, Fault> {
    let Piece { object, segment } = read_piece(words)?;
    if !pools.fits(object, &segment) {
        return Ok(Answer::Unmet);
    }
    pools.put_segment(object, &segment)?;
    Ok(Answer::Done)
}

/// Takes a segment from its volume on the day that is the last word.
pub fn take(pools: &mut Pools, words: &[&str]) -> Result<Answer, Fault> {
    let [words @ .., today] = words else {
        return Err(Fault::NoCommand);
    };
    let Piece { object, segment } = read_piece(words)?;
    pools.take_segment(object, &segment, day(today)?)?;
    Ok(Answer::Done)
}

/// Undoes a segment that stands on its volume; the last two words are the volume's former end, and the day on which it was
/// emptied or `none`.
pub fn undo(pools: &mut Pools, words: &[&str]) -> Result<Answer, Fault> {
    let [words @ .., end, emptied] = words else {
        return Err(Fault::NoCommand);
    };
    let Piece { object, segment } = read_piece(words)?;
    let end = large(end)?;
    let emptied = day_or_none(emptied)?;
    if !pools.holds(object, &segment) {
        return Ok(Answer::Unmet);
    }
    pools.undo_segment(object, &segment, end, emptied);
    Ok(Answer::Done)
}
