//! The frames of segments.
use crate::answer::{Fault, bytes_text, number_text, truth_text, word_text};
use crate::words::{bytes, large, number};
use kinds::Segment;
use std::alloc::Global;
use volume_frames::{data_place, frame_header, is_framed_at, read_header};

/// The greatest place of which the place 32 bytes further on is a number.
const LAST: u64 = u64::MAX - 32;

/// A segment, which lies on the volume 4.
fn segment(offset: &str, len: &str) -> Result<Segment, Fault> {
    Ok(Segment {
        file: 4,
        offset: large(offset)?,
        len: large(len)?,
    })
}

fn header(alloc: Global, object: &str, place: &str, len: &str) -> Result<String, Fault> {
    let header = frame_header(large(object)?, number(place)?, large(len)?);
    bytes_text(alloc, header.as_slice())
}

/// What the header says.
fn named(alloc: Global, pieces: &[&str]) -> Result<String, Fault> {
    let bytes = bytes(alloc, pieces)?;
    if bytes.len() != 32 {
        return Err(Fault::NoCommand);
    }
    let mut header = [0u8; 32];
    header.copy_from_slice(&bytes);
    match read_header(&header) {
        Some((object, number, len)) => {
            Ok(format!(in alloc; "object {object}, number {number}, {len} bytes")?)
        }
        None => word_text(alloc, "no header"),
    }
}

fn data(alloc: Global, offset: &str, len: &str) -> Result<String, Fault> {
    let segment = segment(offset, len)?;
    if segment.offset > LAST {
        return Err(Fault::NoCommand);
    }
    number_text(alloc, data_place(&segment))
}

/// Whether the bytes have the frame.
fn framed(
    alloc: Global,
    object: &str,
    place: &str,
    offset: &str,
    len: &str,
    pieces: &[&str],
) -> Result<String, Fault> {
    let file = bytes(alloc, pieces)?;
    let segment = segment(offset, len)?;
    let is_there = is_framed_at(&file, large(object)?, number(place)?, &segment);
    truth_text(alloc, is_there)
}

/// What a line about frames is answered.
pub fn answer(alloc: Global, words: &[&str]) -> Result<String, Fault> {
    match words {
        ["header", object, place, len] => header(alloc, object, place, len),
        ["named", pieces @ ..] => named(alloc, pieces),
        ["data", offset, len] => data(alloc, offset, len),
        ["is", object, place, offset, len, pieces @ ..] => {
            framed(alloc, object, place, offset, len, pieces)
        }
        _ => Err(Fault::NoCommand),
    }
}
