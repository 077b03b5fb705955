//! Fields that are read one after the other: `u8`, `u16`, `u32` and `u64`, a `text`, a `digest`, and `two` bytes; `rest` is all that
//! is left, and `end` says whether nothing is. A field for which too few bytes are left is told by the place where it begins.
//! But for the two bytes, what was read is written again, one value behind the other.
use crate::digits::{bytes_of, show_digits, show_text};
use fields::{Reader, Short, put_digest, put_text, put_u8, put_u16, put_u32, put_u64};
use kinds::Refusal;
use std::alloc::{AllocError, Global};

fn show_number(out: &mut String, number: u64) -> Result<(), AllocError> {
    write!(out, "{number}")
}

fn show_short(out: &mut String, short: Short) -> Result<(), Refusal> {
    let place = short.0;
    write!(out, "short at {place}")?;
    Ok(())
}

fn take_u8(reader: &mut Reader, put: &mut Vec<u8>, out: &mut String) -> Result<(), Refusal> {
    match reader.u8() {
        Ok(number) => {
            show_number(out, u64::from(number))?;
            Ok(put_u8(put, number)?)
        }
        Err(short) => show_short(out, short),
    }
}

fn take_u16(reader: &mut Reader, put: &mut Vec<u8>, out: &mut String) -> Result<(), Refusal> {
    match reader.u16() {
        Ok(number) => {
            show_number(out, u64::from(number))?;
            Ok(put_u16(put, number)?)
        }
        Err(short) => show_short(out, short),
    }
}

fn take_u32(reader: &mut Reader, put: &mut Vec<u8>, out: &mut String) -> Result<(), Refusal> {
    match reader.u32() {
        Ok(number) => {
            show_number(out, u64::from(number))?;
            Ok(put_u32(put, number)?)
        }
        Err(short) => show_short(out, short),
    }
}

fn take_u64(reader: &mut Reader, put: &mut Vec<u8>, out: &mut String) -> Result<(), Refusal> {
    match reader.u64() {
        Ok(number) => {
            show_number(out, number)?;
            Ok(put_u64(put, number)?)
        }
        Err(short) => show_short(out, short),
    }
}

fn take_text(reader: &mut Reader, put: &mut Vec<u8>, out: &mut String) -> Result<(), Refusal> {
    match reader.text() {
        Ok(text) => {
            show_text(out, text)?;
            Ok(put_text(put, text)?)
        }
        Err(short) => show_short(out, short),
    }
}

fn take_digest(reader: &mut Reader, put: &mut Vec<u8>, out: &mut String) -> Result<(), Refusal> {
    match reader.digest() {
        Ok(digest) => {
            show_digits(out, digest.as_slice())?;
            Ok(put_digest(put, &digest)?)
        }
        Err(short) => show_short(out, short),
    }
}

fn take_two(reader: &mut Reader, out: &mut String) -> Result<(), Refusal> {
    match reader.bytes(2) {
        Ok(bytes) => Ok(show_digits(out, bytes)?),
        Err(short) => show_short(out, short),
    }
}

fn show_end(reader: &Reader, out: &mut String) -> Result<(), Refusal> {
    out.push_str(if reader.at_end() { "end" } else { "more" })?;
    Ok(())
}

/// Shows what is read as this field, and writes it again.
fn take_field(
    field: &str,
    reader: &mut Reader,
    put: &mut Vec<u8>,
    out: &mut String,
) -> Result<(), Refusal> {
    match field {
        "u8" => take_u8(reader, put, out),
        "u16" => take_u16(reader, put, out),
        "u32" => take_u32(reader, put, out),
        "u64" => take_u64(reader, put, out),
        "text" => take_text(reader, put, out),
        "digest" => take_digest(reader, put, out),
        "two" => take_two(reader, out),
        "rest" => Ok(show_digits(out, reader.rest())?),
        "end" => show_end(reader, out),
        _ => Ok(out.push_str("no field")?),
    }
}

/// The fields that the bytes begin with, and the bytes that are written for them.
fn read(alloc: Global, names: &str, bytes: &[u8]) -> Result<String, Refusal> {
    let mut reader = Reader::new(bytes);
    let mut put = Vec::new(alloc);
    let mut out = String::new(alloc);
    for name in names.split(' ') {
        take_field(name, &mut reader, &mut put, &mut out)?;
        out.push_str(", ")?;
    }
    out.push_str("written ")?;
    show_digits(&mut out, put.as_slice())?;
    Ok(out)
}

/// The names of fields, and behind `of` the bytes that they are read from.
pub fn line(alloc: Global, rest: &str) -> Result<Option<String>, Refusal> {
    let Some((names, digits)) = rest.split_once(" of ") else {
        return Ok(None);
    };
    match bytes_of(alloc, digits) {
        Some(bytes) => Ok(Some(read(alloc, names, bytes.as_slice())?)),
        None => Ok(None),
    }
}
