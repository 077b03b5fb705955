//! Texts of lines, and numbers and refusals as they are shown.
use crate::commands::refusal_text;
use kinds::Refusal;
use std::alloc::{AllocError, Global};

/// The front of a line up to its first space, and what stands behind that.
pub fn parted(line: &[u8]) -> (&[u8], &[u8]) {
    match line.iter().position(|byte| *byte == b' ') {
        Some(at) => (&line[..at], &line[at + 1..]),
        None => (line, b""),
    }
}

fn digit(byte: u8) -> u8 {
    match byte {
        b'0'..=b'9' => byte - b'0',
        b'a'..=b'f' => byte - b'a' + 10,
        _ => 0,
    }
}

/// The byte that is meant by these behind a backslash, and how many they are.
fn meant(rest: &[u8]) -> (u8, usize) {
    match rest {
        [b'n', ..] => (b'\n', 1),
        [b'r', ..] => (b'\r', 1),
        [b't', ..] => (b'\t', 1),
        [b'x', high, low, ..] => (digit(*high) << 4 | digit(*low), 3),
        _ => (b'\\', 0),
    }
}

/// The bytes that a text stands for.
pub fn plain(alloc: Global, text: &[u8]) -> Result<Vec<u8>, AllocError> {
    let mut out = Vec::new(alloc);
    let mut left_out = 0;
    for (at, byte) in text.iter().enumerate() {
        if left_out > 0 {
            left_out -= 1;
        } else if *byte == b'\\' {
            let (next, count) = meant(&text[at + 1..]);
            out.push(next)?;
            left_out = count;
        } else {
            out.push(*byte)?;
        }
    }
    Ok(out)
}

pub fn show_number(alloc: Global, out: &mut Vec<u8>, number: usize) -> Result<(), AllocError> {
    let digits = format!(in alloc; "{number}")?;
    out.extend_from_slice(digits.as_bytes())
}

pub fn refused(alloc: Global, refusal: &Refusal) -> Result<Vec<u8>, AllocError> {
    Vec::from_slice(alloc, refusal_text(alloc, refusal)?.as_bytes())
}
