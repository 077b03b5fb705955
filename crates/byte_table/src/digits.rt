//! Bytes as a line writes them, and as they are shown.
use std::alloc::{AllocError, Global};

/// The bytes that the words of hexadecimal digits stand for; none where a word is no such word.
pub fn bytes_of(alloc: Global, text: &str) -> Option<Vec<u8>> {
    let mut bytes = Vec::new(alloc);
    for word in text.split(' ') {
        add_word(alloc, &mut bytes, word)?;
    }
    Some(bytes)
}

/// Adds the piece so many times.
fn add_times(bytes: &mut Vec<u8>, piece: &[u8], times: u32) -> Option<()> {
    match piece {
        [byte] => {
            let len = bytes.len().checked_add(times as usize)?;
            bytes.resize(len, *byte).ok()
        }
        _ => {
            for _ in 0..times {
                bytes.extend_from_slice(piece).ok()?;
            }
            Some(())
        }
    }
}

/// Adds the bytes of a word, so many times as it says.
fn add_word(alloc: Global, bytes: &mut Vec<u8>, word: &str) -> Option<()> {
    let (digits, times) = word.split_once('*').unwrap_or((word, "1"));
    let piece = hex::decode(alloc, digits).ok()?;
    add_times(bytes, piece.as_slice(), times.parse::<u32>().ok()?)
}

/// A byte outside printable ASCII as `%` and two hexadecimal digits.
fn show_byte(out: &mut String, byte: u8) -> Result<(), AllocError> {
    if (0x21..0x7f).contains(&byte) {
        out.push(char::from(byte))?;
        Ok(())
    } else {
        write!(out, "%{byte:02x}")
    }
}

/// The bytes of a name, a path or a text.
pub fn show_text(out: &mut String, bytes: &[u8]) -> Result<(), AllocError> {
    for byte in bytes {
        show_byte(out, *byte)?;
    }
    Ok(())
}

/// The bytes in hexadecimal digits.
pub fn show_digits(out: &mut String, bytes: &[u8]) -> Result<(), AllocError> {
    for byte in bytes {
        write!(out, "{byte:02x}")?;
    }
    Ok(())
}
