//! Words of a row.
use kinds::{Digest, Name};
use std::alloc::AllocError;

/// The bytes, each as the character with its number.
pub fn put_bytes(out: &mut String, bytes: &[u8]) -> Result<(), AllocError> {
    for byte in bytes {
        out.push(char::from(*byte))?;
    }
    Ok(())
}

/// A space, a word and a name, or `-` where there is none.
pub fn put_name(out: &mut String, word: &str, name: &Option<Name>) -> Result<(), AllocError> {
    out.push_str(word)?;
    match name {
        Some(name) => put_bytes(out, name.as_bytes()),
        None => out.push('-'),
    }
}

/// A word and a number, or `-` where there is none.
pub fn put_number(out: &mut String, word: &str, number: Option<u64>) -> Result<(), AllocError> {
    match number {
        Some(number) => write!(out, "{word}{number}"),
        None => write!(out, "{word}-"),
    }
}

/// A number as one of more bits, where there is one.
pub fn wider(number: Option<u32>) -> Option<u64> {
    match number {
        Some(number) => Some(u64::from(number)),
        None => None,
    }
}

/// A digest in hexadecimal digits.
pub fn put_digest(out: &mut String, digest: &Digest) -> Result<(), AllocError> {
    out.push_str(" digest=")?;
    for byte in digest.0 {
        write!(out, "{byte:02x}")?;
    }
    Ok(())
}

/// A row of an answer.
pub trait Row: Drop {
    /// Puts the row's words.
    fn put(&self, out: &mut String) -> Result<(), AllocError>;
}
