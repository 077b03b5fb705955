//! Reads and sorts many paths, as `Path`s or as plain vectors of bytes, so that the two can be timed against each other.
//! It prints how many there are, the first and the last.

use kinds::Path;
use std::alloc::Global;
use std::{io, str};

/// How many paths are read where no number is given.
pub(crate) const USUAL_COUNT: u32 = 4096;

/// What is read and sorted.
trait Key: Ord + Drop {
    fn read(alloc: Global, bytes: &[u8]) -> Option<Self>;

    fn bytes(&self) -> &[u8];
}

impl Key for Path {
    fn read(alloc: Global, bytes: &[u8]) -> Option<Self> {
        Path::read(alloc, bytes).ok()
    }

    fn bytes(&self) -> &[u8] {
        self.as_bytes()
    }
}

impl Key for Vec<u8> {
    fn read(alloc: Global, bytes: &[u8]) -> Option<Self> {
        Vec::from_slice(alloc, bytes).ok()
    }

    fn bytes(&self) -> &[u8] {
        self.as_slice()
    }
}

/// A path of 40 bytes: a slash and 39 hexadecimal digits that this number scatters.
pub(crate) fn spell(number: u32) -> [u8; 40] {
    let digits = b"0123456789abcdef";
    let mut rest = (number as u64).wrapping_mul(0x9e37_79b9_7f4a_7c15);
    let mut text = [b'/'; 40];
    for at in 1..40 {
        rest = rest.rotate_left(4);
        text[at] = digits[(rest % 16) as usize];
    }
    text
}

/// So many keys in ascending order; none for want of memory.
fn sorted<K: Key>(alloc: Global, count: u32) -> Option<Vec<K>> {
    let mut keys = Vec::new(alloc);
    for number in 0..count {
        keys.push(K::read(alloc, spell(number).as_slice())?).ok()?;
    }
    keys.sort().ok()?;
    Some(keys)
}

fn text<K: Key>(key: Option<&K>) -> &str {
    key.map_or("", |key| str::from_utf8(key.bytes()).unwrap_or(""))
}

fn report_as<K: Key>(rt: &impl Print, alloc: Global, count: u32) -> io::Result<()> {
    match sorted::<K>(alloc, count) {
        Some(keys) => println!(rt;
            "{} {} {}",
            keys.len(),
            text(keys.first()),
            text(keys.last())
        ),
        None => println!(rt; "want of memory"),
    }
}

/// Reads and sorts so many keys, plain bytes where the kind is `bytes`.
pub(crate) fn report(rt: &impl Print, alloc: Global, kind: &str, count: u32) -> io::Result<()> {
    match kind {
        "bytes" => report_as::<Vec<u8>>(rt, alloc, count),
        _ => report_as::<Path>(rt, alloc, count),
    }
}
