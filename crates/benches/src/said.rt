//! What the program prints: a line as soon as it is so far.
use crate::fault::Fault;
use std::alloc::Global;
use std::io::Write;

/// Prints a word.
pub fn say<W: Write>(out: &mut W, line: &[u8]) -> Result<(), Fault> {
    out.write_all(line).ok().ok_or(Fault::NotPrinted)
}

/// Prints how many there are.
pub fn say_count<W: Write>(alloc: Global, out: &mut W, count: u64) -> Result<(), Fault> {
    let line = format!(in alloc; "{count}\n")?;
    say(out, line.as_bytes())
}
