//! Reads a script of small commands on one store in memory and a vault of a calendar over it, and prints a line for each. A
//! comment, which begins with `#`, is printed as it stands.
//!
//! - `new`: an empty store, and no vault is open.
//! - `format`, and `long`, which formats with a memo of 200,000 bytes; `open`, `checkpoint`; a number: a transaction that brings that
//!   day, and a force; `+` and a number: a transaction that waits for a force, and `force`; `begin`, which begins a checkpoint, and
//!   `next`, which takes a step of it; and `install`: the open vault's calendar is installed in its own store.
//! - `stop CHOICE`: the machine stops and starts again. `fail MOMENT..`: the calls that begin then fail.
//! - `write FILE OFFSET HEX`: these bytes are written and made durable; `cut FILE LENGTH`; `show FILE`: the bytes; `moment`.
//! - `chain FILE`: the calendar that the database backup in the file gives.
//! - `stops CHOICE STEP..`: the steps over an empty store, once for each moment: the call that begins then fails, and there the machine
//!   stops. One sign for each: the number of the last transaction that is then recovered, or `-` where the store isn't formatted,
//!   and `!` where the memo is another. The last sign is that of the run in which no call failed.
//! - `again CHOICE STEP..`: the same, and then the machine stops once more at each call of the opening. `!` where a later opening
//!   recovers anything else.
//! - `faults STEP..`: the steps over an empty store, once for each moment at which the call fails: the file that the refusal
//!   names, and `!` where it is another refusal, or where the vault then takes a transaction, or answers otherwise.
//! - `here` in front of one of these three: the same, over copies of the store, all of which is on the disk, in place of an empty one.
//!
//! The stored output was written by hand, from the order of the device calls.
#![tactic(auto)]

mod answer;
mod run;
mod steps;
mod sweeps;
mod words;

use run::Run;
use std::io;
use std::io::{BufWriter, Write};

/// Puts what the line is answered.
fn answer_line<W: Write>(run: &mut Run, line: &str, out: &mut W) -> io::Result<()> {
    let text = run.line(line)?;
    out.write_all(text.as_bytes())?;
    out.write_all(b"\n")
}

/// Puts what each line is answered.
fn answer_all(rt: &HostRuntime, run: &mut Run) -> io::Result<()> {
    let alloc = rt.alloc();
    let mut out = BufWriter::new(alloc, io::writer(rt))?;
    for line in rt.lines(alloc) {
        let line = line?;
        answer_line(run, line.as_str(), &mut out)?;
    }
    out.flush()
}

fn main(rt: HostRuntime) -> io::Result<()> {
    let mut run = Run::new(rt.alloc());
    let answered = answer_all(&rt, &mut run);
    drop(run);
    answered
}
