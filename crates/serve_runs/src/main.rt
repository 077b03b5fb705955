//! Reads a script of small commands on one store in memory, and prints what the calls of the server over it put. A comment, which begins
//! with `#`, is printed as it stands.
//!
//! - `| TEXT`: a line of the server's script, with its LF; `% TEXT`: the same without one; `text HEX`: the bytes that the digits spell; `long N`: a
//!   line of N letters; `letters N`: the same without LF; `empty N`: N lines without a byte; `days N`: N lines `DAY 1`.
//! - `do WORD..`: the server is called with these words and that script, which is empty again then. Printed are what it put, its status, how
//!   many transactions it made, of how many it says when they were durable, and the newest image's generation; or, where it opened no
//!   database, how many bytes of the script it didn't read. `last WORD..`: the same with the last line alone of what it put. `any N WORD..`: the call, where it is open which of the first N
//!   objects has which of their numbers: `1..N` stands for each that is one of these, and any other number stands as it is. `held N WORD..`: the same, where N actors of the script's blocks are held before their second step, each up to 2^30 turns, until all of them have come there; and at the end whether they had, which they can only where
//!   they run side by side, or one was held to its limit.
//! - `source N CALL..`, `sink N CALL..`: in the next call standard input gives, or standard output takes, at most N bytes at a time, and those
//!   calls fail; of `sink 0` it takes none. The server reads and writes them as the program does, by `StdSource` and `StdSink`.
//! - `new`: an empty store. `stop CHOICE`: the machine stops and starts again. `fail MOMENT..`: the calls that begin then fail.
//! - `write FILE OFFSET HEX`: these bytes are written and made durable; `show FILE`; `moment`; `faults FILE`: how often calls on it failed.
//! - `trees N`: the clients have N empty trees in memory, in place of those that they had; `put TREE PATH TIME HEX`: a file with these bytes, by three calls; `tree TREE PATH`: the file's time and
//!   its bytes, `-` where there is none; `break TREE CALL..`: these calls of a tree fail, counted from its first, and no others. `& TEXT`: a line of the next call's include-exclude list.
//! - `blank MOMENT HEX WORD..`: the server is called over another store, which keeps nothing and whose files always read as these bytes.
//! - `stops CHOICE`: the script is run by `fresh` over an empty store, once for each moment: all calls fail from then on, and there the machine
//!   stops. Then `run` follows with no script, and another with a GET of each file. Two rows, with a sign for each moment: how many files the first call said
//!   that it stored, and how many the last one shows with their bytes, `-` where the store isn't formatted. Each file of the script has a path of its own.
//! - `again CHOICE`: the second row, where the machine stops once more, at each call of the opening that follows; `!` where that changes it.
//! - `opens CHOICE`: over copies of the store, all of which is on the disk, `run` is called with no script, once for each moment: all calls fail
//!   from then on, and there the machine stops. Then `run` follows with the script. One row, with a sign for each moment: `=` where that run prints
//!   what `do run` would over a copy that was never opened, also where the machine stops once more, at each call of the opening; else `!`. The
//!   last sign is that of the first run in which no call fails.
//! - `faults`: the script is run by `fresh`, once for each moment at which the one call fails. Three rows: the status, the first of the files with
//!   faults, and how many faults there are.
//! - `restore stops CHOICE WORD..`: over copies of the store, all of which is on the disk, the server is called with these words, once for each moment: all calls fail
//!   from then on, and there the machine stops. Then `run` follows with the script. One row, with a sign for each moment: `=` where that run prints what it would over the store as it was, `+`
//!   where it prints what it would behind the same words with no call that fails, else `!`. The last sign is that of the first in which no call fails.
//! - `restore faults WORD..`: the same without a stop, once for each moment at which the one call fails. Three rows: the status, the first of the files with faults, and the sign.
//! - `folder stops CHOICE`, `folder again CHOICE`, `folder opens CHOICE`, `folder faults`: the same over a store in a folder in memory, for each
//!   call of the folder's files.
//! - `echo`: the script is run over an answerer that gives each line back; of the line `two` it gives two, it refuses `no`, of `bad` it counts a
//!   failed file, with `full` it ends the run, and an empty line is a comment. At `ask` it asks, and the line is answered as `asked`; behind `open` it asks at the script's end, which is answered as the line `end`. Printed are what was put, with `\r` for CR, and the status. `pieces`:
//!   the same, where the streams move 1, 2, 5 and 100,000 bytes at a time, if it is the same for each. `sinks`: the status for each call of a sink
//!   that fails, where it takes a byte at a time and took all bytes before that call.
//!
//! The stored output was written by hand, from the order of the device calls and the rules of scripts.
#![tactic(auto)]

mod answer;
mod bench;
mod blank;
mod call;
mod devices;
mod echo;
mod files;
mod folders;
mod gates;
mod recovering;
mod run;
mod sweeps;
mod trees;
mod trials;

use run::Run;
use std::io;
use std::io::{BufWriter, Write};
use std::sync::Wait;
use std::thread::Threads;

/// Puts what the line is answered; nothing for a line of the server's script.
fn answer_line<R: Threads + Wait + Sync, W: Write>(
    run: &mut Run<'_, R>,
    line: &str,
    out: &mut W,
) -> io::Result<()> {
    match run.line(line)? {
        Some(text) => {
            out.write_all(text.as_bytes())?;
            out.write_all(b"\n")
        }
        None => Ok(()),
    }
}

/// Puts what each line is answered.
fn answer_all<R: Threads + Wait + Sync>(rt: &HostRuntime, run: &mut Run<'_, R>) -> io::Result<()> {
    let alloc = rt.alloc();
    let mut out = BufWriter::new(alloc, io::writer(rt))?;
    for line in rt.lines(alloc) {
        let line = line?;
        answer_line(run, line.as_str(), &mut out)?;
    }
    out.flush()
}

fn main(rt: HostRuntime) -> io::Result<()> {
    let mut run = Run::new(&rt, rt.alloc());
    answer_all(&rt, &mut run)
}
