//! Reads a script of small commands on stores, on what lies in them and on streams, and prints a line for each. A comment, which
//! begins with `#`, is printed as it stands.
//!
//! Bytes are given by words, one behind the other: hexadecimal digits; with `*N` behind them N times the same; `0..N`: N bytes, each
//! the last byte of its place's number. Printed are hexadecimal digits, or `-` for none. `failed` says that a call failed.
//!
//! - `new`: an empty store in memory. The calls on it: `len FILE`; `read FILE OFFSET COUNT`, which is given a buffer of COUNT bytes
//!   that are 9, and prints how many were read and the whole buffer; `write FILE OFFSET BYTES..`; `cut FILE LENGTH`; `sync FILE`.
//!   And `moment`, `faults FILE`, and `show FILE`: the file's bytes.
//! - `fail MOMENT..`: the calls that begin then fail. `stop CHOICE`: the machine stops and starts again.
//! - `within read`, `within write`, `within sync`: the steps that make one such call, and `within synced FILE OFFSET BYTES..` both.
//! - `first open FOLDER`: a store in that folder; `first close`; and the calls on it, as `first len FILE`. `second`: another one.
//! - `folder new MOST CALL..`: a store over the files of an empty folder in memory, which write and read at most so many bytes a call,
//!   and whose calls with these numbers fail, counted from 0; and the calls on it, as `folder len FILE`. `folder stop CHOICE`: the
//!   machine stops and starts again, and no call of the files fails any more. `folder again MOST CALL..`: a store whose calls fail that
//!   have these numbers behind the first stop, counted from 0 again.
//! - `files new CALL..`: the files of an empty folder in memory, which was entered, and of which the calls with these numbers fail,
//!   counted from 0, and a renaming or a removal whose number stands there twice is done all the same. `files make NAME BYTES..`: a
//!   file is made and the bytes are put into it by one call each, and it is printed how many were; `files sync NAME`, `files show NAME`,
//!   two calls each, and 16 bytes at most; `files list`, the names in ascending order; `files rename FROM TO`; `files remove NAME`:
//!   whether there was one; `files settle`: the names are synced. `files stop CHOICE`: the machine stops and starts again, and the
//!   folder is entered again.
//! - `real enter`: the folder `named` of the system is made, where it is missing, and entered; and the same calls on its files.
//! - `log create FILE`, `log frame BYTES..`: how many bytes a record takes, `log append BYTES..`, `log force`, `log end`; `log start
//!   FILE`: its end and how many records were read; `log record PLACE`: such a record, counted from 0; `log same PLACE BYTES..`:
//!   whether it has these bytes.
//! - `image begin FILE KIND NUMBER BYTES..` with `server` or `backup` as KIND, `image next`: a step of writing, `image phase`; `image
//!   read FILE KIND`, `shut` where no open gate is there; `image same FILE KIND NUMBER BYTES..`: whether the image has them.
//! - `stops CHOICE`: an image with the number 4 is written to file 0 of an empty store, and one with 6 over it, once for each moment:
//!   the call that begins then fails, and there the machine stops. One sign for each: the number of the image that is then read with
//!   its payload, `-` where the gate is shut, `!` for all else. The last sign is that of the run in which no call failed.
//! - `frame header OBJECT NUMBER LEN`: the header's bytes; `frame named BYTES..`: what a header says; `frame data OFFSET LEN`: where
//!   the data of a segment begins; `frame is OBJECT NUMBER OFFSET LEN BYTES..`: whether the segment's frame stands in these bytes.
//! - `source new MOST PIECE CALL..`: a source in memory that gives at most so many bytes a call, and whose calls with these numbers
//!   fail; `source take COUNT`, as `read`; `source faults`. `sink new MOST CALL..`, `sink put BYTES..`, `sink faults`, `sink show`.
//! - `stream create PATH BYTES..`: the file is made, and the bytes are put once into a sink over it; `stream unwritable PATH BYTES..`:
//!   the same where it is open for reading alone; `stream unread BYTES..`: into a pipe that nobody reads. Printed are how many bytes
//!   were taken, and the sink's faults. `stream take PATH COUNT..`: pieces from a source over the file.
//! - `client new CALL..`: the files of a client in memory, of which the calls with these numbers fail, counted from 0; `client list`: each
//!   file's path, how many bytes it has, and its time; `client read PATH OFFSET COUNT`, as above; `client create PATH`; `client append
//!   PATH BYTES..`; `client finish PATH TIME`; `client remove PATH`; `client faults`. And the same calls on the files of a client in the
//!   folder `tree`, as `tree list`.
//! - `system make PATH`: a folder; `system link TO PATH`; `system remove PATH`: a file or a link; `system clear PATH`: a folder with all
//!   in it, where it is there; `system size PATH`: how many bytes a file has.
//!
//! The folders are made where the program is run. The stored output was written by hand, from the rules of each.
#![tactic(auto)]

mod answer;
mod calls;
mod ends;
mod folder;
mod frame;
mod image;
mod logs;
mod mem_folder;
mod memory;
mod names;
mod run;
mod stops;
mod streams;
mod system;
mod trees;
mod within;
mod words;

use run::Run;
use std::io;
use std::io::{BufWriter, Write};

/// Puts what the line is answered.
fn answer_line<W: Write>(run: &mut Run, line: &str, out: &mut W) -> io::Result<()> {
    let text = run.line(line)?;
    out.write_all(text.as_bytes())?;
    out.write_all(b"\n")
}

/// Puts what each line is answered.
fn answer_all(rt: &HostRuntime, run: &mut Run) -> io::Result<()> {
    let alloc = rt.alloc();
    let mut out = BufWriter::new(alloc, io::writer(rt))?;
    for line in rt.lines(alloc) {
        let line = line?;
        answer_line(run, line.as_str(), &mut out)?;
    }
    out.flush()
}

fn main(rt: HostRuntime) -> io::Result<()> {
    let mut run = Run::new(rt);
    let answered = answer_all(&rt, &mut run);
    drop(run);
    answered
}
