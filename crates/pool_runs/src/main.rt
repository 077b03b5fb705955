//! Reads a script of small commands, each a call on one value of `Pools`, of `Extents` or of `Space`, and prints a line for each: what the call answers, or
//! its refusal, and `changed` where the rows of classes, pools and volumes are no longer those of before. `unmet` says that what
//! the call requires doesn't hold, and that it was not made. A comment, which begins with `#`, is printed as it stands.
//!
//! - `new`: the value becomes `fresh`; `copy` puts a copy aside, and `swap` changes places with it.
//! - `class VERB CLASS BYTES`, `pool VERB NUMBER POOL CLASS KIND SETTING..` with settings as `next=3`, and
//!   `volume VERB FILE VOLUME POOL BYTES ACCESS`: `change`, where `is_free`.
//! - `put OBJECT FILE OFFSET LEN`: `put_segment`, where it `fits`; `take OBJECT FILE OFFSET LEN DAY`: `take_segment`; `undo OBJECT
//!   FILE OFFSET LEN END DAY`, or `none` for the day: `undo_segment`, where it `holds`. `fits` and `holds` are commands too.
//! - `scratch POOL FILE`: `add_scratch`, where no volume has the number; `bare FILE`: `is_bare_scratch`; `drop FILE`:
//!   `drop_scratch`, where it is bare.
//! - `may FILE DAY` and `reuse FILE DAY`: `may_reuse` and `reuse`, where the volume was not emptied on a later day.
//! - `status FILE` and `reclaimable FILE THRESHOLD`, where the volume is there.
//! - `atleast POOL PERCENT` and `atmost POOL PERCENT`; `named pool NAME`, `named volume NAME`; `capacity class CLASS`,
//!   `capacity pool NUMBER`; `sequential pool NUMBER`, `sequential volume FILE`.
//! - `parts ROW..` with rows as `pool=2:A`, `scratch=7:SCR00000007`, `volume=8:T1` and `written=9:T2`, a volume that was written to its
//!   end and emptied on day 3, and `again` with the rows that are there: `from_parts`; `none` where it makes no value of them, and then
//!   the old one stays.
//! - `blocks LEN` and `bytes LEN`: of the frame of a segment of so many bytes.
//! - `extents new BLOCKS`: a random-access volume of so many blocks; `extents room`: `room`; `extents take BYTES`: the runs that `take` takes, as
//!   `3+2` for the blocks 3 and 4, or `none`; `extents used FIRST BLOCKS`: `are_used`; `extents give FIRST BLOCKS`: `give`, where they are used.
//! - `space new NEXT`: no ticket, no transaction, and the number that the next file gets; `space hold TICKET ACTOR PLACE..` with places as
//!   `2:6@0+100`, the 100 bytes at 0 of file 6 in pool 2: `hold`; `space release TICKET`, `space note TRANSACTION PLACE..`, `space force`,
//!   `space draw FILE`: the calls of these names.
//! - `choose ACTOR SIZE AIM PREFER AVOID` with aims as `new=1`, `move=2` into a pool alone, `along=2` into a hierarchy, and `copy=4`:
//!   `choose` of the index and `choose_by_walk`, each segment as a place.
//! - `classes`, `pools`, `volumes`, and `show FILE`: the rows. A segment is shown as its object, offset and length, as `1@0+100`.
//!
//! The stored output was written by hand, from the rules of pools, volumes and blocks.
#![tactic(auto)]

mod answer;
mod changes;
mod extents;
mod parts;
mod questions;
mod rows;
mod run;
mod segments;
mod tickets;
mod volumes;
mod words;

use run::Run;
use std::alloc::AllocError;
use std::io;
use std::io::{BufWriter, Write};

/// Puts what the line is answered.
fn answer_line<W: Write>(run: &mut Run, line: &str, out: &mut W) -> io::Result<()> {
    let text = run.line(line)?;
    out.write_all(text.as_bytes())?;
    out.write_all(b"\n")
}

/// Answers each line of the input.
fn answer_all(rt: &HostRuntime, run: &mut Run) -> io::Result<()> {
    let alloc = rt.alloc();
    let mut out = BufWriter::new(alloc, io::writer(rt))?;
    for line in rt.lines(alloc) {
        let line = line?;
        answer_line(run, line.as_str(), &mut out)?;
    }
    out.flush()
}

fn main(rt: HostRuntime) -> io::Result<()> {
    match Run::new(rt.alloc()) {
        Ok(mut run) => {
            let answered = answer_all(&rt, &mut run);
            drop(run);
            answered
        }
        Err(_) => Err(AllocError.into()),
    }
}
