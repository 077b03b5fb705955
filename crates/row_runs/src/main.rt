//! Reads a script of small commands, each a call on the policy domains, on the rows of nodes, filespaces and versions, or on the rules
//! of retention, and prints a line for each: what the call answers, or its refusal. `unmet` says that what the call requires doesn't
//! hold, and that it was not made. A comment, which begins with `#`, is printed as it stands.
//!
//! - `new`: the policy of a new server, and no nodes; `copy`: a copy takes the place of both; `again`: so do those that are made of
//!   their rows.
//! - `domain VERB DOMAIN DAYS`, `set VERB DOMAIN SET`, `class VERB DOMAIN SET CLASS`, `group VERB DOMAIN SET CLASS POOL` with the other
//!   values of a copy group that is defined without parameters, `archive VERB DOMAIN SET CLASS POOL DAYS`, `assign DOMAIN SET CLASS`,
//!   `activate DOMAIN SET`: `change` of the domains, where it doesn't name the set ACTIVE. `validate DOMAIN SET`; `rule DOMAIN CLASS`:
//!   `rule_of`, and `archived DOMAIN CLASS`: `archive_of`, where the domain is there.
//! - `node VERB NUMBER NODE`, `filespace VERB NODE NUMBER NAME`: `change` of the rows, where what is defined may have its number.
//! - `insert FILESPACE PATH CLASS OBJECT DAY`, where the object is new; `gone FILESPACE PATH OBJECT DAY`: `mark_gone`, where it isn't an
//!   inactive version; `undo FILESPACE PATH CLASS there`, or `gone`: `undo_insert`, where the path has a version; `rebind FILESPACE PATH
//!   CLASS`; `remove FILESPACE PATH OBJECT`.
//! - `add OBJECT POOL PLACED`: `add_copy`, where the pool has no copy; `replace OBJECT FROM POOL PLACED`, where it has no other one; `drop
//!   OBJECT POOL`: `drop_copy`. A copy has one segment.
//! - `named node NAME`, `named filespace NODE NAME`, `has OBJECT`, `in OBJECT POOL`: `has_copy`; `space OBJECT`: `filespace_of`; `holds POOL`:
//!   `holds_copy`; `count`; `left ROOM`: `items_left`.
//! - `parts ROW..` with rows as `node=1:TOM` and `space=2:1:/home` for a filespace of the node 1: `from_parts`; `none` where it makes no
//!   value of them, and then the old one stays.
//! - `retained RULE there SINCE TODAY PLACE`, or `gone`: `retained`, where the first day is not after the second; `unretained RULE there
//!   TODAY DAY DAY DAY`: `unretained` of three versions. A rule is `own`, `default`, `nolimit`, or the days of a BACKRETENTION.
//! - `domains`, a class with the destinations of its backup and its archive copy group, as `C=1+3`; `show FILESPACE PATH`: the versions, the
//!   newest first; `find OBJECT`: one of them. A copy is shown as its pool and the transaction that placed it, as `3@4`.
//!
//! The stored output was written by hand, from the rules of policy, versions and retention.
#![tactic(auto)]

mod answer;
mod copies;
mod parts;
mod policy;
mod questions;
mod retention;
mod rows;
mod run;
mod spaces;
mod versions;
mod words;

use run::Run;
use std::alloc::AllocError;
use std::io;
use std::io::{BufWriter, Write};

/// Puts what the line is answered.
fn answer_line<W: Write>(run: &mut Run, line: &str, out: &mut W) -> io::Result<()> {
    let text = run.line(line)?;
    out.write_all(text.as_bytes())?;
    out.write_all(b"\n")
}

/// Answers each line of the input.
fn answer_all(rt: &HostRuntime, run: &mut Run) -> io::Result<()> {
    let alloc = rt.alloc();
    let mut out = BufWriter::new(alloc, io::writer(rt))?;
    for line in rt.lines(alloc) {
        let line = line?;
        answer_line(run, line.as_str(), &mut out)?;
    }
    out.flush()
}

fn main(rt: HostRuntime) -> io::Result<()> {
    match Run::new(rt.alloc()) {
        Ok(mut run) => {
            let answered = answer_all(&rt, &mut run);
            drop(run);
            answered
        }
        Err(_) => Err(AllocError.into()),
    }
}
