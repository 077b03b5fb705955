//! Reads many lines of mixed commands, or only splits them at blanks, so that the reading can be timed. It prints how many
//! lines there were, and how many commands and refusals, or how many words.

use admin_words::read_line;
use std::alloc::{AllocError, Global};
use std::io;

/// How many lines are read where no number is given.
pub(crate) const USUAL_LINES: u32 = 1600;

/// The lines, one after another and again from the first.
const LINES: [&str; 16] = [
    "PUT anna /home /docs/letters/april.txt 1204 TEXT=\"Dear Ben, it rains.\"",
    "GET anna /home /docs/letters/april.txt",
    "WRITE 0 /docs/notes 77 SIZE=64K FILL=3",
    "ERASE 0 /docs/notes",
    "dsmc inc anna /home 0",
    "DSMC RESTORE anna /home 1 PATTERN=/docs/*",
    "def stg TAPE F MAXSCRATCH=40 REUSEDELAY=3",
    "UPDATE STGPOOL BACKUPPOOL NEXTSTGPOOL=TAPE HIGHMIG=50 LOWMIG=20",
    "DEFINE COPYGROUP STANDARD STANDARD STANDARD DESTINATION=TAPE VEREXISTS=3 RETEXTRA=NOLIMIT",
    "DEFINE VOLUME BACKUPPOOL DISK1 FORMATSIZE=16",
    "REGISTER NODE n1234 secret DOMAIN=STANDARD",
    "q vol",
    "Query Filespace anna",
    "DAY 12",
    "EXPIRE INVENTORY WAIT=YES",
    "UPDATE VOLUME DISK1 ACCESS=READ",
];

/// How many lines said a command, and how many were refused.
#[derive(Clone, Copy, Debug)]
struct Counts {
    commands: u32,
    refusals: u32,
}

/// Reads so many lines.
fn read(alloc: Global, lines: u32) -> Counts {
    let mut counts = Counts {
        commands: 0,
        refusals: 0,
    };
    for number in 0..lines {
        let line = LINES[(number % 16) as usize].as_bytes();
        if line.len() < 4096 {
            match read_line(alloc, line, false) {
                Ok(command) => {
                    drop(command);
                    counts.commands = counts.commands.saturating_add(1);
                }
                Err(_) => counts.refusals = counts.refusals.saturating_add(1),
            }
        }
    }
    counts
}

/// The words of a line between single blanks.
fn split(alloc: Global, line: &'static str) -> Result<Vec<&'static str>, AllocError> {
    let mut words = Vec::new(alloc);
    for word in line.split(' ') {
        words.push(word)?;
    }
    Ok(words)
}

/// Splits so many lines, and says how many words they have.
fn split_all(alloc: Global, lines: u32) -> Result<u64, AllocError> {
    let mut count: u64 = 0;
    for number in 0..lines {
        let words = split(alloc, LINES[(number % 16) as usize])?;
        count = count.wrapping_add(words.len() as u64);
    }
    Ok(count)
}

/// Reads so many lines, or only splits them.
pub(crate) fn report(rt: &impl Print, alloc: Global, lines: u32, is_split: bool) -> io::Result<()> {
    if is_split {
        let count = split_all(alloc, lines)?;
        return println!(rt; "{lines} lines: {count} words");
    }
    let counts = read(alloc, lines);
    println!(rt;
        "{lines} lines: {} commands, {} refusals",
        counts.commands, counts.refusals
    )
}
