//! Where a file would go, and what a client's session looks up.
use crate::questions::{Fault, number};
use crate::words::put_bytes;
use inventory_rows::Tables;
use inventory_rows::version_groups::{CopyRow, Version};
use kinds::{BackupRule, Name, Path, Refusal, Segment, Segments};
use placing::{active_version, can_read, default_rule, is_readable, place, segments_for};
use std::alloc::{AllocError, Global};

/// A line names so many volumes at most.
const MOST_FILES: usize = 1000;

fn none(alloc: Global) -> Result<String, AllocError> {
    String::from_str(alloc, "none")
}

fn truth(alloc: Global, holds: bool) -> Result<String, AllocError> {
    String::from_str(alloc, if holds { "yes" } else { "no" })
}

/// The file number and the offset of a file's place.
fn place_text(alloc: Global, found: Option<Segment>) -> Result<String, AllocError> {
    match found {
        Some(segment) => {
            let file = segment.file;
            let offset = segment.offset;
            format!(in alloc; "file {file}, offset {offset}")
        }
        None => none(alloc),
    }
}

/// How many segments a file has.
fn segments_text(alloc: Global, found: &Option<Segments>) -> Result<String, AllocError> {
    match found {
        Some(segments) => {
            let count = segments.as_slice().len();
            format!(in alloc; "segments {count}")
        }
        None => none(alloc),
    }
}

/// A number of bytes.
fn size_of(word: &str) -> Result<u64, Fault> {
    word.parse::<u64>().ok().ok_or(Fault::NoCommand)
}

fn segments(alloc: Global, tables: &Tables, pool: u32, size: u64) -> Result<String, Fault> {
    let found = segments_for(alloc, tables, pool, size)?;
    Ok(segments_text(alloc, &found)?)
}

/// A copy with a segment of five bytes on each volume.
fn copy_on(alloc: Global, files: &[&str]) -> Result<CopyRow, Fault> {
    let mut items = Vec::new(alloc);
    for file in files {
        let segment = Segment {
            file: number(file)?,
            offset: 0,
            len: 5,
        };
        items.push(segment).map_err(Refusal::from)?;
    }
    if items.len() > MOST_FILES {
        return Err(Fault::NoCommand);
    }
    Ok(CopyRow {
        pool: 1,
        placed: 1,
        segments: Segments::new(items),
    })
}

fn reads(alloc: Global, tables: &Tables, files: &[&str]) -> Result<String, Fault> {
    let copy = copy_on(alloc, files)?;
    Ok(truth(alloc, can_read(tables, &copy))?)
}

/// A class, and the destination of its copy group.
fn rule_text(alloc: Global, found: Option<(&Name, BackupRule)>) -> Result<String, AllocError> {
    match found {
        Some((class, rule)) => {
            let pool = rule.destination;
            let mut out = String::new(alloc);
            put_bytes(&mut out, class.as_bytes())?;
            write!(out, " destination={pool}")?;
            Ok(out)
        }
        None => none(alloc),
    }
}

fn version_text(alloc: Global, found: Option<&Version>) -> Result<String, AllocError> {
    match found {
        Some(version) => {
            let object = version.object;
            format!(in alloc; "object {object}")
        }
        None => none(alloc),
    }
}

fn active(alloc: Global, tables: &Tables, filespace: u32, of: &str) -> Result<String, Fault> {
    let path = Path::read(alloc, of.as_bytes())?;
    Ok(version_text(alloc, active_version(tables, filespace, &path))?)
}

/// What the words ask.
pub fn ask(alloc: Global, tables: &Tables, words: &[&str]) -> Result<String, Fault> {
    match words {
        ["place", pool, size] => {
            let found = place(tables, number(pool)?, size_of(size)?);
            Ok(place_text(alloc, found)?)
        }
        ["segments", pool, size] => segments(alloc, tables, number(pool)?, size_of(size)?),
        ["readable", file] => Ok(truth(alloc, is_readable(tables, number(file)?))?),
        ["reads", files @ ..] => reads(alloc, tables, files),
        ["default", node] => Ok(rule_text(alloc, default_rule(tables, number(node)?))?),
        ["active", filespace, of] => active(alloc, tables, number(filespace)?, of),
        _ => Err(Fault::NoCommand),
    }
}
