//! Streams over files and a pipe of the system.
use crate::answer::{Fault, number_text, read_text};
use crate::words::{buffer, bytes};
use real_edge::{StdSink, StdSource};
use std::alloc::Global;
use std::fs::File;
use std::io;
use tree_api::{Sink, Source};

/// The answer of one call, and how many faults there were since the stream was made.
fn with_faults(alloc: Global, text: &str, faults: u64) -> Result<String, Fault> {
    Ok(format!(in alloc; "{text}, {faults} faults")?)
}

/// Puts a piece once.
fn put_once<O: Sink>(alloc: Global, sink: &mut O, pieces: &[&str]) -> Result<String, Fault> {
    let bytes = bytes(alloc, pieces)?;
    match sink.put(&bytes) {
        Ok(count) => with_faults(alloc, &number_text(alloc, count as u64)?, sink.faults()),
        Err(_) => with_faults(alloc, "failed", sink.faults()),
    }
}

/// Takes a piece.
fn take_once<I: Source>(alloc: Global, source: &mut I, count: &str) -> Result<String, Fault> {
    let mut into = buffer(alloc, count)?;
    match source.take(&mut into) {
        Ok(count) => with_faults(alloc, &read_text(alloc, count, &into)?, source.faults()),
        Err(_) => with_faults(alloc, "failed", source.faults()),
    }
}

/// Takes pieces one behind the other.
fn take_each<I: Source>(alloc: Global, source: &mut I, counts: &[&str]) -> Result<String, Fault> {
    let mut out = String::new(alloc);
    for count in counts {
        let text = take_once(alloc, source, count)?;
        if !out.is_empty() {
            out.push_str("; ")?;
        }
        out.push_str(&text)?;
    }
    Ok(out)
}

fn create(rt: &HostRuntime, path: &str, pieces: &[&str]) -> Result<String, Fault> {
    let mut sink = StdSink::new(File::create(rt, path)?);
    let put = put_once(rt.alloc(), &mut sink, pieces);
    drop(sink);
    put
}

fn put_unwritable(rt: &HostRuntime, path: &str, pieces: &[&str]) -> Result<String, Fault> {
    let mut sink = StdSink::new(File::open(rt, path)?);
    let put = put_once(rt.alloc(), &mut sink, pieces);
    drop(sink);
    put
}

fn put_unread(rt: &HostRuntime, pieces: &[&str]) -> Result<String, Fault> {
    let (reader, writer) = io::pipe(rt)?;
    drop(reader);
    let mut sink = StdSink::new(writer);
    let put = put_once(rt.alloc(), &mut sink, pieces);
    drop(sink);
    put
}

fn take(rt: &HostRuntime, path: &str, counts: &[&str]) -> Result<String, Fault> {
    let mut source = StdSource::new(File::open(rt, path)?);
    let taken = take_each(rt.alloc(), &mut source, counts);
    drop(source);
    taken
}

/// What a line about a stream of the system is answered.
pub fn answer(rt: &HostRuntime, words: &[&str]) -> Result<String, Fault> {
    match words {
        ["create", path, pieces @ ..] => create(rt, path, pieces),
        ["unwritable", path, pieces @ ..] => put_unwritable(rt, path, pieces),
        ["unread", pieces @ ..] => put_unread(rt, pieces),
        ["take", path, counts @ ..] => take(rt, path, counts),
        _ => Err(Fault::NoCommand),
    }
}
