//! A source and a sink in memory.
ghost use Rattle.std.specs.Prelude.{◌<◌, IfOk};

use crate::answer::{Fault, bytes_text, done, number_text, read_text};
use crate::words::{buffer, bytes, number, numbers};
use std::alloc::Global;
use std::mem;
use tree_api::{MemSink, MemSource, Sink, Source, put_all};

/// The source and the sink.
#[derive(Drop)]
pub struct Streams {
    source: MemSource,
    sink: MemSink,
}

/// How many bytes a call moves at the most, which are some.
fn most(word: &str) -> Result<usize, Fault>
    ensures { IfOk result (λ most. 0 < most) }
{
    let most = number(word)?;
    if most > 0 {
        Ok(most as usize)
    } else {
        Err(Fault::NoCommand)
    }
}

fn source(alloc: Global, least: &str, piece: &str, calls: &[&str]) -> Result<MemSource, Fault> {
    let most = most(least)?;
    let calls = numbers(alloc, calls)?;
    let bytes = bytes(alloc, &[piece])?;
    Ok(
        MemSource::new(alloc, bytes)
            .with_failing(calls)
            .giving_at_most(most),
    )
}

fn sink(alloc: Global, least: &str, calls: &[&str]) -> Result<MemSink, Fault> {
    let most = most(least)?;
    let calls = numbers(alloc, calls)?;
    Ok(MemSink::new(alloc).with_failing(calls).taking_at_most(most))
}

impl Streams {
    /// A source that is at its end, and a sink that nothing was put into.
    pub fn new(alloc: Global) -> Streams {
        Streams {
            source: MemSource::new(alloc, Vec::new(alloc)),
            sink: MemSink::new(alloc),
        }
    }

    fn new_source(
        &mut self,
        alloc: Global,
        least: &str,
        piece: &str,
        calls: &[&str],
    ) -> Result<String, Fault> {
        let source = source(alloc, least, piece, calls)?;
        drop(mem::replace(&mut self.source, source));
        done(alloc)
    }

    fn new_sink(&mut self, alloc: Global, least: &str, calls: &[&str]) -> Result<String, Fault> {
        let sink = sink(alloc, least, calls)?;
        drop(mem::replace(&mut self.sink, sink));
        done(alloc)
    }

    fn take(&mut self, alloc: Global, count: &str) -> Result<String, Fault> {
        let mut into = buffer(alloc, count)?;
        let count = self.source.take(&mut into)?;
        read_text(alloc, count, &into)
    }

    fn put(&mut self, alloc: Global, pieces: &[&str]) -> Result<String, Fault> {
        put_all(&mut self.sink, &bytes(alloc, pieces)?)?;
        done(alloc)
    }

    /// What a line about the source is answered.
    pub fn on_source(&mut self, alloc: Global, words: &[&str]) -> Result<String, Fault> {
        match words {
            ["new", least, piece, calls @ ..] => self.new_source(alloc, least, piece, calls),
            ["take", count] => self.take(alloc, count),
            ["faults"] => number_text(alloc, self.source.faults()),
            _ => Err(Fault::NoCommand),
        }
    }

    /// What a line about the sink is answered.
    pub fn on_sink(&mut self, alloc: Global, words: &[&str]) -> Result<String, Fault> {
        match words {
            ["new", least, calls @ ..] => self.new_sink(alloc, least, calls),
            ["put", pieces @ ..] => self.put(alloc, pieces),
            ["faults"] => number_text(alloc, self.sink.faults()),
            ["show"] => bytes_text(alloc, self.sink.bytes()),
            _ => Err(Fault::NoCommand),
        }
    }
}
