// A source over single reads, and a sink over single writes. They tell their bytes wherever the reader or the writer tells them.
ghost use Rattle.std.specs.Prelude.{◌≡◌};

use std::io::{Read, Write};
use tree_api::{Failed, Sink, Source};

/// A source over a reader: each call is one read. It has the bytes that the reader still gives, where the reader tells them.
#[derive(Drop)]
pub struct StdSource<R: Read + Drop> {
    reader: R,
    faults: u64,
}

impl<R: Read + Drop> StdSource<R> {
    /// No read has failed.
    pub fn new(reader: R) -> Self
        ensures left { ⟦<StdSource<R> as Source>⟧.left result ≡ R.remaining reader }
        ensures faults { ⟦<StdSource<R> as Source>⟧.fault_count result ≡ 0 }
    {
        StdSource { reader, faults: 0 }
    }
}

impl<R: Read + Drop> Source for StdSource<R> {
    ghost left = { λ source. R.remaining source.reader };

    ghost fault_count = { λ source. source.faults };

    fn faults(&self) -> u64 {
        self.faults
    }

    fn take(&mut self, into: &mut [u8]) -> Result<usize, Failed> {
        match self.reader.read(into) {
            Ok(count) => Ok(count),
            Err(_) => {
                self.faults = self.faults.saturating_add(1);
                Err(Failed)
            }
        }
    }
}

/// A sink over a writer: each call is one write, of which no byte is kept back. It has taken what the writer has, where the writer
/// tells it.
#[derive(Drop)]
pub struct StdSink<W: Write + Drop> {
    writer: W,
    faults: u64,
}

impl<W: Write + Drop> StdSink<W> {
    /// No write has failed.
    pub fn new(writer: W) -> Self
        ensures contents { ⟦<StdSink<W> as Sink>⟧.contents result ≡ W.contents writer }
        ensures faults { ⟦<StdSink<W> as Sink>⟧.fault_count result ≡ 0 }
    {
        StdSink { writer, faults: 0 }
    }
}

impl<W: Write + Drop> Sink for StdSink<W> {
    ghost contents = { λ sink. W.contents sink.writer };

    ghost fault_count = { λ sink. sink.faults };

    fn faults(&self) -> u64 {
        self.faults
    }

    fn put(&mut self, bytes: &[u8]) -> Result<usize, Failed> {
        match self.writer.write(bytes) {
            Ok(0) if !bytes.is_empty() => {}
            Ok(count) => return Ok(count),
            Err(_) => {}
        }
        self.faults = self.faults.saturating_add(1);
        Err(Failed)
    }
}
