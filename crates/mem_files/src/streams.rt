// The standard streams in memory, call by call.
ghost use Rattle.std.specs.Prelude.{◌≡◌, ◌+◌, ◌-◌, ◌^◌, ◌↔◌, Some, length, min, Contains, IfOk, IsErr, IsOk};
ghost use Rattle.std.specs.Io.{ReadsAtMost, WritesAtMost};
ghost use Rattle.std.specs.Io.KnownBytes.{ReadConsumes, WriteAppends};

use std::io;
use std::io::{ErrorKind, Read, Write};
use std::marker::Model;
use tree_api::{MemSink, MemSource, Sink, Source};

/// A reader in memory, which tells its bytes: each read is a call on a source in memory, gives as many bytes, and is an error where that
/// call fails.
#[derive(Drop)]
pub struct MemReader {
    source: MemSource,
}

impl Model for MemReader {
    ghost use Rattle.tree_api.specs.Memory.{Reading};

    ghost Value = { Reading };

    ghost view = { λ r. r.source };
}

impl MemReader {
    /// The reader over a source.
    pub fn new(source: MemSource) -> Self
        ensures { result ≡ source }
    {
        MemReader { source }
    }
}

impl Read for MemReader {
    ghost remaining = { λ r. Some r.left };

    fn read(&mut self, buf: &mut [u8]) -> io::Result<usize>
        ensures bound { ReadsAtMost result buf.new }
        ensures bytes { ReadConsumes (Some self.old.left) (Some self.new.left) result buf.new }
        ensures listed { IsErr result ↔ Contains self.old.failing self.old.call }
        ensures many { IfOk result (λ count. count ≡ min (length buf.new) (min self.old.most (length self.old.left))) }
        ensures counted { self.new.call ≡ min (self.old.call + 1) (2 ^ 64 - 1) }
        ensures set { (self.new.failing ≡ self.old.failing) × (self.new.most ≡ self.old.most) }
    {
        match self.source.take(buf) {
            Ok(given) => Ok(given),
            Err(_) => Err(io::Error::from(ErrorKind::Other)),
        }
    }
}

/// A writer in memory, which tells its bytes: each write is a call on a sink in memory, and is an error where that call fails. It can be
/// one that takes no byte a call, as the system's may, while a sink takes some.
#[derive(Drop)]
pub struct MemWriter {
    sink: MemSink,
    most: usize,
}

impl Model for MemWriter {
    ghost use Rattle.std.specs.Prelude.{min};
    ghost use Rattle.tree_api.specs.Memory.{Writing};

    ghost Value = { Writing };

    ghost view = { λ w. record w.sink { most = min w.most w.sink.most } };
}

impl MemWriter {
    /// The writer over a sink, of which a call takes at most so many bytes, and what the sink takes.
    pub fn new(sink: MemSink, most: usize) -> Self
        ensures { result ≡ record sink { most = min most sink.most } }
    {
        MemWriter { sink, most }
    }

    /// All that was written.
    pub fn bytes(&self) -> &[u8]
        ensures { result.now ≡ self.now.contents }
    {
        self.sink.bytes()
    }
}

impl Write for MemWriter {
    ghost contents = { λ w. Some w.contents };

    fn write(&mut self, buf: &[u8]) -> io::Result<usize>
        ensures bound { WritesAtMost result buf.now }
        ensures bytes { WriteAppends (Some self.old.contents) (Some self.new.contents) result buf.now }
        ensures listed { Contains self.old.failing self.old.call → IsErr result }
        ensures many { IfOk result (λ count. count ≡ min (length buf.now) self.old.most) }
        ensures counted { self.new.call ≡ min (self.old.call + 1) (2 ^ 64 - 1) }
        ensures set { (self.new.failing ≡ self.old.failing) × (self.new.most ≡ self.old.most) }
    {
        let span = buf.len().min(self.most);
        match self.sink.put(&buf[..span]) {
            Ok(taken) => Ok(taken),
            Err(_) => Err(io::Error::from(ErrorKind::BrokenPipe)),
        }
    }

    fn flush(&mut self) -> io::Result<()>
        ensures done { IsOk result }
        ensures same { self.new ≡ self.old }
    {
        Ok(())
    }
}
