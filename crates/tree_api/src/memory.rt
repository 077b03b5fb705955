// A source and a sink in memory.
ghost use Rattle.std.specs.Prelude.{◌≡◌, ◌+◌, ◌-◌, ◌^◌, ◌<◌, ◌≤◌, ◌↔◌, [], Some, length, min, Contains, IfOk, IsErr, IsTrue};
ghost use Rattle.std.specs.Io.{ReadsAtMost, WritesAtMost};
ghost use Rattle.std.specs.Io.KnownBytes.{ReadConsumes, WriteAppends};
ghost use Rattle.tree_api.specs.Cause.{HasCause};
ghost use Rattle.tree_api.specs.Memory.{Reading, Writing};

use crate::{Failed, Sink, Source};
use std::alloc::Global;
use std::marker::Model;

/// A source of bytes in memory. Its calls are numbered from 0, and those that were named fail; no other does.
#[derive(Drop)]
pub struct MemSource {
    bytes: Vec<u8>,
    at: usize,
    failing: Vec<u64>,
    call: u64,
    most: usize,
    faults: u64,
}

impl Model for MemSource {
    ghost use Rattle.std.specs.Prelude.{◌<◌, ◌≤◌, drop, vec_len};
    ghost use Rattle.tree_api.specs.Memory.{Reading};

    ghost Value = { Reading };

    ghost view = { λ s. record { left = drop s.at s.bytes.items; call = s.call; failing = s.failing.items; most = s.most; faults = s.faults } };

    ghost invariant = { λ s. (s.at ≤ vec_len s.bytes) × (0 < s.most) };
}

impl MemSource {
    /// A source of these bytes, of which no call fails.
    pub fn new(alloc: Global, bytes: Vec<u8>) -> Self
        ensures { result ≡ record { left = bytes.items; call = 0; failing = []; most = usize.MAX; faults = 0 } }
    {
        MemSource {
            bytes,
            at: 0,
            failing: Vec::new(alloc),
            call: 0,
            most: usize::MAX,
            faults: 0,
        }
    }

    /// The source, with these calls failing, counted from 0.
    pub fn with_failing(self, calls: Vec<u64>) -> Self
        ensures { result ≡ record self { failing = calls.items } }
    {
        MemSource {
            failing: calls,
            ..self
        }
    }

    /// The source, giving at most so many bytes a call.
    pub fn giving_at_most(self, bytes: usize) -> Self
        requires { 0 < bytes }
        ensures { result ≡ record self { most = bytes } }
    {
        MemSource {
            most: bytes,
            ..self
        }
    }

    // Whether the next call is to fail, which it counts.
    fn counts_call(&mut self) -> bool
        ensures listed { IsTrue result ↔ Contains self.old.failing self.old.call }
        ensures counted { self.new ≡ record self.old { call = min (self.old.call + 1) (2 ^ 64 - 1) } }
    {
        let fails = self.failing.iter().any(|call| *call == self.call);
        self.call = self.call.saturating_add(1);
        fails
    }

    // A call that failed.
    fn fault(&mut self) -> Failed
        ensures counted { self.new ≡ record self.old { faults = min (self.old.faults + 1) (2 ^ 64 - 1) } }
        ensures kept { self.old.faults ≤ self.new.faults }
    {
        self.faults = self.faults.saturating_add(1);
        Failed
    }
}

impl Source for MemSource {
    ghost left = { λ s. Some s.left };

    ghost fault_count = { λ s. s.faults };

    fn faults(&self) -> u64 {
        self.faults
    }

    fn take(&mut self, into: &mut [u8]) -> Result<usize, Failed>
        ensures bound { ReadsAtMost result into.new }
        ensures bytes { ReadConsumes (Some self.old.left) (Some self.new.left) result into.new }
        ensures cause { HasCause self.old.faults self.new.faults result }
        ensures listed { IsErr result ↔ Contains self.old.failing self.old.call }
        ensures many { IfOk result (λ count. count ≡ min (length into.new) (min self.old.most (length self.old.left))) }
        ensures counted { self.new.call ≡ min (self.old.call + 1) (2 ^ 64 - 1) }
        ensures set { (self.new.failing ≡ self.old.failing) × (self.new.most ≡ self.old.most) }
    {
        if self.counts_call() {
            return Err(self.fault());
        }
        let count = into.len().min(self.most).min(self.bytes.len() - self.at);
        into[..count].copy_from_slice(&self.bytes[self.at..self.at + count]);
        self.at += count;
        Ok(count)
    }
}

/// A sink in memory. Its calls are numbered from 0. Those that were named fail, and one that finds no memory does; no other.
#[derive(Drop)]
pub struct MemSink {
    bytes: Vec<u8>,
    failing: Vec<u64>,
    call: u64,
    most: usize,
    faults: u64,
}

impl Model for MemSink {
    ghost use Rattle.std.specs.Prelude.{◌<◌};
    ghost use Rattle.tree_api.specs.Memory.{Writing};

    ghost Value = { Writing };

    ghost view = { λ s. record { contents = s.bytes.items; call = s.call; failing = s.failing.items; most = s.most; faults = s.faults } };

    ghost invariant = { λ s. 0 < s.most };
}

impl MemSink {
    /// A sink that nothing was put into, of which no call is to fail.
    pub fn new(alloc: Global) -> Self
        ensures { result ≡ record { contents = []; call = 0; failing = []; most = usize.MAX; faults = 0 } }
    {
        MemSink {
            bytes: Vec::new(alloc),
            failing: Vec::new(alloc),
            call: 0,
            most: usize::MAX,
            faults: 0,
        }
    }

    /// The sink, with these calls failing, counted from 0.
    pub fn with_failing(self, calls: Vec<u64>) -> Self
        ensures { result ≡ record self { failing = calls.items } }
    {
        MemSink {
            failing: calls,
            ..self
        }
    }

    /// The sink, taking at most so many bytes a call.
    pub fn taking_at_most(self, bytes: usize) -> Self
        requires { 0 < bytes }
        ensures { result ≡ record self { most = bytes } }
    {
        MemSink {
            most: bytes,
            ..self
        }
    }

    /// All that was put.
    pub fn bytes(&self) -> &[u8]
        ensures { result.now ≡ self.now.contents }
    {
        &self.bytes
    }

    // Whether the next call is to fail, which it counts.
    fn counts_call(&mut self) -> bool
        ensures listed { IsTrue result ↔ Contains self.old.failing self.old.call }
        ensures counted { self.new ≡ record self.old { call = min (self.old.call + 1) (2 ^ 64 - 1) } }
    {
        let fails = self.failing.iter().any(|call| *call == self.call);
        self.call = self.call.saturating_add(1);
        fails
    }

    // A call that failed.
    fn fault(&mut self) -> Failed
        ensures counted { self.new ≡ record self.old { faults = min (self.old.faults + 1) (2 ^ 64 - 1) } }
        ensures kept { self.old.faults ≤ self.new.faults }
    {
        self.faults = self.faults.saturating_add(1);
        Failed
    }
}

impl Sink for MemSink {
    ghost contents = { λ s. Some s.contents };

    ghost fault_count = { λ s. s.faults };

    fn faults(&self) -> u64 {
        self.faults
    }

    fn put(&mut self, bytes: &[u8]) -> Result<usize, Failed>
        ensures bound { WritesAtMost result bytes.now }
        ensures some { IfOk result (λ count. 0 < length bytes.now → 0 < count) }
        ensures bytes { WriteAppends (Some self.old.contents) (Some self.new.contents) result bytes.now }
        ensures cause { HasCause self.old.faults self.new.faults result }
        ensures listed { Contains self.old.failing self.old.call → IsErr result }
        ensures many { IfOk result (λ count. count ≡ min (length bytes.now) self.old.most) }
        ensures counted { self.new.call ≡ min (self.old.call + 1) (2 ^ 64 - 1) }
        ensures set { (self.new.failing ≡ self.old.failing) × (self.new.most ≡ self.old.most) }
    {
        if self.counts_call() {
            return Err(self.fault());
        }
        let count = bytes.len().min(self.most);
        match self.bytes.extend_from_slice(&bytes[..count]) {
            Ok(()) => Ok(count),
            Err(_) => Err(self.fault()),
        }
    }
}
