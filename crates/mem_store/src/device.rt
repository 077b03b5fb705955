// The calls of the store in memory, as a device.
ghost use Rattle.std.specs.Prelude.{◌≤◌, length};
ghost use Rattle.store_api.specs.Told.{ReadsFrom};

use crate::entry::Kind;
use crate::mem::MemStore;
use crate::stops::stop_all;
use store_api::{Failed, Stop, Store};

// Copies what stands from an offset on, as much as the buffer holds, and answers how many bytes that are.
fn copy_from(bytes: &[u8], offset: usize, into: &mut [u8]) -> usize
    ensures reads { ReadsFrom bytes.now offset into.new result }
    ensures bound { result ≤ length into.new }
{
    let start = offset.min(bytes.len());
    let rest = &bytes[start..];
    let count = rest.len().min(into.len());
    into[..count].copy_from_slice(&rest[..count]);
    count
}

impl Store for MemStore {
    ghost use Rattle.std.specs.Prelude.{Some, ◌≡◌, ◌↔◌, ◌+◌, ◌<◌, ◌^◌, IfOk, OnOk, OnErr, IsErr, Contains};
    ghost use Rattle.store_api.specs.Cause.{Rose, NoneFell};
    ghost use Rattle.store_api.specs.Disk.{idle, with_call, reads};
    ghost use Rattle.store_api.specs.Told.{Adds, MayWrite, MayCut, MaySync};
    ghost use Rattle.mem_store.specs.Mem.{history_of, moment_of, clock_of, faults_of, failing_of};

    ghost told = { λ m. Some (history_of m) };

    ghost moment_of = { λ m. m.moment };

    ghost faults_of = { faults_of };

    ghost clock = { clock_of };

    fn moment(&self) -> u64 {
        self.moment
    }

    fn faults(&self, file: u32) -> u64 {
        self.counts
            .get(&file)
            .copied()
            .unwrap_or(0)
            .saturating_add(self.shared)
    }

    /// Fails exactly where it is listed to.
    fn len(&mut self, file: u32) -> Result<u64, Failed>
        requires { moment_of self.old < 2 ^ 62 }
        ensures told { Adds (λ call. call ≡ idle) (history_of self.old) (history_of self.new) }
        ensures time { moment_of self.new ≡ moment_of self.old + 1 }
        ensures counts { NoneFell (faults_of self.old) (faults_of self.new) }
        ensures cause { OnErr result (Rose (faults_of self.old file) (faults_of self.new file)) }
        ensures length { IfOk result (λ len. len ≡ length (reads (history_of self.old) file)) }
        ensures listed { IsErr result ↔ Contains (failing_of self.old) (moment_of self.old) }
        ensures set { failing_of self.new ≡ failing_of self.old }
    {
        if self.is_listed() {
            return Err(self.fail(file));
        }
        let len = self.bytes(file).len() as u64;
        self.pass();
        Ok(len)
    }

    /// Fails exactly where it is listed to.
    fn read_at(&mut self, file: u32, offset: u64, into: &mut [u8]) -> Result<usize, Failed>
        requires { moment_of self.old < 2 ^ 62 }
        ensures told { Adds (λ call. call ≡ idle) (history_of self.old) (history_of self.new) }
        ensures time { moment_of self.new ≡ moment_of self.old + 1 }
        ensures counts { NoneFell (faults_of self.old) (faults_of self.new) }
        ensures cause { OnErr result (Rose (faults_of self.old file) (faults_of self.new file)) }
        ensures bound { IfOk result (λ count. count ≤ length into.new) }
        ensures bytes { IfOk result (λ count. ReadsFrom (reads (history_of self.old) file) offset into.new count) }
        ensures listed { IsErr result ↔ Contains (failing_of self.old) (moment_of self.old) }
        ensures set { failing_of self.new ≡ failing_of self.old }
    {
        if self.is_listed() {
            return Err(self.fail(file));
        }
        let count = copy_from(self.bytes(file), offset as usize, into);
        self.pass();
        Ok(count)
    }

    /// Fails where it is listed to, where it would end above 2^64 - 1, and where it finds no memory, and then has no effect.
    fn write_at(&mut self, file: u32, offset: u64, bytes: &[u8]) -> Result<(), Failed>
        requires { moment_of self.old < 2 ^ 62 }
        ensures told { Adds (MayWrite file offset bytes.now result) (history_of self.old) (history_of self.new) }
        ensures time { moment_of self.new ≡ moment_of self.old + 1 }
        ensures counts { NoneFell (faults_of self.old) (faults_of self.new) }
        ensures cause { OnErr result (Rose (faults_of self.old file) (faults_of self.new file)) }
        ensures fits { OnOk result (offset + length bytes.now < 2 ^ 64) }
        ensures listed { Contains (failing_of self.old) (moment_of self.old) → IsErr result }
        ensures unlisted { ¬ Contains (failing_of self.old) (moment_of self.old) → OnErr result (history_of self.new ≡ with_call idle (history_of self.old)) }
        ensures set { failing_of self.new ≡ failing_of self.old }
    {
        let at = offset as usize;
        if bytes.len() > usize::MAX - at {
            return Err(self.fail(file));
        }
        if self.is_listed() {
            return Err(self.write_failed(file, at, bytes));
        }
        match self.keep(file, Kind::Write, at, bytes) {
            Ok(()) => Ok(()),
            Err(_) => Err(self.fail(file)),
        }
    }

    /// Fails where it is listed to, and where it finds no memory. A cut that fails has no effect.
    fn cut(&mut self, file: u32, len: u64) -> Result<(), Failed>
        requires { moment_of self.old < 2 ^ 62 }
        ensures told { Adds (MayCut file len result) (history_of self.old) (history_of self.new) }
        ensures time { moment_of self.new ≡ moment_of self.old + 1 }
        ensures counts { NoneFell (faults_of self.old) (faults_of self.new) }
        ensures cause { OnErr result (Rose (faults_of self.old file) (faults_of self.new file)) }
        ensures listed { Contains (failing_of self.old) (moment_of self.old) → IsErr result }
        ensures unlisted { ¬ Contains (failing_of self.old) (moment_of self.old) → OnErr result (history_of self.new ≡ with_call idle (history_of self.old)) }
        ensures set { failing_of self.new ≡ failing_of self.old }
    {
        if self.is_listed() {
            return Err(self.fail(file));
        }
        match self.keep(file, Kind::Cut, len as usize, &[]) {
            Ok(()) => Ok(()),
            Err(_) => Err(self.fail(file)),
        }
    }

    /// Fails where it is listed to, and where it finds no memory.
    fn sync(&mut self, file: u32) -> Result<(), Failed>
        requires { moment_of self.old < 2 ^ 62 }
        ensures told { Adds (MaySync file result) (history_of self.old) (history_of self.new) }
        ensures time { moment_of self.new ≡ moment_of self.old + 1 }
        ensures counts { NoneFell (faults_of self.old) (faults_of self.new) }
        ensures cause { OnErr result (Rose (faults_of self.old file) (faults_of self.new file)) }
        ensures listed { Contains (failing_of self.old) (moment_of self.old) → IsErr result }
        ensures unlisted { ¬ Contains (failing_of self.old) (moment_of self.old) → OnErr result (history_of self.new ≡ with_call idle (history_of self.old)) }
        ensures set { failing_of self.new ≡ failing_of self.old }
    {
        if self.is_listed() {
            return Err(self.fail(file));
        }
        match self.keep(file, Kind::Sync, 0, &[]) {
            Ok(()) => Ok(()),
            Err(_) => Err(self.fail(file)),
        }
    }
}

impl Stop for MemStore {
    ghost use Rattle.std.specs.Prelude.{ℕ, ◌≡◌};
    ghost use Rattle.store_api.specs.Cause.{NoneFell};
    ghost use Rattle.store_api.specs.Told.{StopsAs};
    ghost use Rattle.mem_store.specs.Mem.{bytes_of, kept_calls, failing_of, history_of, moment_of, faults_of};
    ghost use Rattle.mem_store.specs.Stops.{stopped};

    /// The store after a stop now and a start. Of each file the writes since its last successful sync, those that failed
    /// included, are numbered from 0 in order; write i is kept where bit i mod 63 of `choice` is 1. Where bit 63 is 1 the
    /// last of them is kept in its first half, rounded down, and its other bytes become 0xA5. Cuts since the last sync are
    /// kept. The counts of faults, the moment and the list of moments that fail stay.
    fn stop(self, choice: u64) -> Self
        ensures told { StopsAs (history_of self) (history_of result) }
        ensures time { moment_of result ≡ moment_of self }
        ensures counts { NoneFell (faults_of self) (faults_of result) }
        ensures failing { failing_of result ≡ failing_of self }
        ensures exact { (file : ℕ) → bytes_of result file ≡ stopped choice (kept_calls self) file (bytes_of self file) }
    {
        let MemStore {
            alloc,
            mut files,
            entries,
            idles: _,
            began: _,
            moment,
            failing,
            counts,
            shared,
        } = self;
        stop_all(&mut files, choice, &entries);
        MemStore {
            alloc,
            files,
            entries: Vec::new(alloc),
            idles: 0,
            began: moment,
            moment,
            failing,
            counts,
            shared,
        }
    }
}
