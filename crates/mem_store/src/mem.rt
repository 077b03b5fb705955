// The store in memory.
ghost use Rattle.std.specs.Prelude.{◌≡◌, ℕ, ◌+◌, ◌<◌, ◌≤◌, ◌^◌, [], length, replicate, ◌++◌};
ghost use Rattle.store_api.specs.Disk.{idle};
ghost use Rattle.mem_store.specs.Entries.{Agrees, HasRoom, calls_onto};

use crate::entry::{Entry, Kind, add};
use crate::files::Files;
use std::alloc::{AllocError, Global};
use std::collections::BTreeMap;
use store_api::Failed;

/// A store in memory. It tells its bytes. A call for which it finds no memory fails and has no effect.
#[derive(Drop)]
pub struct MemStore {
    pub(crate) alloc: Global,
    pub(crate) files: Files,
    pub(crate) entries: Vec<Entry>,
    // calls with no effect since the last entry
    pub(crate) idles: u64,
    pub(crate) began: u64,
    pub(crate) moment: u64,
    // the moments at which a call fails
    pub(crate) failing: Vec<u64>,
    pub(crate) counts: BTreeMap<u32, u64>,
    // failures for which no memory was found to count them at their file, counted at each
    pub(crate) shared: u64,
    ghost clock: { moment ≡ began + (idles + length (calls_onto [] entries.items)) },
    ghost agrees: { Agrees files entries.items },
    ghost has_room: { HasRoom files entries.items },
}

impl MemStore {
    ghost use Rattle.std.specs.Prelude.{OnOk, OnErr, IsTrue, ◌↔◌, Contains};
    ghost use Rattle.store_api.specs.Cause.{Rose, NoneFell};
    ghost use Rattle.store_api.specs.Disk.{on, with_call, reads};
    ghost use Rattle.mem_store.specs.Entries.{change_of};
    ghost use Rattle.mem_store.specs.Files.{reach};
    ghost use Rattle.store_api.specs.Told.{Adds};
    ghost use Rattle.mem_store.specs.Mem.{history_of, moment_of, faults_of, failing_of, MayFail};

    /// An empty store: nothing was written, no call was made and none has failed.
    pub fn new(alloc: Global) -> MemStore
        ensures empty { (file : ℕ) → reads (history_of result) file ≡ [] }
        ensures no_calls { (history_of result).calls ≡ [] }
        ensures moment { moment_of result ≡ 0 }
        ensures faults { (file : ℕ) → faults_of result file ≡ 0 }
    {
        MemStore {
            alloc,
            files: Files::new(alloc),
            entries: Vec::new(alloc),
            idles: 0,
            began: 0,
            moment: 0,
            failing: Vec::new(alloc),
            counts: BTreeMap::new(alloc),
            shared: 0,
        }
    }

    /// The store whose device calls fail that begin at these moments, in place of those that were listed before. A write
    /// that fails so leaves the old bytes readable, but a stop may leave anything in its range.
    pub fn with_failing(self, moments: Vec<u64>) -> MemStore
        ensures listed { failing_of result ≡ moments.items }
        ensures told { history_of result ≡ history_of self }
        ensures moment { moment_of result ≡ moment_of self }
        ensures faults { (file : ℕ) → faults_of result file ≡ faults_of self file }
    {
        let mut store = self;
        store.failing = moments;
        store
    }

    /// A file's bytes, as they read. It is no device call.
    pub fn bytes(&self, file: u32) -> &[u8]
        ensures { result.now ≡ reads (history_of self.now) file }
    {
        self.files.bytes(file)
    }

    // The call that begins now is to fail.
    pub(crate) fn is_listed(&self) -> bool
        ensures { IsTrue result ↔ Contains (failing_of self.now) (moment_of self.now) }
    {
        self.failing.iter().any(|moment| *moment == self.moment)
    }

    // Counts a failure at a file, or where there is no memory for its count at each file.
    pub(crate) fn raise(&mut self, file: u32)
        ensures told { history_of self.new ≡ history_of self.old }
        ensures moment { moment_of self.new ≡ moment_of self.old }
        ensures set { failing_of self.new ≡ failing_of self.old }
        ensures counts { NoneFell (faults_of self.old) (faults_of self.new) }
        ensures cause { Rose (faults_of self.old file) (faults_of self.new file) }
    {
        let count = self.counts.get(&file).copied().unwrap_or(0);
        if self.counts.insert(file, count.saturating_add(1)).is_err() {
            self.shared = self.shared.saturating_add(1);
        }
    }

    // A call that only looked, or had no effect.
    pub(crate) fn pass(&mut self)
        requires { moment_of self.old < 2 ^ 62 }
        ensures told { history_of self.new ≡ with_call idle (history_of self.old) }
        ensures moment { moment_of self.new ≡ moment_of self.old + 1 }
        ensures set { failing_of self.new ≡ failing_of self.old }
        ensures counts { (file : ℕ) → faults_of self.new file ≡ faults_of self.old file }
    {
        self.idles += 1;
        self.moment += 1;
    }

    // A call that failed without effect.
    pub(crate) fn fail(&mut self, file: u32) -> Failed
        requires { moment_of self.old < 2 ^ 62 }
        ensures told { history_of self.new ≡ with_call idle (history_of self.old) }
        ensures moment { moment_of self.new ≡ moment_of self.old + 1 }
        ensures set { failing_of self.new ≡ failing_of self.old }
        ensures counts { NoneFell (faults_of self.old) (faults_of self.new) }
        ensures cause { Rose (faults_of self.old file) (faults_of self.new file) }
    {
        self.raise(file);
        self.pass();
        Failed
    }

    // Does a call that has an effect, or finds no memory for it, and then nothing changes.
    pub(crate) fn keep(
        &mut self,
        file: u32,
        kind: Kind,
        at: usize,
        bytes: &[u8],
    ) -> Result<(), AllocError>
        requires time { moment_of self.old < 2 ^ 62 }
        requires fits { reach at bytes.now < 2 ^ 64 }
        ensures told { OnOk result (history_of self.new ≡ with_call (on file (change_of kind at bytes.now)) (history_of self.old)) }
        ensures moment { OnOk result (moment_of self.new ≡ moment_of self.old + 1) }
        ensures set { failing_of self.new ≡ failing_of self.old }
        ensures counts { (other : ℕ) → faults_of self.new other ≡ faults_of self.old other }
        ensures err { OnErr result ((history_of self.new ≡ history_of self.old) × (moment_of self.new ≡ moment_of self.old)) }
    {
        match add(
            self.alloc,
            &mut self.files,
            &mut self.entries,
            self.idles,
            file,
            kind,
            at,
            bytes,
        ) {
            Ok(()) => {
                self.idles = 0;
                self.moment += 1;
                Ok(())
            }
            Err(error) => Err(error),
        }
    }

    // A write that is listed to fail: its bytes are kept, since a stop may leave them.
    pub(crate) fn write_failed(&mut self, file: u32, at: usize, bytes: &[u8]) -> Failed
        requires time { moment_of self.old < 2 ^ 62 }
        requires fits { at + length bytes.now < 2 ^ 64 }
        ensures told { Adds (MayFail file at bytes.now) (history_of self.old) (history_of self.new) }
        ensures moment { moment_of self.new ≡ moment_of self.old + 1 }
        ensures set { failing_of self.new ≡ failing_of self.old }
        ensures counts { NoneFell (faults_of self.old) (faults_of self.new) }
        ensures cause { Rose (faults_of self.old file) (faults_of self.new file) }
    {
        match self.keep(file, Kind::FailedWrite, at, bytes) {
            Ok(()) => {
                self.raise(file);
                Failed
            }
            Err(_) => self.fail(file),
        }
    }
}
