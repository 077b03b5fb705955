// The files of a client in memory.
ghost use Rattle.std.specs.Prelude.{◌≡◌, ◌≤◌, ◌↔◌, ◌⊎◌, [], None, Some, Err, map, IfOk, OnOk, IsErr, IsTrue};
ghost use Rattle.std.specs.Io.{ReadsAtMost};
ghost use Rattle.std.specs.Option.{option_copied};
ghost use Rattle.tree_api.specs.Cause.{HasCause};
ghost use Rattle.client_trees.specs.Files.{row_of, AreInOrder, file_at, created, appended, finished, removed, IsThere, Gives};
ghost use Rattle.client_trees.specs.Listing.{HasListCause};
ghost use Rattle.client_trees.specs.Memory.{one_more, counted, IsListed, Turns, Lists};

use crate::files::{MemFile, append_at, copy_from, put_at, remove_at, rows, set_time};
use crate::tree::{FileRow, ListRefused, Tree};
use kinds::Path;
use std::alloc::Global;
use std::collections::BTreeMap;
use std::marker::Model;
use tree_api::Failed;

/// The files of a client in memory. Its calls are numbered from 0. Those that were named fail, and so does one that finds no
/// memory, and reading or lengthening a file that isn't there; no other. A call that fails leaves the files as they were.
#[derive(Drop)]
pub struct MemTree {
    files: BTreeMap<Path, MemFile>,
    failing: Vec<u64>,
    call: u64,
    faults: u64,
}

impl Model for MemTree {
    ghost use Rattle.client_trees.specs.Memory.{TreeState};

    ghost Value = { TreeState };

    ghost view = { λ t. record { files = t.files.entries; call = t.call; failing = t.failing.items; faults = t.faults } };
}

impl MemTree {
    /// A tree without files, of which no call is to fail.
    pub fn new(alloc: Global) -> Self
        ensures { result ≡ record { files = []; call = 0; failing = []; faults = 0 } }
    {
        MemTree {
            files: BTreeMap::new(alloc),
            failing: Vec::new(alloc),
            call: 0,
            faults: 0,
        }
    }

    /// The tree, with these calls failing, counted from 0.
    pub fn with_failing(self, calls: Vec<u64>) -> Self
        ensures { result ≡ record self { failing = calls.items } }
    {
        MemTree {
            failing: calls,
            ..self
        }
    }

    /// The file at a path.
    pub fn file(&self, path: &Path) -> Option<&MemFile>
        ensures { option_copied result ≡ file_at path.now self.now.files }
    {
        self.files.get(path)
    }

    // Whether the next call is to fail, which it counts.
    fn counts_call(&mut self) -> bool
        ensures listed { IsTrue result ↔ IsListed self.old }
        ensures counted { self.new ≡ counted self.old }
    {
        let fails = self.failing.iter().any(|call| *call == self.call);
        self.call = self.call.saturating_add(1);
        fails
    }

    // A call that failed.
    fn fault(&mut self) -> Failed
        ensures counted { self.new ≡ record self.old { faults = one_more self.old.faults } }
        ensures kept { self.old.faults ≤ self.new.faults }
    {
        self.faults = self.faults.saturating_add(1);
        Failed
    }
}

impl Tree for MemTree {
    ghost files = { λ t. Some t.files };

    ghost fault_count = { λ t. t.faults };

    fn faults(&self) -> u64 {
        self.faults
    }

    /// Fails exactly where it is listed to.
    fn list(&mut self, alloc: Global) -> Result<Vec<FileRow>, ListRefused>
        ensures order { IfOk result (λ rows. AreInOrder rows.items) }
        ensures whole { IfOk result (λ rows. rows.items ≡ map row_of self.old.files) }
        ensures kept { self.new.files ≡ self.old.files }
        ensures cause { HasListCause self.old.faults self.new.faults result }
        ensures listed { IsListed self.old → result ≡ Err ListRefused.Failed }
        ensures state { Lists result self.old self.new }
    {
        if self.counts_call() {
            let Failed = self.fault();
            return Err(ListRefused::Failed);
        }
        match rows(alloc, &self.files) {
            Ok(rows) => Ok(rows),
            Err(_) => Err(ListRefused::Memory),
        }
    }

    /// Fails exactly where it is listed to or the file isn't there.
    fn read(&mut self, path: &Path, offset: u64, into: &mut [u8]) -> Result<usize, Failed>
        ensures bound { ReadsAtMost result into.new }
        ensures bytes { IfOk result (λ count. Gives path.now offset into.new count self.old.files) }
        ensures cause { HasCause self.old.faults self.new.faults result }
        ensures listed { IsErr result ↔ (IsListed self.old ⊎ (file_at path.now self.old.files ≡ None)) }
        ensures state { Turns result self.old self.new self.old.files }
    {
        if self.counts_call() {
            return Err(self.fault());
        }
        match self.files.get(path) {
            None => Err(self.fault()),
            Some(file) => Ok(copy_from(file.bytes(), offset, into)),
        }
    }

    /// Fails where it is listed to, and where it finds no memory.
    fn create(&mut self, path: &Path) -> Result<(), Failed>
        ensures cause { HasCause self.old.faults self.new.faults result }
        ensures listed { IsListed self.old → IsErr result }
        ensures state { Turns result self.old self.new (created path.now self.old.files) }
    {
        if self.counts_call() {
            return Err(self.fault());
        }
        let file = MemFile::empty(*self.failing.allocator());
        match put_at(&mut self.files, path, file) {
            Ok(()) => Ok(()),
            Err(_) => Err(self.fault()),
        }
    }

    /// Fails where it is listed to, where the file isn't there, and where it finds no memory.
    fn append(&mut self, path: &Path, bytes: &[u8]) -> Result<(), Failed>
        ensures there { OnOk result (IsThere path.now self.old.files) }
        ensures cause { HasCause self.old.faults self.new.faults result }
        ensures listed { IsListed self.old → IsErr result }
        ensures state { Turns result self.old self.new (appended path.now bytes.now self.old.files) }
    {
        if self.counts_call() {
            return Err(self.fault());
        }
        match append_at(&mut self.files, path, bytes) {
            Ok(true) => Ok(()),
            Ok(false) => Err(self.fault()),
            Err(_) => Err(self.fault()),
        }
    }

    /// Fails exactly where it is listed to.
    fn finish(&mut self, path: &Path, mtime: u64) -> Result<(), Failed>
        ensures cause { HasCause self.old.faults self.new.faults result }
        ensures listed { IsErr result ↔ IsListed self.old }
        ensures state { Turns result self.old self.new (finished path.now mtime self.old.files) }
    {
        if self.counts_call() {
            return Err(self.fault());
        }
        set_time(&mut self.files, path, mtime);
        Ok(())
    }

    /// Fails exactly where it is listed to.
    fn remove(&mut self, path: &Path) -> Result<(), Failed>
        ensures cause { HasCause self.old.faults self.new.faults result }
        ensures listed { IsErr result ↔ IsListed self.old }
        ensures state { Turns result self.old self.new (removed path.now self.old.files) }
        ensures gone { OnOk result (file_at path.now self.new.files ≡ None) }
    {
        if self.counts_call() {
            return Err(self.fault());
        }
        remove_at(&mut self.files, path);
        Ok(())
    }
}
