// The numbered files of a folder, a few of which are open.
ghost use Rattle.std.specs.Prelude.{◌≡◌, ◌≢◌, ◌<◌, ◌^◌, ℕ, [], IsTrue, OnOk, true, false};
ghost use Rattle.store_api.specs.Disk.{Standing};
ghost use Rattle.store_api.specs.Told.{Told};
ghost use Rattle.files_api.specs.Folder.{Label};
ghost use Rattle.real_edge.specs.Ledger.{Faults, is_lost};
ghost use Rattle.real_edge.specs.Names.{file_name};
ghost use Rattle.real_edge.specs.Pool.{AreNamed};
ghost use Rattle.real_edge.specs.Holds.{Holds, has};

use crate::names::name_of;
use crate::pool::Pool;
use files_api::{Failed, Files, Stop};
use std::alloc::Global;
use std::collections::BTreeSet;

#[derive(Drop)]
pub(crate) struct Folder<F: Files + Drop> {
    pub files: F,
    alloc: Global,
    pub pool: Pool<F::Handle>,
    // the files that were written or cut since their last sync
    pub changed: BTreeSet<u32>,
    // the files that this run has settled or made
    pub settled: BTreeSet<u32>,
    // whether the names were synced since this run began and since a file was made
    pub is_synced: bool,
}

impl<F: Files + Drop> Folder<F> {
    ghost use Rattle.real_edge.specs.Desks.{desk_of, Enters, Reached, SyncsChanged, SyncsAllNames};

    // A folder that is still to be entered.
    pub fn new(files: F, alloc: Global) -> Folder<F>
        ensures files { result.files ≡ files }
        ensures named { (label_of : F.Handle → Label) → AreNamed label_of result.pool }
        ensures changed { result.changed.keys ≡ [] }
        ensures synced { result.is_synced ≡ false }
    {
        Folder {
            files,
            alloc,
            pool: Pool::new(alloc),
            changed: BTreeSet::new(alloc),
            settled: BTreeSet::new(alloc),
            is_synced: false,
        }
    }

    // Makes the folder, where it is missing, and locks it.
    pub fn enter(&mut self) -> Result<(), Failed>
        ensures told { Told (F.told self.old.files) (F.told self.new.files) (Enters F.label_of result self.old self.new) }
    {
        match self.files.make() {
            Ok(()) => {}
            Err(failed) => return Err(failed),
        }
        match self.files.sync_parent() {
            Ok(()) => self.files.lock(),
            Err(failed) => Err(failed),
        }
    }

    // Opens a file, and makes it where it is missing and is to be made. Answers none where there is no such file.
    pub fn fetch(&mut self, file: u32, is_made: bool) -> Result<Option<F::Handle>, Failed>
        ensures told { Told (F.told self.old.files) (F.told self.new.files) (λ old new. (faults : Faults) (seen : ℕ → Standing) → ¬ IsTrue faults.all_lost → Holds F.label_of true (desk_of self.old) faults old seen → Reached F.label_of file result self.new faults new seen) }
    {
        let name = match name_of(self.alloc, file) {
            Ok(name) => name,
            Err(_) => return Err(Failed),
        };
        match self.files.open(name.as_str()) {
            Ok(None) if is_made => self.make(file, name.as_str()),
            found => found,
        }
    }

    // Makes a file that is missing.
    fn make(&mut self, file: u32, name: &str) -> Result<Option<F::Handle>, Failed>
        requires { name.now ≡ file_name file }
        ensures told { Told (F.told self.old.files) (F.told self.new.files) (λ old new. (faults : Faults) (seen : ℕ → Standing) → ¬ IsTrue faults.all_lost → Holds F.label_of true (desk_of self.old) faults old seen → Reached F.label_of file result self.new faults new seen) }
    {
        self.is_synced = false;
        match self.files.create(name) {
            Ok(handle) => Ok(Some(handle)),
            Err(failed) => Err(failed),
        }
    }

    // Makes the names of the folder's files durable.
    pub fn sync_names(&mut self) -> Result<(), Failed>
        ensures told { Told (F.told self.old.files) (F.told self.new.files) (SyncsAllNames F.label_of result self.old self.new) }
        ensures synced { OnOk result (IsTrue self.new.is_synced) }
        ensures changed { self.new.changed.keys ≡ self.old.changed.keys }
    {
        if self.is_synced {
            return Ok(());
        }
        match self.files.sync_names() {
            Ok(()) => {
                self.is_synced = true;
                Ok(())
            }
            Err(failed) => Err(failed),
        }
    }

    // Whether a file and its name are on the disk by what this run did: it has settled the file, which nothing has changed since its last
    // sync, and no file was made since the last sync of the names.
    pub fn is_clean(&self, file: u32) -> bool
        ensures unchanged { IsTrue result → ¬ IsTrue (has self.now.changed.keys file) }
        ensures synced { IsTrue result → IsTrue self.now.is_synced }
    {
        self.is_synced && is_marked(&self.settled, file) && !is_marked(&self.changed, file)
    }

    // Makes a file durable, where it was changed since its last sync.
    pub fn sync_changed(&mut self, file: u32, handle: &F::Handle) -> Result<(), Failed>
        ensures told { Told (F.told self.old.files) (F.told self.new.files) (SyncsChanged F.label_of file handle.now result self.old self.new) }
        ensures unchanged { OnOk result (¬ IsTrue (has self.new.changed.keys file)) }
    {
        if !is_marked(&self.changed, file) {
            return Ok(());
        }
        match self.files.sync(handle) {
            Ok(()) => {
                unmark(&mut self.changed, file);
                Ok(())
            }
            Err(failed) => Err(failed),
        }
    }
}

impl<F: Stop + Drop> Folder<F> {
    ghost use Rattle.files_api.specs.Folder.{StopsAs};

    // The folder after a stop of the machine, still to be entered.
    pub fn stop(self, choice: u64) -> Folder<F>
        ensures told { Told (F.told self.files) (F.told result.files) StopsAs }
        ensures named { (label_of : F.Handle → Label) → AreNamed label_of result.pool }
        ensures synced { result.is_synced ≡ false }
    {
        let Folder { files, alloc, .. } = self;
        Folder::new(files.stop(choice), alloc)
    }
}

// Whether the file is among these.
fn is_marked(files: &BTreeSet<u32>, file: u32) -> bool
    ensures { result ≡ has files.now.keys file }
{
    files.contains(&file)
}

// Puts the file among these, or finds no memory for it.
pub(crate) fn mark(files: &mut BTreeSet<u32>, file: u32) -> Result<(), Failed>
    ensures marked { OnOk result (IsTrue (has files.new.keys file)) }
    ensures others { (other : ℕ) → IsTrue (has files.old.keys other) → IsTrue (has files.new.keys other) }
{
    match files.insert(file) {
        Ok(_) => Ok(()),
        Err(_) => Err(Failed),
    }
}

// Takes the file from among these.
fn unmark(files: &mut BTreeSet<u32>, file: u32)
    ensures gone { ¬ IsTrue (has files.new.keys file) }
    ensures others { (other : ℕ) → other ≢ file → IsTrue (has files.old.keys other) → IsTrue (has files.new.keys other) }
{
    let _ = files.remove(&file);
}
