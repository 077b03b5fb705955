// The files of a folder in memory, call by call.
ghost use Rattle.std.specs.Prelude.{◌≡◌, ◌<◌, ◌≤◌, ℕ, List, length, IsTrue, IfOk};
ghost use Rattle.files_api.specs.Folder.{away, no_file, unmoved};
ghost use Rattle.files_api.specs.Calls.{Reads, Renames, Removes};
ghost use Rattle.mem_files.specs.Mem.{folder_of, labelled};

use crate::entries::{
    Entry, cut, empty, find_file, make_all_sure, place, put, stop_all, sync, write,
};
use crate::list::names_of;
use crate::moves;
use crate::moves::{Move, undo_newest};
use files_api::{Failed, Files, ListRefused, Stop};
use mem_store::MemStore;
use std::alloc::{AllocError, Global};

#[derive(Clone, Copy)]
pub(crate) enum At {
    Away,
    Made,
    Kept,
    Held,
    Spoiled,
}

/// An open file, by its name.
#[derive(Drop)]
pub struct MemHandle {
    pub(crate) name: String,
}

/// The files of a folder in memory, which tell what they have. Each call but `stop` counts; those that are listed fail, and so does one
/// that finds no memory. A listed call has no effect, but that a write has half of what it would have had, and a renaming or a removal
/// that is listed twice is done all the same. The folder is made, made durable and locked by one call each, in this order. Calls can be
/// listed for the time behind later stops, too. A handle is of whatever file has its name.
#[derive(Drop)]
pub struct MemFiles {
    pub(crate) alloc: Global,
    pub(crate) entries: Vec<Entry>,
    // the renamings and removals since the last sync of the names, the newest last
    pub(crate) moves: Vec<Move>,
    pub(crate) at: At,
    // how many calls there were
    pub(crate) count: u64,
    // the numbers, from 0 on, of the calls that fail
    pub(crate) failing: Vec<u64>,
    // the same for the time behind each stop that is to come, the next one's last
    pub(crate) later: Vec<Vec<u64>>,
    // how many bytes a call reads or writes at most
    pub(crate) most: usize,
}

// Counts a call, and answers whether it is to fail.
fn is_listed(failing: &[u64], count: &mut u64) -> bool {
    let listed = failing.iter().any(|at| *at == *count);
    *count = count.saturating_add(1);
    listed
}

// Whether a call is listed twice.
fn is_twice(failing: &[u64], count: u64) -> bool {
    failing.iter().filter(|at| **at == count).count() > 1
}

// A handle for a name.
fn handle_of(alloc: Global, name: &str) -> Result<MemHandle, AllocError>
    ensures { IfOk result (λ handle. labelled handle ≡ record { name = name.now; turn = 0 }) }
{
    Ok(MemHandle {
        name: String::from_str(alloc, name)?,
    })
}

// The list for the time behind the next stop, which is taken away; an empty one where there is none.
fn take_next(alloc: Global, later: &mut Vec<Vec<u64>>) -> Vec<u64> {
    match later.pop() {
        Some(failing) => failing,
        None => Vec::new(alloc),
    }
}

// Copies what stands from an offset on, at most the buffer's length and the most that is asked for, and answers how many bytes that are.
fn copy_from(bytes: &[u8], offset: u64, into: &mut [u8], most: usize) -> usize
    requires { 0 < most }
    ensures reads { Reads bytes.now offset into.new result }
    ensures bound { result ≤ length into.new }
{
    let start = (offset as usize).min(bytes.len());
    let rest = &bytes[start..];
    let count = rest.len().min(into.len()).min(most);
    into[..count].copy_from_slice(&rest[..count]);
    count
}

impl MemFiles {
    /// An empty folder, which is still to be made.
    pub fn new(alloc: Global) -> MemFiles
        ensures stage { (folder_of result).stage ≡ away }
        ensures settled { IsTrue (folder_of result).is_settled }
        ensures empty { (name : List ℕ) → (folder_of result).files name ≡ no_file }
        ensures moves { (folder_of result).moves ≡ unmoved }
    {
        MemFiles {
            alloc,
            entries: Vec::new(alloc),
            moves: Vec::new(alloc),
            at: At::Away,
            count: 0,
            failing: Vec::new(alloc),
            later: Vec::new(alloc),
            most: usize::MAX,
        }
    }

    /// The files of which the calls fail that are listed by their numbers, the next call being 0, and of which no call reads or writes
    /// more bytes than are given, but at least one.
    pub fn with_failing(self, failing: Vec<u64>, most: usize) -> MemFiles
        ensures { folder_of result ≡ folder_of self }
    {
        let mut files = self;
        files.count = 0;
        files.failing = failing;
        files.most = most;
        files
    }

    /// The files of which behind each stop that is to come the calls fail that its list has, the first call behind it being 0. The next
    /// stop's list is the last one; where there are no more, no call fails.
    pub fn failing_behind_stops(self, lists: Vec<Vec<u64>>) -> MemFiles
        ensures { folder_of result ≡ folder_of self }
    {
        let mut files = self;
        files.later = lists;
        files
    }

    /// How many calls there were since they began to be counted.
    pub fn count(&self) -> u64 {
        self.count
    }

    // Renames a file.
    fn rename_file(&mut self, from: &str, to: &str) -> Result<(), Failed>
        ensures { Renames from.now to.now result (folder_of self.old) (folder_of self.new) }
    {
        let there = match place(self.alloc, &mut self.entries, to) {
            Ok(there) => there,
            Err(_) => return Err(Failed),
        };
        let at = match find_file(&self.entries, from) {
            Some(at) => at,
            None => return Err(Failed),
        };
        if from == to {
            return Ok(());
        }
        match moves::rename(
            self.alloc,
            &mut self.entries,
            &mut self.moves,
            at,
            from,
            there,
            to,
        ) {
            Ok(()) => Ok(()),
            Err(_) => Err(Failed),
        }
    }

    // Removes a file, where there is one.
    fn remove_file(&mut self, name: &str) -> Result<bool, Failed>
        ensures { Removes name.now result (folder_of self.old) (folder_of self.new) }
    {
        let at = match find_file(&self.entries, name) {
            Some(at) => at,
            None => return Ok(false),
        };
        match moves::remove(self.alloc, &mut self.entries, &mut self.moves, at, name) {
            Ok(()) => Ok(true),
            Err(_) => Err(Failed),
        }
    }
}

impl Files for MemFiles {
    ghost use Rattle.std.specs.Prelude.{Some};
    ghost use Rattle.mem_files.specs.Mem.{labelled};
    ghost use Rattle.mem_files.specs.Settled.{settled_of};

    type Handle = MemHandle;

    ghost told = { λ m. Some (folder_of m) };

    ghost label_of = { labelled };

    ghost settled = { settled_of };

    fn make(&mut self) -> Result<(), Failed> {
        if is_listed(&self.failing, &mut self.count) {
            return Err(Failed);
        }
        self.at = At::Made;
        Ok(())
    }

    fn sync_parent(&mut self) -> Result<(), Failed> {
        if is_listed(&self.failing, &mut self.count) {
            return Err(Failed);
        }
        self.at = At::Kept;
        Ok(())
    }

    fn lock(&mut self) -> Result<(), Failed> {
        if is_listed(&self.failing, &mut self.count) {
            return Err(Failed);
        }
        self.at = At::Held;
        Ok(())
    }

    fn open(&mut self, name: &str) -> Result<Option<MemHandle>, Failed> {
        if is_listed(&self.failing, &mut self.count) {
            return Err(Failed);
        }
        match find_file(&self.entries, name) {
            Some(_) => {}
            None => return Ok(None),
        }
        match handle_of(self.alloc, name) {
            Ok(handle) => Ok(Some(handle)),
            Err(_) => Err(Failed),
        }
    }

    fn create(&mut self, name: &str) -> Result<MemHandle, Failed> {
        if is_listed(&self.failing, &mut self.count) {
            return Err(Failed);
        }
        match find_file(&self.entries, name) {
            Some(_) => return Err(Failed),
            None => {}
        }
        let handle = match handle_of(self.alloc, name) {
            Ok(handle) => handle,
            Err(_) => return Err(Failed),
        };
        match place(self.alloc, &mut self.entries, name) {
            Ok(at) => {
                drop(put(&mut self.entries, at, empty(self.alloc)));
                Ok(handle)
            }
            Err(_) => Err(Failed),
        }
    }

    fn len(&mut self, handle: &MemHandle) -> Result<u64, Failed> {
        if is_listed(&self.failing, &mut self.count) {
            return Err(Failed);
        }
        match find_file(&self.entries, handle.name.as_str()) {
            Some(at) => Ok(self.entries[at].body.store.bytes(0).len() as u64),
            None => Ok(0),
        }
    }

    fn read_at(
        &mut self,
        handle: &MemHandle,
        offset: u64,
        into: &mut [u8],
    ) -> Result<usize, Failed> {
        if is_listed(&self.failing, &mut self.count) {
            return Err(Failed);
        }
        let most = self.most.max(1);
        match find_file(&self.entries, handle.name.as_str()) {
            Some(at) => Ok(copy_from(self.entries[at].body.store.bytes(0), offset, into, most)),
            None => Ok(0),
        }
    }

    fn write_at(&mut self, handle: &MemHandle, offset: u64, bytes: &[u8]) -> Result<usize, Failed> {
        let fails = is_listed(&self.failing, &mut self.count);
        let count = bytes.len().min(self.most.max(1));
        match find_file(&self.entries, handle.name.as_str()) {
            Some(at) => write(&mut self.entries[at], offset, &bytes[..count], fails),
            None => Err(Failed),
        }
    }

    fn cut(&mut self, handle: &MemHandle, len: u64) -> Result<(), Failed> {
        if is_listed(&self.failing, &mut self.count) {
            return Err(Failed);
        }
        match find_file(&self.entries, handle.name.as_str()) {
            Some(at) => cut(&mut self.entries[at], len),
            None => Err(Failed),
        }
    }

    fn sync(&mut self, handle: &MemHandle) -> Result<(), Failed> {
        let fails = is_listed(&self.failing, &mut self.count);
        match find_file(&self.entries, handle.name.as_str()) {
            Some(at) => sync(&mut self.entries[at], fails),
            None => Ok(()),
        }
    }

    fn sync_names(&mut self) -> Result<(), Failed> {
        if is_listed(&self.failing, &mut self.count) {
            self.at = At::Spoiled;
            return Err(Failed);
        }
        make_all_sure(&mut self.entries);
        self.moves.clear();
        Ok(())
    }

    fn list(&mut self) -> Result<Vec<String>, ListRefused> {
        if is_listed(&self.failing, &mut self.count) {
            return Err(ListRefused::Failed);
        }
        match names_of(self.alloc, &self.entries) {
            Ok(names) => Ok(names),
            Err(_) => Err(ListRefused::Memory),
        }
    }

    fn rename(&mut self, from: &str, to: &str) -> Result<(), Failed> {
        let is_done = is_twice(&self.failing, self.count);
        let fails = is_listed(&self.failing, &mut self.count);
        if fails && !is_done {
            return Err(Failed);
        }
        match self.rename_file(from, to) {
            Ok(()) if !fails => Ok(()),
            _ => Err(Failed),
        }
    }

    fn remove(&mut self, name: &str) -> Result<bool, Failed> {
        let is_done = is_twice(&self.failing, self.count);
        let fails = is_listed(&self.failing, &mut self.count);
        if fails && !is_done {
            return Err(Failed);
        }
        match self.remove_file(name) {
            Ok(was_there) if !fails => Ok(was_there),
            _ => Err(Failed),
        }
    }
}

impl Stop for MemFiles {
    /// The files after a stop now and a start. The number that bits 50 to 57 of `choice` have, the lowest first, is how many of the
    /// renamings and removals since the last sync of the names are undone, the newest first. Of a file whose name is sure, and where
    /// bit 61 is 1 of each, the stop leaves what its store leaves at a stop by this choice; another one is gone. From then on the calls
    /// fail that were listed for the time behind this stop, and they are counted from 0 on.
    fn stop(self, choice: u64) -> Self {
        let MemFiles {
            alloc,
            mut entries,
            mut moves,
            at: _,
            count: _,
            failing: _,
            mut later,
            most,
        } = self;
        undo_newest(&mut entries, &mut moves, (choice >> 50) % 256);
        stop_all(alloc, &mut entries, choice);
        moves.clear();
        let failing = take_next(alloc, &mut later);
        MemFiles {
            alloc,
            entries,
            moves,
            at: At::Away,
            count: 0,
            failing,
            later,
            most,
        }
    }
}
