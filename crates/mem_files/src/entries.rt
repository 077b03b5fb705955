// The files in memory under their names.
ghost use Rattle.std.specs.Prelude.{◌≡◌, ℕ, ◌<◌, [], length, get_or, IfOk, IfSome, IfNone, IsTrue, true, false};
ghost use Rattle.std.specs.Io.{WritesAtMost};
ghost use Rattle.store_api.specs.Disk.{standing, reads, Leaves};
ghost use Rattle.files_api.specs.Folder.{no_file, IsNew, LeavesFile};
ghost use Rattle.mem_store.specs.Mem.{history_of};
ghost use Rattle.mem_files.specs.Entries.{file_of, file_in, IsFirst, IsFile, IsFree, is_at_rest, SameFiles, Puts, Wrote, WasCut, WasSynced, Pairs};

use files_api::Failed;
use mem_store::MemStore;
use std::alloc::{AllocError, Global};
use std::mem;
use store_api::{Stop, Store};

// The moment from which on a store is called no more.
const LIMIT: u64 = 1 << 62;

// What stands under a name: where `is_there` a file, whose bytes are those of file 0 of its store, and else nothing.
#[derive(Drop)]
pub(crate) struct Body {
    pub is_there: bool,
    pub store: MemStore,
    pub is_sure: bool,
    pub is_sound: bool,
}

// A name that a file has or had.
#[derive(Drop)]
pub(crate) struct Entry {
    pub name: String,
    pub body: Body,
}

// Nothing.
pub(crate) fn nothing(alloc: Global) -> Body
    ensures { result.is_there ≡ false }
{
    Body {
        is_there: false,
        store: MemStore::new(alloc),
        is_sure: true,
        is_sound: true,
    }
}

// An empty file.
pub(crate) fn empty(alloc: Global) -> Body
    ensures { IsNew (file_of result) }
{
    Body {
        is_there: true,
        store: MemStore::new(alloc),
        is_sure: false,
        is_sound: true,
    }
}

// Where the first entry of this name stands.
pub(crate) fn find(entries: &[Entry], name: &str) -> Option<usize>
    ensures some { IfSome result (λ at. IsFirst entries.now name.now at) }
    ensures none { IfNone result (IsFree entries.now name.now) }
{
    'entries: for at in 0..entries.len() {
        if entries[at].name.as_str() == name {
            return Some(at);
        }
    }
    None
}

// Where the file of this name stands.
pub(crate) fn find_file(entries: &[Entry], name: &str) -> Option<usize>
    ensures some { IfSome result (λ at. IsFile entries.now name.now at) }
    ensures none { IfNone result (file_in entries.now name.now ≡ no_file) }
{
    match find(entries, name) {
        Some(at) => {
            if entries[at].body.is_there {
                Some(at)
            } else {
                None
            }
        }
        None => None,
    }
}

// Where the first entry of this name stands. Where there is none it is made, with nothing in it.
pub(crate) fn place(
    alloc: Global,
    entries: &mut Vec<Entry>,
    name: &str,
) -> Result<usize, AllocError>
    ensures first { IfOk result (λ at. IsFirst entries.new.items name.now at) }
    ensures same { SameFiles entries.old.items entries.new.items }
{
    match find(entries, name) {
        Some(at) => return Ok(at),
        None => {}
    }
    let at = entries.len();
    let entry = Entry {
        name: String::from_str(alloc, name)?,
        body: nothing(alloc),
    };
    entries.push(entry)?;
    Ok(at)
}

// Puts what is to stand under a name from now on, and answers what stood there.
pub(crate) fn put(entries: &mut Vec<Entry>, at: usize, body: Body) -> Body
    requires { at < length entries.old.items }
    ensures len { length entries.new.items ≡ length entries.old.items }
    ensures puts { Puts at (file_of body) entries.old.items entries.new.items }
    ensures was { (other : Entry) → result ≡ (get_or entries.old.items at other).body }
{
    mem::replace(&mut entries[at].body, body)
}

// Writes a part of a file. Where it is to fail a part of that is written.
pub(crate) fn write(
    entry: &mut Entry,
    offset: u64,
    piece: &[u8],
    fails: bool,
) -> Result<usize, Failed>
    ensures told { Wrote offset piece.now result entry.old entry.new }
    ensures bound { WritesAtMost result piece.now }
{
    if entry.body.store.moment() >= LIMIT {
        return Err(Failed);
    }
    let span = if fails { piece.len() / 2 } else { piece.len() };
    match entry.body.store.write_at(0, offset, &piece[..span]) {
        Ok(()) if !fails => Ok(span),
        _ => Err(Failed),
    }
}

// Cuts a file.
pub(crate) fn cut(entry: &mut Entry, len: u64) -> Result<(), Failed>
    ensures told { WasCut len result entry.old entry.new }
{
    if entry.body.store.moment() >= LIMIT {
        return Err(Failed);
    }
    match entry.body.store.cut(0, len) {
        Ok(()) => Ok(()),
        Err(_) => Err(Failed),
    }
}

// Makes a file durable. Where it is to fail, or fails, the file is sound no more.
pub(crate) fn sync(entry: &mut Entry, fails: bool) -> Result<(), Failed>
    ensures told { WasSynced result entry.old entry.new }
{
    if fails || entry.body.store.moment() >= LIMIT {
        entry.body.is_sound = false;
        return Err(Failed);
    }
    match entry.body.store.sync(0) {
        Ok(()) => Ok(()),
        Err(_) => {
            entry.body.is_sound = false;
            Err(Failed)
        }
    }
}

// Makes a name sure.
fn make_sure(entry: &mut Entry)
    ensures name { entry.new.name ≡ entry.old.name }
    ensures sure { file_of entry.new.body ≡ record (file_of entry.old.body) { is_sure = true } }
{
    entry.body.is_sure = true;
}

// Makes all names sure.
pub(crate) fn make_all_sure(entries: &mut Vec<Entry>)
    ensures { Pairs (λ old new. new ≡ record old { is_sure = true }) entries.old.items entries.new.items }
{
    'entries: for at in 0..entries.len() {
        make_sure(&mut entries[at]);
    }
}

// Whether a stop leaves the file: where its name is sure, and where bit 61 of the choice is 1.
fn is_kept(is_sure: bool, choice: u64) -> bool
    ensures { IsTrue is_sure → IsTrue result }
{
    is_sure || (choice >> 61) % 2 == 1
}

// What a stop leaves of a store by this choice, where it is to be kept, and else an empty one.
fn left_of(alloc: Global, store: MemStore, keeps: bool, choice: u64) -> MemStore
    ensures rest { (history_of result).calls ≡ [] }
    ensures left { IsTrue keeps → Leaves (standing (history_of store) 0) (reads (history_of result) 0) }
    ensures gone { ¬ IsTrue keeps → reads (history_of result) 0 ≡ [] }
{
    if keeps {
        return store.stop(choice);
    }
    drop(store);
    MemStore::new(alloc)
}

// Leaves of a file what the choice says.
fn stop_one(alloc: Global, entry: &mut Entry, choice: u64)
    ensures name { entry.new.name ≡ entry.old.name }
    ensures left { LeavesFile (file_of entry.old.body) (file_of entry.new.body) }
    ensures rest { is_at_rest entry.new.body ≡ true }
{
    let keeps = is_kept(entry.body.is_sure, choice);
    let store = mem::replace(&mut entry.body.store, MemStore::new(alloc));
    entry.body.store = left_of(alloc, store, keeps, choice);
    entry.body.is_there = entry.body.is_there & keeps;
    entry.body.is_sure = true;
    entry.body.is_sound = true;
}

// The same of all files.
pub(crate) fn stop_all(alloc: Global, entries: &mut Vec<Entry>, choice: u64)
    ensures left { Pairs LeavesFile entries.old.items entries.new.items }
    ensures rest { (k : ℕ) (other : Entry) → k < length entries.new.items → is_at_rest (get_or entries.new.items k other).body ≡ true }
{
    'entries: for at in 0..entries.len() {
        stop_one(alloc, &mut entries[at], choice);
    }
}
