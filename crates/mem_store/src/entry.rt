// What a store in memory keeps of its calls.
ghost use Rattle.std.specs.Prelude.{◌≡◌, ◌≢◌, ℕ, ◌+◌, ◌<◌, ◌≤◌, ◌^◌, List, [], ◌∷◌, ◌++◌, length, take, drop, replicate, OnOk, OnErr, IfOk};
ghost use Rattle.store_api.specs.Disk.{on, idle};
ghost use Rattle.mem_store.specs.Files.{content_of, room_of, reach};
ghost use Rattle.mem_store.specs.Entries.{change_of, applied, taken_of, first_of, calls_onto, Agrees, HasRoom, IsEntryOf};

use crate::files::Files;
use std::alloc::{AllocError, Global};

#[derive(Clone, Copy)]
pub(crate) enum Kind {
    Write,
    FailedWrite,
    Cut,
    Sync,
}

// One call that had an effect, with what is needed to do it again and to undo it.
#[derive(Drop)]
pub(crate) struct Entry {
    pub idles: u64,
    pub file: u32,
    pub kind: Kind,
    pub at: usize,
    pub bytes: Vec<u8>,
    pub old: Vec<u8>,
    pub old_len: usize,
}

// What stands from a place on, at most a number of bytes.
fn piece(alloc: Global, bytes: &[u8], at: usize, span: usize) -> Result<Vec<u8>, AllocError>
    ensures { IfOk result (λ v. v.items ≡ take span (drop at bytes.now)) }
{
    let start = at.min(bytes.len());
    let rest = &bytes[start..];
    let len = span.min(rest.len());
    rest[..len].to_vec(alloc)
}

// The bytes that a call takes away.
fn taken(
    alloc: Global,
    old: &[u8],
    kind: Kind,
    at: usize,
    bytes: &[u8],
) -> Result<Vec<u8>, AllocError>
    ensures { IfOk result (λ v. v.items ≡ taken_of kind at bytes.now old.now) }
{
    let span = match kind {
        Kind::Write => bytes.len(),
        Kind::Cut => old.len(),
        Kind::FailedWrite | Kind::Sync => 0,
    };
    piece(alloc, old, at, span)
}

// Does the call's work on its file.
pub(crate) fn apply(files: &mut Files, file: u32, kind: Kind, at: usize, bytes: &[u8])
    requires { reach at bytes.now ≤ room_of files.old file }
    ensures file { content_of files.new file ≡ applied kind at bytes.now (content_of files.old file) }
    ensures others { (other : ℕ) → other ≢ file → content_of files.new other ≡ content_of files.old other }
    ensures room { (other : ℕ) → room_of files.old other ≤ room_of files.new other }
{
    match kind {
        Kind::Write => files.write(file, at, bytes),
        Kind::Cut => files.cut(file, at),
        Kind::FailedWrite | Kind::Sync => {}
    }
}

// The entry for a call, with room for the call, or no memory for it. No file's bytes change.
fn entry_for(
    alloc: Global,
    files: &mut Files,
    idles: u64,
    file: u32,
    kind: Kind,
    at: usize,
    bytes: &[u8],
) -> Result<Entry, AllocError>
    requires { reach at bytes.now < 2 ^ 64 }
    ensures ok { IfOk result (λ e. IsEntryOf e idles file kind at bytes.now (content_of files.old file)) }
    ensures fits { IfOk result (λ e. (reach at bytes.now ≤ room_of files.new file) × (length (content_of files.old file) ≤ room_of files.new file)) }
    ensures same { (other : ℕ) → content_of files.new other ≡ content_of files.old other }
    ensures room { (other : ℕ) → room_of files.old other ≤ room_of files.new other }
{
    let end = if bytes.is_empty() {
        0
    } else {
        at + bytes.len()
    };
    files.reserve(file, end.max(files.bytes(file).len()))?;
    let was = files.bytes(file);
    let old_len = was.len();
    let old = taken(alloc, was, kind, at, bytes)?;
    let bytes = bytes.to_vec(alloc)?;
    Ok(Entry {
        idles,
        file,
        kind,
        at,
        bytes,
        old,
        old_len,
    })
}

// Does a call and keeps it, or finds no memory for it, and then no file's bytes change.
pub(crate) fn add(
    alloc: Global,
    files: &mut Files,
    entries: &mut Vec<Entry>,
    idles: u64,
    file: u32,
    kind: Kind,
    at: usize,
    bytes: &[u8],
) -> Result<(), AllocError>
    requires agrees { Agrees files.old entries.old.items }
    requires has_room { HasRoom files.old entries.old.items }
    requires fits { reach at bytes.now < 2 ^ 64 }
    ensures agrees { Agrees files.new entries.new.items }
    ensures has_room { HasRoom files.new entries.new.items }
    ensures first { (other : ℕ) → first_of files.new entries.new.items other ≡ first_of files.old entries.old.items other }
    ensures file { OnOk result (content_of files.new file ≡ applied kind at bytes.now (content_of files.old file)) }
    ensures others { (other : ℕ) → other ≢ file → content_of files.new other ≡ content_of files.old other }
    ensures calls { OnOk result (calls_onto [] entries.new.items ≡ on file (change_of kind at bytes.now) ∷ (replicate idles idle ++ calls_onto [] entries.old.items)) }
    ensures err { OnErr result ((calls_onto [] entries.new.items ≡ calls_onto [] entries.old.items) × ((other : ℕ) → content_of files.new other ≡ content_of files.old other)) }
{
    let entry = entry_for(alloc, files, idles, file, kind, at, bytes)?;
    entries.push(entry)?;
    apply(files, file, kind, at, bytes);
    Ok(())
}
