//! A stored file that is read.
ghost use Rattle.std.specs.Prelude.{◌≡◌, ◌≤◌, ◌<◌, ◌+◌, ◌^◌, length, IfOk};
ghost use Rattle.std.specs.Option.{option_copied};
ghost use Rattle.steps.specs.Calls.{Call};
ghost use Rattle.sessions.specs.Getting.{Chooses, Gets, Getting, ReadsWhole, Takes, active_line, stored_of, unread};

use crate::asking::ask_path;
use client_files::Stored;
use inventory_answers::VersionLine;
use inventory_work::Listed;
use kinds::{FilespaceName, NodeName, Path, Refusal};
use std::alloc::Global;
use steps::Stepper;

/// What was read of a stored file.
#[derive(Drop)]
pub struct FileRead {
    /// The object's number.
    pub object: u64,
    /// How many bytes it has.
    pub size: u64,
    /// The bytes.
    pub bytes: Listed<u8>,
}

/// The refusal with which the reading of a file ends where a piece was refused so. What can't be answered there stands for want of memory.
fn unread(refusal: Refusal) -> Refusal
    ensures { result ≡ unread refusal }
{
    match refusal.number() {
        23 | 24 | 40 | 41 => refusal,
        _ => Refusal::Memory,
    }
}

/// Reads the next bytes of the object from the place on, as many as the buffer holds or as there are, and puts them behind those that were read.
fn take_piece<P: Stepper>(
    p: &mut P,
    stored: &Stored,
    at: u64,
    buffer: &mut [u8],
    into: &mut Vec<u8>,
) -> Result<usize, Refusal>
    requires some { 1 ≤ length buffer.old }
    requires few { length buffer.old ≤ 2 ^ 16 }
    requires below { at < stored.now.size }
    ensures takes { Call P.did p.old p.new (λ events. Takes stored.now at into.old.items into.new.items events result) }
    ensures end { IfOk result (λ count. at + count ≤ stored.now.size) }
    ensures long { length buffer.new ≡ length buffer.old }
{
    let room = buffer.len().min((stored.size - at) as usize);
    let count = match p.read_piece(stored.object, &stored.digest, 0, at, &mut buffer[..room]) {
        Ok(count) => count,
        Err(refusal) => return Err(unread(refusal)),
    };
    if count == 0 {
        return Err(Refusal::Memory);
    }
    match into.extend_from_slice(&buffer[..count]) {
        Ok(()) => Ok(count),
        Err(_) => Err(Refusal::Memory),
    }
}

/// Reads all bytes of the object.
fn read_whole<P: Stepper>(
    alloc: Global,
    p: &mut P,
    stored: &Stored,
    buffer: &mut [u8],
) -> Result<Listed<u8>, Refusal>
    requires some { 1 ≤ length buffer.old }
    requires few { length buffer.old ≤ 2 ^ 16 }
    ensures { Call P.did p.old p.new (λ events. ReadsWhole stored.now events result) }
{
    let mut bytes = Vec::new(alloc);
    let size = stored.size;
    let mut done = 0;
    'pieces: while done < size {
        match take_piece(p, stored, done, buffer, &mut bytes) {
            Ok(count) => done += count as u64,
            Err(refusal) => return Err(refusal),
        }
    }
    Ok(Listed::from_vec(bytes))
}

/// The active version among these, which are those of a path.
fn active_line(lines: &[VersionLine]) -> Option<&VersionLine>
    ensures { option_copied result ≡ active_line lines.now }
{
    lines.iter().find(|line| line.since.is_none())
}

fn stored_of(line: &VersionLine) -> Stored
    ensures { result ≡ stored_of line.now }
{
    Stored {
        object: line.object,
        size: line.size.bytes(),
        mtime: line.mtime,
        digest: line.digest,
    }
}

/// Asks for the versions of a path, and answers the active one.
fn choose<P: Stepper>(
    p: &mut P,
    node: NodeName,
    filespace: FilespaceName,
    path: Path,
) -> Result<Stored, Refusal>
    ensures { Call P.did p.old p.new (λ events. Chooses node filespace path events result) }
{
    let lines = match ask_path(p, node, filespace, path) {
        Ok(lines) => lines,
        Err(refusal) => return Err(refusal),
    };
    let found = match active_line(lines.as_slice()) {
        Some(line) => Ok(stored_of(line)),
        None => Err(Refusal::NotFound),
    };
    drop(lines);
    found
}

/// Chooses the active version of a path, and reads it.
fn choose_and_read<P: Stepper>(
    alloc: Global,
    p: &mut P,
    node: NodeName,
    filespace: FilespaceName,
    path: Path,
    buffer: &mut [u8],
) -> Result<FileRead, Refusal>
    requires some { 1 ≤ length buffer.old }
    requires few { length buffer.old ≤ 2 ^ 16 }
    ensures { Call P.did p.old p.new (λ events. Gets node filespace path events result) }
{
    let stored = match choose(p, node, filespace, path) {
        Ok(stored) => stored,
        Err(refusal) => return Err(refusal),
    };
    match read_whole(alloc, p, &stored, buffer) {
        Ok(bytes) => Ok(FileRead {
            object: stored.object,
            size: stored.size,
            bytes,
        }),
        Err(refusal) => Err(refusal),
    }
}

/// Reads the active version of a path of a node's filespace. The buffer has 1 to 65,536 bytes. `NotFound` where the node, the filespace or an active version of the path isn't
/// there, `Gone` where the version went meanwhile, `Unavailable` where no copy of it can be read, and `LogFault`, `RunFull` or `Memory`.
pub fn read_file<P: Stepper>(
    alloc: Global,
    p: &mut P,
    node: NodeName,
    filespace: FilespaceName,
    path: Path,
    buffer: &mut [u8],
) -> Result<FileRead, Refusal>
    requires some { 1 ≤ length buffer.old }
    requires few { length buffer.old ≤ 2 ^ 16 }
    ensures { Call P.did p.old p.new (λ events. Getting node filespace path events result) }
{
    choose_and_read(alloc, p, node, filespace, path, buffer)
}
