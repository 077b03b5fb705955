// A stored object into a client's tree.
ghost use Rattle.std.specs.Prelude.{◌≡◌, ◌+◌, ◌≤◌, ◌<◌, ◌^◌, ◌↔◌, [], Some, length, IfOk, IfSome, IsTrue};
ghost use Rattle.steps.specs.Calls.{Call};
ghost use Rattle.client_trees.specs.Files.{file_at};
ghost use Rattle.client_files.specs.Restoring.{CopiesOut, Moves, Restoring, Written};

use crate::outcome::{Gave, given_up};
use client_trees::Tree;
use kinds::{Digest, Path, Refusal};
use sha2::{Digest as _, Sha256};
use steps::Stepper;

/// An object as the server keeps it.
#[derive(Clone, Copy)]
pub struct Stored {
    /// Its number.
    pub object: u64,
    /// How many bytes it has.
    pub size: u64,
    /// When its file was changed last, in the unit of its tree.
    pub mtime: u64,
    /// The SHA-256 of its bytes.
    pub digest: Digest,
}

fn is_same(a: &Digest, b: &Digest) -> bool
    ensures { IsTrue result ↔ (a.now ≡ b.now) }
{
    a == b
}

/// Reads the next bytes of the object from the place on, as many as the buffer holds or as there are, and puts them behind those
/// of the file.
fn next_piece<P: Stepper, T: Tree>(
    p: &mut P,
    tree: &mut T,
    path: &Path,
    stored: &Stored,
    at: u64,
    buffer: &mut [u8],
) -> Result<usize, Refusal>
    requires some { 1 ≤ length buffer.old }
    requires few { length buffer.old ≤ 2 ^ 16 }
    requires below { at < stored.now.size }
    ensures moves { Call P.did p.old p.new (λ events. Moves stored.now path.now at (T.fault_count tree.old) (T.fault_count tree.new) (T.files tree.old) (T.files tree.new) buffer.new events result) }
    ensures end { IfOk result (λ count. at + count ≤ stored.now.size) }
    ensures rises { T.fault_count tree.old ≤ T.fault_count tree.new }
    ensures long { length buffer.new ≡ length buffer.old }
{
    let room = buffer.len().min((stored.size - at) as usize);
    let count = match p.read_piece(stored.object, &stored.digest, 0, at, &mut buffer[..room]) {
        Ok(count) => count,
        Err(refusal) => return Err(refusal),
    };
    if count == 0 {
        return Err(Refusal::Memory);
    }
    match tree.append(path, &buffer[..count]) {
        Ok(()) => Ok(count),
        Err(_) => Err(Refusal::TreeFault),
    }
}

/// Puts all bytes of the object behind those of an empty file, and answers their SHA-256.
fn copy_bytes<P: Stepper, T: Tree>(
    p: &mut P,
    tree: &mut T,
    path: &Path,
    stored: &Stored,
    buffer: &mut [u8],
) -> Result<Digest, Refusal>
    requires some { 1 ≤ length buffer.old }
    requires few { length buffer.old ≤ 2 ^ 16 }
    requires begun { IfSome (T.files tree.old) (λ files. file_at path.now files ≡ Some (record { bytes = []; mtime = 0 })) }
    ensures written { Call P.did p.old p.new (λ events. Written stored.now path.now (T.fault_count tree.old) (T.fault_count tree.new) (T.files tree.old) (T.files tree.new) events result) }
    ensures rises { T.fault_count tree.old ≤ T.fault_count tree.new }
    ensures long { length buffer.new ≡ length buffer.old }
{
    let mut hasher = Sha256::new();
    let size = stored.size;
    let mut done = 0;
    'pieces: while done < size {
        let count = match next_piece(p, tree, path, stored, done, buffer) {
            Ok(count) => count,
            Err(refusal) => return Err(refusal),
        };
        hasher.update(&buffer[..count]);
        done += count as u64;
    }
    Ok(Digest(hasher.finalize()))
}

/// Writes the object's bytes into a new file at the path, sees that they are the ones that were stored, and sets the file's time.
fn copy_out<P: Stepper, T: Tree>(
    p: &mut P,
    tree: &mut T,
    path: &Path,
    stored: &Stored,
    buffer: &mut [u8],
) -> Result<(), Refusal>
    requires some { 1 ≤ length buffer.old }
    requires few { length buffer.old ≤ 2 ^ 16 }
    ensures copies { Call P.did p.old p.new (λ events. CopiesOut stored.now path.now (T.fault_count tree.old) (T.fault_count tree.new) (T.files tree.old) (T.files tree.new) events result) }
    ensures rises { T.fault_count tree.old ≤ T.fault_count tree.new }
    ensures long { length buffer.new ≡ length buffer.old }
{
    match tree.create(path) {
        Ok(()) => {}
        Err(_) => return Err(Refusal::TreeFault),
    }
    let read = match copy_bytes(p, tree, path, stored, buffer) {
        Ok(digest) => digest,
        Err(refusal) => return Err(refusal),
    };
    if !is_same(&stored.digest, &read) {
        return Err(Refusal::DigestDiffers {
            kept: stored.digest,
            given: read,
        });
    }
    match tree.finish(path, stored.mtime) {
        Ok(()) => Ok(()),
        Err(_) => Err(Refusal::TreeFault),
    }
}

/// Restores one object to a path of a client's tree, whatever stood there, and sets the file's time. The buffer has 1 to 65,536
/// bytes. Where the object isn't restored no file is left at the path, unless a call on the tree failed; no other file changes. It
/// ends with `LogFault`, `RunFull` and `Memory` where a step of its own answers so.
pub fn restore_file<P: Stepper, T: Tree>(
    p: &mut P,
    tree: &mut T,
    path: &Path,
    stored: &Stored,
    buffer: &mut [u8],
) -> Result<Gave, Refusal>
    requires some { 1 ≤ length buffer.old }
    requires few { length buffer.old ≤ 2 ^ 16 }
    ensures restores { Call P.did p.old p.new (λ events. Restoring stored.now path.now (T.fault_count tree.old) (T.fault_count tree.new) (T.files tree.old) (T.files tree.new) events result) }
    ensures rises { T.fault_count tree.old ≤ T.fault_count tree.new }
    ensures long { length buffer.new ≡ length buffer.old }
{
    match copy_out(p, tree, path, stored, buffer) {
        Ok(()) => Ok(Gave::Restored),
        Err(refusal) => {
            let _ = tree.remove(path).is_ok();
            given_up(refusal)
        }
    }
}
