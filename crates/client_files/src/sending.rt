// A client's file into a ticket.
ghost use Rattle.std.specs.Prelude.{◌≡◌, ◌≤◌, ◌^◌, length};
ghost use Rattle.steps.specs.Calls.{Call};
ghost use Rattle.client_files.specs.Outcomes.{Sending, Writing};
ghost use Rattle.client_files.specs.Reading.{file_of};
ghost use Rattle.client_files.specs.Sending.{Copies, GivesUp};
ghost use Rattle.client_files.specs.Writing.{Closes, Keeps, Loads, Puts};

use crate::outcome::{Came, behind_drop, failing, is_spent_by, unopened, unwritten};
use crate::reading::{next_piece, see_end};
use client_trees::{FileRow, Tree};
use kinds::{Digest, Path, Refusal};
use sha2::{Digest as _, Sha256};
use steps::Stepper;

/// Writes so many bytes of a client's file into the ticket, and answers their SHA-256.
fn copy_bytes<P: Stepper, T: Tree>(
    p: &mut P,
    tree: &mut T,
    path: &Path,
    size: u64,
    ticket: u64,
    buffer: &mut [u8],
) -> Result<Digest, Refusal>
    requires some { 1 ≤ length buffer.old }
    requires few { length buffer.old ≤ 2 ^ 16 }
    ensures copies { Call P.did p.old p.new (λ events. Copies (file_of (T.files tree.old) path.now) ticket size (T.fault_count tree.old) (T.fault_count tree.new) events result) }
    ensures kept { T.files tree.new ≡ T.files tree.old }
    ensures rises { T.fault_count tree.old ≤ T.fault_count tree.new }
    ensures long { length buffer.new ≡ length buffer.old }
{
    let mut hasher = Sha256::new();
    let mut done = 0;
    'pieces: while done < size {
        let count = match next_piece(tree, path, done, size, buffer) {
            Ok(count) => count,
            Err(refusal) => return Err(refusal),
        };
        match p.write_piece(ticket, &buffer[..count]) {
            Ok(_) => {}
            Err(refusal) => return Err(unwritten(refusal)),
        }
        hasher.update(&buffer[..count]);
        done += count as u64;
    }
    Ok(Digest(hasher.finalize()))
}

/// Writes a client's file into the ticket, and sees that it has no other bytes.
fn load<P: Stepper, T: Tree>(
    p: &mut P,
    tree: &mut T,
    path: &Path,
    size: u64,
    ticket: u64,
    buffer: &mut [u8],
) -> Result<Digest, Refusal>
    requires some { 1 ≤ length buffer.old }
    requires few { length buffer.old ≤ 2 ^ 16 }
    ensures loads { Call P.did p.old p.new (λ events. Loads (file_of (T.files tree.old) path.now) ticket size (T.fault_count tree.old) (T.fault_count tree.new) events result) }
    ensures kept { T.files tree.new ≡ T.files tree.old }
    ensures rises { T.fault_count tree.old ≤ T.fault_count tree.new }
    ensures long { length buffer.new ≡ length buffer.old }
{
    let digest = match copy_bytes(p, tree, path, size, ticket, buffer) {
        Ok(digest) => digest,
        Err(refusal) => return Err(refusal),
    };
    match see_end(tree, path, size) {
        Ok(()) => Ok(digest),
        Err(refusal) => Err(refusal),
    }
}

/// Gives the ticket back that isn't filled for this cause, where it is still there, and answers what comes of its file.
fn give_up<P: Stepper>(p: &mut P, ticket: u64, refusal: Refusal) -> Result<Came, Refusal>
    ensures { Call P.did p.old p.new (λ events. GivesUp ticket refusal events result) }
{
    if is_spent_by(refusal) {
        failing(refusal)
    } else {
        behind_drop(refusal, p.drop_ticket(ticket))
    }
}

/// Writes a client's file into the ticket, or gives it back.
fn keep<P: Stepper, T: Tree>(
    p: &mut P,
    tree: &mut T,
    path: &Path,
    size: u64,
    ticket: u64,
    buffer: &mut [u8],
) -> Result<Came, Refusal>
    requires some { 1 ≤ length buffer.old }
    requires few { length buffer.old ≤ 2 ^ 16 }
    ensures keeps { Call P.did p.old p.new (λ events. Keeps (file_of (T.files tree.old) path.now) ticket size (T.fault_count tree.old) (T.fault_count tree.new) events result) }
    ensures kept { T.files tree.new ≡ T.files tree.old }
    ensures rises { T.fault_count tree.old ≤ T.fault_count tree.new }
    ensures long { length buffer.new ≡ length buffer.old }
{
    match load(p, tree, path, size, ticket, buffer) {
        Ok(digest) => Ok(Came::Written(ticket, digest)),
        Err(refusal) => give_up(p, ticket, refusal),
    }
}

/// Opens a ticket for a client's file, and writes the file into it or gives it back.
fn open_and_keep<P: Stepper, T: Tree>(
    p: &mut P,
    tree: &mut T,
    file: &FileRow,
    pool: u32,
    buffer: &mut [u8],
) -> Result<Came, Refusal>
    requires some { 1 ≤ length buffer.old }
    requires few { length buffer.old ≤ 2 ^ 16 }
    ensures puts { Call P.did p.old p.new (λ events. Puts (file_of (T.files tree.old) file.now.path) pool file.now.size (T.fault_count tree.old) (T.fault_count tree.new) events result) }
    ensures kept { T.files tree.new ≡ T.files tree.old }
    ensures rises { T.fault_count tree.old ≤ T.fault_count tree.new }
    ensures long { length buffer.new ≡ length buffer.old }
{
    match p.open_new(pool, file.size, 0) {
        Ok(ticket) => keep(p, tree, &file.path, file.size, ticket, buffer),
        Err(refusal) => unopened(refusal),
    }
}

/// Writes one file of a client, as it was listed, into the hierarchy that begins at this pool, by a ticket of its own, which is
/// neither sealed nor committed. The buffer has 1 to 65,536 bytes. No ticket is left where the file isn't written, unless that is
/// with `LogFault` or `RunFull`. It ends with these two and `Memory` where a step of its own answers so.
pub fn write_file<P: Stepper, T: Tree>(
    p: &mut P,
    tree: &mut T,
    file: &FileRow,
    pool: u32,
    buffer: &mut [u8],
) -> Result<Came, Refusal>
    requires some { 1 ≤ length buffer.old }
    requires few { length buffer.old ≤ 2 ^ 16 }
    ensures writes { Call P.did p.old p.new (λ events. Writing (file_of (T.files tree.old) file.now.path) pool file.now.size (T.fault_count tree.old) (T.fault_count tree.new) events result) }
    ensures kept { T.files tree.new ≡ T.files tree.old }
    ensures rises { T.fault_count tree.old ≤ T.fault_count tree.new }
    ensures long { length buffer.new ≡ length buffer.old }
{
    open_and_keep(p, tree, file, pool, buffer)
}

/// Seals the ticket of a file that is written, or gives it back.
fn close<P: Stepper>(p: &mut P, came: Came) -> Result<Came, Refusal>
    ensures { Call P.did p.old p.new (λ events. Closes came events result) }
{
    match came {
        Came::Written(ticket, digest) => match p.seal(ticket) {
            Ok(()) => Ok(Came::Written(ticket, digest)),
            Err(refusal) => give_up(p, ticket, unwritten(refusal)),
        },
        Came::Failed(_) => Ok(came),
        Came::Held(_) => Ok(came),
    }
}

/// Sends one file of a client, as it was listed, into the hierarchy that begins at this pool, by a ticket of its own, which is
/// sealed and not committed. The buffer has 1 to 65,536 bytes. No ticket is left where the file isn't stored, unless that is
/// with `LogFault` or `RunFull`. It ends with these two and `Memory` where a step of its own answers so.
pub fn send_file<P: Stepper, T: Tree>(
    p: &mut P,
    tree: &mut T,
    file: &FileRow,
    pool: u32,
    buffer: &mut [u8],
) -> Result<Came, Refusal>
    requires some { 1 ≤ length buffer.old }
    requires few { length buffer.old ≤ 2 ^ 16 }
    ensures sends { Call P.did p.old p.new (λ events. Sending (file_of (T.files tree.old) file.now.path) pool file.now.size (T.fault_count tree.old) (T.fault_count tree.new) events result) }
    ensures kept { T.files tree.new ≡ T.files tree.old }
    ensures rises { T.fault_count tree.old ≤ T.fault_count tree.new }
    ensures long { length buffer.new ≡ length buffer.old }
{
    match open_and_keep(p, tree, file, pool, buffer) {
        Ok(came) => close(p, came),
        Err(refusal) => Err(refusal),
    }
}
