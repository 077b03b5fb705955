// A file of a client's tree is written, and taken away.
ghost use Rattle.std.specs.Prelude.{◌≡◌, ◌+◌, ◌≤◌, ◌<◌, ◌^◌, [], Some, length, IfSome};
ghost use Rattle.client_trees.specs.Files.{file_at};
ghost use Rattle.command_steps.specs.Clients.{seen};
ghost use Rattle.command_steps.specs.Writing.{Erases, PutsFile, PutsMore, Writes, byte_at, bytes_of, counted};

use admin_words::files::Contents;
use client_trees::Tree;
use kinds::{Path, Refusal};

/// The byte at a place of a file of counted bytes.
fn byte_at(fill: u8, at: u64) -> u8
    ensures { result ≡ byte_at fill at }
{
    ((u64::from(fill) + at % 251) % 251) as u8
}

/// Fills the piece with the bytes of such a file from the place on.
fn fill_piece(piece: &mut [u8], fill: u8, at: u64)
    requires { at + length piece.old < 2 ^ 64 }
    ensures { piece.new ≡ counted fill at (length piece.old) }
{
    let count = piece.len();
    'bytes: for place in 0..count {
        piece[place] = byte_at(fill, at + place as u64);
    }
}

/// Puts these bytes behind those of the file.
fn put_bytes<T: Tree>(tree: &mut T, path: &Path, bytes: &[u8]) -> Result<(), Refusal>
    ensures { PutsMore path.now bytes.now (seen T.files T.fault_count tree.old) (seen T.files T.fault_count tree.new) result }
{
    match tree.append(path, bytes) {
        Ok(()) => Ok(()),
        Err(_) => Err(Refusal::TreeFault),
    }
}

/// Puts so many counted bytes behind those of an empty file, by pieces in the buffer.
fn put_counted<T: Tree>(
    tree: &mut T,
    path: &Path,
    size: u64,
    fill: u8,
    buffer: &mut [u8],
) -> Result<(), Refusal>
    requires some { 1 ≤ length buffer.old }
    requires begun { IfSome (T.files tree.old) (λ files. file_at path.now files ≡ Some (record { bytes = []; mtime = 0 })) }
    ensures { PutsFile path.now (counted fill 0 size) 0 (seen T.files T.fault_count tree.old) (seen T.files T.fault_count tree.new) result }
{
    let mut done = 0;
    'pieces: while done < size {
        let room = buffer.len().min((size - done) as usize);
        let piece = &mut buffer[..room];
        fill_piece(piece, fill, done);
        match put_bytes(tree, path, piece) {
            Ok(()) => {}
            Err(refusal) => return Err(refusal),
        }
        done += room as u64;
    }
    Ok(())
}

/// Puts the contents behind those of an empty file.
fn put_contents<T: Tree>(
    tree: &mut T,
    path: &Path,
    contents: &Contents,
    buffer: &mut [u8],
) -> Result<(), Refusal>
    requires some { 1 ≤ length buffer.old }
    requires begun { IfSome (T.files tree.old) (λ files. file_at path.now files ≡ Some (record { bytes = []; mtime = 0 })) }
    ensures { PutsFile path.now (bytes_of contents.now) 0 (seen T.files T.fault_count tree.old) (seen T.files T.fault_count tree.new) result }
{
    match contents {
        Contents::Text(text) => put_bytes(tree, path, text.as_bytes()),
        Contents::Counted { size, fill } => put_counted(tree, path, *size, *fill, buffer),
    }
}

/// Leaves a file with these contents and this time at the path, unless a call fails.
fn put_file<T: Tree>(
    tree: &mut T,
    path: &Path,
    mtime: u64,
    contents: &Contents,
    buffer: &mut [u8],
) -> Result<(), Refusal>
    requires some { 1 ≤ length buffer.old }
    ensures { PutsFile path.now (bytes_of contents.now) mtime (seen T.files T.fault_count tree.old) (seen T.files T.fault_count tree.new) result }
{
    match tree.create(path) {
        Ok(()) => {}
        Err(_) => return Err(Refusal::TreeFault),
    }
    match put_contents(tree, path, contents, buffer) {
        Ok(()) => {}
        Err(refusal) => return Err(refusal),
    }
    match tree.finish(path, mtime) {
        Ok(()) => Ok(()),
        Err(_) => Err(Refusal::TreeFault),
    }
}

/// Writes a file, whatever stood at its path. Its one refusal is `TreeFault`, where a call on the tree failed; the file is taken away then.
pub(crate) fn write_file<T: Tree>(
    tree: &mut T,
    path: &Path,
    mtime: u64,
    contents: &Contents,
    buffer: &mut [u8],
) -> Result<(), Refusal>
    requires some { 1 ≤ length buffer.old }
    ensures { Writes path.now (bytes_of contents.now) mtime (seen T.files T.fault_count tree.old) (seen T.files T.fault_count tree.new) result }
{
    match put_file(tree, path, mtime, contents, buffer) {
        Ok(()) => Ok(()),
        Err(refusal) => {
            let _ = tree.remove(path).is_ok();
            Err(refusal)
        }
    }
}

/// Takes a file away, where it is there. Its one refusal is `TreeFault`, where the call on the tree failed.
pub(crate) fn erase_file<T: Tree>(tree: &mut T, path: &Path) -> Result<(), Refusal>
    ensures { Erases path.now (seen T.files T.fault_count tree.old) (seen T.files T.fault_count tree.new) result }
{
    match tree.remove(path) {
        Ok(()) => Ok(()),
        Err(_) => Err(Refusal::TreeFault),
    }
}
