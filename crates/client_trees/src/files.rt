// Files in memory under their paths.
ghost use Rattle.std.specs.Prelude.{◌≡◌, ◌<◌, ◌≤◌, ◌++◌, take, drop, [], length, map, is_some, None, IfOk, OnOk, OnErr};
ghost use Rattle.std.specs.BTreeMap.{insert_entry};
ghost use Rattle.std.specs.Cmp.Lexicographic.{slice_cmp};
ghost use Rattle.std.specs.Ordering.{nat_cmp};
ghost use Rattle.client_trees.specs.Files.{row_of, AreInOrder, file_at, appended, finished, removed};

use crate::tree::FileRow;
use kinds::Path;
use std::alloc::{AllocError, Global};
use std::collections::BTreeMap;
use std::marker::Model;

/// A file in memory.
#[derive(Drop)]
pub struct MemFile {
    bytes: Vec<u8>,
    mtime: u64,
}

impl Model for MemFile {
    ghost use Rattle.client_trees.specs.Files.{ClientFile};

    ghost Value = { ClientFile };

    ghost view = { λ f. record { bytes = f.bytes.items; mtime = f.mtime } };
}

impl MemFile {
    /// An empty file. It takes no memory.
    pub(crate) fn empty(alloc: Global) -> Self
        ensures { result ≡ record { bytes = []; mtime = 0 } }
    {
        MemFile {
            bytes: Vec::new(alloc),
            mtime: 0,
        }
    }

    /// Puts bytes behind the last. Its one failure is want of memory.
    fn append(&mut self, bytes: &[u8]) -> Result<(), AllocError>
        ensures value { OnOk result (self.new ≡ record self.old { bytes = self.old.bytes ++ bytes.now }) }
        ensures kept { OnErr result (self.new ≡ self.old) }
    {
        self.bytes.extend_from_slice(bytes)?;
        Ok(())
    }

    /// The file's bytes.
    pub fn bytes(&self) -> &[u8]
        ensures { result.now ≡ self.now.bytes }
    {
        &self.bytes
    }

    /// When it was changed last, in the unit of its tree.
    pub fn mtime(&self) -> u64
        ensures { result ≡ self.now.mtime }
    {
        self.mtime
    }
}

/// The rows of all files.
pub(crate) fn rows(
    alloc: Global,
    files: &BTreeMap<Path, MemFile>,
) -> Result<Vec<FileRow>, AllocError>
    ensures whole { IfOk result (λ rows. rows.items ≡ map row_of files.now.entries) }
    ensures order { IfOk result (λ rows. AreInOrder rows.items) }
{
    let mut rows = Vec::with_capacity(alloc, files.len())?;
    'files: for (path, file) in files {
        rows.push(FileRow {
            path: path.clone()?,
            size: file.bytes.len() as u64,
            mtime: file.mtime,
        })?;
    }
    Ok(rows)
}

/// Copies the bytes from the offset on to the front of the buffer, as many as there are or as have room.
pub(crate) fn copy_from(bytes: &[u8], offset: u64, into: &mut [u8]) -> usize
    ensures bound { result ≤ length into.new }
    ensures same { take result into.new ≡ take result (drop offset bytes.now) }
    ensures end { result ≡ 0 → 0 < length into.new → length bytes.now ≤ offset }
{
    let start = (offset as usize).min(bytes.len());
    let rest = &bytes[start..];
    let count = rest.len().min(into.len());
    into[..count].copy_from_slice(&rest[..count]);
    count
}

/// Puts a file at the path, whatever stood there.
pub(crate) fn put_at(
    files: &mut BTreeMap<Path, MemFile>,
    path: &Path,
    file: MemFile,
) -> Result<(), AllocError>
    ensures value { OnOk result (files.new.entries ≡ insert_entry (slice_cmp nat_cmp) files.old.entries path.now file) }
    ensures kept { OnErr result (files.new.entries ≡ files.old.entries) }
{
    files.insert(path.clone()?, file)?;
    Ok(())
}

/// Puts bytes behind those of the file at the path, and says whether it is there.
pub(crate) fn append_at(
    files: &mut BTreeMap<Path, MemFile>,
    path: &Path,
    bytes: &[u8],
) -> Result<bool, AllocError>
    ensures there { IfOk result (λ there. there ≡ is_some (file_at path.now files.old.entries)) }
    ensures value { OnOk result (files.new.entries ≡ appended path.now bytes.now files.old.entries) }
    ensures kept { OnErr result (files.new.entries ≡ files.old.entries) }
{
    match files.get_mut(path) {
        None => Ok(false),
        Some(file) => match file.append(bytes) {
            Ok(()) => Ok(true),
            Err(e) => Err(e),
        },
    }
}

/// Sets the time of the file at the path, where it is there.
pub(crate) fn set_time(files: &mut BTreeMap<Path, MemFile>, path: &Path, mtime: u64)
    ensures { files.new.entries ≡ finished path.now mtime files.old.entries }
{
    match files.get_mut(path) {
        None => {}
        Some(file) => file.mtime = mtime,
    }
}

/// Takes the file at the path away, where it is there.
pub(crate) fn remove_at(files: &mut BTreeMap<Path, MemFile>, path: &Path)
    ensures value { files.new.entries ≡ removed path.now files.old.entries }
    ensures gone { file_at path.now files.new.entries ≡ None }
{
    // their paths ascend
    let _ = files.len();
    files.remove(path);
}
