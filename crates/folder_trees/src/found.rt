// What a walk found, as the rows of a listing.
ghost use Rattle.std.specs.Prelude.{IfOk};
ghost use Rattle.client_trees.specs.Files.{AreInOrder};

use client_trees::FileRow;
use kinds::Path;
use std::alloc::{AllocError, Global};
use std::collections::BTreeMap;

/// A file as it was found.
#[derive(Clone, Copy)]
pub(crate) struct Found {
    /// How many bytes it has.
    pub size: u64,
    /// When it was changed last, in nanoseconds since 1970.
    pub mtime: u64,
}

/// The rows of all files, in ascending order of their paths.
pub(crate) fn rows(alloc: Global, files: &BTreeMap<Path, Found>) -> Result<Vec<FileRow>, AllocError>
    ensures { IfOk result (λ rows. AreInOrder rows.items) }
{
    let mut rows = Vec::with_capacity(alloc, files.len())?;
    'files: for (path, found) in files {
        rows.push(FileRow {
            path: path.clone()?,
            size: found.size,
            mtime: found.mtime,
        })?;
    }
    Ok(rows)
}
