//! The files that are stored: what a file has follows from its size and the time of its last change.
use crate::fault::Fault;
use crate::seeds::Seeds;
use client_trees::{FileRow, MemTree, Tree};
use inventory_rows::Tables;
use inventory_rows::version_groups::Version;
use kinds::Refusal;
use std::alloc::Global;
use std::collections::BTreeMap;
use tree_api::Failed;

/// A piece has at most so many bytes.
const MOST_BYTES: usize = 65536;

/// The bytes of a file of this size that was changed last at this time: the lowest byte of each of the numbers from that seed.
pub fn bytes_of(alloc: Global, size: u64, mtime: u64) -> Result<Vec<u8>, Refusal> {
    let mut seeds = Seeds::new(mtime);
    let mut out = Vec::new(alloc);
    for _ in 0..size {
        out.push((seeds.number() % 256) as u8)?;
    }
    Ok(out)
}

/// Puts the file into a tree.
fn put(tree: &mut MemTree, row: &FileRow, bytes: &[u8]) -> Result<(), Failed> {
    tree.create(&row.path)?;
    for piece in bytes.chunks(MOST_BYTES) {
        tree.append(&row.path, piece)?;
    }
    tree.finish(&row.path, row.mtime)
}

/// A tree with this file alone.
pub fn tree_of(alloc: Global, row: &FileRow) -> Result<MemTree, Fault> {
    let bytes = bytes_of(alloc, row.size, row.mtime)?;
    let mut tree = MemTree::new(alloc);
    match put(&mut tree, row, bytes.as_slice()) {
        Ok(()) => Ok(tree),
        Err(_) => {
            drop(tree);
            Err(Fault::Refused(Refusal::Memory))
        }
    }
}

/// Adds the bytes of a version's object.
fn add(
    alloc: Global,
    contents: &mut BTreeMap<u64, Vec<u8>>,
    version: &Version,
) -> Result<(), Refusal> {
    let bytes = bytes_of(alloc, version.size.bytes(), version.mtime)?;
    let _ = contents.insert(version.object, bytes)?;
    Ok(())
}

/// The bytes of the objects of all versions.
pub fn contents_of(alloc: Global, tables: &Tables) -> Result<BTreeMap<u64, Vec<u8>>, Refusal> {
    let mut contents = BTreeMap::new(alloc);
    for (_, filespace) in tables.objects.filespaces() {
        for (_, group) in filespace.groups.as_map() {
            for version in group.versions.as_slice() {
                add(alloc, &mut contents, version)?;
            }
        }
    }
    Ok(contents)
}
