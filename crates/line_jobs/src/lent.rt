// A place for a client's tree that may be lent out.
ghost use Rattle.std.specs.Prelude.{◌≤◌};
ghost use Rattle.tree_api.specs.Cause.{Rose};

use client_trees::{FileRow, ListRefused, Tree};
use kinds::Path;
use std::alloc::Global;
use tree_api::Failed;

/// A place for a client's tree.
#[derive(Drop)]
pub enum Lent<T: Tree> {
    /// The tree.
    Here(T),
    /// It is lent out: each call fails. So many calls failed; the count stays at its type's last value.
    Away(u64),
}

/// A call that failed.
fn fault(faults: &mut u64) -> Failed
    ensures rose { Rose faults.old faults.new }
    ensures kept { faults.old ≤ faults.new }
{
    *faults = faults.saturating_add(1);
    Failed
}

impl<T: Tree> Tree for Lent<T> {
    ghost use Rattle.line_jobs.specs.Lents.{faults_of, files_of};

    ghost files = { files_of T.files };

    ghost fault_count = { faults_of T.fault_count };

    fn faults(&self) -> u64 {
        match self {
            Lent::Here(tree) => tree.faults(),
            Lent::Away(faults) => *faults,
        }
    }

    fn list(&mut self, alloc: Global) -> Result<Vec<FileRow>, ListRefused> {
        match self {
            Lent::Here(tree) => tree.list(alloc),
            Lent::Away(faults) => {
                let Failed = fault(faults);
                Err(ListRefused::Failed)
            }
        }
    }

    fn read(&mut self, path: &Path, offset: u64, into: &mut [u8]) -> Result<usize, Failed> {
        match self {
            Lent::Here(tree) => tree.read(path, offset, into),
            Lent::Away(faults) => Err(fault(faults)),
        }
    }

    fn create(&mut self, path: &Path) -> Result<(), Failed> {
        match self {
            Lent::Here(tree) => tree.create(path),
            Lent::Away(faults) => Err(fault(faults)),
        }
    }

    fn append(&mut self, path: &Path, bytes: &[u8]) -> Result<(), Failed> {
        match self {
            Lent::Here(tree) => tree.append(path, bytes),
            Lent::Away(faults) => Err(fault(faults)),
        }
    }

    fn finish(&mut self, path: &Path, mtime: u64) -> Result<(), Failed> {
        match self {
            Lent::Here(tree) => tree.finish(path, mtime),
            Lent::Away(faults) => Err(fault(faults)),
        }
    }

    fn remove(&mut self, path: &Path) -> Result<(), Failed> {
        match self {
            Lent::Here(tree) => tree.remove(path),
            Lent::Away(faults) => Err(fault(faults)),
        }
    }
}
