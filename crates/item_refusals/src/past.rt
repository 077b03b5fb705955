ghost use Rattle.std.specs.Prelude.{◌≡◌};

use kinds::Path;

/// What the journal of a run tells of versions and copies that are not as a caller named them: the last transaction of the
/// run that concerns them, by its number.
pub trait Past {
    ghost use Rattle.inventory_rules.specs.Journal.{Journal};

    /// What it tells, as one value.
    ghost journal: { Self → Journal };

    /// The last transaction that removed the object's version.
    fn removed(&self, object: u64) -> Option<u64>
        ensures { result ≡ (journal self.now).removed object };

    /// The last transaction that changed or removed the object's version.
    fn changed(&self, object: u64) -> Option<u64>
        ensures { result ≡ (journal self.now).changed object };

    /// The last transaction that changed or removed the copy of the object in a pool.
    fn copy_changed(&self, object: u64, pool: u32) -> Option<u64>
        ensures { result ≡ (journal self.now).copy_changed object pool };

    /// The last transaction that removed the last version of a path of a filespace.
    fn path_emptied(&self, filespace: u32, path: &Path) -> Option<u64>
        ensures { result ≡ (journal self.now).path_emptied filespace path.now };
}

/// The journal without transactions: that of a database alone.
#[derive(Clone, Copy, Debug)]
pub struct NoPast;

impl Past for NoPast {
    ghost use Rattle.inventory_rules.specs.Journal.{no_journal};

    ghost journal = { λ _. no_journal };

    fn removed(&self, _object: u64) -> Option<u64> {
        None
    }

    fn changed(&self, _object: u64) -> Option<u64> {
        None
    }

    fn copy_changed(&self, _object: u64, _pool: u32) -> Option<u64> {
        None
    }

    fn path_emptied(&self, _filespace: u32, _path: &Path) -> Option<u64> {
        None
    }
}
