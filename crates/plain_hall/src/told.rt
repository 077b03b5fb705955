//! What the journal of a run tells, told from the database before and after each transaction.
ghost use Rattle.std.specs.Prelude.{◌≡◌};
ghost use Rattle.plain_hall.specs.Marks.{of_object, of_copy, of_path};

use inventory_rows::Tables;
use inventory_rows::version_groups::{CopyRow, Filespace, Group, Version};
use item_refusals::Past;
use kinds::{Path, Refusal};
use std::alloc::Global;

/// A transaction that did something to an object.
#[derive(Clone, Copy)]
pub struct ObjectMark {
    pub object: u64,
    pub number: u64,
}

/// A transaction that did something to the object's copy in a pool.
#[derive(Clone, Copy)]
pub struct CopyMark {
    pub object: u64,
    pub pool: u32,
    pub number: u64,
}

/// A transaction that removed the last version of a path.
#[derive(Drop)]
pub struct PathMark {
    pub filespace: u32,
    pub path: Path,
    pub number: u64,
}

/// What the transactions of a run did to versions and copies, the newest first.
#[derive(Drop)]
pub struct Told {
    pub removed: Vec<ObjectMark>,
    pub changed: Vec<ObjectMark>,
    pub copies: Vec<CopyMark>,
    pub emptied: Vec<PathMark>,
}

fn of_object(marks: &[ObjectMark], object: u64) -> Option<u64>
    ensures { result ≡ of_object object marks.now }
{
    match marks.iter().find(|m| m.object == object) {
        Some(mark) => Some(mark.number),
        None => None,
    }
}

fn of_copy(marks: &[CopyMark], object: u64, pool: u32) -> Option<u64>
    ensures { result ≡ of_copy object pool marks.now }
{
    match marks.iter().find(|m| m.object == object && m.pool == pool) {
        Some(mark) => Some(mark.number),
        None => None,
    }
}

fn of_path(marks: &[PathMark], filespace: u32, path: &Path) -> Option<u64>
    ensures { result ≡ of_path filespace path.now marks.now }
{
    match marks
        .iter()
        .find(|m| m.filespace == filespace && m.path == *path)
    {
        Some(mark) => Some(mark.number),
        None => None,
    }
}

impl Past for Told {
    ghost journal = { λ t. record {
      removed = λ object. of_object object t.removed.items;
      changed = λ object. of_object object t.changed.items;
      copy_changed = λ object pool. of_copy object pool t.copies.items;
      path_emptied = λ filespace path. of_path filespace path t.emptied.items;
    } };

    fn removed(&self, object: u64) -> Option<u64> {
        of_object(self.removed.as_slice(), object)
    }

    fn changed(&self, object: u64) -> Option<u64> {
        of_object(self.changed.as_slice(), object)
    }

    fn copy_changed(&self, object: u64, pool: u32) -> Option<u64> {
        of_copy(self.copies.as_slice(), object, pool)
    }

    fn path_emptied(&self, filespace: u32, path: &Path) -> Option<u64> {
        of_path(self.emptied.as_slice(), filespace, path)
    }
}

/// Whether a copy in the same pool, placed by the same transaction, is among these.
fn is_among(copy: &CopyRow, copies: &[CopyRow]) -> bool {
    copies
        .iter()
        .any(|c| c.pool == copy.pool && c.placed == copy.placed)
}

/// Whether a version is inactive since another day, or has other copies.
fn differs(old: &Version, new: &Version) -> bool {
    let copies = new.copies.as_slice();
    if old.since != new.since || old.copies.as_slice().len() != copies.len() {
        return true;
    }
    old.copies.as_slice().iter().any(|c| !is_among(c, copies))
}

impl Told {
    /// No transaction was made yet. It takes no memory.
    pub fn new(alloc: Global) -> Told {
        Told {
            removed: Vec::new(alloc),
            changed: Vec::new(alloc),
            copies: Vec::new(alloc),
            emptied: Vec::new(alloc),
        }
    }

    fn note_copies(
        &mut self,
        object: u64,
        old: &[CopyRow],
        new: &[CopyRow],
        number: u64,
    ) -> Result<(), Refusal> {
        for copy in old {
            if !is_among(copy, new) {
                let pool = copy.pool;
                self.copies.insert(
                    0,
                    CopyMark {
                        object,
                        pool,
                        number,
                    },
                )?;
            }
        }
        Ok(())
    }

    fn note_version(
        &mut self,
        version: &Version,
        after: &Tables,
        number: u64,
    ) -> Result<(), Refusal> {
        let object = version.object;
        let mark = ObjectMark { object, number };
        let old = version.copies.as_slice();
        match after.objects.find(object) {
            Some(now) => {
                if differs(version, now) {
                    self.changed.insert(0, mark)?;
                }
                self.note_copies(object, old, now.copies.as_slice(), number)
            }
            None => {
                self.removed.insert(0, mark)?;
                self.changed.insert(0, mark)?;
                self.note_copies(object, old, &[], number)
            }
        }
    }

    fn note_path(&mut self, filespace: u32, path: &Path, number: u64) -> Result<(), Refusal> {
        let path = path.clone()?;
        self.emptied.insert(
            0,
            PathMark {
                filespace,
                path,
                number,
            },
        )?;
        Ok(())
    }

    fn note_group(
        &mut self,
        filespace: u32,
        path: &Path,
        group: &Group,
        after: &Tables,
        number: u64,
    ) -> Result<(), Refusal> {
        if after.objects.group(filespace, path).is_none() {
            self.note_path(filespace, path, number)?;
        }
        for version in group.versions.as_slice() {
            self.note_version(version, after, number)?;
        }
        Ok(())
    }

    fn note_filespace(
        &mut self,
        number: u32,
        filespace: &Filespace,
        after: &Tables,
        transaction: u64,
    ) -> Result<(), Refusal> {
        for (path, group) in filespace.groups.as_map() {
            self.note_group(number, path, group, after, transaction)?;
        }
        Ok(())
    }

    /// Notes what the transaction did that led from the one to the other database.
    pub fn note(&mut self, before: &Tables, after: &Tables) -> Result<(), Refusal> {
        let number = after.number;
        for (filespace, row) in before.objects.filespaces() {
            self.note_filespace(*filespace, row, after, number)?;
        }
        for (_, row) in before.objects.held() {
            self.note_version(&row.held.version, after, number)?;
        }
        Ok(())
    }
}
