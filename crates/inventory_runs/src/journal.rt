//! What the journal of a run tells.
ghost use Rattle.std.specs.Prelude.{◌==◌, if◌then◌else◌, None};

use item_refusals::Past;
use kinds::Path;

/// The transactions that changed and that removed one object: its version, and its copy in any pool. The one that removed it also
/// removed the last version of each path that has none.
#[derive(Clone, Copy)]
pub struct Told {
    pub object: u64,
    /// The last transaction that changed or removed the version, or a copy.
    pub changed: Option<u64>,
    /// The last transaction that removed the version.
    pub removed: Option<u64>,
}

impl Past for Told {
    ghost journal = { λ t. record {
      removed = λ o. if o == t.object then t.removed else None;
      changed = λ o. if o == t.object then t.changed else None;
      copy_changed = λ o _. if o == t.object then t.changed else None;
      path_emptied = λ _ _. t.removed;
    } };

    fn removed(&self, object: u64) -> Option<u64> {
        if object == self.object {
            self.removed
        } else {
            None
        }
    }

    fn changed(&self, object: u64) -> Option<u64> {
        if object == self.object {
            self.changed
        } else {
            None
        }
    }

    fn copy_changed(&self, object: u64, _pool: u32) -> Option<u64> {
        if object == self.object {
            self.changed
        } else {
            None
        }
    }

    fn path_emptied(&self, _filespace: u32, _path: &Path) -> Option<u64> {
        self.removed
    }
}

/// A number, or none for `-`; else no such word.
fn number_or_none(word: &str) -> Option<Option<u64>> {
    if word == "-" {
        return Some(None);
    }
    match word.parse::<u64>() {
        Ok(number) => Some(Some(number)),
        Err(_) => None,
    }
}

/// What the words say: the object's number, and two numbers of transactions, of which each may be `-`.
pub fn told_by(object: &str, changed: &str, removed: &str) -> Option<Told> {
    let object = object.parse::<u64>().ok()?;
    let changed = number_or_none(changed)?;
    let removed = number_or_none(removed)?;
    Some(Told {
        object,
        changed,
        removed,
    })
}
