//! Lists in which nothing is named twice.

ghost use Rattle.std.specs.Prelude.{◌≡◌, ◌==◌, Bool, not};
ghost use Rattle.std.specs.List.{list_all};
ghost use Rattle.inventory_rules.specs.inventory_rows.version_groups.Entries.{all_later};
ghost use Rattle.kinds.specs.Names.{is_same_name};

use inventory_rules::change_items::{
    DiscardedVersion, DroppedCopy, MovedCopy, NamedVersion, NewCopy, NewHeldObject, NewVersion,
    Rebinding, ScratchVolume,
};

/// An item of a list whose items name different things.
pub trait Apart {
    /// Two items name different things.
    ghost differs: { Self → Self → Bool };

    /// Whether the items name different things.
    fn differs(&self, other: &Self) -> bool
        ensures { result ≡ differs self.now other.now };
}

fn differs_from_all<T: Apart>(item: &T, others: &[T]) -> bool
    ensures { result ≡ list_all (T.differs item.now) others.now }
{
    'others: for other in others {
        if !item.differs(other) {
            return false;
        }
    }
    true
}

/// Whether the items name different things.
pub(crate) fn are_apart<T: Apart>(items: &[T]) -> bool
    ensures { result ≡ all_later T.differs items.now }
{
    'items: for i in 0..items.len() {
        if !differs_from_all(&items[i], &items[i + 1..]) {
            return false;
        }
    }
    true
}

impl Apart for NewVersion {
    ghost differs = { λ a b. not (a.object == b.object) };

    fn differs(&self, other: &Self) -> bool {
        self.object != other.object
    }
}

impl Apart for NewHeldObject {
    ghost differs = { λ a b. not (a.object == b.object) };

    fn differs(&self, other: &Self) -> bool {
        self.object != other.object
    }
}

impl Apart for NamedVersion {
    ghost differs = { λ a b. not (a.object == b.object) };

    fn differs(&self, other: &Self) -> bool {
        self.object != other.object
    }
}

impl Apart for MovedCopy {
    ghost differs = { λ a b. not (a.object == b.object) };

    fn differs(&self, other: &Self) -> bool {
        self.object != other.object
    }
}

impl Apart for NewCopy {
    ghost differs = { λ a b. not (a.object == b.object) };

    fn differs(&self, other: &Self) -> bool {
        self.object != other.object
    }
}

impl Apart for DroppedCopy {
    ghost differs = { λ a b. not (a.object == b.object) };

    fn differs(&self, other: &Self) -> bool {
        self.object != other.object
    }
}

impl Apart for DiscardedVersion {
    ghost differs = { λ a b. not (a.object == b.object) };

    fn differs(&self, other: &Self) -> bool {
        self.object != other.object
    }
}

impl Apart for Rebinding {
    ghost differs = { λ a b. not (is_same_name a.path b.path) };

    fn differs(&self, other: &Self) -> bool {
        self.path != other.path
    }
}

impl Apart for ScratchVolume {
    ghost differs = { λ a b. not (a.file == b.file) };

    fn differs(&self, other: &Self) -> bool {
        self.file != other.file
    }
}
