//! How many copies lie in each pool.

ghost use Rattle.std.specs.Prelude.{ℕ, ◌≡◌, ◌+◌, [], IfSome, if◌then◌else◌};
ghost use Rattle.object_rows.specs.Filespaces.{at_number};
ghost use Rattle.object_rows.specs.HeldRows.{weigh_held};
ghost use Rattle.object_rows.specs.Tally.{kept_at, one_in, placed_in, weigh, weigh_filespaces, weigh_groups};

use crate::held_object::HeldRow;
use std::alloc::{AllocError, Global};
use std::collections::BTreeMap;
use std::marker::Model;
use version_groups::kinds::Path;
use version_groups::{CopyRow, Filespace, Group, Version};

/// How many copies lie in each pool in which one has lain, by the pools' numbers.
#[derive(Drop)]
pub(crate) struct PoolCounts {
    map: BTreeMap<u32, u64>,
}

impl Model for PoolCounts {
    ghost use Rattle.std.specs.Prelude.{List, ℕ};

    ghost Value = { List (ℕ × ℕ) };

    ghost view = { λ c. c.map.entries };
}

impl PoolCounts {
    /// No copies. It takes no memory.
    pub(crate) fn new(alloc: Global) -> Self
        ensures { result ≡ [] }
    {
        PoolCounts {
            map: BTreeMap::new(alloc),
        }
    }

    /// How many copies lie in the pool.
    pub(crate) fn at(&self, pool: u32) -> u64
        ensures { result ≡ kept_at pool self.now }
    {
        match self.map.get(&pool) {
            None => 0,
            Some(count) => *count,
        }
    }

    /// So many copies lie in the pool; none where memory is wanted for a pool in which no copy has lain.
    fn set(self, pool: u32, count: u64) -> Option<Self>
        ensures { IfSome result (λ counts. (q : ℕ) → kept_at q counts ≡ (if at_number pool q then count else kept_at q self)) }
    {
        let PoolCounts { mut map } = self;
        match map.insert(pool, count) {
            Ok(_) => Some(PoolCounts { map }),
            Err(_) => None,
        }
    }

    /// One copy more lies in the pool.
    fn one_more(self, pool: u32) -> Option<Self>
        ensures { IfSome result (λ counts. (q : ℕ) → kept_at q counts ≡ kept_at q self + one_in pool q) }
    {
        let count = self.at(pool).checked_add(1)?;
        self.set(pool, count)
    }

    /// One copy fewer lies in the pool.
    fn one_less(self, pool: u32) -> Option<Self>
        ensures { IfSome result (λ counts. (q : ℕ) → kept_at q counts + one_in pool q ≡ kept_at q self) }
    {
        let count = self.at(pool).checked_sub(1)?;
        self.set(pool, count)
    }

    /// With these copies.
    pub(crate) fn more(self, copies: &[CopyRow]) -> Option<Self>
        ensures { IfSome result (λ counts. (q : ℕ) → kept_at q counts ≡ kept_at q self + placed_in q copies.now) }
    {
        let mut counts = self;
        'copies: for copy in copies {
            match counts.one_more(copy.pool) {
                Some(next) => counts = next,
                None => return None,
            }
        }
        Some(counts)
    }

    /// Without these copies.
    pub(crate) fn less(self, copies: &[CopyRow]) -> Option<Self>
        ensures { IfSome result (λ counts. (q : ℕ) → kept_at q counts + placed_in q copies.now ≡ kept_at q self) }
    {
        let mut counts = self;
        'copies: for copy in copies {
            match counts.one_less(copy.pool) {
                Some(next) => counts = next,
                None => return None,
            }
        }
        Some(counts)
    }

    /// With the copies of these versions.
    fn more_versions(self, versions: &[Version]) -> Option<Self>
        ensures { IfSome result (λ counts. (q : ℕ) → kept_at q counts ≡ kept_at q self + weigh (placed_in q) versions.now) }
    {
        let mut counts = self;
        'versions: for version in versions {
            match counts.more(version.copies.as_slice()) {
                Some(next) => counts = next,
                None => return None,
            }
        }
        Some(counts)
    }

    /// With the copies of these groups' versions.
    fn more_groups(self, groups: &BTreeMap<Path, Group>) -> Option<Self>
        ensures { IfSome result (λ counts. (q : ℕ) → kept_at q counts ≡ kept_at q self + weigh_groups 0 (placed_in q) groups.now.entries) }
    {
        let mut counts = self;
        'groups: for (_, group) in groups.iter() {
            match counts.more_versions(group.versions.as_slice()) {
                Some(next) => counts = next,
                None => return None,
            }
        }
        Some(counts)
    }

    /// With the copies of all versions. It walks them.
    pub(crate) fn more_filespaces(self, filespaces: &BTreeMap<u32, Filespace>) -> Option<Self>
        ensures { IfSome result (λ counts. (q : ℕ) → kept_at q counts ≡ kept_at q self + weigh_filespaces 0 (placed_in q) filespaces.now.entries) }
    {
        let mut counts = self;
        'filespaces: for (_, filespace) in filespaces.iter() {
            match counts.more_groups(filespace.groups.as_map()) {
                Some(next) => counts = next,
                None => return None,
            }
        }
        Some(counts)
    }

    /// With the copies of the held objects. It walks them.
    pub(crate) fn more_held(self, held: &BTreeMap<u64, HeldRow>) -> Option<Self>
        ensures { IfSome result (λ counts. (q : ℕ) → kept_at q counts ≡ kept_at q self + weigh_held (placed_in q) held.now.entries) }
    {
        let mut counts = self;
        'rows: for (_, row) in held.iter() {
            match counts.more(row.held.version.copies.as_slice()) {
                Some(next) => counts = next,
                None => return None,
            }
        }
        Some(counts)
    }
}

impl Clone for PoolCounts {
    ghost is_clone = { λ counts copy. copy ≡ counts };

    fn clone(&self) -> Result<Self, AllocError> {
        Ok(PoolCounts {
            map: self.map.clone()?,
        })
    }
}
