//! Counts that are kept beside the rows.

ghost use Rattle.std.specs.Prelude.{ℕ, ◌≡◌, ◌+◌, []};
ghost use Rattle.std.specs.Option.{option_copied};
ghost use Rattle.object_rows.specs.Filespaces.{group_at};
ghost use Rattle.object_rows.specs.Held.{filespaces_hold, held_hold};
ghost use Rattle.object_rows.specs.HeldRows.{held_at, weigh_row};
ghost use Rattle.object_rows.specs.Items.{items_of_filespaces, items_of_held, items_with, left};
ghost use Rattle.object_rows.specs.Tally.{Counts, CountsEach, IsCounted, IsCountedHeld, Owes, OwesEach, placed_in, weigh_at};

use crate::held::{filespaces_hold, held_hold};
use crate::held_object::HeldRow;
use crate::items::{left_by_filespaces, left_by_held, left_by_many, left_by_version};
use crate::pool_counts::PoolCounts;
use std::alloc::{AllocError, Global};
use std::collections::BTreeMap;
use version_groups::kinds::Path;
use version_groups::{Filespace, Group, Version};

/// What is counted beside rows, so that it needs no walk: of the filespaces, or of the held objects.
#[derive(Drop)]
pub(crate) struct Tally {
    /// How many items they have: groups, versions or held objects, copies and segments; none once they would have been 2^128 or more.
    pub(crate) items: Option<u128>,
    /// How many copies lie in each pool; none once memory was wanted for a pool in which no copy had lain.
    pub(crate) pools: Option<PoolCounts>,
}

impl Clone for Tally {
    ghost is_clone = { λ tally copy. copy ≡ tally };

    fn clone(&self) -> Result<Self, AllocError> {
        Ok(Tally {
            items: self.items,
            pools: self.pools.clone()?,
        })
    }
}

/// How many items a version is, with its copies and their segments.
fn items_with(version: &Version) -> Option<u128>
    ensures { Counts (items_with version.now.copies) result }
{
    match left_by_version(version, u128::MAX - 1) {
        None => None,
        Some(rest) => Some(u128::MAX - rest),
    }
}

/// How many items a path's group and the object's version in it are.
fn items_at(group: Option<&Group>, object: u64) -> Option<u128>
    ensures { Counts (weigh_at 1 items_with object (option_copied group.entry)) result }
{
    match group {
        None => Some(0),
        Some(group) => match group.versions.find(object) {
            None => Some(1),
            Some(version) => items_with(version)?.checked_add(1),
        },
    }
}

/// How many items a held object is, with its copies and their segments.
fn items_of(row: Option<&HeldRow>) -> Option<u128>
    ensures { Counts (weigh_row items_with (option_copied row.entry)) result }
{
    match row {
        None => Some(0),
        Some(row) => items_with(&row.held.version),
    }
}

/// The count without these.
fn less(count: Option<u128>, by: Option<u128>) -> Option<u128>
    ensures { (total part : ℕ) → Counts total count → Counts part by → Owes part total result }
{
    count?.checked_sub(by?)
}

/// The count with these.
fn more(count: Option<u128>, by: Option<u128>) -> Option<u128>
    ensures { (owed total part : ℕ) → Owes owed total count → Counts part by → Owes owed (total + part) result }
{
    count?.checked_add(by?)
}

/// The counts without the copies of the object's version in a path's group.
fn pools_less(counts: Option<PoolCounts>, group: Option<&Group>, object: u64) -> Option<PoolCounts>
    ensures { (total : ℕ → ℕ) → CountsEach total counts → OwesEach (λ pool. weigh_at 0 (placed_in pool) object (option_copied group.entry)) total result }
{
    match group {
        None => counts,
        Some(group) => match group.versions.find(object) {
            None => counts,
            Some(version) => counts?.less(version.copies.as_slice()),
        },
    }
}

/// The counts with the copies of the object's version in a path's group.
fn pools_more(counts: Option<PoolCounts>, group: Option<&Group>, object: u64) -> Option<PoolCounts>
    ensures { (owed total : ℕ → ℕ) → OwesEach owed total counts → OwesEach owed (λ pool. total pool + weigh_at 0 (placed_in pool) object (option_copied group.entry)) result }
{
    match group {
        None => counts,
        Some(group) => match group.versions.find(object) {
            None => counts,
            Some(version) => counts?.more(version.copies.as_slice()),
        },
    }
}

/// The counts without the copies of a held object.
fn pools_less_row(counts: Option<PoolCounts>, row: Option<&HeldRow>) -> Option<PoolCounts>
    ensures { (total : ℕ → ℕ) → CountsEach total counts → OwesEach (λ pool. weigh_row (placed_in pool) (option_copied row.entry)) total result }
{
    match row {
        None => counts,
        Some(row) => counts?.less(row.held.version.copies.as_slice()),
    }
}

/// The counts with the copies of a held object.
fn pools_more_row(counts: Option<PoolCounts>, row: Option<&HeldRow>) -> Option<PoolCounts>
    ensures { (owed total : ℕ → ℕ) → OwesEach owed total counts → OwesEach owed (λ pool. total pool + weigh_row (placed_in pool) (option_copied row.entry)) result }
{
    match row {
        None => counts,
        Some(row) => counts?.more(row.held.version.copies.as_slice()),
    }
}

/// The group of a path of a filespace.
fn group_at<'a>(
    filespaces: &'a BTreeMap<u32, Filespace>,
    number: u32,
    path: &Path,
) -> Option<&'a Group>
    ensures { option_copied result ≡ group_at number path.now filespaces.now.entries }
{
    match filespaces.get(&number) {
        None => None,
        Some(filespace) => filespace.groups.get(path),
    }
}

impl Tally {
    /// No items and no copies. It takes no memory.
    pub(crate) fn new(alloc: Global) -> Self
        ensures filespaces { IsCounted result [] }
        ensures held { IsCountedHeld result [] }
    {
        Tally {
            items: Some(0),
            pools: Some(PoolCounts::new(alloc)),
        }
    }

    /// What the filespaces have. It walks them.
    pub(crate) fn of(alloc: Global, filespaces: &BTreeMap<u32, Filespace>) -> Self
        ensures { IsCounted result filespaces.now.entries }
    {
        let items = match left_by_filespaces(filespaces, u128::MAX) {
            None => None,
            Some(rest) => Some(u128::MAX - rest),
        };
        let pools = PoolCounts::new(alloc).more_filespaces(filespaces);
        Tally { items, pools }
    }

    /// What the held objects have. It walks them.
    pub(crate) fn of_held(alloc: Global, held: &BTreeMap<u64, HeldRow>) -> Self
        ensures { IsCountedHeld result held.now.entries }
    {
        let items = match left_by_held(held, u128::MAX) {
            None => None,
            Some(rest) => Some(u128::MAX - rest),
        };
        let pools = PoolCounts::new(alloc).more_held(held);
        Tally { items, pools }
    }

    /// What is left of the room once what the filespaces have is in it. It walks them only where no count is kept.
    pub(crate) fn items_left(
        &self,
        filespaces: &BTreeMap<u32, Filespace>,
        room: u128,
    ) -> Option<u128>
        requires { IsCounted self.now filespaces.now.entries }
        ensures { result ≡ left (items_of_filespaces filespaces.now.entries) room }
    {
        match self.items {
            Some(count) => left_by_many(count, room),
            None => left_by_filespaces(filespaces, room),
        }
    }

    /// Whether a copy of a version lies in the pool. It walks the filespaces only where no counts are kept.
    pub(crate) fn holds_copy(&self, filespaces: &BTreeMap<u32, Filespace>, pool: u32) -> bool
        requires { IsCounted self.now filespaces.now.entries }
        ensures { result ≡ filespaces_hold pool filespaces.now.entries }
    {
        match &self.pools {
            Some(counts) => counts.at(pool) != 0,
            None => filespaces_hold(filespaces, pool),
        }
    }

    /// What is left of the room once what the held objects have is in it. It walks them only where no count is kept.
    pub(crate) fn items_left_held(&self, held: &BTreeMap<u64, HeldRow>, room: u128) -> Option<u128>
        requires { IsCountedHeld self.now held.now.entries }
        ensures { result ≡ left (items_of_held held.now.entries) room }
    {
        match self.items {
            Some(count) => left_by_many(count, room),
            None => left_by_held(held, room),
        }
    }

    /// Whether a copy of a held object lies in the pool. It walks them only where no counts are kept.
    pub(crate) fn holds_copy_held(&self, held: &BTreeMap<u64, HeldRow>, pool: u32) -> bool
        requires { IsCountedHeld self.now held.now.entries }
        ensures { result ≡ held_hold pool held.now.entries }
    {
        match &self.pools {
            Some(counts) => counts.at(pool) != 0,
            None => held_hold(held, pool),
        }
    }

    /// Takes a path's group and the object's version in it out of the counts.
    pub(crate) fn leave(
        &mut self,
        filespaces: &BTreeMap<u32, Filespace>,
        number: u32,
        path: &Path,
        object: u64,
    )
        ensures items { (total : ℕ) → Counts total self.old.items → Owes (weigh_at 1 items_with object (group_at number path.now filespaces.now.entries)) total self.new.items }
        ensures pools { (total : ℕ → ℕ) → CountsEach total self.old.pools → OwesEach (λ pool. weigh_at 0 (placed_in pool) object (group_at number path.now filespaces.now.entries)) total self.new.pools }
    {
        let group = group_at(filespaces, number, path);
        self.pools = pools_less(self.pools.take(), group, object);
        self.items = less(self.items, items_at(group, object));
    }

    /// Counts a path's group and the object's version in it.
    pub(crate) fn enter(
        &mut self,
        filespaces: &BTreeMap<u32, Filespace>,
        number: u32,
        path: &Path,
        object: u64,
    )
        ensures items { (owed total : ℕ) → Owes owed total self.old.items → Owes owed (total + weigh_at 1 items_with object (group_at number path.now filespaces.now.entries)) self.new.items }
        ensures pools { (owed total : ℕ → ℕ) → OwesEach owed total self.old.pools → OwesEach owed (λ pool. total pool + weigh_at 0 (placed_in pool) object (group_at number path.now filespaces.now.entries)) self.new.pools }
    {
        let group = group_at(filespaces, number, path);
        self.pools = pools_more(self.pools.take(), group, object);
        self.items = more(self.items, items_at(group, object));
    }
    /// Takes a held object out of the counts, where there is one of this number.
    pub(crate) fn leave_held(&mut self, held: &BTreeMap<u64, HeldRow>, object: u64)
        ensures items { (total : ℕ) → Counts total self.old.items → Owes (weigh_row items_with (held_at object held.now.entries)) total self.new.items }
        ensures pools { (total : ℕ → ℕ) → CountsEach total self.old.pools → OwesEach (λ pool. weigh_row (placed_in pool) (held_at object held.now.entries)) total self.new.pools }
    {
        let row = held.get(&object);
        self.pools = pools_less_row(self.pools.take(), row);
        self.items = less(self.items, items_of(row));
    }

    /// Counts a held object, where there is one of this number.
    pub(crate) fn enter_held(&mut self, held: &BTreeMap<u64, HeldRow>, object: u64)
        ensures items { (owed total : ℕ) → Owes owed total self.old.items → Owes owed (total + weigh_row items_with (held_at object held.now.entries)) self.new.items }
        ensures pools { (owed total : ℕ → ℕ) → OwesEach owed total self.old.pools → OwesEach owed (λ pool. total pool + weigh_row (placed_in pool) (held_at object held.now.entries)) self.new.pools }
    {
        let row = held.get(&object);
        self.pools = pools_more_row(self.pools.take(), row);
        self.items = more(self.items, items_of(row));
    }
}
