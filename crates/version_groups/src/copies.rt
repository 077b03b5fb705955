ghost use Rattle.std.specs.Prelude.{◌≡◌, ◌<◌, ◌≤◌, nat_lt, IsTrue, Some, None, [], if◌then◌else◌, length, vec_len, OnErr, IsOk};
ghost use Rattle.std.specs.List.{list_all};
ghost use Rattle.std.specs.Vec.{vec_capacity};
ghost use Rattle.kinds.specs.Answers.{AnswersBy, Becomes, Makes};
ghost use Rattle.version_groups.specs.Copies.{has_copy, are_by_pool, with_copy, without_copy, place_of, copies_after, takes_free_pool, Alters};
ghost use Rattle.version_groups.specs.declared.copies.CopyChange.TheVariants.{Add, Replace, Drop};

use kinds::{Refusal, Segments};
use std::alloc::{AllocError, Global};
use std::marker::Model;

/// A stored copy of an object.
#[derive(Drop)]
pub struct CopyRow {
    /// The number of the storage pool in which the copy lies.
    pub pool: u32,
    /// The number of the transaction that placed the copy there.
    pub placed: u64,
    /// The pieces of the copy, in the order of their data.
    pub segments: Segments,
}

impl Clone for CopyRow {
    ghost is_clone = { λ row copy. copy ≡ row };

    fn clone(&self) -> Result<Self, AllocError> {
        Ok(CopyRow {
            pool: self.pool,
            placed: self.placed,
            segments: self.segments.clone()?,
        })
    }
}

/// A change of the copies of one version.
#[derive(Drop)]
pub enum CopyChange {
    /// One copy more.
    Add(CopyRow),
    /// The copy in the pool `from` is replaced by another.
    Replace { from: u32, copy: CopyRow },
    /// The copy in the pool with this number goes.
    Drop(u32),
}

/// The copies of one version, in ascending order of their pools, at most one in each pool.
#[derive(Drop)]
pub struct Copies {
    items: Vec<CopyRow>,
}

impl Model for Copies {
    ghost use Rattle.std.specs.Prelude.{IsTrue, List};
    ghost use Rattle.version_groups.specs.declared.copies.CopyRow.{CopyRow};
    ghost use Rattle.version_groups.specs.Copies.{are_by_pool};

    ghost Value = { List CopyRow };

    ghost view = { λ c. c.items.items };

    ghost invariant = { λ c. IsTrue (are_by_pool c.items.items) };
}

/// Whether each of the copies lies in a pool of a higher number.
fn is_below(pool: u32, copies: &[CopyRow]) -> bool
    ensures { result ≡ list_all (λ c. nat_lt pool c.pool) copies.now }
{
    copies.iter().all(|c| pool < c.pool)
}

/// Whether the copies stand by pool, one in each.
fn are_by_pool(copies: &[CopyRow]) -> bool
    ensures { result ≡ are_by_pool copies.now }
{
    'copies: for i in 0..copies.len() {
        if !is_below(copies[i].pool, &copies[i + 1..]) {
            return false;
        }
    }
    true
}

fn has_copy(pool: u32, copies: &[CopyRow]) -> bool
    ensures { result ≡ has_copy pool copies.now }
{
    copies.iter().any(|c| c.pool == pool)
}

/// Where a copy in this pool goes: before the first in a pool of a higher number.
fn place_of(pool: u32, copies: &[CopyRow]) -> usize
    ensures value { result ≡ place_of pool copies.now }
    ensures within { result ≤ length copies.now }
{
    'copies: for i in 0..copies.len() {
        if pool < copies[i].pool {
            return i;
        }
    }
    copies.len()
}

/// Takes the copy in the pool out.
fn take_out(items: &mut Vec<CopyRow>, pool: u32)
    ensures value { items.new.items ≡ without_copy pool items.old.items }
    ensures room { IsTrue (has_copy pool items.old.items) → vec_len items.new < vec_capacity items.new }
{
    items.retain(|c| c.pool != pool);
}

/// Puts a copy to its place.
fn put_in(items: &mut Vec<CopyRow>, copy: CopyRow) -> Result<(), Refusal>
    ensures value { AnswersBy (λ _. items.new.items) result (with_copy copy items.old.items) }
    ensures unchanged { OnErr result (items.new.items ≡ items.old.items) }
    ensures in_room { vec_len items.old < vec_capacity items.old → IsOk result }
{
    let place = place_of(copy.pool, items.as_slice());
    items.insert(place, copy)?;
    Ok(())
}

impl Copies {
    /// No copies. It takes no memory.
    pub fn new(alloc: Global) -> Self
        ensures { result ≡ [] }
    {
        Copies {
            items: Vec::new(alloc),
        }
    }

    /// Where the copies' memory comes from.
    pub(crate) fn allocator(&self) -> Global {
        *self.items.allocator()
    }

    /// These copies; none where they do not stand in ascending order of their pools, one in each. It takes no memory.
    pub fn from_vec(items: Vec<CopyRow>) -> Option<Self>
        ensures { result ≡ (if are_by_pool items.items then Some items.items else None) }
    {
        if are_by_pool(items.as_slice()) {
            Some(Copies { items })
        } else {
            None
        }
    }

    /// The copies in a vector. It takes no memory.
    pub fn into_vec(self) -> Vec<CopyRow>
        ensures value { result.items ≡ self }
        ensures by_pool { IsTrue (are_by_pool self) }
    {
        let Copies { items } = self;
        items
    }

    /// The copies.
    pub fn as_slice(&self) -> &[CopyRow]
        ensures value { result.now ≡ self.now }
        ensures by_pool { IsTrue (are_by_pool self.now) }
    {
        self.items.as_slice()
    }

    /// Whether a copy lies in the pool.
    pub fn is_in(&self, pool: u32) -> bool
        ensures { result ≡ has_copy pool self.now }
    {
        has_copy(pool, self.items.as_slice())
    }

    /// Adds, replaces or drops a copy. A copy that is to be replaced or dropped and is not there is `NotFound`. Only a copy
    /// that is added takes memory.
    pub fn change(&mut self, change: CopyChange) -> Result<(), Refusal>
        requires { IsTrue (takes_free_pool change self.old) }
        ensures { Alters change result self.old self.new (copies_after change self.old) }
    {
        match change {
            CopyChange::Add(copy) => self.add(copy),
            CopyChange::Replace { from, copy } => self.replace(from, copy),
            CopyChange::Drop(pool) => self.drop_in(pool),
        }
    }

    fn add(&mut self, copy: CopyRow) -> Result<(), Refusal>
        requires { IsTrue (takes_free_pool (Add copy) self.old) }
        ensures { Becomes result self.old self.new (copies_after (Add copy) self.old) }
    {
        put_in(&mut self.items, copy)
    }

    fn replace(&mut self, from: u32, copy: CopyRow) -> Result<(), Refusal>
        requires { IsTrue (takes_free_pool (Replace from copy) self.old) }
        ensures { Makes result self.old self.new (copies_after (Replace from copy) self.old) }
    {
        if !self.is_in(from) {
            return Err(Refusal::NotFound);
        }
        take_out(&mut self.items, from);
        put_in(&mut self.items, copy)
    }

    fn drop_in(&mut self, pool: u32) -> Result<(), Refusal>
        ensures { Makes result self.old self.new (copies_after (Drop pool) self.old) }
    {
        if !self.is_in(pool) {
            return Err(Refusal::NotFound);
        }
        take_out(&mut self.items, pool);
        Ok(())
    }
}

impl Clone for Copies {
    ghost is_clone = { λ copies copy. copy ≡ copies };

    fn clone(&self) -> Result<Self, AllocError> {
        Ok(Copies {
            items: self.items.clone()?,
        })
    }
}
