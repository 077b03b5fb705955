ghost use Rattle.std.specs.Prelude.{◌≡◌, [], min};
ghost use Rattle.std.specs.BTreeMap.{is_at};
ghost use Rattle.std.specs.Map.{set_value};
ghost use Rattle.std.specs.Ordering.{nat_cmp};
ghost use Rattle.inventory_rows.specs.Delays.{lowered};

use kinds::{Day, Days};
use std::alloc::{AllocError, Global};
use std::collections::BTreeMap;
use std::marker::Model;

/// The least REUSEDELAY of each of some pools, by the pools' numbers, in ascending order.
#[derive(Drop)]
pub struct Delays {
    map: BTreeMap<u32, Days>,
}

/// The shorter of two delays.
fn shorter(first: Days, second: Days) -> Days
    ensures { result ≡ min first second }
{
    if second.count() < first.count() {
        second
    } else {
        first
    }
}

/// Writes the delay of a pool, where it has one.
fn set(map: &mut BTreeMap<u32, Days>, pool: u32, delay: Days)
    ensures { map.new.entries ≡ set_value (is_at (nat_cmp pool)) map.old.entries delay }
{
    if let Some(there) = map.get_mut(&pool) {
        *there = delay;
    }
}

/// Lowers the delay of a pool to this one, where that is less.
fn lower(map: &mut BTreeMap<u32, Days>, pool: u32, delay: Days)
    ensures { map.new.entries ≡ lowered pool delay map.old.entries }
{
    let _len = map.len();
    match map.get(&pool).copied() {
        Some(there) => set(map, pool, shorter(there, delay)),
        None => {}
    }
}

impl Model for Delays {
    ghost use Rattle.std.specs.Prelude.{List, ℕ};

    ghost Value = { List (ℕ × ℕ) };

    ghost view = { λ delays. delays.map.entries };
}

impl Delays {
    /// No delays. It takes no memory.
    pub fn new(alloc: Global) -> Self
        ensures { result ≡ [] }
    {
        Delays {
            map: BTreeMap::new(alloc),
        }
    }

    /// These delays. It takes no memory.
    pub fn from_map(map: BTreeMap<u32, Days>) -> Self
        ensures { result ≡ map.entries }
    {
        let _ = map.len();
        Delays { map }
    }

    /// The delays by pool.
    pub fn as_map(&self) -> &BTreeMap<u32, Days>
        ensures { result.now.entries ≡ self.now }
    {
        &self.map
    }

    /// Lowers the delay of a pool to this one, where that is less. A pool that has none gets none.
    pub fn lower(&mut self, pool: u32, delay: Days)
        ensures { self.new ≡ lowered pool delay self.old }
    {
        lower(&mut self.map, pool, delay);
    }
}

impl Clone for Delays {
    ghost is_clone = { λ delays copy. copy ≡ delays };

    fn clone(&self) -> Result<Self, AllocError> {
        Ok(Delays {
            map: self.map.clone()?,
        })
    }
}

/// A database backup that is listed.
#[derive(Drop)]
pub struct Backup {
    /// The day on which it was taken.
    pub taken: Day,
    /// The number of the last transaction that it holds.
    pub number: u64,
    /// Whether its file is whole.
    pub is_done: bool,
    /// The backup that it follows, by the number of its file: then it holds only what came behind that one.
    pub after: Option<u32>,
    /// For each sequential pool that held a copy when it was taken, the least REUSEDELAY that the pool has had since.
    pub delays: Delays,
}

impl Clone for Backup {
    ghost is_clone = { λ backup copy. copy ≡ backup };

    fn clone(&self) -> Result<Self, AllocError> {
        Ok(Backup {
            taken: self.taken,
            number: self.number,
            is_done: self.is_done,
            after: self.after,
            delays: self.delays.clone()?,
        })
    }
}
