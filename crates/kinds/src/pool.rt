ghost use Rattle.std.specs.Prelude.{◌≡◌, ℕ, IsTrue, Some, None, if◌then◌else◌};
ghost use Rattle.kinds.specs.Pools.{is_capacity, is_size_limit, is_next, is_pool};

use crate::day::Days;
use std::marker::Model;

/// What a storage pool is for.
#[derive(Clone, Copy, Debug, PartialEq, Eq)]
pub enum PoolKind {
    /// It takes what clients send.
    Primary,
    /// It holds copies of what primary pools hold.
    Copy,
}

/// What may be done with a volume.
#[derive(Clone, Copy, Debug, PartialEq, Eq)]
pub enum Access {
    ReadWrite,
    ReadOnly,
    Unavailable,
    /// It was taken away; of copy pools only.
    Offsite,
    /// What it held is lost; of primary pools only.
    Destroyed,
}

/// The greatest object that a pool takes, in bytes.
#[derive(Clone, Copy, Debug, PartialEq, Eq)]
pub enum SizeLimit {
    At(u64),
    NoLimit,
}

/// How many bytes a volume has: 65,536 to 2^40.
#[derive(Clone, Copy, Debug, PartialEq, Eq, PartialOrd, Ord)]
pub struct Capacity {
    bytes: u64,
}

impl Model for Capacity {
    ghost Value = { ℕ };

    ghost view = { λ c. c.bytes };

    ghost invariant = { λ c. IsTrue (is_capacity c.bytes) };

    ghost inverse = { λ n. record { bytes = n } };
}

impl Capacity {
    /// So many bytes; none where no volume has so many.
    pub fn new(bytes: u64) -> Option<Self>
        ensures { result ≡ (if is_capacity bytes then Some bytes else None) }
    {
        if 65536 <= bytes && bytes <= 1 << 40 {
            Some(Capacity { bytes })
        } else {
            None
        }
    }

    /// How many bytes these are.
    pub fn bytes(self) -> u64
        ensures value { result ≡ self }
        ensures grammar { IsTrue (is_capacity self) }
    {
        self.bytes
    }
}

/// What a storage pool's definition says beside its name, its device class and its kind.
#[derive(Clone, Copy, Debug, PartialEq, Eq)]
pub struct PoolRule {
    /// MAXSIZE: 1 to 2^40 bytes.
    pub max_size: SizeLimit,
    /// NEXTSTGPOOL: the number of the next pool of the hierarchy, from 1 on.
    pub next: Option<u32>,
    /// HIGHMIG: the percentage from which on the pool is migrated; 0 to 100.
    pub high: u8,
    /// LOWMIG: the percentage at which migration ends; 0 to 99, and at most HIGHMIG.
    pub low: u8,
    /// RECLAIM: the percentage of reclaimable space from which on a volume is emptied; 1 to 100.
    pub reclaim: u8,
    /// REUSEDELAY: how many days a volume rests once it is empty.
    pub reuse_delay: Days,
    /// MAXSCRATCH: how many scratch volumes the pool may have; 0 to 9,999.
    pub max_scratch: u16,
    /// COLLOCATE=NODE: a client's objects are kept on volumes of its own, as far as there is room; only in a pool of sequential volumes.
    pub collocate: bool,
}

/// A rule of a storage pool whose parameters are in their ranges.
#[derive(Clone, Copy, Debug, PartialEq, Eq)]
pub struct PoolSettings {
    rule: PoolRule,
}

impl Model for PoolSettings {
    ghost use Rattle.std.specs.Prelude.{IsTrue};
    ghost use Rattle.kinds.specs.declared.pool.PoolRule.{PoolRule};
    ghost use Rattle.kinds.specs.Pools.{is_pool};

    ghost Value = { PoolRule };

    ghost view = { λ s. s.rule };

    ghost invariant = { λ s. IsTrue (is_pool s.rule) };

    ghost inverse = { λ r. record { rule = r } };
}

fn is_size_limit(limit: SizeLimit) -> bool
    ensures { result ≡ is_size_limit limit }
{
    match limit {
        SizeLimit::At(n) => 1 <= n && n <= 1 << 40,
        SizeLimit::NoLimit => true,
    }
}

fn is_next(next: Option<u32>) -> bool
    ensures { result ≡ is_next next }
{
    match next {
        Some(pool) => 0 < pool,
        None => true,
    }
}

fn is_pool(rule: &PoolRule) -> bool
    ensures { result ≡ is_pool rule.now }
{
    is_size_limit(rule.max_size)
        && is_next(rule.next)
        && rule.high <= 100
        && rule.low <= 99
        && rule.low <= rule.high
        && 1 <= rule.reclaim
        && rule.reclaim <= 100
        && rule.max_scratch <= 9999
}

impl PoolSettings {
    /// The settings by this rule; none where a parameter is outside its range.
    pub fn new(rule: PoolRule) -> Option<Self>
        ensures { result ≡ (if is_pool rule then Some rule else None) }
    {
        if is_pool(&rule) {
            Some(PoolSettings { rule })
        } else {
            None
        }
    }

    /// What the settings say.
    pub fn rule(self) -> PoolRule
        ensures value { result ≡ self }
        ensures grammar { IsTrue (is_pool self) }
    {
        self.rule
    }
}
