// Numbers with how often each stands in a bag.
ghost use Rattle.std.specs.Prelude.{◌≡◌, ◌==◌, ℕ, [], length, OnOk};
ghost use Rattle.std.specs.List.Sorted.{IsStrictlySortedBy};
ghost use Rattle.std.specs.Map.{keys_of};
ghost use Rattle.std.specs.Ordering.{nat_cmp};
ghost use Rattle.space_index.specs.Claimed.{times_in, IsBag, IsMoreAt, lone, greatest};
ghost use Rattle.space_index.specs.Listed.{IsSetAt, some_room};

use std::alloc::{AllocError, Global};
use std::collections::BTreeMap;
use std::marker::Model;

/// Numbers, each as often as it was put in and not taken out. Contracts see the list of them with how often each is there.
#[derive(Drop)]
pub struct Bag {
    counts: BTreeMap<u128, u64>,
}

impl Model for Bag {
    ghost use Rattle.std.specs.Prelude.{List, ℕ};

    ghost Value = { List (ℕ × ℕ) };

    ghost view = { λ b. b.counts.entries };
}

impl Bag {
    /// No number. It takes no memory.
    pub fn new(alloc: Global) -> Self
        ensures { result ≡ [] }
    {
        Bag {
            counts: BTreeMap::new(alloc),
        }
    }

    fn count(&self, number: u128) -> u64
        ensures { result ≡ times_in number self.now }
    {
        match self.counts.get(&number).copied() {
            Some(count) => count,
            None => 0,
        }
    }

    fn set_count(&mut self, number: u128, count: u64) -> Result<(), AllocError>
        ensures { OnOk result (IsSetAt number (some_room count) self.old self.new) }
    {
        if count == 0 {
            self.counts.remove(&number);
            return Ok(());
        }
        self.counts.insert(number, count)?;
        Ok(())
    }

    fn set(&mut self, number: u128, count: u64) -> Result<(), AllocError>
        ensures count { OnOk result (IsSetAt number (some_room count) self.old self.new) }
        ensures sorted { OnOk result (IsStrictlySortedBy nat_cmp (keys_of self.new)) }
    {
        self.set_count(number, count)?;
        let _len = self.counts.len();
        Ok(())
    }

    /// A number comes once more. 2^64 times are want of memory too.
    pub fn put(&mut self, number: u128) -> Result<(), AllocError>
        ensures { (less more : ℕ → ℕ) → IsBag self.old less → IsMoreAt number less more → OnOk result (IsBag self.new more) }
    {
        let Some(count) = self.count(number).checked_add(1) else {
            return Err(AllocError);
        };
        self.set(number, count)?;
        Ok(())
    }

    /// A number goes once.
    pub fn take(&mut self, number: u128) -> Result<(), AllocError>
        ensures { (less more : ℕ → ℕ) → IsBag self.old more → IsMoreAt number less more → OnOk result (IsBag self.new less) }
    {
        let count = self.count(number).saturating_sub(1);
        self.set(number, count)?;
        Ok(())
    }

    /// Whether no number is there.
    pub fn is_empty(&self) -> bool
        ensures { result ≡ (length self.now == 0) }
    {
        self.counts.len() == 0
    }

    /// The one number that is there.
    pub fn lone(&self) -> Option<u128>
        ensures { result ≡ lone self.now }
    {
        if self.counts.len() != 1 {
            return None;
        }
        match self.counts.first_key_value() {
            Some((number, _)) => Some(*number),
            None => None,
        }
    }

    /// The greatest number, or 0 where none is there.
    pub fn greatest(&self) -> u128
        ensures { result ≡ greatest self.now }
    {
        match self.counts.last_key_value() {
            Some((number, _)) => *number,
            None => 0,
        }
    }
}
