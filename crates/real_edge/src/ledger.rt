// How often calls on each file failed, and on which files no more is to be done.
ghost use Rattle.std.specs.Prelude.{◌≡◌, ℕ, false, IsTrue};
ghost use Rattle.store_api.specs.Cause.{Rose, NoneFell};
ghost use Rattle.real_edge.specs.Ledger.{faults_of, is_lost, StayLost, Worse};

use std::alloc::Global;
use std::collections::{BTreeMap, BTreeSet};
use std::marker::Model;

#[derive(Drop)]
pub(crate) struct Ledger {
    counts: BTreeMap<u32, u64>,
    // failures for which no memory was found to count them at their file, counted at each
    shared: u64,
    // the files of which a sync failed
    lost: BTreeSet<u32>,
    // whether no file may be used any more
    all_lost: bool,
}

impl Model for Ledger {
    ghost use Rattle.real_edge.specs.Ledger.{Faults};

    ghost Value = { Faults };

    ghost view = { λ l. record { counts = l.counts.entries; shared = l.shared; lost = l.lost.keys; all_lost = l.all_lost } };
}

impl Ledger {
    pub fn new(alloc: Global) -> Ledger
        ensures faults { (file : ℕ) → faults_of result file ≡ 0 }
        ensures lost { (file : ℕ) → is_lost result file ≡ false }
    {
        Ledger {
            counts: BTreeMap::new(alloc),
            shared: 0,
            lost: BTreeSet::new(alloc),
            all_lost: false,
        }
    }

    pub fn faults(&self, file: u32) -> u64
        ensures { result ≡ faults_of self.now file }
    {
        self.counts
            .get(&file)
            .copied()
            .unwrap_or(0)
            .saturating_add(self.shared)
    }

    pub fn is_lost(&self, file: u32) -> bool
        ensures { result ≡ is_lost self.now file }
    {
        self.all_lost || self.lost.contains(&file)
    }

    // Counts a failure at a file, or where there is no memory for its count at each file.
    pub fn raise(&mut self, file: u32)
        ensures counts { NoneFell (faults_of self.old) (faults_of self.new) }
        ensures cause { Rose (faults_of self.old file) (faults_of self.new file) }
        ensures lost { (other : ℕ) → is_lost self.new other ≡ is_lost self.old other }
        ensures worse { Worse self.old self.new }
    {
        let count = self.counts.get(&file).copied().unwrap_or(0);
        if self.counts.insert(file, count.saturating_add(1)).is_err() {
            self.shared = self.shared.saturating_add(1);
        }
    }

    // Marks a file as one on which nothing more is to be done, or where there is no memory for the mark all files.
    pub fn lose(&mut self, file: u32)
        ensures counts { (other : ℕ) → faults_of self.new other ≡ faults_of self.old other }
        ensures lost { IsTrue (is_lost self.new file) }
        ensures stay { StayLost (is_lost self.old) (is_lost self.new) }
        ensures worse { Worse self.old self.new }
    {
        if self.lost.insert(file).is_err() {
            self.all_lost = true;
        }
    }

    // Marks all files so.
    pub fn lose_all(&mut self)
        ensures counts { (other : ℕ) → faults_of self.new other ≡ faults_of self.old other }
        ensures lost { (file : ℕ) → IsTrue (is_lost self.new file) }
        ensures all { IsTrue self.new.all_lost }
        ensures worse { Worse self.old self.new }
    {
        self.all_lost = true;
    }

    // Takes the marks away, as a stop does: each file may be used again.
    pub fn forget(&mut self)
        ensures counts { (other : ℕ) → faults_of self.new other ≡ faults_of self.old other }
        ensures used { (file : ℕ) → is_lost self.new file ≡ false }
    {
        self.lost.clear();
        self.all_lost = false;
    }
}
