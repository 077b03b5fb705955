// How many segments use each block of a volume.
ghost use Rattle.std.specs.Prelude.{◌≡◌, ℕ, ◌+◌, ◌<◌, ◌≤◌, ◌==◌, true, false, min, IfOk, OnOk, if◌then◌else◌};
ghost use Rattle.extent_map.specs.Blocks.{end_of, free_runs, total_room, first_of};
ghost use Rattle.extent_map.specs.Bits.{is_between};
ghost use Rattle.space.specs.Pieces.{covers};
ghost use Rattle.space_index.specs.Counts.{one_if, reach, more_at, AreCounted};

use extent_map::{Extents, Run};
use kinds::Segment;
use std::alloc::{AllocError, Global};
use std::collections::BTreeMap;

/// Which blocks of a volume of random access segments use. Where more than one segment uses a block, it is used until the last of them goes.
#[derive(Drop)]
pub struct Blocks {
    pub(crate) used: Extents,
    /// By the number of a block, how many segments use it beside the first; no row where there is none.
    pub(crate) more: BTreeMap<u32, u64>,
}

/// The blocks that a segment uses, as far as the volume has them.
fn run_of(count: u32, segment: &Segment) -> Run
    ensures within { end_of result ≤ count }
    ensures blocks { (k : ℕ) → k < count → is_between result.first (end_of result) k ≡ covers k segment.now }
{
    let low = segment.offset / 4096;
    let high = (u128::from(segment.offset) + 32 + u128::from(segment.len) + 4095) / 4096;
    let first = low.min(u64::from(count));
    let end = high.min(u128::from(count)) as u64;
    Run {
        first: first as u32,
        blocks: (end - first) as u32,
    }
}

/// One segment more uses a block beside the first.
fn raise(more: &mut BTreeMap<u32, u64>, block: u32) -> Result<(), AllocError>
    ensures { OnOk result ((q : ℕ) → more_at q more.new.entries ≡ more_at q more.old.entries + one_if (q == block)) }
{
    let there = match more.get(&block).copied() {
        Some(there) => there,
        None => 0,
    };
    let Some(raised) = there.checked_add(1) else {
        return Err(AllocError);
    };
    more.insert(block, raised)?;
    Ok(())
}

fn set(more: &mut BTreeMap<u32, u64>, block: u32, times: u64)
    requires { 0 < more_at block more.old.entries }
    ensures { (q : ℕ) → more_at q more.new.entries ≡ (if q == block then times else more_at q more.old.entries) }
{
    if let Some(there) = more.get_mut(&block) {
        *there = times;
    }
}

/// One segment fewer uses a block beside the first, and whether there was one.
fn lower(more: &mut BTreeMap<u32, u64>, block: u32) -> bool
    ensures one { result ≡ true → (q : ℕ) → more_at q more.old.entries ≡ more_at q more.new.entries + one_if (q == block) }
    ensures none { result ≡ false → (more_at block more.old.entries ≡ 0) × (more.new.entries ≡ more.old.entries) }
{
    match more.get(&block).copied() {
        None => false,
        Some(0) => false,
        Some(1) => {
            more.remove(&block);
            true
        }
        Some(times) => {
            set(more, block, times - 1);
            true
        }
    }
}

impl Blocks {
    /// A volume of so many blocks, of which none is used.
    pub fn new(alloc: Global, count: u32) -> Result<Self, AllocError>
        ensures { IfOk result (λ b. AreCounted b count (λ k. 0)) }
    {
        match Extents::new(alloc, count) {
            Ok(used) => Ok(Blocks {
                used,
                more: BTreeMap::new(alloc),
            }),
            Err(_) => Err(AllocError),
        }
    }

    /// One segment more uses a block, where the volume has it.
    fn put_one(&mut self, block: u32) -> Result<(), AllocError>
        ensures { (count : ℕ) (times : ℕ → ℕ) → AreCounted self.old count times → OnOk result (AreCounted self.new count (λ k. times k + one_if (k == block))) }
    {
        if block >= self.used.blocks() {
            return Ok(());
        }
        let one = Run {
            first: block,
            blocks: 1,
        };
        if self.used.are_used(one) {
            raise(&mut self.more, block)?;
        } else {
            self.used.mark_used(one);
        }
        Ok(())
    }

    /// A segment that uses a block goes.
    fn take_one(&mut self, block: u32)
        ensures { (count : ℕ) (times : ℕ → ℕ) → AreCounted self.old count (λ k. times k + one_if (k == block)) → block < count → AreCounted self.new count times }
    {
        if lower(&mut self.more, block) {
            return;
        }
        let one = Run {
            first: block,
            blocks: 1,
        };
        if self.used.are_used(one) {
            self.used.give(one);
        }
    }

    /// One segment more uses blocks.
    pub fn put(&mut self, segment: &Segment) -> Result<(), AllocError>
        ensures { (count : ℕ) (times : ℕ → ℕ) → AreCounted self.old count times → OnOk result (AreCounted self.new count (λ k. times k + reach segment.now k)) }
    {
        let run = run_of(self.used.blocks(), segment);
        let end = run.first + run.blocks;
        'each: for block in run.first..end {
            self.put_one(block)?;
        }
        Ok(())
    }

    /// The free runs that so many bytes of data use, or all of them where they have less room.
    pub fn runs_for(&self, alloc: Global, bytes: u64) -> Result<Vec<Run>, AllocError>
        ensures { IfOk result (λ v. v.items ≡ first_of (min bytes (total_room (free_runs self.now.used))) (free_runs self.now.used)) }
    {
        match self.used.runs_for(alloc, bytes.min(self.used.room())) {
            Ok(runs) => Ok(runs),
            Err(_) => Err(AllocError),
        }
    }

    /// The room of the free runs, in bytes of data.
    pub fn room(&self) -> u64
        ensures { result ≡ total_room (free_runs self.now.used) }
    {
        self.used.room()
    }

    /// A segment that uses blocks goes. It takes no memory.
    pub fn take(&mut self, segment: &Segment)
        ensures { (count : ℕ) (times : ℕ → ℕ) → AreCounted self.old count (λ k. times k + reach segment.now k) → AreCounted self.new count times }
    {
        let run = run_of(self.used.blocks(), segment);
        let end = run.first + run.blocks;
        'each: for block in run.first..end {
            self.take_one(block);
        }
    }
}
