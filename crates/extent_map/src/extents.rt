ghost use Rattle.std.specs.Prelude.{◌≡◌, ℕ, ◌↔◌, ◌<◌, ◌≤◌, true, false, not, ◌∷◌, length, map, drop, replicate, slice_index_or, IsTrue, IfOk, OnErr, IfSome, IsNone, MatchOption};
ghost use Rattle.std.specs.Option.{option_map};
ghost use Rattle.extent_map.specs.Blocks.{end_of, header_if, marked};

use crate::block_set::BlockSet;
use kinds::Refusal;
use std::alloc::{AllocError, Global};
use std::marker::Model;

/// How many bytes of a frame are its header.
const HEADER: u64 = 32;

/// How many bytes a block has.
const BLOCK: u64 = 4096;

/// Blocks of a volume that lie one behind the other.
#[derive(Clone, Copy)]
pub struct Run {
    /// The number of the first block.
    pub first: u32,
    /// How many blocks there are.
    pub blocks: u32,
}

/// Which blocks of a random-access volume are in use: a list that says it for each block. Its memory, two to four bits a block,
/// is all taken when it is made. A call costs the logarithm of the number of blocks, and the blocks that it hands out.
#[derive(Drop)]
pub struct Extents {
    free: BlockSet,
    used: BlockSet,
    room: u64,
}

impl Model for Extents {
    ghost use Rattle.std.specs.Prelude.{◌≡◌, ◌^◌, ◌<◌, Bool, not, List, length, map};
    ghost use Rattle.extent_map.specs.Blocks.{free_runs, total_room};

    ghost Value = { List Bool };

    ghost view = { λ e. e.used };

    ghost invariant = { λ e. (e.free ≡ map not e.used) × (e.room ≡ total_room (free_runs e.used)) × (length e.used < 2 ^ 32) };
}

impl Extents {
    ghost use Rattle.extent_map.specs.Blocks.{end_of, total_room, free_runs, free_runs_from, first_of, taken, marked, with_used, joined, AllAre, AreFree, Ascend};
    ghost use Rattle.kinds.specs.Answers.{AnswersBy};

    /// A volume of so many blocks, all of them free.
    pub fn new(alloc: Global, blocks: u32) -> Result<Self, Refusal>
        ensures { AnswersBy (λ e. e) result (replicate blocks false) }
    {
        let mut free = BlockSet::new(alloc, blocks)?;
        let used = BlockSet::new(alloc, blocks)?;
        free.fill(0, blocks as usize, true);
        let room = if blocks == 0 {
            0
        } else {
            BLOCK * blocks as u64 - HEADER
        };
        Ok(Extents { free, used, room })
    }

    /// The room of the free runs, in bytes of data: each run is a segment with a header of its own.
    pub fn room(&self) -> u64
        ensures { result ≡ total_room (free_runs self.now) }
    {
        self.room
    }

    /// Whether each block of the run is there and in use, so that the run may be given back.
    pub fn are_used(&self, run: Run) -> bool
        ensures { IsTrue result ↔ AllAre true run self.now }
    {
        let first = run.first as usize;
        let end = first + run.blocks as usize;
        run.blocks == 0 || (end <= self.free.len() && self.free.next(first) >= end)
    }

    /// Takes blocks for so many bytes of data: the free runs in ascending order, each a segment behind its frame's header and
    /// filled, but for the last, of which the front that is needed is taken. An object of no bytes takes no run. None where the
    /// free runs have too little room.
    pub fn take(&mut self, alloc: Global, bytes: u64) -> Result<Option<Vec<Run>>, Refusal>
        ensures answer { AnswersBy (option_map (λ v. v.items)) result (taken bytes self.old) }
        ensures used { IfOk result (λ o. MatchOption o (self.new ≡ self.old) (λ v. self.new ≡ with_used v.items self.old)) }
        ensures err { OnErr result (self.new ≡ self.old) }

        // what follows of the runs
        ensures none { IfOk result (λ o. IsNone o ↔ (total_room (free_runs self.old) < bytes)) }
        ensures free { IfOk result (λ o. IfSome o (λ v. AreFree v.items self.old)) }
        ensures ascending { IfOk result (λ o. IfSome o (λ v. Ascend 0 v.items)) }
        ensures enough { IfOk result (λ o. IfSome o (λ v. bytes ≤ total_room v.items)) }
    {
        if bytes > self.room {
            return Ok(None);
        }
        let runs = self.plan(alloc, bytes)?;
        self.occupy_all(runs.as_slice());
        Ok(Some(runs))
    }

    /// The runs that `take` would take for so many bytes, of which nothing is taken.
    pub fn runs_for(&self, alloc: Global, bytes: u64) -> Result<Vec<Run>, Refusal>
        requires { bytes ≤ total_room (free_runs self.now) }
        ensures { AnswersBy (λ v. v.items) result (first_of bytes (free_runs self.now)) }
    {
        let runs = self.plan(alloc, bytes)?;
        Ok(runs)
    }

    /// The free runs, all of them, in ascending order.
    pub fn free_runs(&self, alloc: Global) -> Result<Vec<Run>, Refusal>
        ensures { AnswersBy (λ v. v.items) result (free_runs self.now) }
    {
        let runs = self.plan(alloc, self.room)?;
        Ok(runs)
    }

    /// How many blocks the volume has.
    pub fn blocks(&self) -> u32
        ensures { result ≡ length self.now }
    {
        self.used.len() as u32
    }

    /// Marks the blocks of a run as in use, those among them too that are in use already. It takes no memory.
    pub fn mark_used(&mut self, run: Run)
        requires { end_of run ≤ length self.old }
        ensures { self.new ≡ marked true run self.old }
    {
        let end = run.first as usize + run.blocks as usize;
        let mut at = run.first as usize;
        'parts: while at < end {
            let part = self.free_within(at, end);
            if part.blocks > 0 {
                self.occupy(part);
            }
            at = part.first as usize + part.blocks as usize;
        }
    }

    /// The first free run from block `at` on, as far as it lies before block `end`. Where there is none it has no blocks and begins with `end`.
    fn free_within(&self, at: usize, end: usize) -> Run
        requires order { at < end }
        requires within { end ≤ length self.now }
        ensures low { at ≤ result.first }
        ensures high { end_of result ≤ end }
        ensures on { at < end_of result }
        ensures before { (k : ℕ) → at ≤ k → k < result.first → slice_index_or self.now k true ≡ true }
        ensures free { AllAre false result self.now }
    {
        let first = self.free.next(at).min(end);
        let stop = self.used.next(first).min(end);
        Run {
            first: first as u32,
            blocks: (stop - first) as u32,
        }
    }

    /// Gives the blocks of a run back, all of which are in use: all or some of those of a run that was taken. It takes no memory.
    pub fn give(&mut self, run: Run)
        requires { AllAre true run self.old }
        ensures { self.new ≡ marked false run self.old }
    {
        if run.blocks == 0 {
            return;
        }
        let with_neighbours = self.bytes_joined(run);
        mark(&mut self.used, &mut self.free, run, false);
        self.room = self.room + with_neighbours - HEADER;
    }

    /// The runs that are taken for so many bytes.
    fn plan(&self, alloc: Global, bytes: u64) -> Result<Vec<Run>, AllocError>
        requires { bytes ≤ total_room (free_runs self.now) }
        ensures { IfOk result (λ v. v.items ≡ first_of bytes (free_runs self.now)) }
    {
        let mut runs = Vec::new(alloc);
        let mut rest = bytes;
        let mut at = 0;
        'runs: while rest > 0 {
            let run = self.free_run(at);
            let room = BLOCK * run.blocks as u64 - HEADER;
            if rest <= room {
                runs.push(Run {
                    first: run.first,
                    blocks: (rest + HEADER).div_ceil(BLOCK) as u32,
                })?;
                rest = 0;
            } else {
                runs.push(run)?;
                rest -= room;
            }
            at = run.first as usize + run.blocks as usize;
        }
        Ok(runs)
    }

    /// The first maximal free run from block `at` on, where there is one.
    fn free_run(&self, at: usize) -> Run
        requires within { at ≤ length self.now }
        requires some { 0 < total_room (free_runs_from at (drop at self.now)) }
        ensures next { free_runs_from at (drop at self.now) ≡ result ∷ free_runs_from (end_of result) (drop (end_of result) self.now) }
        ensures some { 0 < result.blocks }
        ensures within { end_of result ≤ length self.now }
    {
        let first = self.free.next(at);
        let end = self.used.next(first);
        Run {
            first: first as u32,
            blocks: (end - first) as u32,
        }
    }

    fn occupy_all(&mut self, runs: &[Run])
        requires { AreFree runs.now self.old }
        ensures { self.new ≡ with_used runs.now self.old }
    {
        for run in runs {
            self.occupy(*run);
        }
    }

    fn occupy(&mut self, run: Run)
        requires some { 0 < run.blocks }
        requires free { AllAre false run self.old }
        ensures { self.new ≡ marked true run self.old }
    {
        let with_neighbours = self.bytes_joined(run);
        mark(&mut self.used, &mut self.free, run, true);
        self.room = self.room + HEADER - with_neighbours;
    }

    /// The bytes of a run's blocks, and those of one header for each free neighbour.
    fn bytes_joined(&self, run: Run) -> u64
        requires { end_of run ≤ length self.now }
        ensures { result ≡ joined run self.now }
    {
        let first = run.first as usize;
        let end = first + run.blocks as usize;
        let before = first > 0 && self.free.contains(first - 1);
        let behind = end < self.free.len() && self.free.contains(end);
        BLOCK * run.blocks as u64 + header_if(before) + header_if(behind)
    }
}

/// The bytes of a frame's header, where there is one.
fn header_if(is_there: bool) -> u64
    ensures { result ≡ header_if is_there }
{
    if is_there { HEADER } else { 0 }
}

/// Marks the blocks of a run as in use, or as free.
fn mark(used: &mut BlockSet, free: &mut BlockSet, run: Run, in_use: bool)
    requires within { end_of run ≤ length used.old }
    requires free { free.old ≡ map not used.old }
    ensures used { used.new ≡ marked in_use run used.old }
    ensures free { free.new ≡ map not used.new }
{
    let first = run.first as usize;
    let blocks = run.blocks as usize;
    used.fill(first, blocks, in_use);
    free.fill(first, blocks, !in_use);
}
