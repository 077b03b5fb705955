//! How the index follows the rows and what is held beside them: one function for each way in which they change.

ghost use Rattle.std.specs.Prelude.{◌≡◌, ℕ, ◌+◌, ◌*◌, false, Some, None, Option, Ok, List, [], ◌∷◌, ◌++◌, IfOk, OnOk};
ghost use Rattle.pool_tables.specs.Rows.{row_at};
ghost use Rattle.pool_rows.specs.PoolRows.{PoolRows, is_sequential};
ghost use Rattle.pool_rows.specs.Segments.{put_segment, take_segment};
ghost use Rattle.space.specs.Claims.{Claims, held, released, noted, forgotten, forced};
ghost use Rattle.volume_rows.specs.declared.volume.Volume.{Volume};
ghost use Rattle.volume_rows.specs.Holdings.{weight_of};
ghost use Rattle.space_index.specs.Counts.{reach, AreCounted};
ghost use Rattle.space_index.specs.Index.{Shape, IsIndexBy, IsRandomIndexOf, segment_on, shape_at, claims_reach, tickets_reach, freed_reach};
ghost use Rattle.space_index.specs.Updates.{and_places, ChangesAt, IsAccessOf, rows_with, nothing};

use crate::blocks::Blocks;
use crate::random::RandomIndex;
use crate::standing::Standing;
use kinds::{Access, Segment};
use pool_rows::Pools;
use space::{Claim, Placed, Places, Space, is_writable};
use std::alloc::{AllocError, Global};
use volume_rows::{HeldSegment, Holdings, Volume};

impl RandomIndex {
    /// Segments more use blocks of their volumes.
    fn put_all(&mut self, places: &[Placed]) -> Result<(), AllocError>
        ensures { (shapes : ℕ → Option Shape) (times : ℕ → ℕ → ℕ) → IsIndexBy self.old shapes times → OnOk result (IsIndexBy self.new shapes (and_places places.now times)) }
    {
        'places: for place in places {
            self.put(&place.segment)?;
        }
        Ok(())
    }

    /// Segments that used blocks of their volumes go.
    fn take_all(&mut self, places: &[Placed]) -> Result<(), AllocError>
        ensures { (shapes : ℕ → Option Shape) (times : ℕ → ℕ → ℕ) → IsIndexBy self.old shapes (and_places places.now times) → OnOk result (IsIndexBy self.new shapes times) }
    {
        'places: for place in places {
            self.take(&place.segment)?;
        }
        Ok(())
    }

    // ---- tickets and transactions

    /// A ticket gets its space, under a number that no ticket has.
    pub fn hold(&mut self, claim: &Claim) -> Result<(), AllocError>
        ensures { (s : PoolRows) (c : Claims) (number : ℕ) → IsRandomIndexOf self.old s c → row_at number c.tickets ≡ None → OnOk result (IsRandomIndexOf self.new s (held number claim.now c)) }
    {
        self.put_all(claim.places.as_slice())?;
        Ok(())
    }

    /// A ticket gives its space back, or its segments have become a copy's.
    pub fn release(&mut self, claim: &Claim) -> Result<(), AllocError>
        ensures { (s : PoolRows) (c : Claims) (number : ℕ) → IsRandomIndexOf self.old s c → row_at number c.tickets ≡ Some claim.now → OnOk result (IsRandomIndexOf self.new s (released number c)) }
    {
        self.take_all(claim.places.as_slice())?;
        Ok(())
    }

    /// A transaction that isn't forced yet, under a number that none has, took these segments away.
    pub fn note(&mut self, places: &Places) -> Result<(), AllocError>
        ensures { (s : PoolRows) (c : Claims) (number : ℕ) → IsRandomIndexOf self.old s c → row_at number c.freed ≡ None → OnOk result (IsRandomIndexOf self.new s (noted number places.now c)) }
    {
        self.put_all(places.as_slice())?;
        Ok(())
    }

    /// A transaction that was to take these segments away wasn't made: what was noted under its number goes.
    pub fn forget(&mut self, places: &Places) -> Result<(), AllocError>
        ensures { (s : PoolRows) (c : Claims) (number : ℕ) → IsRandomIndexOf self.old s c → row_at number c.freed ≡ Some places.now → OnOk result (IsRandomIndexOf self.new s (forgotten number c)) }
    {
        self.take_all(places.as_slice())?;
        Ok(())
    }

    /// Every transaction is forced: `space` is as it was before. It takes time for the segments that they took away.
    pub fn force(&mut self, space: &Space) -> Result<(), AllocError>
        ensures { (s : PoolRows) → IsRandomIndexOf self.old s space.now → OnOk result (IsRandomIndexOf self.new s (forced space.now)) }
    {
        'freed: for (_, places) in space.freed() {
            self.take_all(places.as_slice())?;
        }
        Ok(())
    }

    // ---- rows

    /// A segment of a copy comes. Where its volume isn't there, none does.
    pub fn put_copy(&mut self, segment: &Segment) -> Result<(), AllocError>
        ensures missing { (s : PoolRows) (c : Claims) → IsRandomIndexOf self.old s c → row_at segment.now.file s.volumes ≡ None → OnOk result (IsRandomIndexOf self.new s c) }
        ensures comes { (s t : PoolRows) (c : Claims) (object : ℕ) → IsRandomIndexOf self.old s c → put_segment object segment.now s ≡ Ok t → OnOk result (IsRandomIndexOf self.new t c) }
    {
        self.put(segment)?;
        Ok(())
    }

    /// A segment of a copy goes. Where its volume isn't there, none does.
    pub fn take_copy(&mut self, segment: &Segment) -> Result<(), AllocError>
        ensures missing { (s : PoolRows) (c : Claims) → IsRandomIndexOf self.old s c → row_at segment.now.file s.volumes ≡ None → OnOk result (IsRandomIndexOf self.new s c) }
        ensures goes { (s t : PoolRows) (c : Claims) (object today : ℕ) → IsRandomIndexOf self.old s c → take_segment object segment.now today s ≡ Ok t → OnOk result (IsRandomIndexOf self.new t c) }
    {
        self.take(segment)?;
        Ok(())
    }

    /// A volume goes.
    pub fn remove_volume(&mut self, file: u32) -> Result<(), AllocError>
        ensures { (s t : PoolRows) (c : Claims) → IsRandomIndexOf self.old s c → ChangesAt file s t → row_at file t.volumes ≡ None → OnOk result (IsRandomIndexOf self.new t c) }
    {
        self.remove(file)?;
        Ok(())
    }

    /// A volume is none of random access now: it went, or one that is sequential has its number.
    pub fn set_aside(&mut self, file: u32) -> Result<(), AllocError>
        ensures { (s t : PoolRows) (c : Claims) → IsRandomIndexOf self.old s c → ChangesAt file s t → shape_at t file ≡ None → OnOk result (IsRandomIndexOf self.new t c) }
    {
        self.remove(file)?;
        Ok(())
    }

    /// A volume's access changes, and no segment on it.
    pub fn set_volume_access(&mut self, file: u32, access: &Access) -> Result<(), AllocError>
        ensures { (s t : PoolRows) (c : Claims) → IsRandomIndexOf self.old s c → ChangesAt file s t → IsAccessOf access.now (row_at file s.volumes) (row_at file t.volumes) → OnOk result (IsRandomIndexOf self.new t c) }
    {
        self.set_access(file, is_writable(access))?;
        Ok(())
    }

    /// A volume of random access comes, on which nothing but its copies uses blocks. It takes time for its blocks and copies.
    pub fn add_volume(&mut self, file: u32, volume: &Volume) -> Result<(), AllocError>
        ensures { (s t : PoolRows) (c : Claims) → IsRandomIndexOf self.old s c → ChangesAt file s t → row_at file s.volumes ≡ None → row_at file t.volumes ≡ Some volume.now → is_sequential volume.now.pool t ≡ false → ((k : ℕ) → claims_reach c file k ≡ 0)
            → OnOk result (IsRandomIndexOf self.new t c) }
    {
        let count = (volume.capacity.bytes() / 4096) as u32;
        let mut blocks = Blocks::new(self.alloc, count)?;
        put_copies(&mut blocks, file, &volume.segments)?;
        let standing = Standing {
            pool: volume.pool,
            is_writable: is_writable(&volume.access),
            blocks,
        };
        self.insert(file, standing)?;
        Ok(())
    }

    // ---- the first time

    /// One row more of the volumes is looked at.
    fn add_row(&mut self, pools: &Pools, file: u32, volume: &Volume) -> Result<(), AllocError>
        ensures { (xs : List (ℕ × Volume)) → IsRandomIndexOf self.old (rows_with pools.now xs) nothing → row_at file xs ≡ None → OnOk result (IsRandomIndexOf self.new (rows_with pools.now (xs ++ (file, volume.now) ∷ [])) nothing) }
    {
        if pools.is_sequential(volume.pool) {
            return Ok(());
        }
        self.add_volume(file, volume)?;
        Ok(())
    }

    /// The index of these rows, where nothing is held beside them.
    fn of_rows(alloc: Global, pools: &Pools) -> Result<Self, AllocError>
        ensures { IfOk result (λ i. IsRandomIndexOf i pools.now nothing) }
    {
        let mut index = RandomIndex::new(alloc);
        let _len = pools.volumes().len();
        'volumes: for (file, volume) in pools.volumes() {
            index.add_row(pools, *file, volume)?;
        }
        Ok(index)
    }

    fn put_tickets(&mut self, space: &Space) -> Result<(), AllocError>
        ensures { (shapes : ℕ → Option Shape) (times : ℕ → ℕ → ℕ) → IsIndexBy self.old shapes times → OnOk result (IsIndexBy self.new shapes (λ f k. times f k + tickets_reach space.now.tickets f k)) }
    {
        'tickets: for (_, claim) in space.tickets() {
            self.put_all(claim.places.as_slice())?;
        }
        Ok(())
    }

    fn put_freed(&mut self, space: &Space) -> Result<(), AllocError>
        ensures { (shapes : ℕ → Option Shape) (times : ℕ → ℕ → ℕ) → IsIndexBy self.old shapes times → OnOk result (IsIndexBy self.new shapes (λ f k. times f k + freed_reach space.now.freed f k)) }
    {
        'freed: for (_, places) in space.freed() {
            self.put_all(places.as_slice())?;
        }
        Ok(())
    }

    /// The index of these rows and of what is held beside them. It takes time for all volumes, their blocks and copies, and for all that is held.
    pub fn of(alloc: Global, pools: &Pools, space: &Space) -> Result<Self, AllocError>
        ensures { IfOk result (λ i. IsRandomIndexOf i pools.now space.now) }
    {
        let mut index = RandomIndex::of_rows(alloc, pools)?;
        index.put_tickets(space)?;
        index.put_freed(space)?;
        Ok(index)
    }
}

/// A segment comes so many times.
fn put_times(blocks: &mut Blocks, segment: &Segment, times: u64) -> Result<(), AllocError>
    ensures { (count : ℕ) (had : ℕ → ℕ) → AreCounted blocks.old count had → OnOk result (AreCounted blocks.new count (λ k. had k + reach segment.now k * times)) }
{
    'each: for _ in 0..times {
        blocks.put(segment)?;
    }
    Ok(())
}

/// A segment uses blocks as often as it stands on the volume.
fn put_repeats(
    blocks: &mut Blocks,
    file: u32,
    held: &HeldSegment,
    repeats: u64,
) -> Result<(), AllocError>
    ensures { (count : ℕ) (had : ℕ → ℕ) → AreCounted blocks.old count had → OnOk result (AreCounted blocks.new count (λ k. had k + reach (segment_on file held.now) k * (repeats + 1))) }
{
    let segment = Segment {
        file,
        offset: held.offset,
        len: held.len,
    };
    put_times(blocks, &segment, repeats)?;
    blocks.put(&segment)?;
    Ok(())
}

/// The segments of the copies on a volume use their blocks.
fn put_copies(blocks: &mut Blocks, file: u32, segments: &Holdings) -> Result<(), AllocError>
    ensures { (count : ℕ) → AreCounted blocks.old count (λ k. 0) → OnOk result (AreCounted blocks.new count (λ k. weight_of (λ h. reach (segment_on file h) k) segments.now)) }
{
    'copies: for (held, repeats) in segments.as_map() {
        put_repeats(blocks, file, held, *repeats)?;
    }
    Ok(())
}
