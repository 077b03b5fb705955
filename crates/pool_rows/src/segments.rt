//! Segments that come and go, the reuse of volumes, and scratch volumes.

ghost use Rattle.std.specs.Prelude.{◌≡◌, IsTrue, None, OnOk, Ok};
ghost use Rattle.pool_tables.specs.kinds.Answers.{Becomes, Makes};
ghost use Rattle.pool_tables.specs.volume_rows.Held.{held_of, end_of};
ghost use Rattle.pool_tables.specs.Rows.{row_at, without_row};
ghost use Rattle.pool_rows.specs.Segments.{put_segment, take_segment, undo_segment, fits, is_there, end_at, emptied_at, delay_of, may_reuse_at, reuse, add_scratch, is_bare_scratch};

use crate::pools::Pools;
use pool_tables::kinds::{Day, Days, Refusal, Segment};
use pool_tables::volume_rows::HeldSegment;

fn no_days() -> Days
    ensures { result ≡ 0 }
{
    match Days::new(0) {
        Some(days) => days,
        None => unreachable!(),
    }
}

impl Pools {
    /// REUSEDELAY of the pool; no days where it is not there.
    fn delay_of(&self, pool: u32) -> Days
        ensures { result ≡ delay_of (row_at pool self.now.pools) }
    {
        match self.pools.get(pool) {
            Some(pool) => pool.settings.rule().reuse_delay,
            None => no_days(),
        }
    }

    /// Whether a segment ends within the capacity of its volume, or that is not there.
    pub fn fits(&self, object: u64, segment: &Segment) -> bool
        ensures { result ≡ fits (held_of object segment.now) (row_at segment.now.file self.now.volumes) }
    {
        match self.volumes.get(segment.file) {
            Some(volume) => {
                let end = u128::from(segment.offset) + 32 + u128::from(segment.len);
                end <= u128::from(volume.capacity.bytes())
            }
            None => true,
        }
    }

    /// Whether a segment of this object stands on its volume.
    pub fn holds(&self, object: u64, segment: &Segment) -> bool
        ensures { result ≡ is_there (held_of object segment.now) (row_at segment.now.file self.now.volumes) }
    {
        let held = HeldSegment::new(object, segment);
        match self.volumes.get(segment.file) {
            Some(volume) => volume.segments.as_map().contains_key(&held),
            None => false,
        }
    }

    /// Puts a segment of this object on its volume, where it ends within the volume's capacity. A sequential volume then ends
    /// behind it at the earliest, and is not PENDING. `NotFound` where the volume is not there.
    pub fn put_segment(&mut self, object: u64, segment: &Segment) -> Result<(), Refusal>
        requires { IsTrue (fits (held_of object segment.now) (row_at segment.now.file self.old.volumes)) }
        ensures put { Becomes result self.old self.new (put_segment object segment.now self.old) }

        // Undone with the end and the day that the volume had, it leaves what was.
        ensures undone { OnOk result (undo_segment object segment.now (end_at segment.now.file self.old) (emptied_at segment.now.file self.old) self.new ≡ self.old) }
    {
        let sequential = self.is_sequential_at(segment.file);
        let held = HeldSegment::new(object, segment);
        self.volumes.put(segment.file, sequential, held)
    }

    /// Takes a segment of this object from its volume. A sequential volume without segments is PENDING from `today` on.
    /// `NotFound` where the volume or the segment is not there.
    pub fn take_segment(
        &mut self,
        object: u64,
        segment: &Segment,
        today: Day,
    ) -> Result<(), Refusal>
        ensures { Makes result self.old self.new (take_segment object segment.now today self.old) }
    {
        let sequential = self.is_sequential_at(segment.file);
        let held = HeldSegment::new(object, segment);
        self.volumes.take(segment.file, sequential, &held, today)
    }

    /// Takes a segment away that was put, and puts the end and the day back that a sequential volume had.
    pub fn undo_segment(&mut self, object: u64, segment: &Segment, end: u64, emptied: Option<Day>)
        requires { IsTrue (is_there (held_of object segment.now) (row_at segment.now.file self.old.volumes)) }
        ensures { self.new ≡ undo_segment object segment.now end emptied self.old }
    {
        let sequential = self.is_sequential_at(segment.file);
        let held = HeldSegment::new(object, segment);
        self.volumes
            .undo(segment.file, sequential, &held, end, emptied);
    }

    /// Whether the volume with this file number may be reused today. `NotFound` where it is not there, not sequential, or
    /// nothing was written on it; `InUse` by the least object on it; `NotYet` before its pool's REUSEDELAY is over.
    pub fn may_reuse(&self, file: u32, today: Day) -> Result<(), Refusal>
        ensures { result ≡ may_reuse_at file today self.now }
    {
        let sequential = self.is_sequential_at(file);
        match self.volumes.get(file) {
            Some(volume) => {
                volume.may_reuse(sequential, file, self.delay_of(volume.pool), today)
            }
            None => Err(Refusal::NotFound),
        }
    }

    /// Reuses the volume with this file number, where it may be: the row of a scratch volume goes, and a defined volume is
    /// written from its beginning again.
    pub fn reuse(&mut self, file: u32, today: Day) -> Result<(), Refusal>
        ensures { Makes result self.old self.new (reuse file today self.old) }
    {
        self.may_reuse(file, today)?;
        self.volumes.reuse(file);
        Ok(())
    }

    /// Makes a scratch volume with this file number for a pool. `NotFound` where the pool is not there or not sequential.
    pub fn add_scratch(&mut self, pool: u32, file: u32) -> Result<(), Refusal>
        requires { row_at file self.old.volumes ≡ None }
        ensures { Becomes result self.old self.new (add_scratch pool file self.old) }
    {
        let Some(capacity) = self.pool_capacity(pool) else {
            return Err(Refusal::NotFound);
        };
        self.volumes.add_scratch(self.alloc, pool, file, capacity)
    }

    /// Whether the volume is there, a scratch volume, and without segments.
    pub fn is_bare_scratch(&self, file: u32) -> bool
        ensures { result ≡ is_bare_scratch (row_at file self.now.volumes) }
    {
        match self.volumes.get(file) {
            Some(volume) => volume.scratch && volume.segments.is_empty(),
            None => false,
        }
    }

    /// Takes the row of a scratch volume without segments away.
    pub fn drop_scratch(&mut self, file: u32)
        requires { IsTrue (is_bare_scratch (row_at file self.old.volumes)) }
        ensures { self.new ≡ record self.old { volumes = without_row file self.old.volumes } }
    {
        self.volumes.remove(file);
    }
}
