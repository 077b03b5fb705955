ghost use Rattle.std.specs.Prelude.{◌≡◌, ◌≤◌, OnOk, Ok, if◌then◌else◌, Err};
ghost use Rattle.kinds.specs.Answers.{Becomes, Makes};
ghost use Rattle.kinds.specs.declared.refusal.Refusal.TheVariants.{NotFound};

use crate::held::HeldSegment;
use crate::holdings::Holdings;
use crate::rested::rested;
use crate::status::Status;
use kinds::{Access, By, Capacity, Day, Days, Name, Refusal};
use std::alloc::AllocError;

/// A volume of a storage pool.
#[derive(Drop)]
pub struct Volume {
    pub name: Name,
    /// The number of the volume's pool.
    pub pool: u32,
    /// Whether the server made it for the pool, and takes it away once it is reused.
    pub scratch: bool,
    pub capacity: Capacity,
    pub access: Access,
    /// Where the next frame is written on a sequential volume, in bytes; 0 on one of random access.
    pub end: u64,
    /// The day on which the last copy on a sequential volume went, while it is PENDING.
    pub emptied: Option<Day>,
    /// The segments on the volume.
    pub segments: Holdings,
}

impl Volume {
    ghost use Rattle.volume_rows.specs.Held.{end_of};
    ghost use Rattle.volume_rows.specs.Holdings.{is_held, live_bytes};
    ghost use Rattle.volume_rows.specs.Volumes.{status_of, sequential_status, is_reclaimable, may_reuse, put_on, take_from, left_on, undo_on, reset};

    /// How the volume is used; `sequential` is whether its pool's device class is.
    pub fn status(&self, sequential: bool) -> Status
        ensures { result ≡ status_of sequential self.now }
    {
        if sequential {
            self.sequential_status()
        } else {
            Status::Online
        }
    }

    fn sequential_status(&self) -> Status
        ensures { result ≡ sequential_status self.now }
    {
        let is_bare = self.segments.is_empty();
        if is_bare {
            if self.end == 0 {
                Status::Empty
            } else {
                Status::Pending
            }
        } else if self.capacity.bytes().saturating_sub(self.end) < 4096 {
            Status::Full
        } else {
            Status::Filling
        }
    }

    /// Whether the volume is FULL, and of its capacity at least `threshold` hundredths are used by no copy.
    pub fn is_reclaimable(&self, sequential: bool, threshold: u8) -> bool
        ensures { result ≡ is_reclaimable sequential threshold self.now }
    {
        let capacity = self.capacity.bytes();
        let free = capacity.saturating_sub(self.segments.live_bytes());
        self.status(sequential).is_full() && threshold as u64 * capacity <= free * 100
    }

    /// Whether the volume with this file number may be reused, in a pool whose REUSEDELAY is `delay`. `NotFound` where it is
    /// not sequential or nothing was written on it, `InUse` by the least object on it, and `NotYet` before its delay is over.
    pub fn may_reuse(
        &self,
        sequential: bool,
        file: u32,
        delay: Days,
        today: Day,
    ) -> Result<(), Refusal>
        ensures { result ≡ may_reuse sequential file delay today self.now }
    {
        if !sequential || self.end == 0 {
            return Err(Refusal::NotFound);
        }
        if let Some(object) = self.segments.least_object() {
            return Err(Refusal::InUse(By::Object(object)));
        }
        match self.emptied {
            Some(day) => rested(file, delay, today, day),
            None => Err(Refusal::NotFound),
        }
    }

    /// Puts a segment on the volume. A sequential volume then ends behind it at the earliest, and is not PENDING.
    pub fn put_segment(&mut self, sequential: bool, segment: HeldSegment) -> Result<(), Refusal>
        requires { end_of segment ≤ self.old.capacity }
        ensures put { Becomes result self.old self.new (Ok (put_on sequential segment self.old)) }
        ensures undone { OnOk result (undo_on sequential segment self.old.end self.old.emptied self.new ≡ self.old) }
    {
        let _capacity = self.capacity.bytes();
        let end = segment.offset + 32 + segment.len;
        self.segments.put(segment)?;
        if sequential {
            self.end = self.end.max(end);
            self.emptied = None;
        }
        Ok(())
    }

    /// Takes a segment away. A sequential volume without segments is PENDING from `today` on. `NotFound` where the segment is
    /// not there.
    pub fn take_segment(
        &mut self,
        sequential: bool,
        segment: &HeldSegment,
        today: Day,
    ) -> Result<(), Refusal>
        ensures { Makes result self.old self.new (if is_held segment.now self.old.segments then Ok (take_from sequential segment.now today self.old) else Err NotFound) }
    {
        self.segments.take(segment)?;
        self.note_emptied(sequential, today);
        Ok(())
    }

    /// Notes that the volume has no segment from today on, where it is sequential and has none.
    fn note_emptied(&mut self, sequential: bool, today: Day)
        ensures { self.new ≡ left_on sequential today self.old }
    {
        if sequential && self.segments.is_empty() {
            self.emptied = Some(today);
        }
    }

    /// Takes a segment away that was put, and puts the end and the day back that a sequential volume had. Where the segment is
    /// not there, none is taken away.
    pub fn undo_segment(
        &mut self,
        sequential: bool,
        segment: &HeldSegment,
        end: u64,
        emptied: Option<Day>,
    )
        ensures { self.new ≡ undo_on sequential segment.now end emptied self.old }
    {
        let _ = self.segments.take(segment);
        if sequential {
            self.end = end;
            self.emptied = emptied;
        }
    }

    /// The volume is written from its beginning again.
    pub fn reset(&mut self)
        ensures { self.new ≡ reset self.old }
    {
        self.end = 0;
        self.emptied = None;
    }
}

impl Clone for Volume {
    ghost is_clone = { λ volume copy. copy ≡ volume };

    fn clone(&self) -> Result<Self, AllocError> {
        Ok(Volume {
            name: self.name.clone()?,
            pool: self.pool,
            scratch: self.scratch,
            capacity: self.capacity,
            access: self.access,
            end: self.end,
            emptied: self.emptied,
            segments: self.segments.clone()?,
        })
    }
}
