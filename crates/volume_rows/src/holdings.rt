ghost use Rattle.std.specs.Prelude.{◌≡◌, ◌+◌, ◌^◌, ◌<◌, [], length, OnOk, Ok};
ghost use Rattle.std.specs.Map.{set_value};
ghost use Rattle.std.specs.BTreeMap.{is_at};
ghost use Rattle.volume_rows.specs.Held.{held_cmp};
ghost use Rattle.volume_rows.specs.Holdings.{is_bare, with_segment, taken, live_bytes, used_blocks, least_object};
ghost use Rattle.kinds.specs.Answers.{Becomes, Makes};

use crate::held::HeldSegment;
use kinds::{Refusal, lesser};
use std::alloc::{AllocError, Global};
use std::collections::BTreeMap;
use std::marker::Model;

/// So many bytes of frames, or blocks of them, are more than the segments on one volume may have.
const MOST: u128 = 1 << 56;

/// The segments on a volume. Contracts see them as the list of the segments by offset, object and length, each with the
/// number of its repeats: 0 for a segment that stands there once.
#[derive(Drop)]
pub struct Holdings {
    map: BTreeMap<HeldSegment, u64>,
    live: u128,
    blocks: u128,
}

impl Model for Holdings {
    ghost use Rattle.std.specs.Prelude.{◌≡◌, ◌<◌, ◌^◌, List, ℕ};
    ghost use Rattle.volume_rows.specs.declared.held.HeldSegment.{HeldSegment};
    ghost use Rattle.volume_rows.specs.Holdings.{live_bytes, used_blocks};

    ghost Value = { List (HeldSegment × ℕ) };

    ghost view = { λ h. h.map.entries };

    ghost invariant = { λ h. (h.live ≡ live_bytes h.map.entries) × (h.blocks ≡ used_blocks h.map.entries) × (h.live < 2 ^ 56) × (h.blocks < 2 ^ 56) };
}

/// Writes the number of a segment's repeats, where it stands there.
fn set(map: &mut BTreeMap<HeldSegment, u64>, segment: &HeldSegment, repeats: u64)
    ensures { map.new.entries ≡ set_value (is_at (held_cmp segment.now)) map.old.entries repeats }
{
    if let Some(there) = map.get_mut(segment) {
        *there = repeats;
    }
}

/// The segment stands there once more.
fn raise(map: &mut BTreeMap<HeldSegment, u64>, segment: HeldSegment) -> Result<(), Refusal>
    ensures { Becomes result map.old.entries map.new.entries (Ok (with_segment segment map.old.entries)) }
{
    match map.get(&segment).copied() {
        None => {
            map.insert(segment, 0)?;
            Ok(())
        }
        Some(repeats) => {
            let Some(more) = repeats.checked_add(1) else {
                return Err(Refusal::Memory);
            };
            set(map, &segment, more);
            Ok(())
        }
    }
}

/// The segment stands there once less.
fn lower(map: &mut BTreeMap<HeldSegment, u64>, segment: &HeldSegment) -> Result<(), Refusal>
    ensures { Makes result map.old.entries map.new.entries (taken segment.now map.old.entries) }
{
    match map.get(segment).copied() {
        None => Err(Refusal::NotFound),
        Some(0) => {
            map.remove(segment);
            Ok(())
        }
        Some(repeats) => {
            set(map, segment, repeats - 1);
            Ok(())
        }
    }
}

impl Holdings {
    /// No segments.
    pub fn new(alloc: Global) -> Self
        ensures { result ≡ [] }
    {
        Holdings {
            map: BTreeMap::new(alloc),
            live: 0,
            blocks: 0,
        }
    }

    /// Puts a segment there once more. Where the frames would have 2^56 bytes or more in all, of which no volume has room for
    /// a part, that is want of memory too.
    pub fn put(&mut self, segment: HeldSegment) -> Result<(), Refusal>
        ensures put { Becomes result self.old self.new (Ok (with_segment segment self.old)) }
        ensures taken_again { OnOk result (taken segment self.new ≡ Ok self.old) }
    {
        let live = self.live + segment.frame_bytes();
        let blocks = self.blocks + segment.blocks();
        if live >= MOST || blocks >= MOST {
            return Err(Refusal::Memory);
        }
        raise(&mut self.map, segment)?;
        self.live = live;
        self.blocks = blocks;
        Ok(())
    }

    /// Takes a segment away once. `NotFound` where it is not there.
    pub fn take(&mut self, segment: &HeldSegment) -> Result<(), Refusal>
        ensures { Makes result self.old self.new (taken segment.now self.old) }
    {
        lower(&mut self.map, segment)?;
        self.live -= segment.frame_bytes();
        self.blocks -= segment.blocks();
        Ok(())
    }

    /// Whether no segment stands there.
    pub fn is_empty(&self) -> bool
        ensures { result ≡ is_bare self.now }
    {
        self.map.len() == 0
    }

    /// How many bytes the segments' frames have in all.
    pub fn live_bytes(&self) -> u64
        ensures value { result ≡ live_bytes self.now }
        ensures few { result < 2 ^ 56 }
    {
        self.live as u64
    }

    /// How many blocks of 4,096 bytes the segments' frames use in all.
    pub fn used_blocks(&self) -> u64
        ensures value { result ≡ used_blocks self.now }
        ensures few { result < 2 ^ 56 }
    {
        self.blocks as u64
    }

    /// The least object with a segment there.
    #[tactic(auto, using(kinds::proofs::LeastLaws::lesser_assoc))]
    pub fn least_object(&self) -> Option<u64>
        ensures { result ≡ least_object self.now }
    {
        let mut least = None;
        'held: for (segment, _) in &self.map {
            least = lesser(least, Some(segment.object));
        }
        least
    }

    /// The segments, each with the number of its repeats.
    pub fn as_map(&self) -> &BTreeMap<HeldSegment, u64>
        ensures { result.now.entries ≡ self.now }
    {
        &self.map
    }
}

impl Clone for Holdings {
    ghost is_clone = { λ holdings copy. copy ≡ holdings };

    fn clone(&self) -> Result<Self, AllocError> {
        Ok(Holdings {
            map: self.map.clone()?,
            live: self.live,
            blocks: self.blocks,
        })
    }
}
