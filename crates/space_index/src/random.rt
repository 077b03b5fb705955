//! The index: the blocks of each volume of random access, and which volumes of each pool have room.

ghost use Rattle.std.specs.Prelude.{◌≡◌, ℕ, Some, None, Option, List, OnOk};
ghost use Rattle.std.specs.Option.{option_map};
ghost use Rattle.space_index.specs.declared.standing.Standing.{Standing};
ghost use Rattle.space_index.specs.Index.{Shape, with_access, AreSame, AreListed, StaysListed, IsIndexBy, IsEntry, and_segment};
ghost use Rattle.space_index.specs.Listed.{some_room, HasRoom};

use crate::rooms::Rooms;
use crate::standing::{Standing, put_at, set_access_at, take_at};
use kinds::Segment;
use std::alloc::{AllocError, Global};
use std::collections::BTreeMap;

/// Where space is free on volumes of random access, kept beside the rows and beside what tickets hold. Where a call is refused for want of
/// memory it is the index of nothing any more.
#[derive(Drop)]
pub struct RandomIndex {
    pub(crate) alloc: Global,
    /// The volumes of random access by file number.
    pub(crate) files: BTreeMap<u32, Standing>,
    /// By pool number, which of these volumes have room.
    pub(crate) pools: BTreeMap<u32, Rooms>,
}

/// A volume of a pool has this room now.
pub fn set_room(
    alloc: Global,
    pools: &mut BTreeMap<u32, Rooms>,
    pool: u32,
    file: u32,
    room: u64,
) -> Result<(), AllocError>
    ensures { OnOk result (HasRoom pool file (some_room room) pools.old.entries pools.new.entries) }
{
    if let Some(rooms) = pools.get_mut(&pool) {
        return rooms.set(file, room);
    }
    let mut rooms = Rooms::new(alloc);
    rooms.set(file, room)?;
    pools.insert(pool, rooms)?;
    Ok(())
}

/// The room of a volume that has changed, in its pool, is noted.
fn relist(
    alloc: Global,
    files: &BTreeMap<u32, Standing>,
    pools: &mut BTreeMap<u32, Rooms>,
    file: u32,
) -> Result<(), AllocError>
    ensures { (before : List (ℕ × Standing)) → AreListed before pools.old.entries → StaysListed file before files.now.entries → OnOk result (AreListed files.now.entries pools.new.entries) }
{
    match files.get(&file) {
        Some(standing) => {
            set_room(alloc, pools, standing.pool, file, standing.room())?;
            Ok(())
        }
        None => Ok(()),
    }
}

impl RandomIndex {
    /// No volumes. It takes no memory.
    pub fn new(alloc: Global) -> Self
        ensures { (times : ℕ → ℕ → ℕ) → IsIndexBy result (λ file. None) times }
    {
        RandomIndex {
            alloc,
            files: BTreeMap::new(alloc),
            pools: BTreeMap::new(alloc),
        }
    }

    /// A segment more uses blocks of its volume, where that is one of random access.
    pub(crate) fn put(&mut self, segment: &Segment) -> Result<(), AllocError>
        ensures { (shapes : ℕ → Option Shape) (times : ℕ → ℕ → ℕ) → IsIndexBy self.old shapes times → OnOk result (IsIndexBy self.new shapes (and_segment segment.now times)) }
    {
        put_at(&mut self.files, segment)?;
        relist(self.alloc, &self.files, &mut self.pools, segment.file)?;
        Ok(())
    }

    /// A segment that used blocks of its volume, where that is one of random access, goes.
    pub(crate) fn take(&mut self, segment: &Segment) -> Result<(), AllocError>
        ensures { (shapes : ℕ → Option Shape) (times : ℕ → ℕ → ℕ) → IsIndexBy self.old shapes (and_segment segment.now times) → OnOk result (IsIndexBy self.new shapes times) }
    {
        take_at(&mut self.files, segment);
        relist(self.alloc, &self.files, &mut self.pools, segment.file)?;
        Ok(())
    }

    /// A volume of random access may be written from now on, or may not.
    pub(crate) fn set_access(&mut self, file: u32, is_writable: bool) -> Result<(), AllocError>
        ensures { (shapes others : ℕ → Option Shape) (times : ℕ → ℕ → ℕ) → IsIndexBy self.old shapes times → AreSame file shapes others → option_map (with_access is_writable) (shapes file) ≡ others file → OnOk result (IsIndexBy self.new others times) }
    {
        set_access_at(&mut self.files, file, is_writable);
        relist(self.alloc, &self.files, &mut self.pools, file)?;
        Ok(())
    }

    /// A volume of random access goes, or one that is not kept.
    pub(crate) fn remove(&mut self, file: u32) -> Result<(), AllocError>
        ensures { (shapes others : ℕ → Option Shape) (times : ℕ → ℕ → ℕ) → IsIndexBy self.old shapes times → AreSame file shapes others → others file ≡ None → OnOk result (IsIndexBy self.new others times) }
    {
        if let Some(standing) = self.files.remove(&file) {
            set_room(self.alloc, &mut self.pools, standing.pool, file, 0)?;
        }
        Ok(())
    }

    /// A volume of random access comes that was not kept, with blocks that are used so often.
    pub(crate) fn insert(&mut self, file: u32, standing: Standing) -> Result<(), AllocError>
        ensures { (shapes others : ℕ → Option Shape) (times : ℕ → ℕ → ℕ) → IsIndexBy self.old shapes times → AreSame file shapes others → shapes file ≡ None → IsEntry (times file) (others file) (Some standing) → OnOk result (IsIndexBy self.new others times) }
    {
        self.files.insert(file, standing)?;
        relist(self.alloc, &self.files, &mut self.pools, file)?;
        Ok(())
    }
}
