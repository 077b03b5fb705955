// What is kept of one volume of random access.
ghost use Rattle.std.specs.Prelude.{◌≡◌, OnOk};
ghost use Rattle.space_index.specs.Index.{room_of, IsPutOn, IsTakenFrom, HasAccess};
ghost use Rattle.space_index.specs.Listed.{IsEditedAt};

use crate::blocks::Blocks;
use kinds::Segment;
use std::alloc::AllocError;
use std::collections::BTreeMap;

/// A volume of random access, with its blocks.
#[derive(Drop)]
pub struct Standing {
    /// The number of its pool.
    pub(crate) pool: u32,
    /// Whether its access is READWRITE.
    pub(crate) is_writable: bool,
    pub(crate) blocks: Blocks,
}

impl Standing {
    /// Its room in bytes of data; none where it may not be written.
    pub fn room(&self) -> u64
        ensures { result ≡ room_of self.now }
    {
        if self.is_writable {
            self.blocks.room()
        } else {
            0
        }
    }

    fn put(&mut self, segment: &Segment) -> Result<(), AllocError>
        ensures { OnOk result (IsPutOn segment.now self.old self.new) }
    {
        self.blocks.put(segment)?;
        Ok(())
    }

    fn take(&mut self, segment: &Segment)
        ensures { IsTakenFrom segment.now self.old self.new }
    {
        self.blocks.take(segment);
    }

    fn set_access(&mut self, is_writable: bool)
        ensures { HasAccess is_writable self.old self.new }
    {
        self.is_writable = is_writable;
    }
}

/// A segment more uses blocks of its volume, where that is kept.
pub fn put_at(files: &mut BTreeMap<u32, Standing>, segment: &Segment) -> Result<(), AllocError>
    ensures { OnOk result (IsEditedAt segment.now.file (IsPutOn segment.now) files.old.entries files.new.entries) }
{
    match files.get_mut(&segment.file) {
        Some(standing) => standing.put(segment),
        None => Ok(()),
    }
}

/// A segment that used blocks of its volume goes, where that is kept. It takes no memory.
pub fn take_at(files: &mut BTreeMap<u32, Standing>, segment: &Segment)
    ensures { IsEditedAt segment.now.file (IsTakenFrom segment.now) files.old.entries files.new.entries }
{
    if let Some(standing) = files.get_mut(&segment.file) {
        standing.take(segment);
    }
}

/// A volume may be written from now on, or may not, where it is kept. It takes no memory.
pub fn set_access_at(files: &mut BTreeMap<u32, Standing>, file: u32, is_writable: bool)
    ensures { IsEditedAt file (HasAccess is_writable) files.old.entries files.new.entries }
{
    if let Some(standing) = files.get_mut(&file) {
        standing.set_access(is_writable);
    }
}
