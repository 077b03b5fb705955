ghost use Rattle.std.specs.Prelude.{◌≡◌, ◌+◌, ◌^◌, ◌<◌};

use kinds::Segment;

/// A segment on a volume, with the object to which it belongs.
#[derive(Clone, Copy, PartialEq, Eq, PartialOrd, Ord)]
pub struct HeldSegment {
    /// Where the segment's frame begins on the volume, in bytes.
    pub offset: u64,
    /// The object's number.
    pub object: u64,
    /// How many bytes of data follow the frame's header.
    pub len: u64,
}

impl HeldSegment {
    ghost use Rattle.volume_rows.specs.Held.{held_of, frame_bytes, blocks_of};

    /// This segment, of this object.
    pub fn new(object: u64, segment: &Segment) -> Self
        ensures { result ≡ held_of object segment.now }
    {
        HeldSegment {
            offset: segment.offset,
            object,
            len: segment.len,
        }
    }

    /// How many bytes the segment's frame has: a header of 32, and the data.
    pub fn frame_bytes(&self) -> u128
        ensures value { result ≡ frame_bytes self.now }
        ensures few { result < 2 ^ 65 }
    {
        self.len as u128 + 32
    }

    /// How many blocks of 4,096 bytes the segment's frame uses.
    pub fn blocks(&self) -> u128
        ensures value { result ≡ blocks_of self.now }
        ensures few { result < 2 ^ 65 }
    {
        (self.len as u128 + 32).div_ceil(4096)
    }
}
