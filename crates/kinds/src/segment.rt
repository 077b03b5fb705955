ghost use Rattle.std.specs.Prelude.{◌≡◌, ◌<◌, ◌^◌, List, length};
ghost use Rattle.std.specs.Cmp.Lexicographic.{pointwise, lists_per};

use std::alloc::AllocError;
use std::marker::Model;

/// The SHA-256 of a stored object's bytes.
#[derive(Clone, Copy, Debug, PartialEq, Eq, PartialOrd, Ord)]
pub struct Digest(pub [u8; 32]);

/// A piece of a stored object on a volume.
#[derive(Clone, Copy, Debug, PartialEq, Eq)]
pub struct Segment {
    /// The volume's file number.
    pub file: u32,
    /// Where the segment's frame begins on the volume, in bytes.
    pub offset: u64,
    /// How many bytes of data follow the frame's header.
    pub len: u64,
}

/// The segments of one copy of an object, in the order of their data; fewer than 2^32.
#[derive(Debug, Drop)]
pub struct Segments {
    items: Vec<Segment>,
}

impl Model for Segments {
    ghost use Rattle.std.specs.Prelude.{◌<◌, ◌^◌, List, length};
    ghost use Rattle.kinds.specs.declared.segment.Segment.{Segment};

    ghost Value = { List Segment };

    ghost view = { λ s. s.items.items };

    ghost invariant = { λ s. length s.items.items < 2 ^ 32 };
}

impl Segments {
    /// These segments. It takes no memory.
    pub fn new(items: Vec<Segment>) -> Self
        requires { length items.items < 2 ^ 32 }
        ensures { result ≡ items.items }
    {
        Segments { items }
    }

    /// The segments in a vector. It takes no memory.
    pub fn into_vec(self) -> Vec<Segment>
        ensures value { result.items ≡ self }
        ensures few { length self < 2 ^ 32 }
    {
        let Segments { items } = self;
        items
    }

    /// The segments.
    pub fn as_slice(&self) -> &[Segment]
        ensures value { result.now ≡ self.now }
        ensures few { length self.now < 2 ^ 32 }
    {
        self.items.as_slice()
    }
}

impl Clone for Segments {
    ghost is_clone = { λ segments copy. copy ≡ segments };

    fn clone(&self) -> Result<Self, AllocError> {
        Ok(Segments {
            items: Vec::from_slice(*self.items.allocator(), self.items.as_slice())?,
        })
    }
}

impl PartialEq for Segments {
    ghost eq = { λ x y. pointwise ⟦<Segment as PartialEq>⟧.eq x y };

    ghost use Rattle.kinds.specs.contracts.segment.SegmentPartialEq.TheImpl.Laws.{laws-law};

    ghost laws = { lists_per laws-law };

    fn eq(&self, other: &Self) -> bool {
        self.items.as_slice() == other.items.as_slice()
    }
}
