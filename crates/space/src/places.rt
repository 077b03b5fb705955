ghost use Rattle.std.specs.Prelude.{◌≡◌};

use kinds::Segment;
use std::alloc::AllocError;
use std::marker::Model;

/// A segment of a copy, with the storage pool of its volume.
#[derive(Clone, Copy, Debug, PartialEq, Eq)]
pub struct Placed {
    /// The pool's number.
    pub pool: u32,
    /// Where the segment lies.
    pub segment: Segment,
}

/// The segments of a copy, in the order of their data, each with its pool.
#[derive(Debug, Drop)]
pub struct Places {
    items: Vec<Placed>,
}

impl Model for Places {
    ghost use Rattle.std.specs.Prelude.{List};
    ghost use Rattle.space.specs.declared.places.Placed.{Placed};

    ghost Value = { List Placed };

    ghost view = { λ p. p.items.items };
}

impl Places {
    /// These places. It takes no memory.
    pub fn new(items: Vec<Placed>) -> Self
        ensures { result ≡ items.items }
    {
        Places { items }
    }

    /// The places.
    pub fn as_slice(&self) -> &[Placed]
        ensures { result.now ≡ self.now }
    {
        self.items.as_slice()
    }

    /// The places in a vector. It takes no memory.
    pub fn into_vec(self) -> Vec<Placed>
        ensures { result.items ≡ self }
    {
        let Places { items } = self;
        items
    }
}

impl Clone for Places {
    ghost is_clone = { λ places copy. copy ≡ places };

    fn clone(&self) -> Result<Self, AllocError> {
        Ok(Places {
            items: Vec::from_slice(*self.items.allocator(), self.items.as_slice())?,
        })
    }
}
