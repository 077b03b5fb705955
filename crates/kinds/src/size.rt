ghost use Rattle.std.specs.Prelude.{◌≡◌, ℕ, IsTrue, Some, None, if◌then◌else◌};
ghost use Rattle.kinds.specs.Sizes.{is_size};

use std::marker::Model;

/// How many bytes a stored object has: fewer than 2^44.
#[derive(Clone, Copy, Debug, PartialEq, Eq, PartialOrd, Ord)]
pub struct ObjectSize {
    bytes: u64,
}

impl Model for ObjectSize {
    ghost Value = { ℕ };

    ghost view = { λ s. s.bytes };

    ghost invariant = { λ s. IsTrue (is_size s.bytes) };

    ghost inverse = { λ n. record { bytes = n } };
}

impl ObjectSize {
    /// So many bytes; none where no object may have so many.
    pub fn new(bytes: u64) -> Option<Self>
        ensures { result ≡ (if is_size bytes then Some bytes else None) }
    {
        if bytes < 1 << 44 {
            Some(ObjectSize { bytes })
        } else {
            None
        }
    }

    /// How many bytes these are.
    pub fn bytes(self) -> u64
        ensures value { result ≡ self }
        ensures grammar { IsTrue (is_size self) }
    {
        self.bytes
    }
}
