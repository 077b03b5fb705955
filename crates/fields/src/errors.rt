//! Why a field could not be written or read.

ghost use Rattle.std.specs.Prelude.{⊤, ◌≡◌};
ghost use Rattle.fields.specs.declared.errors.Fault.TheVariants as variants;

use std::alloc::{AllocError, AllocFailed};

/// Memory ran out.
#[derive(Clone, Copy)]
pub struct Memory;

/// Fewer bytes are left than a field needs. The number is the reader's place, in bytes from its start.
#[derive(Clone, Copy)]
pub struct Short(pub u64);

impl From<AllocError> for Memory {
    ghost from_gives = { λ _ _. ⊤ };

    fn from(_e: AllocError) -> Memory {
        Memory
    }
}

impl<T: Drop> From<AllocFailed<T>> for Memory {
    ghost from_gives = { λ _ _. ⊤ };

    fn from(_e: AllocFailed<T>) -> Memory {
        Memory
    }
}

/// Why a value could not be read.
#[derive(Clone, Copy)]
pub enum Fault {
    /// The bytes don't begin with a value's form.
    Malformed,
    /// Memory ran out.
    Memory,
}

impl From<Short> for Fault {
    ghost from_gives = { λ _ e. e ≡ variants.Malformed };

    fn from(_e: Short) -> Fault {
        Fault::Malformed
    }
}

impl From<Memory> for Fault {
    ghost from_gives = { λ _ e. e ≡ variants.Memory };

    fn from(_e: Memory) -> Fault {
        Fault::Memory
    }
}

impl From<AllocError> for Fault {
    ghost from_gives = { λ _ e. e ≡ variants.Memory };

    fn from(_e: AllocError) -> Fault {
        Fault::Memory
    }
}

impl<T: Drop> From<AllocFailed<T>> for Fault {
    ghost from_gives = { λ _ e. e ≡ variants.Memory };

    fn from(_e: AllocFailed<T>) -> Fault {
        Fault::Memory
    }
}
