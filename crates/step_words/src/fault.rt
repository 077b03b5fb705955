//! Why words stand for nothing.
use kinds::Refusal;
use std::alloc::{AllocError, AllocFailed};

/// Why words stand for nothing.
#[derive(Clone, Copy, Debug, PartialEq, Eq)]
pub enum Fault {
    /// They are no command.
    NoCommand,
    /// A name is none, or memory is wanted.
    Refused(Refusal),
}

impl From<Refusal> for Fault {
    fn from(refusal: Refusal) -> Fault {
        Fault::Refused(refusal)
    }
}

impl From<AllocError> for Fault {
    fn from(_error: AllocError) -> Fault {
        Fault::Refused(Refusal::Memory)
    }
}

impl<T: Drop> From<AllocFailed<T>> for Fault {
    fn from(_error: AllocFailed<T>) -> Fault {
        Fault::Refused(Refusal::Memory)
    }
}
