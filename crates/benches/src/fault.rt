//! Why the program ends before it is done.
use kinds::{OpenRefused, Refusal};
use std::alloc::{AllocError, AllocFailed};
use store_api::Failed;

/// Why the program ends before it is done.
#[derive(Clone, Copy, Debug, PartialEq, Eq)]
pub enum Fault {
    /// The words are none that it knows.
    NoCommand,
    /// A name is none, or memory is wanted, or the hall refused.
    Refused(Refusal),
    /// Formatting or opening was refused.
    NotOpened(OpenRefused),
    /// A call on the store failed.
    Failed,
    /// A line couldn't be printed.
    NotPrinted,
}

impl From<Refusal> for Fault {
    fn from(refusal: Refusal) -> Fault {
        Fault::Refused(refusal)
    }
}

impl From<OpenRefused> for Fault {
    fn from(refused: OpenRefused) -> Fault {
        Fault::NotOpened(refused)
    }
}

impl From<Failed> for Fault {
    fn from(_failed: Failed) -> Fault {
        Fault::Failed
    }
}

impl From<AllocError> for Fault {
    fn from(_error: AllocError) -> Fault {
        Fault::Refused(Refusal::Memory)
    }
}

impl<T: Drop> From<AllocFailed<T>> for Fault {
    fn from(_error: AllocFailed<T>) -> Fault {
        Fault::Refused(Refusal::Memory)
    }
}
