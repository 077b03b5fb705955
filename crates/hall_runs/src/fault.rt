//! Why a line has no answer.
use kinds::{OpenRefused, Refusal};
use std::alloc::{AllocError, AllocFailed};
use step_words::Fault as Unread;

/// What is wrong with a hall that was opened behind a stop.
#[derive(Clone, Copy, Debug, PartialEq, Eq)]
pub enum Finding {
    /// It isn't opened.
    NotOpened(OpenRefused),
    /// A transaction that was acknowledged isn't there.
    Lost,
    /// The database is behind no first part of the transactions.
    OtherDatabase,
    /// A stop in the opening led to another database.
    Moved,
    /// A copy of this object, in this pool, doesn't read back with its bytes.
    OtherBytes(u64, u32),
    /// Calls are made where there should be no more.
    Endless,
}

/// Why a line has no answer.
#[derive(Clone, Copy, Debug, PartialEq, Eq)]
pub enum Fault {
    /// It is no command.
    NoCommand,
    /// No hall is open.
    Closed,
    /// A name is none, or memory is wanted, or the hall refused.
    Refused(Refusal),
    /// Formatting or opening was refused.
    NotOpened(OpenRefused),
    /// What was opened behind a stop isn't as it should be.
    Wrong(Finding),
    /// The same, behind a stop in this call, counted from the first of the lines that were swept, with this choice.
    Found(u64, u64, Finding),
}

impl From<Unread> for Fault {
    fn from(fault: Unread) -> Fault {
        match fault {
            Unread::NoCommand => Fault::NoCommand,
            Unread::Refused(refusal) => Fault::Refused(refusal),
        }
    }
}

impl From<Refusal> for Fault {
    fn from(refusal: Refusal) -> Fault {
        Fault::Refused(refusal)
    }
}

impl From<OpenRefused> for Fault {
    fn from(refused: OpenRefused) -> Fault {
        Fault::NotOpened(refused)
    }
}

impl From<AllocError> for Fault {
    fn from(_error: AllocError) -> Fault {
        Fault::Refused(Refusal::Memory)
    }
}

impl<T: Drop> From<AllocFailed<T>> for Fault {
    fn from(_error: AllocFailed<T>) -> Fault {
        Fault::Refused(Refusal::Memory)
    }
}
