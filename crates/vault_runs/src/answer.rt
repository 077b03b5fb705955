//! What a step is answered, and its words.
use kinds::{OpenRefused, Refusal};
use std::alloc::{AllocError, Global};

/// Why a line or a step has no answer.
#[derive(Clone, Copy, PartialEq, Eq)]
pub enum Fault {
    /// The line is no command.
    NoCommand,
    /// No vault is open.
    Closed,
    /// The vault refused.
    Refused(Refusal),
    /// Opening or formatting was refused.
    NotOpened(OpenRefused),
}

impl From<Refusal> for Fault {
    fn from(refusal: Refusal) -> Fault {
        Fault::Refused(refusal)
    }
}

impl From<OpenRefused> for Fault {
    fn from(refused: OpenRefused) -> Fault {
        Fault::NotOpened(refused)
    }
}

impl From<AllocError> for Fault {
    fn from(_error: AllocError) -> Fault {
        Fault::Refused(Refusal::Memory)
    }
}

/// The words of a fault.
pub fn fault_text(alloc: Global, fault: &Fault) -> Result<String, AllocError> {
    match fault {
        Fault::NoCommand => String::from_str(alloc, "no command"),
        Fault::Closed => String::from_str(alloc, "no vault is open"),
        Fault::Refused(refusal) => format!(in alloc; "{refusal:?}"),
        Fault::NotOpened(refused) => format!(in alloc; "{refused:?}"),
    }
}

/// The words of what a command was answered.
pub fn text(alloc: Global, answered: Result<String, Fault>) -> Result<String, AllocError> {
    match answered {
        Ok(text) => Ok(text),
        Err(fault) => fault_text(alloc, &fault),
    }
}
