//! What a line is answered, and its words.
use files_api::ListRefused;
use kinds::{OpenRefused, Refusal};
use std::alloc::{AllocError, Global};
use std::io;

/// Why a line has no answer.
#[derive(Clone, Copy)]
pub enum Fault {
    /// The line is no command.
    NoCommand,
    /// What the line is about was not made yet.
    NotMade,
    /// The call on the store, the files, the source or the sink failed.
    Failed,
    /// There is no such file.
    Missing,
    /// A name in the folder isn't UTF-8.
    NotText,
    /// The system refused what the line asks of it.
    System,
    /// The log refused.
    Refused(Refusal),
    /// A log or an image could not be read, or a log not be begun.
    NotOpened(OpenRefused),
}

impl From<store_api::Failed> for Fault {
    fn from(_failed: store_api::Failed) -> Fault {
        Fault::Failed
    }
}

impl From<files_api::Failed> for Fault {
    fn from(_failed: files_api::Failed) -> Fault {
        Fault::Failed
    }
}

impl From<ListRefused> for Fault {
    fn from(refused: ListRefused) -> Fault {
        match refused {
            ListRefused::Failed => Fault::Failed,
            ListRefused::NotText => Fault::NotText,
            ListRefused::Memory => Fault::Refused(Refusal::Memory),
        }
    }
}

impl From<tree_api::Failed> for Fault {
    fn from(_failed: tree_api::Failed) -> Fault {
        Fault::Failed
    }
}

impl From<io::Error> for Fault {
    fn from(_error: io::Error) -> Fault {
        Fault::System
    }
}

impl From<Refusal> for Fault {
    fn from(refusal: Refusal) -> Fault {
        Fault::Refused(refusal)
    }
}

impl From<OpenRefused> for Fault {
    fn from(refused: OpenRefused) -> Fault {
        Fault::NotOpened(refused)
    }
}

impl From<AllocError> for Fault {
    fn from(_error: AllocError) -> Fault {
        Fault::Refused(Refusal::Memory)
    }
}

/// The answer where there is nothing more to say.
pub fn done(alloc: Global) -> Result<String, Fault> {
    Ok(String::from_str(alloc, "done")?)
}

pub fn word_text(alloc: Global, word: &str) -> Result<String, Fault> {
    Ok(String::from_str(alloc, word)?)
}

pub fn truth_text(alloc: Global, is_so: bool) -> Result<String, Fault> {
    word_text(alloc, if is_so { "yes" } else { "no" })
}

pub fn number_text(alloc: Global, number: u64) -> Result<String, Fault> {
    Ok(format!(in alloc; "{number}")?)
}

/// The bytes in hexadecimal digits, and `-` where there are none.
pub fn bytes_text(alloc: Global, bytes: &[u8]) -> Result<String, Fault> {
    if bytes.is_empty() {
        return word_text(alloc, "-");
    }
    Ok(hex::encode(alloc, bytes)?)
}

/// How many bytes a call read, and the whole buffer that it was given.
pub fn read_text(alloc: Global, count: usize, buffer: &[u8]) -> Result<String, Fault> {
    let digits = bytes_text(alloc, buffer)?;
    Ok(format!(in alloc; "{count} {digits}")?)
}

fn fault_text(alloc: Global, fault: &Fault) -> Result<String, AllocError> {
    match fault {
        Fault::NoCommand => String::from_str(alloc, "no command"),
        Fault::NotMade => String::from_str(alloc, "not made"),
        Fault::Failed => String::from_str(alloc, "failed"),
        Fault::Missing => String::from_str(alloc, "missing"),
        Fault::NotText => String::from_str(alloc, "not text"),
        Fault::System => String::from_str(alloc, "refused by the system"),
        Fault::Refused(refusal) => format!(in alloc; "{refusal:?}"),
        Fault::NotOpened(refused) => format!(in alloc; "{refused:?}"),
    }
}

/// The words of what a line was answered.
pub fn text(alloc: Global, answered: Result<String, Fault>) -> Result<String, AllocError> {
    match answered {
        Ok(text) => Ok(text),
        Err(fault) => fault_text(alloc, &fault),
    }
}
