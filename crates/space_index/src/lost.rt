use std::alloc::AllocError;

/// Why an index isn't that of the rows and of what is held any more.
#[derive(Clone, Copy, Debug)]
pub enum Lost {
    /// There is too little memory.
    Memory,
    /// What is asked for can't be followed: it isn't what the rules of the database allow.
    Kind,
}

impl From<AllocError> for Lost {
    fn from(_: AllocError) -> Self {
        Lost::Memory
    }
}
