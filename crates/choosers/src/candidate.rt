//! What is chosen among.
use kinds::{Day, ObjectSize};

/// A copy that may be moved.
#[derive(Clone, Copy)]
pub struct Candidate {
    /// The object's number.
    pub object: u64,
    /// How many bytes the object has.
    pub size: ObjectSize,
    /// The day on which the object was stored.
    pub stored: Day,
    /// The number of the client node.
    pub node: u32,
}
