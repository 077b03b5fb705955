use client_trees::FileRow;
use kinds::{Name, Path};

/// A file that is sent.
#[derive(Drop)]
pub struct SendLine {
    pub file: FileRow,
    /// The management class under which it is to be kept.
    pub class: Name,
}

/// A path whose versions are bound to another class.
#[derive(Drop)]
pub struct RebindLine {
    pub path: Path,
    /// The management class to which they are bound.
    pub class: Name,
}

/// A version that is no longer active.
#[derive(Drop)]
pub struct GoneLine {
    pub path: Path,
    /// The number of the object.
    pub object: u64,
}
