ghost use Rattle.std.specs.Prelude.{◌≡◌};

use std::alloc::AllocError;
use version_groups::Version;
use version_groups::kinds::{Path, Text};

/// An object that a client archived: what the server keeps of it.
#[derive(Drop)]
pub struct HeldObject {
    /// The path of the client file within its filespace.
    pub path: Path,
    /// What the client says of it.
    pub description: Text,
    /// What is kept of any object. A held object has no day from which it is inactive.
    pub version: Version,
    /// The day from which on it is no longer kept; none where it is kept without a limit.
    pub until: Option<u32>,
}

impl Clone for HeldObject {
    ghost is_clone = { λ held copy. copy ≡ held };

    fn clone(&self) -> Result<Self, AllocError> {
        Ok(HeldObject {
            path: self.path.clone()?,
            description: self.description.clone()?,
            version: self.version.clone()?,
            until: self.until,
        })
    }
}

/// A held object of a filespace.
#[derive(Drop)]
pub struct HeldRow {
    /// The filespace, by its number.
    pub filespace: u32,
    /// The object.
    pub held: HeldObject,
}

impl Clone for HeldRow {
    ghost is_clone = { λ row copy. copy ≡ row };

    fn clone(&self) -> Result<Self, AllocError> {
        Ok(HeldRow {
            filespace: self.filespace,
            held: self.held.clone()?,
        })
    }
}
