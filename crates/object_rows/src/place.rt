ghost use Rattle.std.specs.Prelude.{◌≡◌};

use std::alloc::AllocError;
use version_groups::kinds::{Name, NodeName, Path};

/// A client node.
#[derive(Drop)]
pub struct Node {
    /// The node's name.
    pub name: NodeName,
    /// The name of its policy domain.
    pub domain: Name,
}

impl Clone for Node {
    ghost is_clone = { λ node copy. copy ≡ node };

    fn clone(&self) -> Result<Self, AllocError> {
        Ok(Node {
            name: self.name.clone()?,
            domain: self.domain.clone()?,
        })
    }
}

/// Where the version of an object stands.
#[derive(Drop)]
pub(crate) struct Place {
    pub(crate) filespace: u32,
    pub(crate) path: Path,
}

impl Clone for Place {
    ghost is_clone = { λ place copy. copy ≡ place };

    fn clone(&self) -> Result<Self, AllocError> {
        Ok(Place {
            filespace: self.filespace,
            path: self.path.clone()?,
        })
    }
}
