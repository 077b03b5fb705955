ghost use Rattle.std.specs.Prelude.{◌≡◌};

use std::alloc::AllocError;
use volume_rows::kinds::{Name, PoolKind, PoolSettings};

/// A storage pool.
#[derive(Drop)]
pub struct Pool {
    pub name: Name,
    /// The name of its device class.
    pub class: Name,
    pub kind: PoolKind,
    pub settings: PoolSettings,
}

impl Clone for Pool {
    ghost is_clone = { λ pool copy. copy ≡ pool };

    fn clone(&self) -> Result<Self, AllocError> {
        Ok(Pool {
            name: self.name.clone()?,
            class: self.class.clone()?,
            kind: self.kind,
            settings: self.settings,
        })
    }
}
