// Volumes by pool.
ghost use Rattle.std.specs.Prelude.{◌≡◌, ℕ, true, Some, None, Option, OnOk};
ghost use Rattle.space_index.specs.declared.by_pool.Home.{Home};
ghost use Rattle.space_index.specs.Listed.{HasRoom};
ghost use Rattle.space_index.specs.Tails.{IsListing, IsOwnListing, AreElse};

use crate::random::set_room;
use crate::rooms::Rooms;
use std::alloc::{AllocError, Global};
use std::collections::BTreeMap;

/// The pool of a volume, and what is listed of the volume there.
#[derive(Clone, Copy, Debug)]
pub struct Home {
    /// The pool's number.
    pub pool: u32,
    /// The volume's room in bytes, or 1 where volumes are counted.
    pub room: u64,
}

/// The volumes of each pool that have room.
#[derive(Drop)]
pub struct Listing {
    alloc: Global,
    /// By file number, the pool in which a volume was listed last.
    pub(crate) homes: BTreeMap<u32, u32>,
    /// By pool number, the volumes.
    pub(crate) pools: BTreeMap<u32, Rooms>,
}

/// A volume stands no more in a pool's list.
fn strike_from(pools: &mut BTreeMap<u32, Rooms>, pool: u32, file: u32)
    ensures { HasRoom pool file None pools.old.entries pools.new.entries }
{
    if let Some(rooms) = pools.get_mut(&pool) {
        rooms.remove(file);
    }
}

impl Listing {
    /// No volumes. It takes no memory.
    pub fn new(alloc: Global) -> Self
        ensures { IsListing result (λ file. None) }
    {
        Listing {
            alloc,
            homes: BTreeMap::new(alloc),
            pools: BTreeMap::new(alloc),
        }
    }

    /// Whether no volume is in a list: each that was listed has gone.
    pub fn is_empty(&self) -> bool
        ensures { (homes : ℕ → Option Home) → IsListing self.now homes → result ≡ true → IsOwnListing None homes }
    {
        self.homes.is_empty()
    }

    fn strike(&mut self, file: u32)
        ensures { (homes others : ℕ → Option Home) → IsListing self.old homes → AreElse file homes others → others file ≡ None → IsListing self.new others }
    {
        if let Some(pool) = self.homes.get(&file).copied() {
            strike_from(&mut self.pools, pool, file);
        }
    }

    fn forget(&mut self, file: u32)
        ensures { (homes : ℕ → Option Home) → IsListing self.old homes → homes file ≡ None → IsListing self.new homes }
    {
        let _ = self.homes.remove(&file);
    }

    fn enter(&mut self, file: u32, home: Home) -> Result<(), AllocError>
        ensures { (homes others : ℕ → Option Home) → IsListing self.old homes → AreElse file homes others → homes file ≡ None → others file ≡ Some home → OnOk result (IsListing self.new others) }
    {
        self.homes.insert(file, home.pool)?;
        set_room(self.alloc, &mut self.pools, home.pool, file, home.room)?;
        Ok(())
    }

    /// A volume has this room in this pool now, or is in none.
    pub fn set(&mut self, file: u32, home: Option<Home>) -> Result<(), AllocError>
        ensures { (homes others : ℕ → Option Home) → IsListing self.old homes → AreElse file homes others → others file ≡ home → OnOk result (IsListing self.new others) }
    {
        self.strike(file);
        match home {
            Some(home) => self.enter(file, home),
            None => {
                self.forget(file);
                Ok(())
            }
        }
    }
}
