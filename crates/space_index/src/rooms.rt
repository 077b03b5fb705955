// The room of a pool's volumes.
ghost use Rattle.std.specs.Prelude.{◌≡◌, None, [], OnOk, sum};
ghost use Rattle.std.specs.Map.{values_of};
ghost use Rattle.space_index.specs.Listed.{IsSetAt, some_room};

use std::alloc::{AllocError, Global};
use std::collections::BTreeMap;
use std::marker::Model;

/// The volumes of a pool that have room, by file number, each with its room in bytes. Contracts see the list of them.
#[derive(Drop)]
pub struct Rooms {
    rooms: BTreeMap<u32, u64>,
    total: u128,
}

impl Model for Rooms {
    ghost use Rattle.std.specs.Prelude.{◌≡◌, List, ℕ, sum};
    ghost use Rattle.std.specs.Map.{values_of};

    ghost Value = { List (ℕ × ℕ) };

    ghost view = { λ r. r.rooms.entries };

    ghost invariant = { λ r. r.total ≡ sum (values_of r.rooms.entries) };
}

impl Rooms {
    /// No volume has room. It takes no memory.
    pub fn new(alloc: Global) -> Self
        ensures { result ≡ [] }
    {
        Rooms {
            rooms: BTreeMap::new(alloc),
            total: 0,
        }
    }

    /// The volumes with their room.
    pub fn as_map(&self) -> &BTreeMap<u32, u64>
        ensures { result.now.entries ≡ self.now }
    {
        &self.rooms
    }

    /// The room of all of them, in bytes.
    pub fn total(&self) -> u128
        ensures { result ≡ sum (values_of self.now) }
    {
        self.total
    }

    /// A volume has no room any more. It takes no memory.
    pub fn remove(&mut self, file: u32)
        ensures { IsSetAt file None self.old self.new }
    {
        if let Some(room) = self.rooms.remove(&file) {
            self.total -= u128::from(room);
        }
    }

    /// A volume has this room now. 2^128 bytes or more in all, of which no memory holds the volumes, are want of memory too.
    pub fn set(&mut self, file: u32, room: u64) -> Result<(), AllocError>
        ensures { OnOk result (IsSetAt file (some_room room) self.old self.new) }
    {
        self.remove(file);
        if room == 0 {
            return Ok(());
        }
        let Some(total) = self.total.checked_add(u128::from(room)) else {
            return Err(AllocError);
        };
        self.rooms.insert(file, room)?;
        self.total = total;
        Ok(())
    }
}
