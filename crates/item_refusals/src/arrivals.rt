//! Objects that a transaction brings.

ghost use Rattle.std.specs.Prelude.{◌≡◌, ◌==◌, ℕ, not, map};
ghost use Rattle.kinds.specs.Refusals.{foremost};
ghost use Rattle.inventory_rules.specs.inventory_rows.State.{inv_of};
ghost use Rattle.inventory_rules.specs.Versions.{filespace_there, arrivals_refused, new_refused, object_refused, objects_refused};

use crate::apart::Apart;
use crate::causes::once;
use crate::room::has_room;
use inventory_rules::change_items::{NewHeldObject, NewVersion};
use inventory_rules::inventory_rows::Tables;
use kinds::{Refusal, bad_value, sooner_of, unless};

/// An item of a list that brings a new object.
pub trait Arrival: Apart {
    /// The object's number.
    ghost number: { Self → ℕ };

    /// The object's number.
    fn number(&self) -> u64
        ensures { result ≡ number self.now };

    /// Two items differ where their objects' numbers do.
    ghost by_number: { (a b : Self) → Self.differs a b ≡ not (number a == number b) };
}

impl Arrival for NewVersion {
    ghost use Rattle.std.specs.Prelude.{refl};

    ghost number = { λ i. i.object };

    fn number(&self) -> u64 {
        self.object
    }

    ghost by_number = { λ a b. refl };
}

impl Arrival for NewHeldObject {
    ghost use Rattle.std.specs.Prelude.{refl};

    ghost number = { λ i. i.object };

    fn number(&self) -> u64 {
        self.object
    }

    ghost by_number = { λ a b. refl };
}

pub(crate) fn filespace_there(tables: &Tables, filespace: u32) -> Option<Refusal>
    ensures { result ≡ foremost (filespace_there filespace (inv_of tables.now)) }
{
    let there = tables.objects.filespaces().contains_key(&filespace);
    unless(there, Refusal::NotFound)
}

/// Why new objects of a filespace are refused: an object that is named twice is `BadValue`, a filespace that isn't there is `NotFound`, and more
/// than 2^20 objects in all are `InventoryFull`. It takes no memory.
pub fn new_refused<T: Arrival>(tables: &Tables, filespace: u32, items: &[T]) -> Option<Refusal>
    ensures { result ≡ foremost (new_refused filespace (map T.number items.now) (inv_of tables.now)) }
{
    let there = filespace_there(tables, filespace);
    let once = once(items);
    let room = unless(has_room(tables, items.len()), Refusal::InventoryFull);
    sooner_of(there, sooner_of(once, room))
}

/// The number of a new object isn't new, or the next object number would reach its bound.
#[tactic(auto, using(crate::proofs::Foremost::foremost_append))]
fn object_refusal(tables: &Tables, object: u64) -> Option<Refusal>
    ensures { result ≡ foremost (object_refused (inv_of tables.now) object) }
{
    let new = 1 <= object && !tables.objects.has_object(object);
    let next = (tables.next_object as u128).max(object as u128 + 1);
    let bound = unless(next < 1 << 62, Refusal::InventoryFull);
    sooner_of(unless(new, bad_value()), bound)
}

/// Why the numbers of new objects are refused: one that is 0 or that an object has is `BadValue`, and a next object number that would reach
/// its bound is `InventoryFull`. It takes no memory.
pub fn objects_refused<T: Arrival>(tables: &Tables, items: &[T]) -> Option<Refusal>
    ensures { result ≡ foremost (objects_refused (map T.number items.now) (inv_of tables.now)) }
{
    let mut found = None;
    'items: for item in items {
        found = sooner_of(found, object_refusal(tables, item.number()));
    }
    found
}
