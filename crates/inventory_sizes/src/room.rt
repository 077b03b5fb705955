//! Room for a thing that may come.

ghost use Rattle.std.specs.Prelude.{◌≡◌};
ghost use Rattle.inventory_rows.specs.object_rows.Items.{left};
ghost use Rattle.inventory_rules.specs.Common.{one_if};

use inventory_rows::object_rows::left_by;

/// What is left of the room once a thing is in it that may come.
pub(crate) fn left_by_one(comes: bool, room: u128) -> Option<u128>
    ensures { result ≡ left (one_if comes) room }
{
    if comes { left_by(1, room) } else { Some(room) }
}
