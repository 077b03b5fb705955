//! Room for more objects.

ghost use Rattle.std.specs.Prelude.{◌≡◌, ◌+◌, length, nat_le};
ghost use Rattle.inventory_rules.specs.inventory_rows.object_rows.Rows.{most_kept};
ghost use Rattle.inventory_rules.specs.inventory_rows.Search.{versions};
ghost use Rattle.inventory_rules.specs.inventory_rows.State.{inv_of};

use inventory_rules::inventory_rows::Tables;

/// How many objects may be kept.
const MOST_KEPT: usize = 1 << 20;

/// Whether so many objects more would be no more than may be kept.
pub(crate) fn has_room(tables: &Tables, more: usize) -> bool
    ensures { result ≡ nat_le (length (versions (inv_of tables.now)) + more) most_kept }
{
    more <= MOST_KEPT && tables.objects.count() <= MOST_KEPT - more
}
