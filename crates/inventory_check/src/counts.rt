//! How much a database holds.

ghost use Rattle.std.specs.Prelude.{◌≡◌, nat_le};
ghost use Rattle.inventory_rows.specs.Items.{count_items, most_items};
ghost use Rattle.inventory_rows.specs.State.{inv_of};

use inventory_rows::Tables;

/// How many items the lists of a database may have together.
const MOST_ITEMS: u128 = 15 << 20;

/// Whether the lists of the database have at most 15 * 2^20 items together.
#[tactic(auto, using(crate::proofs::Room::left_fits))]
pub fn is_small(tables: &Tables) -> bool
    ensures { result ≡ nat_le (count_items (inv_of tables.now)) most_items }
{
    tables.items_left(MOST_ITEMS).is_some()
}
