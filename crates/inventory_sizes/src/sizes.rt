//! Whether the database would hold too much after a transaction.

ghost use Rattle.std.specs.Prelude.{◌≡◌, ◌≤◌, min};
ghost use Rattle.inventory_rows.specs.Items.{count_items, most_items};
ghost use Rattle.inventory_rows.specs.State.{inv_of};
ghost use Rattle.inventory_rules.specs.Transactions.{items_added};
ghost use Rattle.inventory_sizes.specs.Room.{sum_within};
ghost use Rattle.inventory_sizes.specs.Sizes.{has_item_room};

use crate::added::left_by_change;
use crate::gone::items_gone;
use entries::Change;
use inventory_rows::Tables;

/// How many items the lists of a database may have together.
const MOST_ITEMS: u128 = 15 << 20;

/// How many items the lists of the database have at most once a transaction is made, where they have no more than `known`: with those that it
/// brings. None where that is more than they may have. It takes no memory, and but for a database backup that begins it looks only at what the
/// transaction names.
pub fn items_after(tables: &Tables, change: &Change, known: u128) -> Option<u128>
    ensures { result ≡ sum_within known (items_added change.now (inv_of tables.now)) most_items }
{
    if known > MOST_ITEMS {
        return None;
    }
    match left_by_change(change, tables, MOST_ITEMS - known) {
        Some(rest) => Some(MOST_ITEMS - rest),
        None => None,
    }
}

/// How many items the lists of the database have, counted up to how many they may have. It walks the domains, their sets and the database
/// backups, and takes no memory.
pub fn count_items(tables: &Tables) -> u128
    ensures { result ≡ min (count_items (inv_of tables.now)) most_items }
{
    match tables.items_left(MOST_ITEMS) {
        Some(rest) => MOST_ITEMS - rest,
        None => MOST_ITEMS,
    }
}

/// Whether there is room for the items, by a walk over the domains, their sets and the database backups, up to where the room ends.
fn has_counted_room(tables: &Tables, change: &Change) -> bool
    ensures { result ≡ has_item_room change.now (inv_of tables.now) }
{
    let room = MOST_ITEMS + items_gone(change, tables);
    match left_by_change(change, tables, room) {
        Some(rest) => tables.items_left(rest).is_some(),
        None => false,
    }
}

/// Whether the lists of the database have no more items than they may once a transaction is made: with those that it brings, and without those
/// that it replaces. They have no more items than `known`. Only where these leave no room for what comes does it walk the domains, their sets and
/// the database backups, up to where the room ends. It takes no memory.
pub fn has_item_room(tables: &Tables, change: &Change, known: u128) -> bool
    requires { count_items (inv_of tables.now) ≤ known }
    ensures { result ≡ has_item_room change.now (inv_of tables.now) }
{
    match items_after(tables, change, known) {
        Some(_) => true,
        None => has_counted_room(tables, change),
    }
}
