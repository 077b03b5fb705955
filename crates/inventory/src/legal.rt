//! Why a transaction is refused.
ghost use Rattle.std.specs.Prelude.{◌≡◌, ◌≤◌, ◌^◌, true};
ghost use Rattle.kinds.specs.Refusals.{foremost};
ghost use Rattle.inventory_rows.specs.Items.{count_items};
ghost use Rattle.inventory_rows.specs.State.{inv_of};
ghost use Rattle.inventory_rules.specs.Held.{IsTied};
ghost use Rattle.inventory_rules.specs.Common.{full_at};
ghost use Rattle.inventory_rules.specs.Valid.{is_valid};
ghost use Rattle.inventory_rules.specs.Transactions.{refused};
ghost use Rattle.inventory.specs.Legal.{sizes, tested};

use crate::made::is_day;
use entries::Change;
use inventory_fits::parts_fit;
use inventory_refusals::refusal_of;
use inventory_rows::{Tables, are_ascending};
use inventory_sizes::has_item_room;
use item_refusals::Past;
use kinds::{Refusal, bad_value, sooner_of, unless};

/// How many numbers there are for transactions.
const NUMBERS: u64 = 1 << 62;

/// The number of the transaction would reach its bound.
fn number_refused(tables: &Tables) -> Option<Refusal>
    ensures { result ≡ foremost (full_at tables.now.number (2 ^ 62)) }
{
    unless(tables.number < NUMBERS - 1, Refusal::InventoryFull)
}

/// The database would be too large, or the transaction's number would reach its bound.
#[tactic(auto, using(item_refusals::proofs::Foremost::foremost_append))]
fn sizes_refused(tables: &Tables, change: &Change, known: u128) -> Option<Refusal>
    requires { count_items (inv_of tables.now) ≤ known }
    ensures { result ≡ foremost (sizes change.now (inv_of tables.now)) }
{
    let items = unless(has_item_room(tables, change, known), Refusal::InventoryFull);
    sooner_of(items, number_refused(tables))
}

/// The foremost of the causes, a database that would be too large among them, and behind them `BadValue` where what the change brings doesn't fit
/// where it comes.
#[tactic(auto, using(item_refusals::proofs::Foremost::foremost_append), unfolding(crate::specs::Legal::tested))]
fn tested<J: Past>(past: &J, tables: &Tables, change: &Change, most_items: u128) -> Option<Refusal>
    requires valid { is_valid (inv_of tables.now) ≡ true }
    requires tied { IsTied (inv_of tables.now) }
    requires bound { count_items (inv_of tables.now) ≤ most_items }
    ensures { result ≡ tested (J.journal past.now) change.now (inv_of tables.now) }
{
    let causes = refusal_of(past, tables, change);
    match sooner_of(causes, sizes_refused(tables, change, most_items)) {
        Some(refusal) => Some(refusal),
        None => unless(parts_fit(tables, change), bad_value()),
    }
}

/// Why a transaction with this change is refused, where it is. It is decided by tests of the database as it is. The database holds no more than
/// `most_items` items. Only where these leave no room for what comes are they counted. It takes no memory.
pub fn refused<J: Past>(
    past: &J,
    tables: &Tables,
    change: &Change,
    most_items: u128,
) -> Option<Refusal>
    requires valid { is_valid (inv_of tables.now) ≡ true }
    requires tied { IsTied (inv_of tables.now) }
    requires bound { count_items (inv_of tables.now) ≤ most_items }
    ensures { result ≡ refused (J.journal past.now) change.now (inv_of tables.now) }
{
    is_day(change);
    are_ascending(tables);
    tested(past, tables, change, most_items)
}
