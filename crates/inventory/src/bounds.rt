//! An upper bound of how many items the database holds.
ghost use Rattle.std.specs.Prelude.{◌≡◌, ◌≤◌, true, IfSome};
ghost use Rattle.inventory_rows.specs.Items.{count_items};
ghost use Rattle.inventory_rows.specs.State.{inv_of};
ghost use Rattle.inventory_rules.specs.Valid.{is_valid};

use inventory_rows::Tables;

/// How many items all lists of the database have together, exactly: domains, sets and classes; nodes; filespaces, groups, versions, copies and
/// segments; device classes, pools and volumes; database backups and their delays. It walks the domains, their sets and the database backups, and
/// takes no memory.
pub fn count_items(tables: &Tables) -> u128
    requires { is_valid (inv_of tables.now) ≡ true }
    ensures { result ≡ count_items (inv_of tables.now) }
{
    inventory_sizes::count_items(tables)
}

/// This bound, or where there is none, what is counted.
pub(crate) fn or_counted(tables: &Tables, bound: Option<u128>) -> u128
    requires valid { is_valid (inv_of tables.now) ≡ true }
    requires bound { IfSome bound (λ n. count_items (inv_of tables.now) ≤ n) }
    ensures { count_items (inv_of tables.now) ≤ result }
{
    match bound {
        Some(bound) => bound,
        None => count_items(tables),
    }
}
