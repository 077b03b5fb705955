//! A transaction is made.
ghost use Rattle.std.specs.Prelude.{◌≡◌, ◌≤◌, true, None, Ok, IfErr};
ghost use Rattle.kinds.specs.Answers.{Becomes};
ghost use Rattle.inventory_rows.specs.Items.{count_items};
ghost use Rattle.inventory_rows.specs.State.{inv_of};
ghost use Rattle.inventory_rules.specs.Transactions.{effect, refused, IsDayOf};
ghost use Rattle.inventory_rules.specs.Held.{IsTied};
ghost use Rattle.inventory_rules.specs.Journal.{no_journal};
ghost use Rattle.inventory_rules.specs.Valid.{is_valid};
ghost use Rattle.inventory_rows.specs.Ascending.{AreAscending};

use crate::bounds::or_counted;
use entries::Change;
use inventory_effects::apply;
use inventory_rows::{Tables, are_ascending};
use inventory_sizes::items_after;
use kinds::Refusal;
use std::alloc::Global;

/// A day that a transaction brings is one of the calendar.
pub(crate) fn is_day(change: &Change)
    ensures { IsDayOf change.now }
{
    if let Change::Day { day } = change {
        let _number = day.number();
    }
}

/// Makes a transaction of the rows alone. Refused only for want of memory, and then nothing changes.
fn make_rows(alloc: Global, tables: &mut Tables, change: &Change) -> Result<(), Refusal>
    requires valid { is_valid (inv_of tables.old) ≡ true }
    requires tied { IsTied (inv_of tables.old) }
    requires ascending { AreAscending (inv_of tables.old) }
    requires legal { refused no_journal change.now (inv_of tables.old) ≡ None }
    ensures becomes { Becomes result (inv_of tables.old) (inv_of tables.new) (Ok (effect change.now (inv_of tables.old))) }
    ensures valid { is_valid (inv_of tables.new) ≡ true }
    ensures tied { IsTied (inv_of tables.new) }
{
    is_day(change);
    apply(alloc, tables, change)
}

/// Makes a transaction that isn't refused. Refused only for want of memory, and then nothing changes, the bound included. The database holds no
/// more than `most_items` items, before and after: the bound rises by what the transaction brings, and where it would be more than a database may
/// hold, the items are counted anew.
pub fn make(
    alloc: Global,
    tables: &mut Tables,
    most_items: &mut u128,
    change: &Change,
) -> Result<(), Refusal>
    requires valid { is_valid (inv_of tables.old) ≡ true }
    requires tied { IsTied (inv_of tables.old) }
    requires bound { count_items (inv_of tables.old) ≤ most_items.old }
    requires legal { refused no_journal change.now (inv_of tables.old) ≡ None }
    ensures becomes { Becomes result (inv_of tables.old) (inv_of tables.new) (Ok (effect change.now (inv_of tables.old))) }
    ensures valid { is_valid (inv_of tables.new) ≡ true }
    ensures tied { IsTied (inv_of tables.new) }
    ensures bound { count_items (inv_of tables.new) ≤ most_items.new }
    ensures memory { IfErr result (λ e. most_items.new ≡ most_items.old) }
{
    are_ascending(tables);
    let higher = items_after(tables, change, *most_items);
    match make_rows(alloc, tables, change) {
        Ok(()) => {
            *most_items = or_counted(tables, higher);
            Ok(())
        }
        Err(refusal) => Err(refusal),
    }
}
