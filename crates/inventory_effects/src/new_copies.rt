//! Copies that are made beside others.

ghost use Rattle.std.specs.Prelude.{◌≡◌};
ghost use Rattle.inventory_rows.specs.State.{inv_of};
ghost use Rattle.inventory_rules.specs.Common.{each, CanEach};
ghost use Rattle.inventory_rules.specs.Copies.{add_copy, added, change_copy, CanCopy, CanPlace};
ghost use Rattle.inventory_effects.specs.Undoing.{Goes};

use crate::arrivals::placed_now;
use crate::puts::put_all;
use crate::undo::{Undo, UndoLog};
use entries::change_items::NewCopy;
use inventory_rows::Tables;
use kinds::Refusal;

/// A copy is made beside others of its object; its segments don't come yet.
fn place(tables: &mut Tables, log: &mut UndoLog, item: &NewCopy) -> Result<(), Refusal>
    requires { CanPlace item.now (inv_of tables.old) }
    ensures { Goes result log.old (inv_of tables.old) log.new (inv_of tables.new) (change_copy item.now.object (added item.now (inv_of tables.old)) (inv_of tables.old)) }
{
    let copy = placed_now(tables, item.pool, &item.segments)?;
    let _found = tables.objects.find(item.object).is_some();
    log.push(Undo::Copy {
        object: item.object,
        pool: item.pool,
    })?;
    match tables.objects.add_copy(item.object, copy) {
        Ok(()) => Ok(()),
        Err(refusal) => {
            log.pop();
            Err(refusal)
        }
    }
}

/// A copy is made beside others of its object.
fn add_copy(tables: &mut Tables, log: &mut UndoLog, item: &NewCopy) -> Result<(), Refusal>
    requires { CanCopy item.now (inv_of tables.old) }
    ensures { Goes result log.old (inv_of tables.old) log.new (inv_of tables.new) (add_copy item.now (inv_of tables.old)) }
{
    place(tables, log, item)?;
    put_all(tables, log, item.object, item.segments.as_slice())
}

/// Some copies are made, one after the other. Its one refusal is want of memory; what was made by then is in the log.
pub fn add_copies(tables: &mut Tables, log: &mut UndoLog, items: &[NewCopy]) -> Result<(), Refusal>
    requires { CanEach CanCopy add_copy items.now (inv_of tables.old) }
    ensures { Goes result log.old (inv_of tables.old) log.new (inv_of tables.new) (each add_copy items.now (inv_of tables.old)) }
{
    'items: for item in items {
        add_copy(tables, log, item)?;
    }
    Ok(())
}
