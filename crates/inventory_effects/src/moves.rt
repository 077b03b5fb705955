//! Copies that move.

ghost use Rattle.std.specs.Prelude.{◌≡◌, ◌+◌, ◌<◌, ◌^◌, map};
ghost use Rattle.kinds.specs.Answers.{AnswersBy};
ghost use Rattle.inventory_rows.specs.State.{inv_of};
ghost use Rattle.inventory_rules.specs.Common.{each, CanEach};
ghost use Rattle.inventory_rules.specs.Copies.{move_copy, put_moved, CanMove, CanMoveAll, CanPutMoved, placed_as};
ghost use Rattle.inventory_effects.specs.Undoing.{Ends, Goes};

use crate::arrivals::placed_now;
use crate::copies::take_copy;
use crate::puts::put_all;
use crate::undo::UndoLog;
use entries::change_items::MovedCopy;
use inventory_rows::Tables;
use inventory_rows::version_groups::CopyRow;
use kinds::Refusal;
use std::alloc::Global;
use std::collections::VecDeque;

/// The new segments of a copy come.
fn put_one(tables: &mut Tables, log: &mut UndoLog, item: &MovedCopy) -> Result<(), Refusal>
    requires { CanPutMoved item.now (inv_of tables.old) }
    ensures { Goes result log.old (inv_of tables.old) log.new (inv_of tables.new) (put_moved item.now (inv_of tables.old)) }
{
    put_all(tables, log, item.object, item.segments.as_slice())
}

/// The new segments of some copies come.
fn put_each(tables: &mut Tables, log: &mut UndoLog, items: &[MovedCopy]) -> Result<(), Refusal>
    requires { CanEach CanPutMoved put_moved items.now (inv_of tables.old) }
    ensures { Goes result log.old (inv_of tables.old) log.new (inv_of tables.new) (each put_moved items.now (inv_of tables.old)) }
{
    'items: for item in items {
        put_one(tables, log, item)?;
    }
    Ok(())
}

/// The copies as the next transaction places them.
fn place_each(
    alloc: Global,
    tables: &Tables,
    items: &[MovedCopy],
) -> Result<VecDeque<CopyRow>, Refusal>
    requires { tables.now.number + 1 < 2 ^ 64 }
    ensures { AnswersBy (λ rows. rows.items) result (map (placed_as tables.now.number) items.now) }
{
    let mut rows = VecDeque::new(alloc);
    'items: for item in items {
        let row = placed_now(tables, item.pool, &item.segments)?;
        rows.push_back(row)?;
    }
    Ok(rows)
}

/// A copy takes the place of the former one, whose segments go.
fn replace(tables: &mut Tables, item: &MovedCopy, row: CopyRow)
    requires placed { row ≡ placed_as tables.old.number item.now }
    requires free { CanMove item.now (inv_of tables.old) }
    ensures moved { inv_of tables.new ≡ move_copy item.now (inv_of tables.old) }
    ensures number { tables.new.number ≡ tables.old.number }
{
    take_copy(tables, item.object, item.from);
    match tables.objects.replace_copy(item.object, item.from, row) {
        Ok(()) => {}
        Err(_) => {}
    }
}

/// Some copies take the places of the former ones.
fn replace_each(tables: &mut Tables, items: &[MovedCopy], mut rows: VecDeque<CopyRow>)
    requires placed { rows.items ≡ map (placed_as tables.old.number) items.now }
    requires free { CanEach CanMove move_copy items.now (inv_of tables.old) }
    ensures { inv_of tables.new ≡ each move_copy items.now (inv_of tables.old) }
{
    'items: for item in items {
        match rows.pop_front() {
            Some(row) => replace(tables, item, row),
            None => unreachable!(),
        }
    }
}

/// Some copies move: all new segments come, and then each copy takes the place of the former one, whose segments go. Its one
/// refusal is want of memory, before a copy has moved; what was made by then is in the log.
pub fn move_all(
    alloc: Global,
    tables: &mut Tables,
    log: &mut UndoLog,
    items: &[MovedCopy],
) -> Result<(), Refusal>
    requires { CanMoveAll items.now (inv_of tables.old) }
    ensures { Ends result log.old (inv_of tables.old) log.new (inv_of tables.new) (each move_copy items.now (each put_moved items.now (inv_of tables.old))) }
{
    put_each(tables, log, items)?;
    let rows = place_each(alloc, tables, items)?;
    replace_each(tables, items, rows);
    Ok(())
}
