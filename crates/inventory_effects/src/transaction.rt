//! A transaction as a whole.

ghost use Rattle.std.specs.Prelude.{◌≡◌, ◌+◌, ◌<◌, ◌^◌, Ok};
ghost use Rattle.kinds.specs.Answers.{Becomes};
ghost use Rattle.inventory_rows.specs.State.{inv_of};
ghost use Rattle.inventory_rules.specs.Common.{each, CanEach};
ghost use Rattle.inventory_rules.specs.Copies.{add_copy, move_copy, put_moved, CanCopy, CanMoveAll};
ghost use Rattle.inventory_rules.specs.Segments.{make_scratch, CanScratch};
ghost use Rattle.inventory_rules.specs.Transactions.{changed, effect, CanChange, CanMake};
ghost use Rattle.inventory_rules.specs.Versions.{back_up, hold, CanBackUp, CanHold};
ghost use Rattle.inventory_effects.specs.Undoing.{Ends, Goes};

use crate::arrivals::{back_up_all, hold_all};
use crate::backups::{begin_backup, delete_backup, end_backup};
use crate::copies::drop_copies;
use crate::moves::move_all;
use crate::new_copies::add_copies;
use crate::puts::make_scratch;
use crate::rebinds::rebind_all;
use crate::rows::{change_clients, change_policy, change_stores, reuse, set_day};
use crate::undo::{UndoLog, undo_all};
use crate::versions::{discard_all, expire_all, mark_all_gone};
use entries::Change;
use entries::change_items::{MovedCopies, NewCopies, NewHeldObjects, NewVersions};
use inventory_rows::Tables;
use kinds::Refusal;
use std::alloc::Global;

/// Scratch volumes are made, and files become the newest versions of their paths.
fn back_up(
    alloc: Global,
    tables: &mut Tables,
    log: &mut UndoLog,
    change: &NewVersions,
) -> Result<(), Refusal>
    requires scratch { CanEach CanScratch make_scratch change.now.scratch (inv_of tables.old) }
    requires items { CanEach (CanBackUp change.now.filespace) (back_up change.now.filespace) change.now.items (each make_scratch change.now.scratch (inv_of tables.old)) }
    ensures { Goes result log.old (inv_of tables.old) log.new (inv_of tables.new) (each (back_up change.now.filespace) change.now.items (each make_scratch change.now.scratch (inv_of tables.old))) }
{
    make_scratch(tables, log, change.scratch.as_slice())?;
    back_up_all(
        alloc,
        tables,
        log,
        change.filespace,
        change.items.as_slice(),
    )
}

/// Scratch volumes are made, and objects are held from now on.
fn hold(
    alloc: Global,
    tables: &mut Tables,
    log: &mut UndoLog,
    change: &NewHeldObjects,
) -> Result<(), Refusal>
    requires scratch { CanEach CanScratch make_scratch change.now.scratch (inv_of tables.old) }
    requires items { CanEach (CanHold change.now.filespace) (hold change.now.filespace) change.now.items (each make_scratch change.now.scratch (inv_of tables.old)) }
    ensures { Goes result log.old (inv_of tables.old) log.new (inv_of tables.new) (each (hold change.now.filespace) change.now.items (each make_scratch change.now.scratch (inv_of tables.old))) }
{
    make_scratch(tables, log, change.scratch.as_slice())?;
    hold_all(
        alloc,
        tables,
        log,
        change.filespace,
        change.items.as_slice(),
    )
}

/// Scratch volumes are made, and copies beside others.
fn copy(tables: &mut Tables, log: &mut UndoLog, change: &NewCopies) -> Result<(), Refusal>
    requires scratch { CanEach CanScratch make_scratch change.now.scratch (inv_of tables.old) }
    requires items { CanEach CanCopy add_copy change.now.items (each make_scratch change.now.scratch (inv_of tables.old)) }
    ensures { Goes result log.old (inv_of tables.old) log.new (inv_of tables.new) (each add_copy change.now.items (each make_scratch change.now.scratch (inv_of tables.old))) }
{
    make_scratch(tables, log, change.scratch.as_slice())?;
    add_copies(tables, log, change.items.as_slice())
}

/// Scratch volumes are made, and copies move.
fn relocate(
    alloc: Global,
    tables: &mut Tables,
    log: &mut UndoLog,
    change: &MovedCopies,
) -> Result<(), Refusal>
    requires scratch { CanEach CanScratch make_scratch change.now.scratch (inv_of tables.old) }
    requires items { CanMoveAll change.now.items (each make_scratch change.now.scratch (inv_of tables.old)) }
    ensures { Ends result log.old (inv_of tables.old) log.new (inv_of tables.new) (each move_copy change.now.items (each put_moved change.now.items (each make_scratch change.now.scratch (inv_of tables.old)))) }
{
    make_scratch(tables, log, change.scratch.as_slice())?;
    move_all(alloc, tables, log, change.items.as_slice())
}

/// What a change makes of the rows.
fn make(
    alloc: Global,
    tables: &mut Tables,
    log: &mut UndoLog,
    change: &Change,
) -> Result<(), Refusal>
    requires number { tables.old.number + 1 < 2 ^ 64 }
    requires change { CanChange change.now (inv_of tables.old) }
    ensures { Ends result log.old (inv_of tables.old) log.new (inv_of tables.new) (changed change.now (inv_of tables.old)) }
{
    match change {
        Change::Day { day } => {
            set_day(tables, *day);
            Ok(())
        }
        Change::Policy(change) => change_policy(tables, change),
        Change::Object(change) => change_clients(tables, change),
        Change::Pool(change) => change_stores(tables, change),
        Change::Backup(change) => back_up(alloc, tables, log, change),
        Change::Hold(change) => hold(alloc, tables, log, change),
        Change::Rebind(change) => {
            rebind_all(alloc, tables, change.filespace, change.items.as_slice())
        }
        Change::Gone(change) => {
            mark_all_gone(tables, change.filespace, change.items.as_slice());
            Ok(())
        }
        Change::Move(change) => relocate(alloc, tables, log, change),
        Change::Copy(change) => copy(tables, log, change),
        Change::DropCopies(change) => {
            drop_copies(tables, change.items.as_slice());
            Ok(())
        }
        Change::Expire(change) => {
            expire_all(tables, change.filespace, change.items.as_slice());
            Ok(())
        }
        Change::Discard(change) => {
            discard_all(tables, change.items.as_slice());
            Ok(())
        }
        Change::Reuse { file } => {
            reuse(tables, *file);
            Ok(())
        }
        Change::DbBegin { file, after } => begin_backup(alloc, tables, *file, *after),
        Change::DbEnd { file } => {
            end_backup(tables, *file);
            Ok(())
        }
        Change::DbDelete { file } => {
            delete_backup(tables, *file);
            Ok(())
        }
    }
}

/// Makes a transaction with this change. Its one refusal is want of memory; then the database is as it was: what was begun has
/// been undone.
#[tactic(auto, unfolding(inventory_rules::specs::Transactions::effect))]
pub fn apply(alloc: Global, tables: &mut Tables, change: &Change) -> Result<(), Refusal>
    requires { CanMake change.now (inv_of tables.old) }
    ensures { Becomes result (inv_of tables.old) (inv_of tables.new) (Ok (effect change.now (inv_of tables.old))) }
{
    let mut log = UndoLog::new(alloc);
    let number = tables.number + 1;
    match make(alloc, tables, &mut log, change) {
        Ok(()) => {
            tables.number = number;
            Ok(())
        }
        Err(refusal) => {
            undo_all(tables, log);
            Err(refusal)
        }
    }
}
