//! Why the database refuses a transaction.

ghost use Rattle.std.specs.Prelude.{◌≡◌, ◌++◌, map, nat_le};
ghost use Rattle.kinds.specs.Refusals.{foremost, unless};
ghost use Rattle.inventory_rows.specs.State.{inv_of};
ghost use Rattle.inventory_rules.specs.Copies.{move_refused, copy_list_refused};
ghost use Rattle.inventory_rules.specs.Versions.{new_refused, objects_refused};
ghost use Rattle.inventory_rules.specs.Segments.{scratch_refused};
ghost use Rattle.inventory_rules.specs.Transactions.{causes};

use crate::backups::{begin_refused, delete_refused, end_refused};
use crate::client::client_refused;
use crate::policy::policy_refused;
use crate::reuse::reuse_refused;
use crate::store::store_refused;
use entries::Change;
use entries::change_items::{MovedCopies, NewCopies, ScratchVolume};
use inventory_rows::Tables;
use item_refusals::{
    Arrival, Past, copy_list_refused, discard_refused, drop_refused, expire_refused, gone_refused,
    move_refused, new_refused, objects_refused, rebind_refused, scratch_refused,
};
use kinds::{Day, Refusal, sooner_of, unless};

fn day_refused(tables: &Tables, day: Day) -> Option<Refusal>
    ensures { result ≡ foremost (unless (nat_le tables.now.today day) (Refusal.DayBack tables.now.today day)) }
{
    let today = tables.today.number();
    let given = day.number();
    unless(today <= given, Refusal::DayBack { today, given })
}

/// Why new objects, and the scratch volumes that are made for them, are refused.
#[tactic(auto, using(item_refusals::proofs::Foremost::foremost_append))]
fn arrivals_refused<T: Arrival>(
    tables: &Tables,
    filespace: u32,
    scratch: &[ScratchVolume],
    items: &[T],
) -> Option<Refusal>
    ensures { result ≡ foremost (new_refused filespace (map T.number items.now) (inv_of tables.now)
        ++ (scratch_refused scratch.now (inv_of tables.now) ++ objects_refused (map T.number items.now) (inv_of tables.now))) }
{
    let new = new_refused(tables, filespace, items);
    let scratch = scratch_refused(tables, scratch);
    let objects = objects_refused(tables, items);
    sooner_of(new, sooner_of(scratch, objects))
}

#[tactic(auto, using(item_refusals::proofs::Foremost::foremost_append))]
fn moves_refused<J: Past>(past: &J, tables: &Tables, moved: &MovedCopies) -> Option<Refusal>
    ensures { result ≡ foremost (move_refused (J.journal past.now) moved.now.items (inv_of tables.now) ++ scratch_refused moved.now.scratch (inv_of tables.now)) }
{
    let items = move_refused(past, tables, moved.items.as_slice());
    let scratch = scratch_refused(tables, moved.scratch.as_slice());
    sooner_of(items, scratch)
}

#[tactic(auto, using(item_refusals::proofs::Foremost::foremost_append))]
fn copies_refused<J: Past>(past: &J, tables: &Tables, copies: &NewCopies) -> Option<Refusal>
    ensures { result ≡ foremost (copy_list_refused (J.journal past.now) copies.now.items (inv_of tables.now) ++ scratch_refused copies.now.scratch (inv_of tables.now)) }
{
    let items = copy_list_refused(past, tables, copies.items.as_slice());
    let scratch = scratch_refused(tables, copies.scratch.as_slice());
    sooner_of(items, scratch)
}

/// Why the database refuses a transaction with this change, where it does: of all the refusals that hold of it, in the order of their causes,
/// the one with the least number. That what the transaction would leave is valid, and no larger than a database may be, is not looked at. It
/// takes no memory.
pub fn refusal_of<J: Past>(past: &J, tables: &Tables, change: &Change) -> Option<Refusal>
    ensures { result ≡ foremost (causes (J.journal past.now) change.now (inv_of tables.now)) }
{
    match change {
        Change::Day { day } => day_refused(tables, *day),
        Change::Policy(change) => policy_refused(tables, change),
        Change::Object(change) => client_refused(tables, change),
        Change::Pool(change) => store_refused(tables, change),
        Change::Backup(change) => {
            arrivals_refused(
                tables,
                change.filespace,
                change.scratch.as_slice(),
                change.items.as_slice(),
            )
        }
        Change::Hold(change) => {
            arrivals_refused(
                tables,
                change.filespace,
                change.scratch.as_slice(),
                change.items.as_slice(),
            )
        }
        Change::Rebind(paths) => {
            rebind_refused(past, tables, paths.filespace, paths.items.as_slice())
        }
        Change::Gone(versions) => {
            gone_refused(past, tables, versions.filespace, versions.items.as_slice())
        }
        Change::Move(moved) => moves_refused(past, tables, moved),
        Change::Copy(copies) => copies_refused(past, tables, copies),
        Change::DropCopies(copies) => {
            drop_refused(past, tables, copies.reason, copies.items.as_slice())
        }
        Change::Expire(versions) => {
            expire_refused(past, tables, versions.filespace, versions.items.as_slice())
        }
        Change::Discard(versions) => {
            discard_refused(past, tables, versions.reason, versions.items.as_slice())
        }
        Change::Reuse { file } => reuse_refused(tables, *file),
        Change::DbBegin { file, after } => begin_refused(tables, *file, *after),
        Change::DbEnd { file } => end_refused(tables, *file),
        Change::DbDelete { file } => delete_refused(tables, *file),
    }
}
