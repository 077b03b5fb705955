// The database that a backup holds whole is restored.
ghost use Rattle.std.specs.Prelude.{◌≡◌, ◌≤◌, ◌^◌, max, IfErr};
ghost use Rattle.store_api.specs.Cause.{NoneFell};
ghost use Rattle.store_api.specs.Told.{Told};
ghost use Rattle.db_restore.specs.Whole.{MayRefuseWhole, RestoresWhole, unread};

use crate::chained::is_possible;
use crate::done::RestoreDone;
use crate::refused::RestoreRefused;
use crate::restoring::restore_inventory;
use db_chains::{ChainRefused, read_whole};
use inventory::Inventory;
use kinds::Day;
use std::alloc::Global;
use store_api::Store;

/// What a refusal to read a backup is of a restore.
fn unread(refused: ChainRefused) -> RestoreRefused
    ensures { result ≡ unread refused }
{
    match refused {
        ChainRefused::ReadFault(file) => RestoreRefused::ReadFault(file),
        ChainRefused::NotABackup(_) => RestoreRefused::NotABackup,
        ChainRefused::RunFull => RestoreRefused::RunFull,
        ChainRefused::Memory => RestoreRefused::Memory,
    }
}

/// Restores the database that the backup in a file holds, as `restore_inventory` says. Refused with `NotABackup` exactly where the file has no backup, or one that holds the transactions behind another one,
/// which `restore_from` restores; the file is made durable before it is read.
#[tactic(auto, using(crate::proofs::Wholes::whole_none, crate::proofs::Wholes::whole_unread, crate::proofs::Wholes::unread_may, crate::proofs::Wholes::whole_restored, crate::proofs::Wholes::whole_unrestored))]
pub fn restore_db<S: Store>(
    alloc: Global,
    store: &mut S,
    file: u32,
    day: Day,
    skipped: &[u32],
) -> Result<RestoreDone, RestoreRefused>
    ensures told { Told (S.told store.old) (S.told store.new) (RestoresWhole file day skipped.now result) }
    ensures refused { IfErr result (MayRefuseWhole day (S.faults_of store.old) (S.faults_of store.new) (S.moment_of store.new)) }
    ensures time { S.moment_of store.new ≤ max (S.moment_of store.old) (2 ^ 62) }
    ensures later { S.moment_of store.old ≤ S.moment_of store.new }
    ensures counts { NoneFell (S.faults_of store.old) (S.faults_of store.new) }
{
    if !is_possible(file) {
        return Err(RestoreRefused::NotABackup);
    }
    let backup = match read_whole::<Inventory, S>(alloc, store, file) {
        Ok(backup) => backup,
        Err(refused) => return Err(unread(refused)),
    };
    match restore_inventory(alloc, store, backup, file, day, skipped) {
        Ok(done) => Ok(done),
        Err(refused) => Err(refused),
    }
}
