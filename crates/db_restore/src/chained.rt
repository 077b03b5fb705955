// The database that a backup gives is restored.
ghost use Rattle.std.specs.Prelude.{◌≡◌, ◌≤◌, ◌^◌, max, IfErr};
ghost use Rattle.store_api.specs.Cause.{NoneFell};
ghost use Rattle.store_api.specs.Told.{Told};
ghost use Rattle.db_chains.specs.Looks.{is_backup_file};
ghost use Rattle.db_restore.specs.Chained.{MayNotRestore, RestoresFrom};

use crate::done::RestoreDone;
use crate::refused::NotRestored;
use crate::restoring::restore_inventory;
use db_chains::{ChainRefused, read_chain};
use inventory::Inventory;
use kinds::Day;
use std::alloc::Global;
use store_api::Store;

/// The first file that may be a backup's.
const FIRST: u32 = 4;

/// The last one.
const LAST: u32 = u32::MAX - 2;

/// Whether the file may be a backup's.
pub(crate) fn is_possible(file: u32) -> bool
    ensures { result ≡ is_backup_file file }
{
    FIRST <= file && file <= LAST
}

/// Restores the database that the backup in a file gives, the one that it holds or what it and the backups behind which it stands make, as `restore_inventory` says. Refused with `Chain` where the file
/// gives none, as `read_chain` says, and with `Database` where that wasn't restored.
#[tactic(auto, using(crate::proofs::Reaching::from_none, crate::proofs::Reaching::from_broken, crate::proofs::Reaching::from_restored, crate::proofs::Reaching::from_unrestored))]
pub fn restore_from<S: Store>(
    alloc: Global,
    store: &mut S,
    file: u32,
    day: Day,
    skipped: &[u32],
) -> Result<RestoreDone, NotRestored>
    ensures told { Told (S.told store.old) (S.told store.new) (RestoresFrom file day skipped.now result) }
    ensures refused { IfErr result (MayNotRestore day (S.faults_of store.old) (S.faults_of store.new) (S.moment_of store.new)) }
    ensures time { S.moment_of store.new ≤ max (S.moment_of store.old) (2 ^ 62) }
    ensures later { S.moment_of store.old ≤ S.moment_of store.new }
    ensures counts { NoneFell (S.faults_of store.old) (S.faults_of store.new) }
{
    if !is_possible(file) {
        return Err(NotRestored::Chain(ChainRefused::NotABackup(file)));
    }
    let backup = match read_chain::<Inventory, S>(alloc, store, file) {
        Ok(backup) => backup,
        Err(refused) => return Err(NotRestored::Chain(refused)),
    };
    match restore_inventory(alloc, store, backup, file, day, skipped) {
        Ok(done) => Ok(done),
        Err(refused) => Err(NotRestored::Database(refused)),
    }
}
