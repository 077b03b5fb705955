// A backup that holds a whole database is read.
ghost use Rattle.std.specs.Prelude.{◌≡◌, IfErr};
ghost use Rattle.store_api.specs.Told.{Told};
ghost use Rattle.log_file.specs.Windows.{Onward};
ghost use Rattle.db_chains.specs.Looks.{whole_of};
ghost use Rattle.db_chains.specs.Reads.{MayRefuseChain, ReadWhole};

use crate::backup::{Found, Kind, look};
use crate::refused::ChainRefused;
use entries::Database;
use std::alloc::Global;
use store_api::Store;

/// The whole database that a backup holds; none where it holds the transactions behind another backup.
fn whole_of<D: Database>(found: Found<D>) -> Option<D>
    ensures { result ≡ whole_of found.kind }
{
    let Found {
        number: _,
        kind,
        payload: _,
    } = found;
    match kind {
        Kind::Whole(database) => Some(database),
        Kind::Since { .. } => None,
    }
}

/// The database that the backup in a file holds, without looking at any other file. The file is made durable before it is read, and nothing that is read changes. Refused with `NotABackup` exactly where
/// the file has no backup, or one that holds the transactions behind another one; with `ReadFault` only where a call on the file failed; with `RunFull` only where the moment is, or came to,
/// 2^62 - 2^24; and for want of memory.
pub fn read_whole<D: Database, S: Store>(
    alloc: Global,
    store: &mut S,
    file: u32,
) -> Result<D, ChainRefused>
    ensures told { Told (S.told store.old) (S.told store.new) (ReadWhole D.meaning file result) }
    ensures refused { IfErr result (MayRefuseChain (S.faults_of store.old) (S.faults_of store.new) (S.moment_of store.new)) }
    ensures onward { Onward (S.moment_of store.old) (S.moment_of store.new) (S.faults_of store.old) (S.faults_of store.new) }
{
    let found = match look::<D, S>(alloc, store, file) {
        Ok(Some(found)) => found,
        Ok(None) => return Err(ChainRefused::NotABackup(file)),
        Err(refused) => return Err(refused),
    };
    match whole_of(found) {
        Some(database) => Ok(database),
        None => Err(ChainRefused::NotABackup(file)),
    }
}
