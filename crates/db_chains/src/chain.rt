// A chain of database backups is read.
ghost use Rattle.std.specs.Prelude.{◌≡◌, IfErr};
ghost use Rattle.store_api.specs.Told.{Told};
ghost use Rattle.log_file.specs.Windows.{Onward};
ghost use Rattle.db_chains.specs.Reads.{MayRefuseChain, ReadChain};
ghost use Rattle.db_chains.specs.Walks.{GoesForward};

use crate::back::{Link, go_back};
use crate::made::make_increment;
use crate::refused::ChainRefused;
use entries::Database;
use std::alloc::Global;
use store_api::Store;

/// Makes the transactions of the links, the last first. Refused with `NotABackup` and the first file that holds a record which is no transaction that may be made there.
fn go_forward<D: Database>(
    alloc: Global,
    mut database: D,
    mut links: Vec<Link>,
) -> Result<D, ChainRefused>
    ensures { GoesForward D.meaning links.items database result }
{
    'links: while let Some(link) = links.pop() {
        match make_increment(alloc, &mut database, &link.payload) {
            Ok(true) => {}
            Ok(false) => return Err(ChainRefused::NotABackup(link.file)),
            Err(_) => return Err(ChainRefused::Memory),
        }
    }
    Ok(database)
}

/// The database that the backup in a file gives: the one that it holds; or, where it follows another backup, what its transactions make of the database that this other gives. Each file is made
/// durable before it is read, and nothing that is read changes. Refused with `NotABackup` and a file: going back from the one that is asked for, the first that isn't an open image of a backup, that follows one
/// in a file of no smaller number, or one that has another number than it says; where there is none, going forward from the oldest, the first that holds a record which is no transaction that
/// may be made there. Refused with `ReadFault` only where a call on that file failed; with `RunFull` only where the moment is, or came to, 2^62 - 2^24; and for want of memory.
pub fn read_chain<D: Database, S: Store>(
    alloc: Global,
    store: &mut S,
    file: u32,
) -> Result<D, ChainRefused>
    ensures told { Told (S.told store.old) (S.told store.new) (ReadChain D.meaning file result) }
    ensures refused { IfErr result (MayRefuseChain (S.faults_of store.old) (S.faults_of store.new) (S.moment_of store.new)) }
    ensures onward { Onward (S.moment_of store.old) (S.moment_of store.new) (S.faults_of store.old) (S.faults_of store.new) }
{
    let mut links = Vec::new(alloc);
    let database = match go_back::<D, S>(alloc, store, file, &mut links) {
        Ok(database) => database,
        Err(refused) => return Err(refused),
    };
    go_forward(alloc, database, links)
}
