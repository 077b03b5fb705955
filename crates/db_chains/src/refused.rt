// Why a chain of database backups gives no database.

/// Why a chain of database backups gives no database.
#[derive(Clone, Copy, Debug, PartialEq, Eq)]
pub enum ChainRefused {
    /// Calls on this file failed.
    ReadFault(u32),
    /// This file has no backup, or its backup doesn't follow another as it should, or holds a record that is no transaction which may be made there.
    NotABackup(u32),
    /// The store has made almost as many device calls as its clock can count.
    RunFull,
    /// Want of memory.
    Memory,
}
