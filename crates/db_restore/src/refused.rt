// Why no database was restored.

use db_chains::ChainRefused;

/// Why no database was restored.
#[derive(Clone, Copy, Debug, PartialEq, Eq)]
pub enum RestoreRefused {
    /// Calls on this file failed.
    ReadFault(u32),
    /// The file has no backup that holds a whole database.
    NotABackup,
    /// The backup's day, and the earlier one on which it was to be restored.
    DayBack(u32, u32),
    /// The store has made almost as many device calls as its clock can count.
    RunFull,
    /// Want of memory.
    Memory,
}

/// Why the database that a backup gives wasn't restored.
#[derive(Clone, Copy, Debug, PartialEq, Eq)]
pub enum NotRestored {
    /// The backup's chain gives no database, for this.
    Chain(ChainRefused),
    /// It gives one, which wasn't restored for this.
    Database(RestoreRefused),
}
