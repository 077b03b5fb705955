//! What a database backup gives: the database that it holds, or, for an increment, what its transactions make of the database that the backup gives which it follows. The backups
//! are read from their files, going back from the one that is asked for to the one that holds a whole database; then the transactions are made, going forward.
#![tactic(auto)]

mod back;
mod backup;
mod chain;
pub mod laws;
mod made;
mod refused;
mod whole;

pub use chain::read_chain;
pub use refused::ChainRefused;
pub use whole::read_whole;
