//! What a transaction makes of the database.
#![tactic(auto)]

mod arrivals;
mod backups;
mod copies;
mod moves;
mod new_copies;
mod puts;
mod rebinds;
mod rows;
mod segments;
mod transaction;
mod undo;
mod versions;

pub use transaction::apply;
