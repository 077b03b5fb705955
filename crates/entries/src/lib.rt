//! Transactions, and their bytes both ways.
//!
//! A transaction is an `Entry`: who makes it, and one change of the server's database. `Entry::encode` gives its one
//! spelling, and `Entry::decode` the entry whose spelling some bytes are, or that they are no entry's. The types carry the
//! grammar: each entry that exists has a spelling. `Entry::decode_one` reads the form in which entries were written before.
#![tactic(auto)]

mod change;
mod database;
mod entry;
mod nodes;
mod policy;
mod pools;

pub use change::Change;
pub use change_items;
pub use database::Database;
pub use entry::{Entry, MOST_BYTES};
