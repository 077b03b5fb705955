//! What is put for what came of restoring a database, and the exit status.
#![tactic(auto)]

mod telling;

pub use telling::{lines_of, status_of};
