//! What the transactions of a run tell: which of them last removed an object, changed it, changed its copy in a pool, or emptied a path. A database asks it when it names why a transaction
//! is refused.
#![tactic(auto)]

mod emptied;
pub mod laws;
mod ledger;
mod past;
mod prepared;
mod rooms;
mod telling;

pub use past::RunPast;
pub use prepared::Prepared;
