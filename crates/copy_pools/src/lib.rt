//! Copy pools: further copies of what primary pools hold.
#![tactic(auto)]

mod backup;

pub use backup::{backup_pool, kind_of};
