//! Device classes, storage pools and volumes: which there are, how they are changed, and how full and how old they are.
#![tactic(auto)]

mod changes;
mod find;
mod fresh;
mod hierarchy;
mod pools;
mod refusals;
mod segments;
mod shares;

pub use pool_tables;
pub use pool_tables::{Pool, volume_rows};
pub use pools::Pools;
