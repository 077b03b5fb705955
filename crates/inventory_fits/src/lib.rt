//! Whether what a transaction brings fits where it comes: segments on their volumes, copies beside others, new objects, scratch volumes and
//! volumes that are defined; and whether what it takes away is of no use.
#![tactic(auto)]

mod frames;
mod items;
mod neighbours;
mod overlaps;
mod placing;
mod pools;
mod targets;
mod transaction;

pub use transaction::parts_fit;
