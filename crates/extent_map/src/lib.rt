//! The blocks of a random-access volume: which are in use, and the runs of free blocks that stored objects are written to.
#![tactic(auto)]

mod block_set;
mod extents;
mod word;

pub use extents::{Extents, Run};
