//! The shape of a block of jobs: which lines of a script its jobs have, which of them are too many, and which name a client's tree that an earlier job has.
//!
//! A line that `begins_block` begins a block; each line behind it is taken by its `Block`, up to one that ends it, or to the script's end. The definitions stand in specs/: what a line is to a block
//! (Parts), what its lines come to (Shapes), and which trees are in use (Trees). Nothing is done here: what a line asks for is done by whoever runs the jobs.
#![tactic(auto)]

mod block;
pub mod laws;
mod part;
mod trees;

pub use block::{Block, Fate, Line};
pub use part::{Part, begins_block};
pub use trees::{first_job, in_use};
