//! Jobs of a block, run on threads of their own over one locked hall.
//!
//! `run_block` gives each job an actor's `Pass`, which makes each step behind the hall's one lock. What was done stands in no list: it is known to tokens without bytes (specs/Knowing), the keeper's
//! behind the lock, which knows the steps of all, and each actor's, which knows its own. So what each job did are exactly its actor's steps among those that led from the hall of the block's
//! beginning to the one behind it (specs/Blocks), and each step, with all its bytes, is the hall's.
#![tactic(auto)]

mod block;
mod board;
mod job;
mod known;
pub mod laws;
mod orders;
mod pass;

pub use block::{Block, run_block};
pub use job::Job;
pub use pass::{Gate, OpenGate};
