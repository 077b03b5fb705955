//! The index of free space as it is kept beside a database: it follows the transactions and what is held beside the copies, and is made anew
//! where it was lost.
#![tactic(auto)]

mod following;
mod kept;
mod volumes;

pub use kept::{KeptIndex, named_by};
