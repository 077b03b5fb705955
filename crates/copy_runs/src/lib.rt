//! Copies of many objects: for a list of wanted copies each is made by a ticket of its own, one after the other, and what came of them is counted. It is what
//! all processes share that move or copy objects, with the beginning and the end of such a process.
#![tactic(auto)]

mod ends;
mod run;
mod wanted;

pub use ends::{ask_pools, copy_and_finish, finish, unlisted};
pub use run::copy_all;
pub use wanted::{Moved, Wanted};
