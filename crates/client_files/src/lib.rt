//! A client's file goes into a ticket, and a stored object comes back as a client's file: piece by piece, for whoever makes the steps and whatever the tree.
#![tactic(auto)]

pub mod laws;
mod outcome;
mod reading;
mod restoring;
mod sending;

pub use outcome::{Came, Gave, stopping};
pub use restoring::{Stored, restore_file};
pub use sending::{send_file, write_file};
