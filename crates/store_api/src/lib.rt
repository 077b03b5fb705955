//! The disk as the server sees it: numbered files, moments, counts of faults, and what a stop may leave.
#![tactic(auto)]

pub mod laws;
mod steps;
mod store;

pub use steps::{read_within, sync_within, write_synced, write_within};
pub use store::{Failed, Stop, Store};
