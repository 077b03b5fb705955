//! Migration: copies of a primary pool are moved to the pools behind it, while more of it is used than its low mark.
#![tactic(auto)]

pub mod laws;
mod left;
mod marks;
mod process;
mod sweep;
mod turns;

pub use process::{migrate, migrate_all};
