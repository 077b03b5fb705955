//! Expiration: the objects that are not retained go.
#![tactic(auto)]

mod lines;
mod process;

pub use process::expire;
