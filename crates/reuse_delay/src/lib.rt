//! The reuse delay: sequential volumes that were emptied are written from their start again, once they have rested for the days that their pool asks.
#![tactic(auto)]

mod process;
mod tried;

pub use process::reuse_ready;
