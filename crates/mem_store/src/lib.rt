//! A store in memory, which keeps a list of its calls, can be told to fail, and can be stopped at any moment.
#![tactic(auto)]

mod device;
mod entry;
mod files;
mod mem;
mod stops;

pub use mem::MemStore;
