//! The files of a client: a tree that lists, reads and writes them, with its count of faults, and one in memory.
#![tactic(auto)]

mod files;
mod memory;
mod tree;

pub use files::MemFile;
pub use memory::MemTree;
pub use tree::{FileRow, ListRefused, Tree};
