//! A folder of the system as a client's tree: its files are listed, read, written and removed, no link is followed, and what stood at a path stays until the new file is whole.
#![tactic(auto)]

mod found;
mod opened;
mod places;
mod times;
mod tree;
mod walk;
mod writing;

pub use tree::FolderTree;
