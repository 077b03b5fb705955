//! Deletions: a filespace goes with the objects that are kept in it, and a volume, if that is asked, with what lies on it.
#![tactic(auto)]

mod copies;
mod filespace;
mod lists;
mod objects;
mod row;
mod volume;

pub use copies::Removed;
pub use filespace::delete_filespace;
pub use volume::delete_volume;
