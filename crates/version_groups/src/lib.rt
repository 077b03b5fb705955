//! The backup versions of client files, in groups: the group of a path has a management class and the path's versions, the
//! newest first, and each version has the copies of its object, by storage pool.
#![tactic(auto)]

mod copies;
mod group;
mod groups;
mod versions;

pub use copies::{Copies, CopyChange, CopyRow};
pub use group::{Group, GroupChange};
pub use groups::{Filespace, Groups};
pub use kinds;
pub use versions::{Version, Versions};
