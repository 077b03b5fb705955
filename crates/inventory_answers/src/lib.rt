//! What the database answers to queries.
#![tactic(auto)]

mod answers;
mod clients;
mod content;
mod held;
mod lines;
mod look;
mod policy;
mod query;
mod reply;
mod stores;

pub use answers::answer;
pub use clients::path_lines_are_the_paths;
pub use content::segments_are_counted;
pub use inventory_work;
pub use inventory_work::inventory_rows;
pub use lines::{
    BackupLine, ClassLine, ContentLine, DeviceLine, DomainLine, FilespaceLine, GroupLine, HeldLine,
    NodeLine, PoolLine, SetLine, VersionLine, VolumeLine,
};
pub use query::Query;
pub use reply::{Answer, Rows};
