//! What the server's own processes ask of the database.
#![tactic(auto)]

mod copies;
mod expiring;
mod lines;
mod listed;
mod order;
mod rules;
mod search;
mod volume_copies;
mod volumes;

pub use copies::{missing, on_pool};
pub use copy_groups;
pub use expiring::unretained;
pub use inventory_rows;
pub use lines::{ClassRule, CopyLine, MissingLine, Rules, UnretainedLine};
pub use listed::Listed;
pub use rules::rules_of;
pub use search::{Found, Named, filespace_asked, find_named};
pub use volume_copies::on_volume;
pub use volumes::{eligible, emptied};
