//! Where a client's file goes, and what a client's session looks up in the tables. Nothing here takes memory, but for the list of
//! a copy's segments.
#![tactic(auto)]

mod laws;
mod places;
mod reading;
mod rules;
mod versions;

pub use laws::{blocks_hold_frames, files_begin_with_a_block};
pub use places::{place, segments_for};
pub use reading::{can_read, is_readable};
pub use rules::default_rule;
pub use versions::active_version;
