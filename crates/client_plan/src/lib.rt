//! What an incremental backup is to do with each path of a filespace: which files are sent, which versions are bound to another
//! class, which are no longer active, which files fail, and which paths are left as they are.
#![tactic(auto)]

mod classes;
mod deciding;
mod laws;
mod lines;
mod planning;
mod plans;

pub use classes::ActiveClasses;
pub use laws::active_versions_ascend;
pub use lines::{GoneLine, RebindLine, SendLine};
pub use planning::plan;
pub use plans::Plan;
