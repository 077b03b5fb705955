//! What single commands of a client's or an administrator's session do, step by step, whoever makes the steps: a change, a query, whether a policy set may be
//! activated, a checkpoint, a file that is stored, and one that is read.
#![tactic(auto)]

mod asking;
mod changing;
mod checkpoints;
mod filespaces;
mod getting;
mod homes;
pub mod laws;
mod putting;
mod sending;
mod validating;
mod waiting;

pub use changing::{commit_change, join, show};
pub use checkpoints::checkpoint;
pub use getting::{FileRead, read_file};
pub use homes::Home;
pub use putting::put_file;
pub use sending::Sealed;
pub use validating::validate;
