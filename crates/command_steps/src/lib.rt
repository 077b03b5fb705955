//! What a line of a script does, step by step, whoever makes the steps, and how it is answered.
#![tactic(auto)]

mod answering;
mod behind;
mod doing;
mod jobs;
pub mod laws;
mod lines;
mod looking;
mod outcome;
mod own;
mod reply;
mod text;
mod trees;
mod writing;

pub use answering::answer_line;
pub use client_files;
pub use copy_attempts;
pub use copy_pools;
pub use copy_runs;
pub use db_backup;
pub use deletions;
pub use expiration;
pub use incrementals;
pub use jobs::{answer_in_job, refuse_line};
pub use migration;
pub use outcome::Outcome;
pub use pool_restores;
pub use reclamation;
pub use restores;
pub use reuse_delay;
pub use sessions;
pub use volume_audits;
