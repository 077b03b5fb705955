//! The server's backups of its own database: a whole one, one that follows the newest, and taking old ones off the list.
#![tactic(auto)]

mod backups;
mod deletion;
pub mod laws;
mod listing;
mod taking;

pub use backups::{backup_db, backup_db_since};
pub use deletion::delete_history;
pub use taking::Taken;
