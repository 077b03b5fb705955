//! The vault: a database whose transactions are durable.
//!
//! It keeps two images of the database and a log beside each. A transaction is appended to the log of the newest image; a
//! checkpoint writes the next image and begins its log, at once or in pieces with transactions between them. Wherever the
//! machine stops, what is left recovers to the database with every transaction that was forced, and with none of those that
//! wait for a force or, where the machine stopped in one, with all of them.
#![tactic(auto)]

mod checkpoint;
mod files;
mod format;
pub mod laws;
mod open;
mod record;
mod vault;
mod write;

pub use db_image::Progress;
pub use log_file;
pub use open::is_formatted;
pub use vault::Vault;
