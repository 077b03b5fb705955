//! A database is restored from a backup: its copies are looked for on the volumes, and what is left of it is put in the place of the database that was there.
#![tactic(auto)]

mod chained;
mod done;
pub mod laws;
mod looking;
mod missing;
mod refused;
mod restoring;
mod volumes;
mod whole;

pub use chained::restore_from;
pub use done::RestoreDone;
pub use refused::{NotRestored, RestoreRefused};
pub use restoring::restore_inventory;
pub use whole::restore_db;
