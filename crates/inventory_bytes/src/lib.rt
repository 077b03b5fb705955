//! The bytes of the whole database: how each row is spelled, the bytes of all rows both ways, and that a valid database has bytes, and how many
//! at most. Each form is a definition in specs/, and each codec here writes and reads by it.
#![tactic(auto)]

mod client_codecs;
mod client_fits;
mod held_rows;
mod numbers;
mod parts;
mod payload;
mod policy_codecs;
mod policy_fits;
mod row_fits;
mod segments;
pub mod size;
mod store_codecs;
mod store_fits;
mod table_fits;
mod version_codecs;
mod version_fits;
mod volume_codecs;
mod volume_rows_read;

pub use payload::{decode, encode};
pub use table_fits::tables_fit;
