//! Which bytes the objects of the database have, and where those stand on the volumes.
#![tactic(auto)]

mod frames;
pub mod laws;
pub mod transactions;

pub use frames::{Unread, framed, read_copy, read_piece};
pub use store_api;
