//! Whether copies of objects stand on the volumes as a database says: their frames are read, and the bytes compared with the digest.
#![tactic(auto)]

mod copies;
pub mod laws;
mod pieces;

pub use copies::is_there;
