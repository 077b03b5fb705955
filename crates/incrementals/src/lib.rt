//! The incremental backup of a filespace: what is asked, listed and planned, the plan carried out, and what is answered.
#![tactic(auto)]

mod answering;
mod asking;
mod filespaces;
pub mod laws;
mod planning;
mod process;

pub use answering::{Failure, Outs, Pathed, Sent};
pub use asking::{Basis, Ruled};
pub use planning::Begun;
pub use process::incremental;
