//! The restore of a client's files: which of a filespace's versions are asked, and each of them back into the client's tree, whoever makes the steps.
#![tactic(auto)]

mod choosing;
mod giving;
pub mod laws;
mod process;

pub use choosing::{RestoreLine, Which, choose};
pub use process::{Restored, restore};
