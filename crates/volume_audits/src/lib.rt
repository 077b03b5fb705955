//! The audit of a volume: each copy on it is read, and compared with what was stored; damaged ones go, if that is asked.
#![tactic(auto)]

mod audit;
pub mod laws;
mod looking;
mod mending;

pub use audit::{Audit, Damaged, audit_volume};
