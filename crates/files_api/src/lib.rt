//! The files of one folder as the system gives them, call by call: what each call may do to them, and what a stop of the machine may
//! leave.
#![tactic(auto)]

mod files;

pub use files::{Failed, Files, ListRefused, Stop};
