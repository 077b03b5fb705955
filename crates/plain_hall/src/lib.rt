//! The machine on which steps are made, a second time, by the rules of specs/Machine as plain code: one inventory, and plain lists of all else, without files. Programs hold what makes steps
//! against it, or make steps on it: `ListMachine` makes the steps of an actor on it, alone or with others' transactions between them. It is proved to be safe, what its journal tells, and of
//! `ListMachine` that it is a `Stepper`.
#![tactic(auto)]

mod committing;
mod images;
mod list_hall;
mod list_machine;
mod opening;
mod pieces;
mod told;
mod trace;

pub use list_hall::{Hall, Picture, Purpose, Ticket, digest_of};
pub use list_machine::{Between, ListMachine, Nobody, Others};
pub use told::Told;
pub use trace::{Kind, Mark, Trace};
