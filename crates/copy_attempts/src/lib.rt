//! Copies of objects: one object's copy is made by a ticket, for whatever process of the server moves or copies objects.
#![tactic(auto)]

mod attempt;
mod outcome;

pub use attempt::make_copy;
pub use outcome::{Came, stopping};
