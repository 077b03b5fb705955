//! The steps that sessions and processes make on the server: what is asked in each and what is answered, and the trait of whoever makes them.
//!
//! What an actor did is a list of events, each a step with its reply and the number of the last transaction before it (specs/Events). A `Stepper` says of
//! each call only that this step was made and answered so. What replies mean is said elsewhere, once for all that make steps.
#![tactic(auto)]

mod asked;
mod image;
mod step;
mod stepper;

pub use asked::{Asked, HeldItem, Item};
pub use entries;
pub use image::{ImageKind, ImageReply};
pub use inventory_answers;
pub use inventory_answers::inventory_rows;
pub use space;
pub use step::{Reply, Step};
pub use stepper::Stepper;
