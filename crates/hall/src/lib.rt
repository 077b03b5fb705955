//! The hall: what every actor's steps are made on. Here stand what it holds, what is kept of it at every moment, and what its steps make of it, as definitions, and the laws that
//! they keep.
#![tactic(auto)]

mod asked;
mod backups;
mod begin;
mod changes;
mod committing;
mod copying;
mod drawing;
mod frame_calls;
mod hall;
mod images;
pub mod laws;
mod noting;
mod parts;
mod reading;
mod resting;
mod reusing;
mod seat;
mod seated;
mod taking;
mod turn;

pub use hall::{Closed, Hall};
pub use seat::{Hashed, Purpose, Seat};
pub use seated::Seated;
pub use turn::Turn;
