//! The words behind the program's name: what they ask.
#![tactic(auto)]

mod numbers;
mod program;
mod words;

pub use numbers::Wanted;
pub use words::{Asked, read_words};
