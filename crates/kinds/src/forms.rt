//! The bytes of the values that transactions and the inventory hold.

mod codes;
mod fitting;
mod numbers;
mod rules;
mod segments;
mod texts;

pub use fitting::{Fitting, all_fit};
