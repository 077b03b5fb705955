//! What is printed: the lines by which commands are answered, and the rows of every query.
#![tactic(auto)]

mod clients;
mod lines;
mod pieces;
mod policy;
mod printed;
mod refusals;
mod rows;
mod shown;
mod stores;

pub use lines::{print_line, print_notice, print_refused};
pub use printed::{print_rows, row_count};
pub use shown::{Notice, Shown};
