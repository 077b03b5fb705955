//! The lists of a client's plan, carried out: files are sent in batches, whose tickets are sealed when all are written and then committed together, or one by one where that is refused; paths that are bound anew and versions that are
//! ended are committed so, without tickets.
#![tactic(auto)]

mod batch;
mod committing;
mod listing;
mod lists;
mod rounds;
mod sealing;
mod sending;
mod settling;
mod tickets;

pub use batch::{Batch, send_batch};
pub use committing::commit_lines;
pub use listing::{Listing, SealedLine};
pub use lists::{end_all, rebind_all, send_all};
