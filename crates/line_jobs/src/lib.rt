//! The jobs of a block as whoever runs a block wants them: lists of lines, which are answered one after the other, each by the steps of the job's actor and by what these do on the tree that the line names; and all of
//! them run, over the clients' trees, which are shared out among them and come back.
//!
//! A `LineJob` has places for all of the clients' trees; those that other jobs have are lent out, and no line of the job can have them. What is said of its lines is kept, and printed by whoever made the job.
//! `run_lines` runs a block. The definitions stand in specs/: what a job does (Jobs), what is known of a tree that is lent out (Lents), how trees are shared out and what comes of each job (Shares), and what came of
//! a block on a hall (Ran).
#![tactic(auto)]

mod job;
mod lent;
mod printing;
mod run;
mod sharing;

pub use job::{LineJob, Said};
pub use lent::Lent;
pub use printing::print_said;
pub use run::{Ran, run_lines};
