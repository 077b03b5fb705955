//! What holds of each answered line of a job of a block, clause by clause, in every history that goes on from the block (specs/Clauses): here stand the laws that lead from a line's steps (`command_steps`) to it.
#![tactic(auto)]

pub mod laws;

pub use line_jobs;
pub use line_results;
pub use line_results::command_steps;
