//! What a line of a script comes to where one actor has the machine alone, as a relation on databases that knows no step and no ticket (specs/Lines), and that it does: here stand the laws that
//! lead from a line's steps (`command_steps`) to it.
#![tactic(auto)]

pub mod laws;

pub use command_steps;
pub use command_steps::{
    client_files, copy_attempts, copy_pools, copy_runs, db_backup, deletions, expiration,
    incrementals, migration, pool_restores, reclamation, restores, reuse_delay, sessions,
    volume_audits,
};
pub use inventory_laws;
