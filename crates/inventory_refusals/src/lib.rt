//! Why the database refuses a transaction: of all the refusals that hold of it, the one that is answered.
#![tactic(auto)]

mod backups;
mod client;
mod policy;
mod refusal;
mod reuse;
mod rules;
mod store;

pub use backups::{begin_refused, delete_refused, end_refused};
pub use client::client_refused;
pub use policy::policy_refused;
pub use refusal::refusal_of;
pub use reuse::reuse_refused;
pub use store::store_refused;
