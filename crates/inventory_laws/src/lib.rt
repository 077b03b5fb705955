//! What follows from the rules of the server's database, as laws on functions that do nothing: validity is made of separate facts; what each
//! step of a transaction does to them; so a legal transaction leaves a valid database, and can be made; and how many items it brings.
#![tactic(auto)]

pub mod by_kind;
pub mod counting;
pub mod leaving;
pub mod making;
pub mod provenance;
pub mod store_changes;
pub mod validity;
pub mod version_steps;
pub mod volume_ends;
pub mod volume_steps;

pub use inventory_rules;
pub use inventory_rules::{entries, inventory_rows};
