//! The rows of the server's whole database: policy domains, client nodes with their files' versions and the objects that they
//! archived, storage pools with their volumes, database backups, the day, and the numbers that are given next.
#![tactic(auto)]

mod ascending;
mod backup;
mod items;
mod primary;
mod rules;
mod tables;

pub use ascending::are_ascending;
pub use backup::{Backup, Delays};
pub use object_rows;
pub use object_rows::version_groups;
pub use policy_domains;
pub use pool_rows;
pub use pool_rows::{pool_tables, volume_rows};
pub use primary::{is_primary, is_primary_kind};
pub use rules::{domain_of_node, rule_in, rule_of};
pub use tables::Tables;
