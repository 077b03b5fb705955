//! The rules of the server's database: when it is valid, why a transaction is refused, what a transaction makes of it, and
//! what it keeps for its clients. They are definitions in specs/; here stand the laws that they keep, and
//! the tests of a volume that several crates make.
#![tactic(auto)]

pub mod laws;
mod volumes;

pub use copy_groups;
pub use entries;
pub use entries::change_items;
pub use inventory_rows;
pub use volumes::{is_format_size, may_have};
