//! The inventory: the server's whole database as one value, which is valid. Whatever changes it is a transaction: `legal` says whether it may
//! be made, and `apply` makes it. `encode` gives its bytes, `decode` reads them, and `answer` answers queries.
#![tactic(auto)]

mod bounds;
mod inventory;
pub mod laws;
mod legal;
mod made;

pub use inventory::Inventory;
