//! Whether the server's database would hold too much after a transaction. It is decided before the transaction is made, and takes no
//! memory.
#![tactic(auto)]

mod added;
mod delays;
mod gone;
mod room;
mod sizes;

pub use sizes::{count_items, has_item_room, items_after};
