//! Where space is free on volumes, kept beside the rows and the tickets, so that an object's place is found without a walk over them.
#![tactic(auto)]

mod bag;
mod blocks;
mod by_pool;
mod choosing;
mod held;
mod index;
mod laws;
mod lists;
mod lost;
mod near;
mod random;
mod rooms;
mod sequential;
mod standing;
mod tails;
mod updates;

pub use bag::Bag;
pub use blocks::Blocks;
pub use by_pool::{Home, Listing};
pub use choosing::choose;
pub use held::Held;
pub use index::Index;
pub use laws::{index_stays, rows_change_at};
pub use lists::Lists;
pub use lost::Lost;
pub use random::RandomIndex;
pub use rooms::Rooms;
pub use standing::Standing;
pub use tails::Tails;
