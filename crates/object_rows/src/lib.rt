//! The client nodes, their filespaces, the backup versions in them, and the objects that clients archived into them. A version is found
//! by its object's number, or by its filespace and path, a held object by its number.
#![tactic(auto)]

mod build;
mod counted;
mod filespaces;
mod held;
mod held_object;
mod held_rows;
mod indexed;
mod items;
mod nodes;
mod objects;
mod place;
mod pool_counts;
mod refusals;
mod space_names;
mod spaces;
mod tally;

pub use held_object::{HeldObject, HeldRow};
pub use held_rows::HeldRows;
pub use items::{left_by, left_by_many};
pub use objects::Objects;
pub use place::Node;
pub use version_groups;
