//! What a command asks for: the look-ups that have to be answered first, and by their answers the change, the query or the
//! work of its own.
#![tactic(auto)]

mod changes;
mod classes;
mod database;
mod files;
mod found;
mod looks;
mod nodes;
mod orders;
mod policy;
mod pools;
mod volumes;
mod work;

pub use orders::{needs, work_of};
pub use work::Work;
