//! What is done on a hall: the steps of one actor that has it alone, steps as values, and turns of actors with stops of the machine between them.
#![tactic(auto)]

mod alone;
mod direct;
pub mod laws;
mod played;
mod stepping;

pub use alone::{backup_pool_alone, expire_alone};
pub use direct::{Direct, counted, without_number};
pub use played::{Played, play};
pub use stepping::{image, step};
