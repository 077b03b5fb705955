//! Restores from copy pools: what a volume held that is lost is copied into its pool again, from other copies of the objects.
#![tactic(auto)]

mod asking;
mod listing;
mod pool;
mod volume;

pub use pool::restore_pool;
pub use volume::restore_volume;
