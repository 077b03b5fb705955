//! Reclamation: what lies on a volume is moved to other volumes, for one volume that is named, or for those of a pool that are mostly unused.
#![tactic(auto)]

mod asking;
mod moving;
mod reclaiming;
mod target;
mod tried;

pub use moving::move_data;
pub use reclaiming::reclaim;
