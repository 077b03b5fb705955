//! Volumes of storage pools: their rows, the segments that lie on them, and what these make of a volume's status, its
//! reclamation and its reuse.
#![tactic(auto)]

mod held;
mod holdings;
mod rested;
mod status;
mod volume;

pub use held::HeldSegment;
pub use holdings::Holdings;
pub use kinds;
pub use status::Status;
pub use volume::Volume;
