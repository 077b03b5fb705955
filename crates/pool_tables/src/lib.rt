//! Storage pools and volumes in tables by number, each with an index of names, and the volumes with the totals of each pool.
#![tactic(auto)]

mod on_rows;
mod pool;
mod pool_table;
mod scratch;
mod totals;
mod volume_table;

pub use pool::Pool;
pub use pool_table::PoolTable;
pub use scratch::{is_scratch_name, scratch_name};
pub use totals::Totals;
pub use volume_rows;
pub use volume_rows::kinds;
pub use volume_table::VolumeTable;
