//! Why the database refuses a transaction on versions and copies, item by item, and what such transactions share with others: the numbers
//! that are drawn, and what the journal tells of versions and copies that are not as they were named.
#![tactic(auto)]

mod apart;
mod arrivals;
mod causes;
mod copies;
mod discards;
mod drops;
mod numbers;
mod past;
mod retained;
mod room;
mod scratch;
mod versions;

pub use arrivals::{Arrival, new_refused, objects_refused};
pub use copies::{copy_list_refused, move_refused};
pub use discards::discard_refused;
pub use drops::drop_refused;
pub use inventory_rules;
pub use numbers::{file_bound, file_refusal, full_at};
pub use past::{NoPast, Past};
pub use scratch::scratch_refused;
pub use versions::{expire_refused, gone_refused, rebind_refused};
