//! What is left of a database on a day where copies of its objects were lost, as after it was restored from a backup: the copies that aren't lost, the objects that have one, and the volumes without
//! what is lost; no database backup is listed.
#![tactic(auto)]

mod count;
mod gone;
pub mod laws;
mod left;
mod losses;
mod lost;
mod restored;

pub use count::count_copies;
pub use losses::Losses;
pub use lost::{Lost, LostObjects, list_lost};
pub use restored::restore;
