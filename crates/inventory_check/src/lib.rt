//! Whether the rows of a database agree with one another, as those of a server's database do.
#![tactic(auto)]

mod backups;
mod classes;
mod clients;
mod counts;
mod days;
mod names;
mod numbers;
mod policy;
mod stores;
mod valid;
mod versions;
mod volumes;

pub use valid::is_valid;
