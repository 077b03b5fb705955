//! The administrative command language: every line to a command, or to the refusal at its first offending word. The
//! commands stand in one table, which the definition of the language reads too.
#![tactic(auto)]

pub mod command;
pub mod database;
pub mod files;
mod line;
pub mod nodes;
pub mod policy;
pub mod pools;
pub mod table;
pub mod volumes;
pub mod words;

pub use command::Command;
pub use line::read_line;
