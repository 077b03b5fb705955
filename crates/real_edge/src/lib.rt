//! The ends of the program that lie outside it: the files of a folder of the system, a folder's files as a store, standard input as a
//! source, standard output as a sink. A store in a folder, a source and a sink tell their bytes wherever the files, the reader or the
//! writer under them do; those of the system tell nothing.
#![tactic(auto)]

mod folder;
mod ledger;
mod names;
mod past;
mod pieces;
mod pool;
mod real;
mod store;
mod streams;

pub use real::{RealFiles, above_streams};
pub use store::FolderStore;
pub use streams::{StdSink, StdSource};
