//! What the system gives the server, in memory: the files of a folder, names over stores in memory, and the standard streams. They tell
//! what they have, and can be told to fail, to move few bytes a call, and the files to be stopped.
#![tactic(auto)]

mod entries;
mod list;
mod mem;
mod moves;
mod streams;

pub use mem::{MemFiles, MemHandle};
pub use streams::{MemReader, MemWriter};
