//! Images of the database in the store's files, behind a gate: a server's two images, and database backups.
//!
//! An image is written in pieces while its gate stays shut, and the gate is opened when all of it is on the disk. So
//! wherever the machine stops, a file holds a whole image or none.
#![tactic(auto)]

mod gate;
mod head;
pub mod laws;
mod mark;
mod phase;
mod reader;
mod writer;

pub use gate::shut_gate;
pub use head::Head;
pub use mark::Mark;
pub use phase::{Phase, Progress};
pub use writer::Image;
