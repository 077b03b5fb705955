//! The server's top call: a script of commands in, reply lines and an exit status out, over any store.
#![tactic(auto)]

mod block;
pub mod laws;
mod note;
mod recover;
mod script;
mod server;
mod session;
mod top;

pub use note::Note;
pub use session::Session;
pub use top::{Ended, USAGE, serve};
