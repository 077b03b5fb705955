//! The recovery log: records that are appended so that no stop of the machine takes one away or leaves half of one, and
//! a cursor that reads them again.
#![tactic(auto)]

mod batch;
mod cursor;
mod found;
mod frame;
pub mod laws;
mod put;
mod reads;
mod window;
mod writer;

pub use batch::Batch;
pub use cursor::Records;
pub use found::Record;
pub use frame::Framed;
pub use reads::{file_len, read_piece, settle};
pub use writer::Log;
