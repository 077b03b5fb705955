//! The frames in which stored objects lie on volumes.
//!
//! A copy of an object is cut into segments. On its volume each segment stands in a frame: a header of 32 bytes, which
//! names the object, the segment's number within the copy and the length of its data, and behind it the data. So a
//! volume tells of itself what lies on it, and a read finds out whether it has what the inventory says. A header has one
//! of two forms, which its mark tells: the second is written, and both are read.
#![tactic(auto)]

mod frame;
pub mod laws;

pub use frame::{HEADER_LEN, data_place, frame_header, is_framed_at, read_header};
