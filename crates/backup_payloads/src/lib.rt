//! What a database backup holds, as bytes, both ways.
//!
//! A backup holds the whole database, spelled as in an image of it, or it follows another backup and holds the transactions since. `decode` tells which of them a backup's payload is. An
//! `Increment` is read where its bytes stand, record after record, each with its number; `encode_increment` makes one of transactions, `encode_increment_and` one of transactions and a further one. A whole database is encoded by its own `encode`.
#![tactic(auto)]

mod encode;
mod increment;
mod payload;
mod records;

pub use encode::{encode_increment, encode_increment_and};
pub use increment::Increment;
pub use payload::{Payload, decode};
pub use records::Records;
