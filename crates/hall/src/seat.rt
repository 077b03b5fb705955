//! Tickets as the hall holds them.

use kinds::Digest;
use sha2::Sha256;
use space::{Aim, Places};

/// What a ticket is for.
#[derive(Clone, Copy, Debug, PartialEq, Eq)]
pub enum Purpose {
    /// A new object, which has this number.
    Storing { object: u64 },
    /// A copy of this object.
    Copying { object: u64, aim: Aim },
}

/// The SHA-256 of a ticket's bytes.
#[derive(Drop)]
pub enum Hashed {
    /// Of a new object's, as far as they were taken.
    Taking(Sha256),
    /// Of all of a new object's, once its ticket is sealed.
    Done(Digest),
    /// Of a copy's none is made.
    Unhashed,
}

/// A ticket as it is held: not its bytes, but how many it took, and their digest. Its number is the key under which it stands.
#[derive(Drop)]
pub struct Seat {
    /// The number of the actor whose ticket it is.
    pub actor: u32,
    /// What it is for.
    pub purpose: Purpose,
    /// How many bytes it is for.
    pub size: u64,
    /// The storage pool that it is placed in.
    pub pool: u32,
    /// Where its bytes go, in their order.
    pub places: Places,
    /// How many bytes it took.
    pub count: u64,
    /// The digest of these.
    pub hashed: Hashed,
    /// It takes no more, and what it took is durable.
    pub is_sealed: bool,
    /// All that it is for was taken, and is durable: a new object's is sealed without a device call.
    pub is_firm: bool,
}
