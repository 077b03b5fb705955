//! The bytes of the objects: they all have the same ones.
use crate::fault::Fault;
use kinds::Digest;
use sha2::{Digest as _, Sha256};
use std::alloc::Global;

/// A piece has at most so many bytes.
const PIECE: u64 = 65536;

/// What each object has: so many bytes, all alike.
#[derive(Drop)]
pub struct Text {
    /// The bytes of a whole piece.
    bytes: Vec<u8>,
    pub size: u64,
    /// The SHA-256 of all bytes.
    pub digest: Digest,
}

impl Text {
    /// So many bytes, which are hashed once.
    pub fn new(alloc: Global, size: u64) -> Result<Text, Fault> {
        let bytes = vec![in alloc; 7u8; PIECE as usize]?;
        let mut text = Text {
            bytes,
            size,
            digest: Digest([0; 32]),
        };
        text.digest = text.hashed();
        Ok(text)
    }

    fn hashed(&self) -> Digest {
        let mut hasher = Sha256::new();
        for number in 0..self.pieces() {
            hasher.update(self.piece(number));
        }
        Digest(hasher.finalize())
    }

    /// How many pieces there are.
    pub fn pieces(&self) -> u64 {
        self.size.div_ceil(PIECE)
    }

    /// Where the piece with this number begins.
    pub fn offset(&self, number: u64) -> u64 {
        number.saturating_mul(PIECE)
    }

    /// The piece with this number.
    pub fn piece(&self, number: u64) -> &[u8] {
        let bytes = self.bytes.as_slice();
        let left = self.size.saturating_sub(self.offset(number));
        let count = left.min(bytes.len() as u64) as usize;
        &bytes[..count]
    }

    /// Room for the first piece.
    pub fn room(&self, alloc: Global) -> Result<Vec<u8>, Fault> {
        Ok(self.piece(0).to_vec(alloc)?)
    }
}
