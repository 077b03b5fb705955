// The bytes of a record, made before any device call.
ghost use Rattle.std.specs.Prelude.{◌≡◌, ◌⊎◌, ◌<◌, ◌≤◌, ◌^◌, ◌+◌, ◌++◌, ◌∷◌, [], length, IfOk, IfErr, Err};
ghost use Rattle.kinds.specs.declared.refusal.Refusal.TheVariants.{RecordFull, Memory as NoMemory};
ghost use Rattle.log_file.specs.Blocks.{Fits, block};

use fields::{Memory, put_u8, put_u32};
use kinds::Refusal;
use std::alloc::Global;
use std::marker::Model;

/// The most bytes that a record may have.
pub(crate) const MOST: u32 = 1 << 24;

/// The bytes of one record and of the next gate, closed. A contract sees the record's own bytes.
#[derive(Drop)]
pub struct Framed {
    pub(crate) bytes: Vec<u8>,
}

impl Model for Framed {
    ghost use Rattle.std.specs.Prelude.{List, ℕ};
    ghost use Rattle.log_file.specs.Frames.{payload_of, IsFrame};

    ghost Value = { List ℕ };

    ghost view = { λ framed. payload_of framed.bytes.items };

    ghost invariant = { λ framed. IsFrame framed.bytes.items };
}

impl Framed {
    /// The bytes: the record with its gate open, and the next gate, closed.
    pub(crate) fn bytes(&self) -> &[u8]
        ensures bytes { result.now ≡ block self.now ++ 0 ∷ [] }
        ensures len { length result.now ≡ 6 + length self.now }
        ensures fits { Fits self.now }
    {
        &self.bytes
    }

    /// How many bytes the record takes in the log, its gate and its length included.
    pub fn len(&self) -> u64
        ensures { result ≡ 5 + length self.now }
    {
        self.bytes().len() as u64 - 1
    }
}

/// The bytes of a record with its gate open, and the next gate, closed.
#[tactic(auto, unfolding(crate::specs::Blocks::block))]
fn framed_bytes(alloc: Global, payload: &[u8]) -> Result<Vec<u8>, Memory>
    requires { length payload.now ≤ 2 ^ 24 }
    ensures { IfOk result (λ bytes. bytes.items ≡ block payload.now ++ 0 ∷ []) }
{
    let mut bytes = Vec::with_capacity(alloc, payload.len() + 6)?;
    put_u8(&mut bytes, 1)?;
    put_u32(&mut bytes, payload.len() as u32)?;
    bytes.extend_from_slice(payload)?;
    put_u8(&mut bytes, 0)?;
    Ok(bytes)
}

/// The frame of a record: refused with 30 exactly above 2^24 bytes, and else only for want of memory.
pub(crate) fn make_frame(alloc: Global, payload: &[u8]) -> Result<Framed, Refusal>
    ensures framed { IfOk result (λ framed. framed ≡ payload.now) }
    ensures fits { IfOk result (λ _. length payload.now ≤ 2 ^ 24) }
    ensures full { 2 ^ 24 < length payload.now → result ≡ Err RecordFull }
    ensures refused { IfErr result (λ refusal. (refusal ≡ NoMemory) ⊎ ((refusal ≡ RecordFull) × (2 ^ 24 < length payload.now))) }
{
    if payload.len() > MOST as usize {
        return Err(Refusal::RecordFull);
    }
    match framed_bytes(alloc, payload) {
        Ok(bytes) => Ok(Framed { bytes }),
        Err(_) => Err(Refusal::Memory),
    }
}
