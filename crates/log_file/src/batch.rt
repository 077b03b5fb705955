// Records that are written together.
ghost use Rattle.std.specs.Prelude.{◌≡◌, ◌+◌, ◌++◌, ◌∷◌, [], length, IfOk, OnOk, OnErr};
ghost use Rattle.log_file.specs.Blocks.{block};

use crate::frame::Framed;
use fields::Memory;
use std::alloc::Global;
use std::marker::Model;

/// Records one behind another, each with its gate open, and the next gate, closed. A contract sees the records with their
/// gates.
#[derive(Drop)]
pub struct Batch {
    bytes: Vec<u8>,
}

impl Model for Batch {
    ghost use Rattle.std.specs.Prelude.{List, ℕ};
    ghost use Rattle.log_file.specs.Frames.{without_last, EndsClosed};

    ghost Value = { List ℕ };

    ghost view = { λ batch. without_last batch.bytes.items };

    ghost invariant = { λ batch. EndsClosed batch.bytes.items };
}

impl Batch {
    /// No records yet.
    pub fn new(alloc: Global) -> Result<Batch, Memory>
        ensures { IfOk result (λ batch. batch ≡ []) }
    {
        let mut bytes = Vec::new(alloc);
        match bytes.push(0) {
            Ok(()) => Ok(Batch { bytes }),
            Err(_) => Err(Memory),
        }
    }

    /// One record more, behind the others. On an error, which is want of memory, nothing changes.
    pub fn add(&mut self, framed: &Framed) -> Result<(), Memory>
        ensures ok { OnOk result (self.new ≡ self.old ++ block framed.now) }
        ensures err { OnErr result (self.new ≡ self.old) }
    {
        let gate = self.bytes.len() - 1;
        match self.bytes.extend_from_slice(&framed.bytes()[1..]) {
            Ok(()) => {
                self.bytes[gate] = 1;
                Ok(())
            }
            Err(_) => Err(Memory),
        }
    }

    /// The bytes: the records, and the next gate, closed.
    pub(crate) fn bytes(&self) -> &[u8]
        ensures { result.now ≡ self.now ++ 0 ∷ [] }
    {
        &self.bytes
    }

    /// How many bytes the records take in the log.
    pub fn len(&self) -> u64
        ensures { result ≡ length self.now }
    {
        self.bytes.len() as u64 - 1
    }
}
