ghost use Rattle.std.specs.Prelude.{◌≡◌, List, ℕ, IsTrue, Some, None, if◌then◌else◌, nat_eq};
ghost use Rattle.std.specs.Cmp.Lexicographic.{pointwise, nat_list_eq_equiv};
ghost use Rattle.std.specs.Cmp;
ghost use Rattle.kinds.specs.Answers.{Answers};
ghost use Rattle.kinds.specs.Texts.{is_text, read_text};

use crate::path::is_utf8;
use crate::refusal::Refusal;
use std::alloc::{AllocError, Global};
use std::marker::Model;

/// What a client says of an object that it archives: at most 255 bytes of UTF-8.
#[derive(Debug, Drop)]
pub struct Text {
    bytes: Vec<u8>,
}

impl Model for Text {
    ghost Value = { List ℕ };

    ghost view = { λ t. t.bytes.items };

    ghost invariant = { λ t. IsTrue (is_text t.bytes.items) };
}

fn is_text(bytes: &[u8]) -> bool
    ensures { result ≡ is_text bytes.now }
{
    bytes.len() <= 255 && is_utf8(bytes)
}

impl Text {
    /// Reads a text as it stands. Bytes that are no text are `BadValue(0)`.
    pub fn read(alloc: Global, bytes: &[u8]) -> Result<Text, Refusal>
        ensures { Answers result (read_text bytes.now) }
    {
        if !is_text(bytes) {
            return Err(Refusal::BadValue(0));
        }
        Ok(Text {
            bytes: Vec::from_slice(alloc, bytes)?,
        })
    }

    /// The text with these bytes; none where they are no text. It takes no memory.
    pub fn from_bytes(bytes: Vec<u8>) -> Option<Self>
        ensures { result ≡ (if is_text bytes.items then Some bytes.items else None) }
    {
        if is_text(bytes.as_slice()) {
            Some(Text { bytes })
        } else {
            None
        }
    }

    /// The text's bytes in a vector. It takes no memory.
    pub fn into_bytes(self) -> Vec<u8>
        ensures value { result.items ≡ self }
        ensures grammar { IsTrue (is_text self) }
    {
        let Text { bytes } = self;
        bytes
    }

    /// The text's bytes.
    pub fn as_bytes(&self) -> &[u8]
        ensures value { result.now ≡ self.now }
        ensures grammar { IsTrue (is_text self.now) }
    {
        self.bytes.as_slice()
    }
}

impl Clone for Text {
    ghost is_clone = { λ text copy. copy ≡ text };

    fn clone(&self) -> Result<Self, AllocError> {
        Ok(Text {
            bytes: Vec::from_slice(*self.bytes.allocator(), self.bytes.as_slice())?,
        })
    }
}

impl PartialEq for Text {
    ghost eq = { λ x y. pointwise nat_eq x y };

    ghost laws = { Cmp.partial_equiv_from_equiv nat_list_eq_equiv };

    fn eq(&self, other: &Self) -> bool {
        self.bytes.as_slice() == other.bytes.as_slice()
    }
}

impl Eq for Text {
    ghost laws = { nat_list_eq_equiv };
}
