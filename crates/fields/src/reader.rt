//! Fields from the front of some bytes.

ghost use Rattle.std.specs.Prelude.{◌≡◌, ◌<◌, ◌^◌, ◌↔◌, length, IsTrue, IfOk, []};
ghost use Rattle.std.specs.Int.{w16, w32, w64};
ghost use Rattle.fields.specs.Forms.{IsBytes};
ghost use Rattle.fields.specs.Reading.{Cursor, Reads, u8_at, number_at, bytes_at, text_at};

use crate::errors::Short;
use std::marker::Model;

/// Reads fields one after the other. A contract sees where it is, in bytes from its start, and the bytes that are left.
///
/// Each read takes its field's value and moves behind it. Where fewer bytes are left than the field needs it
/// answers `Short` with the place where it stands, and moves nothing.
#[derive(Drop)]
pub struct Reader<'a> {
    at: u64,
    rest: &'a [u8],
}

impl<'a> Model for Reader<'a> {
    ghost use Rattle.std.specs.Prelude.{◌+◌, ◌<◌, ◌^◌, length};
    ghost use Rattle.fields.specs.Reading.{Cursor};

    ghost Value = { Cursor };

    ghost view = { λ r. record { at = r.at; rest = r.rest.now } };

    ghost invariant = { λ r. r.at + length r.rest.now < 2 ^ 64 };
}

/// The bytes, each of them below 256.
fn as_bytes(bytes: &[u8]) -> &[u8]
    ensures same { result.now ≡ bytes.now }
    ensures bytes { IsBytes bytes.now }
{
    bytes
}

impl<'a> Reader<'a> {
    /// A reader at the start of these bytes.
    pub fn new(bytes: &'a [u8]) -> Reader<'a>
        ensures { result ≡ record { at = 0; rest = bytes.now } }
    {
        Reader { at: 0, rest: bytes }
    }

    /// One byte.
    pub fn u8(&mut self) -> Result<u8, Short>
        ensures reads { Reads (λ n. n) result self.old self.new (u8_at self.old.rest) }
    {
        match self.rest {
            [] => Err(Short(self.at)),
            [first, rest @ ..] => {
                self.at += 1;
                self.rest = rest;
                Ok(*first)
            }
        }
    }

    /// So many bytes.
    pub fn bytes(&mut self, count: usize) -> Result<&'a [u8], Short>
        ensures reads { Reads (λ b. b.now) result self.old self.new (bytes_at count self.old.rest) }
        ensures len { IfOk result (λ b. length b.now ≡ count) }
    {
        if self.rest.len() < count {
            return Err(Short(self.at));
        }
        let (front, rest) = self.rest.split_at(count);
        self.at += count as u64;
        self.rest = rest;
        Ok(front)
    }

    /// A number of two bytes, the higher byte first.
    pub fn u16(&mut self) -> Result<u16, Short>
        ensures reads { Reads (λ n. n) result self.old self.new (number_at w16 self.old.rest) }
    {
        let bytes = self.bytes(2)?;
        Ok(u16::from_be_bytes([bytes[0], bytes[1]]))
    }

    /// A number of four bytes, the highest byte first.
    pub fn u32(&mut self) -> Result<u32, Short>
        ensures reads { Reads (λ n. n) result self.old self.new (number_at w32 self.old.rest) }
    {
        let bytes = self.bytes(4)?;
        Ok(u32::from_be_bytes([bytes[0], bytes[1], bytes[2], bytes[3]]))
    }

    /// A number of eight bytes, the highest byte first.
    pub fn u64(&mut self) -> Result<u64, Short>
        ensures reads { Reads (λ n. n) result self.old self.new (number_at w64 self.old.rest) }
    {
        let bytes = self.bytes(8)?;
        Ok(u64::from_be_bytes([
            bytes[0], bytes[1], bytes[2], bytes[3], bytes[4], bytes[5], bytes[6], bytes[7],
        ]))
    }

    /// A length of two bytes, and that many bytes. One that ends inside is short before its length.
    #[tactic(auto, unfolding(crate::specs::Reading::text_at))]
    pub fn text(&mut self) -> Result<&'a [u8], Short>
        ensures reads { Reads (λ b. b.now) result self.old self.new (text_at self.old.rest) }
        ensures short { IfOk result (λ b. length b.now < 2 ^ 16) }
    {
        let start = self.at;
        let bytes = self.rest;
        let len = self.u16()?;
        match self.bytes(len as usize) {
            Ok(text) => Ok(text),
            Err(_) => {
                self.at = start;
                self.rest = bytes;
                Err(Short(start))
            }
        }
    }

    /// The 32 bytes of a digest.
    pub fn digest(&mut self) -> Result<[u8; 32], Short>
        ensures reads { Reads (λ b. b) result self.old self.new (bytes_at 32 self.old.rest) }
    {
        let bytes = self.bytes(32)?;
        let mut digest = [0u8; 32];
        digest.copy_from_slice(bytes);
        Ok(digest)
    }

    /// The bytes that are left.
    pub fn rest(&self) -> &'a [u8]
        ensures rest { result.now ≡ self.now.rest }
        ensures bytes { IsBytes self.now.rest }
    {
        as_bytes(self.rest)
    }

    /// Whether no bytes are left.
    pub fn at_end(&self) -> bool
        ensures at_end { IsTrue result ↔ (self.now.rest ≡ []) }
    {
        self.rest.is_empty()
    }
}
