//! Fields at the end of some bytes. An `Err` leaves the bytes as they were.

ghost use Rattle.std.specs.Prelude.{◌≡◌, ◌<◌, ◌^◌, ◌++◌, ◌∷◌, [], length, OnOk, OnErr};
ghost use Rattle.std.specs.Int.{w16, w32, w64, to_be_bytes};

use crate::errors::Memory;
use byteorder::{BigEndian, ByteOrder};

/// Puts one byte at the end.
pub fn put_u8(out: &mut Vec<u8>, value: u8) -> Result<(), Memory>
    ensures ok { OnOk result (out.new.items ≡ out.old.items ++ value ∷ []) }
    ensures err { OnErr result (out.new.items ≡ out.old.items) }
{
    out.push(value)?;
    Ok(())
}

/// Puts a number of two bytes at the end, the higher byte first.
pub fn put_u16(out: &mut Vec<u8>, value: u16) -> Result<(), Memory>
    ensures ok { OnOk result (out.new.items ≡ out.old.items ++ to_be_bytes w16 value) }
    ensures err { OnErr result (out.new.items ≡ out.old.items) }
{
    let mut bytes = [0u8; 2];
    BigEndian::write_u16(&mut bytes, value);
    out.extend_from_slice(&bytes)?;
    Ok(())
}

/// Puts a number of four bytes at the end, the highest byte first.
pub fn put_u32(out: &mut Vec<u8>, value: u32) -> Result<(), Memory>
    ensures ok { OnOk result (out.new.items ≡ out.old.items ++ to_be_bytes w32 value) }
    ensures err { OnErr result (out.new.items ≡ out.old.items) }
{
    let mut bytes = [0u8; 4];
    BigEndian::write_u32(&mut bytes, value);
    out.extend_from_slice(&bytes)?;
    Ok(())
}

/// Puts a number of eight bytes at the end, the highest byte first.
pub fn put_u64(out: &mut Vec<u8>, value: u64) -> Result<(), Memory>
    ensures ok { OnOk result (out.new.items ≡ out.old.items ++ to_be_bytes w64 value) }
    ensures err { OnErr result (out.new.items ≡ out.old.items) }
{
    let mut bytes = [0u8; 8];
    BigEndian::write_u64(&mut bytes, value);
    out.extend_from_slice(&bytes)?;
    Ok(())
}

/// Puts a text at the end: its length in two bytes, and its bytes.
pub fn put_text(out: &mut Vec<u8>, value: &[u8]) -> Result<(), Memory>
    requires { length value.now < 2 ^ 16 }
    ensures ok { OnOk result (out.new.items ≡ out.old.items ++ (to_be_bytes w16 (length value.now) ++ value.now)) }
    ensures err { OnErr result (out.new.items ≡ out.old.items) }
{
    let start = out.len();
    put_u16(out, value.len() as u16)?;
    if out.extend_from_slice(value).is_err() {
        out.truncate(start);
        return Err(Memory);
    }
    Ok(())
}

/// Puts the 32 bytes of a digest at the end.
pub fn put_digest(out: &mut Vec<u8>, value: &[u8; 32]) -> Result<(), Memory>
    ensures ok { OnOk result (out.new.items ≡ out.old.items ++ value.now) }
    ensures err { OnErr result (out.new.items ≡ out.old.items) }
{
    out.extend_from_slice(value)?;
    Ok(())
}
