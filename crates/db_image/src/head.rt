// What stands between an image's gate and its payload.
ghost use Rattle.std.specs.Prelude.{ℕ, ◌≡◌, ◌≤◌, ◌+◌, min, length, take, drop, IsTrue, IfOk, IfErr, IfSome, ◌↔◌};
ghost use Rattle.std.specs.Int.{w64, from_be_bytes, to_be_bytes};
ghost use Rattle.fields.specs.Forms.{IsBytes};
ghost use Rattle.kinds.specs.declared.refusal.OpenRefused.TheVariants.{Damaged};
ghost use Rattle.db_image.specs.Images.{head_bytes, IsNumber, IsSpent};
ghost use Rattle.db_image.specs.Reads.{RestGives, HeadGives};

use crate::mark::Mark;
use byteorder::{BigEndian, ByteOrder};
use fields::Reader;
use kinds::OpenRefused;

/// How many bytes stand in front of the payload, the gate among them.
pub(crate) const FRONT: u64 = 24;

/// The bound of numbers.
const NUMBERS: u64 = 1 << 62;

/// What an image says in front of its payload.
#[derive(Clone, Copy, Drop)]
pub struct Head {
    /// Of a server's image its generation; of a backup the number of the last transaction that it holds.
    pub number: u64,
    /// How many bytes the payload has.
    pub len: u64,
}

/// The bytes of a head.
#[tactic(auto, unfolding(crate::specs::Images::head_bytes))]
pub(crate) fn head_of(mark: Mark, number: u64, len: u64) -> [u8; 23]
    ensures { result ≡ head_bytes mark number len }
{
    let mut head = [0u8; 23];
    head[..7].copy_from_slice(&mark.bytes());
    BigEndian::write_u64(&mut head[7..], number);
    BigEndian::write_u64(&mut head[15..], len);
    head
}

/// Whether an image in the file may have the number.
fn is_number(mark: Mark, file: u32, number: u64) -> bool
    ensures { IsTrue result ↔ IsNumber mark file number }
{
    match mark {
        Mark::Server => number < NUMBERS && number % 2 == file as u64,
        Mark::Backup => number < NUMBERS,
    }
}

/// Whether what stands behind the gate is a server's image of the last generation in the first form, given its number. No image
/// can have the next one.
fn is_spent(mark: Mark, number: u64, rest: &[u8]) -> bool
    ensures { IsTrue result ↔ IsSpent mark number (drop 23 rest.now) }
{
    match mark {
        Mark::Server => number == NUMBERS - 1 && rest.len() > 23 && rest[23] == 1,
        Mark::Backup => false,
    }
}

/// The number that eight bytes spell.
fn word(bytes: &[u8]) -> u64
    requires { length bytes.now ≡ 8 }
    ensures value { result ≡ from_be_bytes w64 bytes.now }
    ensures bytes { IsBytes bytes.now }
{
    Reader::new(bytes).u64().unwrap_or(0)
}

/// The number in eight of the bytes, from a place on.
fn number_at(bytes: &[u8], at: usize) -> u64
    requires { at + 8 ≤ length bytes.now }
    ensures value { result ≡ from_be_bytes w64 (take 8 (drop at bytes.now)) }
    ensures spelled { to_be_bytes w64 result ≡ take 8 (drop at bytes.now) }
{
    word(&bytes[at..at + 8])
}

/// What stands first behind an open gate: of the bytes there, of which `left` are in the file, all are given or 24.
fn parse_rest(rest: &[u8], mark: Mark, file: u32, left: u64) -> Result<Head, OpenRefused>
    ensures gives { length rest.now ≡ min 24 left → RestGives file mark rest.now left result }
    ensures within { IfOk result (λ head. 23 + head.len ≤ left) }
    ensures file { IfErr result (λ refusal. (at : ℕ) × (refusal ≡ Damaged file at)) }
{
    if !rest.starts_with(&mark.bytes()) {
        return Err(OpenRefused::Damaged(file, 1));
    }
    if rest.len() < 15 {
        return Err(OpenRefused::Damaged(file, 8));
    }
    let number = number_at(rest, 7);
    if !is_number(mark, file, number) {
        return Err(OpenRefused::Damaged(file, 8));
    }
    if is_spent(mark, number, rest) {
        return Err(OpenRefused::Damaged(file, 8));
    }
    if rest.len() < 23 || left < 23 {
        return Err(OpenRefused::Damaged(file, 16));
    }
    let len = number_at(rest, 15);
    if left - 23 < len {
        return Err(OpenRefused::Damaged(file, 16));
    }
    Ok(Head { number, len })
}

/// What the first bytes of a file say, of which all are there or 25, of a file of `len` bytes.
pub(crate) fn parse_head(
    bytes: &[u8],
    mark: Mark,
    file: u32,
    len: u64,
) -> Result<Option<Head>, OpenRefused>
    ensures gives { length bytes.now ≡ min 25 len → HeadGives file mark bytes.now len result }
    ensures within { IfOk result (λ found. IfSome found (λ head. 24 + head.len ≤ len)) }
    ensures file { IfErr result (λ refusal. (at : ℕ) × (refusal ≡ Damaged file at)) }
{
    if bytes.is_empty() || bytes[0] != 1 || len == 0 {
        return Ok(None);
    }
    match parse_rest(&bytes[1..], mark, file, len - 1) {
        Ok(head) => Ok(Some(head)),
        Err(refused) => Err(refused),
    }
}
