ghost use Rattle.std.specs.Prelude.{◌≡◌, ◌≤◌, List, ℕ, IsTrue, Some, None, if◌then◌else◌, nat_eq};
ghost use Rattle.std.specs.List.{list_all};
ghost use Rattle.std.specs.Str.{str_to_ascii_uppercase};
ghost use Rattle.std.specs.Cmp.Lexicographic.{pointwise, slice_cmp, nat_list_eq_equiv, nat_list_cmp_total, texts_ties, texts_po};
ghost use Rattle.std.specs.Cmp;
ghost use Rattle.std.specs.Ordering.{nat_cmp};
ghost use Rattle.std.proofs.Common.{rules};
ghost use Rattle.kinds.specs.Answers.{Answers};
ghost use Rattle.kinds.specs.Names.{is_within, is_name_byte, is_name, read_name};

use crate::refusal::Refusal;
use std::alloc::{AllocError, Global};
use std::cmp::Ordering;
use std::marker::Model;

/// The name of a domain, a policy set, a management class, a device class, a storage pool or a volume: 1 to 30 characters.
pub type Name = NameOf<30>;

/// The name of a client node: 1 to 64 characters.
pub type NodeName = NameOf<64>;

/// A name of 1 to `MOST` letters, digits and `_ . - + &`, kept in upper case.
#[derive(Debug, Drop)]
pub struct NameOf<const MOST: u32> {
    bytes: Vec<u8>,
}

impl<const MOST: u32> Model for NameOf<MOST> {
    ghost Value = { List ℕ };

    ghost view = { λ n. n.bytes.items };

    ghost invariant = { λ n. IsTrue (is_name MOST n.bytes.items) };
}

fn is_within(bytes: &[u8], most: u32) -> bool
    ensures { result ≡ is_within most bytes.now }
{
    !bytes.is_empty() && bytes.len() <= most as usize
}

fn is_name_byte(byte: u8) -> bool
    ensures { result ≡ is_name_byte byte }
{
    byte.is_ascii_uppercase()
        || byte.is_ascii_digit()
        || matches!(byte, b'_' | b'.' | b'-' | b'+' | b'&')
}

/// Whether the bytes are a name as they stand.
fn is_name(bytes: &[u8], most: u32) -> bool
    ensures { result ≡ is_name most bytes.now }
{
    is_within(bytes, most) && all_stand(bytes)
}

/// Whether the bytes are a name once their letters are in upper case.
fn folds_to_name(bytes: &[u8], most: u32) -> bool
    ensures { result ≡ is_name most (str_to_ascii_uppercase bytes.now) }
{
    is_within(bytes, most) && all_fold(bytes)
}

/// Whether each byte may stand in a name.
fn all_stand(bytes: &[u8]) -> bool
    ensures { result ≡ list_all is_name_byte bytes.now }
{
    bytes.iter().all(|b| is_name_byte(*b))
}

/// Whether each byte may stand in a name once it is in upper case.
fn all_fold(bytes: &[u8]) -> bool
    ensures { result ≡ list_all is_name_byte (str_to_ascii_uppercase bytes.now) }
{
    bytes
        .iter()
        .map(|b| b.to_ascii_uppercase())
        .all(is_name_byte)
}

impl<const MOST: u32> NameOf<MOST> {
    /// Reads a name of at most `most` bytes, and folds its letters to upper case. Bytes that are no name are `BadValue(0)`.
    pub fn read(alloc: Global, bytes: &[u8], most: u32) -> Result<NameOf<MOST>, Refusal>
        requires { most ≤ MOST }
        ensures { Answers result (read_name most bytes.now) }
    {
        if !folds_to_name(bytes, most) {
            return Err(Refusal::BadValue(0));
        }
        let mut bytes = Vec::from_slice(alloc, bytes)?;
        bytes.as_mut_slice().make_ascii_uppercase();
        Ok(NameOf { bytes })
    }

    /// The name with these bytes, which must be in upper case already; none where they are no name. It takes no memory.
    pub fn from_bytes(bytes: Vec<u8>) -> Option<Self>
        ensures { result ≡ (if is_name MOST bytes.items then Some bytes.items else None) }
    {
        if is_name(bytes.as_slice(), MOST) {
            Some(NameOf { bytes })
        } else {
            None
        }
    }

    /// The name's bytes in a vector. It takes no memory.
    pub fn into_bytes(self) -> Vec<u8>
        ensures value { result.items ≡ self.entry }
        ensures grammar { IsTrue (is_name MOST self.entry) }
    {
        let NameOf { bytes } = self;
        bytes
    }

    /// The name's bytes.
    pub fn as_bytes(&self) -> &[u8]
        ensures value { result.now ≡ self.now }
        ensures grammar { IsTrue (is_name MOST self.now) }
    {
        self.bytes.as_slice()
    }
}

impl<const MOST: u32> Clone for NameOf<MOST> {
    ghost is_clone = { λ name copy. copy ≡ name };

    fn clone(&self) -> Result<Self, AllocError> {
        Ok(NameOf {
            bytes: Vec::from_slice(*self.bytes.allocator(), self.bytes.as_slice())?,
        })
    }
}

impl<const MOST: u32> PartialEq for NameOf<MOST> {
    ghost eq = { λ x y. pointwise nat_eq x y };

    ghost laws = { Cmp.partial_equiv_from_equiv nat_list_eq_equiv };

    fn eq(&self, other: &Self) -> bool {
        self.bytes.as_slice() == other.bytes.as_slice()
    }
}

impl<const MOST: u32> Eq for NameOf<MOST> {
    ghost laws = { nat_list_eq_equiv };
}

impl<const MOST: u32> PartialOrd for NameOf<MOST> {
    ghost partial_cmp = { λ x y. Some (slice_cmp nat_cmp x y) };

    ghost laws = { texts_po };

    fn partial_cmp(&self, other: &Self) -> Option<Ordering> {
        Some(self.cmp(other))
    }
}

impl<const MOST: u32> Ord for NameOf<MOST> {
    ghost cmp = { λ x y. slice_cmp nat_cmp x y };

    ghost total = { nat_list_cmp_total };

    ghost matches_partial_cmp = { Prim.search rules };

    ghost matches_eq = { texts_ties };

    fn cmp(&self, other: &Self) -> Ordering {
        self.bytes.as_slice().cmp(other.bytes.as_slice())
    }
}
