ghost use Rattle.std.specs.Prelude.{◌≡◌, List, ℕ, IsTrue, Some, None, if◌then◌else◌, nat_eq};
ghost use Rattle.std.specs.Cmp.Lexicographic.{pointwise, slice_cmp, nat_list_eq_equiv, nat_list_cmp_total, texts_ties, texts_po};
ghost use Rattle.std.specs.Cmp;
ghost use Rattle.std.specs.Ordering.{nat_cmp};
ghost use Rattle.std.specs.Str.{is_utf8};
ghost use Rattle.std.proofs.Common.{rules};
ghost use Rattle.kinds.specs.Answers.{Answers};
ghost use Rattle.kinds.specs.Paths.{is_rooted, has_no_zero, is_path, read_path};

use crate::refusal::Refusal;
use std::alloc::{AllocError, Global};
use std::cmp::Ordering;
use std::marker::Model;
use std::str;

/// The path of a client file within its filespace: at most 1,024 bytes.
pub type Path = PathOf<1024>;

/// The name of a filespace: a path of at most 64 bytes.
pub type FilespaceName = PathOf<64>;

/// A path of at most `MOST` bytes of UTF-8, which begins with a slash and has no byte 0. Its letters keep their case.
#[derive(Debug, Drop)]
pub struct PathOf<const MOST: u32> {
    bytes: Vec<u8>,
}

impl<const MOST: u32> Model for PathOf<MOST> {
    ghost Value = { List ℕ };

    ghost view = { λ p. p.bytes.items };

    ghost invariant = { λ p. IsTrue (is_path MOST p.bytes.items) };
}

fn is_rooted(bytes: &[u8]) -> bool
    ensures { result ≡ is_rooted bytes.now }
{
    bytes.first() == Some(&b'/')
}

fn has_no_zero(bytes: &[u8]) -> bool
    ensures { result ≡ has_no_zero bytes.now }
{
    !bytes.contains(&0)
}

/// Whether the bytes are UTF-8.
pub fn is_utf8(bytes: &[u8]) -> bool
    ensures { result ≡ is_utf8 bytes.now }
{
    match str::from_utf8(bytes) {
        Ok(_) => true,
        Err(_) => false,
    }
}

fn is_path(bytes: &[u8], most: u32) -> bool
    ensures { result ≡ is_path most bytes.now }
{
    bytes.len() <= most as usize && is_rooted(bytes) && has_no_zero(bytes) && is_utf8(bytes)
}

impl<const MOST: u32> PathOf<MOST> {
    /// Reads a path as it stands. Bytes that are no path are `BadValue(0)`.
    pub fn read(alloc: Global, bytes: &[u8]) -> Result<PathOf<MOST>, Refusal>
        ensures { Answers result (read_path MOST bytes.now) }
    {
        if !is_path(bytes, MOST) {
            return Err(Refusal::BadValue(0));
        }
        Ok(PathOf {
            bytes: Vec::from_slice(alloc, bytes)?,
        })
    }

    /// The path with these bytes; none where they are no path. It takes no memory.
    pub fn from_bytes(bytes: Vec<u8>) -> Option<Self>
        ensures { result ≡ (if is_path MOST bytes.items then Some bytes.items else None) }
    {
        if is_path(bytes.as_slice(), MOST) {
            Some(PathOf { bytes })
        } else {
            None
        }
    }

    /// The path's bytes in a vector. It takes no memory.
    pub fn into_bytes(self) -> Vec<u8>
        ensures value { result.items ≡ self.entry }
        ensures grammar { IsTrue (is_path MOST self.entry) }
    {
        let PathOf { bytes } = self;
        bytes
    }

    /// The path's bytes.
    pub fn as_bytes(&self) -> &[u8]
        ensures value { result.now ≡ self.now }
        ensures grammar { IsTrue (is_path MOST self.now) }
    {
        self.bytes.as_slice()
    }
}

impl<const MOST: u32> Clone for PathOf<MOST> {
    ghost is_clone = { λ path copy. copy ≡ path };

    fn clone(&self) -> Result<Self, AllocError> {
        Ok(PathOf {
            bytes: Vec::from_slice(*self.bytes.allocator(), self.bytes.as_slice())?,
        })
    }
}

impl<const MOST: u32> PartialEq for PathOf<MOST> {
    ghost eq = { λ x y. pointwise nat_eq x y };

    ghost laws = { Cmp.partial_equiv_from_equiv nat_list_eq_equiv };

    fn eq(&self, other: &Self) -> bool {
        self.bytes.as_slice() == other.bytes.as_slice()
    }
}

impl<const MOST: u32> Eq for PathOf<MOST> {
    ghost laws = { nat_list_eq_equiv };
}

impl<const MOST: u32> PartialOrd for PathOf<MOST> {
    ghost partial_cmp = { λ x y. Some (slice_cmp nat_cmp x y) };

    ghost laws = { texts_po };

    fn partial_cmp(&self, other: &Self) -> Option<Ordering> {
        Some(self.cmp(other))
    }
}

impl<const MOST: u32> Ord for PathOf<MOST> {
    ghost cmp = { λ x y. slice_cmp nat_cmp x y };

    ghost total = { nat_list_cmp_total };

    ghost matches_partial_cmp = { Prim.search rules };

    ghost matches_eq = { texts_ties };

    fn cmp(&self, other: &Self) -> Ordering {
        self.bytes.as_slice().cmp(other.bytes.as_slice())
    }
}
