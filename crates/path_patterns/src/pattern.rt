ghost use Rattle.std.specs.Prelude.{◌≡◌, ◌↔◌, ◌≤◌, List, ℕ, IsTrue, Ok, Err, if◌then◌else◌, ◌&&◌, nat_le};
ghost use Rattle.kinds.specs.Answers.{Answers};
ghost use Rattle.path_patterns.specs.Patterns.{is_pattern, begins_inside_part, is_match, MatchesPath, read_pattern};

use crate::matcher::is_matched;
use crate::part::Parts;
use kinds::Refusal;
use std::alloc::{AllocError, Global};
use std::marker::Model;

/// A pattern of paths: 1 to 1,024 bytes that begin with a slash. Its letters keep their case.
#[derive(Debug, Drop)]
pub struct Pattern {
    bytes: Vec<u8>,
}

impl Model for Pattern {
    ghost use Rattle.std.specs.Prelude.{List, ℕ, IsTrue};
    ghost use Rattle.path_patterns.specs.Patterns.{is_pattern};

    ghost Value = { List ℕ };

    ghost view = { λ p. p.bytes.items };

    ghost invariant = { λ p. IsTrue (is_pattern p.bytes.items) };
}

fn is_pattern(bytes: &[u8]) -> bool
    ensures { result ≡ is_pattern bytes.now }
{
    bytes.first() == Some(&b'/') && bytes.len() <= 1024
}

/// Whether something stands before the first slash.
fn begins_inside_part(path: &[u8]) -> bool
    ensures { result ≡ begins_inside_part path.now }
{
    match path {
        [] => false,
        [first, ..] => *first != b'/',
    }
}

/// Whether the pattern matches the path.
fn is_match(pattern: &[u8], path: &[u8]) -> bool
    requires { IsTrue (is_pattern pattern.now) }
    ensures value { result ≡ is_match pattern.now path.now }
    ensures meaning { IsTrue result ↔ MatchesPath pattern.now path.now }
{
    if begins_inside_part(path) {
        return false;
    }
    is_matched::<Parts>(pattern, path)
}

impl Pattern {
    /// Reads a pattern as it stands. Bytes that are no pattern are `BadValue(0)`.
    pub fn read(alloc: Global, bytes: &[u8]) -> Result<Pattern, Refusal>
        ensures { Answers result (read_pattern bytes.now) }
    {
        if !is_pattern(bytes) {
            return Err(Refusal::BadValue(0));
        }
        Ok(Pattern {
            bytes: Vec::from_slice(alloc, bytes)?,
        })
    }

    /// The pattern's bytes.
    pub fn as_bytes(&self) -> &[u8]
        ensures value { result.now ≡ self.now }
        ensures grammar { IsTrue (is_pattern self.now) }
    {
        self.bytes.as_slice()
    }

    /// Whether the pattern matches the path. It takes no memory.
    ///
    /// Of a path or a pattern that is no UTF-8, a character is any byte with the bytes from 0x80 to 0xBF behind it.
    pub fn matches(&self, path: &[u8]) -> bool
        ensures value { result ≡ is_match self.now path.now }
        ensures meaning { IsTrue result ↔ MatchesPath self.now path.now }
    {
        is_match(self.bytes.as_slice(), path)
    }
}

impl Clone for Pattern {
    ghost is_clone = { λ pattern copy. copy ≡ pattern };

    fn clone(&self) -> Result<Self, AllocError> {
        Ok(Pattern {
            bytes: Vec::from_slice(*self.bytes.allocator(), self.bytes.as_slice())?,
        })
    }
}
