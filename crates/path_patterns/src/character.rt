//! The characters of a part.

ghost use Rattle.std.specs.Prelude.{◌≡◌, ◌<◌, ◌≤◌, ℕ, length, slice_index, true, false};
ghost use Rattle.path_patterns.specs.Patterns.{characters, is_continuation, is_star, fits_character};

use crate::matcher::Cut;

/// A character is a byte with the bytes of UTF-8 that go on with it.
pub(crate) struct Characters;

fn is_continuation(byte: u8) -> bool
    ensures { result ≡ is_continuation byte }
{
    128 <= byte && byte < 192
}

/// How many bytes at the front go on with a character.
fn continuations(bytes: &[u8]) -> usize
    ensures within { result ≤ length bytes.now }
    ensures before { (k : ℕ) → k < result → is_continuation (slice_index bytes.now k) ≡ true }
    ensures end { result < length bytes.now → is_continuation (slice_index bytes.now result) ≡ false }
{
    'bytes: for (at, byte) in bytes.iter().enumerate() {
        if !is_continuation(*byte) {
            return at;
        }
    }
    bytes.len()
}

impl Cut for Characters {
    ghost pieces = { characters };

    ghost is_run = { is_star };

    ghost fits = { fits_character };

    fn next(bytes: &[u8]) -> Option<(&[u8], &[u8])> {
        match bytes.split_first() {
            None => None,
            Some((_, rest)) => Some(bytes.split_at(1 + continuations(rest))),
        }
    }

    fn is_run(piece: &[u8]) -> bool {
        piece == b"*".as_slice()
    }

    fn fits(piece: &[u8], element: &[u8]) -> bool {
        piece == b"?".as_slice() || piece == element
    }
}
