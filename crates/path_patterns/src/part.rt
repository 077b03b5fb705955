//! The parts of a path.

ghost use Rattle.std.specs.Prelude.{◌≡◌, ◌≢◌, ◌<◌, ◌≤◌, ℕ, length, slice_index};
ghost use Rattle.path_patterns.specs.Patterns.{parts_left, is_dots, fits_part};

use crate::character::Characters;
use crate::matcher::{Cut, is_matched};

/// The parts behind the slash with which some bytes begin.
pub(crate) struct Parts;

/// How many bytes stand before the first slash.
fn part_len(bytes: &[u8]) -> usize
    ensures within { result ≤ length bytes.now }
    ensures before { (k : ℕ) → k < result → slice_index bytes.now k ≢ 47 }
    ensures end { result < length bytes.now → slice_index bytes.now result ≡ 47 }
{
    'bytes: for (at, byte) in bytes.iter().enumerate() {
        if *byte == b'/' {
            return at;
        }
    }
    bytes.len()
}

impl Cut for Parts {
    ghost pieces = { parts_left };

    ghost is_run = { is_dots };

    ghost fits = { fits_part };

    fn next(bytes: &[u8]) -> Option<(&[u8], &[u8])> {
        match bytes.split_first() {
            None => None,
            Some((_, rest)) => Some(rest.split_at(part_len(rest))),
        }
    }

    fn is_run(piece: &[u8]) -> bool {
        piece == b"...".as_slice()
    }

    fn fits(piece: &[u8], element: &[u8]) -> bool {
        is_matched::<Characters>(piece, element)
    }
}
