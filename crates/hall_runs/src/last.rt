//! The last one of the copies that may be moved.
ghost use Rattle.std.specs.Prelude.{◌<◌, length};

use choosers::{Candidate, Chooser};

/// The last of them is chosen.
#[derive(Clone, Copy)]
pub struct Last;

impl Chooser for Last {
    ghost picks = { λ last list place. place < length list };

    fn pick(&self, list: &[Candidate]) -> usize {
        list.len() - 1
    }
}
