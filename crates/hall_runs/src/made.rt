//! Which words did something.

/// There are at most so many words.
const MOST: usize = 18;

/// How often each of some words, of which there are at most 18, did something.
#[derive(Clone, Copy)]
pub struct Made {
    counts: [u64; MOST],
}

impl Made {
    /// None of them did anything yet.
    pub fn new() -> Made {
        Made { counts: [0; MOST] }
    }

    /// The word at this place did something once more.
    fn raise(&mut self, place: usize) {
        if let Some(count) = self.counts.get_mut(place) {
            *count = count.saturating_add(1);
        }
    }

    /// The first word of a line, where it is one of these, did something once more.
    pub fn note(&mut self, words: &[&str], line: &[&str]) {
        if let Some(made) = line.first() {
            if let Some(place) = words.iter().position(|word| *word == *made) {
                self.raise(place);
            }
        }
    }

    /// The first of these words that did nothing.
    pub fn lacking(&self, words: &'static [&'static str]) -> Option<&'static str> {
        for (place, word) in words.iter().enumerate() {
            if self.counts.get(place).copied() == Some(0) {
                return Some(*word);
            }
        }
        None
    }
}
