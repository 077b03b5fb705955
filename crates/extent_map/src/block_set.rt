ghost use Rattle.std.specs.Prelude.{◌≡◌, ℕ, ◌+◌, ◌*◌, ◌/◌, ◌%◌, ◌^◌, ◌<◌, ◌≤◌, Bool, true, false, ◌==◌, if◌then◌else◌, List, length, replicate, slice_index, slice_index_or, slice_set, IfOk, MatchOption};
ghost use Rattle.extent_map.specs.Bits.{is_set, is_between, NoneSet, IsLowest};
ghost use Rattle.extent_map.specs.Levels.{bit_of, level_start, is_filled, Tells, AllTell, OthersTell, members};

use crate::word::{lowest, lowest_from, with_bits};
use std::alloc::{AllocError, Global};
use std::marker::Model;

/// Puts a word in the place of one, and makes the words above it tell of it.
fn put_word(words: &mut [u64], base: usize, at: usize, word: u64)
    requires within { at < length words.old }
    requires level { at ≤ base }
    requires told { (i : ℕ) → i + 1 ≡ at → Tells words.old i }
    requires telling { OthersTell (slice_set words.old at word) base at }
    ensures telling { AllTell words.new base }
    ensures members { (i : ℕ) → base ≤ i → bit_of words.new i ≡ bit_of (slice_set words.old at word) i }
{
    let was = words[at];
    words[at] = word;
    if at > 0 && (was == 0) != (word == 0) {
        let above = at - 1;
        let bit = above % 64;
        let telling = with_bits(words[above / 64], bit, bit + 1, word != 0);
        put_word(words, base, above / 64, telling);
    }
}

/// The first bit from `from` on that is set in the level of this depth, which begins at bit `start`.
fn next_bit(words: &[u64], depth: u32, start: usize, from: usize) -> Option<usize>
    requires level { start ≡ level_start depth }
    requires low { start ≤ from }
    requires high { from < 64 * (start + 1) }
    requires within { from / 64 < length words.now }
    requires telling { AllTell words.now start }
    requires fits { start < 2 ^ 40 }
    ensures { MatchOption result (NoneSet (bit_of words.now) from (64 * (start + 1))) (IsLowest (bit_of words.now) from (64 * (start + 1))) }
{
    let at = from / 64;
    match lowest_from(words[at], from % 64) {
        Some(bit) => Some(64 * at + bit),
        None => {
            if at >= start {
                return None;
            }
            match next_bit(words, depth - 1, start / 64 - 1, at) {
                Some(above) => Some(64 * (above + 1) + lowest(words[above + 1])),
                None => None,
            }
        }
    }
}

/// So many words of which no bit is set.
fn zeros(alloc: Global, count: usize) -> Result<Vec<u64>, AllocError>
    ensures { IfOk result (λ v. v.items ≡ replicate count 0) }
{
    vec![in alloc; 0; count]
}

/// A set of numbers below a count: which they are, as a list with a truth value for each number. Its memory is all taken when it
/// is made; a look-up or a change costs the logarithm of the count.
#[derive(Drop)]
pub(crate) struct BlockSet {
    words: Vec<u64>,
    depth: u32,
    base: usize,
    count: usize,
}

impl Model for BlockSet {
    ghost use Rattle.std.specs.Prelude.{Bool, List};
    ghost use Rattle.extent_map.specs.Levels.{AreLevels, members};

    ghost Value = { List Bool };

    ghost view = { λ s. members s.words.items s.base s.count };

    ghost invariant = { λ s. AreLevels s.words.items s.depth s.base s.count };
}

impl BlockSet {
    ghost use Rattle.extent_map.specs.Blocks.{marked_from};

    /// The empty set of numbers below `count`.
    pub(crate) fn new(alloc: Global, count: u32) -> Result<Self, AllocError>
        ensures { IfOk result (λ s. s ≡ replicate count false) }
    {
        let count = count as usize;
        let mut depth = 0;
        let mut base = 0;
        while 63 * base + 64 < count {
            base = 64 * (base + 1);
            depth += 1;
        }
        let words = zeros(alloc, (base + count).div_ceil(64))?;
        Ok(BlockSet {
            words,
            depth,
            base,
            count,
        })
    }

    /// How many numbers may be members.
    pub(crate) fn len(&self) -> usize
        ensures { result ≡ length self.now }
    {
        self.count
    }

    /// Whether the number is a member.
    pub(crate) fn contains(&self, number: usize) -> bool
        requires { number < length self.now }
        ensures { result ≡ slice_index_or self.now number false }
    {
        let words = self.words.as_slice();
        let at = self.base + number;
        words[at / 64] >> (at % 64) & 1 == 1
    }

    /// The first member from `from` on, or the count where there is none.
    pub(crate) fn next(&self, from: usize) -> usize
        requires { from ≤ length self.now }
        ensures low { from ≤ result }
        ensures high { result ≤ length self.now }
        ensures before { (k : ℕ) → from ≤ k → k < result → slice_index_or self.now k false ≡ false }
        ensures here { result < length self.now → slice_index_or self.now result false ≡ true }
    {
        if from == self.count {
            return self.count;
        }
        match next_bit(
            self.words.as_slice(),
            self.depth,
            self.base,
            self.base + from,
        ) {
            Some(bit) => (bit - self.base).min(self.count),
            None => self.count,
        }
    }

    /// Makes members of all the numbers from `first` on, so many, or makes none of them members.
    pub(crate) fn fill(&mut self, first: usize, blocks: usize, member: bool)
        requires { first + blocks ≤ length self.old }
        ensures { self.new ≡ marked_from member first blocks self.old }
    {
        fill_bits(
            self.words.as_mut_slice(),
            self.base,
            self.base + first,
            self.base + first + blocks,
            member,
        );
    }
}

/// Sets or clears the bits of the last level from `low` to before `high`.
fn fill_bits(words: &mut [u64], base: usize, low: usize, high: usize, set: bool)
    requires low { base ≤ low }
    requires order { low ≤ high }
    requires high { high ≤ 64 * (base + 1) }
    requires within { high ≤ 64 * length words.old }
    requires telling { AllTell words.old base }
    requires fits { base < 2 ^ 40 }
    ensures telling { AllTell words.new base }
    ensures members { (i : ℕ) → base ≤ i → bit_of words.new i ≡ (if is_between low high i then set else bit_of words.old i) }
{
    let mut done = low;
    while done < high {
        let at = done / 64;
        let stop = (64 * (at + 1)).min(high);
        let word = with_bits(words[at], done % 64, stop - 64 * at, set);
        put_word(words, base, at, word);
        done = stop;
    }
}
