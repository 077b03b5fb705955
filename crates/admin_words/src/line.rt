ghost use Rattle.std.specs.Prelude.{◌≡◌, ◌<◌, ◌≤◌, ◌+◌, ◌-◌, ◌^◌, ℕ, List, map, length, drop, IfOk, OnOk};
ghost use Rattle.kinds.specs.Answers.{Answers};
ghost use Rattle.command_words.specs.Reading.{Says, Reads};
ghost use Rattle.command_words.specs.Words.{word_view, words};
ghost use Rattle.admin_words.specs.Rows.{noun_view, verb_view, verbs, is_bare};
ghost use Rattle.admin_words.specs.Legible.{IsRead, LineIsRead};
ghost use Rattle.admin_words.specs.Spelling.{accepted, SameWords, single_spaced};
ghost use Rattle.admin_words.specs.Line.{row_named, row_among, row_of, asks_archive, row_meant, row_for, row_command, command};

use crate::command::{Command, command_of};
use crate::table::{Noun, Verb, archive_row, nouns_of, verbs_of};
use command_words::{Word, choose, first_value, is_front, row_values, torn_at, words_of};
use kinds::Refusal;
use std::alloc::Global;

fn is_bare(nouns: &[Noun]) -> bool
    ensures { result ≡ is_bare (map noun_view nouns.now) }
{
    match nouns {
        [] => false,
        [noun, ..] => noun.0.is_empty(),
    }
}

/// The row that the second word names.
fn row_named(end: u32, nouns: &'static [Noun], words: &[Word]) -> Result<Noun, Refusal>
    ensures { Says (λ n. (noun_view n, map word_view (drop 1 words.now))) result (row_named end (map noun_view nouns.now) (map word_view words.now)) }
{
    match words {
        [] => Err(Refusal::Syntax(end)),
        [word, ..] => match choose(word.0, word.1, nouns) {
            Err(refusal) => Err(refusal),
            Ok(at) => Ok(nouns[at]),
        },
    }
}

/// The row among those of a first word, and how many words were used behind it.
fn row_among(end: u32, nouns: &'static [Noun], words: &[Word]) -> Result<(Noun, usize), Refusal>
    ensures value { Says (λ r. (noun_view r.0, map word_view (drop r.1 words.now))) result (row_among end (map noun_view nouns.now) (map word_view words.now)) }
    ensures within { IfOk result (λ r. r.1 ≤ length words.now) }
{
    if is_bare(nouns) {
        return Ok((nouns[0], 0));
    }
    match row_named(end, nouns, words) {
        Err(refusal) => Err(refusal),
        Ok(noun) => Ok((noun, 1)),
    }
}

/// The row that the first words of a line name, and how many words these are.
fn row_of(end: u32, verbs: &'static [Verb], words: &[Word]) -> Result<(Noun, usize), Refusal>
    ensures value { Says (λ r. (noun_view r.0, map word_view (drop r.1 words.now))) result (row_of end (map verb_view verbs.now) (map word_view words.now)) }
    ensures within { IfOk result (λ r. r.1 ≤ length words.now) }
{
    match words {
        [] => Err(Refusal::Syntax(end)),
        [word, rest @ ..] => match choose(word.0, word.1, verbs) {
            Err(refusal) => Err(refusal),
            Ok(at) => match row_among(end, nouns_of(verbs[at].1), rest) {
                Err(refusal) => Err(refusal),
                Ok((noun, used)) => Ok((noun, used + 1)),
            },
        },
    }
}

/// Whether TYPE is ARCHIVE among the words behind a command's own, by its first value.
fn asks_archive(words: &[Word]) -> bool
    ensures { result ≡ asks_archive (map word_view words.now) }
{
    match first_value(b"TYPE", words) {
        Some(value) => is_front(b"ARCHIVE", value),
        None => false,
    }
}

/// The row that is meant where this one is named, and these words stand behind.
fn row_meant(noun: Noun, words: &[Word]) -> Noun
    ensures { noun_view result ≡ row_meant (noun_view noun.entry) (map word_view words.now) }
{
    match archive_row(noun.1) {
        Some(archive) => { if asks_archive(words) { archive } else { noun } }
        None => noun,
    }
}

/// The row that a line means, by its first words and by TYPE, and how many the first words are.
fn row_for(end: u32, verbs: &'static [Verb], words: &[Word]) -> Result<(Noun, usize), Refusal>
    ensures value { Says (λ r. (noun_view r.0, map word_view (drop r.1 words.now))) result (row_for end (map verb_view verbs.now) (map word_view words.now)) }
    ensures within { IfOk result (λ r. r.1 ≤ length words.now) }
{
    match row_of(end, verbs, words) {
        Err(refusal) => Err(refusal),
        Ok((noun, used)) => Ok((row_meant(noun, &words[used..]), used)),
    }
}

/// The command of a row, with what the words behind its own give.
fn row_command(alloc: Global, end: u32, noun: Noun, words: &[Word]) -> Result<Command, Refusal>
    ensures value { Answers result (row_command end (noun_view noun.entry, map word_view words.now)) }
    ensures legible { OnOk result (IsRead end (noun_view noun.entry, map word_view words.now)) }
{
    let (places, keys) = row_values(alloc, noun.2, noun.3, end, words)?;
    command_of(alloc, noun.1, places.as_slice(), keys.as_slice())
}

/// Reads a line of fewer than 2^32 - 1 bytes, outside a block or inside one: its command, or the refusal at its first
/// offending word, whose column is counted in bytes from 1. Refusals are `Syntax`, `UnknownWord`, `Ambiguous`, `BadValue`
/// and `Memory`. After TSM's Administrator's Reference: command names, keywords and their values may be cut short to what
/// is unique, in any case.
#[tactic(auto, using(crate::proofs::Alike::alike_lines, crate::proofs::Spaced::spaced_lines))]
pub fn read_line(alloc: Global, line: &[u8], in_block: bool) -> Result<Command, Refusal>
    requires { length line.now < 2 ^ 32 - 1 }
    ensures value { Answers result (command line.now in_block) }

    // Each value of a command fits its place or keyword, and what must be there was given.
    ensures legible { OnOk result (LineIsRead in_block line.now) }

    // A line that says the same in other letters, with other blanks or by shorter words is the same command.
    ensures spelling { (other : List ℕ) → SameWords (verbs in_block) (words other) (words line.now) → accepted (command other in_block) ≡ accepted (command line.now in_block) }

    // One space for each run of blanks between words makes no other command.
    ensures blanks { accepted (command (single_spaced line.now) in_block) ≡ accepted (command line.now in_block) }
{
    let words = words_of(alloc, line)?;
    if let Some(column) = torn_at(words.as_slice()) {
        return Err(Refusal::Syntax(column));
    }
    let end = line.len() as u32 + 1;
    match row_for(end, verbs_of(in_block), words.as_slice()) {
        Err(refusal) => Err(refusal),
        Ok((noun, used)) => row_command(alloc, end, noun, &words[used..]),
    }
}
