//! The text of a rule file.

ghost use Rattle.std.specs.Prelude.{◌≡◌, ◌+◌, ◌-◌, ◌<◌, ◌≤◌, ◌^◌, ◌≢◌, ℕ, length, map, slice_index, ◌∷◌};
ghost use Rattle.std.specs.Str.Lines.{lines, strip_carriage_return};
ghost use Rattle.kinds.specs.Answers.{Answers};
ghost use Rattle.command_words.specs.Reading.{Reads};
ghost use Rattle.command_words.specs.Words.{word_view};
ghost use Rattle.choosers.specs.RuleText.{Adds, verb_at, pattern_at, class_at, class_of, include_of, exclude_of, rule_behind, rule_of, rule_at, rules_at, parts, parts_left, line_of, placed_lines, rules_of};

use crate::rule::Rule;
use command_words::{Word, begins, is_comment, torn_at, unquoted, words_behind};
use kinds::{Name, Refusal};
use path_patterns::Pattern;
use std::alloc::Global;

/// The first word of a rule.
#[derive(Clone, Copy)]
pub(crate) enum Verb {
    Including,
    Excluding,
}

fn read_verb(word: &Word) -> Result<Verb, Refusal>
    ensures { result ≡ verb_at (word_view word.now) }
{
    if begins(b"INCLUDE", word.1) {
        Ok(Verb::Including)
    } else if begins(b"EXCLUDE", word.1) {
        Ok(Verb::Excluding)
    } else {
        Err(Refusal::UnknownWord(word.0))
    }
}

fn read_pattern(alloc: Global, word: &Word) -> Result<Pattern, Refusal>
    ensures { Answers result (pattern_at (word_view word.now)) }
{
    match Pattern::read(alloc, unquoted(word.1)) {
        Ok(pattern) => Ok(pattern),
        Err(Refusal::BadValue(_)) => Err(Refusal::BadValue(word.0)),
        Err(other) => Err(other),
    }
}

fn read_class(alloc: Global, word: &Word) -> Result<Name, Refusal>
    ensures { Answers result (class_at (word_view word.now)) }
{
    match Name::read(alloc, unquoted(word.1), 30) {
        Ok(name) => Ok(name),
        Err(Refusal::BadValue(_)) => Err(Refusal::BadValue(word.0)),
        Err(other) => Err(other),
    }
}

/// The class that follows a pattern, if one does.
fn class_of(alloc: Global, words: &[Word]) -> Result<Option<Name>, Refusal>
    ensures { Answers result (class_of (map word_view words.now)) }
{
    match words {
        [] => Ok(None),
        [word] => match read_class(alloc, word) {
            Ok(name) => Ok(Some(name)),
            Err(e) => Err(e),
        },
        [word, further, ..] => match read_class(alloc, word) {
            Ok(_) => Err(Refusal::Syntax(further.0)),
            Err(e) => Err(e),
        },
    }
}

/// The INCLUDE rule with this pattern and the class that follows it.
fn including(alloc: Global, pattern: Pattern, words: &[Word]) -> Result<Rule, Refusal>
    ensures { Answers result (include_of pattern (map word_view words.now)) }
{
    match class_of(alloc, words) {
        Ok(class) => Ok(Rule::Include { pattern, class }),
        Err(e) => Err(e),
    }
}

/// The EXCLUDE rule with this pattern, which nothing may follow.
fn excluding(pattern: Pattern, words: &[Word]) -> Result<Rule, Refusal>
    ensures { result ≡ exclude_of pattern (map word_view words.now) }
{
    match words {
        [] => Ok(Rule::Exclude { pattern }),
        [further, ..] => Err(Refusal::Syntax(further.0)),
    }
}

/// The rule behind its first word.
fn rule_behind(alloc: Global, verb: Verb, end: u32, words: &[Word]) -> Result<Rule, Refusal>
    ensures { Answers result (rule_behind verb end (map word_view words.now)) }
{
    let [word, rest @ ..] = words else {
        return Err(Refusal::Syntax(end));
    };
    match read_pattern(alloc, word) {
        Ok(pattern) => match verb {
            Verb::Including => including(alloc, pattern, rest),
            Verb::Excluding => excluding(pattern, rest),
        },
        Err(e) => Err(e),
    }
}

fn rule_of(alloc: Global, end: u32, words: &[Word]) -> Result<Rule, Refusal>
    ensures { Answers result (rule_of end (map word_view words.now)) }
{
    let [word, rest @ ..] = words else {
        return Err(Refusal::Syntax(end));
    };
    match read_verb(word) {
        Ok(verb) => rule_behind(alloc, verb, end, rest),
        Err(e) => Err(e),
    }
}

/// The rule of a line that begins behind `first` bytes of its file.
#[tactic(auto, unfolding(crate::specs::RuleText::rule_at))]
fn rule_at(alloc: Global, first: u32, line: &[u8]) -> Result<Rule, Refusal>
    requires { first + length line.now < 2 ^ 32 - 1 }
    ensures { Answers result (rule_at first line.now) }
{
    let words = words_behind(alloc, first, line)?;
    match torn_at(words.as_slice()) {
        Some(place) => Err(Refusal::Syntax(place)),
        None => rule_of(alloc, first + line.len() as u32 + 1, words.as_slice()),
    }
}

/// The line without the carriage return at its end.
fn without_return(line: &[u8]) -> &[u8]
    ensures value { result.now ≡ strip_carriage_return line.now }
    ensures short { length result.now ≤ length line.now }
{
    match line {
        [front @ .., b'\r'] => front,
        _ => line,
    }
}

/// The line that a part of the text is, where this is left behind the part: only one before a line feed loses its carriage
/// return.
fn line_of<'a>(part: &'a [u8], left: &[u8]) -> &'a [u8]
    ensures value { result.now ≡ line_of part.now left.now }
    ensures short { length result.now ≤ length part.now }
{
    if left.is_empty() {
        part
    } else {
        without_return(part)
    }
}

/// Adds the rule of a line that begins behind `first` bytes of its file, unless it is a comment.
fn add_rule(alloc: Global, rules: &mut Vec<Rule>, first: u32, line: &[u8]) -> Result<(), Refusal>
    requires { first + length line.now < 2 ^ 32 - 1 }
    ensures { Adds result rules.old.items rules.new.items (rules_at first line.now) }
{
    if is_comment(line) {
        return Ok(());
    }
    match rule_at(alloc, first, line) {
        Ok(rule) => {
            rules.push(rule)?;
            Ok(())
        }
        Err(e) => Err(e),
    }
}

/// How many bytes stand before the first line feed.
fn line_len(text: &[u8]) -> usize
    ensures within { result ≤ length text.now }
    ensures before { (k : ℕ) → k < result → slice_index text.now k ≢ 10 }
    ensures end { result < length text.now → slice_index text.now result ≡ 10 }
{
    'bytes: for (at, byte) in text.iter().enumerate() {
        if *byte == b'\n' {
            return at;
        }
    }
    text.len()
}

/// What stands before the first line feed, and what is left from that on.
fn split_line(text: &[u8]) -> (&[u8], &[u8])
    ensures cut { parts text.now ≡ result.0.now ∷ parts_left result.1.now }
    ensures len { length result.0.now + length result.1.now ≡ length text.now }
{
    text.split_at(line_len(text))
}

/// Reads the rules of a rule file of fewer than 2^32 - 1 bytes. Lines, comments and words are those of a script.
///
/// The first word that offends is answered, by its place in the file, counted from 1: `Syntax` for quotes that are open or
/// that don't end their word, for a word that is missing, whose place is behind its line's last byte, or that may not
/// follow; `UnknownWord` for a first word that begins neither INCLUDE nor EXCLUDE; `BadValue` for a pattern that is none or
/// a class that is no name.
#[tactic(auto, using(crate::proofs::Lines::lines_placed))]
pub fn read_rules(alloc: Global, bytes: &[u8]) -> Result<Vec<Rule>, Refusal>
    requires { length bytes.now < 2 ^ 32 - 1 }
    ensures value { Reads (λ v. v.items) result (rules_of bytes.now) }

    // The lines are those of a script: one ends at its LF or CR LF, and what stands behind the last LF is taken as it is.
    ensures lines { map (λ l. l.1) (placed_lines bytes.now) ≡ lines bytes.now }
{
    let mut rules = Vec::new(alloc);
    let mut rest = bytes;
    let mut first = 0u32;
    'lines: loop {
        let (part, left) = split_line(rest);
        match add_rule(alloc, &mut rules, first, line_of(part, left)) {
            Ok(()) => {}
            Err(e) => return Err(e),
        }
        match left.split_first() {
            None => return Ok(rules),
            Some((_, others)) => {
                first += part.len() as u32 + 1;
                rest = others;
            }
        }
    }
}
