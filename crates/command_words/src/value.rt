ghost use Rattle.std.specs.Prelude.{◌≡◌, ◌≤◌, ◌<◌, ◌^◌, ◌*◌, ◌-◌, map, length, take, IsTrue};
ghost use Rattle.std.specs.Str.{str_to_ascii_uppercase, is_utf8};
ghost use Rattle.std.specs.List.{list_all};
ghost use Rattle.kinds.specs.Names.{is_within, is_name_byte, is_name};
ghost use Rattle.kinds.specs.Paths.{is_rooted, has_no_zero, is_path};
ghost use Rattle.kinds.specs.Texts.{is_text};
ghost use Rattle.command_words.specs.Reading.{Says};
ghost use Rattle.command_words.specs.Values.{unquoted, decimal, unit_of, last_unit, times, size, is_between, is_no_limit, fits, has_words, one_of, valued};

use crate::choice::{choose, is_front};
use crate::words::QUOTE;
use kinds::Refusal;
use std::str;

/// Words of which one may stand as a value.
pub type Words = &'static [&'static str];

/// What may stand as a value.
#[derive(Clone, Copy)]
pub enum Kind {
    /// A name of 1 to 30 characters.
    Name,
    /// The name of a node.
    NodeName,
    /// A name, or an empty text.
    NameOrNone,
    /// The path of a client file.
    Path,
    /// The name of a filespace.
    FilespaceName,
    /// A pattern of paths: 1 to 1,024 bytes that begin with a slash.
    Pattern,
    /// A number of 1 to 10 digits in this range.
    Number { least: u64, most: u64 },
    /// A size in bytes in this range: 1 to 13 digits, and behind them perhaps K, M, G or T, the powers of 1,024.
    Size { least: u64, most: u64 },
    /// A number in this range, or NOLIMIT.
    Limit { least: u64, most: u64 },
    /// A size in this range, or NOLIMIT.
    SizeLimit { least: u64, most: u64 },
    /// Any text of so many bytes.
    Text { least: u32, most: u32 },
    /// What a client says of an object that it archives: at most 255 bytes of UTF-8.
    Description,
    /// One of the words that are listed beside the kind.
    OneOf,
}

/// A value without the quotes that it stands in.
pub fn unquoted(text: &[u8]) -> &[u8]
    ensures { result.now ≡ unquoted text.now }
{
    if text.len() >= 2 && text[0] == QUOTE {
        &text[1..text.len() - 1]
    } else {
        text
    }
}

fn is_within(text: &[u8], most: u32) -> bool
    ensures value { result ≡ is_within most text.now }
    ensures bound { IsTrue result → length text.now ≤ most }
{
    !text.is_empty() && text.len() <= most as usize
}

fn is_name_byte(byte: u8) -> bool
    ensures { result ≡ is_name_byte byte }
{
    byte.is_ascii_uppercase()
        || byte.is_ascii_digit()
        || matches!(byte, b'_' | b'.' | b'-' | b'+' | b'&')
}

/// Whether each byte may stand in a name once it is in upper case.
fn all_fold(text: &[u8]) -> bool
    ensures { result ≡ list_all is_name_byte (str_to_ascii_uppercase text.now) }
{
    text.iter()
        .map(|b| b.to_ascii_uppercase())
        .all(is_name_byte)
}

/// Whether the text is a name once its letters are in upper case.
pub fn folds_to_name(text: &[u8], most: u32) -> bool
    ensures { result ≡ is_name most (str_to_ascii_uppercase text.now) }
{
    is_within(text, most) && all_fold(text)
}

fn is_rooted(text: &[u8]) -> bool
    ensures { result ≡ is_rooted text.now }
{
    text.first() == Some(&b'/')
}

fn has_no_zero(text: &[u8]) -> bool
    ensures { result ≡ has_no_zero text.now }
{
    !text.contains(&0)
}

fn is_utf8(text: &[u8]) -> bool
    ensures { result ≡ is_utf8 text.now }
{
    match str::from_utf8(text) {
        Ok(_) => true,
        Err(_) => false,
    }
}

pub fn is_path(text: &[u8], most: u32) -> bool
    ensures { result ≡ is_path most text.now }
{
    text.len() <= most as usize && is_rooted(text) && has_no_zero(text) && is_utf8(text)
}

fn is_description(text: &[u8]) -> bool
    ensures { result ≡ is_text text.now }
{
    text.len() <= 255 && is_utf8(text)
}

/// The number that 1 to `most` decimal digits write; none where the text is something else.
pub fn decimal(text: &[u8], most: u32) -> Option<u64>
    requires { most ≤ 13 }
    ensures { result ≡ decimal most text.now }
{
    if !is_within(text, most) {
        return None;
    }
    let mut number: u64 = 0;
    'digits: for (at, byte) in text.iter().enumerate() {
        if !byte.is_ascii_digit() {
            return None;
        }
        number = 10 * number + (*byte - b'0') as u64;
    }
    Some(number)
}

fn unit_of(letter: u8) -> u64
    ensures { result ≡ unit_of letter }
{
    match letter {
        b'K' => 1 << 10,
        b'M' => 1 << 20,
        b'G' => 1 << 30,
        b'T' => 1 << 40,
        _ => 1,
    }
}

fn last_unit(text: &[u8]) -> u64
    ensures { result ≡ last_unit text.now }
{
    match text.last() {
        Some(byte) => unit_of(byte.to_ascii_uppercase()),
        None => 1,
    }
}

fn times(number: Option<u64>, unit: u64) -> Option<u64>
    ensures { result ≡ times unit number }
{
    match number {
        Some(n) => n.checked_mul(unit),
        None => None,
    }
}

/// How many bytes a size stands for; none where the text is no size, or one of 2^64 bytes or more.
pub fn size(text: &[u8]) -> Option<u64>
    ensures { result ≡ size text.now }
{
    let unit = last_unit(text);
    if unit == 1 {
        times(decimal(text, 13), unit)
    } else {
        times(decimal(without_last(text), 13), unit)
    }
}

fn without_last(text: &[u8]) -> &[u8]
    ensures { result.now ≡ take (length text.now - 1) text.now }
{
    if text.is_empty() {
        text
    } else {
        &text[..text.len() - 1]
    }
}

fn is_between(number: Option<u64>, least: u64, most: u64) -> bool
    ensures { result ≡ is_between least most number }
{
    match number {
        Some(n) => least <= n && n <= most,
        None => false,
    }
}

/// Whether the text is NOLIMIT, or begins it.
pub fn is_no_limit(text: &[u8]) -> bool
    ensures { result ≡ is_no_limit text.now }
{
    is_front(b"NOLIMIT", text)
}

fn fits(kind: Kind, text: &[u8]) -> bool
    ensures { result ≡ fits kind text.now }
{
    match kind {
        Kind::Name => folds_to_name(text, 30),
        Kind::NodeName => folds_to_name(text, 64),
        Kind::NameOrNone => text.is_empty() || folds_to_name(text, 30),
        Kind::Path => is_path(text, 1024),
        Kind::FilespaceName => is_path(text, 64),
        Kind::Pattern => is_within(text, 1024) && is_rooted(text),
        Kind::Number { least, most } => is_between(decimal(text, 10), least, most),
        Kind::Size { least, most } => is_between(size(text), least, most),
        Kind::Limit { least, most } => {
            is_no_limit(text) || is_between(decimal(text, 10), least, most)
        }
        Kind::SizeLimit { least, most } => is_no_limit(text) || is_between(size(text), least, most),
        Kind::Text { least, most } => least as usize <= text.len() && text.len() <= most as usize,
        Kind::Description => is_description(text),
        Kind::OneOf => false,
    }
}

fn has_words(kind: Kind) -> bool
    ensures { result ≡ has_words kind }
{
    matches!(kind, Kind::OneOf)
}

/// The text, where it is one of the words or begins just one of them.
fn one_of<'a>(words: &[&'static str], column: u32, text: &'a [u8]) -> Result<&'a [u8], Refusal>
    ensures { Says (λ t. t.now) result (one_of (map (λ w. w.now) words.now) column text.now) }
{
    if text.is_empty() {
        return Err(Refusal::BadValue(column));
    }
    choose(column, text, words)?;
    Ok(text)
}

/// The text, where it is a value of its kind; else the refusal at its word's column. It takes no memory.
pub fn valued<'a>(
    kind: Kind,
    words: &[&'static str],
    column: u32,
    text: &'a [u8],
) -> Result<&'a [u8], Refusal>
    ensures { Says (λ t. t.now) result (valued kind (map (λ w. w.now) words.now) column text.now) }
{
    if has_words(kind) {
        one_of(words, column, text)
    } else if fits(kind, text) {
        Ok(text)
    } else {
        Err(Refusal::BadValue(column))
    }
}
