ghost use Rattle.std.specs.Prelude.{◌≡◌, ◌+◌, ◌-◌, ◌<◌, ◌≤◌, ◌^◌, ◌++◌, length, map, IfOk, OnOk};
ghost use Rattle.command_words.specs.Words.{word_view, is_blank, spot_in_word, spot_after, is_between, is_sound, ended, words_behind, words, torn_at};

use std::alloc::{AllocError, Global};

/// A double quote, in which a value may stand.
pub const QUOTE: u8 = b'"';

/// The sign between a keyword and its value.
pub const EQUALS: u8 = b'=';

const SPACE: u8 = b' ';

const TAB: u8 = b'\t';

/// A word of a line: the column of its first byte, counted from 1, or its place in a file of several lines; its bytes with
/// their quotes; and whether its quotes are closed and end the word.
pub type Word<'a> = (u32, &'a [u8], bool);

/// Where a byte of a line stands.
#[derive(Clone, Copy)]
pub enum Spot {
    /// Between words.
    Between,
    /// In a word, at or before its first equals sign.
    Plain,
    /// It is the first equals sign of its word.
    Equals,
    /// Behind that sign, without quotes.
    Bare,
    /// In quotes.
    Quoted,
    /// It is the quote that closes them.
    Closed,
    /// Behind that quote, in the same word.
    Torn,
}

/// Whether a byte separates words.
pub fn is_blank(byte: u8) -> bool
    ensures { result ≡ is_blank byte }
{
    byte == SPACE || byte == TAB
}

fn spot_in_word(spot: Spot, byte: u8) -> Spot
    ensures { result ≡ spot_in_word spot byte }
{
    match spot {
        Spot::Between => {
            if byte == QUOTE {
                Spot::Quoted
            } else if byte == EQUALS {
                Spot::Equals
            } else {
                Spot::Plain
            }
        }
        Spot::Plain => {
            if byte == EQUALS {
                Spot::Equals
            } else {
                Spot::Plain
            }
        }
        Spot::Equals => {
            if byte == QUOTE {
                Spot::Quoted
            } else {
                Spot::Bare
            }
        }
        Spot::Bare => Spot::Bare,
        Spot::Quoted => Spot::Quoted,
        Spot::Closed => Spot::Torn,
        Spot::Torn => Spot::Torn,
    }
}

fn spot_after(spot: Spot, byte: u8) -> Spot
    ensures { result ≡ spot_after spot byte }
{
    match spot {
        Spot::Quoted => {
            if byte == QUOTE {
                Spot::Closed
            } else {
                Spot::Quoted
            }
        }
        other => {
            if is_blank(byte) {
                Spot::Between
            } else {
                spot_in_word(other, byte)
            }
        }
    }
}

fn is_between(spot: Spot) -> bool
    ensures { result ≡ is_between spot }
{
    matches!(spot, Spot::Between)
}

fn is_sound(spot: Spot) -> bool
    ensures { result ≡ is_sound spot }
{
    !matches!(spot, Spot::Quoted | Spot::Torn)
}

/// Adds the word that ends before place `at` of the line, if one does.
fn end_word<'a>(
    words: &mut Vec<Word<'a>>,
    first: u32,
    line: &'a [u8],
    spot: Spot,
    start: usize,
    at: usize,
) -> Result<(), AllocError>
    requires short { first + length line.now < 2 ^ 32 - 1 }
    requires ordered { start ≤ at }
    requires inside { at ≤ length line.now }
    ensures { OnOk result (map word_view words.new.items ≡ map word_view words.old.items ++ ended first line.now spot start at) }
{
    if is_between(spot) {
        return Ok(());
    }
    words.push((first + start as u32 + 1, &line[start..at], is_sound(spot)))?;
    Ok(())
}

/// The words of a line that begins behind `first` bytes of its file, each with its place in the file, counted from 1. The
/// line ends before byte 2^32 - 1 of the file.
pub fn words_behind<'a>(
    alloc: Global,
    first: u32,
    line: &'a [u8],
) -> Result<Vec<Word<'a>>, AllocError>
    requires { first + length line.now < 2 ^ 32 - 1 }
    ensures { IfOk result (λ found. map word_view found.items ≡ words_behind first line.now) }
{
    let mut words = Vec::new(alloc);
    let mut spot = Spot::Between;
    let mut start = 0;
    'bytes: for (at, byte) in line.iter().enumerate() {
        let next = spot_after(spot, *byte);
        if is_between(next) {
            end_word(&mut words, first, line, spot, start, at)?;
        } else if is_between(spot) {
            start = at;
        }
        spot = next;
    }
    end_word(&mut words, first, line, spot, start, line.len())?;
    Ok(words)
}

/// The words of a line of fewer than 2^32 - 1 bytes.
pub fn words_of<'a>(alloc: Global, line: &'a [u8]) -> Result<Vec<Word<'a>>, AllocError>
    requires { length line.now < 2 ^ 32 - 1 }
    ensures { IfOk result (λ found. map word_view found.items ≡ words line.now) }
{
    words_behind(alloc, 0, line)
}

/// The column of the first word whose quotes are open, or that goes on behind them.
pub fn torn_at(words: &[Word]) -> Option<u32>
    ensures { result ≡ torn_at (map word_view words.now) }
{
    'words: for word in words {
        if !word.2 {
            return Some(word.0);
        }
    }
    None
}
