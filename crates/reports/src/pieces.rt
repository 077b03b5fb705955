// What printed lines are made of. Each function adds a piece at the end of a text; its one refusal is want of memory.
ghost use Rattle.std.specs.Prelude.{◌≡◌, ◌++◌, codes, decimal};
ghost use Rattle.inventory_work.specs.Lists.{Writes};
ghost use Rattle.reports.specs.Pieces.{is_plain, escaped_byte, escaped, digits, yes_or_no, or_dash, number_or_dash};

use itoa::Buffer;
use kinds::{Digest, NameOf, Refusal};

/// These words.
pub(crate) fn put_words(text: &mut Vec<u8>, words: &[u8]) -> Result<(), Refusal>
    ensures { Writes result text.old.items text.new.items words.now }
{
    text.extend_from_slice(words)?;
    Ok(())
}

/// These words, and a word that is printed as it is.
pub(crate) fn put_word(text: &mut Vec<u8>, words: &[u8], word: &[u8]) -> Result<(), Refusal>
    ensures { Writes result text.old.items text.new.items (words.now ++ word.now) }
{
    text.extend_from_slice(words)?;
    text.extend_from_slice(word)?;
    Ok(())
}

/// These words, and a number.
pub(crate) fn put_number(text: &mut Vec<u8>, words: &[u8], n: u64) -> Result<(), Refusal>
    ensures { Writes result text.old.items text.new.items (words.now ++ decimal n) }
{
    let mut digits = Buffer::new();
    put_word(text, words, digits.format(n).as_bytes())
}

/// Two numbers, each behind its words.
pub(crate) fn put_two_numbers(
    text: &mut Vec<u8>,
    first_words: &[u8],
    first: u64,
    second_words: &[u8],
    second: u64,
) -> Result<(), Refusal>
    ensures { Writes result text.old.items text.new.items (first_words.now ++ decimal first ++ second_words.now ++ decimal second) }
{
    put_number(text, first_words, first)?;
    put_number(text, second_words, second)?;
    Ok(())
}

/// Three numbers, each behind its words.
pub(crate) fn put_three_numbers(
    text: &mut Vec<u8>,
    first_words: &[u8],
    first: u64,
    second_words: &[u8],
    second: u64,
    third_words: &[u8],
    third: u64,
) -> Result<(), Refusal>
    ensures { Writes result text.old.items text.new.items (first_words.now ++ decimal first ++ second_words.now ++ decimal second ++ third_words.now ++ decimal third) }
{
    put_two_numbers(text, first_words, first, second_words, second)?;
    put_number(text, third_words, third)?;
    Ok(())
}

/// These words, and a name, or `-` where there is none.
pub(crate) fn put_or_dash<const MOST: u32>(
    text: &mut Vec<u8>,
    words: &[u8],
    name: &Option<NameOf<MOST>>,
) -> Result<(), Refusal>
    ensures { Writes result text.old.items text.new.items (words.now ++ or_dash name.now) }
{
    match name {
        Some(name) => put_word(text, words, name.as_bytes()),
        None => put_word(text, words, b"-"),
    }
}

/// These words, and a number, or `-` where there is none.
pub(crate) fn put_number_or_dash(
    text: &mut Vec<u8>,
    words: &[u8],
    n: Option<u64>,
) -> Result<(), Refusal>
    ensures { Writes result text.old.items text.new.items (words.now ++ number_or_dash n) }
{
    match n {
        Some(n) => put_number(text, words, n),
        None => put_word(text, words, b"-"),
    }
}

/// These words, and the digits of a digest.
pub(crate) fn put_digest(text: &mut Vec<u8>, words: &[u8], digest: &Digest) -> Result<(), Refusal>
    ensures { Writes result text.old.items text.new.items (words.now ++ digits digest.now) }
{
    let digits = hex::encode(*text.allocator(), digest.0.as_slice())?;
    put_word(text, words, digits.as_bytes())
}

/// The digits of two digests, each behind its words.
pub(crate) fn put_two_digests(
    text: &mut Vec<u8>,
    first_words: &[u8],
    first: &Digest,
    second_words: &[u8],
    second: &Digest,
) -> Result<(), Refusal>
    ensures { Writes result text.old.items text.new.items (first_words.now ++ digits first.now ++ second_words.now ++ digits second.now) }
{
    put_digest(text, first_words, first)?;
    put_digest(text, second_words, second)?;
    Ok(())
}

/// The word for a yes or no.
pub(crate) fn yes_or_no(yes: bool) -> &'static [u8]
    ensures { result.now ≡ yes_or_no yes }
{
    if yes { b"YES" } else { b"NO" }
}

fn is_plain(byte: u8) -> bool
    ensures { result ≡ is_plain byte }
{
    byte > b' ' && byte != 127 && byte != b'%'
}

fn put_escaped_byte(text: &mut Vec<u8>, byte: u8) -> Result<(), Refusal>
    ensures { Writes result text.old.items text.new.items (escaped_byte byte) }
{
    if is_plain(byte) {
        text.push(byte)?;
        return Ok(());
    }
    let digits = hex::encode_upper(*text.allocator(), [byte].as_slice())?;
    put_word(text, b"%", digits.as_bytes())
}

fn put_escaped(text: &mut Vec<u8>, path: &[u8]) -> Result<(), Refusal>
    ensures { Writes result text.old.items text.new.items (escaped path.now) }
{
    'bytes: for byte in path {
        put_escaped_byte(text, *byte)?;
    }
    Ok(())
}

/// These words, and a path or a filespace name.
pub(crate) fn put_path(text: &mut Vec<u8>, words: &[u8], path: &[u8]) -> Result<(), Refusal>
    ensures { Writes result text.old.items text.new.items (words.now ++ escaped path.now) }
{
    text.extend_from_slice(words)?;
    put_escaped(text, path)?;
    Ok(())
}
