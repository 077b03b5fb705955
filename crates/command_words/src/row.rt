ghost use Rattle.std.specs.Prelude.{◌≡◌, ◌<◌, ◌≤◌, ◌==◌, length, map, drop, slice_index, [], IfOk, IfSome, IsTrue, is_some};
ghost use Rattle.std.specs.List.{position_from};
ghost use Rattle.std.specs.Option.{option_copied};
ghost use Rattle.command_words.specs.Reading.{Says, Reads};
ghost use Rattle.command_words.specs.Words.{word_view, is_quote, is_equals};
ghost use Rattle.command_words.specs.Rows.{place_view, slot_view, given_view, text_at, equals_at, value_for, first_value, is_for_place, place_taken, places_from, side_of, are_apart, are_opposed, settles, is_settled, is_needed, is_complete, slot_value, key_value, keyword, keywords_from, row_values};
ghost use Rattle.command_words.specs.Fit.{PlacesFit, KeywordsFit, SidesApart};

use crate::choice::{choose, is_front};
use crate::value::{Kind, Words, unquoted, valued};
use crate::words::{EQUALS, QUOTE, Word};
use kinds::Refusal;
use std::alloc::Global;

/// A place of a row, which a word from the left takes: the kind of its value, the words that it may be, and whether it must
/// be there.
pub type Place = (Kind, Words, bool);

/// A keyword of a row: its word in upper case, the kind of its value, the words that this may be, and whether it must be there.
pub type Slot = (&'static str, Kind, Words, Need);

/// The number of a place or of a keyword in its row, counted from 0, and the value that was given for it, without quotes.
pub type Given<'a> = (usize, &'a [u8]);

/// Whether a keyword must be there.
#[derive(Clone, Copy)]
pub enum Need {
    Optional,
    Required,
    /// The keywords of one side must be there, and none of another side.
    OneSide(u8),
    /// Keywords of one side may be there, and none of another side.
    AnySide(u8),
}

/// The value that was given under this number.
pub fn text_at<'a>(given: &[Given<'a>], at: usize) -> Option<&'a [u8]>
    ensures { option_copied result ≡ text_at at (map given_view given.now) }
{
    'given: for one in given {
        if one.0 == at {
            return Some(one.1);
        }
    }
    None
}

fn is_quoted(text: &[u8]) -> bool
    ensures { result ≡ is_quote (slice_index text.now 0) }
{
    text.first() == Some(&QUOTE)
}

fn first_equals(text: &[u8]) -> Option<usize>
    ensures value { result ≡ position_from is_equals 0 text.now }
    ensures within { IfSome result (λ at. at < length text.now) }
{
    text.iter().position(|byte| *byte == EQUALS)
}

/// Where the equals sign stands that makes a word a keyword and its value.
fn equals_at(text: &[u8]) -> Option<usize>
    ensures value { result ≡ equals_at text.now }
    ensures within { IfSome result (λ at. at < length text.now) }
{
    if is_quoted(text) {
        None
    } else {
        first_equals(text)
    }
}

/// The value that a word gives for this keyword, whole or by a front of it.
fn value_for<'a>(key: &[u8], text: &'a [u8]) -> Option<&'a [u8]>
    ensures { option_copied result ≡ value_for key.now text.now (equals_at text.now) }
{
    match equals_at(text) {
        None => None,
        Some(at) => {
            if is_front(key, &text[..at]) {
                Some(unquoted(&text[at + 1..]))
            } else {
                None
            }
        }
    }
}

/// The value that the first word which gives this keyword, whole or by a front of it, has; whatever else the words are. The keyword is in upper
/// case. It takes no memory.
pub fn first_value<'a>(key: &[u8], words: &[Word<'a>]) -> Option<&'a [u8]>
    ensures { option_copied result ≡ first_value key.now (map word_view words.now) }
{
    'words: for word in words {
        match value_for(key, word.1) {
            Some(value) => return Some(value),
            None => {}
        }
    }
    None
}

fn is_keyword(text: &[u8]) -> bool
    ensures { result ≡ is_some (equals_at text.now) }
{
    match equals_at(text) {
        Some(_) => true,
        None => false,
    }
}

fn is_for_place(place: &Place, text: &[u8]) -> bool
    ensures { result ≡ is_for_place (place_view place.now) text.now }
{
    place.2 || !is_keyword(text)
}

/// Takes the next word for a place of this number, if it is one for it, and answers how many words it took.
fn take_place<'a>(
    given: &mut Vec<Given<'a>>,
    at: usize,
    place: &Place,
    end: u32,
    words: &[Word<'a>],
) -> Result<usize, Refusal>
    ensures value { Reads (λ n. (map given_view given.new.items, map word_view (drop n words.now))) result (place_taken (place_view place.now) end at (map given_view given.old.items) (map word_view words.now)) }
    ensures within { IfOk result (λ n. n ≤ length words.now) }
{
    match words {
        [] => {
            if place.2 {
                Err(Refusal::Syntax(end))
            } else {
                Ok(0)
            }
        }
        [word, ..] => {
            if is_for_place(place, word.1) {
                match valued(place.0, place.1, word.0, unquoted(word.1)) {
                    Err(refusal) => Err(refusal),
                    Ok(text) => {
                        given.push((at, text))?;
                        Ok(1)
                    }
                }
            } else {
                Ok(0)
            }
        }
    }
}

/// What the words give for the places, and how many words these took.
fn read_places<'a>(
    alloc: Global,
    places: &[Place],
    end: u32,
    words: &[Word<'a>],
) -> Result<(Vec<Given<'a>>, usize), Refusal>
    ensures value { Reads (λ r. (map given_view r.0.items, map word_view (drop r.1 words.now))) result (places_from end 0 (map place_view places.now) [] (map word_view words.now)) }
    ensures within { IfOk result (λ r. r.1 ≤ length words.now) }
{
    let mut given = Vec::new(alloc);
    let mut used = 0;
    'places: for (at, place) in places.iter().enumerate() {
        used += take_place(&mut given, at, place, end, &words[used..])?;
    }
    Ok((given, used))
}

fn side_of(need: Need) -> Option<u8>
    ensures { result ≡ side_of need }
{
    match need {
        Need::OneSide(n) | Need::AnySide(n) => Some(n),
        Need::Optional | Need::Required => None,
    }
}

fn are_apart(a: Option<u8>, b: Option<u8>) -> bool
    ensures { result ≡ are_apart a b }
{
    match (a, b) {
        (Some(m), Some(n)) => m != n,
        _ => false,
    }
}

fn are_opposed(a: Need, b: Need) -> bool
    ensures { result ≡ are_opposed a b }
{
    are_apart(side_of(a), side_of(b))
}

fn is_given(given: &[Given], at: usize) -> bool
    ensures { result ≡ is_some (text_at at (map given_view given.now)) }
{
    match text_at(given, at) {
        Some(_) => true,
        None => false,
    }
}

/// Whether the keyword of number `at` was given, and it is the keyword `key`, or one of another side.
fn settles(need: Need, key: usize, given: &[Given], at: usize, slot: &Slot) -> bool
    ensures { result ≡ settles need key (map given_view given.now) at (slot_view slot.now) }
{
    is_given(given, at) && (at == key || are_opposed(need, slot.3))
}

/// Whether the keyword of this number was given, or one of another side was.
fn is_settled(need: Need, key: usize, given: &[Given], slots: &[Slot]) -> bool
    ensures { result ≡ is_settled need key (map given_view given.now) 0 (map slot_view slots.now) }
{
    'slots: for (at, slot) in slots.iter().enumerate() {
        if settles(need, key, given, at, slot) {
            return true;
        }
    }
    false
}

fn is_needed(need: Need) -> bool
    ensures { result ≡ is_needed need }
{
    matches!(need, Need::Required | Need::OneSide(_))
}

/// Whether each keyword that is needed is settled.
fn is_complete(slots: &[Slot], given: &[Given]) -> bool
    ensures { result ≡ is_complete (map slot_view slots.now) (map given_view given.now) 0 (map slot_view slots.now) }
{
    'slots: for (at, slot) in slots.iter().enumerate() {
        if is_needed(slot.3) && !is_settled(slot.3, at, given, slots) {
            return false;
        }
    }
    true
}

/// The number of the keyword that was chosen, and its value.
fn slot_value<'a>(
    slots: &[Slot],
    given: &[Given],
    column: u32,
    value: &'a [u8],
    at: usize,
    slot: &Slot,
) -> Result<Given<'a>, Refusal>
    ensures { Says given_view result (slot_value (map slot_view slots.now) (map given_view given.now) column value.now at (slot_view slot.now)) }
{
    if is_settled(slot.3, at, given, slots) {
        return Err(Refusal::Syntax(column));
    }
    match valued(slot.1, slot.2, column, value) {
        Err(refusal) => Err(refusal),
        Ok(text) => Ok((at, text)),
    }
}

/// The number of the keyword of this name, and its value.
fn key_value<'a>(
    slots: &[Slot],
    given: &[Given],
    column: u32,
    key: &[u8],
    value: &'a [u8],
) -> Result<Given<'a>, Refusal>
    ensures { Says given_view result (key_value (map slot_view slots.now) (map given_view given.now) column key.now value.now) }
{
    if key.is_empty() {
        return Err(Refusal::Syntax(column));
    }
    match choose(column, key, slots) {
        Err(refusal) => Err(refusal),
        Ok(at) => slot_value(slots, given, column, value, at, &slots[at]),
    }
}

/// The number of the keyword that a word gives, and its value.
fn keyword<'a>(slots: &[Slot], given: &[Given], word: &Word<'a>) -> Result<Given<'a>, Refusal>
    ensures { Says given_view result (keyword (map slot_view slots.now) (map given_view given.now) (word_view word.now)) }
{
    match equals_at(word.1) {
        None => Err(Refusal::Syntax(word.0)),
        Some(at) => key_value(
            slots,
            given,
            word.0,
            &word.1[..at],
            unquoted(&word.1[at + 1..]),
        ),
    }
}

/// What the words give for the keywords.
fn read_keywords<'a>(
    alloc: Global,
    slots: &[Slot],
    end: u32,
    words: &[Word<'a>],
) -> Result<Vec<Given<'a>>, Refusal>
    ensures { Reads (λ r. map given_view r.items) result (keywords_from (map slot_view slots.now) end [] (map word_view words.now)) }
{
    let mut given = Vec::new(alloc);
    'words: for word in words {
        let next = keyword(slots, given.as_slice(), word)?;
        given.push(next)?;
    }
    if is_complete(slots, given.as_slice()) {
        Ok(given)
    } else {
        Err(Refusal::Syntax(end))
    }
}

/// What the words of a line behind its command's give for the places and for the keywords of a row, or the refusal at the
/// first offending word. A missing word has the column `end`.
pub fn row_values<'a>(
    alloc: Global,
    places: &[Place],
    slots: &[Slot],
    end: u32,
    words: &[Word<'a>],
) -> Result<(Vec<Given<'a>>, Vec<Given<'a>>), Refusal>
    ensures value { Reads (λ r. (map given_view r.0.items, map given_view r.1.items)) result (row_values (map place_view places.now) (map slot_view slots.now) end (map word_view words.now)) }

    // What was given is a value of its kind, and what must be there was given.
    ensures places_fit { IfOk result (λ r. PlacesFit (map place_view places.now) (map given_view r.0.items)) }
    ensures keywords_fit { IfOk result (λ r. KeywordsFit (map slot_view slots.now) (map given_view r.1.items)) }

    // Of the sides of a row, all of one was given where one must be, and nothing of two.
    ensures complete { IfOk result (λ r. IsTrue (is_complete (map slot_view slots.now) (map given_view r.1.items) 0 (map slot_view slots.now))) }
    ensures apart { IfOk result (λ r. SidesApart (map slot_view slots.now) (map given_view r.1.items)) }
{
    let (given, used) = read_places(alloc, places, end, words)?;
    let keys = read_keywords(alloc, slots, end, &words[used..])?;
    Ok((given, keys))
}
