//! The table of commands, a line for each: its words, then its places by the kinds of their values, and then its keywords. What
//! may be missing stands in brackets, and a bar stands between keywords of which only one side is given.
use admin_words::table::{Form, Noun, archive_row, nouns_of, verbs_of};
use command_words::{Kind, Need, Place, Slot, Words};
use std::alloc::{AllocError, Global};

/// The words with bars between them.
fn alternatives(alloc: Global, words: Words) -> Result<String, AllocError> {
    let mut out = String::new(alloc);
    for word in words {
        if !out.is_empty() {
            out.push_str("|")?;
        }
        out.push_str(word)?;
    }
    Ok(out)
}

/// What may stand as a value.
fn value(alloc: Global, kind: Kind, words: Words) -> Result<String, AllocError> {
    match kind {
        Kind::Name => String::from_str(alloc, "name"),
        Kind::NodeName => String::from_str(alloc, "node"),
        Kind::NameOrNone => String::from_str(alloc, "name|\"\""),
        Kind::Path => String::from_str(alloc, "path"),
        Kind::FilespaceName => String::from_str(alloc, "filespace"),
        Kind::Pattern => String::from_str(alloc, "pattern"),
        Kind::Number { least, most } => format!(in alloc; "{least}..{most}"),
        Kind::Size { least, most } => format!(in alloc; "size:{least}..{most}"),
        Kind::Limit { least, most } => format!(in alloc; "{least}..{most}|NOLIMIT"),
        Kind::SizeLimit { least, most } => format!(in alloc; "size:{least}..{most}|NOLIMIT"),
        Kind::Text { least, most } => format!(in alloc; "text:{least}..{most}"),
        Kind::Description => String::from_str(alloc, "description"),
        Kind::OneOf => alternatives(alloc, words),
    }
}

/// A place by what may stand there.
fn place_text(alloc: Global, place: &Place) -> Result<String, AllocError> {
    let value = value(alloc, place.0, place.1)?;
    if place.2 {
        format!(in alloc; " {value}")
    } else {
        format!(in alloc; " [{value}]")
    }
}

/// The side on which a keyword stands, where only one side is given.
fn side(need: Need) -> Option<u8> {
    match need {
        Need::OneSide(n) | Need::AnySide(n) => Some(n),
        Need::Optional | Need::Required => None,
    }
}

/// A keyword with what may stand as its value.
fn slot_text(alloc: Global, slot: &Slot) -> Result<String, AllocError> {
    let value = value(alloc, slot.1, slot.2)?;
    match slot.3 {
        Need::Optional | Need::AnySide(_) => format!(in alloc; " [{}={value}]", slot.0),
        Need::Required | Need::OneSide(_) => format!(in alloc; " {}={value}", slot.0),
    }
}

/// The keywords of a row.
fn slots_text(alloc: Global, slots: &[Slot]) -> Result<String, AllocError> {
    let mut out = String::new(alloc);
    let mut before = None;
    for slot in slots {
        let here = side(slot.3);
        if before.is_some() && here != before {
            out.push_str(" |")?;
        }
        before = here;
        out.push_str(slot_text(alloc, slot)?.as_str())?;
    }
    Ok(out)
}

/// The line of a row.
fn row_text(alloc: Global, verb: &str, noun: &Noun) -> Result<String, AllocError> {
    let mut out = String::from_str(alloc, verb)?;
    if !noun.0.is_empty() {
        out.push_str(" ")?;
        out.push_str(noun.0)?;
    }
    for place in noun.2 {
        out.push_str(place_text(alloc, place)?.as_str())?;
    }
    out.push_str(slots_text(alloc, noun.3)?.as_str())?;
    Ok(out)
}

/// Adds a line for the row that stands in the place of this command's where TYPE is ARCHIVE, if there is one.
fn add_archive_row(
    alloc: Global,
    out: &mut String,
    verb: &str,
    form: Form,
) -> Result<(), AllocError> {
    if let Some(noun) = archive_row(form) {
        let line = row_text(alloc, verb, &noun)?;
        write!(out, "\n{line}")?;
    }
    Ok(())
}

/// Adds a line for each row outside blocks.
fn add_rows(alloc: Global, out: &mut String) -> Result<(), AllocError> {
    for verb in verbs_of(false) {
        for noun in nouns_of(verb.1) {
            let line = row_text(alloc, verb.0, noun)?;
            write!(out, "\n{line}")?;
            add_archive_row(alloc, out, verb.0, noun.1)?;
        }
    }
    Ok(())
}

/// Whether a first word is possible in a block, or outside one.
fn is_possible(word: &str, in_block: bool) -> bool {
    verbs_of(in_block).iter().any(|verb| verb.0 == word)
}

/// Adds a line for each first word that is possible only in a block, or only outside one.
fn add_words(out: &mut String, in_block: bool, what: &str) -> Result<(), AllocError> {
    for verb in verbs_of(in_block) {
        if !is_possible(verb.0, !in_block) {
            write!(out, "\n{what}: {}", verb.0)?;
        }
    }
    Ok(())
}

/// The lines of the table, each behind a line feed.
pub fn lines(alloc: Global) -> Result<String, AllocError> {
    let mut out = String::new(alloc);
    add_rows(alloc, &mut out)?;
    add_words(&mut out, true, "in a block alone")?;
    add_words(&mut out, false, "not in a block")?;
    Ok(out)
}
