// Refusals as they are printed.
ghost use Rattle.std.specs.Prelude.{◌≡◌};
ghost use Rattle.inventory_work.specs.Lists.{Writes};
ghost use Rattle.reports.specs.Refusals.{word_of, by_field, holder_field, fields_of, refusal_text};

use crate::pieces::{put_number, put_two_digests, put_two_numbers, put_word, put_words};
use kinds::{By, Holder, Refusal};

fn word_of(refusal: &Refusal) -> &'static [u8]
    ensures { result.now ≡ word_of refusal.now }
{
    match refusal {
        Refusal::Syntax(_) => b"Syntax",
        Refusal::UnknownWord(_) => b"UnknownWord",
        Refusal::Ambiguous(_) => b"Ambiguous",
        Refusal::BadValue(_) => b"BadValue",
        Refusal::NotFound => b"NotFound",
        Refusal::Exists => b"Exists",
        Refusal::InUse(_) => b"InUse",
        Refusal::NoDefaultClass => b"NoDefaultClass",
        Refusal::BadHierarchy => b"BadHierarchy",
        Refusal::DayBack { .. } => b"DayBack",
        Refusal::NoBackupGroup => b"NoBackupGroup",
        Refusal::NoArchiveGroup => b"NoArchiveGroup",
        Refusal::NoSpace(_) => b"NoSpace",
        Refusal::Busy(_) => b"Busy",
        Refusal::Stale(_) => b"Stale",
        Refusal::Gone(_) => b"Gone",
        Refusal::Unavailable => b"Unavailable",
        Refusal::WriteFault(_) => b"WriteFault",
        Refusal::TreeFault => b"TreeFault",
        Refusal::Changed { .. } => b"Changed",
        Refusal::DigestDiffers { .. } => b"DigestDiffers",
        Refusal::TooLarge => b"TooLarge",
        Refusal::RecordFull => b"RecordFull",
        Refusal::InventoryFull => b"InventoryFull",
        Refusal::NotYet { .. } => b"NotYet",
        Refusal::LogFault { .. } => b"LogFault",
        Refusal::RunFull => b"RunFull",
        Refusal::Memory => b"Memory",
    }
}

// What stands in the way.
fn put_by(text: &mut Vec<u8>, by: By) -> Result<(), Refusal>
    ensures { Writes result text.old.items text.new.items (by_field by) }
{
    match by {
        By::Node(n) => put_number(text, b" NODE ", u64::from(n)),
        By::Pool(n) => put_number(text, b" POOL ", u64::from(n)),
        By::Volume(n) => put_number(text, b" VOLUME ", u64::from(n)),
        By::Filespace(n) => put_number(text, b" FILESPACE ", u64::from(n)),
        By::Object(n) => put_number(text, b" OBJECT ", n),
        By::Ticket(n) => put_number(text, b" TICKET ", n),
        By::Tree(n) => put_number(text, b" TREE ", u64::from(n)),
        By::Destination => put_words(text, b" DESTINATION"),
    }
}

// Who holds what has to be waited for.
fn put_holder(text: &mut Vec<u8>, holder: Holder) -> Result<(), Refusal>
    ensures { Writes result text.old.items text.new.items (holder_field holder) }
{
    match holder {
        Holder::Ticket(n) => put_number(text, b" TICKET ", n),
        Holder::Image(n) => put_number(text, b" IMAGE ", u64::from(n)),
        Holder::Unforced(n) => put_number(text, b" UNFORCED ", n),
    }
}

// The fields of a refusal, each behind a space.
fn put_fields(text: &mut Vec<u8>, refusal: &Refusal) -> Result<(), Refusal>
    ensures { Writes result text.old.items text.new.items (fields_of refusal.now) }
{
    match refusal {
        Refusal::Syntax(at)
        | Refusal::UnknownWord(at)
        | Refusal::Ambiguous(at)
        | Refusal::BadValue(at) => put_number(text, b" ", u64::from(*at)),
        Refusal::InUse(by) => put_by(text, *by),
        Refusal::DayBack { today, given } => {
            put_two_numbers(text, b" ", u64::from(*today), b" ", u64::from(*given))
        }
        Refusal::NoSpace(pool) => put_number(text, b" ", u64::from(*pool)),
        Refusal::Busy(holder) => put_holder(text, *holder),
        Refusal::Stale(seq) | Refusal::Gone(seq) => put_number(text, b" ", *seq),
        Refusal::WriteFault(file) => put_number(text, b" ", u64::from(*file)),
        Refusal::Changed { listed, read } => put_two_numbers(text, b" ", *listed, b" ", *read),
        Refusal::DigestDiffers { kept, given } => put_two_digests(text, b" ", kept, b" ", given),
        Refusal::NotYet { file, day } => {
            put_two_numbers(text, b" ", u64::from(*file), b" ", u64::from(*day))
        }
        Refusal::LogFault { file, count } => {
            put_two_numbers(text, b" ", u64::from(*file), b" ", *count)
        }
        Refusal::NotFound
        | Refusal::Exists
        | Refusal::NoDefaultClass
        | Refusal::BadHierarchy
        | Refusal::NoBackupGroup
        | Refusal::NoArchiveGroup
        | Refusal::Unavailable
        | Refusal::TreeFault
        | Refusal::TooLarge
        | Refusal::RecordFull
        | Refusal::InventoryFull
        | Refusal::RunFull
        | Refusal::Memory => Ok(()),
    }
}

/// The number of a refusal, its word and its fields, each behind a space.
pub(crate) fn put_refusal(text: &mut Vec<u8>, refusal: &Refusal) -> Result<(), Refusal>
    ensures { Writes result text.old.items text.new.items (refusal_text refusal.now) }
{
    put_number(text, b" ", u64::from(refusal.number()))?;
    put_word(text, b" ", word_of(refusal))?;
    put_fields(text, refusal)?;
    Ok(())
}
