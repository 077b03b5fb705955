// What a database backup holds that follows another one.
ghost use Rattle.std.specs.Prelude.{◌≡◌, ℕ, ◌+◌, ◌<◌, ◌^◌, ◌++◌, ◌∷◌, [], List, Option, Some, length, nat_lt, IfSome, IfNone};
ghost use Rattle.backup_payloads.specs.Increments.{Takes, Increment as Spelled, increment, IsIncrement, IsAlone, last_number};

use crate::records::{Records, take_records};
use fields::Reader;
use std::marker::Model;

/// The first byte. A whole database has another one in front.
pub(crate) const MARK: u8 = 3;

/// How many numbers there are for transactions.
const NUMBERS: u64 = 1 << 62;

/// What a database backup holds that follows another one: which one it follows, and a record of each transaction since. It
/// borrows its bytes, and a record is looked at when it is asked for, so reading one takes no memory.
#[derive(Drop)]
pub struct Increment<'a> {
    after: u32,
    number: u64,
    records: Records<'a>,
}

impl<'a> Model for Increment<'a> {
    ghost use Rattle.std.specs.Prelude.{◌+◌, ◌<◌, ◌^◌, length};
    ghost use Rattle.backup_payloads.specs.Increments.{Increment};

    ghost Value = { Increment };

    ghost view = { λ i. record { after = i.after; number = i.number; records = i.records } };

    ghost invariant = { λ i. i.number + length i.records < 2 ^ 62 };
}

/// Whether the records' transactions, which have the numbers behind this one, have numbers below 2^62.
fn is_numbered(number: u64, records: &Records<'_>) -> bool
    ensures { result ≡ nat_lt (number + length records.now) (2 ^ 62) }
{
    (number as u128) + (records.len() as u128) < NUMBERS as u128
}

/// Takes what the bytes begin with.
#[tactic(auto, unfolding(crate::specs::Increments::increment))]
fn take_increment<'a>(reader: &mut Reader<'a>) -> Option<Increment<'a>>
    ensures { Takes (λ i. i) result reader.new.rest (increment.read reader.old.rest) }
{
    if reader.u8().ok()? != MARK {
        return None;
    }
    let after = reader.u32().ok()?;
    let number = reader.u64().ok()?;
    let count = reader.u32().ok()?;
    let records = take_records(reader, count)?;
    if !is_numbered(number, &records) {
        return None;
    }
    Some(Increment {
        after,
        number,
        records,
    })
}

/// What the bytes begin with, and whether nothing stands behind it.
fn take_front<'a>(reader: &mut Reader<'a>) -> Option<Increment<'a>>
    ensures found { IfSome result (λ i. increment.Fits i × (reader.old.rest ≡ increment.spell i ++ reader.new.rest)) }
    ensures none { IfNone result ((i : Spelled) (rest : List ℕ) → increment.Fits i → reader.old.rest ≡ increment.spell i ++ rest → ⊥) }
{
    let _bytes = reader.rest();
    match take_increment(reader) {
        Some(found) => Some(found),
        None => None,
    }
}

impl<'a> Increment<'a> {
    /// The increment whose spelling the bytes are; none where they are no increment's.
    pub fn read(bytes: &'a [u8]) -> Option<Increment<'a>>
        ensures found { IfSome result (λ i. IsIncrement bytes.now i) }
        ensures none { IfNone result ((i : Spelled) → IsIncrement bytes.now i → ⊥) }
        ensures alone { IfSome result (λ i. IsAlone bytes.now i) }
    {
        let mut reader = Reader::new(bytes);
        let found = match take_front(&mut reader) {
            Some(found) => found,
            None => return None,
        };
        if reader.at_end() { Some(found) } else { None }
    }

    /// The file of the backup that it follows.
    pub fn after(&self) -> u32
        ensures { result ≡ self.now.after }
    {
        self.after
    }

    /// The number behind which the first of its transactions comes: that of the backup that it follows, and of the last one taken by `next`.
    pub fn number(&self) -> u64
        ensures number { result ≡ self.now.number }
        ensures numbered { result < 2 ^ 62 }
    {
        self.number
    }

    /// The number of the last of its transactions; where it has none, the number behind which they would come.
    pub fn last_number(&self) -> u64
        ensures last { result ≡ last_number self.now }
        ensures numbered { result < 2 ^ 62 }
    {
        self.number + self.records.len() as u64
    }

    /// Takes the record of the first transaction, which has the number behind `number`; none where there is none left.
    pub fn next(&mut self) -> Option<&'a [u8]>
        ensures some { IfSome result (λ r. self.old.records ≡ r.now ∷ self.new.records) }
        ensures number { IfSome result (λ _. self.new.number ≡ self.old.number + 1) }
        ensures none { IfNone result ((self.old.records ≡ []) × (self.new ≡ self.old)) }
        ensures after { self.new.after ≡ self.old.after }
    {
        match self.records.next() {
            Some(record) => {
                self.number += 1;
                Some(record)
            }
            None => None,
        }
    }
}
