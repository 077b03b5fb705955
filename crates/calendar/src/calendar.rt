ghost use Rattle.std.specs.Prelude.{◌≡◌, ◌<◌, ◌≤◌, ◌^◌, IsTrue, IfOk, OnOk, [], ◌++◌, length};
ghost use Rattle.fields.specs.Editions.{first_form, second_form};
ghost use Rattle.fields.specs.Gives.{GivesBy};
ghost use Rattle.calendar.specs.Dates.{memo_bytes, dated, dated_form, meaning};
ghost use Rattle.calendar.specs.Meant.{is_meaning};

use entries::{Change, Database, Entry};
use fields::{By, Decoder, Fault, First, Formed, Memory, Reader, put_u8, put_u32, put_u64};
use kinds::{Day, Fitting, Refusal};
use std::alloc::Global;
use std::marker::Model;

/// How many numbers there are for transactions.
const NUMBERS: u64 = 1 << 62;

/// The most bytes that a memo has.
const MEMO: u32 = 1 << 20;

/// How many transactions were made, below 2^62, and the day; and a memo of bytes, which no transaction changes.
#[derive(Drop)]
pub struct Calendar {
    number: u64,
    today: Day,
    memo: Vec<u8>,
}

impl Model for Calendar {
    ghost use Rattle.std.specs.Prelude.{IsTrue, ◌≤◌, ◌^◌, length};
    ghost use Rattle.calendar.specs.Dates.{Dated, is_numbered};

    ghost Value = { Dated };

    ghost view = { λ c. record { number = c.number; today = c.today; memo = c.memo.items } };

    ghost invariant = { λ c. IsTrue (is_numbered (record { number = c.number; today = c.today; memo = c.memo.items })) × (length c.memo.items ≤ 2 ^ 20) };
}

impl Calendar {
    /// A calendar without transactions, on its first day, with no memo.
    pub fn new(alloc: Global) -> Calendar
        ensures { result ≡ record { number = 0; today = 0; memo = [] } }
    {
        Calendar {
            number: 0,
            today: Day::default(),
            memo: Vec::new(alloc),
        }
    }

    /// A calendar without transactions, on its first day, with a memo.
    pub fn with_memo(memo: Vec<u8>) -> Calendar
        requires { length memo.items ≤ 2 ^ 20 }
        ensures { result ≡ record { number = 0; today = 0; memo = memo.items } }
    {
        Calendar {
            number: 0,
            today: Day::default(),
            memo,
        }
    }

    /// The day.
    pub fn today(&self) -> Day
        ensures { result ≡ self.now.today }
    {
        self.today
    }

    /// The memo.
    pub fn memo(&self) -> &[u8]
        ensures { result.now ≡ self.now.memo }
    {
        &self.memo
    }
}

/// Puts a memo at the end: its length in four bytes, and its bytes.
fn put_memo(out: &mut Vec<u8>, memo: &[u8]) -> Result<(), Memory>
    requires { length memo.now ≤ 2 ^ 20 }
    ensures { OnOk result (out.new.items ≡ out.old.items ++ memo_bytes.spell memo.now) }
{
    put_u32(out, memo.len() as u32)?;
    out.extend_from_slice(memo)?;
    Ok(())
}

/// Takes a memo: its length in four bytes, and its bytes.
fn take_memo(alloc: Global, reader: &mut Reader<'_>) -> Result<Vec<u8>, Fault>
    ensures gives { GivesBy (λ v. v.items) result reader.new.rest (memo_bytes.read reader.old.rest) }
    ensures few { IfOk result (λ v. length v.items ≤ 2 ^ 20) }
{
    let count = reader.u32()?;
    if count > MEMO {
        return Err(Fault::Malformed);
    }
    let bytes = reader.bytes(count as usize)?;
    Ok(bytes.to_vec(alloc)?)
}

/// The second form: a byte 2, the number in eight bytes, the day in four, and the memo: its length in four bytes, and its bytes.
impl Formed for Calendar {
    ghost form = { dated second_form };

    fn write_to(&self, out: &mut Vec<u8>) -> Result<(), Memory> {
        put_u8(out, 2)?;
        put_u64(out, self.number)?;
        self.today.write_to(out)?;
        put_memo(out, &self.memo)?;
        Ok(())
    }

    fn read_from(alloc: Global, reader: &mut Reader<'_>) -> Result<Self, Fault> {
        if reader.u8()? != 2 {
            return Err(Fault::Malformed);
        }
        let number = reader.u64()?;
        let today = Day::read_from(alloc, reader)?;
        let memo = take_memo(alloc, reader)?;
        if number < NUMBERS {
            Ok(Calendar {
                number,
                today,
                memo,
            })
        } else {
            Err(Fault::Malformed)
        }
    }

    ghost is_form = { dated_form second_form };
}

/// The first form: a byte 1, the day in four bytes, and the number in eight. It has no memo, and is read as one without bytes.
impl Decoder<Calendar> for By<First> {
    ghost form = { dated first_form };

    fn take(alloc: Global, reader: &mut Reader<'_>) -> Result<Calendar, Fault> {
        if reader.u8()? != 1 {
            return Err(Fault::Malformed);
        }
        let today = Day::read_from(alloc, reader)?;
        let number = reader.u64()?;
        if number >= NUMBERS {
            return Err(Fault::Malformed);
        }
        Ok(Calendar {
            number,
            today,
            memo: Vec::new(alloc),
        })
    }

    ghost is_form = { dated_form first_form };
}

impl Fitting for Calendar {
    fn fits(&self) {
        self.number.fits();
        self.today.fits();
    }
}

impl Database for Calendar {
    ghost meaning = { meaning };

    fn number(&self) -> u64 {
        self.number
    }

    fn legal(&self, entry: &Entry) -> Result<(), Refusal> {
        match &entry.change {
            Change::Day { day } => {
                if *day < self.today {
                    Err(Refusal::DayBack {
                        today: self.today.number(),
                        given: day.number(),
                    })
                } else if self.number + 1 < NUMBERS {
                    Ok(())
                } else {
                    Err(Refusal::InventoryFull)
                }
            }
            _ => Err(Refusal::NotFound),
        }
    }

    fn apply(&mut self, _alloc: Global, entry: &Entry) -> Result<(), Refusal> {
        if let Change::Day { day } = &entry.change {
            self.today = *day;
        }
        self.number += 1;
        Ok(())
    }

    fn encode(&self, alloc: Global) -> Result<Vec<u8>, Refusal> {
        self.fits();
        let bytes = fields::encode(alloc, self)?;
        Ok(bytes)
    }

    fn decode_two(alloc: Global, bytes: &[u8]) -> Result<Option<Self>, Refusal> {
        let calendar = fields::decode(alloc, bytes)?;
        Ok(calendar)
    }

    fn decode_one(alloc: Global, bytes: &[u8]) -> Result<Option<Self>, Refusal> {
        let calendar = fields::decode_by::<Calendar, By<First>>(alloc, bytes)?;
        Ok(calendar)
    }

    fn copy(&self, alloc: Global) -> Result<Self, Refusal> {
        let memo = self.memo.as_slice().to_vec(alloc)?;
        Ok(Calendar {
            number: self.number,
            today: self.today,
            memo,
        })
    }

    ghost is_meaning = { is_meaning };
}
