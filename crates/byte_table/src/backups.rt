//! The payload of a database backup: a calendar, which is the smallest database, or the transactions since another backup.
use crate::show::show;
use backup_payloads::{Increment, Payload, decode, encode_increment};
use calendar::Calendar;
use entries::{Database, Entry};
use kinds::Refusal;
use std::alloc::Global;

/// How many numbers there are for transactions.
const NUMBERS: u64 = 1 << 62;

/// How many records an increment may have.
const RECORDS: usize = (1 << 32) - 1;

/// Tells what a record says, and adds its transaction to those that were read.
fn add_record(
    alloc: Global,
    out: &mut String,
    made: &mut Vec<Entry>,
    number: u64,
    record: &[u8],
) -> Result<(), Refusal> {
    match Entry::decode(alloc, record)? {
        None => write!(out, "; {number}: no entry")?,
        Some(entry) => {
            let words = show(alloc, &entry)?;
            made.push(entry)?;
            write!(out, "; {number}: {words}")?;
        }
    }
    Ok(())
}

/// Whether the increment of these transactions is spelled so.
fn is_spelled_so(
    alloc: Global,
    after: u32,
    number: u64,
    made: &[Entry],
    bytes: &[u8],
) -> Result<bool, Refusal> {
    if made.len() > RECORDS || number >= NUMBERS || made.len() as u64 >= NUMBERS - number {
        return Ok(false);
    }
    let spelled = encode_increment(alloc, after, number, made)?;
    Ok(spelled.as_slice() == bytes)
}

/// Tells what an increment says, and adds its transactions to those that were read.
fn show_increment(
    alloc: Global,
    made: &mut Vec<Entry>,
    increment: &mut Increment<'_>,
) -> Result<String, Refusal> {
    let after = increment.after();
    let number = increment.number();
    let last = increment.last_number();
    let mut out = format!(in alloc; "behind {number} of the backup in file {after}, up to {last}")?;
    for _ in number..last {
        if let Some(record) = increment.next() {
            add_record(alloc, &mut out, made, increment.number(), record)?;
        }
    }
    Ok(out)
}

/// The words of an increment, and whether its bytes are wrong.
fn words_of(alloc: Global, increment: &mut Increment<'_>, bytes: &[u8]) -> Result<String, Refusal> {
    let after = increment.after();
    let number = increment.number();
    let mut made = Vec::new(alloc);
    let mut words = show_increment(alloc, &mut made, increment)?;
    let is_whole = increment.number().checked_sub(number) == Some(made.len() as u64);
    if is_whole && !is_spelled_so(alloc, after, number, &made, bytes)? {
        words.push_str(", SPELLED OTHERWISE")?;
    }
    drop(made);
    Ok(words)
}

/// What the backup holds whose payload these bytes are.
pub fn backup(alloc: Global, bytes: &[u8]) -> Result<Option<String>, Refusal> {
    let payload: Option<Payload<'_, Calendar>> = decode(alloc, bytes)?;
    let words = match payload {
        None => String::from_str(alloc, "no backup")?,
        Some(Payload::Whole(calendar)) => {
            let number = calendar.number();
            let today = calendar.today().number();
            format!(in alloc; "a calendar after {number} transactions, on day {today}")?
        }
        Some(Payload::Since(increment)) => {
            let mut increment = increment;
            words_of(alloc, &mut increment, bytes)?
        }
    };
    Ok(Some(words))
}
