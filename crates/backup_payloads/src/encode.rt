// An increment's bytes, made of its transactions.
ghost use Rattle.std.specs.Prelude.{◌≡◌, ◌⊎◌, ◌+◌, ◌<◌, ◌^◌, ◌++◌, ◌∷◌, [], length, All, Any, OnOk, IfOk, IfErr};
ghost use Rattle.std.specs.List.{flat_map};
ghost use Rattle.kinds.specs.declared.refusal.Refusal.TheVariants.{RecordFull, Memory as NoMemory};
ghost use Rattle.entries.specs.EntryForm.{entry};
ghost use Rattle.backup_payloads.specs.Increments.{record_bytes, IsIncrement, IsAlone};
ghost use Rattle.backup_payloads.specs.Holding.{holding, record_of, front_bytes, IsShort, IsLong};

use crate::increment::MARK;
use entries::Entry;
use fields::{Memory, put_u8, put_u32, put_u64};
use kinds::Refusal;
use std::alloc::Global;

/// Puts what stands before the records.
fn put_front(out: &mut Vec<u8>, after: u32, number: u64, count: u32) -> Result<(), Memory>
    ensures { OnOk result (out.new.items ≡ out.old.items ++ front_bytes after number count) }
{
    put_u8(out, MARK)?;
    put_u32(out, after)?;
    put_u64(out, number)?;
    put_u32(out, count)?;
    Ok(())
}

/// Puts a record at the end: its length in four bytes, and its bytes.
fn put_record(out: &mut Vec<u8>, bytes: &[u8]) -> Result<(), Memory>
    requires { length bytes.now < 2 ^ 32 }
    ensures { OnOk result (out.new.items ≡ out.old.items ++ record_bytes.spell bytes.now) }
{
    put_u32(out, bytes.len() as u32)?;
    out.extend_from_slice(bytes)?;
    Ok(())
}

/// Puts the record of a transaction.
fn put_entry(alloc: Global, out: &mut Vec<u8>, made: &Entry) -> Result<(), Refusal>
    ensures put { OnOk result (out.new.items ≡ out.old.items ++ record_of made.now) }
    ensures short { OnOk result (IsShort made.now) }
    ensures full { IfErr result (λ e. (e ≡ NoMemory) ⊎ ((e ≡ RecordFull) × IsLong made.now)) }
{
    match made.encode(alloc) {
        Ok(bytes) => {
            put_record(out, &bytes)?;
            Ok(())
        }
        Err(refusal) => Err(refusal),
    }
}

/// Puts the records of transactions, one after the other.
fn put_entries(alloc: Global, out: &mut Vec<u8>, made: &[Entry]) -> Result<(), Refusal>
    ensures put { OnOk result (out.new.items ≡ out.old.items ++ flat_map record_of made.now) }
    ensures short { OnOk result (All IsShort made.now) }
    ensures full { IfErr result (λ e. (e ≡ NoMemory) ⊎ ((e ≡ RecordFull) × Any IsLong made.now)) }
{
    'entries: for one in made {
        match put_entry(alloc, out, one) {
            Ok(()) => {}
            Err(refusal) => return Err(refusal),
        }
    }
    Ok(())
}

/// The spelling of the increment that follows the backup in the file `after`, whose last transaction has this number, and holds
/// the transactions `made` since. No payload's spelling begins with it but this one. `RecordFull` comes only where one of
/// them has more bytes than a record of the log may have.
pub fn encode_increment(
    alloc: Global,
    after: u32,
    number: u64,
    made: &[Entry],
) -> Result<Vec<u8>, Refusal>
    requires few { length made.now < 2 ^ 32 }
    requires numbered { number + length made.now < 2 ^ 62 }
    ensures spelled { IfOk result (λ v. IsIncrement v.items (holding after number made.now)) }
    ensures alone { IfOk result (λ v. IsAlone v.items (holding after number made.now)) }
    ensures short { IfOk result (λ _. All IsShort made.now) }
    ensures full { IfErr result (λ e. (e ≡ NoMemory) ⊎ ((e ≡ RecordFull) × Any IsLong made.now)) }
{
    let mut out = Vec::new(alloc);
    put_front(&mut out, after, number, made.len() as u32)?;
    match put_entries(alloc, &mut out, made) {
        Ok(()) => Ok(out),
        Err(refusal) => Err(refusal),
    }
}

/// The same of one transaction more, which comes behind these.
pub fn encode_increment_and(
    alloc: Global,
    after: u32,
    number: u64,
    made: &[Entry],
    last: &Entry,
) -> Result<Vec<u8>, Refusal>
    requires few { length made.now + 1 < 2 ^ 32 }
    requires numbered { number + length made.now + 1 < 2 ^ 62 }
    ensures spelled { IfOk result (λ v. IsIncrement v.items (holding after number (made.now ++ last.now ∷ []))) }
    ensures alone { IfOk result (λ v. IsAlone v.items (holding after number (made.now ++ last.now ∷ []))) }
    ensures short { IfOk result (λ _. All IsShort (made.now ++ last.now ∷ [])) }
    ensures full { IfErr result (λ e. (e ≡ NoMemory) ⊎ ((e ≡ RecordFull) × (Any IsLong made.now ⊎ IsLong last.now))) }
{
    let mut out = Vec::new(alloc);
    put_front(&mut out, after, number, made.len() as u32 + 1)?;
    match put_entries(alloc, &mut out, made) {
        Ok(()) => {}
        Err(refusal) => return Err(refusal),
    }
    match put_entry(alloc, &mut out, last) {
        Ok(()) => Ok(out),
        Err(refusal) => Err(refusal),
    }
}
