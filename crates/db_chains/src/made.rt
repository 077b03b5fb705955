// The transactions of an increment are made.
ghost use Rattle.std.specs.Prelude.{◌≡◌, List, ℕ, IfOk, IfErr, IfSome, IfNone};
ghost use Rattle.entries.specs.EntryForm.{Spells};
ghost use Rattle.entries.specs.Meaning.{IsLegal};
ghost use Rattle.kinds.specs.declared.refusal.Refusal.TheVariants.{Memory};
ghost use Rattle.backup_payloads.specs.Increments.{Increment as Held, IsIncrement};
ghost use Rattle.db_chains.specs.Making.{MakesOne, MakesEntry, MakesAll};

use backup_payloads::Increment;
use entries::{Database, Entry};
use kinds::Refusal;
use std::alloc::Global;

/// Makes a transaction where it is legal, and tells whether it is.
fn make<D: Database>(alloc: Global, database: &mut D, entry: &Entry) -> Result<bool, Refusal>
    ensures makes { IfOk result (MakesEntry D.meaning entry.now database.old database.new) }
    ensures memory { IfErr result (λ e. e ≡ Memory) }
{
    match database.legal(entry) {
        Ok(()) => match database.apply(alloc, entry) {
            Ok(()) => Ok(true),
            Err(_) => Err(Refusal::Memory),
        },
        Err(_) => Ok(false),
    }
}

/// Makes the transaction that a record is, and tells whether it is one that may be made.
fn make_record<D: Database>(alloc: Global, database: &mut D, record: &[u8]) -> Result<bool, Refusal>
    ensures makes { IfOk result (MakesOne D.meaning record.now database.old database.new) }
    ensures memory { IfErr result (λ e. e ≡ Memory) }
{
    match Entry::decode(alloc, record) {
        Ok(Some(entry)) => {
            let made = make(alloc, database, &entry);
            drop(entry);
            made
        }
        Ok(None) => Ok(false),
        Err(_) => Err(Refusal::Memory),
    }
}

/// Makes the transactions of an increment, one after the other, and tells whether each of its records is one that may be made.
fn make_records<D: Database>(
    alloc: Global,
    database: &mut D,
    mut increment: Increment<'_>,
) -> Result<bool, Refusal>
    ensures makes { IfOk result (MakesAll D.meaning increment.entry.records database.old database.new) }
    ensures memory { IfErr result (λ e. e ≡ Memory) }
{
    'records: loop {
        match increment.next() {
            Some(record) => match make_record(alloc, database, record) {
                Ok(true) => {}
                Ok(false) => return Ok(false),
                Err(refusal) => return Err(refusal),
            },
            None => return Ok(true),
        }
    }
}

/// The same of the increment whose spelling the bytes are.
pub(crate) fn make_increment<D: Database>(
    alloc: Global,
    database: &mut D,
    payload: &[u8],
) -> Result<bool, Refusal>
    ensures makes { IfOk result (λ all. (i : Held) → IsIncrement payload.now i → MakesAll D.meaning i.records database.old database.new all) }
    ensures memory { IfErr result (λ e. e ≡ Memory) }
{
    match Increment::read(payload) {
        Some(increment) => make_records(alloc, database, increment),
        None => Ok(false),
    }
}
