// Transactions that fill an inventory: a node, its filespace, a volume of random access, and then versions of the filespace's files, 256 in a
// transaction. They are read from their spellings, as those of a log are.
use crate::spellings::{FILESPACE, NODE, VOLUME, batch};
use entries::{Database, Entry};
use kinds::Refusal;
use std::alloc::Global;

/// How many versions a transaction brings.
pub(crate) const BATCH: u32 = 256;

/// Makes a transaction, where it is legal.
fn make<D: Database>(alloc: Global, database: &mut D, entry: &Entry) -> Result<(), Refusal> {
    match database.legal(entry) {
        Ok(()) => database.apply(alloc, entry),
        Err(refusal) => Err(refusal),
    }
}

/// Makes the transaction that the bytes spell; `BadValue` where they spell none.
fn make_spelled<D: Database>(alloc: Global, database: &mut D, bytes: &[u8]) -> Result<(), Refusal> {
    match Entry::decode(alloc, bytes) {
        Ok(Some(entry)) => {
            let made = make(alloc, database, &entry);
            drop(entry);
            made
        }
        Ok(None) => Err(Refusal::BadValue(0)),
        Err(refusal) => Err(refusal),
    }
}

/// Whether the bytes spell a transaction.
fn is_spelling(alloc: Global, bytes: &[u8]) -> Result<bool, Refusal> {
    match Entry::decode(alloc, bytes) {
        Ok(Some(entry)) => {
            drop(entry);
            Ok(true)
        }
        Ok(None) => Ok(false),
        Err(refusal) => Err(refusal),
    }
}

/// Reads the transactions that bring so many versions, rounded down to whole transactions, and makes none of them. It answers how many there were.
/// Refused only for want of memory.
pub(crate) fn read_batches(alloc: Global, versions: u32) -> Result<u32, Refusal> {
    let mut read: u32 = 0;
    for number in 0..versions / BATCH {
        let bytes = batch(alloc, number * BATCH)?;
        if is_spelling(alloc, &bytes)? {
            read = read.wrapping_add(1);
        }
    }
    Ok(read)
}

/// Makes the transactions that bring so many versions, rounded down to whole transactions, in an inventory that was just formatted. Refused where the
/// database refuses one of them, and for want of memory.
pub(crate) fn fill<D: Database>(
    alloc: Global,
    database: &mut D,
    versions: u32,
) -> Result<(), Refusal> {
    make_spelled(alloc, database, NODE)?;
    make_spelled(alloc, database, FILESPACE)?;
    make_spelled(alloc, database, VOLUME)?;
    for number in 0..versions / BATCH {
        let bytes = batch(alloc, number * BATCH)?;
        make_spelled(alloc, database, &bytes)?;
    }
    Ok(())
}
