//! What is looked for in a hall that was opened behind a stop.
use crate::desk::Desk;
use crate::fault::{Fault, Finding};
use entries::{Database, Entry};
use hall::Hall;
use inventory::Inventory;
use inventory_rows::Tables;
use inventory_rows::version_groups::Version;
use kinds::{Digest, Refusal};
use mem_store::MemStore;
use placing::can_read;
use sha2::{Digest as _, Sha256};
use std::alloc::Global;

/// A piece has at most so many bytes.
const MOST_BYTES: usize = 65536;

/// An object is read in at most so many pieces.
const MOST_PIECES: u64 = 64;

/// A copy of an object.
#[derive(Clone, Copy)]
struct Kept {
    object: u64,
    digest: Digest,
    pool: u32,
    size: u64,
}

/// What the databases behind the first transactions of a run are, as bytes, from the one it began with on.
#[derive(Drop)]
pub struct Databases {
    /// The number of the last transaction before the run.
    first: u64,
    bytes: Vec<Vec<u8>>,
}

/// Makes a transaction, which is to be legal.
fn make(alloc: Global, database: &mut Inventory, entry: &Entry) -> Result<(), Refusal> {
    match database.legal(entry) {
        Ok(()) => database.apply(alloc, entry),
        Err(refusal) => Err(refusal),
    }
}

/// The databases behind none, one, two and all of the transactions.
fn behind(
    alloc: Global,
    database: &mut Inventory,
    journal: &[Entry],
) -> Result<Vec<Vec<u8>>, Fault> {
    let mut all = Vec::new(alloc);
    all.push(database.encode(alloc)?)?;
    for entry in journal {
        make(alloc, database, entry)?;
        all.push(database.encode(alloc)?)?;
    }
    Ok(all)
}

impl Databases {
    /// Those of the hall's run.
    pub fn of(alloc: Global, hall: &Hall<MemStore>) -> Result<Databases, Fault> {
        let mut database = hall.base().copy(alloc)?;
        let first = database.number();
        let bytes = behind(alloc, &mut database, hall.journal());
        drop(database);
        Ok(Databases {
            first,
            bytes: bytes?,
        })
    }

    /// The last of them has these bytes.
    pub fn is_last(&self, bytes: &[u8]) -> bool {
        match self.bytes.last() {
            Some(last) => last.as_slice() == bytes,
            None => false,
        }
    }

    /// The number of the hall's database, which is to be one of these, and to have all that was acknowledged.
    pub fn find(
        &self,
        alloc: Global,
        hall: &Hall<MemStore>,
        acknowledged: u64,
    ) -> Result<u64, Fault> {
        let number = hall.base().number();
        if number < acknowledged || number < self.first {
            return Err(Fault::Wrong(Finding::Lost));
        }
        let bytes = hall.base().encode(alloc)?;
        let later = number.saturating_sub(self.first) as usize;
        match self.bytes.get(later) {
            Some(own) if own.as_slice() == bytes.as_slice() => Ok(number),
            _ => Err(Fault::Wrong(Finding::OtherDatabase)),
        }
    }
}

fn add_copies(all: &mut Vec<Kept>, tables: &Tables, version: &Version) -> Result<(), Fault> {
    for copy in version.copies.as_slice() {
        if can_read(tables, copy) {
            all.push(Kept {
                object: version.object,
                digest: version.digest,
                pool: copy.pool,
                size: version.size.bytes(),
            })?;
        }
    }
    Ok(())
}

/// All copies of all objects that may be read.
fn copies(alloc: Global, tables: &Tables) -> Result<Vec<Kept>, Fault> {
    let mut all = Vec::new(alloc);
    for (_, filespace) in tables.objects.filespaces() {
        for (_, group) in filespace.groups.as_map() {
            for version in group.versions.as_slice() {
                add_copies(&mut all, tables, version)?;
            }
        }
    }
    for (_, row) in tables.objects.held() {
        add_copies(&mut all, tables, &row.held.version)?;
    }
    Ok(all)
}

/// Reads the copy piece by piece, and answers how many bytes it has; none where a piece is refused.
fn read_all(
    hall: &mut Hall<MemStore>,
    kept: &Kept,
    into: &mut [u8],
    hasher: &mut Sha256,
) -> Option<u64> {
    let mut offset: u64 = 0;
    for _ in 0..MOST_PIECES {
        match hall.read_piece(0, kept.object, &kept.digest, kept.pool, offset, into) {
            Ok(0) => return Some(offset),
            Ok(count) => {
                hasher.update(&into[..count]);
                offset = offset.saturating_add(count as u64);
            }
            Err(_) => return None,
        }
    }
    None
}

/// Whether the copy reads back piece by piece with the bytes of its object.
fn reads_back(hall: &mut Hall<MemStore>, kept: &Kept, into: &mut [u8]) -> bool {
    let mut hasher = Sha256::new();
    match read_all(hall, kept, into, &mut hasher) {
        Some(size) => size == kept.size && Digest(hasher.finalize()) == kept.digest,
        None => false,
    }
}

/// Reads back all copies of all objects that may be read, each with the bytes of its object.
fn read_back(alloc: Global, hall: &mut Hall<MemStore>) -> Result<(), Fault> {
    let all = copies(alloc, hall.base().tables())?;
    let mut into = vec![in alloc; 0u8; MOST_BYTES]?;
    for kept in &all {
        if !reads_back(hall, kept, into.as_mut_slice()) {
            let finding = Finding::OtherBytes(kept.object, kept.pool);
            return Err(Fault::Wrong(finding));
        }
    }
    Ok(())
}

/// The databases of the run that stands on this desk.
pub fn databases_of(alloc: Global, desk: &Desk) -> Result<Databases, Fault> {
    match &desk.hall {
        Some(hall) => Databases::of(alloc, hall),
        None => Err(Fault::Closed),
    }
}

/// The number of the database that is opened behind a stop, of which no call fails, and which is to be as it should.
pub fn opened(alloc: Global, desk: &mut Desk, databases: &Databases) -> Result<u64, Fault> {
    desk.fail_at(Vec::new(alloc));
    desk.open()?;
    let acknowledged = desk.acknowledged;
    let Some(hall) = &mut desk.hall else {
        return Err(Fault::Closed);
    };
    let number = databases.find(alloc, hall, acknowledged)?;
    read_back(alloc, hall)?;
    Ok(number)
}
