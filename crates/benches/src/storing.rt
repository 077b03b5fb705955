//! Objects stored and read on a hall.
use crate::fault::Fault;
use crate::said::{say, say_count};
use crate::text::Text;
use entries::{Database, Entry};
use hall::Hall;
use inventory::Inventory;
use inventory_work::Listed;
use kinds::{Name, Path};
use std::alloc::Global;
use std::io::Write;
use steps::{Asked, Item};
use store_api::Store;
use vault::Vault;

/// A transaction brings so many objects.
const BATCH: u64 = 32;

/// So many lines say how far it is.
const LINES: u64 = 100;

/// The node N is defined, with the domain STANDARD.
const NODE: &[u8] = b"\0\0\0\0\x08\x01\0\x01N\0\x08STANDARD";

/// The filespace /home of that node is defined, with the number 1.
const FILESPACE: &[u8] = b"\0\0\0\0\x18\x01\0\0\0\x01\0\x05/home\0\0\0\x01";

/// The volume V of 8 GiB is defined in the pool 1, which is one of random access.
const VOLUME: &[u8] = b"\0\0\0\0\x0b\x01\0\x01V\0\0\0\x01\0\0\0\x04\0\0\0\x02\0\0\0\0\x01";

/// The device class F is defined, of volumes of 16 GiB.
const CLASS: &[u8] = b"\0\0\0\0\x09\x01\0\x01F\0\0\0\x04\0\0\0\0";

/// The primary sequential pool T of that class is defined, with two scratch volumes; it gets the number 2.
const POOL: &[u8] =
    b"\0\0\0\0\x0a\x01\0\x01T\0\x01F\x01\xff\xff\xff\xff\xff\xff\xff\xff\0\0\0\0\x5a\x46\x3c\0\0\0\x02\0";

/// The store becomes that of a new database.
fn format<S: Store>(alloc: Global, store: &mut S) -> Result<(), Fault> {
    let fresh = Inventory::fresh(alloc)?;
    let formatted = Vault::format(alloc, store, &fresh);
    drop(fresh);
    Ok(formatted?)
}

/// What the bytes spell, as what is asked.
fn asked(alloc: Global, bytes: &[u8]) -> Result<Asked, Fault> {
    match Entry::decode(alloc, bytes)? {
        Some(entry) => {
            let Entry { actor: _, change } = entry;
            Ok(Asked::Plain(change))
        }
        None => Err(Fault::NoCommand),
    }
}

/// Makes what the bytes spell.
fn make<S: Store>(alloc: Global, hall: &mut Hall<S>, bytes: &[u8]) -> Result<(), Fault> {
    let asked = asked(alloc, bytes)?;
    let made = hall.commit(0, &asked, &[]);
    drop(asked);
    made?;
    Ok(())
}

/// Makes what comes before the first object, durably.
fn prepare<S: Store>(alloc: Global, hall: &mut Hall<S>) -> Result<(), Fault> {
    make(alloc, hall, NODE)?;
    make(alloc, hall, FILESPACE)?;
    make(alloc, hall, VOLUME)?;
    make(alloc, hall, CLASS)?;
    make(alloc, hall, POOL)?;
    hall.force(0)?;
    Ok(())
}

/// A ticket with the bytes of an object.
fn written<S: Store>(hall: &mut Hall<S>, pool: u32, text: &Text) -> Result<u64, Fault> {
    let ticket = hall.open_new(0, pool, text.size, 0)?;
    for number in 0..text.pieces() {
        hall.write_piece(0, ticket, text.piece(number))?;
    }
    Ok(ticket)
}

/// So many tickets, each with the bytes of an object.
fn all_written<S: Store>(
    alloc: Global,
    hall: &mut Hall<S>,
    pool: u32,
    text: &Text,
    count: u64,
) -> Result<Vec<u64>, Fault> {
    let mut tickets = Vec::new(alloc);
    for _ in 0..count {
        tickets.push(written(hall, pool, text)?)?;
    }
    Ok(tickets)
}

fn seal_all<S: Store>(hall: &mut Hall<S>, tickets: &[u64]) -> Result<(), Fault> {
    for ticket in tickets {
        hall.seal(0, *ticket)?;
    }
    Ok(())
}

/// The file with this number.
fn item(alloc: Global, text: &Text, number: u64) -> Result<Item, Fault> {
    let path = format!(in alloc; "/{number}")?;
    let class = Name::read(alloc, b"STANDARD", 30)?;
    Ok(Item {
        path: Path::read(alloc, path.as_bytes())?,
        class,
        mtime: 0,
        digest: text.digest,
    })
}

/// So many files from this number on.
fn items(alloc: Global, text: &Text, first: u64, count: u64) -> Result<Vec<Item>, Fault> {
    let mut items = Vec::new(alloc);
    for place in 0..count {
        items.push(item(alloc, text, first.saturating_add(place))?)?;
    }
    Ok(items)
}

/// Stores the files from this number on, so many, in one transaction.
fn store<S: Store>(
    alloc: Global,
    hall: &mut Hall<S>,
    pool: u32,
    text: &Text,
    first: u64,
    count: u64,
) -> Result<(), Fault> {
    let tickets = all_written(alloc, hall, pool, text, count)?;
    seal_all(hall, tickets.as_slice())?;
    let items = Listed::from_vec(items(alloc, text, first, count)?);
    let asked = Asked::Backup {
        filespace: 1,
        items,
    };
    let made = hall.commit(0, &asked, tickets.as_slice());
    drop(asked);
    made?;
    Ok(())
}

/// Stores so many files, prints how many there are, as often as `LINES` says, and makes all durable.
fn store_all<S: Store, W: Write>(
    alloc: Global,
    hall: &mut Hall<S>,
    pool: u32,
    text: &Text,
    count: u64,
    out: &mut W,
) -> Result<(), Fault> {
    let batches = count.div_ceil(BATCH);
    let apart = (batches / LINES).max(1);
    for batch in 0..batches {
        let first = batch.saturating_mul(BATCH);
        let some = count.saturating_sub(first).min(BATCH);
        store(alloc, hall, pool, text, first, some)?;
        if batch % apart == apart - 1 {
            say_count(alloc, out, first.saturating_add(some))?;
        }
    }
    hall.force(0)?;
    Ok(())
}

/// Reads so many pieces of as many bytes as the files have, one file after the other.
fn read_all<S: Store>(
    hall: &mut Hall<S>,
    into: &mut [u8],
    text: &Text,
    count: u64,
) -> Result<(), Fault> {
    let (_, next, _) = hall.next();
    let files = next.saturating_sub(1).max(1);
    for number in 0..count {
        let object = (number % files).saturating_add(1);
        hall.read_piece(0, object, &text.digest, 0, 0, into)?;
    }
    Ok(())
}

/// A hall over the store.
fn opened<S: Store + Drop>(alloc: Global, store: S) -> Result<Hall<S>, Fault> {
    match Hall::open(alloc, store) {
        Ok(hall) => Ok(hall),
        Err((store, refused)) => {
            drop(store);
            Err(Fault::NotOpened(refused))
        }
    }
}

/// Stores files on a hall that was just opened.
fn store_on<S: Store, W: Write>(
    alloc: Global,
    hall: &mut Hall<S>,
    pool: u32,
    text: &Text,
    count: u64,
    out: &mut W,
) -> Result<(), Fault> {
    prepare(alloc, hall)?;
    say(out, b"ready\n")?;
    store_all(alloc, hall, pool, text, count, out)?;
    say(out, b"done\n")
}

/// Stores so many files in a new store.
pub fn store_new<S: Store + Drop, W: Write>(
    alloc: Global,
    store: S,
    pool: u32,
    text: &Text,
    count: u64,
    out: &mut W,
) -> Result<(), Fault> {
    let mut store = store;
    match format(alloc, &mut store) {
        Ok(()) => {}
        Err(fault) => {
            drop(store);
            return Err(fault);
        }
    }
    let mut hall = opened(alloc, store)?;
    let made = store_on(alloc, &mut hall, pool, text, count, out);
    drop(hall);
    made
}

/// Reads pieces on a hall that was just opened.
fn read_on<S: Store, W: Write>(
    alloc: Global,
    hall: &mut Hall<S>,
    text: &Text,
    count: u64,
    out: &mut W,
) -> Result<(), Fault> {
    let mut into = text.room(alloc)?;
    say(out, b"ready\n")?;
    read_all(hall, into.as_mut_slice(), text, count)?;
    say(out, b"done\n")
}

/// Reads so many pieces of the files in the store.
pub fn read_old<S: Store + Drop, W: Write>(
    alloc: Global,
    store: S,
    text: &Text,
    count: u64,
    out: &mut W,
) -> Result<(), Fault> {
    let mut hall = opened(alloc, store)?;
    let made = read_on(alloc, &mut hall, text, count, out);
    drop(hall);
    made
}
