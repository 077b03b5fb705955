//! Which steps are made, by numbers from a seed: those that go on with what stands on the machine of plain lists, and others.
use crate::seeds::Seeds;
use inventory_answers::{Query, Rows};
use inventory_rows::version_groups::{CopyRow, Version};
use plain_hall::{Hall, Purpose, Ticket, digest_of};
use std::alloc::{AllocError, Global};
use step_words::put_digest;

/// A piece has at most so many bytes.
const MOST_BYTES: u64 = 65536;

/// How many paths there are, by whose objects' numbers they are told apart.
const PATHS: u64 = 6;

/// The path of an object is `/` and this digit.
fn path_of(object: u64) -> u64 {
    object % PATHS
}

/// Adds so many bytes as a part of a word.
fn put_part(out: &mut String, count: u64, byte: u8) -> Result<(), AllocError> {
    if !out.is_empty() {
        out.push('+')?;
    }
    write!(out, "{count}*{byte}")
}

/// The word that stands for bytes.
fn text_of(alloc: Global, bytes: &[u8]) -> Result<String, AllocError> {
    let mut out = String::new(alloc);
    let mut last = 0;
    let mut count: u64 = 0;
    for byte in bytes {
        if count > 0 && *byte != last {
            put_part(&mut out, count, last)?;
            count = 0;
        }
        last = *byte;
        count = count.saturating_add(1);
    }
    put_part(&mut out, count, last)?;
    Ok(out)
}

/// A ticket of the actor: its first one, or its last one.
fn own(hall: &Hall, actor: u32, is_last: bool) -> Option<u64> {
    let mut found = None;
    for (number, ticket) in &hall.tickets {
        if ticket.actor == actor && (is_last || found.is_none()) {
            found = Some(*number);
        }
    }
    found
}

/// The object at this place among those that are kept, or the last one.
fn kept(hall: &Hall, place: u64) -> u64 {
    let mut found = 0;
    let mut left = place;
    for (object, _) in &hall.contents {
        if hall.inventory.tables().objects.find(*object).is_some() {
            found = *object;
            if left == 0 {
                return found;
            }
            left = left.saturating_sub(1);
        }
    }
    found
}

/// An object that is kept, or now and then one that may not be.
fn object(seeds: &mut Seeds, hall: &Hall) -> u64 {
    if seeds.below(8) == 0 {
        return seeds.below(hall.next_object.saturating_add(2));
    }
    kept(hall, seeds.below(24))
}

/// The next bytes of a new object.
fn written(alloc: Global, seeds: &mut Seeds, number: u64, left: u64) -> Result<String, AllocError> {
    let some = seeds.below(40_000).saturating_add(1);
    let count = left.min(MOST_BYTES).min(some);
    let byte = seeds.below(256);
    format!(in alloc; "write {number} {count}*{byte}")
}

/// A new object is committed.
fn stored(
    alloc: Global,
    seeds: &mut Seeds,
    number: u64,
    object: u64,
    bytes: &[u8],
) -> Result<String, AllocError> {
    let path = path_of(object);
    let text = text_of(alloc, bytes)?;
    if seeds.below(8) == 0 {
        let until = seeds.below(20);
        return format!(in alloc; "hold 1 /{path} {until} {text} {number}");
    }
    format!(in alloc; "backup 1 /{path} 1 {text} {number}")
}

/// What is next with a ticket.
fn with_ticket(
    alloc: Global,
    seeds: &mut Seeds,
    number: u64,
    ticket: &Ticket,
) -> Result<String, AllocError> {
    let left = ticket.size.saturating_sub(ticket.bytes.len() as u64);
    match ticket.purpose {
        Purpose::Storing { .. } if left > 0 => written(alloc, seeds, number, left),
        Purpose::Copying { .. } if left > 0 => format!(in alloc; "copy_piece {number}"),
        _ if !ticket.is_sealed => format!(in alloc; "seal {number}"),
        Purpose::Storing { object } => {
            stored(alloc, seeds, number, object, ticket.bytes.as_slice())
        }
        Purpose::Copying { .. } => format!(in alloc; "placed {number}"),
    }
}

/// What is next with a ticket of the actor, which is dropped now and then.
fn with_own(
    alloc: Global,
    seeds: &mut Seeds,
    hall: &Hall,
    number: u64,
) -> Result<String, AllocError> {
    match hall.tickets.get(&number) {
        Some(ticket) if seeds.below(16) > 0 => with_ticket(alloc, seeds, number, ticket),
        _ => format!(in alloc; "drop {number}"),
    }
}

/// Space for a new object.
fn open_new(alloc: Global, seeds: &mut Seeds) -> Result<String, AllocError> {
    let pool = seeds.below(3).saturating_add(1);
    let size = if seeds.below(8) == 0 {
        seeds.below(100_000)
    } else {
        seeds.below(6000)
    };
    let prefer = seeds.below(8);
    format!(in alloc; "open_new {pool} {size} {prefer}")
}

/// One of a version's copies.
fn copy_of<'a>(seeds: &mut Seeds, version: &'a Version) -> Option<&'a CopyRow> {
    let copies = version.copies.as_slice();
    copies.get(seeds.below(copies.len() as u64) as usize)
}

/// Space for a copy of a version that moves.
fn open_move(alloc: Global, seeds: &mut Seeds, version: &Version) -> Result<String, AllocError> {
    let object = version.object;
    let (from, placed) = match copy_of(seeds, version) {
        Some(copy) => (copy.pool, copy.placed),
        None => (0, 0),
    };
    let to = seeds.below(3).saturating_add(1);
    let with = if seeds.below(2) == 0 {
        "along"
    } else {
        "alone"
    };
    format!(in alloc; "open_copy {object} 0 move {from} {placed} {to} {with}")
}

/// Space for a copy.
fn open_copy(alloc: Global, seeds: &mut Seeds, hall: &Hall) -> Result<String, AllocError> {
    let object = object(seeds, hall);
    let is_moved = seeds.below(2) == 0;
    match hall.inventory.tables().objects.find(object) {
        Some(version) if is_moved => open_move(alloc, seeds, version),
        _ => {
            let avoid = seeds.below(8);
            format!(in alloc; "open_copy {object} {avoid} copy 3")
        }
    }
}

/// The bytes of an object; none where nothing is kept of it.
fn bytes_of(hall: &Hall, object: u64) -> &[u8] {
    match hall.contents.get(&object) {
        Some(bytes) => bytes.as_slice(),
        None => &[],
    }
}

/// A piece of an object.
fn read(alloc: Global, seeds: &mut Seeds, hall: &Hall) -> Result<String, AllocError> {
    let object = object(seeds, hall);
    let bytes = bytes_of(hall, object);
    let text = text_of(alloc, bytes)?;
    let offset = seeds.below((bytes.len() as u64).saturating_add(2));
    let wanted = seeds.below(MOST_BYTES);
    let from = seeds.below(6).saturating_sub(2);
    format!(in alloc; "read {object} {text} {from} {offset} {wanted}")
}

/// A transaction on a version: its file is gone (`0e`), or it is not retained (`12`).
fn end_version(alloc: Global, object: u64, tag: &str) -> Result<String, AllocError> {
    let path = path_of(object);
    format!(in alloc; "plain 00000000{tag}000000010000000100022f3{path}{object:016x}")
}

/// An object goes with its copies (`13`), as its filespace is deleted.
fn discard(alloc: Global, hall: &Hall, object: u64) -> Result<String, AllocError> {
    let mut out = format!(in alloc; "plain 0000000013030000000100000001{object:016x}")?;
    put_digest(&mut out, &digest_of(bytes_of(hall, object)))?;
    Ok(out)
}

/// A copy goes, and others stay (`11`), as the volume is deleted where the first of its bytes are.
fn drop_copy(
    alloc: Global,
    hall: &Hall,
    object: u64,
    copy: &CopyRow,
) -> Result<String, AllocError> {
    let file = match copy.segments.as_slice().first() {
        Some(segment) => segment.file,
        None => 4,
    };
    let pool = copy.pool;
    let placed = copy.placed;
    let mut out = format!(in alloc;
        "plain 000000001102{file:08x}00000001{object:016x}{pool:08x}{placed:016x}"
    )?;
    put_digest(&mut out, &digest_of(bytes_of(hall, object)))?;
    Ok(out)
}

/// An object goes, or one of its copies.
fn end_copies(alloc: Global, seeds: &mut Seeds, hall: &Hall) -> Result<String, AllocError> {
    let object = object(seeds, hall);
    if seeds.below(3) > 0 {
        if let Some(version) = hall.inventory.tables().objects.find(object) {
            if let Some(copy) = copy_of(seeds, version) {
                return drop_copy(alloc, hall, object, copy);
            }
        }
    }
    discard(alloc, hall, object)
}

/// What may be done with the volume DISK1: it is read and written, only read, or neither.
fn access(alloc: Global, seeds: &mut Seeds) -> Result<String, AllocError> {
    let access = seeds.below(3).saturating_add(1);
    format!(in alloc;
        "plain 000000000b0200054449534b3100000001000000040000000000100000{access:02x}"
    )
}

/// The day that comes, or the same one.
fn day(alloc: Global, seeds: &mut Seeds, hall: &Hall) -> Result<String, AllocError> {
    let later = seeds.below(2);
    let today = u64::from(hall.inventory.tables().today.number());
    let day = today.saturating_add(later);
    format!(in alloc; "plain 0000000001{day:08x}")
}

fn ask(alloc: Global, seeds: &mut Seeds) -> Result<String, AllocError> {
    match seeds.below(5) {
        0 => format!(in alloc; "ask today"),
        1 => format!(in alloc; "ask unretained"),
        2 => format!(in alloc; "ask emptied"),
        3 => format!(in alloc; "ask held 1"),
        _ => {
            let pool = seeds.below(5);
            format!(in alloc; "ask onpool {pool}")
        }
    }
}

/// A step with a ticket that may be anyone's, or nobody's.
fn stray(alloc: Global, seeds: &mut Seeds, hall: &Hall) -> Result<String, AllocError> {
    let ticket = hall.next_ticket.saturating_sub(seeds.below(6));
    match seeds.below(6) {
        0 => format!(in alloc; "seal {ticket}"),
        1 => format!(in alloc; "copy_piece {ticket}"),
        2 => format!(in alloc; "placed {ticket}"),
        3 => format!(in alloc; "write {ticket} 9*9"),
        _ => format!(in alloc; "drop {ticket}"),
    }
}

/// The first volume that is emptied.
fn emptied(hall: &Hall) -> Option<u32> {
    match hall.ask(&Query::Emptied) {
        Ok(answer) => {
            let file = match &answer.rows {
                Rows::Emptied(files) => files.as_slice().first().copied(),
                _ => None,
            };
            drop(answer);
            file
        }
        Err(_) => None,
    }
}

/// A volume is used again, which is emptied, or now and then any.
fn reuse(alloc: Global, seeds: &mut Seeds, hall: &Hall) -> Result<String, AllocError> {
    let any = seeds.below(u64::from(hall.space.next_file()));
    let is_any = seeds.below(4) == 0;
    match emptied(hall) {
        Some(file) if !is_any => format!(in alloc; "reuse {file}"),
        _ => format!(in alloc; "reuse {any}"),
    }
}

/// A step of another kind.
fn other(alloc: Global, seeds: &mut Seeds, hall: &Hall) -> Result<String, AllocError> {
    match seeds.below(18) {
        0 => format!(in alloc; "force"),
        1 | 2 => read(alloc, seeds, hall),
        3 => ask(alloc, seeds),
        4 => day(alloc, seeds, hall),
        5 => end_version(alloc, object(seeds, hall), "0e"),
        6 | 7 => end_version(alloc, object(seeds, hall), "12"),
        8 => format!(in alloc; "image checkpoint"),
        9 => format!(in alloc; "image next"),
        10..=12 => reuse(alloc, seeds, hall),
        13 => access(alloc, seeds),
        14 | 15 => end_copies(alloc, seeds, hall),
        _ => stray(alloc, seeds, hall),
    }
}

/// The actor's next step.
pub fn step(
    alloc: Global,
    seeds: &mut Seeds,
    hall: &Hall,
    actor: u32,
) -> Result<String, AllocError> {
    let choice = seeds.below(16);
    if choice < 5 {
        return other(alloc, seeds, hall);
    }
    if choice > 6 {
        if let Some(number) = own(hall, actor, choice > 12) {
            return with_own(alloc, seeds, hall, number);
        }
    }
    if seeds.below(2) == 0 {
        open_new(alloc, seeds)
    } else {
        open_copy(alloc, seeds, hall)
    }
}
