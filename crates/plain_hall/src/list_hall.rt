//! The machine on which steps are made: one inventory, and plain lists of all else. It has no files: each object's bytes stand in memory, and an image in
//! progress is its numbers alone. So nothing fails in it but memory, and its numbers don't come to their bounds.
use crate::told::Told;
use entries::{Database, Entry};
use inventory::Inventory;
use inventory_rows::Tables;
use inventory_rows::volume_rows::{HeldSegment, Volume};
use kinds::{Digest, Holder, Refusal, Segment};
use sha2::{Digest as _, Sha256};
use space::{Aim, Placed, Places, Space};
use std::alloc::Global;
use std::collections::BTreeMap;

/// What a ticket is for.
#[derive(Clone, Copy)]
pub enum Purpose {
    /// A new object, which gets this number.
    Storing { object: u64 },
    /// A copy of this object.
    Copying { object: u64, aim: Aim },
}

/// Space that an actor has taken, and the bytes that it has written there.
#[derive(Drop)]
pub struct Ticket {
    pub actor: u32,
    pub purpose: Purpose,
    pub size: u64,
    pub pool: u32,
    pub segments: Vec<Segment>,
    pub bytes: Vec<u8>,
    pub is_sealed: bool,
}

/// An image in progress, by its numbers.
#[derive(Clone, Copy)]
pub struct Picture {
    pub actor: u32,
    pub is_checkpoint: bool,
    pub file: u32,
    pub seq: u64,
    /// How many bytes are not written yet, of those that the database had when it was begun.
    pub unwritten: usize,
    /// How many records of later transactions a checkpoint has copied.
    pub copied: u64,
}

#[derive(Drop)]
pub struct Hall {
    pub alloc: Global,
    pub inventory: Inventory,
    /// The number of the database that it began with.
    pub first: u64,
    pub space: Space,
    /// The tickets, by number.
    pub tickets: BTreeMap<u64, Ticket>,
    /// The bytes of each object.
    pub contents: BTreeMap<u64, Vec<u8>>,
    pub told: Told,
    /// How many bytes the record of each transaction has.
    pub lengths: Vec<u64>,
    pub next_object: u64,
    pub next_ticket: u64,
    pub image: Option<Picture>,
    pub generation: u64,
    pub log_length: u64,
}

/// The SHA-256 of some bytes.
pub fn digest_of(bytes: &[u8]) -> Digest {
    let mut hasher = Sha256::new();
    hasher.update(bytes);
    Digest(hasher.finalize())
}

/// So many bytes from an offset on, as far as they are there.
pub fn piece(bytes: &[u8], offset: u64, count: u64) -> &[u8] {
    let len = bytes.len() as u64;
    let start = offset.min(len);
    let count = count.min(len - start);
    &bytes[start as usize..(start + count) as usize]
}

/// How many bytes the record of a transaction has: its head, and what it is spelled in.
fn record_length(alloc: Global, entry: &Entry) -> Result<u64, Refusal> {
    let bytes = entry.encode(alloc)?;
    Ok(5 + bytes.len() as u64)
}

/// Makes a transaction, where it is legal.
fn apply(alloc: Global, inventory: &mut Inventory, entry: &Entry) -> Result<(), Refusal> {
    match inventory.legal(entry) {
        Ok(()) => {}
        Err(refusal) => return Err(refusal),
    }
    inventory.apply(alloc, entry)
}

fn holds(tables: &Tables, file: u32, segment: &HeldSegment) -> bool {
    match tables.pools.volumes().get(&file) {
        Some(volume) => volume.segments.as_map().get(segment).is_some(),
        None => false,
    }
}

fn push_gone(
    out: &mut Vec<Placed>,
    file: u32,
    volume: &Volume,
    after: &Tables,
) -> Result<(), Refusal> {
    for (held, _) in volume.segments.as_map() {
        if !holds(after, file, held) {
            let segment = Segment {
                file,
                offset: held.offset,
                len: held.len,
            };
            out.push(Placed {
                pool: volume.pool,
                segment,
            })?;
        }
    }
    Ok(())
}

/// The segments that a transaction took away.
fn gone(alloc: Global, before: &Tables, after: &Tables) -> Result<Places, Refusal> {
    let mut out = Vec::new(alloc);
    for (file, volume) in before.pools.volumes() {
        push_gone(&mut out, *file, volume, after)?;
    }
    Ok(Places::new(out))
}

impl Hall {
    /// A machine with the database of a server that was just formatted.
    pub fn new(alloc: Global) -> Result<Hall, Refusal> {
        let inventory = Inventory::fresh(alloc)?;
        Ok(Hall::behind(alloc, inventory, 0, BTreeMap::new(alloc)))
    }

    /// A machine that begins with this database, whose newest image is of this generation, and with the bytes of its objects. It takes no memory.
    pub fn behind(
        alloc: Global,
        inventory: Inventory,
        generation: u64,
        contents: BTreeMap<u64, Vec<u8>>,
    ) -> Hall {
        let first = inventory.number();
        let next_file = inventory.tables().next_file;
        let next_object = inventory.tables().next_object;
        Hall {
            alloc,
            inventory,
            first,
            space: Space::new(alloc, next_file),
            tickets: BTreeMap::new(alloc),
            contents,
            told: Told::new(alloc),
            lengths: Vec::new(alloc),
            next_object,
            next_ticket: 1,
            image: None,
            generation,
            log_length: 0,
        }
    }

    /// The number of the last transaction.
    pub fn number(&self) -> u64 {
        self.inventory.tables().number
    }

    /// Why a transaction isn't legal, where it isn't.
    pub fn illegal(&self, entry: &Entry) -> Option<Refusal> {
        self.inventory.refused(&self.told, &entry.change)
    }

    /// Notes what a transaction did.
    fn note(&mut self, before: &Inventory, length: u64) -> Result<(), Refusal> {
        self.told.note(before.tables(), self.inventory.tables())?;
        let places = gone(self.alloc, before.tables(), self.inventory.tables())?;
        let number = self.number();
        if !places.as_slice().is_empty() {
            self.space.note(number, places)?;
        }
        self.lengths.push(length)?;
        self.log_length = self.log_length.saturating_add(length);
        Ok(())
    }

    /// Makes a transaction, where it is legal, and answers its number. It isn't forced yet.
    pub fn join(&mut self, entry: &Entry) -> Result<u64, Refusal> {
        let length = record_length(self.alloc, entry)?;
        let before = self.inventory.copy(self.alloc)?;
        let made = apply(self.alloc, &mut self.inventory, entry);
        let noted = match made {
            Ok(()) => self.note(&before, length),
            Err(refusal) => Err(refusal),
        };
        drop(before);
        match noted {
            Ok(()) => Ok(self.number()),
            Err(refusal) => Err(refusal),
        }
    }

    /// Makes every transaction durable, and answers the number of the last one.
    pub fn force(&mut self) -> u64 {
        self.space.force();
        self.number()
    }

    /// The least ticket that has space on the volume, as what is waited for.
    pub fn held_on(&self, file: u32) -> Option<Refusal> {
        for (number, ticket) in &self.tickets {
            if ticket.segments.as_slice().iter().any(|s| s.file == file) {
                return Some(Refusal::Busy(Holder::Ticket(*number)));
            }
        }
        None
    }

    /// The least ticket that is placed in the pool, as what is waited for.
    pub fn held_in(&self, pool: u32) -> Option<Refusal> {
        for (number, ticket) in &self.tickets {
            if ticket.pool == pool {
                return Some(Refusal::Busy(Holder::Ticket(*number)));
            }
        }
        None
    }

    /// The actor's ticket with this number.
    pub fn own(&self, actor: u32, number: u64) -> Option<&Ticket> {
        match self.tickets.get(&number) {
            Some(ticket) => {
                if ticket.actor == actor {
                    Some(ticket)
                } else {
                    None
                }
            }
            None => None,
        }
    }

    /// A ticket goes, with its space.
    pub fn let_go(&mut self, number: u64) {
        drop(self.tickets.remove(&number));
        self.space.release(number);
    }
}
