// How a vault is opened.
ghost use Rattle.std.specs.Prelude.{◌≡◌, ◌+◌, ◌≤◌, ◌^◌, ◌-◌, max, length, IfOk, OnOk, IfErr, IfSome, IfNone, None, ◌<◌, ℕ, List, true, if◌then◌else◌};
ghost use Rattle.std.specs.Option.{option_map};
ghost use Rattle.store_api.specs.Cause.{NoneFell};
ghost use Rattle.store_api.specs.Disk.{reads};
ghost use Rattle.store_api.specs.Told.{Told};
ghost use Rattle.kinds.specs.declared.refusal.OpenRefused.TheVariants.{Memory};
ghost use Rattle.log_file.specs.Cursor.{MayRefuse, Looked};
ghost use Rattle.log_file.specs.Windows.{Onward, IfReads, NoDamage};
ghost use Rattle.entries.specs.declared.entry.Entry.{Entry};
ghost use Rattle.entries.specs.EntryForm.{SpellsIn};
ghost use Rattle.entries.specs.Meaning.{IsLegal, Spells};
ghost use Rattle.vault.specs.Files.{image_file, log_file};
ghost use Rattle.vault.specs.Recovery.{Newest, IsForeign};
ghost use Rattle.vault.specs.Openings.{SettledAll, SaysNothing, has_open_gate, is_formatted, MayRefuseLooking, greater, FindsNewest, FindsBase, form_of, AppliesEntry, Applies, Replayed, Recovered, Opened, IsNew, MayRefuseOpening};

use crate::files::{LAST, image_file, log_file};
use crate::format::rewrite;
use crate::vault::Vault;
use db_image::{Head, Image, Mark};
use entries::{Database, Entry};
use kinds::OpenRefused;
use log_file::{Log, Records, read_piece, settle};
use std::alloc::Global;
use store_api::Store;

/// How many files the vault has.
const FILES: u32 = 4;

/// Makes the vault's files durable.
pub(crate) fn settle_all<S: Store>(store: &mut S) -> Result<(), OpenRefused>
    ensures told { Told (S.told store.old) (S.told store.new) (SettledAll result) }
    ensures device { IfErr result SaysNothing }
    ensures refused { IfErr result (MayRefuseOpening (S.faults_of store.old) (S.faults_of store.new) (S.moment_of store.new)) }
    ensures onward { Onward (S.moment_of store.old) (S.moment_of store.new) (S.faults_of store.old) (S.faults_of store.new) }
{
    let mut file = 0;
    'files: while file < FILES {
        match settle(store, file) {
            Ok(()) => file += 1,
            Err(refused) => return Err(refused),
        }
    }
    Ok(())
}

/// Whether the gate of a file is open.
fn is_open<S: Store>(store: &mut S, file: u32) -> Result<bool, OpenRefused>
    ensures looked { Told (S.told store.old) (S.told store.new) Looked }
    ensures gate { IfOk result (λ is. IfReads (S.told store.old) file (λ bytes. is ≡ has_open_gate bytes)) }
    ensures undamaged { IfErr result NoDamage }
    ensures refused { IfErr result (MayRefuse file (S.faults_of store.old) (S.faults_of store.new) (S.moment_of store.new)) }
    ensures onward { Onward (S.moment_of store.old) (S.moment_of store.new) (S.faults_of store.old) (S.faults_of store.new) }
{
    let mut gate = [0u8; 1];
    match read_piece(store, file, 0, &mut gate) {
        Ok(count) => Ok(count == 1 && gate[0] == 1),
        Err(refused) => Err(refused),
    }
}

/// Whether an image has an open gate, and so something is there that formatting would take away. Refused with `ReadFault` only where a
/// call on a file failed, and with `RunFull` only where the moment is, or came to, 2^62 - 2^24.
pub fn is_formatted<S: Store>(store: &mut S) -> Result<bool, OpenRefused>
    ensures looked { Told (S.told store.old) (S.told store.new) Looked }
    ensures gates { IfOk result (λ is. IfSome (S.told store.old) (λ h. is ≡ is_formatted (reads h))) }
    ensures refused { IfErr result (MayRefuseLooking (S.faults_of store.old) (S.faults_of store.new) (S.moment_of store.new)) }
    ensures onward { Onward (S.moment_of store.old) (S.moment_of store.new) (S.faults_of store.old) (S.faults_of store.new) }
{
    match is_open(store, 0) {
        Ok(false) => {}
        Ok(true) => return Ok(true),
        Err(refused) => return Err(refused),
    }
    is_open(store, 1)
}

/// The greater generation of two images of which each may have an open gate.
fn greater(first: Option<Head>, second: Option<Head>) -> Option<u64>
    ensures { result ≡ greater (option_map (λ head. head.number) first) (option_map (λ head. head.number) second) }
{
    match (first, second) {
        (Some(first), Some(second)) => {
            if first.number < second.number {
                Some(second.number)
            } else {
                Some(first.number)
            }
        }
        (Some(first), None) => Some(first.number),
        (None, Some(second)) => Some(second.number),
        (None, None) => None,
    }
}

/// The generation of the newest image.
fn newest<S: Store>(store: &mut S) -> Result<u64, OpenRefused>
    ensures looked { Told (S.told store.old) (S.told store.new) Looked }
    ensures finds { IfSome (S.told store.old) (λ h. FindsNewest (reads h) result) }
    ensures refused { IfErr result (MayRefuseOpening (S.faults_of store.old) (S.faults_of store.new) (S.moment_of store.new)) }
    ensures onward { Onward (S.moment_of store.old) (S.moment_of store.new) (S.faults_of store.old) (S.faults_of store.new) }
{
    let first = match Image::head(store, 0, Mark::Server) {
        Ok(first) => first,
        Err(refused) => return Err(refused),
    };
    let second = match Image::head(store, 1, Mark::Server) {
        Ok(second) => second,
        Err(refused) => return Err(refused),
    };
    match greater(first, second) {
        Some(generation) => Ok(generation),
        None => Err(OpenRefused::NotFormatted),
    }
}

/// The database whose spelling a payload is in one of the two forms, and whether in the first.
fn decode_base<D: Database>(alloc: Global, payload: &[u8]) -> Result<Option<(D, bool)>, OpenRefused>
    ensures found { IfOk result (λ o. IfSome o (λ found. Spells D.meaning (form_of found.1) payload.now found.0)) }
    ensures none { IfOk result (λ o. IfNone o (IsForeign D.meaning payload.now)) }
    ensures memory { IfErr result (λ refusal. refusal ≡ Memory) }
{
    match D::decode_two(alloc, payload) {
        Ok(Some(database)) => return Ok(Some((database, false))),
        Ok(None) => {}
        Err(_) => return Err(OpenRefused::Memory),
    }
    match D::decode_one(alloc, payload) {
        Ok(Some(database)) => Ok(Some((database, true))),
        Ok(None) => Ok(None),
        Err(_) => Err(OpenRefused::Memory),
    }
}

/// The database that an image of this generation holds, and whether it is in the first form.
fn read_base<D: Database, S: Store>(
    alloc: Global,
    store: &mut S,
    generation: u64,
) -> Result<(D, bool), OpenRefused>
    ensures looked { Told (S.told store.old) (S.told store.new) Looked }
    ensures finds { IfSome (S.told store.old) (λ h. (payload : List ℕ) → Newest (reads h) generation payload → FindsBase D.meaning generation payload result) }
    ensures more { IfOk result (λ found. found.1 ≡ true → generation + 1 < 2 ^ 62) }
    ensures refused { IfErr result (MayRefuseOpening (S.faults_of store.old) (S.faults_of store.new) (S.moment_of store.new)) }
    ensures onward { Onward (S.moment_of store.old) (S.moment_of store.new) (S.faults_of store.old) (S.faults_of store.new) }
{
    let file = image_file(generation);
    let payload = match Image::read(alloc, store, file, Mark::Server) {
        Ok(Some((_, payload))) => payload,
        Ok(None) => return Err(OpenRefused::NotFormatted),
        Err(refused) => return Err(refused),
    };
    match decode_base(alloc, &payload) {
        Ok(Some(found)) => {
            // Behind the last generation none can be written, and in the first form it can't stay.
            if found.1 && generation >= LAST {
                return Err(OpenRefused::Damaged(file, 8));
            }
            Ok(found)
        }
        Ok(None) => Err(OpenRefused::Damaged(file, 24)),
        Err(refused) => Err(refused),
    }
}

/// Applies an entry where it is legal.
fn apply_legal<D: Database>(
    alloc: Global,
    database: &mut D,
    entry: &Entry,
) -> Result<bool, OpenRefused>
    ensures applies { IfOk result (AppliesEntry D.meaning entry.now database.old database.new) }
    ensures memory { IfErr result (λ refusal. refusal ≡ Memory) }
{
    match database.legal(entry) {
        Ok(()) => match database.apply(alloc, entry) {
            Ok(()) => Ok(true),
            Err(_) => Err(OpenRefused::Memory),
        },
        Err(_) => Ok(false),
    }
}

/// The entry whose spelling a record is in the first form or in the second.
fn decode_record(alloc: Global, first: bool, payload: &[u8]) -> Result<Option<Entry>, OpenRefused>
    ensures found { IfOk result (λ o. IfSome o (λ e. SpellsIn (form_of first) payload.now e)) }
    ensures none { IfOk result (λ o. IfNone o ((e : Entry) → SpellsIn (form_of first) payload.now e → ⊥)) }
    ensures memory { IfErr result (λ refusal. refusal ≡ Memory) }
{
    let decoded = if first {
        Entry::decode_one(alloc, payload)
    } else {
        Entry::decode(alloc, payload)
    };
    match decoded {
        Ok(found) => Ok(found),
        Err(_) => Err(OpenRefused::Memory),
    }
}

/// Applies the entry that a record is, where it is one of its form and legal.
fn apply_record<D: Database>(
    alloc: Global,
    database: &mut D,
    first: bool,
    payload: &[u8],
) -> Result<bool, OpenRefused>
    ensures applies { IfOk result (Applies (form_of first) D.meaning payload.now database.old database.new) }
    ensures memory { IfErr result (λ refusal. refusal ≡ Memory) }
{
    match decode_record(alloc, first, payload) {
        Ok(Some(entry)) => {
            let applied = apply_legal(alloc, database, &entry);
            drop(entry);
            applied
        }
        Ok(None) => Ok(false),
        Err(refused) => Err(refused),
    }
}

/// Makes a log durable and applies its entries one after another, which are in the first form or in the second.
fn replay<D: Database, S: Store>(
    alloc: Global,
    store: &mut S,
    file: u32,
    first: bool,
    database: &mut D,
) -> Result<Log, OpenRefused>
    requires ours { file < 4 }
    ensures told { Told (S.told store.old) (S.told store.new) (Replayed (form_of first) D.meaning database.old file result database.new) }
    ensures log { IfOk result (λ log. (log.file ≡ file) × (log.sure ≡ log.end) × (log.doubt ≡ None)) }
    ensures refused { IfErr result (MayRefuseOpening (S.faults_of store.old) (S.faults_of store.new) (S.moment_of store.new)) }
    ensures onward { Onward (S.moment_of store.old) (S.moment_of store.new) (S.faults_of store.old) (S.faults_of store.new) }
{
    let mut records = match Records::open(alloc, store, file) {
        Ok(records) => records,
        Err(refused) => return Err(refused),
    };
    'records: loop {
        match records.next(alloc, store) {
            Ok(Some(record)) => match apply_record(alloc, database, first, &record.payload) {
                Ok(true) => {}
                Ok(false) => return Err(OpenRefused::Damaged(file, record.at + 5)),
                Err(refused) => return Err(refused),
            },
            Ok(None) => return Ok(records.finish()),
            Err(refused) => return Err(refused),
        }
    }
}

/// Makes the vault's files durable, and then reads what they recover to: of the images with an open gate that of the
/// greater generation, and after it the entries of its log. Answers also whether they are in the first form.
pub(crate) fn recover<D: Database, S: Store>(
    alloc: Global,
    store: &mut S,
) -> Result<(Vault<D>, bool), OpenRefused>
    ensures told { Told (S.told store.old) (S.told store.new) (Recovered D.meaning result) }
    ensures begun { IfOk result (λ found. IsNew found.0) }
    ensures more { IfOk result (λ found. found.1 ≡ true → found.0.generation + 1 < 2 ^ 62) }
    ensures refused { IfErr result (MayRefuseOpening (S.faults_of store.old) (S.faults_of store.new) (S.moment_of store.new)) }
    ensures onward { Onward (S.moment_of store.old) (S.moment_of store.new) (S.faults_of store.old) (S.faults_of store.new) }
{
    match settle_all(store) {
        Ok(()) => {}
        Err(refused) => return Err(refused),
    }
    let generation = match newest(store) {
        Ok(generation) => generation,
        Err(refused) => return Err(refused),
    };
    let (mut database, first): (D, bool) = match read_base(alloc, store, generation) {
        Ok(found) => found,
        Err(refused) => return Err(refused),
    };
    match replay(alloc, store, log_file(generation), first, &mut database) {
        Ok(log) => Ok((Vault::opened(alloc, generation, database, log), first)),
        Err(refused) => Err(refused),
    }
}

impl<D: Database> Vault<D> {
    /// Opens the vault that the files recover to, after they were made durable: of the images with an open gate that of the
    /// greater generation, and after it the entries of its log. Where these are in the first form, it is written as the next
    /// generation in the second before it is answered. Refused with `NotFormatted` where no image has an open gate; with
    /// `Damaged` and the first finding; with `ReadFault` only where a call on a file failed; with `RunFull` only where the
    /// moment is, or came to, 2^62 - 2^24; and for want of memory.
    pub fn open<S: Store>(alloc: Global, store: &mut S) -> Result<Vault<D>, OpenRefused>
        ensures told { Told (S.told store.old) (S.told store.new) (Opened D.meaning result) }
        ensures begun { IfOk result IsNew }
        ensures refused { IfErr result (MayRefuseOpening (S.faults_of store.old) (S.faults_of store.new) (S.moment_of store.new)) }
        ensures time { S.moment_of store.new ≤ max (S.moment_of store.old) (2 ^ 62) }
        ensures later { S.moment_of store.old ≤ S.moment_of store.new }
        ensures counts { NoneFell (S.faults_of store.old) (S.faults_of store.new) }
    {
        let (vault, first): (Vault<D>, bool) = match recover(alloc, store) {
            Ok(found) => found,
            Err(refused) => return Err(refused),
        };
        if first {
            return rewrite(alloc, store, vault);
        }
        Ok(vault)
    }
}
