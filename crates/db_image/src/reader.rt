// An image as it is read.
ghost use Rattle.std.specs.Prelude.{◌≡◌, ◌<◌, ◌≤◌, ◌^◌, ◌+◌, ◌++◌, min, length, take, drop, IfOk, OnOk, IfErr, IfSome};
ghost use Rattle.kinds.specs.declared.refusal.OpenRefused.TheVariants.{Memory};
ghost use Rattle.store_api.specs.Told.{Told};
ghost use Rattle.log_file.specs.Cursor.{MayRefuse, Looked};
ghost use Rattle.log_file.specs.Windows.{IfReads, Onward, NoDamage};
ghost use Rattle.db_image.specs.Reads.{FindsHead, FindsImage};

use crate::head::{FRONT, Head, parse_head};
use crate::mark::Mark;
use crate::writer::Image;
use kinds::OpenRefused;
use log_file::{file_len, read_piece};
use std::alloc::Global;
use store_api::Store;

/// The most bytes of the payload that one read takes.
const PIECE: usize = 65_536;

/// Adds what stands at the place, as much as the buffer holds, but at most so many bytes.
fn add_piece<S: Store>(
    store: &mut S,
    file: u32,
    at: u64,
    most: u64,
    buffer: &mut Vec<u8>,
    payload: &mut Vec<u8>,
) -> Result<(), OpenRefused>
    requires some { 0 < most }
    requires room { 0 < length buffer.old.items }
    ensures looked { Told (S.told store.old) (S.told store.new) Looked }
    ensures same { length buffer.new.items ≡ length buffer.old.items }
    ensures adds { OnOk result (IfReads (S.told store.old) file (λ bytes. at + most ≤ length bytes → payload.new.items ≡ payload.old.items ++ take (min (length buffer.old.items) most) (drop at bytes))) }
    ensures further { OnOk result ((length payload.old.items < length payload.new.items) × (length payload.new.items ≤ length payload.old.items + most)) }
    ensures undamaged { IfReads (S.told store.old) file (λ bytes. at + most ≤ length bytes → IfErr result NoDamage) }
    ensures refused { IfErr result (MayRefuse file (S.faults_of store.old) (S.faults_of store.new) (S.moment_of store.new)) }
    ensures onward { Onward (S.moment_of store.old) (S.moment_of store.new) (S.faults_of store.old) (S.faults_of store.new) }
{
    let count = match read_piece(store, file, at, buffer) {
        Ok(count) => most.min(count as u64) as usize,
        Err(refused) => return Err(refused),
    };
    if count == 0 {
        return Err(OpenRefused::Damaged(file, 16));
    }
    match payload.extend_from_slice(&buffer[..count]) {
        Ok(()) => Ok(()),
        Err(_) => Err(OpenRefused::Memory),
    }
}

/// Room for one piece.
fn piece_room(alloc: Global) -> Result<Vec<u8>, OpenRefused>
    ensures room { IfOk result (λ buffer. 0 < length buffer.items) }
    ensures memory { IfErr result (λ refusal. refusal ≡ Memory) }
{
    match vec![in alloc; 0u8; PIECE] {
        Ok(buffer) => Ok(buffer),
        Err(_) => Err(OpenRefused::Memory),
    }
}

/// The payload, which has so many bytes.
fn read_payload<S: Store>(
    alloc: Global,
    store: &mut S,
    file: u32,
    len: u64,
) -> Result<Vec<u8>, OpenRefused>
    requires { 24 + len < 2 ^ 64 }
    ensures looked { Told (S.told store.old) (S.told store.new) Looked }
    ensures bytes { IfOk result (λ payload. IfReads (S.told store.old) file (λ bytes. 24 + len ≤ length bytes → payload.items ≡ take len (drop 24 bytes))) }
    ensures undamaged { IfReads (S.told store.old) file (λ bytes. 24 + len ≤ length bytes → IfErr result NoDamage) }
    ensures refused { IfErr result (MayRefuse file (S.faults_of store.old) (S.faults_of store.new) (S.moment_of store.new)) }
    ensures onward { Onward (S.moment_of store.old) (S.moment_of store.new) (S.faults_of store.old) (S.faults_of store.new) }
{
    let mut buffer = match piece_room(alloc) {
        Ok(buffer) => buffer,
        Err(refused) => return Err(refused),
    };
    let mut payload = match Vec::with_capacity(alloc, len as usize) {
        Ok(payload) => payload,
        Err(_) => return Err(OpenRefused::Memory),
    };
    let mut done = 0;
    'pieces: while done < len {
        match add_piece(
            store,
            file,
            FRONT + done,
            len - done,
            &mut buffer,
            &mut payload,
        ) {
            Ok(()) => done = payload.len() as u64,
            Err(refused) => return Err(refused),
        }
    }
    Ok(payload)
}

impl Image {
    /// What an image says in front of its payload, none where the gate isn't open. Refused with `Damaged` at 1 where the mark
    /// is another, at 8 where the number is none that an image in this file may have, and at 16 where the payload leads
    /// past the file's end; with `ReadFault` only where a call on the file failed; and with `RunFull` only where the
    /// moment is, or came to, 2^62 - 2^24.
    ///
    /// A server's image of generation 2^62 - 1 in the first form (its payload begins with the byte 1) is `Damaged` at 8 too: to open
    /// such a store the next generation has to be written, and there is none. Where the file ends before that byte, this is
    /// not found.
    pub fn head<S: Store>(store: &mut S, file: u32, mark: Mark) -> Result<Option<Head>, OpenRefused>
        ensures looked { Told (S.told store.old) (S.told store.new) Looked }
        ensures finds { IfReads (S.told store.old) file (λ bytes. FindsHead file mark bytes result) }
        ensures within { IfOk result (λ found. IfSome found (λ head. 24 + head.len < 2 ^ 64)) }
        ensures refused { IfErr result (MayRefuse file (S.faults_of store.old) (S.faults_of store.new) (S.moment_of store.new)) }
        ensures onward { Onward (S.moment_of store.old) (S.moment_of store.new) (S.faults_of store.old) (S.faults_of store.new) }
    {
        let len = match file_len(store, file) {
            Ok(len) => len,
            Err(refused) => return Err(refused),
        };
        let mut bytes = [0u8; 25];
        match read_piece(store, file, 0, &mut bytes) {
            Ok(count) => parse_head(&bytes[..count], mark, file, len),
            Err(refused) => Err(refused),
        }
    }

    /// The number and the payload of an image, none where the gate isn't open. Refused as `head` is, also a
    /// server's image of generation 2^62 - 1 in the first form, which has no next one; and for want of memory.
    pub fn read<S: Store>(
        alloc: Global,
        store: &mut S,
        file: u32,
        mark: Mark,
    ) -> Result<Option<(u64, Vec<u8>)>, OpenRefused>
        ensures looked { Told (S.told store.old) (S.told store.new) Looked }
        ensures finds { IfReads (S.told store.old) file (λ bytes. FindsImage file mark bytes result) }
        ensures refused { IfErr result (MayRefuse file (S.faults_of store.old) (S.faults_of store.new) (S.moment_of store.new)) }
        ensures onward { Onward (S.moment_of store.old) (S.moment_of store.new) (S.faults_of store.old) (S.faults_of store.new) }
    {
        match Image::head(store, file, mark) {
            Ok(None) => Ok(None),
            Ok(Some(head)) => match read_payload(alloc, store, file, head.len) {
                Ok(payload) => Ok(Some((head.number, payload))),
                Err(refused) => Err(refused),
            },
            Err(refused) => Err(refused),
        }
    }
}
