// Reading a file piece by piece.
ghost use Rattle.std.specs.Prelude.{◌≡◌, ◌<◌, ◌≤◌, ◌^◌, ◌+◌, ◌-◌, ◌++◌, min, [], length, take, drop, IfOk, OnOk, IfErr, IfSome, Ok};
ghost use Rattle.kinds.specs.declared.refusal.OpenRefused.TheVariants.{RunFull, Damaged};
ghost use Rattle.store_api.specs.Disk.{standing, settled, reads};
ghost use Rattle.store_api.specs.Runs.{GoesOn};
ghost use Rattle.store_api.specs.Told.{Told, Adds, MaySync, ReadsFrom};
ghost use Rattle.log_file.specs.Cursor.{Shows, MayRefuse, Looked};
ghost use Rattle.log_file.specs.Windows.{IfReads, Onward, NoDamage, HeadIs, HeadGives, between};
ghost use Rattle.log_file.specs.Starts.{Settled};

use crate::frame::MOST;
use crate::reads::read_piece;
use kinds::OpenRefused;
use std::alloc::{AllocError, Global};
use std::marker::Model;
use store_api::Store;

const PIECE: usize = 65_536;

/// A piece of a file, at most 65,536 bytes, that is held in memory, and the file's length.
#[derive(Drop)]
pub(crate) struct Window {
    file: u32,
    len: u64,
    from: u64,
    have: usize,
    buffer: Vec<u8>,
}

impl Model for Window {
    ghost use Rattle.std.specs.Prelude.{◌≡◌, ◌≤◌, ◌+◌, length, take};
    ghost use Rattle.log_file.specs.Cursor.{Held};

    ghost Value = { Held };

    ghost view = { λ w. record { file = w.file; len = w.len; from = w.from; piece = take w.have w.buffer.items } };

    ghost invariant = { λ w. (w.have ≤ 65536) × (length w.buffer.items ≡ 65536) × (w.from + w.have ≤ w.len) };
}

/// Reads what stands at the place into the buffer, as much as it holds.
fn read_buffer<S: Store>(
    store: &mut S,
    file: u32,
    at: u64,
    into: &mut Vec<u8>,
) -> Result<usize, OpenRefused>
    ensures looked { Told (S.told store.old) (S.told store.new) Looked }
    ensures bytes { IfOk result (λ count. IfReads (S.told store.old) file (λ bytes. ReadsFrom bytes at into.new.items count)) }
    ensures len { length into.new.items ≡ length into.old.items }
    ensures bound { IfOk result (λ count. count ≤ length into.new.items) }
    ensures undamaged { IfErr result NoDamage }
    ensures refused { IfErr result (MayRefuse file (S.faults_of store.old) (S.faults_of store.new) (S.moment_of store.new)) }
    ensures onward { Onward (S.moment_of store.old) (S.moment_of store.new) (S.faults_of store.old) (S.faults_of store.new) }
{
    read_piece(store, file, at, into)
}

impl Window {
    /// Holds nothing yet.
    pub fn new(alloc: Global, file: u32, len: u64) -> Result<Window, AllocError>
        ensures { IfOk result (λ window. window ≡ record { file = file; len = len; from = 0; piece = [] }) }
    {
        let buffer = vec![in alloc; 0u8; PIECE]?;
        Ok(Window {
            file,
            len,
            from: 0,
            have: 0,
            buffer,
        })
    }

    /// The file's number.
    pub fn file(&self) -> u32
        ensures { result ≡ self.now.file }
    {
        self.file
    }

    /// Reads the piece that begins at the place. Where the file turns out shorter than its length it answers `Damaged`
    /// with the mark, and holds nothing.
    fn refill<S: Store>(
        &mut self,
        store: &mut S,
        mark: u64,
        at: u64,
        need: usize,
    ) -> Result<(), OpenRefused>
        requires within { at + need ≤ self.old.len }
        requires small { need ≤ 65536 }
        ensures looked { Told (S.told store.old) (S.told store.new) Looked }
        ensures same { (self.new.file ≡ self.old.file) × (self.new.len ≡ self.old.len) }
        ensures covers { OnOk result ((self.new.from ≤ at) × (at + need ≤ self.new.from + length self.new.piece)) }
        ensures shows { IfReads (S.told store.old) self.old.file (λ bytes. Shows bytes self.old → Shows bytes self.new × IfErr result NoDamage) }
        ensures refused { IfErr result (MayRefuse self.old.file (S.faults_of store.old) (S.faults_of store.new) (S.moment_of store.new)) }
        ensures onward { Onward (S.moment_of store.old) (S.moment_of store.new) (S.faults_of store.old) (S.faults_of store.new) }
    {
        let file = self.file;
        let left = self.len - at;
        self.have = 0;
        match read_buffer(store, file, at, &mut self.buffer) {
            Ok(read) => {
                let have = left.min(read as u64) as usize;
                if have < need {
                    return Err(OpenRefused::Damaged(file, mark));
                }
                self.from = at;
                self.have = have;
                Ok(())
            }
            Err(refused) => Err(refused),
        }
    }

    /// Holds a piece that has these bytes. Refused as `refill` is.
    fn fill<S: Store>(
        &mut self,
        store: &mut S,
        mark: u64,
        at: u64,
        need: usize,
    ) -> Result<(), OpenRefused>
        requires within { at + need ≤ self.old.len }
        requires small { need ≤ 65536 }
        ensures looked { Told (S.told store.old) (S.told store.new) Looked }
        ensures same { (self.new.file ≡ self.old.file) × (self.new.len ≡ self.old.len) }
        ensures covers { OnOk result ((self.new.from ≤ at) × (at + need ≤ self.new.from + length self.new.piece)) }
        ensures shows { IfReads (S.told store.old) self.old.file (λ bytes. Shows bytes self.old → Shows bytes self.new × IfErr result NoDamage) }
        ensures refused { IfErr result (MayRefuse self.old.file (S.faults_of store.old) (S.faults_of store.new) (S.moment_of store.new)) }
        ensures onward { Onward (S.moment_of store.old) (S.moment_of store.new) (S.faults_of store.old) (S.faults_of store.new) }
    {
        if self.from <= at && at + need as u64 <= self.from + self.have as u64 {
            return Ok(());
        }
        self.refill(store, mark, at, need)
    }

    /// What is held from the place on, at most so many bytes.
    fn shown(&self, at: u64, most: u64) -> &[u8]
        requires low { self.now.from ≤ at }
        requires high { at ≤ self.now.from + length self.now.piece }
        ensures bytes { result.now ≡ take most (drop (at - self.now.from) self.now.piece) }
        ensures len { length result.now ≡ min most (self.now.from + length self.now.piece - at) }
    {
        let low = (at - self.from) as usize;
        let left = self.have - low;
        let count = most.min(left as u64) as usize;
        &self.buffer[low..low + count]
    }

    /// The length of the record whose gate is at the place; none where no open gate is there.
    pub fn head<S: Store>(&mut self, store: &mut S, at: u64) -> Result<Option<u32>, OpenRefused>
        requires { at ≤ self.old.len }
        ensures looked { Told (S.told store.old) (S.told store.new) Looked }
        ensures same { (self.new.file ≡ self.old.file) × (self.new.len ≡ self.old.len) }
        ensures within { IfOk result (λ found. IfSome found (λ len. (at + (5 + len) ≤ self.old.len) × (len ≤ 2 ^ 24))) }
        ensures fits { IfOk result (λ found. IfSome found (λ len. at + (5 + len) < 2 ^ 64)) }
        ensures shows { IfReads (S.told store.old) self.old.file (λ bytes. Shows bytes self.old → Shows bytes self.new × HeadIs bytes at result) }
        ensures refused { IfErr result (MayRefuse self.old.file (S.faults_of store.old) (S.faults_of store.new) (S.moment_of store.new)) }
        ensures onward { Onward (S.moment_of store.old) (S.moment_of store.new) (S.faults_of store.old) (S.faults_of store.new) }
    {
        let file = self.file;
        let left = self.len - at;
        if left == 0 {
            return Ok(None);
        }
        let need = left.min(5) as usize;
        match self.fill(store, at + 1, at, need) {
            Ok(()) => read_head(self.shown(at, need as u64), file, at, left),
            Err(refused) => Err(refused),
        }
    }

    /// Adds what stands from one place to another, or the first part of it, and answers how far it came.
    fn add_piece<S: Store>(
        &mut self,
        store: &mut S,
        mark: u64,
        at: u64,
        end: u64,
        payload: &mut Vec<u8>,
    ) -> Result<u64, OpenRefused>
        requires some { at < end }
        requires within { end ≤ self.old.len }
        ensures looked { Told (S.told store.old) (S.told store.new) Looked }
        ensures same { (self.new.file ≡ self.old.file) × (self.new.len ≡ self.old.len) }
        ensures further { IfOk result (λ place. (at < place) × (place ≤ end)) }
        ensures shows { IfReads (S.told store.old) self.old.file (λ bytes. Shows bytes self.old → Shows bytes self.new × IfErr result NoDamage) }
        ensures adds { IfOk result (λ place. IfReads (S.told store.old) self.old.file (λ bytes. Shows bytes self.old → payload.new.items ≡ payload.old.items ++ between bytes at place)) }
        ensures refused { IfErr result (MayRefuse self.old.file (S.faults_of store.old) (S.faults_of store.new) (S.moment_of store.new)) }
        ensures onward { Onward (S.moment_of store.old) (S.moment_of store.new) (S.faults_of store.old) (S.faults_of store.new) }
    {
        match self.fill(store, mark, at, 1) {
            Ok(()) => {}
            Err(refused) => return Err(refused),
        }
        let piece = self.shown(at, end - at);
        match payload.extend_from_slice(piece) {
            Ok(()) => Ok(at + piece.len() as u64),
            Err(_) => Err(OpenRefused::Memory),
        }
    }

    /// The bytes of the record whose gate is at the place.
    pub fn payload<S: Store>(
        &mut self,
        alloc: Global,
        store: &mut S,
        at: u64,
        len: u32,
    ) -> Result<Vec<u8>, OpenRefused>
        requires { at + (5 + len) ≤ self.old.len }
        ensures looked { Told (S.told store.old) (S.told store.new) Looked }
        ensures same { (self.new.file ≡ self.old.file) × (self.new.len ≡ self.old.len) }
        ensures shows { IfReads (S.told store.old) self.old.file (λ bytes. Shows bytes self.old → Shows bytes self.new × IfErr result NoDamage) }
        ensures bytes { IfOk result (λ payload. IfReads (S.told store.old) self.old.file (λ bytes. Shows bytes self.old → payload.items ≡ between bytes (at + 5) (at + (5 + len)))) }
        ensures refused { IfErr result (MayRefuse self.old.file (S.faults_of store.old) (S.faults_of store.new) (S.moment_of store.new)) }
        ensures onward { Onward (S.moment_of store.old) (S.moment_of store.new) (S.faults_of store.old) (S.faults_of store.new) }
    {
        let _ = &self.file;
        let mut payload = match Vec::with_capacity(alloc, len as usize) {
            Ok(payload) => payload,
            Err(_) => return Err(OpenRefused::Memory),
        };
        let end = at + 5 + len as u64;
        let mut place = at + 5;
        'pieces: while place < end {
            match self.add_piece(store, at + 1, place, end, &mut payload) {
                Ok(further) => place = further,
                Err(refused) => return Err(refused),
            }
        }
        Ok(payload)
    }
}

/// What the bytes at a gate say, with `left` bytes from the gate to the file's end; all of those are there, or five.
fn read_head(head: &[u8], file: u32, at: u64, left: u64) -> Result<Option<u32>, OpenRefused>
    requires some { 0 < left }
    requires whole { length head.now ≡ min left 5 }
    requires fits { at + left < 2 ^ 64 }
    ensures within { IfOk result (λ found. IfSome found (λ len. (5 + len ≤ left) × (len ≤ 2 ^ 24))) }
    ensures file { IfErr result (λ refusal. refusal ≡ Damaged file (at + 1)) }
    ensures head { HeadGives head.now left result }
{
    if head[0] != 1 {
        return Ok(None);
    }
    let damaged = OpenRefused::Damaged(file, at + 1);
    if left < 5 {
        return Err(damaged);
    }
    let len = u32::from_be_bytes([head[1], head[2], head[3], head[4]]);
    if len > MOST || left - 5 < len as u64 {
        return Err(damaged);
    }
    Ok(Some(len))
}
