// The log as its writer holds it.
ghost use Rattle.std.specs.Prelude.{ℕ, ◌≡◌, ◌⊎◌, ◌<◌, ◌≤◌, ◌^◌, ◌+◌, ◌-◌, max, length, IfOk, OnOk, IfErr, OnErr, IfSome, IfNone, Some, None, Err, IsOk};
ghost use Rattle.kinds.specs.declared.refusal.Refusal.TheVariants.{LogFault, RecordFull, Memory};
ghost use Rattle.kinds.specs.declared.refusal.OpenRefused.TheVariants.{ReadFault};
ghost use Rattle.store_api.specs.Cause.{Rose, NoneFell};
ghost use Rattle.store_api.specs.Told.{Told};
ghost use Rattle.log_file.specs.Steps.{Created, Appended, Forced, Copied, Sealed, Faulted};
ghost use Rattle.log_file.specs.Sure.{in_doubt};
ghost use Rattle.log_file.specs.Cursor.{MayRefuse};
ghost use Rattle.log_file.specs.Starts.{Started};

use crate::batch::Batch;
use crate::cursor::Records;
use crate::frame::{Framed, make_frame};
use crate::put::{open_first, put_batch, put_record};
use kinds::{OpenRefused, Refusal};
use std::alloc::Global;
use std::marker::Model;
use store_api::{Failed, Store, sync_within, write_synced};

const CLOSED: [u8; 1] = [0];

/// A log that is written at its end. Records are appended one by one, and a force makes those that were appended since the
/// last one durable, all together: until then the gate of the first of them stays closed. After a call on its file has
/// failed the log takes no more.
#[derive(Drop)]
pub struct Log {
    file: u32,
    sure: u64,
    end: u64,
    doubt: Option<u64>,
}

impl Model for Log {
    ghost use Rattle.log_file.specs.Sure.{State};

    ghost Value = { State };

    ghost view = { λ log. record { file = log.file; sure = log.sure; end = log.end; doubt = log.doubt } };
}

impl Log {
    /// A log whose next gate is at this place of the file.
    pub(crate) fn at(file: u32, end: u64) -> Log
        ensures { result ≡ record { file = file; sure = end; end = end; doubt = None } }
    {
        Log {
            file,
            sure: end,
            end,
            doubt: None,
        }
    }

    /// Begins an empty log in the file: a closed gate at its start, made durable. Refused only with `ReadFault`, where a
    /// call on the file failed; the file may then hold anything at its first byte.
    pub fn create<S: Store>(store: &mut S, file: u32) -> Result<Log, OpenRefused>
        requires { S.moment_of store.old + 2 ≤ 2 ^ 62 }
        ensures log { IfOk result (λ log. log ≡ record { file = file; sure = 0; end = 0; doubt = None }) }
        ensures told { Told (S.told store.old) (S.told store.new) (Created file result) }
        ensures time { S.moment_of store.new ≤ S.moment_of store.old + 2 }
        ensures later { S.moment_of store.old ≤ S.moment_of store.new }
        ensures counts { NoneFell (S.faults_of store.old) (S.faults_of store.new) }
        ensures cause { IfErr result (λ refusal. (refusal ≡ ReadFault file) × Rose (S.faults_of store.old file) (S.faults_of store.new file)) }
    {
        match write_synced(store, file, 0, &CLOSED) {
            Ok(()) => Ok(Log::at(file, 0)),
            Err(_) => Err(OpenRefused::ReadFault(file)),
        }
    }

    /// Makes the frame of a record, before any device call. Refused with 30 exactly where the record has more than 2^24
    /// bytes, and else only for want of memory.
    pub fn frame(alloc: Global, bytes: &[u8]) -> Result<Framed, Refusal>
        ensures framed { IfOk result (λ framed. framed ≡ bytes.now) }
        ensures fits { OnOk result (length bytes.now ≤ 2 ^ 24) }
        ensures full { 2 ^ 24 < length bytes.now → result ≡ Err RecordFull }
        ensures refused { IfErr result (λ refusal. (refusal ≡ Memory) ⊎ ((refusal ≡ RecordFull) × (2 ^ 24 < length bytes.now))) }
    {
        make_frame(alloc, bytes)
    }

    /// Appends a record. A stop takes it away again until it is forced. Refused only with 40: by a call on the file that
    /// failed in it, or, without a device call, because an earlier one had failed; after that the log takes no more.
    pub fn append<S: Store>(&mut self, store: &mut S, framed: &Framed) -> Result<(), Refusal>
        requires { S.moment_of store.old + 1 ≤ 2 ^ 62 }
        ensures told { Told (S.told store.old) (S.told store.new) (Appended self.old.file self.old.sure self.old.end framed.now result) }
        ensures ok { OnOk result (self.new ≡ record { file = self.old.file; sure = self.old.sure; end = self.old.end + (5 + length framed.now); doubt = None }) }
        ensures err { IfErr result (λ refusal. (count : ℕ) × (refusal ≡ LogFault self.old.file count) × (self.new ≡ in_doubt self.old count)) }
        ensures doubt { IfSome self.old.doubt (λ count. (result ≡ Err (LogFault self.old.file count)) × (store.new ≡ store.old)) }
        ensures cause { IfErr result (λ refusal. IfNone self.old.doubt (Faulted self.old.file (S.faults_of store.old) (S.faults_of store.new) refusal)) }
        ensures time { S.moment_of store.new ≤ S.moment_of store.old + 1 }
        ensures later { S.moment_of store.old ≤ S.moment_of store.new }
        ensures counts { NoneFell (S.faults_of store.old) (S.faults_of store.new) }
    {
        let file = self.file;
        if let Some(count) = self.doubt {
            return Err(Refusal::LogFault { file, count });
        }
        match put_record(store, file, self.sure, self.end, framed) {
            Ok(()) => {
                self.end += framed.len();
                Ok(())
            }
            Err(_) => {
                let count = store.faults(file);
                self.doubt = Some(count);
                Err(Refusal::LogFault { file, count })
            }
        }
    }

    /// Makes durable what was appended since the last force, all of it together. With nothing appended it makes no device
    /// call. Refused only with 40, as `append` is; after a call that failed in it what was appended is in doubt.
    pub fn force<S: Store>(&mut self, store: &mut S) -> Result<(), Refusal>
        requires { S.moment_of store.old + 3 ≤ 2 ^ 62 }
        ensures told { Told (S.told store.old) (S.told store.new) (Forced self.old.file self.old.sure self.old.end result) }
        ensures ok { OnOk result (self.new ≡ record { file = self.old.file; sure = self.old.end; end = self.old.end; doubt = None }) }
        ensures err { IfErr result (λ refusal. (count : ℕ) × (refusal ≡ LogFault self.old.file count) × (self.new ≡ in_doubt self.old count)) }
        ensures doubt { IfSome self.old.doubt (λ count. (result ≡ Err (LogFault self.old.file count)) × (store.new ≡ store.old)) }
        ensures none { IfNone self.old.doubt (self.old.sure ≡ self.old.end → IsOk result × (store.new ≡ store.old)) }
        ensures cause { IfErr result (λ refusal. IfNone self.old.doubt (Faulted self.old.file (S.faults_of store.old) (S.faults_of store.new) refusal)) }
        ensures time { S.moment_of store.new ≤ S.moment_of store.old + 3 }
        ensures later { S.moment_of store.old ≤ S.moment_of store.new }
        ensures counts { NoneFell (S.faults_of store.old) (S.faults_of store.new) }
    {
        let file = self.file;
        if let Some(count) = self.doubt {
            return Err(Refusal::LogFault { file, count });
        }
        if self.sure == self.end {
            return Ok(());
        }
        match open_first(store, file, self.sure) {
            Ok(()) => {
                self.sure = self.end;
                Ok(())
            }
            Err(_) => {
                let count = store.faults(file);
                self.doubt = Some(count);
                Err(Refusal::LogFault { file, count })
            }
        }
    }

    /// Writes records behind those that are there, each with its gate open. So a log is written that isn't looked at yet: a
    /// stop may leave anything of it until `seal` makes it durable. Fails with a call on the file.
    pub fn copy<S: Store>(&mut self, store: &mut S, batch: &Batch) -> Result<(), Failed>
        requires { S.moment_of store.old + 1 ≤ 2 ^ 62 }
        ensures told { Told (S.told store.old) (S.told store.new) (Copied self.old.file self.old.end batch.now result) }
        ensures ok { OnOk result (self.new ≡ record { file = self.old.file; sure = self.old.sure; end = self.old.end + length batch.now; doubt = self.old.doubt }) }
        ensures err { OnErr result (self.new ≡ self.old) }
        ensures cause { OnErr result (Rose (S.faults_of store.old self.old.file) (S.faults_of store.new self.old.file)) }
        ensures time { S.moment_of store.new ≤ S.moment_of store.old + 1 }
        ensures later { S.moment_of store.old ≤ S.moment_of store.new }
        ensures counts { NoneFell (S.faults_of store.old) (S.faults_of store.new) }
    {
        match put_batch(store, self.file, self.end, batch) {
            Ok(()) => {
                self.end += batch.len();
                Ok(())
            }
            Err(failed) => Err(failed),
        }
    }

    /// Makes the records that were copied durable. Fails with a call on the file.
    pub fn seal<S: Store>(&mut self, store: &mut S) -> Result<(), Failed>
        requires { S.moment_of store.old + 1 ≤ 2 ^ 62 }
        ensures told { Told (S.told store.old) (S.told store.new) (Sealed self.old.file self.old.end result) }
        ensures ok { OnOk result (self.new ≡ record { file = self.old.file; sure = self.old.end; end = self.old.end; doubt = self.old.doubt }) }
        ensures err { OnErr result (self.new ≡ self.old) }
        ensures cause { OnErr result (Rose (S.faults_of store.old self.old.file) (S.faults_of store.new self.old.file)) }
        ensures time { S.moment_of store.new ≤ S.moment_of store.old + 1 }
        ensures later { S.moment_of store.old ≤ S.moment_of store.new }
        ensures counts { NoneFell (S.faults_of store.old) (S.faults_of store.new) }
    {
        match sync_within(store, self.file) {
            Ok(()) => {
                self.sure = self.end;
                Ok(())
            }
            Err(failed) => Err(failed),
        }
    }

    /// Where the gate behind the last record lies, in bytes from the file's start.
    pub fn end(&self) -> u64
        ensures { result ≡ self.now.end }
    {
        self.end
    }

    /// Makes the file durable and reads the records of its log, up to the first gate that isn't open. Refused with
    /// `Damaged` and the place behind the gate of the first record whose length is above 2^24 or past the file's end; with
    /// `ReadFault` only where a call on the file failed; with `RunFull` only where the moment is, or came to, 2^62 - 2^24;
    /// and for want of memory.
    pub fn start<S: Store>(
        alloc: Global,
        store: &mut S,
        file: u32,
    ) -> Result<(Log, Vec<Vec<u8>>), OpenRefused>
        ensures told { Told (S.told store.old) (S.told store.new) (Started file result) }
        ensures log { IfOk result (λ started. (started.0.file ≡ file) × (started.0.doubt ≡ None)) }
        ensures cause { IfErr result (MayRefuse file (S.faults_of store.old) (S.faults_of store.new) (S.moment_of store.new)) }
        ensures time { S.moment_of store.new ≤ max (S.moment_of store.old) (2 ^ 62 - 2 ^ 24) }
        ensures later { S.moment_of store.old ≤ S.moment_of store.new }
        ensures counts { NoneFell (S.faults_of store.old) (S.faults_of store.new) }
    {
        let mut records = match Records::open(alloc, store, file) {
            Ok(records) => records,
            Err(refused) => return Err(refused),
        };
        let mut payloads = Vec::new(alloc);
        'records: loop {
            match records.next(alloc, store) {
                Ok(Some(record)) => match payloads.push(record.payload) {
                    Ok(()) => {}
                    Err(_) => return Err(OpenRefused::Memory),
                },
                Ok(None) => return Ok((records.finish(), payloads)),
                Err(refused) => return Err(refused),
            }
        }
    }
}
