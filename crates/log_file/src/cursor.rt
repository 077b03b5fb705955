// A cursor over the records of a log, which holds one piece of the file and one record at a time.
ghost use Rattle.std.specs.Prelude.{◌≡◌, ◌<◌, ◌≤◌, ◌^◌, ◌+◌, ◌-◌, max, IfOk, IfErr, IsTrue, IfNone, IfSome, None};
ghost use Rattle.store_api.specs.Cause.{NoneFell};
ghost use Rattle.store_api.specs.Told.{Told};
ghost use Rattle.log_file.specs.Cursor.{MayRefuse};
ghost use Rattle.log_file.specs.Starts.{Opened, Advanced};
ghost use Rattle.log_file.specs.Windows.{NoDamage};

use crate::found::Record;
use crate::reads::{file_len, settle};
use crate::window::Window;
use crate::writer::Log;
use kinds::OpenRefused;
use std::alloc::Global;
use std::marker::Model;
use store_api::Store;

/// A cursor over the records of a log. It reads the file in pieces of at most 65,536 bytes.
#[derive(Drop)]
pub struct Records {
    window: Window,
    at: u64,
    ended: bool,
}

impl Model for Records {
    ghost use Rattle.std.specs.Prelude.{◌≤◌};
    ghost use Rattle.log_file.specs.Cursor.{Place};

    ghost Value = { Place };

    ghost view = { λ records. record { held = records.window; at = records.at; ended = records.ended } };

    ghost invariant = { λ records. records.at ≤ records.window.len };
}

impl Records {
    /// Makes the file durable and stands before its first record. Refused as `Log::start` is, but never with `Damaged`.
    pub fn open<S: Store>(alloc: Global, store: &mut S, file: u32) -> Result<Records, OpenRefused>
        ensures told { Told (S.told store.old) (S.told store.new) (Opened file result) }
        ensures place { IfOk result (λ records. (records.held.file ≡ file) × (records.at ≡ 0)) }
        ensures undamaged { IfErr result NoDamage }
        ensures cause { IfErr result (MayRefuse file (S.faults_of store.old) (S.faults_of store.new) (S.moment_of store.new)) }
        ensures time { S.moment_of store.new ≤ max (S.moment_of store.old) (2 ^ 62 - 2 ^ 24) }
        ensures later { S.moment_of store.old ≤ S.moment_of store.new }
        ensures counts { NoneFell (S.faults_of store.old) (S.faults_of store.new) }
    {
        settle(store, file)?;
        let len = file_len(store, file)?;
        let window = Window::new(alloc, file, len)?;
        Ok(Records {
            window,
            at: 0,
            ended: false,
        })
    }

    /// The next record, or none where the log ends. Refused as `Log::start` is; what was refused may be tried again.
    pub fn next<S: Store>(
        &mut self,
        alloc: Global,
        store: &mut S,
    ) -> Result<Option<Record>, OpenRefused>
        ensures told { Told (S.told store.old) (S.told store.new) (Advanced self.old self.new result) }
        ensures file { (self.new.held.file ≡ self.old.held.file) × (self.new.held.len ≡ self.old.held.len) }
        ensures ended { IfOk result (λ found. IfNone found (IsTrue self.new.ended)) }
        ensures further { IfOk result (λ found. IfSome found (λ next. (next.at ≡ self.old.at) × (self.old.at + 5 ≤ self.new.at) × (self.new.at ≤ self.new.held.len))) }
        ensures cause { IfErr result (MayRefuse self.old.held.file (S.faults_of store.old) (S.faults_of store.new) (S.moment_of store.new)) }
        ensures time { S.moment_of store.new ≤ max (S.moment_of store.old) (2 ^ 62 - 2 ^ 24) }
        ensures later { S.moment_of store.old ≤ S.moment_of store.new }
        ensures counts { NoneFell (S.faults_of store.old) (S.faults_of store.new) }
    {
        if self.ended {
            return Ok(None);
        }
        let at = self.at;
        match self.window.head(store, at) {
            Ok(None) => {
                self.ended = true;
                Ok(None)
            }
            Ok(Some(len)) => match self.window.payload(alloc, store, at, len) {
                Ok(payload) => {
                    self.at = at + 5 + len as u64;
                    Ok(Some(Record { at, payload }))
                }
                Err(refused) => Err(refused),
            },
            Err(refused) => Err(refused),
        }
    }

    /// The log behind the records that were read, to append to.
    pub fn finish(self) -> Log
        requires { IsTrue self.ended }
        ensures { result ≡ record { file = self.held.file; sure = self.at; end = self.at; doubt = None } }
    {
        Log::at(self.window.file(), self.at)
    }
}
