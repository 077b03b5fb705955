// An image as it is written.
ghost use Rattle.std.specs.Prelude.{◌≡◌, ◌≢◌, ℕ, ◌⊎◌, ◌<◌, ◌≤◌, ◌^◌, ◌+◌, length, IfOk, OnErr, IsErr};
ghost use Rattle.store_api.specs.Cause.{Rose, NoneFell};
ghost use Rattle.store_api.specs.Told.{Told};
ghost use Rattle.db_image.specs.declared.phase.Phase.TheVariants.{Begun, Written, Open, Failed as Stuck};
ghost use Rattle.db_image.specs.declared.phase.Progress.TheVariants.{More, Done};
ghost use Rattle.db_image.specs.Steps.{Put, Started, Opened, Stepped, at_phase, written_to, further, progress_at};

use crate::gate::{open_gate, shut_gate};
use crate::head::{FRONT, head_of};
use crate::mark::Mark;
use crate::phase::{Phase, Progress};
use std::marker::Model;
use store_api::{Failed, Store, sync_within, write_within};

/// The most bytes of the payload that one step writes.
const PIECE: usize = 65_536;

/// An image that is written to its file step by step. Its gate is shut until all of it is on the disk.
#[derive(Drop)]
pub struct Image {
    file: u32,
    mark: Mark,
    number: u64,
    payload: Vec<u8>,
    phase: Phase,
}

impl Model for Image {
    ghost use Rattle.std.specs.Prelude.{length};
    ghost use Rattle.db_image.specs.Steps.{Job, IsWithin};

    ghost Value = { Job };

    ghost view = { λ image. record { file = image.file; mark = image.mark; number = image.number; payload = image.payload.items; phase = image.phase } };

    ghost invariant = { λ image. IsWithin image.phase (length image.payload.items) };
}

impl Image {
    /// An image of this payload, to be written to the file. Nothing is written yet.
    pub fn begin(payload: Vec<u8>, mark: Mark, number: u64, file: u32) -> Image
        ensures { result ≡ record { file = file; mark = mark; number = number; payload = payload.items; phase = Begun } }
    {
        Image {
            file,
            mark,
            number,
            payload,
            phase: Phase::Begun,
        }
    }

    /// How far it has been written.
    pub fn phase(&self) -> Phase
        ensures { result ≡ self.now.phase }
    {
        self.phase
    }

    /// Writes on from a place of the payload, and where that comes to its end makes all durable.
    fn put<S: Store>(&mut self, store: &mut S, done: u64) -> Result<Progress, Failed>
        requires within { done ≤ length self.old.payload }
        requires time { S.moment_of store.old + 2 ≤ 2 ^ 62 }
        ensures told { Told (S.told store.old) (S.told store.new) (Put self.old self.new done result) }
        ensures ok { IfOk result (λ progress. (progress ≡ More) × (self.new ≡ at_phase (written_to (done + 65536) (length self.old.payload)) self.old)) }
        ensures err { OnErr result (self.new ≡ at_phase Stuck self.old) }
        ensures time { S.moment_of store.new ≤ S.moment_of store.old + 2 }
        ensures later { S.moment_of store.old ≤ S.moment_of store.new }
        ensures counts { NoneFell (S.faults_of store.old) (S.faults_of store.new) }
        ensures cause { OnErr result (Rose (S.faults_of store.old self.old.file) (S.faults_of store.new self.old.file)) }
    {
        let file = self.file;
        let len = self.payload.len();
        let from = done as usize;
        let end = from.saturating_add(PIECE).min(len);
        self.phase = Phase::Failed;
        match write_within(store, file, FRONT + done, &self.payload[from..end]) {
            Ok(()) => {}
            Err(failed) => return Err(failed),
        }
        if end < len {
            self.phase = Phase::Written(end as u64);
            return Ok(Progress::More);
        }
        match sync_within(store, file) {
            Ok(()) => {
                self.phase = Phase::Durable;
                Ok(Progress::More)
            }
            Err(failed) => Err(failed),
        }
    }

    /// Shuts the gate, and writes what stands first behind it: the head, and the first of the payload.
    fn start<S: Store>(&mut self, store: &mut S) -> Result<Progress, Failed>
        requires time { S.moment_of store.old + 6 ≤ 2 ^ 62 }
        ensures told { Told (S.told store.old) (S.told store.new) (Started self.old self.new result) }
        ensures ok { IfOk result (λ progress. (progress ≡ More) × (self.new ≡ at_phase (written_to 65536 (length self.old.payload)) self.old)) }
        ensures err { OnErr result (self.new ≡ at_phase Stuck self.old) }
        ensures time { S.moment_of store.new ≤ S.moment_of store.old + 6 }
        ensures later { S.moment_of store.old ≤ S.moment_of store.new }
        ensures counts { NoneFell (S.faults_of store.old) (S.faults_of store.new) }
        ensures cause { OnErr result (Rose (S.faults_of store.old self.old.file) (S.faults_of store.new self.old.file)) }
    {
        let file = self.file;
        self.phase = Phase::Failed;
        match shut_gate(store, file) {
            Ok(()) => {}
            Err(failed) => return Err(failed),
        }
        let head = head_of(self.mark, self.number, self.payload.len() as u64);
        match write_within(store, file, 1, &head) {
            Ok(()) => self.put(store, 0),
            Err(failed) => Err(failed),
        }
    }

    /// Opens the gate.
    fn open<S: Store>(&mut self, store: &mut S) -> Result<Progress, Failed>
        requires time { S.moment_of store.old + 2 ≤ 2 ^ 62 }
        ensures told { Told (S.told store.old) (S.told store.new) (Opened self.old self.new result) }
        ensures ok { IfOk result (λ progress. (progress ≡ Done) × (self.new ≡ at_phase Open self.old)) }
        ensures err { OnErr result (self.new ≡ at_phase Stuck self.old) }
        ensures time { S.moment_of store.new ≤ S.moment_of store.old + 2 }
        ensures later { S.moment_of store.old ≤ S.moment_of store.new }
        ensures counts { NoneFell (S.faults_of store.old) (S.faults_of store.new) }
        ensures cause { OnErr result (Rose (S.faults_of store.old self.old.file) (S.faults_of store.new self.old.file)) }
    {
        match open_gate(store, self.file) {
            Ok(()) => {
                self.phase = Phase::Open;
                Ok(Progress::Done)
            }
            Err(failed) => {
                self.phase = Phase::Failed;
                Err(failed)
            }
        }
    }

    /// Takes one step: shuts the gate and writes the first of the image; or writes at most 65,536 bytes of the payload more,
    /// and with the last of them makes all durable; or opens the gate. After a call on the file has failed it does nothing
    /// more and answers `Failed`; when the gate is open it does nothing more and answers `Done`.
    pub fn next<S: Store>(&mut self, store: &mut S) -> Result<Progress, Failed>
        requires { S.moment_of store.old + 6 ≤ 2 ^ 62 }
        ensures told { Told (S.told store.old) (S.told store.new) (Stepped self.old self.new result) }
        ensures ok { IfOk result (λ progress. (progress ≡ progress_at (further self.old.phase (length self.old.payload))) × (self.new ≡ at_phase (further self.old.phase (length self.old.payload)) self.old)) }
        ensures err { OnErr result (self.new ≡ at_phase Stuck self.old) }
        ensures some { (done : ℕ) → self.old.phase ≡ Written done → done < length self.old.payload }
        ensures idle { (self.old.phase ≡ Open) ⊎ (self.old.phase ≡ Stuck) → store.new ≡ store.old }
        ensures stuck { self.old.phase ≡ Stuck → IsErr result }
        ensures time { S.moment_of store.new ≤ S.moment_of store.old + 6 }
        ensures brief { self.old.phase ≢ Begun → S.moment_of store.new ≤ S.moment_of store.old + 2 }
        ensures later { S.moment_of store.old ≤ S.moment_of store.new }
        ensures counts { NoneFell (S.faults_of store.old) (S.faults_of store.new) }
        ensures cause { OnErr result ((self.old.phase ≡ Stuck) ⊎ Rose (S.faults_of store.old self.old.file) (S.faults_of store.new self.old.file)) }
    {
        match self.phase {
            Phase::Begun => self.start(store),
            Phase::Written(done) => self.put(store, done),
            Phase::Durable => self.open(store),
            Phase::Open => Ok(Progress::Done),
            Phase::Failed => Err(Failed),
        }
    }
}
