// The vault.
ghost use Rattle.std.specs.Prelude.{◌≡◌, ◌+◌, ◌-◌, ◌<◌, ◌≤◌, ◌^◌, ℕ, ◌⊎◌, IfOk, OnOk, IfErr, IfSome, IsSome, IsOk, is_some, Some, None, Ok, Err, [], length};
ghost use Rattle.kinds.specs.declared.refusal.Refusal.TheVariants.{LogFault, Memory};
ghost use Rattle.entries.specs.EntryForm.{entry as entry_form};
ghost use Rattle.store_api.specs.Cause.{NoneFell};
ghost use Rattle.store_api.specs.Told.{Told};
ghost use Rattle.fields.specs.Editions.{second_form};
ghost use Rattle.entries.specs.Meaning.{IsLegal};
ghost use Rattle.vault.specs.Files.{image_file, log_file};
ghost use Rattle.db_image.specs.declared.phase.Progress.TheVariants.{More, Done};
ghost use Rattle.vault.specs.Vaults.{Waits, Forces, Committed, Checkpointed, Begins, Started, IsBegun, IsStarted, Pieced, GoesTo, IsInStep, with_waiting, with_fault, all_forced, with_entry, at_next, Faults, RefusesCommit, RefusesForce, RefusesCheckpoint};

use crate::checkpoint::{Checkpoint, advance, copy_batch, finish, next_batch, start};
use crate::files::{image_file, log_file};
use crate::record::{add_entry, frame_entry};
use db_image::Progress;
use entries::{Database, Entry};
use kinds::Refusal;
use log_file::Log;
use std::alloc::Global;
use std::marker::Model;
use store_api::Store;

/// A database whose transactions a force makes durable: the newest image's generation, the database, the transactions of
/// this run and how many of them are forced, and the log of the newest image. After a call on one of its files has failed it
/// takes no more.
#[derive(Drop)]
pub struct Vault<D: Database> {
    generation: u64,
    database: D,
    journal: Vec<Entry>,
    forced: usize,
    log: Log,
    fault: Option<(u32, u64)>,
    pending: Option<Checkpoint>,
}

impl<D: Database> Model for Vault<D> {
    ghost use Rattle.vault.specs.Files.{log_file};
    ghost use Rattle.vault.specs.Vaults.{State, IsWhole};

    ghost Value = { State D };

    ghost view = { λ vault. record { generation = vault.generation; database = vault.database; journal = vault.journal.items; forced = vault.forced; sure = vault.log.sure; end = vault.log.end; fault = vault.fault; pending = vault.pending } };

    ghost invariant = { λ vault. IsWhole vault.generation vault.journal.items vault.log vault.fault vault.pending };
}

impl<D: Database> Vault<D> {
    /// A vault that was opened: no transaction was made yet.
    pub(crate) fn opened(alloc: Global, generation: u64, database: D, log: Log) -> Vault<D>
        requires file { log.file ≡ log_file generation }
        requires sure { log.doubt ≡ None }
        ensures { result ≡ record { generation = generation; database = database; journal = []; forced = 0; sure = log.sure; end = log.end; fault = None; pending = None } }
    {
        Vault {
            generation,
            database,
            journal: Vec::new(alloc),
            forced: 0,
            log,
            fault: None,
            pending: None,
        }
    }

    /// The database with all that was committed.
    pub fn database(&self) -> &D
        ensures { result.now ≡ self.now.database }
    {
        &self.database
    }

    /// The transactions of this run, oldest first. After a fault of the log those that waited for a force are in doubt.
    pub fn journal(&self) -> &[Entry]
        ensures { result.now ≡ self.now.journal }
    {
        &self.journal
    }

    /// The generation of the newest image.
    pub fn generation(&self) -> u64
        ensures { result ≡ self.now.generation }
    {
        self.generation
    }

    /// The file whose fault halted the vault, and how often calls on it had failed by then.
    pub fn fault(&self) -> Option<(u32, u64)>
        ensures { result ≡ self.now.fault }
    {
        self.fault
    }

    /// How many of this run's transactions are forced: the oldest ones.
    pub fn forced(&self) -> usize
        ensures { result ≡ self.now.forced }
    {
        self.forced
    }

    /// The length of the log in bytes: where its next record begins.
    pub fn log_length(&self) -> u64
        ensures { result ≡ self.now.end }
    {
        self.log.end()
    }

    /// The transactions of this run, oldest first, without the database.
    pub fn into_journal(self) -> Vec<Entry>
        ensures { result.items ≡ self.journal }
    {
        let Vault {
            generation: _,
            database: _,
            journal,
            forced: _,
            log: _,
            fault: _,
            pending: _,
        } = self;
        journal
    }

    /// The database, without the transactions of this run.
    pub(crate) fn into_database(self) -> D
        ensures { result ≡ self.database }
    {
        let Vault {
            generation: _,
            database,
            journal: _,
            forced: _,
            log: _,
            fault: _,
            pending: _,
        } = self;
        database
    }

    /// Makes a transaction, and answers its number. It waits for a force: until then no stop leaves it. Refused with 30
    /// where it has too many bytes for a record; with 40 where a call on the log failed in it, after which the transaction is
    /// in doubt, or where an earlier call had failed; and for want of memory. It makes one device call at most.
    pub fn commit<S: Store>(
        &mut self,
        alloc: Global,
        store: &mut S,
        entry: Entry,
    ) -> Result<u64, Refusal>
        requires time { S.moment_of store.old + 1 ≤ 2 ^ 62 }
        requires legal { IsLegal D.meaning self.old.database entry }
        ensures told { Told (S.told store.old) (S.told store.new) (Waits D.meaning self.old entry result self.new) }
        ensures ok { OnOk result (self.new ≡ with_waiting D.meaning self.old entry) }
        ensures short { OnOk result (length (entry_form.spell entry) ≤ 2 ^ 24) }
        ensures sure { OnOk result (self.old.fault ≡ None) }
        ensures halted { IfSome self.old.fault (λ fault. (result ≡ Err (LogFault fault.0 fault.1)) × (store.new ≡ store.old)) }
        ensures number { IfOk result (λ number. number ≡ D.meaning.number self.old.database + 1) }
        ensures err { IfErr result (λ refusal. RefusesCommit D.meaning self.old entry (S.faults_of store.old) (S.faults_of store.new) refusal self.new (store.new ≡ store.old)) }
        ensures time { S.moment_of store.new ≤ S.moment_of store.old + 1 }
        ensures later { S.moment_of store.old ≤ S.moment_of store.new }
        ensures counts { NoneFell (S.faults_of store.old) (S.faults_of store.new) }
    {
        if let Some((file, count)) = self.fault {
            drop(entry);
            return Err(Refusal::LogFault { file, count });
        }
        let framed = match frame_entry(alloc, &entry) {
            Ok(framed) => framed,
            Err(refusal) => {
                drop(entry);
                return Err(refusal);
            }
        };
        match add_entry(alloc, &mut self.database, &mut self.journal, entry) {
            Ok(()) => {}
            Err(refusal) => return Err(refusal),
        }
        match self.log.append(store, &framed) {
            Ok(()) => Ok(self.database.number()),
            Err(_) => {
                let file = log_file(self.generation);
                let count = store.faults(file);
                self.fault = Some((file, count));
                self.pending = None;
                Err(Refusal::LogFault { file, count })
            }
        }
    }

    /// Makes durable all that was committed, and answers the number of the last transaction. Where nothing waits it makes no
    /// device call. Refused only with 40, where a call on the log failed in it, after which what waited is in doubt, or where
    /// an earlier call had failed. It takes no memory and makes 3 device calls at most.
    pub fn force<S: Store>(&mut self, store: &mut S) -> Result<u64, Refusal>
        requires time { S.moment_of store.old + 3 ≤ 2 ^ 62 }
        ensures told { Told (S.told store.old) (S.told store.new) (Forces D.meaning self.old result self.new) }
        ensures ok { OnOk result (self.new ≡ all_forced self.old) }
        ensures none { self.old.fault ≡ None → self.old.sure ≡ self.old.end → IsOk result × (store.new ≡ store.old) }
        ensures halted { IfSome self.old.fault (λ fault. (result ≡ Err (LogFault fault.0 fault.1)) × (store.new ≡ store.old)) }
        ensures number { IfOk result (λ number. number ≡ D.meaning.number self.old.database) }
        ensures err { IfErr result (λ refusal. RefusesForce self.old (S.faults_of store.old) (S.faults_of store.new) refusal self.new (store.new ≡ store.old)) }
        ensures time { S.moment_of store.new ≤ S.moment_of store.old + 3 }
        ensures later { S.moment_of store.old ≤ S.moment_of store.new }
        ensures counts { NoneFell (S.faults_of store.old) (S.faults_of store.new) }
    {
        if let Some(fault) = self.fault {
            let (file, count) = fault;
            return Err(Refusal::LogFault { file, count });
        }
        match self.log.force(store) {
            Ok(()) => {
                self.forced = self.journal.len();
                Ok(self.database.number())
            }
            Err(_) => {
                let file = log_file(self.generation);
                let count = store.faults(file);
                self.fault = Some((file, count));
                self.pending = None;
                Err(Refusal::LogFault { file, count })
            }
        }
    }

    /// Makes a transaction and makes it durable with all that waited, and answers its number then. Refused as `commit` and
    /// `force` are. It makes 4 device calls at most.
    pub fn commit_forced<S: Store>(
        &mut self,
        alloc: Global,
        store: &mut S,
        entry: Entry,
    ) -> Result<u64, Refusal>
        requires time { S.moment_of store.old + 4 ≤ 2 ^ 62 }
        requires legal { IsLegal D.meaning self.old.database entry }
        ensures told { Told (S.told store.old) (S.told store.new) (Committed D.meaning self.old entry result self.new) }
        ensures ok { OnOk result (self.new ≡ with_entry D.meaning self.old entry) }
        ensures short { OnOk result (length (entry_form.spell entry) ≤ 2 ^ 24) }
        ensures halted { IfSome self.old.fault (λ fault. (result ≡ Err (LogFault fault.0 fault.1)) × (store.new ≡ store.old)) }
        ensures number { IfOk result (λ number. number ≡ D.meaning.number self.old.database + 1) }
        ensures err { IfErr result (λ refusal. RefusesCommit D.meaning self.old entry (S.faults_of store.old) (S.faults_of store.new) refusal self.new (store.new ≡ store.old)) }
        ensures time { S.moment_of store.new ≤ S.moment_of store.old + 4 }
        ensures later { S.moment_of store.old ≤ S.moment_of store.new }
        ensures counts { NoneFell (S.faults_of store.old) (S.faults_of store.new) }
    {
        match self.commit(alloc, store, entry) {
            Ok(number) => match self.force(store) {
                Ok(_) => Ok(number),
                Err(refusal) => Err(refusal),
            },
            Err(refusal) => Err(refusal),
        }
    }

    /// A call on a file failed: the vault takes no more.
    fn halt<S: Store>(&mut self, store: &S, file: u32) -> Refusal
        ensures new { self.new ≡ with_fault self.old file (S.faults_of store.now file) }
        ensures refusal { result ≡ LogFault file (S.faults_of store.now file) }
    {
        let fault = (file, store.faults(file));
        self.fault = Some(fault);
        drop(self.pending.take());
        Refusal::LogFault {
            file,
            count: fault.1,
        }
    }

    /// Forces what waits, and begins the image of the next generation, which is that of the database as it is now: shuts the gate
    /// of its file and writes the first piece; where that is all of the payload it begins the log. Answers that file, and the number
    /// of the last transaction that the image has. A checkpoint that was begun before is given up. Refused with 40 where a call on a
    /// file of the vault failed in it, or where an earlier call had failed; and for want of memory, and then nothing changed. It makes
    /// 11 device calls at most.
    pub fn begin_checkpoint<S: Store>(
        &mut self,
        alloc: Global,
        store: &mut S,
    ) -> Result<(u32, u64), Refusal>
        requires time { S.moment_of store.old + 11 ≤ 2 ^ 62 }
        requires number { self.old.generation + 1 < 2 ^ 62 }
        ensures told { Told (S.told store.old) (S.told store.new) (Begins D.meaning self.old result self.new) }
        ensures answer { IfOk result (λ begun. (begun.0 ≡ image_file (self.old.generation + 1)) × (begun.1 ≡ D.meaning.number self.old.database)) }
        ensures ok { OnOk result (IsBegun D.meaning self.old self.new) }
        ensures sure { OnOk result (self.old.fault ≡ None) }
        ensures halted { IfSome self.old.fault (λ fault. (result ≡ Err (LogFault fault.0 fault.1)) × (store.new ≡ store.old)) }
        ensures err { IfErr result (λ refusal. RefusesCheckpoint self.old (S.faults_of store.old) (S.faults_of store.new) refusal self.new (store.new ≡ store.old)) }
        ensures time { S.moment_of store.new ≤ S.moment_of store.old + 11 }
        ensures later { S.moment_of store.old ≤ S.moment_of store.new }
        ensures counts { NoneFell (S.faults_of store.old) (S.faults_of store.new) }
    {
        if let Some(halted) = self.fault {
            let (file, count) = halted;
            return Err(Refusal::LogFault { file, count });
        }
        let payload = match self.database.encode(alloc) {
            Ok(payload) => payload,
            Err(_) => return Err(Refusal::Memory),
        };
        match self.force(store) {
            Ok(_) => self.start_image(store, payload),
            Err(refusal) => Err(refusal),
        }
    }

    /// Begins the image of the next generation, of this payload, which is the database's.
    fn start_image<S: Store>(
        &mut self,
        store: &mut S,
        payload: Vec<u8>,
    ) -> Result<(u32, u64), Refusal>
        requires time { S.moment_of store.old + 8 ≤ 2 ^ 62 }
        requires number { self.old.generation + 1 < 2 ^ 62 }
        requires sure { self.old.fault ≡ None }
        requires short { length payload.items < 2 ^ 36 }
        requires valid { D.meaning.Valid second_form self.old.database }
        requires spelled { payload.items ≡ D.meaning.spelled second_form self.old.database }
        ensures told { Told (S.told store.old) (S.told store.new) (Started D.meaning self.old result self.new) }
        ensures answer { IfOk result (λ begun. (begun.0 ≡ image_file (self.old.generation + 1)) × (begun.1 ≡ D.meaning.number self.old.database)) }
        ensures ok { OnOk result (IsStarted D.meaning self.old self.new) }
        ensures err { IfErr result (λ refusal. Faults self.old (S.faults_of store.old) (S.faults_of store.new) refusal self.new) }
        ensures time { S.moment_of store.new ≤ S.moment_of store.old + 8 }
        ensures later { S.moment_of store.old ≤ S.moment_of store.new }
        ensures counts { NoneFell (S.faults_of store.old) (S.faults_of store.new) }
    {
        match start(store, self.generation + 1, payload, self.journal.len()) {
            Ok(checkpoint) => {
                self.pending = Some(checkpoint);
                Ok((image_file(self.generation + 1), self.database.number()))
            }
            Err(file) => Err(self.halt(store, file)),
        }
    }

    /// A step by which the image is written on.
    fn write_on<S: Store>(&mut self, store: &mut S) -> Result<Progress, Refusal>
        requires time { S.moment_of store.old + 6 ≤ 2 ^ 62 }
        requires number { self.old.generation + 1 < 2 ^ 62 }
        requires sure { self.old.fault ≡ None }
        requires begun { IfSome self.old.pending (λ pending. pending.log ≡ None) }
        requires pending { IsSome self.old.pending }
        ensures told { Told (S.told store.old) (S.told store.new) (Pieced D.meaning self.old result self.new) }
        ensures ok { IfOk result (λ progress. (progress ≡ More) × GoesTo self.old self.new More) }
        ensures err { IfErr result (λ refusal. Faults self.old (S.faults_of store.old) (S.faults_of store.new) refusal self.new) }
        ensures time { S.moment_of store.new ≤ S.moment_of store.old + 4 }
        ensures later { S.moment_of store.old ≤ S.moment_of store.new }
        ensures counts { NoneFell (S.faults_of store.old) (S.faults_of store.new) }
    {
        let mut checkpoint = match self.pending.take() {
            Some(checkpoint) => checkpoint,
            None => return Ok(Progress::More),
        };
        match advance(store, self.generation + 1, &mut checkpoint) {
            Ok(()) => {
                self.pending = Some(checkpoint);
                Ok(Progress::More)
            }
            Err(file) => Err(self.halt(store, file)),
        }
    }

    /// A step by which records of transactions that were committed since are copied to its log: those from this place of the
    /// journal on.
    fn copy_on<S: Store>(
        &mut self,
        alloc: Global,
        store: &mut S,
        copied: usize,
    ) -> Result<Progress, Refusal>
        requires time { S.moment_of store.old + 1 ≤ 2 ^ 62 }
        requires number { self.old.generation + 1 < 2 ^ 62 }
        requires sure { self.old.fault ≡ None }
        requires begun { IfSome self.old.pending (λ pending. IsSome pending.log × (pending.copied ≡ copied)) }
        requires pending { IsSome self.old.pending }
        requires more { copied < length self.old.journal }
        ensures told { Told (S.told store.old) (S.told store.new) (Pieced D.meaning self.old result self.new) }
        ensures ok { IfOk result (λ progress. (progress ≡ More) × GoesTo self.old self.new More) }
        ensures err { IfErr result (λ refusal. ((refusal ≡ Memory) × (self.new ≡ self.old) × (store.new ≡ store.old)) ⊎ Faults self.old (S.faults_of store.old) (S.faults_of store.new) refusal self.new) }
        ensures time { S.moment_of store.new ≤ S.moment_of store.old + 1 }
        ensures later { S.moment_of store.old ≤ S.moment_of store.new }
        ensures counts { NoneFell (S.faults_of store.old) (S.faults_of store.new) }
    {
        let (batch, place) = match next_batch(alloc, &self.journal, copied) {
            Ok(found) => found,
            Err(refusal) => return Err(refusal),
        };
        let mut checkpoint = match self.pending.take() {
            Some(checkpoint) => checkpoint,
            None => return Ok(Progress::More),
        };
        match copy_batch(store, self.generation + 1, &mut checkpoint, &batch, place) {
            Ok(()) => {
                self.pending = Some(checkpoint);
                Ok(Progress::More)
            }
            Err(file) => Err(self.halt(store, file)),
        }
    }

    /// Makes the new image's log durable and opens its gate. Then its log takes the place of the old one.
    fn close<S: Store>(&mut self, store: &mut S) -> Result<Progress, Refusal>
        requires time { S.moment_of store.old + 7 ≤ 2 ^ 62 }
        requires number { self.old.generation + 1 < 2 ^ 62 }
        requires sure { self.old.fault ≡ None }
        requires begun { IfSome self.old.pending (λ pending. IsSome pending.log × (length self.old.journal ≤ pending.copied)) }
        requires pending { IsSome self.old.pending }
        ensures told { Told (S.told store.old) (S.told store.new) (Pieced D.meaning self.old result self.new) }
        ensures ok { IfOk result (λ progress. (progress ≡ Done) × GoesTo self.old self.new Done) }
        ensures err { IfErr result (λ refusal. Faults self.old (S.faults_of store.old) (S.faults_of store.new) refusal self.new) }
        ensures time { S.moment_of store.new ≤ S.moment_of store.old + 3 }
        ensures later { S.moment_of store.old ≤ S.moment_of store.new }
        ensures counts { NoneFell (S.faults_of store.old) (S.faults_of store.new) }
    {
        let checkpoint = match self.pending.take() {
            Some(checkpoint) => checkpoint,
            None => return Ok(Progress::Done),
        };
        match finish(store, self.generation + 1, checkpoint) {
            Ok(log) => {
                self.generation += 1;
                self.log = log;
                self.forced = self.journal.len();
                Ok(Progress::Done)
            }
            Err(file) => Err(self.halt(store, file)),
        }
    }

    /// Whether a checkpoint was begun, and isn't done.
    pub fn in_checkpoint(&self) -> bool
        ensures { result ≡ is_some self.now.pending }
    {
        self.pending.is_some()
    }

    /// Takes a step of the checkpoint that was begun. It writes a piece of the payload, of at most 65,536 bytes, and begins the log
    /// when all of the payload is on the disk; then it copies records of transactions that were committed since into that log, at
    /// most 65,536 bytes of them or one record. These answer `More`, and make 4 device calls at most. The step that finds none left
    /// forces what waits, by 3 calls; then by 3 more it makes the new log durable and opens the image's gate, and answers `Done`:
    /// from then on transactions go to the new log. Refused as `begin_checkpoint` is.
    pub fn next_checkpoint<S: Store>(
        &mut self,
        alloc: Global,
        store: &mut S,
    ) -> Result<Progress, Refusal>
        requires time { S.moment_of store.old + 10 ≤ 2 ^ 62 }
        requires number { self.old.generation + 1 < 2 ^ 62 }
        requires begun { IsSome self.old.pending }
        ensures told { Told (S.told store.old) (S.told store.new) (Pieced D.meaning self.old result self.new) }
        ensures ok { IfOk result (GoesTo self.old self.new) }
        ensures halted { IfSome self.old.fault (λ fault. (result ≡ Err (LogFault fault.0 fault.1)) × (store.new ≡ store.old)) }
        ensures err { IfErr result (λ refusal. RefusesCheckpoint self.old (S.faults_of store.old) (S.faults_of store.new) refusal self.new (store.new ≡ store.old)) }
        ensures memory { result ≡ Err Memory → IfSome self.old.pending (λ pending. pending.copied < length self.old.journal) }
        ensures brief { result ≡ Ok More → S.moment_of store.new ≤ S.moment_of store.old + 4 }
        ensures time { S.moment_of store.new ≤ S.moment_of store.old + 6 }
        ensures later { S.moment_of store.old ≤ S.moment_of store.new }
        ensures counts { NoneFell (S.faults_of store.old) (S.faults_of store.new) }
    {
        if let Some(halted) = self.fault {
            let (file, count) = halted;
            return Err(Refusal::LogFault { file, count });
        }
        let (begun, copied) = match &self.pending {
            Some(checkpoint) => (checkpoint.log.is_some(), checkpoint.copied),
            None => return Ok(Progress::Done),
        };
        if !begun {
            return self.write_on(store);
        }
        if copied < self.journal.len() {
            return self.copy_on(alloc, store, copied);
        }
        match self.force(store) {
            Ok(_) => self.close(store),
            Err(refusal) => Err(refusal),
        }
    }

    /// Takes the steps of a checkpoint that was just begun, up to the last one. No transaction is made meanwhile.
    fn take_steps<S: Store>(&mut self, alloc: Global, store: &mut S) -> Result<Progress, Refusal>
        requires time { S.moment_of store.old + (2 ^ 23 + 64) ≤ 2 ^ 62 }
        requires number { self.old.generation + 1 < 2 ^ 62 }
        requires sure { self.old.fault ≡ None }
        requires begun { IsInStep self.old (S.moment_of store.old) (S.moment_of store.old) }
        ensures told { Told (S.told store.old) (S.told store.new) (Pieced D.meaning self.old result self.new) }
        ensures ok { IfOk result (λ progress. (progress ≡ Done) × (self.new ≡ at_next self.old)) }
        ensures err { IfErr result (λ refusal. Faults self.old (S.faults_of store.old) (S.faults_of store.new) refusal self.new) }
        ensures time { S.moment_of store.new ≤ S.moment_of store.old + (2 ^ 23 + 32) }
        ensures later { S.moment_of store.old ≤ S.moment_of store.new }
        ensures counts { NoneFell (S.faults_of store.old) (S.faults_of store.new) }
    {
        'steps: loop {
            match self.next_checkpoint(alloc, store) {
                Ok(Progress::More) => {}
                Ok(Progress::Done) => return Ok(Progress::Done),
                Err(refusal) => return Err(refusal),
            }
        }
    }

    /// Forces what waits, and writes the database as the image of the next generation, whose log begins empty: begins a checkpoint
    /// and takes its steps. Refused with 40 where a call on a file of the vault failed in it, or where an earlier call had failed;
    /// and for want of memory, and then nothing changed. It makes at most 2^24 - 64 device calls.
    pub fn checkpoint<S: Store>(&mut self, alloc: Global, store: &mut S) -> Result<(), Refusal>
        requires time { S.moment_of store.old + (2 ^ 24 - 64) ≤ 2 ^ 62 }
        requires number { self.old.generation + 1 < 2 ^ 62 }
        ensures told { Told (S.told store.old) (S.told store.new) (Checkpointed D.meaning self.old result self.new) }
        ensures ok { OnOk result (self.new ≡ at_next self.old) }
        ensures halted { IfSome self.old.fault (λ fault. (result ≡ Err (LogFault fault.0 fault.1)) × (store.new ≡ store.old)) }
        ensures err { IfErr result (λ refusal. RefusesCheckpoint self.old (S.faults_of store.old) (S.faults_of store.new) refusal self.new (store.new ≡ store.old)) }
        ensures time { S.moment_of store.new ≤ S.moment_of store.old + (2 ^ 24 - 64) }
        ensures later { S.moment_of store.old ≤ S.moment_of store.new }
        ensures counts { NoneFell (S.faults_of store.old) (S.faults_of store.new) }
    {
        match self.begin_checkpoint(alloc, store) {
            Ok(_) => {}
            Err(refusal) => return Err(refusal),
        }
        match self.take_steps(alloc, store) {
            Ok(_) => Ok(()),
            Err(refusal) => Err(refusal),
        }
    }
}
