// A checkpoint that is made in pieces.
ghost use Rattle.std.specs.Prelude.{◌≡◌, ◌≢◌, ◌⊎◌, ℕ, ◌+◌, ◌<◌, ◌≤◌, ◌^◌, length, IfOk, OnOk, IfErr, IfSome, IsSome, None};
ghost use Rattle.std.specs.List.{AllByRecursion};
ghost use Rattle.kinds.specs.declared.refusal.Refusal.TheVariants.{Memory as NoMemory};
ghost use Rattle.store_api.specs.Cause.{Rose, NoneFell};
ghost use Rattle.store_api.specs.Told.{Told};
ghost use Rattle.log_file.specs.Blocks.{Fits, blocks};
ghost use Rattle.db_image.specs.declared.phase.Phase.TheVariants.{Durable};
ghost use Rattle.db_image.specs.Steps.{at_phase, further, written_to};
ghost use Rattle.vault.specs.Files.{log_file, IsOf};
ghost use Rattle.vault.specs.Journals.{IsShort};
ghost use Rattle.vault.specs.Pieces.{IsEmpty, IsLonger, IsOrderly, IsLogged, job_of, records_between, Starts, Furthered, Extended, Finished};

use crate::files::{image_file, log_file};
use crate::record::frame_entry;
use db_image::{Image, Mark, Phase};
use entries::Entry;
use kinds::Refusal;
use log_file::{Batch, Log};
use std::alloc::Global;
use std::marker::Model;
use store_api::Store;

/// The most bytes of records that one step copies, but for one record that has more.
const PIECE: u64 = 65_536;

/// A checkpoint that was begun: the image that is written; how many of this run's transactions it has; how many it and its
/// log have; and that log once it is begun.
#[derive(Drop)]
pub(crate) struct Checkpoint {
    pub(crate) image: Image,
    pub(crate) start: usize,
    pub(crate) copied: usize,
    pub(crate) log: Option<Log>,
}

impl Model for Checkpoint {
    ghost use Rattle.vault.specs.Pieces.{Pending};

    ghost Value = { Pending };

    ghost view = { λ c. record { job = c.image; start = c.start; copied = c.copied; log = c.log } };
}

/// The records of transactions from a place on, at most 65,536 bytes of them or one record, and the place behind them.
pub(crate) fn next_batch(
    alloc: Global,
    journal: &[Entry],
    from: usize,
) -> Result<(Batch, usize), Refusal>
    requires within { from < length journal.now }
    requires short { AllByRecursion IsShort journal.now }
    ensures batch { IfOk result (λ found. found.0 ≡ blocks (records_between journal.now from found.1)) }
    ensures fits { IfOk result (λ found. AllByRecursion Fits (records_between journal.now from found.1)) }
    ensures place { IfOk result (λ found. (from < found.1) × (found.1 ≤ length journal.now)) }
    ensures few { IfOk result (λ found. (length found.0 ≤ 65536) ⊎ (found.1 ≡ from + 1)) }
    ensures memory { IfErr result (λ refusal. refusal ≡ NoMemory) }
{
    let mut batch = match Batch::new(alloc) {
        Ok(batch) => batch,
        Err(_) => return Err(Refusal::Memory),
    };
    let mut place = from;
    'entries: while place < journal.len() {
        let framed = match frame_entry(alloc, &journal[place]) {
            Ok(framed) => framed,
            Err(_) => return Err(Refusal::Memory),
        };
        if place > from && batch.len().saturating_add(framed.len()) > PIECE {
            return Ok((batch, place));
        }
        match batch.add(&framed) {
            Ok(()) => {}
            Err(_) => return Err(Refusal::Memory),
        }
        place += 1;
    }
    Ok((batch, place))
}

/// Begins the log where all of the payload is on the disk. On an error it answers the file on which a call failed.
fn begin_log<S: Store>(
    store: &mut S,
    generation: u64,
    checkpoint: &mut Checkpoint,
) -> Result<(), u32>
    requires time { S.moment_of store.old + 2 ≤ 2 ^ 62 }
    requires orderly { IsOrderly generation checkpoint.old }
    requires unlogged { checkpoint.old.log ≡ None }
    ensures told { Told (S.told store.old) (S.told store.new) (Furthered generation checkpoint.old checkpoint.new result) }
    ensures orderly { OnOk result (IsOrderly generation checkpoint.new × IsLogged checkpoint.new) }
    ensures empty { OnOk result (IsEmpty checkpoint.new.log) }
    ensures same { OnOk result ((checkpoint.new.job ≡ checkpoint.old.job) × (checkpoint.new.start ≡ checkpoint.old.start) × (checkpoint.new.copied ≡ checkpoint.old.copied)) }
    ensures cause { IfErr result (λ file. IsOf generation file × Rose (S.faults_of store.old file) (S.faults_of store.new file)) }
    ensures time { S.moment_of store.new ≤ S.moment_of store.old + 2 }
    ensures later { S.moment_of store.old ≤ S.moment_of store.new }
    ensures counts { NoneFell (S.faults_of store.old) (S.faults_of store.new) }
{
    if let Phase::Durable = checkpoint.image.phase() {
        let file = log_file(generation);
        return match Log::create(store, file) {
            Ok(log) => {
                checkpoint.log = Some(log);
                Ok(())
            }
            Err(_) => Err(file),
        };
    }
    Ok(())
}

/// Writes a piece of the payload. On an error it answers the file on which a call failed.
fn write_piece<S: Store>(
    store: &mut S,
    generation: u64,
    checkpoint: &mut Checkpoint,
) -> Result<(), u32>
    requires time { S.moment_of store.old + 6 ≤ 2 ^ 62 }
    requires orderly { IsOrderly generation checkpoint.old }
    requires unlogged { checkpoint.old.log ≡ None }
    requires some { checkpoint.old.job.phase ≢ Durable }
    ensures told { Told (S.told store.old) (S.told store.new) (Furthered generation checkpoint.old checkpoint.new result) }
    ensures orderly { OnOk result (IsOrderly generation checkpoint.new) }
    ensures piece { OnOk result ((checkpoint.new.job ≡ at_phase (further checkpoint.old.job.phase (length checkpoint.old.job.payload)) checkpoint.old.job) × (checkpoint.new.start ≡ checkpoint.old.start) × (checkpoint.new.copied ≡ checkpoint.old.copied) × (checkpoint.new.log ≡ None)) }
    ensures cause { IfErr result (λ file. IsOf generation file × Rose (S.faults_of store.old file) (S.faults_of store.new file)) }
    ensures time { S.moment_of store.new ≤ S.moment_of store.old + 2 }
    ensures later { S.moment_of store.old ≤ S.moment_of store.new }
    ensures counts { NoneFell (S.faults_of store.old) (S.faults_of store.new) }
{
    match checkpoint.image.next(store) {
        Ok(_) => Ok(()),
        Err(_) => Err(image_file(generation)),
    }
}

/// Writes a piece of the payload, and begins the log when all of that is on the disk. On an error it answers the file on which
/// a call failed.
pub(crate) fn advance<S: Store>(
    store: &mut S,
    generation: u64,
    checkpoint: &mut Checkpoint,
) -> Result<(), u32>
    requires time { S.moment_of store.old + 6 ≤ 2 ^ 62 }
    requires orderly { IsOrderly generation checkpoint.old }
    requires unlogged { checkpoint.old.log ≡ None }
    requires some { checkpoint.old.job.phase ≢ Durable }
    ensures told { Told (S.told store.old) (S.told store.new) (Furthered generation checkpoint.old checkpoint.new result) }
    ensures orderly { OnOk result (IsOrderly generation checkpoint.new × IsLogged checkpoint.new) }
    ensures empty { OnOk result (IsEmpty checkpoint.new.log) }
    ensures piece { OnOk result ((checkpoint.new.job ≡ at_phase (further checkpoint.old.job.phase (length checkpoint.old.job.payload)) checkpoint.old.job) × (checkpoint.new.start ≡ checkpoint.old.start) × (checkpoint.new.copied ≡ checkpoint.old.copied)) }
    ensures cause { IfErr result (λ file. IsOf generation file × Rose (S.faults_of store.old file) (S.faults_of store.new file)) }
    ensures time { S.moment_of store.new ≤ S.moment_of store.old + 4 }
    ensures later { S.moment_of store.old ≤ S.moment_of store.new }
    ensures counts { NoneFell (S.faults_of store.old) (S.faults_of store.new) }
{
    match write_piece(store, generation, checkpoint) {
        Ok(()) => begin_log(store, generation, checkpoint),
        Err(file) => Err(file),
    }
}

/// Begins a checkpoint that makes this payload the image of a generation, where so many of this run's transactions were made:
/// the gate of the image's file is shut and the first piece written, and where that is all of the payload the log begun. On an
/// error it answers the file on which a call failed.
pub(crate) fn start<S: Store>(
    store: &mut S,
    generation: u64,
    payload: Vec<u8>,
    made: usize,
) -> Result<Checkpoint, u32>
    requires time { S.moment_of store.old + 8 ≤ 2 ^ 62 }
    requires number { generation < 2 ^ 62 }
    requires short { length payload.items < 2 ^ 36 }
    ensures told { Told (S.told store.old) (S.told store.new) (Starts generation payload.items made result) }
    ensures begun { IfOk result (λ checkpoint. (checkpoint.job ≡ job_of generation payload.items (written_to 65536 (length payload.items))) × (checkpoint.start ≡ made) × (checkpoint.copied ≡ made)) }
    ensures orderly { IfOk result (λ checkpoint. IsOrderly generation checkpoint × IsLogged checkpoint) }
    ensures empty { IfOk result (λ checkpoint. IsEmpty checkpoint.log) }
    ensures cause { IfErr result (λ file. IsOf generation file × Rose (S.faults_of store.old file) (S.faults_of store.new file)) }
    ensures time { S.moment_of store.new ≤ S.moment_of store.old + 8 }
    ensures later { S.moment_of store.old ≤ S.moment_of store.new }
    ensures counts { NoneFell (S.faults_of store.old) (S.faults_of store.new) }
{
    let file = image_file(generation);
    let mut image = Image::begin(payload, Mark::Server, generation, file);
    match image.next(store) {
        Ok(_) => {}
        Err(_) => return Err(file),
    }
    let mut checkpoint = Checkpoint {
        image,
        start: made,
        copied: made,
        log: None,
    };
    match begin_log(store, generation, &mut checkpoint) {
        Ok(()) => Ok(checkpoint),
        Err(file) => Err(file),
    }
}

/// Copies records to the log, which are those of the journal up to a place. On an error it answers the file on which a call
/// failed.
pub(crate) fn copy_batch<S: Store>(
    store: &mut S,
    generation: u64,
    checkpoint: &mut Checkpoint,
    batch: &Batch,
    place: usize,
) -> Result<(), u32>
    requires time { S.moment_of store.old + 1 ≤ 2 ^ 62 }
    requires orderly { IsOrderly generation checkpoint.old }
    requires logged { IsSome checkpoint.old.log }
    requires more { checkpoint.old.copied < place }
    ensures told { Told (S.told store.old) (S.told store.new) (Extended generation checkpoint.old checkpoint.new batch.now place result) }
    ensures orderly { OnOk result (IsOrderly generation checkpoint.new × IsLogged checkpoint.new) }
    ensures same { OnOk result ((checkpoint.new.job ≡ checkpoint.old.job) × (checkpoint.new.start ≡ checkpoint.old.start) × (checkpoint.new.copied ≡ place)) }
    ensures longer { OnOk result (IsLonger (length batch.now) checkpoint.old.log checkpoint.new.log) }
    ensures cause { IfErr result (λ file. IsOf generation file × Rose (S.faults_of store.old file) (S.faults_of store.new file)) }
    ensures time { S.moment_of store.new ≤ S.moment_of store.old + 1 }
    ensures later { S.moment_of store.old ≤ S.moment_of store.new }
    ensures counts { NoneFell (S.faults_of store.old) (S.faults_of store.new) }
{
    let file = log_file(generation);
    let mut log = match checkpoint.log.take() {
        Some(log) => log,
        None => return Err(file),
    };
    match log.copy(store, batch) {
        Ok(()) => {
            checkpoint.log = Some(log);
            checkpoint.copied = place;
            Ok(())
        }
        Err(_) => Err(file),
    }
}

/// Makes the log durable, and then opens the image's gate. On an error it answers the file on which a call failed.
pub(crate) fn finish<S: Store>(
    store: &mut S,
    generation: u64,
    checkpoint: Checkpoint,
) -> Result<Log, u32>
    requires time { S.moment_of store.old + 7 ≤ 2 ^ 62 }
    requires orderly { IsOrderly generation checkpoint }
    requires logged { IsSome checkpoint.log }
    ensures told { Told (S.told store.old) (S.told store.new) (Finished generation checkpoint result) }
    ensures log { IfOk result (λ log. (log.file ≡ log_file generation) × (log.sure ≡ log.end) × (log.doubt ≡ None)) }
    ensures end { IfOk result (λ log. IfSome checkpoint.log (λ its. log.end ≡ its.end)) }
    ensures cause { IfErr result (λ file. IsOf generation file × Rose (S.faults_of store.old file) (S.faults_of store.new file)) }
    ensures time { S.moment_of store.new ≤ S.moment_of store.old + 3 }
    ensures later { S.moment_of store.old ≤ S.moment_of store.new }
    ensures counts { NoneFell (S.faults_of store.old) (S.faults_of store.new) }
{
    let Checkpoint {
        mut image,
        start: _,
        copied: _,
        log,
    } = checkpoint;
    let mut log = match log {
        Some(log) => log,
        None => return Err(log_file(generation)),
    };
    match log.seal(store) {
        Ok(()) => {}
        Err(_) => return Err(log_file(generation)),
    }
    match image.next(store) {
        Ok(_) => Ok(log),
        Err(_) => Err(image_file(generation)),
    }
}
