// The device calls that write a log: a record behind the last one, the gate of the first that waits, and records that are copied.
ghost use Rattle.std.specs.Prelude.{ℕ, ◌≡◌, ◌≢◌, ◌<◌, ◌≤◌, ◌^◌, ◌+◌, length, OnOk, OnErr};
ghost use Rattle.store_api.specs.Cause.{Rose, NoneFell};
ghost use Rattle.store_api.specs.Told.{Told};
ghost use Rattle.log_file.specs.Steps.{Appended, Forced, Copied};

use crate::batch::Batch;
use crate::frame::Framed;
use store_api::{Failed, Store, sync_within, write_synced};

const OPEN: [u8; 1] = [1];

/// Puts a record at the place, with the next gate closed. Its own gate is written open; but where it is the first since the
/// last force, its gate is the closed one that ends what is durable, and that is left as it is.
pub(crate) fn put_record<S: Store>(
    store: &mut S,
    file: u32,
    sure: u64,
    at: u64,
    framed: &Framed,
) -> Result<(), Failed>
    requires { S.moment_of store.old + 1 ≤ 2 ^ 62 }
    ensures told { Told (S.told store.old) (S.told store.new) (Appended file sure at framed.now result) }
    ensures fits { OnOk result (at + (5 + length framed.now) + 1 < 2 ^ 64) }
    ensures time { S.moment_of store.new ≤ S.moment_of store.old + 1 }
    ensures later { S.moment_of store.old ≤ S.moment_of store.new }
    ensures counts { NoneFell (S.faults_of store.old) (S.faults_of store.new) }
    ensures cause { OnErr result (Rose (S.faults_of store.old file) (S.faults_of store.new file)) }
{
    let bytes = framed.bytes();
    if at == sure {
        return store.write_at(file, at.saturating_add(1), &bytes[1..]);
    }
    store.write_at(file, at, bytes)
}

/// Makes durable what waits behind the closed gate at the place, and then opens that gate and makes it durable.
pub(crate) fn open_first<S: Store>(store: &mut S, file: u32, sure: u64) -> Result<(), Failed>
    requires { S.moment_of store.old + 3 ≤ 2 ^ 62 }
    ensures told { Told (S.told store.old) (S.told store.new) (λ old new. (end : ℕ) → sure ≢ end → Forced file sure end result old new) }
    ensures time { S.moment_of store.new ≤ S.moment_of store.old + 3 }
    ensures later { S.moment_of store.old ≤ S.moment_of store.new }
    ensures counts { NoneFell (S.faults_of store.old) (S.faults_of store.new) }
    ensures cause { OnErr result (Rose (S.faults_of store.old file) (S.faults_of store.new file)) }
{
    match sync_within(store, file) {
        Ok(()) => write_synced(store, file, sure, &OPEN),
        Err(failed) => Err(failed),
    }
}

/// Puts records at the place, each with its gate open, and the next gate, closed.
pub(crate) fn put_batch<S: Store>(
    store: &mut S,
    file: u32,
    at: u64,
    batch: &Batch,
) -> Result<(), Failed>
    requires { S.moment_of store.old + 1 ≤ 2 ^ 62 }
    ensures told { Told (S.told store.old) (S.told store.new) (Copied file at batch.now result) }
    ensures fits { OnOk result (at + length batch.now + 1 < 2 ^ 64) }
    ensures time { S.moment_of store.new ≤ S.moment_of store.old + 1 }
    ensures later { S.moment_of store.old ≤ S.moment_of store.new }
    ensures counts { NoneFell (S.faults_of store.old) (S.faults_of store.new) }
    ensures cause { OnErr result (Rose (S.faults_of store.old file) (S.faults_of store.new file)) }
{
    store.write_at(file, at, batch.bytes())
}
