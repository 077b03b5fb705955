// Single steps on a store, by which the layers above work: a write, a sync, both, and a read.
ghost use Rattle.std.specs.Prelude.{◌+◌, ◌^◌, ◌≤◌, length, IfOk, OnErr};
ghost use Rattle.store_api.specs.Cause.{Rose, NoneFell};
ghost use Rattle.store_api.specs.Runs.{Wrote, Synced, WroteSynced, ReadWithin};
ghost use Rattle.store_api.specs.Told.{Told};

use crate::store::{Failed, Store};

/// Writes the bytes from the offset on. Nothing outside that range of the file changes, whether it fails or not.
pub fn write_within<S: Store>(
    store: &mut S,
    file: u32,
    offset: u64,
    bytes: &[u8],
) -> Result<(), Failed>
    requires { S.moment_of store.old + 1 ≤ 2 ^ 62 }
    ensures told { Told (S.told store.old) (S.told store.new) (Wrote file offset bytes.now result) }
    ensures time { S.moment_of store.new ≤ S.moment_of store.old + 1 }
    ensures later { S.moment_of store.old ≤ S.moment_of store.new }
    ensures counts { NoneFell (S.faults_of store.old) (S.faults_of store.new) }
    ensures cause { OnErr result (Rose (S.faults_of store.old file) (S.faults_of store.new file)) }
{
    store.write_at(file, offset, bytes)
}

/// Makes the file durable. It reads as before, whether this fails or not.
pub fn sync_within<S: Store>(store: &mut S, file: u32) -> Result<(), Failed>
    requires { S.moment_of store.old + 1 ≤ 2 ^ 62 }
    ensures told { Told (S.told store.old) (S.told store.new) (Synced file result) }
    ensures time { S.moment_of store.new ≤ S.moment_of store.old + 1 }
    ensures later { S.moment_of store.old ≤ S.moment_of store.new }
    ensures counts { NoneFell (S.faults_of store.old) (S.faults_of store.new) }
    ensures cause { OnErr result (Rose (S.faults_of store.old file) (S.faults_of store.new file)) }
{
    store.sync(file)
}

/// Writes the bytes from the offset on and makes the file durable. On an error the range may hold anything until the
/// next sync of the file.
pub fn write_synced<S: Store>(
    store: &mut S,
    file: u32,
    offset: u64,
    bytes: &[u8],
) -> Result<(), Failed>
    requires { S.moment_of store.old + 2 ≤ 2 ^ 62 }
    ensures told { Told (S.told store.old) (S.told store.new) (WroteSynced file offset bytes.now result) }
    ensures time { S.moment_of store.new ≤ S.moment_of store.old + 2 }
    ensures later { S.moment_of store.old ≤ S.moment_of store.new }
    ensures counts { NoneFell (S.faults_of store.old) (S.faults_of store.new) }
    ensures cause { OnErr result (Rose (S.faults_of store.old file) (S.faults_of store.new file)) }
{
    match write_within(store, file, offset, bytes) {
        Ok(()) => sync_within(store, file),
        Err(failed) => Err(failed),
    }
}

/// Reads what stands from the offset on, at most the buffer's length in bytes, and answers how many bytes that are.
/// Nothing changes.
pub fn read_within<S: Store>(
    store: &mut S,
    file: u32,
    offset: u64,
    into: &mut [u8],
) -> Result<usize, Failed>
    requires { S.moment_of store.old + 1 ≤ 2 ^ 62 }
    ensures told { Told (S.told store.old) (S.told store.new) (ReadWithin file offset into.new result) }
    ensures bound { IfOk result (λ count. count ≤ length into.new) }
    ensures time { S.moment_of store.new ≤ S.moment_of store.old + 1 }
    ensures later { S.moment_of store.old ≤ S.moment_of store.new }
    ensures counts { NoneFell (S.faults_of store.old) (S.faults_of store.new) }
    ensures cause { OnErr result (Rose (S.faults_of store.old file) (S.faults_of store.new file)) }
{
    store.read_at(file, offset, into)
}
