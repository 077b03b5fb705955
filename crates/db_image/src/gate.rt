// The gate of an image: its file's first byte. Open is 1, and any other value is shut.
ghost use Rattle.std.specs.Prelude.{◌≤◌, ◌^◌, ◌+◌, ◌∷◌, [], OnErr};
ghost use Rattle.store_api.specs.Cause.{Rose, NoneFell};
ghost use Rattle.store_api.specs.Told.{Told};
ghost use Rattle.store_api.specs.Runs.{WroteSynced};
ghost use Rattle.db_image.specs.Steps.{Shut};

use store_api::{Failed, Store, read_within, write_synced};

const OPEN: [u8; 1] = [1];

const SHUT: [u8; 1] = [0];

/// Shuts the gate and makes that durable, where it is open or the file is empty. A gate that is shut already is left as it
/// is: until a sync a byte that was written over may be left as anything by a stop, and so as an open gate.
pub fn shut_gate<S: Store>(store: &mut S, file: u32) -> Result<(), Failed>
    requires { S.moment_of store.old + 3 ≤ 2 ^ 62 }
    ensures told { Told (S.told store.old) (S.told store.new) (Shut file result) }
    ensures time { S.moment_of store.new ≤ S.moment_of store.old + 3 }
    ensures later { S.moment_of store.old ≤ S.moment_of store.new }
    ensures counts { NoneFell (S.faults_of store.old) (S.faults_of store.new) }
    ensures cause { OnErr result (Rose (S.faults_of store.old file) (S.faults_of store.new file)) }
{
    let mut gate = [0u8; 1];
    match read_within(store, file, 0, &mut gate) {
        Ok(count) => {
            if count == 0 || gate[0] == 1 {
                return write_synced(store, file, 0, &SHUT);
            }
            Ok(())
        }
        Err(failed) => Err(failed),
    }
}

/// Opens the gate and makes that durable.
pub(crate) fn open_gate<S: Store>(store: &mut S, file: u32) -> Result<(), Failed>
    requires { S.moment_of store.old + 2 ≤ 2 ^ 62 }
    ensures told { Told (S.told store.old) (S.told store.new) (WroteSynced file 0 (1 ∷ []) result) }
    ensures time { S.moment_of store.new ≤ S.moment_of store.old + 2 }
    ensures later { S.moment_of store.old ≤ S.moment_of store.new }
    ensures counts { NoneFell (S.faults_of store.old) (S.faults_of store.new) }
    ensures cause { OnErr result (Rose (S.faults_of store.old file) (S.faults_of store.new file)) }
{
    write_synced(store, file, 0, &OPEN)
}
