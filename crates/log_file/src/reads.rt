// The looks at a file that opening makes. None comes near the last moment: each is refused with `RunFull` from the moment
// 2^62 - 2^24 on, and with `ReadFault` only where the file's count of faults rose in it.
ghost use Rattle.std.specs.Prelude.{◌≡◌, ◌<◌, ◌≤◌, ◌^◌, ◌-◌, length, IfOk, OnOk, IfErr};
ghost use Rattle.kinds.specs.declared.refusal.OpenRefused.TheVariants.{RunFull};
ghost use Rattle.store_api.specs.Told.{Told, ReadsFrom};
ghost use Rattle.log_file.specs.Cursor.{MayRefuse, Looked};
ghost use Rattle.log_file.specs.Windows.{IfReads, Onward, NoDamage};
ghost use Rattle.log_file.specs.Starts.{Settled};

use kinds::OpenRefused;
use store_api::{Store, read_within};

const FULL: u64 = (1 << 62) - (1 << 24);

/// Refused where the moment is all but the last.
fn ready<S: Store>(store: &S) -> Result<(), OpenRefused>
    ensures ok { OnOk result (S.moment_of store.now < 2 ^ 62 - 2 ^ 24) }
    ensures full { IfErr result (λ refusal. (refusal ≡ RunFull) × (2 ^ 62 - 2 ^ 24 ≤ S.moment_of store.now)) }
{
    if store.moment() < FULL {
        Ok(())
    } else {
        Err(OpenRefused::RunFull)
    }
}

/// Makes the file durable.
pub fn settle<S: Store>(store: &mut S, file: u32) -> Result<(), OpenRefused>
    ensures told { Told (S.told store.old) (S.told store.new) (Settled file result) }
    ensures undamaged { IfErr result NoDamage }
    ensures refused { IfErr result (MayRefuse file (S.faults_of store.old) (S.faults_of store.new) (S.moment_of store.new)) }
    ensures onward { Onward (S.moment_of store.old) (S.moment_of store.new) (S.faults_of store.old) (S.faults_of store.new) }
{
    match ready(store) {
        Ok(()) => {}
        Err(refused) => return Err(refused),
    }
    match store.sync(file) {
        Ok(()) => Ok(()),
        Err(_) => Err(OpenRefused::ReadFault(file)),
    }
}

/// The file's length in bytes.
pub fn file_len<S: Store>(store: &mut S, file: u32) -> Result<u64, OpenRefused>
    ensures looked { Told (S.told store.old) (S.told store.new) Looked }
    ensures undamaged { IfErr result NoDamage }
    ensures len { IfOk result (λ len. (len < 2 ^ 64) × IfReads (S.told store.old) file (λ bytes. len ≡ length bytes)) }
    ensures refused { IfErr result (MayRefuse file (S.faults_of store.old) (S.faults_of store.new) (S.moment_of store.new)) }
    ensures onward { Onward (S.moment_of store.old) (S.moment_of store.new) (S.faults_of store.old) (S.faults_of store.new) }
{
    match ready(store) {
        Ok(()) => {}
        Err(refused) => return Err(refused),
    }
    match store.len(file) {
        Ok(len) => Ok(len),
        Err(_) => Err(OpenRefused::ReadFault(file)),
    }
}

/// Reads what stands at the place, as much as the buffer holds.
pub fn read_piece<S: Store>(
    store: &mut S,
    file: u32,
    at: u64,
    into: &mut [u8],
) -> Result<usize, OpenRefused>
    ensures looked { Told (S.told store.old) (S.told store.new) Looked }
    ensures bytes { IfOk result (λ count. IfReads (S.told store.old) file (λ bytes. ReadsFrom bytes at into.new count)) }
    ensures len { length into.new ≡ length into.old }
    ensures bound { IfOk result (λ count. count ≤ length into.new) }
    ensures undamaged { IfErr result NoDamage }
    ensures refused { IfErr result (MayRefuse file (S.faults_of store.old) (S.faults_of store.new) (S.moment_of store.new)) }
    ensures onward { Onward (S.moment_of store.old) (S.moment_of store.new) (S.faults_of store.old) (S.faults_of store.new) }
{
    match ready(store) {
        Ok(()) => {}
        Err(refused) => return Err(refused),
    }
    match read_within(store, file, at, into) {
        Ok(count) => Ok(count),
        Err(_) => Err(OpenRefused::ReadFault(file)),
    }
}
