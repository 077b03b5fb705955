// Whether a copy is missing.
ghost use Rattle.std.specs.Prelude.{◌≡◌, ◌∷◌, [], ◌≤◌, length, IfErr};
ghost use Rattle.store_api.specs.Told.{Told};
ghost use Rattle.log_file.specs.Windows.{Onward};
ghost use Rattle.copy_checks.specs.Looks.{Looks, MayStop};
ghost use Rattle.db_restore.specs.Missing.{FindsLost, copies_miss, is_among, is_missing, is_skipped};

use copy_checks::is_there;
use db_losses::Losses;
use inventory_rows::version_groups::{CopyRow, Version};
use kinds::{OpenRefused, Segment};
use std::alloc::Global;
use store_api::Store;

/// Whether the file is one of these.
pub(crate) fn is_among(files: &[u32], file: u32) -> bool
    ensures { result ≡ is_among files.now file }
{
    files.iter().any(|f| *f == file)
}

/// Whether a segment lies in one of the files that are passed over.
fn is_skipped(skipped: &[u32], segments: &[Segment]) -> bool
    ensures { result ≡ is_skipped skipped.now segments.now }
{
    segments.iter().any(|s| is_among(skipped, s.file))
}

/// Whether a copy of a version is passed over, or doesn't stand on its volumes as it was stored.
fn is_missing<S: Store>(
    store: &mut S,
    skipped: &[u32],
    version: &Version,
    copy: &CopyRow,
    buffer: &mut [u8],
) -> Result<bool, OpenRefused>
    requires some { 1 ≤ length buffer.old }
    ensures told { Told (S.told store.old) (S.told store.new) (Looks (λ image found. found ≡ is_missing image skipped.now version.now copy.now) result) }
    ensures long { length buffer.new ≡ length buffer.old }
    ensures refused { IfErr result (MayStop (S.faults_of store.old) (S.faults_of store.new) (S.moment_of store.new)) }
    ensures onward { Onward (S.moment_of store.old) (S.moment_of store.new) (S.faults_of store.old) (S.faults_of store.new) }
{
    if is_skipped(skipped, copy.segments.as_slice()) {
        return Ok(true);
    }
    match is_there(
        store,
        version.object,
        version.size.bytes(),
        &version.digest,
        &copy.segments,
        buffer,
    ) {
        Ok(there) => Ok(!there),
        Err(refused) => Err(refused),
    }
}

/// Looks for a copy of a version, and puts it with those that are lost where it is missing.
pub(crate) fn look_for<S: Store>(
    alloc: Global,
    store: &mut S,
    skipped: &[u32],
    losses: &mut Losses,
    version: &Version,
    copy: &CopyRow,
    buffer: &mut [u8],
) -> Result<(), OpenRefused>
    requires some { 1 ≤ length buffer.old }
    ensures told { Told (S.told store.old) (S.told store.new) (Looks (λ image _. FindsLost (copies_miss image skipped.now version.now (copy.now ∷ [])) losses.old losses.new) result) }
    ensures long { length buffer.new ≡ length buffer.old }
    ensures refused { IfErr result (MayStop (S.faults_of store.old) (S.faults_of store.new) (S.moment_of store.new)) }
    ensures onward { Onward (S.moment_of store.old) (S.moment_of store.new) (S.faults_of store.old) (S.faults_of store.new) }
{
    match is_missing(store, skipped, version, copy, buffer) {
        Ok(true) => {}
        Ok(false) => return Ok(()),
        Err(refused) => return Err(refused),
    }
    match losses.add(alloc, version.object, copy.pool) {
        Ok(()) => Ok(()),
        Err(_) => Err(OpenRefused::Memory),
    }
}
