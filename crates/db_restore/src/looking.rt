// All copies of a database are looked for.
ghost use Rattle.std.specs.Prelude.{◌≡◌, ◌≤◌, length, IfErr};
ghost use Rattle.store_api.specs.Told.{Told};
ghost use Rattle.log_file.specs.Windows.{Onward};
ghost use Rattle.copy_checks.specs.Looks.{Looks, MayStop};
ghost use Rattle.inventory_rows.specs.object_rows.Rows.{kept_of};
ghost use Rattle.db_restore.specs.Missing.{FindsLost, copies_miss, filespaces_miss, groups_miss, held_miss, versions_miss};

use crate::missing::look_for;
use db_losses::Losses;
use inventory_rows::object_rows::{HeldRow, Objects};
use inventory_rows::version_groups::{CopyRow, Filespace, Group, Version};
use kinds::{OpenRefused, Path};
use std::alloc::Global;
use std::collections::BTreeMap;
use store_api::Store;

/// Looks for some copies of a version.
fn look_for_copies<S: Store>(
    alloc: Global,
    store: &mut S,
    skipped: &[u32],
    losses: &mut Losses,
    version: &Version,
    copies: &[CopyRow],
    buffer: &mut [u8],
) -> Result<(), OpenRefused>
    requires some { 1 ≤ length buffer.old }
    ensures told { Told (S.told store.old) (S.told store.new) (Looks (λ image _. FindsLost (copies_miss image skipped.now version.now copies.now) losses.old losses.new) result) }
    ensures long { length buffer.new ≡ length buffer.old }
    ensures refused { IfErr result (MayStop (S.faults_of store.old) (S.faults_of store.new) (S.moment_of store.new)) }
    ensures onward { Onward (S.moment_of store.old) (S.moment_of store.new) (S.faults_of store.old) (S.faults_of store.new) }
{
    'copies: for copy in copies {
        match look_for(alloc, store, skipped, losses, version, copy, buffer) {
            Ok(()) => {}
            Err(refused) => return Err(refused),
        }
    }
    Ok(())
}

/// Looks for those of some versions.
fn look_for_versions<S: Store>(
    alloc: Global,
    store: &mut S,
    skipped: &[u32],
    losses: &mut Losses,
    versions: &[Version],
    buffer: &mut [u8],
) -> Result<(), OpenRefused>
    requires some { 1 ≤ length buffer.old }
    ensures told { Told (S.told store.old) (S.told store.new) (Looks (λ image _. FindsLost (versions_miss image skipped.now versions.now) losses.old losses.new) result) }
    ensures long { length buffer.new ≡ length buffer.old }
    ensures refused { IfErr result (MayStop (S.faults_of store.old) (S.faults_of store.new) (S.moment_of store.new)) }
    ensures onward { Onward (S.moment_of store.old) (S.moment_of store.new) (S.faults_of store.old) (S.faults_of store.new) }
{
    'versions: for version in versions {
        match look_for_copies(
            alloc,
            store,
            skipped,
            losses,
            version,
            version.copies.as_slice(),
            buffer,
        ) {
            Ok(()) => {}
            Err(refused) => return Err(refused),
        }
    }
    Ok(())
}

/// The same of the versions of some groups.
fn look_for_groups<S: Store>(
    alloc: Global,
    store: &mut S,
    skipped: &[u32],
    losses: &mut Losses,
    groups: &BTreeMap<Path, Group>,
    buffer: &mut [u8],
) -> Result<(), OpenRefused>
    requires some { 1 ≤ length buffer.old }
    ensures told { Told (S.told store.old) (S.told store.new) (Looks (λ image _. FindsLost (groups_miss image skipped.now groups.now.entries) losses.old losses.new) result) }
    ensures long { length buffer.new ≡ length buffer.old }
    ensures refused { IfErr result (MayStop (S.faults_of store.old) (S.faults_of store.new) (S.moment_of store.new)) }
    ensures onward { Onward (S.moment_of store.old) (S.moment_of store.new) (S.faults_of store.old) (S.faults_of store.new) }
{
    'groups: for (_, group) in groups.iter() {
        match look_for_versions(
            alloc,
            store,
            skipped,
            losses,
            group.versions.as_slice(),
            buffer,
        ) {
            Ok(()) => {}
            Err(refused) => return Err(refused),
        }
    }
    Ok(())
}

/// The same of the versions in some filespaces.
fn look_for_filespaces<S: Store>(
    alloc: Global,
    store: &mut S,
    skipped: &[u32],
    losses: &mut Losses,
    filespaces: &BTreeMap<u32, Filespace>,
    buffer: &mut [u8],
) -> Result<(), OpenRefused>
    requires some { 1 ≤ length buffer.old }
    ensures told { Told (S.told store.old) (S.told store.new) (Looks (λ image _. FindsLost (filespaces_miss image skipped.now filespaces.now.entries) losses.old losses.new) result) }
    ensures long { length buffer.new ≡ length buffer.old }
    ensures refused { IfErr result (MayStop (S.faults_of store.old) (S.faults_of store.new) (S.moment_of store.new)) }
    ensures onward { Onward (S.moment_of store.old) (S.moment_of store.new) (S.faults_of store.old) (S.faults_of store.new) }
{
    'filespaces: for (_, filespace) in filespaces.iter() {
        match look_for_groups(
            alloc,
            store,
            skipped,
            losses,
            filespace.groups.as_map(),
            buffer,
        ) {
            Ok(()) => {}
            Err(refused) => return Err(refused),
        }
    }
    Ok(())
}

/// The same of some held objects.
fn look_for_held<S: Store>(
    alloc: Global,
    store: &mut S,
    skipped: &[u32],
    losses: &mut Losses,
    held: &BTreeMap<u64, HeldRow>,
    buffer: &mut [u8],
) -> Result<(), OpenRefused>
    requires some { 1 ≤ length buffer.old }
    ensures told { Told (S.told store.old) (S.told store.new) (Looks (λ image _. FindsLost (held_miss image skipped.now held.now.entries) losses.old losses.new) result) }
    ensures long { length buffer.new ≡ length buffer.old }
    ensures refused { IfErr result (MayStop (S.faults_of store.old) (S.faults_of store.new) (S.moment_of store.new)) }
    ensures onward { Onward (S.moment_of store.old) (S.moment_of store.new) (S.faults_of store.old) (S.faults_of store.new) }
{
    'held: for (_, row) in held.iter() {
        match look_for_copies(
            alloc,
            store,
            skipped,
            losses,
            &row.held.version,
            row.held.version.copies.as_slice(),
            buffer,
        ) {
            Ok(()) => {}
            Err(refused) => return Err(refused),
        }
    }
    Ok(())
}

/// The same of all that is kept.
pub(crate) fn look_for_all<S: Store>(
    alloc: Global,
    store: &mut S,
    skipped: &[u32],
    losses: &mut Losses,
    objects: &Objects,
    buffer: &mut [u8],
) -> Result<(), OpenRefused>
    requires some { 1 ≤ length buffer.old }
    ensures told { Told (S.told store.old) (S.told store.new) (Looks (λ image _. FindsLost (versions_miss image skipped.now (kept_of objects.now)) losses.old losses.new) result) }
    ensures long { length buffer.new ≡ length buffer.old }
    ensures refused { IfErr result (MayStop (S.faults_of store.old) (S.faults_of store.new) (S.moment_of store.new)) }
    ensures onward { Onward (S.moment_of store.old) (S.moment_of store.new) (S.faults_of store.old) (S.faults_of store.new) }
{
    match look_for_filespaces(alloc, store, skipped, losses, objects.filespaces(), buffer) {
        Ok(()) => {}
        Err(refused) => return Err(refused),
    }
    look_for_held(alloc, store, skipped, losses, objects.held(), buffer)
}
