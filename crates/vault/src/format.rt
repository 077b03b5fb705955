// How a database is put into files.
ghost use Rattle.std.specs.Prelude.{◌≡◌, ◌+◌, ◌-◌, ◌<◌, ◌≤◌, ◌^◌, max, length, IfOk, OnOk, IfErr};
ghost use Rattle.store_api.specs.Cause.{Rose, NoneFell};
ghost use Rattle.store_api.specs.Told.{Told};
ghost use Rattle.vault.specs.Files.{IsOurs};
ghost use Rattle.kinds.specs.declared.refusal.OpenRefused.TheVariants.{RunFull};
ghost use Rattle.vault.specs.Openings.{IsNew, Cleared, Formatted, PutBehind, Installed, Rewritten, MayRefuseFormatting};

use crate::files::LAST;
use crate::open::{recover, settle_all};
use crate::vault::Vault;
use crate::write::put_generation;
use db_image::shut_gate;
use entries::Database;
use kinds::OpenRefused;
use log_file::Log;
use std::alloc::Global;
use store_api::Store;

const FULL: u64 = (1 << 62) - (1 << 24);

/// Refused where the moment is all but the last.
fn ready<S: Store>(store: &S) -> Result<(), OpenRefused>
    ensures ok { OnOk result (S.moment_of store.now < 2 ^ 62 - 2 ^ 24) }
    ensures full { IfErr result (λ refusal. (refusal ≡ RunFull) × (2 ^ 62 - 2 ^ 24 ≤ S.moment_of store.now)) }
{
    if store.moment() < FULL {
        Ok(())
    } else {
        Err(OpenRefused::RunFull)
    }
}

/// Shuts the gates of both images and begins both logs. On an error it answers the file on which a call failed.
fn clear<S: Store>(store: &mut S) -> Result<(), u32>
    requires { S.moment_of store.old + 16 ≤ 2 ^ 62 }
    ensures told { Told (S.told store.old) (S.told store.new) (Cleared result) }
    ensures cause { IfErr result (λ file. IsOurs file × Rose (S.faults_of store.old file) (S.faults_of store.new file)) }
    ensures time { S.moment_of store.new ≤ S.moment_of store.old + 16 }
    ensures later { S.moment_of store.old ≤ S.moment_of store.new }
    ensures counts { NoneFell (S.faults_of store.old) (S.faults_of store.new) }
{
    match shut_gate(store, 0) {
        Ok(()) => {}
        Err(_) => return Err(0),
    }
    match shut_gate(store, 1) {
        Ok(()) => {}
        Err(_) => return Err(1),
    }
    match Log::create(store, 2) {
        Ok(_) => {}
        Err(_) => return Err(2),
    }
    match Log::create(store, 3) {
        Ok(_) => Ok(()),
        Err(_) => Err(3),
    }
}

/// Puts a database's payload into files that are on the disk: shuts all gates first, and then writes generation 0.
fn begin_again<D: Database, S: Store>(
    alloc: Global,
    store: &mut S,
    database: &D,
) -> Result<(), OpenRefused>
    ensures told { Told (S.told store.old) (S.told store.new) (Formatted D.meaning database.now result) }
    ensures refused { IfErr result (MayRefuseFormatting (S.faults_of store.old) (S.faults_of store.new) (S.moment_of store.new)) }
    ensures time { S.moment_of store.new ≤ max (S.moment_of store.old) (2 ^ 62) }
    ensures later { S.moment_of store.old ≤ S.moment_of store.new }
    ensures counts { NoneFell (S.faults_of store.old) (S.faults_of store.new) }
{
    let payload = match database.encode(alloc) {
        Ok(payload) => payload,
        Err(_) => return Err(OpenRefused::Memory),
    };
    match ready(store) {
        Ok(()) => {}
        Err(refused) => return Err(refused),
    }
    match settle_all(store) {
        Ok(()) => {}
        Err(refused) => return Err(refused),
    }
    match clear(store) {
        Ok(()) => {}
        Err(file) => return Err(OpenRefused::ReadFault(file)),
    }
    match put_generation(store, 0, payload) {
        Ok(_) => Ok(()),
        Err(file) => Err(OpenRefused::ReadFault(file)),
    }
}

/// Puts a database into the files of a vault as its next generation, behind the last again as generation 0.
fn put_behind<D: Database, S: Store>(
    alloc: Global,
    store: &mut S,
    vault: Vault<D>,
    database: &D,
) -> Result<(), OpenRefused>
    requires time { S.moment_of store.old ≤ 2 ^ 62 - 2 ^ 24 }
    ensures told { Told (S.told store.old) (S.told store.new) (PutBehind D.meaning vault database.now result) }
    ensures refused { IfErr result (MayRefuseFormatting (S.faults_of store.old) (S.faults_of store.new) (S.moment_of store.new)) }
    ensures time { S.moment_of store.new ≤ max (S.moment_of store.old) (2 ^ 62) }
    ensures later { S.moment_of store.old ≤ S.moment_of store.new }
    ensures counts { NoneFell (S.faults_of store.old) (S.faults_of store.new) }
{
    let generation = vault.generation();
    if generation >= LAST {
        return begin_again(alloc, store, database);
    }
    let payload = match database.encode(alloc) {
        Ok(payload) => payload,
        Err(_) => return Err(OpenRefused::Memory),
    };
    match put_generation(store, generation + 1, payload) {
        Ok(_) => Ok(()),
        Err(file) => Err(OpenRefused::ReadFault(file)),
    }
}

/// Writes what a vault holds as its next generation, in the form that is written, and answers it as it stands there.
pub(crate) fn rewrite<D: Database, S: Store>(
    alloc: Global,
    store: &mut S,
    vault: Vault<D>,
) -> Result<Vault<D>, OpenRefused>
    requires number { vault.generation + 1 < 2 ^ 62 }
    ensures told { Told (S.told store.old) (S.told store.new) (Rewritten D.meaning vault result) }
    ensures same { IfOk result (λ next. (next.generation ≡ vault.generation + 1) × (next.database ≡ vault.database)) }
    ensures begun { IfOk result IsNew }
    ensures refused { IfErr result (MayRefuseFormatting (S.faults_of store.old) (S.faults_of store.new) (S.moment_of store.new)) }
    ensures time { S.moment_of store.new ≤ max (S.moment_of store.old) (2 ^ 62) }
    ensures later { S.moment_of store.old ≤ S.moment_of store.new }
    ensures counts { NoneFell (S.faults_of store.old) (S.faults_of store.new) }
{
    match ready(store) {
        Ok(()) => {}
        Err(refused) => return Err(refused),
    }
    let generation = vault.generation() + 1;
    let payload = match vault.database().encode(alloc) {
        Ok(payload) => payload,
        Err(_) => return Err(OpenRefused::Memory),
    };
    match put_generation(store, generation, payload) {
        Ok(log) => Ok(Vault::opened(alloc, generation, vault.into_database(), log)),
        Err(file) => Err(OpenRefused::ReadFault(file)),
    }
}

impl<D: Database> Vault<D> {
    /// Puts a database in the place of what the files recover to, as a new generation; where they recover to nothing, and
    /// behind the last generation, as `format` does. Refused as `format` is, and for want of memory also while the files
    /// are read.
    pub fn install<S: Store>(alloc: Global, store: &mut S, database: &D) -> Result<(), OpenRefused>
        ensures told { Told (S.told store.old) (S.told store.new) (Installed D.meaning database.now result) }
        ensures refused { IfErr result (MayRefuseFormatting (S.faults_of store.old) (S.faults_of store.new) (S.moment_of store.new)) }
        ensures time { S.moment_of store.new ≤ max (S.moment_of store.old) (2 ^ 62) }
        ensures later { S.moment_of store.old ≤ S.moment_of store.new }
        ensures counts { NoneFell (S.faults_of store.old) (S.faults_of store.new) }
    {
        match ready(store) {
            Ok(()) => {}
            Err(refused) => return Err(refused),
        }
        match recover::<D, S>(alloc, store) {
            Ok((vault, _)) => put_behind(alloc, store, vault, database),
            Err(OpenRefused::NotFormatted) => begin_again(alloc, store, database),
            Err(OpenRefused::Damaged(_, _)) => begin_again(alloc, store, database),
            Err(OpenRefused::ReadFault(file)) => Err(OpenRefused::ReadFault(file)),
            Err(OpenRefused::RunFull) => Err(OpenRefused::RunFull),
            Err(OpenRefused::Memory) => Err(OpenRefused::Memory),
        }
    }

    /// Puts a database into the files as generation 0, whatever they hold: the gates of both images are shut and both logs
    /// are begun before it is written. A stop meanwhile may leave files that aren't formatted. Refused with `ReadFault` only
    /// where a call on a file failed; with `RunFull` only where the moment is, or came to, 2^62 - 2^24; and for want of
    /// memory.
    pub fn format<S: Store>(alloc: Global, store: &mut S, fresh: &D) -> Result<(), OpenRefused>
        ensures told { Told (S.told store.old) (S.told store.new) (Formatted D.meaning fresh.now result) }
        ensures refused { IfErr result (MayRefuseFormatting (S.faults_of store.old) (S.faults_of store.new) (S.moment_of store.new)) }
        ensures time { S.moment_of store.new ≤ max (S.moment_of store.old) (2 ^ 62) }
        ensures later { S.moment_of store.old ≤ S.moment_of store.new }
        ensures counts { NoneFell (S.faults_of store.old) (S.faults_of store.new) }
    {
        begin_again(alloc, store, fresh)
    }
}
