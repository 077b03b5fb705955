// A database is restored.
ghost use Rattle.std.specs.Prelude.{◌≡◌, ◌<◌, ◌≤◌, ◌^◌, ◌+◌, max, [], true, length, IsTrue, IfOk, IfErr};
ghost use Rattle.store_api.specs.Cause.{NoneFell};
ghost use Rattle.store_api.specs.Told.{Told};
ghost use Rattle.log_file.specs.Windows.{Onward};
ghost use Rattle.kinds.specs.Answers.{AnswersBy};
ghost use Rattle.kinds.specs.Days.{is_day};
ghost use Rattle.kinds.specs.declared.refusal.Refusal.TheVariants.{Memory};
ghost use Rattle.fields.specs.Editions.{second_form};
ghost use Rattle.entries.specs.Meaning.{Spells};
ghost use Rattle.inventory_rows.specs.State.{inv_of};
ghost use Rattle.inventory_rules.specs.Held.{IsTied};
ghost use Rattle.inventory_rules.specs.Valid.{is_valid};
ghost use Rattle.inventory.specs.Meant.{meaning};
ghost use Rattle.db_chains.specs.Chains.{IsBackupFile};
ghost use Rattle.copy_checks.specs.Looks.{MayStop};
ghost use Rattle.vault.specs.Openings.{MayRefuseFormatting};
ghost use Rattle.db_restore.specs.Restoring.{Leaves, Looked, MayRefuseRestore, Puts, Restores, SaysDays, stopped};

use crate::done::RestoreDone;
use crate::refused::RestoreRefused;
use crate::volumes::judge;
use db_losses::{Losses, count_copies, list_lost, restore};
use entries::Database;
use inventory::Inventory;
use inventory_bytes::tables_fit;
use inventory_rows::Tables;
use kinds::{Day, OpenRefused, Refusal};
use std::alloc::Global;
use store_api::Store;
use vault::Vault;

/// What a refusal to look at files or to write them is of a restore. The two that speak of the files' bytes don't come there, and stand for want of memory.
fn stopped(refused: OpenRefused) -> RestoreRefused
    ensures { result ≡ stopped refused }
{
    match refused {
        OpenRefused::ReadFault(file) => RestoreRefused::ReadFault(file),
        OpenRefused::NotFormatted => RestoreRefused::Memory,
        OpenRefused::Damaged(_, _) => RestoreRefused::Memory,
        OpenRefused::RunFull => RestoreRefused::RunFull,
        OpenRefused::Memory => RestoreRefused::Memory,
    }
}

/// The bytes of the database of these rows.
fn spell(alloc: Global, tables: &Tables) -> Result<Vec<u8>, Refusal>
    requires valid { is_valid (inv_of tables.now) ≡ true }
    requires tied { IsTied (inv_of tables.now) }
    ensures bytes { IfOk result (λ bytes. Spells meaning second_form bytes.items (inv_of tables.now)) }
    ensures memory { IfErr result (λ e. e ≡ Memory) }
{
    tables_fit(tables);
    let bytes = inventory_bytes::encode(alloc, tables)?;
    Ok(bytes)
}

/// The database of these rows, as it is read from its bytes; so what is put into the files can be read.
fn read_back(alloc: Global, tables: &Tables) -> Result<Inventory, Refusal>
    requires valid { is_valid (inv_of tables.now) ≡ true }
    requires tied { IsTied (inv_of tables.now) }
    ensures { AnswersBy (λ i. i) result (inv_of tables.now) }
{
    let bytes = spell(alloc, tables)?;
    match Inventory::decode_two(alloc, &bytes) {
        Ok(Some(inventory)) => Ok(inventory),
        Ok(None) => unreachable!(),
        Err(refusal) => Err(refusal),
    }
}

/// What is left of a backup's database where copies are lost, and what there is to say of it.
fn leave(
    alloc: Global,
    losses: &Losses,
    file: u32,
    day: Day,
    backup: &Inventory,
) -> Result<(Inventory, RestoreDone), Refusal>
    requires possible { IsBackupFile file }
    requires bounded { IsTrue (is_day day) }
    requires later { backup.now.today ≤ day }
    ensures left { IfOk result (λ left. Leaves losses.now file day backup.now left.0 left.1) }
    ensures memory { IfErr result (λ e. e ≡ Memory) }
{
    let tables = backup.tables();
    let lost = list_lost(alloc, losses, &tables.objects)?;
    let left = restore(alloc, losses, file, day, tables)?;
    let inventory = read_back(alloc, &left)?;
    let versions = left.objects.count() as u64;
    let copies = count_copies(&left.objects);
    Ok((
        inventory,
        RestoreDone {
            versions,
            copies,
            lost,
        },
    ))
}

/// Looks for the copies of a backup's database, and makes what is left of it. Nothing that is read changes.
#[tactic(auto, using(crate::proofs::Putting::looked_failed, crate::proofs::Putting::looked_unmade, crate::proofs::Putting::looked_made))]
fn look<S: Store>(
    alloc: Global,
    store: &mut S,
    file: u32,
    day: Day,
    skipped: &[u32],
    backup: &Inventory,
) -> Result<(Inventory, RestoreDone), OpenRefused>
    requires possible { IsBackupFile file }
    requires bounded { IsTrue (is_day day) }
    requires later { backup.now.today ≤ day }
    ensures told { Told (S.told store.old) (S.told store.new) (Looked backup.now file day skipped.now result) }
    ensures days { backup.now.today ≤ day }
    ensures refused { IfErr result (MayStop (S.faults_of store.old) (S.faults_of store.new) (S.moment_of store.new)) }
    ensures onward { Onward (S.moment_of store.old) (S.moment_of store.new) (S.faults_of store.old) (S.faults_of store.new) }
{
    let losses = match judge(alloc, store, skipped, backup) {
        Ok(losses) => losses,
        Err(refused) => return Err(refused),
    };
    match leave(alloc, &losses, file, day, backup) {
        Ok(left) => Ok(left),
        Err(_) => Err(OpenRefused::Memory),
    }
}

/// Puts what is left of a backup's database in the place of what the files recover to.
fn put<S: Store>(
    alloc: Global,
    store: &mut S,
    left: (Inventory, RestoreDone),
) -> Result<RestoreDone, OpenRefused>
    ensures told { Told (S.told store.old) (S.told store.new) (Puts left.0 left.1 result) }
    ensures refused { IfErr result (MayRefuseFormatting (S.faults_of store.old) (S.faults_of store.new) (S.moment_of store.new)) }
    ensures time { S.moment_of store.new ≤ max (S.moment_of store.old) (2 ^ 62) }
    ensures later { S.moment_of store.old ≤ S.moment_of store.new }
    ensures counts { NoneFell (S.faults_of store.old) (S.faults_of store.new) }
{
    let (inventory, done) = left;
    match Vault::install(alloc, store, &inventory) {
        Ok(()) => Ok(done),
        Err(refused) => Err(refused),
    }
}

/// Restores a backup's database on a day: it is put in the place of the one that the files recover to, with that day, no listed backups and a next file number above that of the backup's file. Its copies
/// are looked for on the volumes first, whose files are made durable before they are read. A copy is dropped exactly where it has a segment in a file that is passed over, or doesn't stand on its volumes
/// in its frames, with its object's size and digest; a volume that so loses its last copy is emptied on that day; an object without a copy goes and is answered as lost. No volume is written. Refused
/// with `DayBack` exactly where the day lies before the backup's; with `ReadFault` only where a call on that file failed; with `RunFull` only where the moment is, or came to, 2^62 - 2^24; and for
/// want of memory. A stop meanwhile, and a refusal, leave what was there or the restored database, as `Vault::install` says.
#[tactic(auto, using(crate::proofs::Putting::restores_none, crate::proofs::Putting::restores_unseen, crate::proofs::Putting::restores_unput))]
pub fn restore_inventory<S: Store>(
    alloc: Global,
    store: &mut S,
    backup: Inventory,
    file: u32,
    day: Day,
    skipped: &[u32],
) -> Result<RestoreDone, RestoreRefused>
    requires possible { IsBackupFile file }
    ensures told { Told (S.told store.old) (S.told store.new) (Restores backup file day skipped.now result) }
    ensures days { SaysDays backup.today day result }
    ensures refused { IfErr result (MayRefuseRestore backup.today day (S.faults_of store.old) (S.faults_of store.new) (S.moment_of store.new)) }
    ensures time { S.moment_of store.new ≤ max (S.moment_of store.old) (2 ^ 62) }
    ensures later { S.moment_of store.old ≤ S.moment_of store.new }
    ensures counts { NoneFell (S.faults_of store.old) (S.faults_of store.new) }
{
    let taken = backup.tables().today;
    let given = day.number();
    if day < taken {
        return Err(RestoreRefused::DayBack(taken.number(), given));
    }
    let left = match look(alloc, store, file, day, skipped, &backup) {
        Ok(left) => left,
        Err(refused) => return Err(stopped(refused)),
    };
    match put(alloc, store, left) {
        Ok(done) => Ok(done),
        Err(refused) => Err(stopped(refused)),
    }
}
