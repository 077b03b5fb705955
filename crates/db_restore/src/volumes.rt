// The volumes' files are made durable, and the copies on them looked for.
ghost use Rattle.std.specs.Prelude.{◌≡◌, ◌≤◌, true, nat_le, IfErr, IfOk, length};
ghost use Rattle.std.specs.List.{list_all};
ghost use Rattle.std.specs.Map.{keys_of};
ghost use Rattle.kinds.specs.declared.refusal.OpenRefused.TheVariants.{Memory};
ghost use Rattle.store_api.specs.Told.{Told};
ghost use Rattle.log_file.specs.Windows.{Onward};
ghost use Rattle.copy_checks.specs.Looks.{MayStop};
ghost use Rattle.db_restore.specs.Settling.{Judges, Settles, SettlesOne};

use crate::looking::look_for_all;
use crate::missing::is_among;
use db_losses::Losses;
use inventory::Inventory;
use inventory_rows::volume_rows::Volume;
use kinds::OpenRefused;
use log_file::settle;
use std::alloc::Global;
use std::collections::BTreeMap;
use store_api::Store;

/// How many bytes of a copy are read at once.
const PIECE: usize = 65_536;

/// Makes a volume's file durable, unless it is passed over.
#[tactic(auto, using(crate::proofs::Settling::one_settled, crate::proofs::Settling::one_failed, crate::proofs::Settling::one_skipped))]
fn settle_volume<S: Store>(store: &mut S, skipped: &[u32], file: u32) -> Result<(), OpenRefused>
    requires possible { 4 ≤ file }
    ensures told { Told (S.told store.old) (S.told store.new) (SettlesOne skipped.now file result) }
    ensures refused { IfErr result (MayStop (S.faults_of store.old) (S.faults_of store.new) (S.moment_of store.new)) }
    ensures onward { Onward (S.moment_of store.old) (S.moment_of store.new) (S.faults_of store.old) (S.faults_of store.new) }
{
    if is_among(skipped, file) {
        return Ok(());
    }
    match settle(store, file) {
        Ok(()) => Ok(()),
        Err(refused) => Err(refused),
    }
}

/// Makes the files of volumes durable, but those that are passed over.
fn settle_volumes<S: Store>(
    store: &mut S,
    skipped: &[u32],
    volumes: &BTreeMap<u32, Volume>,
) -> Result<(), OpenRefused>
    requires possible { list_all (λ file. nat_le 4 file) (keys_of volumes.now.entries) ≡ true }
    ensures told { Told (S.told store.old) (S.told store.new) (Settles skipped.now volumes.now.entries result) }
    ensures refused { IfErr result (MayStop (S.faults_of store.old) (S.faults_of store.new) (S.moment_of store.new)) }
    ensures onward { Onward (S.moment_of store.old) (S.moment_of store.new) (S.faults_of store.old) (S.faults_of store.new) }
{
    'volumes: for (file, _) in volumes.iter() {
        match settle_volume(store, skipped, *file) {
            Ok(()) => {}
            Err(refused) => return Err(refused),
        }
    }
    Ok(())
}

/// Room for a piece of a copy.
fn piece_room(alloc: Global) -> Result<Vec<u8>, OpenRefused>
    ensures room { IfOk result (λ buffer. 1 ≤ length buffer.items) }
    ensures memory { IfErr result (λ refusal. refusal ≡ Memory) }
{
    match vec![in alloc; 0u8; PIECE] {
        Ok(buffer) => Ok(buffer),
        Err(_) => Err(OpenRefused::Memory),
    }
}

/// Which copies of a database are lost: those with a segment in a file that is passed over, and those that don't stand on their volumes. These are made durable before they are read.
#[tactic(auto, using(crate::proofs::Settling::judges_none, crate::proofs::Settling::judges_unsettled, crate::proofs::Settling::judges_unseen))]
pub(crate) fn judge<S: Store>(
    alloc: Global,
    store: &mut S,
    skipped: &[u32],
    backup: &Inventory,
) -> Result<Losses, OpenRefused>
    ensures told { Told (S.told store.old) (S.told store.new) (Judges backup.now skipped.now result) }
    ensures refused { IfErr result (MayStop (S.faults_of store.old) (S.faults_of store.new) (S.moment_of store.new)) }
    ensures onward { Onward (S.moment_of store.old) (S.moment_of store.new) (S.faults_of store.old) (S.faults_of store.new) }
{
    let mut buffer = match piece_room(alloc) {
        Ok(buffer) => buffer,
        Err(refused) => return Err(refused),
    };
    let tables = backup.tables();
    match settle_volumes(store, skipped, tables.pools.volumes()) {
        Ok(()) => {}
        Err(refused) => return Err(refused),
    }
    let mut losses = Losses::new(alloc);
    match look_for_all(
        alloc,
        store,
        skipped,
        &mut losses,
        &tables.objects,
        &mut buffer,
    ) {
        Ok(()) => Ok(losses),
        Err(refused) => Err(refused),
    }
}
