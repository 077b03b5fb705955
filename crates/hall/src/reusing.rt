//! Volumes that are written again: `reuse`.
ghost use Rattle.std.specs.Prelude.{◌≡◌, ◌+◌, ◌≤◌, ◌^◌, length, Err, None, true, IfErr, IfOk, OnErr, OnOk};
ghost use Rattle.store_api.specs.Cause.{NoneFell};
ghost use Rattle.store_api.specs.Told.{Told};
ghost use Rattle.inventory.specs.Meant.{meaning};
ghost use Rattle.inventory_rows.specs.pool_tables.Rows.{row_at};
ghost use Rattle.vault.specs.Vaults.{RefusesForce, all_forced};
ghost use Rattle.steps.specs.Events.{is_listed};
ghost use Rattle.steps.specs.Events.Deed.{Reuse};
ghost use Rattle.hall.specs.Reusing.{Clears, ClearsBehind, Empties, IsReuse};
ghost use Rattle.hall.specs.Seats.{all_stamped, with_vault};
ghost use Rattle.hall.specs.Steps.{Goes, Steps};

use crate::asked::Where;
use crate::hall::Hall;
use crate::parts::Parts;
use entries::{Change, Entry};
use inventory::Inventory;
use inventory_laws::store_changes::stores_stay_valid;
use kinds::{Refusal, sooner_of};
use run_past::laws::the_rest_stays;
use store_api::Store;
use vault::laws::pending;

impl Parts {
    /// The transaction by which a volume is reused, of which nothing is made yet. Refused with the foremost of all that refuses it: the rules, or a ticket that has space on the volume.
    fn reuse_entry(&self, actor: u32, file: u32) -> Result<Entry, Refusal>
        requires { self.now.vault.fault ≡ None }
        ensures reuse { IsReuse actor file self.now result }
        ensures listed { IfErr result (λ refusal. is_listed (Reuse file (Err refusal)) ≡ true) }
    {
        let _tables = self.vault.database().tables();
        stores_stay_valid();
        let entry = Entry {
            actor,
            change: Change::Reuse { file },
        };
        let illegal = self.vault.database().refused(self.past(), &entry.change);
        match sooner_of(illegal, self.held_there(Where::Volume(file))) {
            None => Ok(entry),
            Some(refusal) => {
                drop(entry);
                Err(refusal)
            }
        }
    }

    /// The file of a volume that is gone is cut to 0; whether that call failed isn't answered. That of a volume that is there stays as it is.
    fn clear<S: Store>(&self, store: &mut S, file: u32)
        requires { S.moment_of store.old + 1 ≤ 2 ^ 62 }
        ensures told { Told (S.told store.old) (S.told store.new) (Clears file (row_at file self.now.vault.database.stores.volumes)) }
        ensures time { S.moment_of store.new ≤ S.moment_of store.old + 1 }
        ensures later { S.moment_of store.old ≤ S.moment_of store.new }
        ensures counts { NoneFell (S.faults_of store.old) (S.faults_of store.new) }
    {
        if self.is_volume(file) {
            return;
        }
        let _ = store.cut(file, 0);
    }

    /// Makes every transaction durable, clears the file, and answers the number of the last transaction. Each that had no stamp gets the store's moment at the return. Refused only with
    /// `LogFault`, where a call on the log failed; then all that waited is in doubt, and no other file was changed. It takes no memory, and makes 4 device calls at most.
    fn force_and_clear<S: Store>(&mut self, store: &mut S, file: u32) -> Result<u64, Refusal>
        requires time { S.moment_of store.old + 4 ≤ 2 ^ 62 }
        requires few { length self.old.stamps ≤ length self.old.vault.journal }
        ensures told { Told (S.told store.old) (S.told store.new) (Empties file result self.old.vault self.new.vault) }
        ensures ok { OnOk result (self.new ≡ all_stamped (S.moment_of store.new) (with_vault (all_forced self.old.vault) self.old)) }
        ensures number { IfOk result (λ number. number ≡ meaning.number self.old.vault.database) }
        ensures same { OnErr result (self.new ≡ with_vault self.new.vault self.old) }
        ensures err { IfErr result (λ refusal. RefusesForce self.old.vault (S.faults_of store.old) (S.faults_of store.new) refusal self.new.vault (store.new ≡ store.old)) }
        ensures time { S.moment_of store.new ≤ S.moment_of store.old + 4 }
        ensures later { S.moment_of store.old ≤ S.moment_of store.new }
        ensures counts { NoneFell (S.faults_of store.old) (S.faults_of store.new) }
    {
        match self.vault.force(store) {
            Ok(number) => {
                self.clear(store, file);
                self.stamp(store.moment());
                Ok(number)
            }
            Err(refusal) => Err(refusal),
        }
    }
}

impl<S: Store> Hall<S> {
    /// Makes the transaction by which an emptied sequential volume is written again from its start, or, where it is a scratch volume, goes, and makes it durable in the same step with all that
    /// waited; answers its number. Then the file of a scratch volume is cut to 0; whether that call failed isn't answered. Each transaction that had no stamp gets the store's moment at the
    /// return. Refused with `RunFull` and `LogFault` as any step of a full run or of a halted hall; with `NotFound` where there is no such volume, it isn't sequential, or nothing was written on
    /// it; with `InUse` and the least object that lies on it; with `Busy` and the least ticket that has space on it; with `NotYet` and the first day on which it may be reused; with
    /// `InventoryFull` where the transaction's number would reach its bound; with `Memory`, and then nothing changes; and with `LogFault` where a call on the log failed: then it is in doubt, and
    /// the file isn't cut. It makes 5 device calls at most.
    pub fn reuse(&mut self, actor: u32, file: u32) -> Result<u64, Refusal>
        ensures step { Steps S.told S.moment_of S.faults_of actor (Reuse file result) self.old self.new }
        ensures listed { is_listed (Reuse file result) ≡ true }
        ensures goes { Goes S.told self.old self.new }
        ensures time { S.moment_of self.new.store ≤ S.moment_of self.old.store + 5 }
        ensures later { S.moment_of self.old.store ≤ S.moment_of self.new.store }
        ensures counts { NoneFell (S.faults_of self.old.store) (S.faults_of self.new.store) }
        ensures files { Told (S.told self.old.store) (S.told self.new.store) (ClearsBehind file result self.new.held) }
    {
        if let Some(refusal) = self.parts.ended(self.store.moment()) {
            return Err(refusal);
        }
        match self.parts.reuse_entry(actor, file) {
            Ok(entry) => {
                self.parts.ascends();
                the_rest_stays();
                pending::<Inventory>();
                match self.parts.join(&mut self.store, entry, &[]) {
                    Ok(_) => self.parts.force_and_clear(&mut self.store, file),
                    Err(refusal) => Err(refusal),
                }
            }
            Err(refusal) => Err(refusal),
        }
    }
}
