//! Transactions that are made of what the hall holds, and what they tell.
ghost use Rattle.std.specs.Prelude.{◌≡◌, ◌+◌, ◌≤◌, ◌^◌, length, None, true, IfErr, IfOk, OnErr, OnOk};
ghost use Rattle.std.specs.Vec.{vec_capacity};
ghost use Rattle.store_api.specs.Cause.{NoneFell};
ghost use Rattle.store_api.specs.Told.{Told};
ghost use Rattle.kinds.specs.declared.refusal.Refusal.TheVariants.{Memory};
ghost use Rattle.entries.specs.EntryForm.{entry as entry_form};
ghost use Rattle.entries.specs.Meaning.{IsLegal};
ghost use Rattle.inventory.specs.Meant.{meaning};
ghost use Rattle.inventory_rows.specs.State.{Inv};
ghost use Rattle.inventory_rules.specs.Run.{journal_of};
ghost use Rattle.inventory_rules.specs.Valid.{is_valid};
ghost use Rattle.run_past.specs.Before.{HasRoom, IsBefore};
ghost use Rattle.run_past.specs.Told.{journal_from};
ghost use Rattle.vault.specs.Vaults.{RefusesCommit, Waits, with_waiting};
ghost use Rattle.hall.specs.Noted.{Keeps};
ghost use Rattle.hall.specs.Seats.{with_vault};

use crate::parts::Parts;
use entries::{Change, Entry};
use inventory::Inventory;
use kinds::Refusal;
use run_past::{Prepared, RunPast};
use std::alloc::Global;
use store_api::Store;
use vault::Vault;

/// Takes the memory for the stamp of one transaction more, and for what it may tell. Refused only for want of it. What is told stays the same, whatever comes of it.
fn ready(
    past: &mut RunPast,
    stamps: &mut Vec<u64>,
    vault: &Vault<Inventory>,
    change: &Change,
) -> Result<Prepared, Refusal>
    requires { length stamps.old.items ≤ length vault.now.journal }
    ensures before { IfOk result (λ p. IsBefore change.now vault.now.database p) }
    ensures valid { OnOk result (is_valid vault.now.database ≡ true) }
    ensures room { IfOk result (λ p. HasRoom p past.new) }
    ensures same { journal_from past.new ≡ journal_from past.old }
    ensures items { stamps.new.items ≡ stamps.old.items }
    ensures stamps { OnOk result (length vault.now.journal + 1 ≤ vec_capacity stamps.new) }
    ensures capacity { vec_capacity stamps.old ≤ vec_capacity stamps.new }
    ensures memory { IfErr result (λ e. e ≡ Memory) }
{
    let waiting = vault.journal().len() - stamps.len();
    stamps.reserve(waiting + 1)?;
    past.prepare(vault.database().tables(), change)
}

/// Makes a transaction that the rules allow, and notes what it tells. It makes one device call at most.
pub(crate) fn join<S: Store>(
    alloc: Global,
    past: &mut RunPast,
    stamps: &mut Vec<u64>,
    vault: &mut Vault<Inventory>,
    store: &mut S,
    entry: Entry,
) -> Result<u64, Refusal>
    requires time { S.moment_of store.old + 1 ≤ 2 ^ 62 }
    requires few { length stamps.old.items ≤ length vault.old.journal }
    requires legal { IsLegal meaning vault.old.database entry }
    ensures told { Told (S.told store.old) (S.told store.new) (Waits meaning vault.old entry result vault.new) }
    ensures ok { OnOk result (vault.new ≡ with_waiting meaning vault.old entry) }
    ensures short { OnOk result (length (entry_form.spell entry) ≤ 2 ^ 24) }
    ensures sure { OnOk result (vault.old.fault ≡ None) }
    ensures number { IfOk result (λ number. number ≡ meaning.number vault.old.database + 1) }
    ensures err { IfErr result (λ refusal. RefusesCommit meaning vault.old entry (S.faults_of store.old) (S.faults_of store.new) refusal vault.new (store.new ≡ store.old)) }
    ensures items { stamps.new.items ≡ stamps.old.items }
    ensures keeps { (base : Inv) → Keeps base vault.old past.old (vec_capacity stamps.old) → Keeps base vault.new past.new (vec_capacity stamps.new) }
    ensures time { S.moment_of store.new ≤ S.moment_of store.old + 1 }
    ensures later { S.moment_of store.old ≤ S.moment_of store.new }
    ensures counts { NoneFell (S.faults_of store.old) (S.faults_of store.new) }
{
    let prepared = match ready(past, stamps, vault, &entry.change) {
        Ok(prepared) => prepared,
        Err(refusal) => {
            drop(entry);
            return Err(refusal);
        }
    };
    match vault.commit(alloc, store, entry) {
        Ok(number) => {
            past.note(prepared, vault.database().tables());
            Ok(number)
        }
        Err(refusal) => {
            drop(prepared);
            Err(refusal)
        }
    }
}

impl Parts {
    /// What the run's transactions tell: what its journal does, while no fault has halted the hall.
    pub(crate) fn past(&self) -> &RunPast
        ensures { self.now.vault.fault ≡ None → journal_from result.now ≡ journal_of self.now.base self.now.vault.journal }
    {
        &self.past
    }

    /// Makes a transaction that the rules allow, and notes what it tells; it answers its number. It waits for a force: until then no stop leaves it. Refused with `RecordFull` where it has too
    /// many bytes for a record; with `LogFault` where a call on the log failed in it, after which it is in doubt, or where an earlier call had failed; and for want of memory. It makes one
    /// device call at most.
    pub(crate) fn commit<S: Store>(&mut self, store: &mut S, entry: Entry) -> Result<u64, Refusal>
        requires time { S.moment_of store.old + 1 ≤ 2 ^ 62 }
        requires few { length self.old.stamps ≤ length self.old.vault.journal }
        requires legal { IsLegal meaning self.old.vault.database entry }
        ensures told { Told (S.told store.old) (S.told store.new) (Waits meaning self.old.vault entry result self.new.vault) }
        ensures ok { OnOk result (self.new ≡ with_vault (with_waiting meaning self.old.vault entry) self.old) }
        ensures short { OnOk result (length (entry_form.spell entry) ≤ 2 ^ 24) }
        ensures sure { OnOk result (self.old.vault.fault ≡ None) }
        ensures number { IfOk result (λ number. number ≡ meaning.number self.old.vault.database + 1) }
        ensures same { OnErr result (self.new ≡ with_vault self.new.vault self.old) }
        ensures err { IfErr result (λ refusal. RefusesCommit meaning self.old.vault entry (S.faults_of store.old) (S.faults_of store.new) refusal self.new.vault (store.new ≡ store.old)) }
        ensures time { S.moment_of store.new ≤ S.moment_of store.old + 1 }
        ensures later { S.moment_of store.old ≤ S.moment_of store.new }
        ensures counts { NoneFell (S.faults_of store.old) (S.faults_of store.new) }
    {
        self.index.lose();
        join(
            self.alloc,
            &mut self.past,
            &mut self.stamps,
            &mut self.vault,
            store,
            entry,
        )
    }
}
