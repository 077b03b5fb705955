//! What the hall holds beside its store.
ghost use Rattle.std.specs.Prelude.{◌≡◌, ◌+◌, ◌≤◌, ◌^◌, is_some, length, IfErr, IfOk, OnErr, OnOk};
ghost use Rattle.store_api.specs.Cause.{NoneFell};
ghost use Rattle.store_api.specs.Told.{Told};
ghost use Rattle.kinds.specs.Answers.{Answers};
ghost use Rattle.kinds.specs.Refusals.{foremost};
ghost use Rattle.inventory.specs.Meant.{meaning};
ghost use Rattle.vault.specs.Vaults.{Forces, RefusesForce, all_forced};
ghost use Rattle.machine.specs.Machine.{halted};
ghost use Rattle.hall.specs.Seats.{all_stamped, ended_at, own_seat, told, with_vault, without_seat};

use crate::seat::Seat;
use crate::seated::Seated;
use inventory::Inventory;
use inventory_answers::{Answer, Query, Rows};
use kept_index::KeptIndex;
use kinds::Refusal;
use run_past::RunPast;
use space::Space;
use std::alloc::Global;
use std::collections::BTreeMap;
use std::marker::Model;
use store_api::Store;
use vault::Vault;

/// From this moment on a run is full: no step begins any more.
pub(crate) const LAST_MOMENT: u64 = (1 << 62) - (1 << 24);

/// What a hall holds: the database that it was opened with, and the store's moment then; the vault; the stamps of this run's transactions, oldest first; the live tickets by number;
/// the space that is held beside the copies, and the index of the free space beside both; the object and ticket numbers that are drawn next; and the image in progress; and what the
/// run's transactions tell.
#[derive(Drop)]
pub(crate) struct Parts {
    pub(crate) alloc: Global,
    pub(crate) base: Inventory,
    pub(crate) opened: u64,
    pub(crate) vault: Vault<Inventory>,
    pub(crate) stamps: Vec<u64>,
    pub(crate) seats: BTreeMap<u64, Seat>,
    pub(crate) space: Space,
    pub(crate) index: KeptIndex,
    pub(crate) next_object: u64,
    pub(crate) next_ticket: u64,
    pub(crate) image: Option<Seated>,
    pub(crate) past: RunPast,
}

impl Model for Parts {
    ghost use Rattle.std.specs.Vec.{vec_capacity};
    ghost use Rattle.hall.specs.Held.{Held, image_in, job_in};
    ghost use Rattle.hall.specs.Noted.{IsNoted};
    ghost use Rattle.kept_index.specs.Kept.{IsKeptOf};

    ghost Value = { Held };

    ghost view = { λ p. record { base = p.base; opened = p.opened; vault = p.vault; stamps = p.stamps.items; seats = p.seats.entries; claims = p.space; next_object = p.next_object; next_ticket = p.next_ticket; image = image_in p.image; job = job_in p.image } };

    // There is room for the stamp of each transaction, so that forcing takes no memory; what is told of the run is its journal's; and the index is that of the database and of the space
    // that is held beside its copies.
    ghost invariant = { λ p. IsNoted p.base p.vault.database p.vault.journal p.vault.fault p.past (vec_capacity p.stamps) × IsKeptOf p.index p.vault.database.stores p.space };
}

impl Parts {
    /// A fault has halted the hall.
    fn halted(&self) -> Option<Refusal>
        ensures { result ≡ foremost (halted self.now.vault.fault) }
    {
        match self.vault.fault() {
            Some((file, count)) => Some(Refusal::LogFault { file, count }),
            None => None,
        }
    }

    /// Why no step is made any more, where that is so: the run is full, or a fault has halted the hall.
    pub(crate) fn ended(&self, moment: u64) -> Option<Refusal>
        ensures { result ≡ foremost (ended_at moment self.now) }
    {
        if moment >= LAST_MOMENT {
            return Some(Refusal::RunFull);
        }
        self.halted()
    }

    /// The actor has a ticket with this number.
    pub(crate) fn has_seat(&self, actor: u32, number: u64) -> bool
        ensures { result ≡ is_some (own_seat actor number self.now) }
    {
        match self.seats.get(&number) {
            Some(seat) => seat.actor == actor,
            None => false,
        }
    }

    /// The ticket with this number goes, and its space is given back. It takes no memory.
    pub(crate) fn drop_seat(&mut self, number: u64)
        ensures { self.new ≡ without_seat number self.old }
    {
        let pools = &self.vault.database().tables().pools;
        self.index.release(pools, &self.space, number);
        self.space.release(number);
        let _ = self.seats.remove(&number);
    }

    /// Each transaction that has no stamp gets this one, and nothing is held because of them any more. It takes no memory.
    pub(crate) fn stamp(&mut self, moment: u64)
        requires { length self.old.stamps ≤ length self.old.vault.journal }
        ensures { self.new ≡ all_stamped moment self.old }
    {
        let count = self.vault.journal().len();
        match self.stamps.resize(count, moment) {
            Ok(()) => {
                self.index.force(&self.space);
                self.space.force();
            }
            Err(_) => unreachable!(),
        }
    }

    /// Makes every transaction durable, and answers the number of the last one. Each that had no stamp gets the store's moment at the return. Refused only with `LogFault`, where a call on
    /// the log failed; then all that waited is in doubt. It takes no memory.
    pub(crate) fn force<S: Store>(&mut self, store: &mut S) -> Result<u64, Refusal>
        requires time { S.moment_of store.old + 3 ≤ 2 ^ 62 }
        requires few { length self.old.stamps ≤ length self.old.vault.journal }
        ensures told { Told (S.told store.old) (S.told store.new) (Forces meaning self.old.vault result self.new.vault) }
        ensures ok { OnOk result (self.new ≡ all_stamped (S.moment_of store.new) (with_vault (all_forced self.old.vault) self.old)) }
        ensures number { IfOk result (λ number. number ≡ meaning.number self.old.vault.database) }
        ensures same { OnErr result (self.new ≡ with_vault self.new.vault self.old) }
        ensures err { IfErr result (λ refusal. RefusesForce self.old.vault (S.faults_of store.old) (S.faults_of store.new) refusal self.new.vault (store.new ≡ store.old)) }
        ensures time { S.moment_of store.new ≤ S.moment_of store.old + 3 }
        ensures later { S.moment_of store.old ≤ S.moment_of store.new }
        ensures counts { NoneFell (S.faults_of store.old) (S.faults_of store.new) }
    {
        match self.vault.force(store) {
            Ok(number) => {
                self.stamp(store.moment());
                Ok(number)
            }
            Err(refusal) => Err(refusal),
        }
    }

    /// The answer to a query: `NotFound` exactly where what it names isn't there, or want of memory.
    pub(crate) fn answer(&self, query: &Query) -> Result<Answer, Refusal>
        ensures { Answers result (told query.now self.now) }
    {
        let database = self.vault.database();
        match query {
            Query::LogBytes => Ok(Answer {
                n: database.tables().number,
                today: database.tables().today,
                rows: Rows::LogBytes(self.vault.log_length()),
            }),
            _ => database.answer(self.alloc, query),
        }
    }
}
