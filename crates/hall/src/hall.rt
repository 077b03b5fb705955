//! The hall.
ghost use Rattle.std.specs.Prelude.{◌≡◌, ◌+◌, ◌≤◌, ◌^◌, true, length, OnOk};
ghost use Rattle.store_api.specs.Cause.{NoneFell};
ghost use Rattle.store_api.specs.Runs.{GoesOn};
ghost use Rattle.store_api.specs.Told.{Told};
ghost use Rattle.vault.specs.Files.{IsOurs};
ghost use Rattle.steps.specs.Events.{is_listed};
ghost use Rattle.steps.specs.Events.Deed.{Ask, Commit, DropTicket, Force};
ghost use Rattle.machine.specs.State.{Machine};
ghost use Rattle.hall.specs.Good.{Is};
ghost use Rattle.hall.specs.Steps.{Goes, Looks, Steps};

use crate::parts::Parts;
use entries::{Database, Entry};
use inventory::Inventory;
use inventory_answers::{Answer, Query};
use kinds::Refusal;
use run_past::laws::the_rest_stays;
use std::marker::Model;
use steps::Asked;
use store_api::Store;

/// What is left of a hall that was closed: its store, the database that it was opened with, the transactions of the run, oldest first, the stamps of the first of these, and the store's
/// moment when it was opened.
#[derive(Drop)]
pub struct Closed<S: Store> {
    pub store: S,
    pub base: Inventory,
    pub journal: Vec<Entry>,
    pub stamps: Vec<u64>,
    pub opened: u64,
}

/// What all actors' steps are made on: a store, and what the hall holds beside it. Every value is good: it is a state of the machine (specs/Held) that keeps what it should (specs/Good).
#[derive(Drop)]
pub struct Hall<S: Store> {
    pub(crate) store: S,
    pub(crate) parts: Parts,
}

impl<S: Store> Model for Hall<S> {
    ghost use Rattle.hall.specs.Held.{Hall as Whole};
    ghost use Rattle.hall.specs.Good.{Is};
    ghost use Rattle.machine.specs.State.{Machine};

    ghost Value = { Whole S };

    ghost view = { λ f. record { store = f.store; held = f.parts } };

    ghost invariant = { λ f. (m : Machine) × Is S.told S.moment_of S.faults_of (record { store = f.store; held = f.parts }) m };
}

impl<S: Store> Hall<S> {
    /// The transactions of this run, oldest first. The first ones have stamps; behind a fault of the log the others are in doubt.
    pub fn journal(&self) -> &[Entry]
        ensures { result.now ≡ self.now.held.vault.journal }
    {
        self.parts.vault.journal()
    }

    /// The database that the hall was opened with.
    pub fn base(&self) -> &Inventory
        ensures { result.now ≡ self.now.held.base }
    {
        &self.parts.base
    }

    /// Of each of the oldest transactions the moment at which it was known to be durable, oldest first.
    pub fn stamps(&self) -> &[u64]
        ensures { result.now ≡ self.now.held.stamps }
    {
        self.parts.stamps.as_slice()
    }

    /// The store's moment when the hall was opened.
    pub fn opened(&self) -> u64
        ensures { result ≡ self.now.held.opened }
    {
        self.parts.opened
    }

    /// The file, object and ticket numbers that are drawn next.
    pub fn next(&self) -> (u32, u64, u64)
        ensures { result ≡ (self.now.held.claims.next_file, self.now.held.next_object, self.now.held.next_ticket) }
    {
        (
            self.parts.space.next_file(),
            self.parts.next_object,
            self.parts.next_ticket,
        )
    }

    /// How often a call on the file has failed.
    pub fn faults(&self, file: u32) -> u64
        ensures { result ≡ S.faults_of self.now.store file }
    {
        self.store.faults(file)
    }

    /// The generation of the newest open image.
    pub fn generation(&self) -> u64
        ensures { result ≡ self.now.held.vault.generation }
    {
        self.parts.vault.generation()
    }

    /// The number of the last transaction.
    pub fn number(&self) -> u64
        ensures { result ≡ self.now.held.vault.database.number }
    {
        self.parts.vault.database().number()
    }

    /// There is a state of the machine in which the hall is.
    pub fn is_good(&self)
        ensures { (m : Machine) × Is S.told S.moment_of S.faults_of self.now m }
    {
        let _ = &self.store;
    }

    /// Gives the ticket's space back. Refused with `RunFull` where the store's moment is 2^62 - 2^24 or a later one, with `LogFault` where a fault of the log has halted the hall, and with
    /// `NotFound` where the actor has no such ticket. It takes no memory and makes no device call.
    pub fn drop_ticket(&mut self, actor: u32, ticket: u64) -> Result<(), Refusal>
        ensures step { Steps S.told S.moment_of S.faults_of actor (DropTicket ticket result) self.old self.new }
        ensures listed { is_listed (DropTicket ticket result) ≡ true }
        ensures goes { Goes S.told self.old self.new }
        ensures store { self.new.store ≡ self.old.store }
    {
        if let Some(refusal) = self.parts.ended(self.store.moment()) {
            return Err(refusal);
        }
        if !self.parts.has_seat(actor, ticket) {
            return Err(Refusal::NotFound);
        }
        self.parts.drop_seat(ticket);
        Ok(())
    }

    /// Answers a query: `NotFound` exactly where what it names isn't there. Else it is refused with `RunFull` and `LogFault`, as any step of a full run or of a halted hall, and with `Memory`.
    /// It makes no device call.
    pub fn ask(&mut self, actor: u32, query: &Query) -> Result<Answer, Refusal>
        ensures step { Steps S.told S.moment_of S.faults_of actor (Ask query.now result) self.old self.new }
        ensures listed { is_listed (Ask query.now result) ≡ true }
        ensures goes { Goes S.told self.old self.new }
        ensures looks { Looks S.told self.old self.new }
    {
        if let Some(refusal) = self.parts.ended(self.store.moment()) {
            return Err(refusal);
        }
        self.parts.answer(query)
    }

    /// Makes every transaction durable, and answers the number of the last one. Each that had no stamp gets the store's moment at the return. Refused only with `LogFault` and
    /// `RunFull`. It takes no memory and makes 3 device calls at most.
    pub fn force(&mut self, actor: u32) -> Result<u64, Refusal>
        ensures step { Steps S.told S.moment_of S.faults_of actor (Force result) self.old self.new }
        ensures listed { is_listed (Force result) ≡ true }
        ensures goes { Goes S.told self.old self.new }
        ensures all { OnOk result (length self.new.held.stamps ≡ length self.new.held.vault.journal) }
        ensures time { S.moment_of self.new.store ≤ S.moment_of self.old.store + 3 }
        ensures later { S.moment_of self.old.store ≤ S.moment_of self.new.store }
        ensures counts { NoneFell (S.faults_of self.old.store) (S.faults_of self.new.store) }
        ensures files { Told (S.told self.old.store) (S.told self.new.store) (GoesOn IsOurs) }
    {
        if let Some(refusal) = self.parts.ended(self.store.moment()) {
            return Err(refusal);
        }
        self.parts.force(&mut self.store)
    }

    /// Makes a transaction of what is asked, and answers its number; the tickets with these numbers are spent. It waits for a force: until then no stop leaves it. Refused with the foremost of
    /// all that refuses it, with `Memory`, and then nothing changes, and with `LogFault` where a call on the log failed: then it is in doubt, and its tickets are spent. It makes one device
    /// call at most.
    pub fn commit(&mut self, actor: u32, asked: &Asked, numbers: &[u64]) -> Result<u64, Refusal>
        ensures step { Steps S.told S.moment_of S.faults_of actor (Commit asked.now numbers.now result) self.old self.new }
        ensures listed { is_listed (Commit asked.now numbers.now result) ≡ true }
        ensures goes { Goes S.told self.old self.new }
        ensures time { S.moment_of self.new.store ≤ S.moment_of self.old.store + 1 }
        ensures later { S.moment_of self.old.store ≤ S.moment_of self.new.store }
        ensures counts { NoneFell (S.faults_of self.old.store) (S.faults_of self.new.store) }
        ensures files { Told (S.told self.old.store) (S.told self.new.store) (GoesOn IsOurs) }
    {
        if let Some(refusal) = self.parts.ended(self.store.moment()) {
            return Err(refusal);
        }
        match self
            .parts
            .asked_entry(self.parts.past(), actor, asked, numbers)
        {
            Ok(entry) => {
                self.parts.ascends();
                the_rest_stays();
                self.parts.join(&mut self.store, entry, numbers)
            }
            Err(refusal) => Err(refusal),
        }
    }

    /// What is left of a hall that is used no more: the live tickets and an image in progress go.
    pub fn close(self) -> Closed<S>
        ensures store { result.store ≡ self.store }
        ensures base { result.base ≡ self.held.base }
        ensures journal { result.journal.items ≡ self.held.vault.journal }
        ensures stamps { result.stamps.items ≡ self.held.stamps }
        ensures opened { result.opened ≡ self.held.opened }
    {
        let Hall { store, parts } = self;
        let Parts {
            alloc: _,
            base,
            opened,
            vault,
            stamps,
            seats: _,
            space: _,
            index: _,
            next_object: _,
            next_ticket: _,
            image: _,
            past: _,
        } = parts;
        Closed {
            store,
            base,
            journal: vault.into_journal(),
            stamps,
            opened,
        }
    }
}
