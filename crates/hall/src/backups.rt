//! Database backups: images of the database in files of their own, written piece by piece.
ghost use Rattle.std.specs.Prelude.{◌≡◌, ◌⊎◌, ℕ, ◌+◌, ◌-◌, ◌<◌, ◌≤◌, ◌^◌, ◌++◌, ◌∷◌, [], drop, Option, None, Some, Ok, Err, is_some, true, false, length, All, IfErr, IfOk, IfSome, IsSome, OnErr, OnOk};
ghost use Rattle.std.specs.List.{AllByRecursion};
ghost use Rattle.fields.specs.Editions.{second_form};
ghost use Rattle.kinds.specs.Refusals.{foremost};
ghost use Rattle.kinds.specs.declared.refusal.Refusal.TheVariants.{InventoryFull, Memory};
ghost use Rattle.store_api.specs.Cause.{NoneFell};
ghost use Rattle.store_api.specs.Runs.{GoesOn};
ghost use Rattle.store_api.specs.Told.{Told};
ghost use Rattle.entries.specs.EntryForm.{entry as entry_form};
ghost use Rattle.entries.specs.Meaning.{IsLegal, Spells};
ghost use Rattle.backup_payloads.specs.Holding.{IsShort, holding};
ghost use Rattle.backup_payloads.specs.Increments.{IsIncrement};
ghost use Rattle.inventory.specs.Meant.{meaning};
ghost use Rattle.inventory_rules.specs.Backups.{backup_at, is_done, is_unfinished};
ghost use Rattle.inventory_rules.specs.Held.{IsTied};
ghost use Rattle.inventory_rules.specs.Run.{journal_of};
ghost use Rattle.inventory_rules.specs.Transactions.{refused};
ghost use Rattle.inventory_rules.specs.Valid.{is_valid};
ghost use Rattle.steps.specs.Events.{is_listed};
ghost use Rattle.steps.specs.Events.Deed.{Image as TakeImage};
ghost use Rattle.steps.specs.declared.image.ImageKind.TheVariants.{Backup, Next, Since};
ghost use Rattle.machine.specs.Causes.{image_refused};
ghost use Rattle.vault.specs.Files.{IsOurs};
ghost use Rattle.vault.specs.Vaults.{Waits};
ghost use Rattle.hall.specs.Backing.{Ends, IsFileOf, IsGoing, IsHolding, Seats, WriteRose, Writes, WritesTo, backup_refused, begin_entry, end_by, end_refused, joined_number, kind_of, unfollowed, with_job};
ghost use Rattle.hall.specs.Imaging.{own_begun};
ghost use Rattle.hall.specs.Seats.{ended_at};
ghost use Rattle.hall.specs.Sights.{sight_of};
ghost use Rattle.hall.specs.Steps.{Goes, Steps};

use crate::hall::Hall;
use crate::parts::Parts;
use crate::seated::Seated;
use backup_payloads::encode_increment_and;
use db_image::{Image, Mark, Progress};
use entries::{Change, Database, Entry};
use kinds::{Holder, Refusal, sooner_of};
use steps::ImageReply;
use store_api::{Failed, Store, sync_within};

/// So many transactions behind a backup are too many for one that follows it, which has that of its own begin beside them.
const MOST_BEHIND: u64 = (1 << 32) - 1;

impl Parts {
    /// The image in progress is a backup.
    pub(crate) fn is_in_backup(&self) -> bool
        ensures { result ≡ is_some self.now.job }
    {
        match &self.image {
            Some(image) => image.backup.is_some(),
            None => false,
        }
    }

    /// The file of the image in progress, and the number of the transaction whose database it is of.
    fn begun_image(&self) -> (u32, u64)
        requires { IsSome self.now.image }
        ensures { IfSome self.now.image (λ i. result ≡ (i.file, i.seq)) }
    {
        match &self.image {
            Some(image) => (image.file, image.seq),
            None => unreachable!(),
        }
    }

    /// The file number that is drawn next.
    fn next_file(&self) -> u32
        ensures { result ≡ self.now.claims.next_file }
    {
        self.space.next_file()
    }

    /// No image is in progress any more.
    fn unseat(&mut self)
        ensures { self.new ≡ with_job None None self.old }
    {
        self.image = None;
    }

    /// What a backup of the whole database holds: the spelling of the database behind its transaction. It is made of a copy of the database. Refused only for want of memory.
    fn whole_payload(&self, entry: &Entry) -> Result<Vec<u8>, Refusal>
        requires { IsLegal meaning self.now.vault.database entry.now }
        ensures spelled { IfOk result (λ bytes. Spells meaning second_form bytes.items (meaning.after self.now.vault.database entry.now)) }
        ensures memory { IfErr result (λ refusal. refusal ≡ Memory) }
    {
        let mut behind = match self.vault.database().copy(self.alloc) {
            Ok(behind) => behind,
            Err(refusal) => return Err(refusal),
        };
        let result = match behind.apply(self.alloc, entry) {
            Ok(()) => behind.encode(self.alloc),
            Err(refusal) => Err(refusal),
        };
        drop(behind);
        result
    }

    /// Why a transaction with this change isn't legal, where it isn't.
    fn illegal(&self, change: &Change) -> Option<Refusal>
        ensures { self.now.vault.fault ≡ None → result ≡ refused (journal_of self.now.base self.now.vault.journal) change.now self.now.vault.database }
    {
        self.vault.database().refused(self.past(), change)
    }

    /// Why a backup doesn't follow the one in this file, where it can't: that isn't a whole one of this run, or too many transactions are behind it.
    fn unfollowed(&self, after: Option<u32>) -> Option<Refusal>
        ensures { result ≡ foremost (unfollowed after self.now) }
    {
        let file = match after {
            Some(file) => file,
            None => return None,
        };
        let backup = match self.vault.database().tables().backups.get(&file) {
            Some(backup) => backup,
            None => return Some(Refusal::NotFound),
        };
        if !backup.is_done {
            return Some(Refusal::NotFound);
        }
        if backup.number < self.base.number() {
            return Some(Refusal::NotFound);
        }
        let behind = self.vault.database().number().saturating_sub(backup.number);
        if behind >= MOST_BEHIND {
            return Some(Refusal::InventoryFull);
        }
        None
    }

    /// Why no such backup begins, where that is so: the run is full, or a fault has halted the hall; it can't follow the one that it names; its transaction isn't legal; or another image is
    /// in progress.
    #[tactic(auto, using(crate::proofs::BackupRefused::first_ended, crate::proofs::BackupRefused::said_none, crate::proofs::BackupRefused::said_busy))]
    fn backup_refused(&self, actor: u32, after: Option<u32>, moment: u64) -> Option<Refusal>
        ensures { result ≡ foremost (backup_refused actor moment after self.now) }
    {
        let _ = actor;
        if let Some(refusal) = self.ended(moment) {
            return Some(refusal);
        }
        let follows = self.unfollowed(after);
        let change = Change::DbBegin {
            file: self.next_file(),
            after,
        };
        let cause = sooner_of(follows, self.illegal(&change));
        drop(change);
        match &self.image {
            Some(image) => sooner_of(cause, Some(Refusal::Busy(Holder::Image(image.actor)))),
            None => cause,
        }
    }

    /// The number of the backup in this file.
    fn followed_number(&self, file: u32) -> u64
        requires { is_done (backup_at file self.now.vault.database) ≡ true }
        ensures { IfSome (backup_at file self.now.vault.database) (λ row. result ≡ row.number) }
    {
        match self.vault.database().tables().backups.get(&file) {
            Some(backup) => backup.number,
            None => unreachable!(),
        }
    }

    /// The transactions of this run behind the one with this number.
    fn behind(&self, number: u64) -> &[Entry]
        requires from { self.now.base.number ≤ number }
        requires to { number ≤ self.now.base.number + length self.now.vault.journal }
        ensures { result.now ≡ drop (number - self.now.base.number) self.now.vault.journal }
    {
        let from = (number - self.base.number()) as usize;
        &self.vault.journal()[from..]
    }

    /// The bytes of the increment that follows the backup in a file, with this number: the transactions of this run behind it, and this one. Refused only for want of memory.
    fn since_payload(&self, after: u32, number: u64, entry: &Entry) -> Result<Vec<u8>, Refusal>
        requires from { self.now.base.number ≤ number }
        requires to { number ≤ self.now.base.number + length self.now.vault.journal }
        requires few { self.now.base.number + length self.now.vault.journal + 1 < number + 2 ^ 32 }
        requires numbered { self.now.base.number + length self.now.vault.journal + 1 < 2 ^ 62 }
        requires short { AllByRecursion (λ e. length (entry_form.spell e) ≤ 2 ^ 24) self.now.vault.journal }
        requires last { length (entry_form.spell entry.now) ≤ 2 ^ 24 }
        ensures spelled { IfOk result (λ bytes. IsIncrement bytes.items (holding after number (drop (number - self.now.base.number) self.now.vault.journal ++ entry.now ∷ []))) }
        ensures fits { IfOk result (λ _. All IsShort (drop (number - self.now.base.number) self.now.vault.journal ++ entry.now ∷ [])) }
        ensures memory { IfErr result (λ refusal. refusal ≡ Memory) }
    {
        encode_increment_and(self.alloc, after, number, self.behind(number), entry)
    }

    /// What a backup holds that follows the one in this file: the transactions behind that one, and its own. Refused only for want of memory.
    fn payload_behind(&self, after: u32, entry: &Entry) -> Result<Vec<u8>, Refusal>
        requires begins { entry.now ≡ begin_entry entry.now.actor (Some after) self.now }
        requires free { image_refused (Since after) (sight_of entry.now.actor self.now) ≡ [] }
        requires reached { self.now.vault.database.number ≡ self.now.base.number + length self.now.vault.journal }
        requires short { AllByRecursion (λ e. length (entry_form.spell e) ≤ 2 ^ 24) self.now.vault.journal }
        ensures holds { IfOk result (λ bytes. IsHolding entry.now.actor (Some after) self.now bytes.items) }
        ensures memory { IfErr result (λ refusal. refusal ≡ Memory) }
    {
        let _tables = self.vault.database().tables();
        let number = self.followed_number(after);
        self.since_payload(after, number, entry)
    }

    /// What a backup holds whose transaction this is. Refused only for want of memory.
    fn payload_of(&self, after: Option<u32>, entry: &Entry) -> Result<Vec<u8>, Refusal>
        requires begins { entry.now ≡ begin_entry entry.now.actor after self.now }
        requires free { image_refused (kind_of after) (sight_of entry.now.actor self.now) ≡ [] }
        requires reached { self.now.vault.database.number ≡ self.now.base.number + length self.now.vault.journal }
        requires short { AllByRecursion (λ e. length (entry_form.spell e) ≤ 2 ^ 24) self.now.vault.journal }
        ensures holds { IfOk result (λ bytes. IsHolding entry.now.actor after self.now bytes.items) }
        ensures some { IfOk result (λ bytes. 0 < length bytes.items) }
        ensures memory { IfErr result (λ refusal. refusal ≡ Memory) }
    {
        match after {
            Some(file) => self.payload_behind(file, entry),
            None => self.whole_payload(entry),
        }
    }

    /// The bytes of a backup that the actor begins. Refused with the foremost of what refuses it, or for want of memory.
    fn backup_payload(
        &self,
        actor: u32,
        after: Option<u32>,
        moment: u64,
    ) -> Result<Vec<u8>, Refusal>
        requires reached { self.now.vault.database.number ≡ self.now.base.number + length self.now.vault.journal }
        requires short { AllByRecursion (λ e. length (entry_form.spell e) ≤ 2 ^ 24) self.now.vault.journal }
        ensures none { OnOk result (foremost (backup_refused actor moment after self.now) ≡ None) }
        ensures holds { IfOk result (λ bytes. IsHolding actor after self.now bytes.items) }
        ensures some { IfOk result (λ bytes. 0 < length bytes.items) }
        ensures err { IfErr result (λ e. (foremost (backup_refused actor moment after self.now) ≡ Some e) ⊎ (e ≡ Memory)) }
        ensures valid { is_valid self.now.vault.database ≡ true }
        ensures tied { IsTied self.now.vault.database }
    {
        let _tables = self.vault.database().tables();
        if let Some(refusal) = self.backup_refused(actor, after, moment) {
            return Err(refusal);
        }
        let entry = Entry {
            actor,
            change: Change::DbBegin {
                file: self.next_file(),
                after,
            },
        };
        match self.payload_of(after, &entry) {
            Ok(bytes) => {
                drop(entry);
                Ok(bytes)
            }
            Err(refusal) => {
                drop(entry);
                Err(refusal)
            }
        }
    }

    /// A backup that was begun is in progress, with its bytes to write, where its file could be made durable; else `WriteFault` is answered.
    fn seat_backup(
        &mut self,
        actor: u32,
        file: u32,
        seq: u64,
        payload: Vec<u8>,
        synced: bool,
    ) -> Result<ImageReply, Refusal>
        ensures { Seats actor file seq payload.items synced self.old self.new result }
    {
        if !synced {
            return Err(Refusal::WriteFault(file));
        }
        self.image = Some(Seated {
            actor,
            file,
            seq,
            backup: Some(Image::begin(payload, Mark::Backup, seq, file)),
        });
        Ok(ImageReply::Begun { file, seq })
    }

    /// Takes a step of writing the backup in progress. `Failed` is answered where a call on its file failed; then no image is in progress any more. It makes 6 device calls at most.
    fn write_backup<S: Store>(&mut self, store: &mut S) -> Result<Progress, Failed>
        requires time { S.moment_of store.old + 6 ≤ 2 ^ 62 }
        requires going { IsGoing self.old.job }
        ensures wrote { Writes self.old.job self.old self.new result }
        ensures told { Told (S.told store.old) (S.told store.new) (WritesTo self.old.job result) }
        ensures rose { OnErr result (WriteRose self.old.job (S.faults_of store.old) (S.faults_of store.new)) }
        ensures time { S.moment_of store.new ≤ S.moment_of store.old + 6 }
        ensures later { S.moment_of store.old ≤ S.moment_of store.new }
        ensures counts { NoneFell (S.faults_of store.old) (S.faults_of store.new) }
    {
        let result = match &mut self.image {
            Some(
                Seated {
                    backup: Some(image),
                    ..
                },
            ) => image.next(store),
            _ => unreachable!(),
        };
        match result {
            Ok(progress) => Ok(progress),
            Err(failed) => {
                self.image = None;
                Err(failed)
            }
        }
    }

    /// Why the transaction by which the backup in this file ends isn't legal, where it isn't: for one that is listed and isn't whole only since a number would reach its bound, or the items
    /// would be too many.
    fn end_refused(&self, file: u32) -> Option<Refusal>
        requires { self.now.vault.fault ≡ None }
        ensures said { result ≡ end_refused file self.now }
        ensures full { is_unfinished (backup_at file self.now.vault.database) ≡ true → IfSome result (λ e. e ≡ InventoryFull) }
    {
        let _tables = self.vault.database().tables();
        let change = Change::DbEnd { file };
        let cause = self.illegal(&change);
        drop(change);
        cause
    }

    /// Ends the backup in progress, whose gate is open: its transaction joins, and waits for a force. It makes one device call at most.
    fn end_backup<S: Store>(
        &mut self,
        store: &mut S,
        actor: u32,
        file: u32,
        seq: u64,
    ) -> Result<ImageReply, Refusal>
        requires time { S.moment_of store.old + 1 ≤ 2 ^ 62 }
        requires few { length self.old.stamps ≤ length self.old.vault.journal }
        requires sure { self.old.vault.fault ≡ None }
        requires listed { is_unfinished (backup_at file self.old.vault.database) ≡ true }
        ensures ends { Ends actor file seq self.old self.new (S.faults_of store.old) (S.faults_of store.new) (store.new ≡ store.old) result }
        ensures told { end_refused file self.old ≡ None → (result ≡ Err Memory → ⊥) → Told (S.told store.old) (S.told store.new) (Waits meaning self.old.vault (end_by actor file) (joined_number self.old result) self.new.vault) }
        ensures files { Told (S.told store.old) (S.told store.new) (GoesOn IsOurs) }
        ensures time { S.moment_of store.new ≤ S.moment_of store.old + 1 }
        ensures later { S.moment_of store.old ≤ S.moment_of store.new }
        ensures counts { NoneFell (S.faults_of store.old) (S.faults_of store.new) }
    {
        if let Some(refusal) = self.end_refused(file) {
            self.unseat();
            return Err(refusal);
        }
        let entry = Entry {
            actor,
            change: Change::DbEnd { file },
        };
        match self.join(store, entry, &[]) {
            Ok(_) => {
                self.unseat();
                Ok(ImageReply::Done { seq })
            }
            Err(refusal) => Err(refusal),
        }
    }
}

impl<S: Store> Hall<S> {
    /// Begins a backup whose bytes are these: makes its file durable, makes its transaction, forces all, and has its image in progress.
    fn begin_backup(
        &mut self,
        actor: u32,
        after: Option<u32>,
        payload: Vec<u8>,
    ) -> Result<ImageReply, Refusal>
        requires none { foremost (backup_refused actor (S.moment_of self.old.store) after self.old.held) ≡ None }
        requires holds { IsHolding actor after self.old.held payload.items }
        requires some { 0 < length payload.items }
        ensures step { Steps S.told S.moment_of S.faults_of actor (TakeImage (kind_of after) result) self.old self.new }
        ensures listed { is_listed (TakeImage (kind_of after) result) ≡ true }
        ensures goes { Goes S.told self.old self.new }
        ensures time { S.moment_of self.new.store ≤ S.moment_of self.old.store + 5 }
        ensures later { S.moment_of self.old.store ≤ S.moment_of self.new.store }
        ensures counts { NoneFell (S.faults_of self.old.store) (S.faults_of self.new.store) }
        ensures files { Told (S.told self.old.store) (S.told self.new.store) (GoesOn (λ n. IsOurs n ⊎ (n ≡ self.old.held.claims.next_file))) }
    {
        let file = self.parts.next_file();
        let synced = sync_within(&mut self.store, file).is_ok();
        let entry = Entry {
            actor,
            change: Change::DbBegin { file, after },
        };
        match self.parts.join(&mut self.store, entry, &[]) {
            Ok(seq) => match self.parts.force(&mut self.store) {
                Ok(_) => self.parts.seat_backup(actor, file, seq, payload, synced),
                Err(refusal) => Err(refusal),
            },
            Err(refusal) => Err(refusal),
        }
    }

    /// Begins a backup, whole or behind the one in the file `after`, where nothing refuses it and there is memory for its bytes.
    fn take_backup(&mut self, actor: u32, after: Option<u32>) -> Result<ImageReply, Refusal>
        ensures step { Steps S.told S.moment_of S.faults_of actor (TakeImage (kind_of after) result) self.old self.new }
        ensures listed { is_listed (TakeImage (kind_of after) result) ≡ true }
        ensures goes { Goes S.told self.old self.new }
        ensures time { S.moment_of self.new.store ≤ S.moment_of self.old.store + 5 }
        ensures later { S.moment_of self.old.store ≤ S.moment_of self.new.store }
        ensures counts { NoneFell (S.faults_of self.old.store) (S.faults_of self.new.store) }
        ensures files { Told (S.told self.old.store) (S.told self.new.store) (GoesOn (λ n. IsOurs n ⊎ (n ≡ self.old.held.claims.next_file))) }
    {
        match self.parts.backup_payload(actor, after, self.store.moment()) {
            Ok(payload) => self.begin_backup(actor, after, payload),
            Err(refusal) => Err(refusal),
        }
    }

    /// Begins a backup of the whole database, in the file with the number that is drawn next: makes the transaction that lists it, forces all, and has an image in progress of the database behind
    /// that transaction; the actor goes on with it by `next_image`. Answers its file, and the transaction's number. Each transaction that had no stamp gets the store's moment at the return.
    /// Refused with `RunFull` where the store's moment is 2^62 - 2^24 or a later one; with `LogFault` where a fault has halted the hall, or a call on the log failed, by which it is halted, with
    /// the transaction in doubt; with `InventoryFull` where a number would reach its bound or the database would have too many items; with `Busy` where another image is in progress, be it
    /// the actor's own; with `WriteFault` where the call on its file failed: then it is listed as one that isn't whole; and with `Memory`. It makes 5 device calls at most.
    pub fn backup(&mut self, actor: u32) -> Result<ImageReply, Refusal>
        ensures step { Steps S.told S.moment_of S.faults_of actor (TakeImage Backup result) self.old self.new }
        ensures listed { is_listed (TakeImage Backup result) ≡ true }
        ensures goes { Goes S.told self.old self.new }
        ensures time { S.moment_of self.new.store ≤ S.moment_of self.old.store + 5 }
        ensures later { S.moment_of self.old.store ≤ S.moment_of self.new.store }
        ensures counts { NoneFell (S.faults_of self.old.store) (S.faults_of self.new.store) }
        ensures files { Told (S.told self.old.store) (S.told self.new.store) (GoesOn (λ n. IsOurs n ⊎ (n ≡ self.old.held.claims.next_file))) }
    {
        self.take_backup(actor, None)
    }

    /// Begins a backup that follows the one in the file `after`, as `backup` begins one of the whole database. It holds the transactions behind the number of that one up to its own, which lists
    /// it. Refused as `backup`, and with `NotFound` where the file has no whole backup of this run, one with a number below that of the database with which the hall was opened being of an
    /// earlier run; and with `InventoryFull` also where it would hold 2^32 transactions or more. It makes 5 device calls at most.
    pub fn backup_since(&mut self, actor: u32, after: u32) -> Result<ImageReply, Refusal>
        ensures step { Steps S.told S.moment_of S.faults_of actor (TakeImage (Since after) result) self.old self.new }
        ensures listed { is_listed (TakeImage (Since after) result) ≡ true }
        ensures goes { Goes S.told self.old self.new }
        ensures time { S.moment_of self.new.store ≤ S.moment_of self.old.store + 5 }
        ensures later { S.moment_of self.old.store ≤ S.moment_of self.new.store }
        ensures counts { NoneFell (S.faults_of self.old.store) (S.faults_of self.new.store) }
        ensures files { Told (S.told self.old.store) (S.told self.new.store) (GoesOn (λ n. IsOurs n ⊎ (n ≡ self.old.held.claims.next_file))) }
    {
        self.take_backup(actor, Some(after))
    }

    /// Goes on with the backup in progress, which is the actor's: takes a step of writing it, and once its gate is open makes the transaction by which it ends.
    pub(crate) fn next_backup(&mut self, actor: u32) -> Result<ImageReply, Refusal>
        requires free { foremost (ended_at (S.moment_of self.old.store) self.old.held) ≡ None }
        requires own { is_some (own_begun actor self.old.held.image) ≡ true }
        requires backup { is_some self.old.held.job ≡ true }
        ensures step { Steps S.told S.moment_of S.faults_of actor (TakeImage Next result) self.old self.new }
        ensures listed { is_listed (TakeImage Next result) ≡ true }
        ensures goes { Goes S.told self.old self.new }
        ensures time { S.moment_of self.new.store ≤ S.moment_of self.old.store + 7 }
        ensures later { S.moment_of self.old.store ≤ S.moment_of self.new.store }
        ensures counts { NoneFell (S.faults_of self.old.store) (S.faults_of self.new.store) }
        ensures files { Told (S.told self.old.store) (S.told self.new.store) (GoesOn (λ n. IsOurs n ⊎ IsFileOf self.old.held.job n)) }
    {
        let seat = self.parts.begun_image();
        match self.parts.write_backup(&mut self.store) {
            Ok(progress) => match progress {
                Progress::More => Ok(ImageReply::More),
                Progress::Done => self
                    .parts
                    .end_backup(&mut self.store, actor, seat.0, seat.1),
            },
            Err(_) => Err(Refusal::WriteFault(seat.0)),
        }
    }
}
