//! Checkpoints: images of the database that are written piece by piece.
ghost use Rattle.std.specs.Prelude.{◌≡◌, ◌⊎◌, ◌+◌, ◌<◌, ◌≤◌, ◌^◌, None, true, is_some, length, IfErr, IfOk, IsSome, OnErr, OnOk};
ghost use Rattle.store_api.specs.Cause.{NoneFell};
ghost use Rattle.store_api.specs.Runs.{GoesOn};
ghost use Rattle.store_api.specs.Told.{Told};
ghost use Rattle.kinds.specs.Refusals.{foremost};
ghost use Rattle.inventory.specs.Meant.{meaning};
ghost use Rattle.vault.specs.Files.{IsOurs, image_file};
ghost use Rattle.vault.specs.Vaults.{Begins, IsBegun, Pieced, RefusesCheckpoint};
ghost use Rattle.steps.specs.Events.{is_listed};
ghost use Rattle.steps.specs.Events.Deed.{Image};
ghost use Rattle.steps.specs.declared.image.ImageKind.TheVariants.{Checkpoint, Next};
ghost use Rattle.steps.specs.declared.image.ImageReply.TheVariants.{Begun};
ghost use Rattle.hall.specs.Backing.{IsFileOf};
ghost use Rattle.hall.specs.Imaging.{GoesFurther, checkpoint_begun, checkpoint_refused, own_begun, progress_of};
ghost use Rattle.hall.specs.Seats.{with_vault};
ghost use Rattle.hall.specs.Steps.{Goes, Steps};

use crate::hall::Hall;
use crate::parts::Parts;
use crate::seated::Seated;
use db_image::Progress;
use kinds::{Holder, Refusal};
use steps::ImageReply;
use store_api::Store;

/// The last generation that an image may have.
const LAST_GENERATION: u64 = (1 << 62) - 1;

impl Parts {
    /// Why no checkpoint begins, where that is so: the run is full, or a fault has halted the hall; another image is in progress; or no later generation is below its bound.
    pub(crate) fn checkpoint_refused(&self, moment: u64) -> Option<Refusal>
        ensures { result ≡ foremost (checkpoint_refused moment self.now) }
    {
        if let Some(refusal) = self.ended(moment) {
            return Some(refusal);
        }
        if let Some(image) = &self.image {
            return Some(Refusal::Busy(Holder::Image(image.actor)));
        }
        if self.vault.generation() >= LAST_GENERATION {
            return Some(Refusal::InventoryFull);
        }
        None
    }

    /// The image in progress is the actor's.
    pub(crate) fn has_image(&self, actor: u32) -> bool
        ensures { result ≡ is_some (own_begun actor self.now.image) }
    {
        match &self.image {
            Some(image) => image.actor == actor,
            None => false,
        }
    }

    /// Makes every transaction durable, and begins the image of the database as it is, which is the actor's. Answers its file and its number. Each transaction that had no stamp gets the
    /// store's moment at the return. Refused with `Memory`, and then nothing changed, and with `LogFault`, where a call on a file of the vault failed. It makes 11 device calls at most.
    pub(crate) fn begin_image<S: Store>(
        &mut self,
        actor: u32,
        store: &mut S,
    ) -> Result<ImageReply, Refusal>
        requires time { S.moment_of store.old + 11 ≤ 2 ^ 62 }
        requires few { length self.old.stamps ≤ length self.old.vault.journal }
        requires number { self.old.vault.generation + 1 < 2 ^ 62 }
        requires none { self.old.job ≡ None }
        ensures told { Told (S.told store.old) (S.told store.new) (Begins meaning self.old.vault result self.new.vault) }
        ensures ok { OnOk result (self.new ≡ checkpoint_begun actor (S.moment_of store.new) self.new.vault self.old) }
        ensures begun { OnOk result (IsBegun meaning self.old.vault self.new.vault) }
        ensures reply { IfOk result (λ reply. reply ≡ Begun (image_file (self.old.vault.generation + 1)) (meaning.number self.old.vault.database)) }
        ensures same { OnErr result (self.new ≡ with_vault self.new.vault self.old) }
        ensures err { IfErr result (λ refusal. RefusesCheckpoint self.old.vault (S.faults_of store.old) (S.faults_of store.new) refusal self.new.vault (store.new ≡ store.old)) }
        ensures time { S.moment_of store.new ≤ S.moment_of store.old + 11 }
        ensures later { S.moment_of store.old ≤ S.moment_of store.new }
        ensures counts { NoneFell (S.faults_of store.old) (S.faults_of store.new) }
    {
        match self.vault.begin_checkpoint(self.alloc, store) {
            Ok((file, seq)) => {
                self.image = Some(Seated {
                    actor,
                    file,
                    seq,
                    backup: None,
                });
                self.stamp(store.moment());
                Ok(ImageReply::Begun { file, seq })
            }
            Err(refusal) => Err(refusal),
        }
    }

    /// Takes a step of the checkpoint in progress: `More`; or `Done` with the number of its database, and then every transaction is durable, and each that had no stamp gets the store's
    /// moment at the return. Refused with `Memory`, and then nothing changed, and with `LogFault`, where a call on a file of the vault failed. It makes 6 device calls at most.
    pub(crate) fn next_image<S: Store>(&mut self, store: &mut S) -> Result<ImageReply, Refusal>
        requires time { S.moment_of store.old + 10 ≤ 2 ^ 62 }
        requires few { length self.old.stamps ≤ length self.old.vault.journal }
        requires number { self.old.vault.generation + 1 < 2 ^ 62 }
        requires begun { IsSome self.old.vault.pending }
        requires image { IsSome self.old.image }
        requires checkpoint { self.old.job ≡ None }
        ensures told { Told (S.told store.old) (S.told store.new) (Pieced meaning self.old.vault (progress_of result) self.new.vault) }
        ensures ok { IfOk result (GoesFurther (S.moment_of store.new) self.old self.new) }
        ensures same { OnErr result (self.new ≡ with_vault self.new.vault self.old) }
        ensures err { IfErr result (λ refusal. RefusesCheckpoint self.old.vault (S.faults_of store.old) (S.faults_of store.new) refusal self.new.vault (store.new ≡ store.old)) }
        ensures time { S.moment_of store.new ≤ S.moment_of store.old + 6 }
        ensures later { S.moment_of store.old ≤ S.moment_of store.new }
        ensures counts { NoneFell (S.faults_of store.old) (S.faults_of store.new) }
    {
        let seq = match &self.image {
            Some(image) => image.seq,
            None => unreachable!(),
        };
        match self.vault.next_checkpoint(self.alloc, store) {
            Ok(Progress::More) => Ok(ImageReply::More),
            Ok(Progress::Done) => {
                self.image = None;
                self.stamp(store.moment());
                Ok(ImageReply::Done { seq })
            }
            Err(refusal) => Err(refusal),
        }
    }
}

impl<S: Store> Hall<S> {
    /// Makes every transaction durable, and begins the image of the database as it is, which becomes the newest one when it is whole: the actor goes on with it by `next_image`. Answers
    /// its file, and the number of the transaction whose database it is. Each transaction that had no stamp gets the store's moment at the return. Refused with `RunFull` where the store's
    /// moment is 2^62 - 2^24 or a later one; with `LogFault` where a fault has halted the hall, or a call on an image or a log failed, by which it is halted; with `Busy` where another image
    /// is in progress, be it the actor's own; with `InventoryFull` where the image's generation would be 2^62; and with `Memory`. It makes 11 device calls at most.
    pub fn checkpoint(&mut self, actor: u32) -> Result<ImageReply, Refusal>
        ensures step { Steps S.told S.moment_of S.faults_of actor (Image Checkpoint result) self.old self.new }
        ensures listed { is_listed (Image Checkpoint result) ≡ true }
        ensures goes { Goes S.told self.old self.new }
        ensures time { S.moment_of self.new.store ≤ S.moment_of self.old.store + 11 }
        ensures later { S.moment_of self.old.store ≤ S.moment_of self.new.store }
        ensures counts { NoneFell (S.faults_of self.old.store) (S.faults_of self.new.store) }
        ensures files { Told (S.told self.old.store) (S.told self.new.store) (GoesOn IsOurs) }
    {
        if let Some(refusal) = self.parts.checkpoint_refused(self.store.moment()) {
            return Err(refusal);
        }
        self.parts.begin_image(actor, &mut self.store)
    }

    /// Goes on with the image that the actor has begun. It writes at most 65,536 bytes of the payload, or copies at most 65,536 bytes of records of the transactions that were committed
    /// since a checkpoint's begin, or one record, and answers `More`. Where none is left of a checkpoint it forces what waits, makes the image whole and its log the log, and answers `Done` with
    /// the number of the transaction whose database the image is; then each transaction that had no stamp gets the store's moment at the return. Where none is left of a database backup it opens
    /// the backup's gate, makes the transaction by which the backup is whole, which waits for a force, and answers `Done` with the number of the backup. Refused with `RunFull` where the
    /// store's moment is 2^62 - 2^24 or a later one; with `LogFault` where a fault has halted the hall, or a call on an image or a log failed, by which it is halted; with `NotFound` where the
    /// actor has begun none; with `WriteFault` where a call on a backup's file failed, and with `InventoryFull` where the number of its last transaction would reach its bound: then the
    /// backup isn't in progress any more; and with `Memory`. It makes 7 device calls at most.
    pub fn next_image(&mut self, actor: u32) -> Result<ImageReply, Refusal>
        ensures step { Steps S.told S.moment_of S.faults_of actor (Image Next result) self.old self.new }
        ensures listed { is_listed (Image Next result) ≡ true }
        ensures goes { Goes S.told self.old self.new }
        ensures time { S.moment_of self.new.store ≤ S.moment_of self.old.store + 7 }
        ensures later { S.moment_of self.old.store ≤ S.moment_of self.new.store }
        ensures counts { NoneFell (S.faults_of self.old.store) (S.faults_of self.new.store) }
        ensures files { Told (S.told self.old.store) (S.told self.new.store) (GoesOn (λ n. IsOurs n ⊎ IsFileOf self.old.held.job n)) }
    {
        if let Some(refusal) = self.parts.ended(self.store.moment()) {
            return Err(refusal);
        }
        if !self.parts.has_image(actor) {
            return Err(Refusal::NotFound);
        }
        if self.parts.is_in_backup() {
            return self.next_backup(actor);
        }
        self.parts.next_image(&mut self.store)
    }
}
