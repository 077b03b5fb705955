//! One actor who has a hall alone.
ghost use Rattle.std.specs.Prelude.{◌≡◌};
ghost use Rattle.steps.specs.Calls.{forced};
ghost use Rattle.steps.specs.Events.{refusal_in};
ghost use Rattle.hall.specs.Alone.{raised};

use crate::stepping::image;
use hall::Hall;
use inventory_answers::{Answer, Query};
use kinds::{Digest, Holder, Refusal};
use space::Aim;
use steps::{Asked, ImageKind, ImageReply, Stepper};
use store_api::Store;

/// An actor who makes steps on a hall that it has alone as long as this lives. Each step is the hall's, and the events that the steps make are a run of this actor alone (`Did` of the hall).
#[derive(Drop)]
pub struct Direct<'a, S: Store> {
    /// The hall.
    pub hall: &'a mut Hall<S>,
    /// The actor's number.
    pub actor: u32,
    /// How many of its steps were refused as such of an object that can't be moved or stored.
    pub refused: u64,
}

impl<'a, S: Store> Direct<'a, S> {
    /// This actor on the hall, who has made no step so far.
    pub fn new(hall: &'a mut Hall<S>, actor: u32) -> Direct<'a, S>
        ensures same_reference { result.hall.ghost_name ≡ hall.entry.ghost_name }
        ensures hall { result.hall.now ≡ hall.old }
        ensures actor { result.actor ≡ actor }
        ensures refused { result.refused ≡ 0 }
    {
        Direct {
            hall,
            actor,
            refused: 0,
        }
    }
}

/// A count of refused steps, behind one more step with this answer.
pub fn counted<T>(count: u64, answer: &Result<T, Refusal>) -> u64
    ensures { result ≡ raised count (refusal_in answer.now) }
{
    match answer {
        Ok(_) => count,
        Err(refusal) => {
            if matches!(refusal.number(), 20 | 24 | 25 | 30) && count < u64::MAX {
                count + 1
            } else {
                count
            }
        }
    }
}

/// What a force answered, without its number.
pub fn without_number(answer: Result<u64, Refusal>) -> Result<(), Refusal>
    ensures { result ≡ forced answer }
{
    match answer {
        Ok(_) => Ok(()),
        Err(refusal) => Err(refusal),
    }
}

impl<S: Store> Stepper for Direct<'_, S> {
    ghost use Rattle.hall.specs.Alone.{Did};
    ghost use Rattle.hall_turns.specs.Doings.{joined, nothing};

    ghost did = { λ p events q. Did S.told S.moment_of S.faults_of p.hall.ghost_name p.actor p.refused p.hall.now events q.hall.ghost_name q.actor q.refused q.hall.now };

    ghost actor_of = { λ p. p.actor };

    ghost refused_of = { λ p. p.refused };

    fn actor(&self) -> u32 {
        self.actor
    }

    fn refused(&self) -> u64 {
        self.refused
    }

    fn open_new(&mut self, pool: u32, size: u64, prefer: u32) -> Result<u64, Refusal> {
        let answer = self.hall.open_new(self.actor, pool, size, prefer);
        self.refused = counted(self.refused, &answer);
        answer
    }

    fn open_copy(&mut self, object: u64, aim: Aim, avoid: u32) -> Result<u64, Refusal> {
        let answer = self.hall.open_copy(self.actor, object, aim, avoid);
        self.refused = counted(self.refused, &answer);
        answer
    }

    fn write_piece(&mut self, ticket: u64, bytes: &[u8]) -> Result<u64, Refusal> {
        let answer = self.hall.write_piece(self.actor, ticket, bytes);
        self.refused = counted(self.refused, &answer);
        answer
    }

    fn copy_piece(&mut self, ticket: u64) -> Result<u64, Refusal> {
        let answer = self.hall.copy_piece(self.actor, ticket);
        self.refused = counted(self.refused, &answer);
        answer
    }

    fn seal(&mut self, ticket: u64) -> Result<(), Refusal> {
        let answer = self.hall.seal(self.actor, ticket);
        self.refused = counted(self.refused, &answer);
        answer
    }

    fn commit(&mut self, asked: &Asked, tickets: &[u64]) -> Result<u64, Refusal> {
        let answer = self.hall.commit(self.actor, asked, tickets);
        self.refused = counted(self.refused, &answer);
        answer
    }

    fn drop_ticket(&mut self, ticket: u64) -> Result<(), Refusal> {
        let answer = self.hall.drop_ticket(self.actor, ticket);
        self.refused = counted(self.refused, &answer);
        answer
    }

    fn read_piece(
        &mut self,
        object: u64,
        kept: &Digest,
        from: u32,
        offset: u64,
        into: &mut [u8],
    ) -> Result<usize, Refusal> {
        let answer = self
            .hall
            .read_piece(self.actor, object, kept, from, offset, into);
        self.refused = counted(self.refused, &answer);
        answer
    }

    fn ask(&mut self, query: &Query) -> Result<Answer, Refusal> {
        let answer = self.hall.ask(self.actor, query);
        self.refused = counted(self.refused, &answer);
        answer
    }

    fn image(&mut self, kind: ImageKind) -> Result<ImageReply, Refusal> {
        let answer = image(self.hall, self.actor, kind);
        self.refused = counted(self.refused, &answer);
        answer
    }

    fn reuse(&mut self, file: u32) -> Result<u64, Refusal> {
        let answer = self.hall.reuse(self.actor, file);
        self.refused = counted(self.refused, &answer);
        answer
    }

    fn force(&mut self) -> Result<u64, Refusal> {
        let answer = self.hall.force(self.actor);
        self.refused = counted(self.refused, &answer);
        answer
    }

    fn wait(&mut self, holder: Holder) -> Result<(), Refusal> {
        match holder {
            Holder::Unforced(_) => without_number(self.force()),
            holder => Err(Refusal::Busy(holder)),
        }
    }

    ghost stays = { λ p. nothing S.told S.moment_of S.faults_of p.hall.ghost_name p.actor p.refused p.hall.now };

    ghost goes_on = { λ p q r xs ys a b. joined S.told S.moment_of S.faults_of p.hall.ghost_name q.hall.ghost_name r.hall.ghost_name p.actor q.actor r.actor p.refused q.refused r.refused p.hall.now q.hall.now r.hall.now xs ys a b };

    ghost counts = { λ p q xs d. d.2 };

    ghost one_actor = { λ p q xs d. d.1 };
}
