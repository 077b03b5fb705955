//! Who makes steps on a machine of plain lists: an actor that has it alone, and one between whose steps other actors' transactions come.
ghost use Rattle.std.specs.Prelude.{◌≡◌, ◌⊎◌, Ok, Err};
ghost use Rattle.kinds.specs.declared.refusal.Refusal.TheVariants as refusal;
ghost use Rattle.steps.specs.Calls.{forced};
ghost use Rattle.plain_hall.specs.Traces.{Same};

use crate::list_hall::Hall;
use crate::trace::{Kind, Trace};
use entries::Entry;
use inventory_answers::{Answer, Query};
use kinds::{Digest, Holder, Refusal};
use space::Aim;
use std::alloc::Global;
use std::collections::VecDeque;
use steps::{Asked, ImageKind, ImageReply, Stepper};

/// What comes before each step of an actor.
pub trait Between: Drop {
    /// The next one comes, where there is one; whether there was.
    fn come(&mut self, hall: &mut Hall) -> bool;
}

/// Nobody else is there.
#[derive(Clone, Copy)]
pub struct Nobody;

impl Between for Nobody {
    fn come(&mut self, _hall: &mut Hall) -> bool {
        false
    }
}

/// Other actors make these transactions, one before each step, as far as they are legal then.
#[derive(Drop)]
pub struct Others {
    entries: VecDeque<Entry>,
}

impl Others {
    /// They make no transaction. It takes no memory.
    pub fn new(alloc: Global) -> Others {
        Others {
            entries: VecDeque::new(alloc),
        }
    }

    /// They make this one behind the others, as this actor's.
    pub fn queue(&mut self, actor: u32, entry: Entry) -> Result<(), Refusal> {
        let Entry { actor: _, change } = entry;
        self.entries.push_back(Entry { actor, change })?;
        Ok(())
    }
}

fn come_in(hall: &mut Hall, entry: &Entry) {
    let _ = hall.join(entry).is_ok();
}

impl Between for Others {
    fn come(&mut self, hall: &mut Hall) -> bool {
        match self.entries.pop_front() {
            Some(entry) => {
                come_in(hall, &entry);
                drop(entry);
                true
            }
            None => false,
        }
    }
}

/// An actor, the machine on which it makes its steps, and what comes between them.
#[derive(Drop)]
pub struct ListMachine<B: Between> {
    pub trace: Trace,
    pub hall: Hall,
    pub between: B,
}

impl<B: Between> ListMachine<B> {
    /// An actor with the number 1 on a machine of its own.
    pub fn new(alloc: Global, between: B) -> Result<ListMachine<B>, Refusal> {
        Ok(ListMachine {
            trace: Trace::new(alloc, 1),
            hall: Hall::new(alloc)?,
            between,
        })
    }

    /// What comes before a step. It answers the number of the last transaction then, or that there is no room to note the step.
    fn begin(&mut self) -> Result<u64, Refusal>
        ensures { Same self.old.trace self.new.trace }
    {
        self.trace.marks.reserve(1)?;
        let _ = self.between.come(&mut self.hall);
        Ok(self.hall.number())
    }

    /// The next of the others comes; where there is none, who waits for this holder would wait for ever.
    fn let_come(&mut self, holder: Holder) -> Result<(), Refusal>
        ensures same { self.new.trace ≡ self.old.trace }
        ensures told { (result ≡ Ok tt) ⊎ (result ≡ Err (refusal.Busy holder)) }
    {
        if self.between.come(&mut self.hall) {
            Ok(())
        } else {
            Err(Refusal::Busy(holder))
        }
    }
}

/// What a force answered, without its number.
fn without_number(answer: Result<u64, Refusal>) -> Result<(), Refusal>
    ensures { result ≡ forced answer }
{
    match answer {
        Ok(_) => Ok(()),
        Err(refusal) => Err(refusal),
    }
}

#[tactic(auto, using(crate::proofs::Stepping::wanted, crate::proofs::Stepping::as_answered, crate::proofs::Stepping::let_others_come, crate::proofs::Stepping::made_all_durable))]
impl<B: Between> Stepper for ListMachine<B> {
    ghost use Rattle.plain_hall.specs.Traces.{Did};
    ghost use Rattle.plain_hall.specs.Laws.{nothing, joined, counted, of_one};

    ghost did = { λ p events q. Did p.trace events q.trace };

    ghost actor_of = { λ p. p.trace.actor };

    ghost refused_of = { λ p. p.trace.refused };

    fn actor(&self) -> u32 {
        self.trace.actor
    }

    fn refused(&self) -> u64 {
        self.trace.refused
    }

    fn open_new(&mut self, pool: u32, size: u64, prefer: u32) -> Result<u64, Refusal> {
        let n = match self.begin() {
            Ok(n) => n,
            Err(_) => return Err(Refusal::Memory),
        };
        let answer = self.hall.open_new(self.trace.actor, pool, size, prefer);
        self.trace.end(Kind::OpenNew, n, answer)
    }

    fn open_copy(&mut self, object: u64, aim: Aim, avoid: u32) -> Result<u64, Refusal> {
        let n = match self.begin() {
            Ok(n) => n,
            Err(_) => return Err(Refusal::Memory),
        };
        let answer = self.hall.open_copy(self.trace.actor, object, aim, avoid);
        self.trace.end(Kind::OpenCopy, n, answer)
    }

    fn write_piece(&mut self, ticket: u64, bytes: &[u8]) -> Result<u64, Refusal> {
        let n = match self.begin() {
            Ok(n) => n,
            Err(_) => return Err(Refusal::Memory),
        };
        let answer = self.hall.write_piece(self.trace.actor, ticket, bytes);
        self.trace.end(Kind::WritePiece, n, answer)
    }

    fn copy_piece(&mut self, ticket: u64) -> Result<u64, Refusal> {
        let n = match self.begin() {
            Ok(n) => n,
            Err(_) => return Err(Refusal::Memory),
        };
        let answer = self.hall.copy_piece(self.trace.actor, ticket);
        self.trace.end(Kind::CopyPiece, n, answer)
    }

    fn seal(&mut self, ticket: u64) -> Result<(), Refusal> {
        let n = match self.begin() {
            Ok(n) => n,
            Err(_) => return Err(Refusal::Memory),
        };
        let answer = self.hall.seal(self.trace.actor, ticket);
        self.trace.end(Kind::Seal, n, answer)
    }

    fn commit(&mut self, asked: &Asked, tickets: &[u64]) -> Result<u64, Refusal> {
        let n = match self.begin() {
            Ok(n) => n,
            Err(_) => return Err(Refusal::Memory),
        };
        let answer = self.hall.commit(self.trace.actor, asked, tickets);
        self.trace.end(Kind::Commit, n, answer)
    }

    fn drop_ticket(&mut self, ticket: u64) -> Result<(), Refusal> {
        let _ = self.between.come(&mut self.hall);
        let n = self.hall.number();
        let was_there = self.hall.drop_ticket(self.trace.actor, ticket);
        self.trace.end_drop(n, was_there)
    }

    fn read_piece(
        &mut self,
        object: u64,
        kept: &Digest,
        from: u32,
        offset: u64,
        into: &mut [u8],
    ) -> Result<usize, Refusal> {
        let n = match self.begin() {
            Ok(n) => n,
            Err(_) => return Err(Refusal::Memory),
        };
        let answer = self.hall.read_into(object, kept, from, offset, into);
        self.trace.end(Kind::ReadPiece, n, answer)
    }

    fn ask(&mut self, query: &Query) -> Result<Answer, Refusal> {
        let n = match self.begin() {
            Ok(n) => n,
            Err(_) => return Err(Refusal::Memory),
        };
        let answer = self.hall.ask(query);
        self.trace.end(Kind::Ask, n, answer)
    }

    fn image(&mut self, kind: ImageKind) -> Result<ImageReply, Refusal> {
        let n = match self.begin() {
            Ok(n) => n,
            Err(_) => return Err(Refusal::Memory),
        };
        let answer = self.hall.image(self.trace.actor, kind);
        self.trace.end(Kind::Image, n, answer)
    }

    fn reuse(&mut self, file: u32) -> Result<u64, Refusal> {
        let n = match self.begin() {
            Ok(n) => n,
            Err(_) => return Err(Refusal::Memory),
        };
        let answer = self.hall.reuse(self.trace.actor, file);
        self.trace.end(Kind::Reuse, n, answer)
    }

    fn force(&mut self) -> Result<u64, Refusal> {
        let n = match self.begin() {
            Ok(n) => n,
            Err(_) => return Err(Refusal::Memory),
        };
        let number = self.hall.force();
        self.trace.end(Kind::Force, n, Ok(number))
    }

    fn wait(&mut self, holder: Holder) -> Result<(), Refusal> {
        match holder {
            Holder::Unforced(_) => without_number(self.force()),
            Holder::Ticket(number) => self.let_come(Holder::Ticket(number)),
            Holder::Image(actor) => self.let_come(Holder::Image(actor)),
        }
    }

    ghost stays = { λ p. nothing p.trace };

    ghost goes_on = { λ p q r xs ys a b. joined p.trace q.trace r.trace xs ys a b };

    ghost counts = { λ p q xs d. counted p.trace q.trace xs d };

    ghost one_actor = { λ p q xs d. of_one p.trace q.trace xs d };
}
