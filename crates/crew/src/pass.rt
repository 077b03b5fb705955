//! One actor of a block.
ghost use Rattle.std.specs.Prelude.{◌≡◌, ◌≤◌, ◌^◌, ◌⊎◌, [], length, Ok, Err, IfOk, MatchBool};
ghost use Rattle.kinds.specs.declared.refusal.Refusal.TheVariants.{Busy, Memory};
ghost use Rattle.steps.specs.Calls.{Does, MakesStep, piece_of};
ghost use Rattle.steps.specs.Events.{refusal_in};
ghost use Rattle.steps.specs.Events.Deed.{ReadPiece, WritePiece};
ghost use Rattle.hall.specs.Alone.{raised};
ghost use Rattle.crew.specs.Passes.{Did};
ghost use Rattle.crew.specs.Wrote.{HoldsAhead, HoldsTaken};

use crate::board::Board;
use crate::known::{Named, Origin, Own};
use crate::orders::{
    Asks, Commits, Copies, Drops, Forces, Images, OpensCopy, OpensNew, Order, Reuses, Seals, Writes,
};
use hall_turns::{counted, without_number};
use inventory_answers::{Answer, Query};
use kinds::{Digest, Holder, Refusal};
use sha2::{Digest as _, Sha256};
use space::Aim;
use std::sync::{Condvar, Mutex, Wait};
use steps::{Asked, ImageKind, ImageReply, Stepper};
use store_api::Store;

/// What each actor of a block passes before each of its steps, and once more behind its last one.
pub trait Gate {
    /// The actor's number, how many steps it has made, and the number of its last transaction that is acknowledged, or 0.
    fn pass(&self, actor: u32, turn: u64, last: u64);
}

/// A gate that lets all pass at once.
pub struct OpenGate;

impl Gate for OpenGate {
    fn pass(&self, _actor: u32, _turn: u64, _last: u64) {}
}

/// What all actors of a block share: the hall behind its lock, and the block's cell.
#[derive(Drop)]
pub(crate) struct Shared<S: Store, B: Origin> {
    pub(crate) named: Named<B>,
    pub(crate) board: Mutex<Board<S, B>>,
    pub(crate) changed: Condvar,
}

/// An actor who makes steps on the hall of a block.
#[derive(Drop)]
pub(crate) struct Pass<'a, S: Store, B: Origin, R, G: Gate> {
    pub(crate) shared: &'a Shared<S, B>,
    pub(crate) rt: &'a R,
    pub(crate) gate: &'a G,
    pub(crate) own: Own<B>,
    pub(crate) refused: u64,
    pub(crate) seen: u64,
    pub(crate) turn: u64,
    pub(crate) made: u64,
    pub(crate) last: u64,
}

impl<'a, S: Store, B: Origin, R, G: Gate> Pass<'a, S, B, R, G> {
    /// This actor, who has made no step so far.
    pub(crate) fn new(
        shared: &'a Shared<S, B>,
        rt: &'a R,
        gate: &'a G,
        own: Own<B>,
    ) -> Pass<'a, S, B, R, G>
        ensures own { result.own ≡ own }
        ensures refused { result.refused ≡ 0 }
    {
        Pass {
            shared,
            rt,
            gate,
            own,
            refused: 0,
            seen: 0,
            turn: 0,
            made: 0,
            last: 0,
        }
    }

    /// What it keeps of its actor.
    pub(crate) fn into_own(self) -> Own<B>
        ensures { result ≡ self.entry.own }
    {
        self.own
    }

    /// Passes the gate.
    pub(crate) fn pass_gate(&mut self)
        ensures own { self.new.own ≡ self.old.own }
        ensures refused { self.new.refused ≡ self.old.refused }
    {
        self.gate.pass(self.own.actor(), self.turn, self.last);
        self.turn = self.turn.saturating_add(1);
    }
}

/// How often the hall had changed when an actor was last refused for what another holds, behind a step with this answer, when it had changed so often.
fn seen_behind<A>(seen: u64, changes: u64, answer: &Result<A, Refusal>) -> u64 {
    match answer {
        Err(Refusal::Busy(_)) => changes,
        _ => seen,
    }
}

impl<S: Store, B: Origin, R: Wait, G: Gate> Pass<'_, S, B, R, G> {
    /// Notes what a step was answered behind which the hall had changed so often, and wakes those that wait.
    fn note<A>(&mut self, changes: u64, answer: &Result<A, Refusal>)
        ensures own { self.new.own ≡ self.old.own }
        ensures refused { self.new.refused ≡ raised self.old.refused (refusal_in answer.now) }
    {
        self.shared.changed.notify_all();
        self.seen = seen_behind(self.seen, changes, answer);
        self.refused = counted(self.refused, answer);
    }

    /// Makes a step, whatever else was answered in the block.
    fn make_always<A, O: Order<A>>(&mut self, order: &O) -> Result<A, Refusal>
        requires { O.fits order.now }
        ensures { MakesStep (λ p events q. Did p.own p.refused events q.own q.refused) self.old self.new (O.deed order.now result) }
    {
        self.pass_gate();
        let mut board = self.shared.board.lock(self.rt);
        let answer = board.make(&self.shared.named, &mut self.own, order);
        let changes = board.changes();
        drop(board);
        self.note(changes, &answer);
        answer
    }

    /// Makes the step that writes a piece with this hasher, which holds what the ticket took and the piece, whatever else was answered in the block.
    fn write_ahead(&mut self, order: &Writes<'_>, hasher: &Sha256) -> Result<u64, Refusal>
        requires sized { (1 ≤ length order.now.bytes.now) × (length order.now.bytes.now ≤ 2 ^ 16) }
        requires ahead { HoldsAhead order.now.ticket self.old.own.1 order.now.bytes.now hasher.now }
        ensures made { MakesStep (λ p events q. Did p.own p.refused events q.own q.refused) self.old self.new (WritePiece order.now.ticket order.now.bytes.now result) }
        ensures held { IfOk result (λ count. HoldsTaken order.now.ticket self.new.own.1 hasher.now) }
    {
        self.pass_gate();
        let mut board = self.shared.board.lock(self.rt);
        let answer = board.write_hashed(self.rt, &self.shared.named, &mut self.own, order, hasher);
        let changes = board.changes();
        drop(board);
        self.note(changes, &answer);
        answer
    }

    /// Writes a piece with this hasher, which holds what the ticket took and the piece, and is kept where it is written; or wants memory where another step of the block did.
    fn write_hashed(&mut self, order: &Writes<'_>, hasher: Sha256) -> Result<u64, Refusal>
        requires sized { (1 ≤ length order.now.bytes.now) × (length order.now.bytes.now ≤ 2 ^ 16) }
        requires ahead { HoldsAhead order.now.ticket self.old.own.1 order.now.bytes.now hasher }
        ensures { Does (λ p events q. Did p.own p.refused events q.own q.refused) self.old self.new (WritePiece order.now.ticket order.now.bytes.now result) }
    {
        if self.is_stopped() {
            return Err(Refusal::Memory);
        }
        match self.write_ahead(order, &hasher) {
            Ok(count) => {
                self.own.keep_hasher(order.ticket, hasher);
                Ok(count)
            }
            Err(refusal) => Err(refusal), // the hasher goes
        }
    }

    /// Whether a step of the block wanted memory.
    fn is_stopped(&self) -> bool {
        self.shared.board.lock(self.rt).is_stopped()
    }

    /// Makes a step, or wants memory where another step of the block did.
    fn make<A, O: Order<A>>(&mut self, order: &O) -> Result<A, Refusal>
        requires { O.fits order.now }
        ensures { Does (λ p events q. Did p.own p.refused events q.own q.refused) self.old self.new (O.deed order.now result) }
    {
        if self.is_stopped() {
            return Err(Refusal::Memory);
        }
        self.make_always(order)
    }

    /// Waits until the hall changed since the actor was last refused for what another holds, or the block is to end. Where all others that are under way wait, too, it waits for none of them, and answers false.
    fn wait_for_change(&self) -> bool {
        let seen = self.seen;
        let mut board = self.shared.board.lock(self.rt);
        board.leave();
        let mut board = self
            .shared
            .changed
            .wait_while(self.rt, board, |it| it.is_awaited(seen));
        board.join();
        let is_changed = board.is_changed(seen);
        drop(board);
        is_changed
    }

    /// Waits for what another holds. Where nobody is left who would give it back the block can't go on, as for want of memory.
    fn wait_for(&self, holder: Holder) -> Result<(), Refusal>
        ensures waits { (result ≡ Ok tt) ⊎ (result ≡ Err (Busy holder)) ⊎ (result ≡ Err Memory) }
        ensures unrefused { (result ≡ Ok tt) ⊎ (result ≡ Err Memory) }
    {
        if self.wait_for_change() {
            return Ok(());
        }
        Err(Refusal::Memory)
    }

    /// The actor is under way.
    pub(crate) fn begin(&self) {
        self.shared.board.lock(self.rt).join();
    }

    /// The actor has ended: those that wait don't wait for it.
    pub(crate) fn end(&self) {
        self.shared.board.lock(self.rt).leave();
        self.shared.changed.notify_all();
    }
}

impl<S: Store, B: Origin, R: Wait, G: Gate> Stepper for Pass<'_, S, B, R, G> {
    ghost use Rattle.crew.specs.Passes.{Did};
    ghost use Rattle.crew.specs.Doings.{nothing, joined};

    ghost did = { λ p events q. Did p.own p.refused events q.own q.refused };

    ghost actor_of = { λ p. p.own.0 };

    ghost refused_of = { λ p. p.refused };

    fn actor(&self) -> u32 {
        self.own.actor()
    }

    fn refused(&self) -> u64 {
        self.refused
    }

    fn open_new(&mut self, pool: u32, size: u64, prefer: u32) -> Result<u64, Refusal> {
        match self.make(&OpensNew { pool, size, prefer }) {
            Ok(ticket) => {
                self.own.keep_hasher(ticket, Sha256::new());
                Ok(ticket)
            }
            Err(refusal) => Err(refusal),
        }
    }

    fn open_copy(&mut self, object: u64, aim: Aim, avoid: u32) -> Result<u64, Refusal> {
        self.make(&OpensCopy { object, aim, avoid })
    }

    fn write_piece(&mut self, ticket: u64, bytes: &[u8]) -> Result<u64, Refusal> {
        let order = Writes { ticket, bytes };
        match self.own.hashed_ahead(ticket, bytes) {
            Some(hasher) => self.write_hashed(&order, hasher),
            None => self.make(&order),
        }
    }

    fn copy_piece(&mut self, ticket: u64) -> Result<u64, Refusal> {
        self.make(&Copies { ticket })
    }

    fn seal(&mut self, ticket: u64) -> Result<(), Refusal> {
        self.make(&Seals { ticket })
    }

    fn commit(&mut self, asked: &Asked, tickets: &[u64]) -> Result<u64, Refusal> {
        let answer = self.make(&Commits { asked, tickets });
        if let Ok(number) = &answer {
            self.made = *number;
        }
        answer
    }

    fn drop_ticket(&mut self, ticket: u64) -> Result<(), Refusal> {
        self.make_always(&Drops { ticket })
    }

    fn read_piece(
        &mut self,
        object: u64,
        kept: &Digest,
        from: u32,
        offset: u64,
        into: &mut [u8],
    ) -> Result<usize, Refusal> {
        if self.is_stopped() {
            return Err(Refusal::Memory);
        }
        self.pass_gate();
        let mut board = self.shared.board.lock(self.rt);
        let answer = board.read_piece(
            &self.shared.named,
            &mut self.own,
            object,
            kept,
            from,
            offset,
            into,
        );
        let changes = board.changes();
        drop(board);
        self.note(changes, &answer);
        answer
    }

    fn ask(&mut self, query: &Query) -> Result<Answer, Refusal> {
        self.make(&Asks { query })
    }

    fn image(&mut self, kind: ImageKind) -> Result<ImageReply, Refusal> {
        self.make(&Images { kind })
    }

    fn reuse(&mut self, file: u32) -> Result<u64, Refusal> {
        let answer = self.make(&Reuses { file });
        if let Ok(number) = &answer {
            self.made = *number;
            self.last = *number;
        }
        answer
    }

    fn force(&mut self) -> Result<u64, Refusal> {
        let answer = self.make(&Forces);
        if answer.is_ok() {
            self.last = self.made;
        }
        answer
    }

    fn wait(&mut self, holder: Holder) -> Result<(), Refusal> {
        match holder {
            Holder::Unforced(_) => without_number(self.force()),
            Holder::Ticket(number) => self.wait_for(Holder::Ticket(number)),
            Holder::Image(actor) => self.wait_for(Holder::Image(actor)),
        }
    }

    ghost stays = { λ p. nothing p.own p.refused };

    ghost goes_on = { λ p q r xs ys a b. joined p.own q.own r.own p.refused q.refused r.refused xs ys a b };

    ghost counts = { λ p q xs d. d.2 };

    ghost one_actor = { λ p q xs d. d.0 };
}
