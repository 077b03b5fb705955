//! What lies behind the lock of a block.
ghost use Rattle.std.specs.Prelude.{◌≡◌, ◌≤◌, ◌^◌, ◌++◌, ◌∷◌, [], ℕ, Some, true, length, IfOk};
ghost use Rattle.std.specs.List.{AllByRecursion};
ghost use Rattle.steps.specs.Calls.{piece_of};
ghost use Rattle.steps.specs.Events.{event, is_listed};
ghost use Rattle.steps.specs.Events.Deed.{ReadPiece, WritePiece};
ghost use Rattle.crew.specs.Knowing.{IsWithin};
ghost use Rattle.crew.specs.Ran.{RanFrom, began};
ghost use Rattle.crew.specs.Wrote.{HoldsAhead};

use crate::known::{Keeper, Named, Origin, Own};
use crate::orders::{Order, Writes};
use hall::Hall;
use kinds::{Digest, Refusal};
use sha2::Sha256;
use std::marker::{Brand, Model, PhantomData};
use std::sync::Wait;
use store_api::Store;

/// The hall of a block, with the keeper's pass, which knows each step that was made on it. Every value is one to which these steps led from the hall that the block began with, each of them a step of one of the
/// block's actors; and the hall is in a state of the machine whose tickets have the bytes that these steps tell of them.
#[derive(Drop)]
pub(crate) struct Board<S: Store, B: Origin> {
    hall: Hall<S>,
    keeper: Keeper<B>,
    changes: u64,
    working: u64,
    is_stopped: bool,
    of: PhantomData<B>,
}

impl<S: Store, B: Origin> Model for Board<S, B> {
    ghost use Rattle.std.specs.Prelude.{List, ℕ};
    ghost use Rattle.std.specs.List.{AllByRecursion};
    ghost use Rattle.hall.specs.Held.{Hall as Whole};
    ghost use Rattle.crew.specs.Knowing.{IsWithin};
    ghost use Rattle.crew.specs.Ran.{RanFrom};
    ghost use Rattle.crew.specs.Wrote.{IsAsTold};
    ghost use Rattle.machine.specs.Turns.{Turn};

    ghost Value = { Whole S × (List Turn × ℕ) };

    ghost view = { λ b. (b.hall, b.keeper) };

    ghost invariant = { λ b. RanFrom S.told S.moment_of S.faults_of B.first b.keeper.0 b.hall × AllByRecursion (IsWithin B.least B.most) b.keeper.0 × IsAsTold S.told S.moment_of S.faults_of b.keeper.0 b.hall };
}

/// What is asked in a read.
#[derive(Drop)]
pub(crate) struct Reading<'a> {
    pub(crate) object: u64,
    pub(crate) kept: &'a Digest,
    pub(crate) from: u32,
    pub(crate) offset: u64,
    pub(crate) wanted: usize,
}

/// What was read.
#[derive(Drop)]
pub(crate) struct Read<'a> {
    pub(crate) answer: &'a Result<usize, Refusal>,
    pub(crate) into: &'a [u8],
}

/// Whether a step with this answer may have changed what others wait for, where it may free that if it is answered.
fn is_change<A>(frees: bool, answer: &Result<A, Refusal>) -> bool {
    match answer {
        Ok(_) => frees,
        Err(refusal) => matches!(refusal.number(), 25 | 31 | 40 | 41 | 50),
    }
}

fn is_memory<A>(answer: &Result<A, Refusal>) -> bool {
    matches!(answer, Err(Refusal::Memory))
}

impl<S: Store, B: Origin> Board<S, B> {
    /// The hall at the beginning of its block.
    pub(crate) fn new(hall: Hall<S>, keeper: Keeper<B>) -> Board<S, B>
        requires first { B.first ≡ Some (began S.told S.moment_of S.faults_of hall) }
        requires none { keeper.0 ≡ [] }
    {
        hall.is_good();
        Board {
            hall,
            keeper,
            changes: 0,
            working: 0,
            is_stopped: false,
            of: PhantomData,
        }
    }

    /// Makes a step of an actor, and tells it.
    pub(crate) fn make<A, O: Order<A>>(
        &mut self,
        named: &Named<B>,
        own: &mut Own<B>,
        order: &O,
    ) -> Result<A, Refusal>
        requires { O.fits order.now }
        ensures told { (n : ℕ) × (own.new ≡ (own.old.0, own.old.1 ++ event n (O.deed order.now result) ∷ [])) }
        ensures listed { is_listed (O.deed order.now result) ≡ true }
    {
        let n = self.hall.number();
        let answer = order.make(&mut self.hall, own.actor());
        self.keeper
            .tell::<Brand, O, Result<A, Refusal>>(named, own, n, order, &answer);
        self.note(is_change(order.frees(), &answer), is_memory(&answer));
        answer
    }

    /// Reads a piece of an object for an actor, and tells it.
    pub(crate) fn read_piece(
        &mut self,
        named: &Named<B>,
        own: &mut Own<B>,
        object: u64,
        kept: &Digest,
        from: u32,
        offset: u64,
        into: &mut [u8],
    ) -> Result<usize, Refusal>
        ensures told { (n : ℕ) × (own.new ≡ (own.old.0, own.old.1 ++ event n (ReadPiece object kept.now from offset (length into.old) (piece_of result into.new)) ∷ [])) }
        ensures listed { is_listed (ReadPiece object kept.now from offset (length into.old) (piece_of result into.new)) ≡ true }
        ensures within { IfOk result (λ count. count ≤ length into.new) }
    {
        let n = self.hall.number();
        let asked = Reading {
            object,
            kept,
            from,
            offset,
            wanted: into.len(),
        };
        let answer = self
            .hall
            .read_piece(own.actor(), object, kept, from, offset, into);
        let read = Read {
            answer: &answer,
            into: &*into,
        };
        self.keeper
            .tell::<Brand, Reading<'_>, Read<'_>>(named, own, n, &asked, &read);
        self.note(false, is_memory(&answer));
        answer
    }

    /// Makes the step that writes an actor's piece with this hasher, which holds what the actor's steps tell of the ticket and the piece, and tells it.
    pub(crate) fn write_hashed<R: Wait>(
        &mut self,
        rt: &R,
        named: &Named<B>,
        own: &mut Own<B>,
        order: &Writes<'_>,
        hasher: &Sha256,
    ) -> Result<u64, Refusal>
        requires sized { (1 ≤ length order.now.bytes.now) × (length order.now.bytes.now ≤ 2 ^ 16) }
        requires ahead { HoldsAhead order.now.ticket own.old.1 order.now.bytes.now hasher.now }
        ensures told { (n : ℕ) × (own.new ≡ (own.old.0, own.old.1 ++ event n (WritePiece order.now.ticket order.now.bytes.now result) ∷ [])) }
        ensures listed { is_listed (WritePiece order.now.ticket order.now.bytes.now result) ≡ true }
    {
        let n = self.hall.number();
        self.keeper.compare(rt, named, own);
        let answer = self
            .hall
            .write_hashed(own.actor(), order.ticket, order.bytes, hasher);
        self.keeper
            .tell::<Brand, Writes<'_>, Result<u64, Refusal>>(named, own, n, order, &answer);
        self.note(false, is_memory(&answer));
        answer
    }

    fn note(&mut self, is_change: bool, is_memory: bool)
        ensures { self.new ≡ self.old }
    {
        self.changes = self.changes.wrapping_add(u64::from(is_change));
        self.is_stopped = self.is_stopped | is_memory;
    }

    /// How many steps so far may have changed what others wait for.
    pub(crate) fn changes(&self) -> u64 {
        self.changes
    }

    /// One more actor makes steps: it begins, or has waited.
    pub(crate) fn join(&mut self)
        ensures { self.new ≡ self.old }
    {
        self.working = self.working.saturating_add(1);
    }

    /// An actor makes no steps for now: it waits, or has ended.
    pub(crate) fn leave(&mut self)
        ensures { self.new ≡ self.old }
    {
        self.working = self.working.saturating_sub(1);
    }

    /// Others may have changed the hall behind so many changes, or the block is to end.
    pub(crate) fn is_changed(&self, seen: u64) -> bool {
        self.changes != seen || self.is_stopped
    }

    /// Nothing has changed behind so many changes, and some actor makes steps that may change it.
    pub(crate) fn is_awaited(&self, seen: u64) -> bool {
        !self.is_changed(seen) && self.working > 0
    }

    /// A step wanted memory: the block is to end.
    pub(crate) fn is_stopped(&self) -> bool {
        self.is_stopped
    }

    /// The hall, with what the keeper knows.
    pub(crate) fn into_parts(self) -> (Hall<S>, Keeper<B>)
        ensures ran { RanFrom S.told S.moment_of S.faults_of B.first result.1.0 result.0 }
        ensures within { AllByRecursion (IsWithin B.least B.most) result.1.0 }
    {
        let Board {
            hall,
            keeper,
            changes: _,
            working: _,
            is_stopped: _,
            of: _,
        } = self;
        (hall, keeper)
    }
}
