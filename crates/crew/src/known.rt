//! What the steps of a block are, as its passes know them: the keeper of a block's hall all of them, each actor its own. A pass has no bytes; the steps that it knows exist in proofs alone.
ghost use Rattle.std.specs.Prelude.{◌≡◌, ◌+◌, ◌≤◌, ◌<◌, ◌++◌, ◌∷◌, [], true, IfOk, IfSome};
ghost use Rattle.crossbeam_utils.specs.Seq.{cell_view};
ghost use Rattle.machine.specs.Turns.{events_of};
ghost use Rattle.crew.specs.Knowing.{keeping, acting, turn};
ghost use Rattle.crew.specs.Wrote.{HoldsAhead, HoldsTaken};

use atomic_table::{Join, Split};
use crossbeam_utils::atomic::seq_cell::{Pass, RuledSeqCell};
use crossbeam_utils::rule::{Outcome, Protocol};
use sha2::{Digest as _, Sha256};
use std::alloc::{AllocError, Global};
use std::marker::{Brand, Model, PhantomData};
use std::sync::Wait;

/// What a pass knows. No value of it is made.
#[derive(Drop)]
pub struct Knowing {
    bits: u8,
}

impl Model for Knowing {
    ghost use Rattle.crew.specs.Knowing.{Knows, nobody};

    ghost Value = { Knows };

    ghost view = { λ k. nobody };
}

/// The rule of a block's cell (`Kept`).
pub struct Agreed;

impl Protocol<[u64; 1], Knowing> for Agreed {
    ghost use Rattle.std.specs.Prelude.{[]};
    ghost use Rattle.crew.specs.Knowing.{Kept, keeping};

    ghost holds = { Kept };

    ghost first = { keeping [] 0 };
}

/// All that a pass knows goes over to another.
struct Whole;

impl Split<Knowing> for Whole {
    ghost use Rattle.crew.specs.Knowing.{nobody};

    ghost left = { λ v. nobody };

    ghost right = { λ v. v };
}

/// The keeper takes in an actor's pass.
struct Gives;

impl Join<Knowing> for Gives {
    ghost use Rattle.crew.specs.Knowing.{both, nobody};

    ghost both = { both };

    ghost spent = { nobody };
}

/// The keeper looks at what the actor whose pass it has knows.
struct Compares;

impl Outcome<[u64; 1], Knowing> for Compares {
    ghost use Rattle.crew.specs.Knowing.{Compared};

    ghost then = { Compared };
}

/// The keeper looks at what the actor whose pass it has knows, and keeps that pass.
struct Looks;

impl Outcome<[u64; 1], Knowing> for Looks {
    ghost use Rattle.crew.specs.Knowing.{Looked};

    ghost then = { Looked };
}

/// The keeper gives an actor's pass back.
struct GivesBack;

impl Split<Knowing> for GivesBack {
    ghost use Rattle.crew.specs.Knowing.{kept_all, kept_own};

    ghost left = { kept_all };

    ghost right = { kept_own };
}

/// The number of an actor that begins. Each call picks it.
pub trait Beginning {
    ghost use Rattle.std.specs.Prelude.{ℕ};

    ghost actor: { ℕ };
}

impl Beginning for Brand {
    ghost actor = { 0 };
}

/// An actor begins.
struct Begins<A: Beginning> {
    of: PhantomData<A>,
}

impl<A: Beginning> Split<Knowing> for Begins<A> {
    ghost use Rattle.std.specs.Prelude.{◌+◌, []};
    ghost use Rattle.crew.specs.Knowing.{keeping, acting};

    ghost left = { λ v. keeping v.all (A.actor + 1) };

    ghost right = { λ v. acting A.actor [] };
}

/// A step that was made. Each call picks it.
pub trait Telling {
    ghost use Rattle.steps.specs.Events.{Event};

    ghost told: { Event };
}

impl Telling for Brand {
    ghost use Rattle.crew.specs.Knowing.{no_event};

    ghost told = { no_event };
}

/// The keeper tells a step of the actor whose pass it has, and gives that back.
struct Tells<T: Telling> {
    of: PhantomData<T>,
}

impl<T: Telling> Split<Knowing> for Tells<T> {
    ghost use Rattle.crew.specs.Knowing.{told_all, told_own};

    ghost left = { told_all T.told };

    ghost right = { told_own T.told };
}

/// A block's cell.
pub type Cell = RuledSeqCell<[u64; 1], Knowing, Agreed, 1>;

/// A pass of it.
pub type Known = Pass<[u64; 1], Knowing>;

/// A new cell, with its keeper's pass.
pub fn open_cell(alloc: Global) -> Result<(Cell, Known), AllocError>
    ensures { IfOk result (λ c. (c.1.table_id ≡ c.0.table.shared.table_id) × (cell_view c.1 ≡ keeping [] 0)) }
{
    Cell::ruled(alloc, [0])
}

/// Which cell it is, which hall its block began with, and which numbers its actors have: from the least one up to the most, which none has. Each block picks it.
pub trait Origin {
    ghost use Rattle.std.specs.Prelude.{ℕ, Option};
    ghost use Rattle.atomic_table.specs.Seated.{TableId};
    ghost use Rattle.crew.specs.Ran.{Began};

    ghost table: { TableId };

    ghost first: { Option Began };

    ghost least: { ℕ };

    ghost most: { ℕ };
}

impl Origin for Brand {
    ghost use Rattle.std.specs.Prelude.{None};
    ghost use Rattle.crew.specs.Knowing.{no_table};

    ghost table = { no_table };

    ghost first = { None };

    ghost least = { 0 };

    ghost most = { 0 };
}

/// The cell of a block.
#[derive(Drop)]
pub struct Named<B: Origin> {
    cell: Cell,
    of: PhantomData<B>,
    ghost is: { cell.table.shared.table_id ≡ B.table },
}

impl<B: Origin> Named<B> {
    /// The cell under its block's name.
    pub fn new(cell: Cell) -> Named<B>
        requires { cell.table.shared.table_id ≡ B.table }
    {
        Named {
            cell,
            of: PhantomData,
        }
    }
}

/// The pass of a block's keeper. Contracts see all steps of the block so far, and the number from which on no actor has begun.
#[derive(Drop)]
pub struct Keeper<B: Origin> {
    pass: Known,
    of: PhantomData<B>,
}

impl<B: Origin> Model for Keeper<B> {
    ghost use Rattle.std.specs.Prelude.{◌≡◌, ℕ, List};
    ghost use Rattle.crossbeam_utils.specs.Seq.{cell_view};
    ghost use Rattle.machine.specs.Turns.{Turn};
    ghost use Rattle.crew.specs.Knowing.{keeping};

    ghost Value = { List Turn × ℕ };

    ghost view = { λ k. ((cell_view k.pass).all, (cell_view k.pass).next) };

    ghost invariant = { λ k. (k.pass.table_id ≡ B.table) × (cell_view k.pass ≡ keeping (cell_view k.pass).all (cell_view k.pass).next) };
}

/// The SHA-256 of what an actor's ticket took so far, as its steps tell it.
#[derive(Drop)]
struct Mirror {
    ticket: u64,
    hasher: Sha256,
}

/// An actor's pass, with the hasher of the ticket that the actor opened or wrote last, as long as it makes no other step. Contracts see the actor's number, which is one of the block's, and its steps so far.
#[derive(Drop)]
pub struct Own<B: Origin> {
    pass: Known,
    actor: u32,
    mirror: Option<Mirror>,
    of: PhantomData<B>,
}

impl<B: Origin> Model for Own<B> {
    ghost use Rattle.std.specs.Prelude.{◌≡◌, ◌≤◌, ◌<◌, IfSome};
    ghost use Rattle.crossbeam_utils.specs.Seq.{cell_view};
    ghost use Rattle.crew.specs.Passes.{Diary};
    ghost use Rattle.crew.specs.Knowing.{acting};
    ghost use Rattle.crew.specs.Wrote.{HoldsTaken};

    ghost Value = { Diary };

    ghost view = { λ o. (o.actor, (cell_view o.pass).mine) };

    ghost invariant = { λ o. (o.pass.table_id ≡ B.table) × (cell_view o.pass ≡ acting o.actor (cell_view o.pass).mine) × (B.least ≤ o.actor) × (o.actor < B.most) × IfSome o.mirror (λ it. HoldsTaken it.ticket (cell_view o.pass).mine it.hasher) };
}

fn begin_actor<A: Beginning>(cell: &Cell, keeper: &mut Known, actor: u32) -> Known
    requires cell { keeper.old.table_id ≡ cell.now.table.shared.table_id }
    requires keeps { cell_view keeper.old ≡ keeping (cell_view keeper.old).all (cell_view keeper.old).next }
    requires next { (cell_view keeper.old).next ≤ A.actor }
    ensures keeps { (keeper.new.table_id ≡ keeper.old.table_id) × (cell_view keeper.new ≡ keeping (cell_view keeper.old).all (A.actor + 1)) }
    ensures acts { (result.table_id ≡ keeper.old.table_id) × (cell_view result ≡ acting A.actor []) }
{
    let _ = actor;
    cell.split_pass::<Begins<A>>(keeper)
}

fn tell_turn<T: Telling>(cell: &Cell, keeper: &mut Known, own: &mut Known)
    requires cell { keeper.old.table_id ≡ cell.now.table.shared.table_id }
    requires own { own.old.table_id ≡ cell.now.table.shared.table_id }
    requires keeps { cell_view keeper.old ≡ keeping (cell_view keeper.old).all (cell_view keeper.old).next }
    requires acts { cell_view own.old ≡ acting (cell_view own.old).actor (cell_view own.old).mine }
    ensures keeps { (keeper.new.table_id ≡ keeper.old.table_id) × (cell_view keeper.new ≡ keeping ((cell_view keeper.old).all ++ turn (cell_view own.old).actor T.told ∷ []) (cell_view keeper.old).next) }
    ensures acts { (own.new.table_id ≡ own.old.table_id) × (cell_view own.new ≡ acting (cell_view own.old).actor ((cell_view own.old).mine ++ T.told ∷ [])) }
{
    let moved = cell.split_pass::<Whole>(own);
    cell.join_pass::<Gives>(keeper, moved);
    let fresh = cell.split_pass::<Tells<T>>(keeper);
    *own = fresh;
}

fn compare_own<R: Wait>(rt: &R, cell: &Cell, keeper: &mut Known, mut own: Known)
    requires cell { keeper.old.table_id ≡ cell.now.table.shared.table_id }
    requires own { own.table_id ≡ cell.now.table.shared.table_id }
    requires keeps { cell_view keeper.old ≡ keeping (cell_view keeper.old).all (cell_view keeper.old).next }
    requires acts { cell_view own ≡ acting (cell_view own).actor (cell_view own).mine }
    ensures keeps { (keeper.new.table_id ≡ keeper.old.table_id) × (cell_view keeper.new ≡ cell_view keeper.old) }
    ensures same { (cell_view own).mine ≡ events_of (cell_view own).actor (cell_view keeper.old).all }
{
    let moved = cell.split_pass::<Whole>(&mut own);
    cell.join_pass::<Gives>(keeper, moved);
    cell.load_as::<Compares, R>(rt, keeper);
}

fn look_own<R: Wait>(rt: &R, cell: &Cell, keeper: &mut Known, own: &mut Known)
    requires cell { keeper.old.table_id ≡ cell.now.table.shared.table_id }
    requires own { own.old.table_id ≡ cell.now.table.shared.table_id }
    requires keeps { cell_view keeper.old ≡ keeping (cell_view keeper.old).all (cell_view keeper.old).next }
    requires acts { cell_view own.old ≡ acting (cell_view own.old).actor (cell_view own.old).mine }
    ensures keeps { (keeper.new.table_id ≡ keeper.old.table_id) × (cell_view keeper.new ≡ cell_view keeper.old) }
    ensures acts { (own.new.table_id ≡ own.old.table_id) × (cell_view own.new ≡ cell_view own.old) }
    ensures same { (cell_view own.old).mine ≡ events_of (cell_view own.old).actor (cell_view keeper.old).all }
{
    let moved = cell.split_pass::<Whole>(own);
    cell.join_pass::<Gives>(keeper, moved);
    cell.load_as::<Looks, R>(rt, keeper);
    let back = cell.split_pass::<GivesBack>(keeper);
    *own = back;
}

impl<B: Origin> Keeper<B> {
    /// The keeper of a new cell.
    pub fn new(pass: Known) -> Keeper<B>
        requires table { pass.table_id ≡ B.table }
        requires new { cell_view pass ≡ keeping [] 0 }
        ensures { result ≡ ([], 0) }
    {
        Keeper {
            pass,
            of: PhantomData,
        }
    }

    /// An actor begins, whose number is above those of all that began before.
    pub fn begin(&mut self, named: &Named<B>, actor: u32) -> Own<B>
        requires next { self.old.1 ≤ actor }
        requires within { (B.least ≤ actor) × (actor < B.most) }
        ensures keeper { self.new ≡ (self.old.0, actor + 1) }
        ensures own { result ≡ (actor, []) }
    {
        let pass = begin_actor::<Brand>(&named.cell, &mut self.pass, actor);
        Own {
            pass,
            actor,
            mirror: None,
            of: PhantomData,
        }
    }

    /// A step of the actor is told, whose hasher goes. `n`, `about` and `answer` say which: what is picked may speak of them.
    pub fn tell<T: Telling, X, Y>(
        &mut self,
        named: &Named<B>,
        own: &mut Own<B>,
        n: u64,
        about: &X,
        answer: &Y,
    )
        ensures keeper { self.new ≡ (self.old.0 ++ turn own.old.0 T.told ∷ [], self.old.1) }
        ensures own { own.new ≡ (own.old.0, own.old.1 ++ T.told ∷ []) }
    {
        let _ = n;
        let _ = about;
        let _ = answer;
        own.mirror = None;
        tell_turn::<T>(&named.cell, &mut self.pass, &mut own.pass);
    }

    /// The steps that an actor knows are all that were told of it.
    pub fn compare<R: Wait>(&mut self, rt: &R, named: &Named<B>, own: &mut Own<B>)
        ensures keeper { self.new ≡ self.old }
        ensures own { own.new ≡ own.old }
        ensures same { own.old.1 ≡ events_of own.old.0 self.old.0 }
    {
        look_own(rt, &named.cell, &mut self.pass, &mut own.pass);
    }

    /// An actor ends: its steps are all that were told of it.
    pub fn end<R: Wait>(&mut self, rt: &R, named: &Named<B>, own: Own<B>)
        ensures keeper { self.new ≡ self.old }
        ensures own { own.1 ≡ events_of own.0 self.old.0 }
    {
        let Own {
            pass,
            actor: _,
            mirror: _,
            of: _,
        } = own;
        compare_own(rt, &named.cell, &mut self.pass, pass);
    }
}

impl<B: Origin> Own<B> {
    /// The actor's number.
    pub fn actor(&self) -> u32
        ensures number { result ≡ self.now.0 }
        ensures within { (B.least ≤ result) × (result < B.most) }
    {
        self.actor
    }

    /// The hasher of what the ticket took and of these bytes behind it, where that of what it took is kept, which goes then.
    pub fn hashed_ahead(&mut self, ticket: u64, bytes: &[u8]) -> Option<Sha256>
        ensures same { self.new ≡ self.old }
        ensures ahead { IfSome result (HoldsAhead ticket self.old.1 bytes.now) }
    {
        let mirror = self.mirror.take()?;
        if mirror.ticket != ticket {
            return None;
        }
        let mut hasher = mirror.hasher;
        hasher.update(bytes);
        Some(hasher)
    }

    /// Keeps the hasher of what the ticket took.
    pub fn keep_hasher(&mut self, ticket: u64, hasher: Sha256)
        requires { HoldsTaken ticket self.old.1 hasher }
        ensures { self.new ≡ self.old }
    {
        self.mirror = Some(Mirror { ticket, hasher });
    }
}
