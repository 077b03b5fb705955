//! Steps that are ordered of a hall, each with what is given for it.
ghost use Rattle.std.specs.Prelude.{◌≡◌, true};
ghost use Rattle.steps.specs.Events.{is_listed};
ghost use Rattle.hall.specs.Steps.{Goes, Steps};

use hall::Hall;
use hall_turns::image;
use inventory_answers::{Answer, Query};
use kinds::Refusal;
use space::Aim;
use steps::{Asked, ImageKind, ImageReply};
use store_api::Store;

/// A step but a read, which has a buffer of its caller's: what is given for it, as a value.
pub(crate) trait Order<A> {
    ghost use Rattle.std.specs.Prelude.{◌≡◌, Result};
    ghost use Rattle.kinds.specs.declared.refusal.Refusal.{Refusal};
    ghost use Rattle.steps.specs.Events.{Deed, refusal, refusal_in};

    /// What has to hold of what is given.
    ghost fits: { Self → Type 0 };

    /// The step with its reply.
    ghost deed: { Self → Result A Refusal → Deed };

    /// Makes the step on a hall.
    fn make<S: Store>(&self, hall: &mut Hall<S>, actor: u32) -> Result<A, Refusal>
        requires { fits self.now }
        ensures step { Steps S.told S.moment_of S.faults_of actor (deed self.now result) hall.old hall.new }
        ensures listed { is_listed (deed self.now result) ≡ true }
        ensures goes { Goes S.told hall.old hall.new };

    /// Whether it may free what others wait for, where it is answered.
    fn frees(&self) -> bool {
        true
    }

    /// Why it was refused is what its reply says.
    ghost answers: { (order : Self) (answer : Result A Refusal) → refusal (deed order answer) ≡ refusal_in answer };
}

/// Space for a new object.
#[derive(Drop)]
pub(crate) struct OpensNew {
    pub(crate) pool: u32,
    pub(crate) size: u64,
    pub(crate) prefer: u32,
}

impl Order<u64> for OpensNew {
    ghost use Rattle.std.specs.Prelude.{refl};
    ghost use Rattle.steps.specs.Events.Deed.{OpenNew};

    ghost fits = { λ o. Unit {0} };

    ghost deed = { λ o answer. OpenNew o.pool o.size o.prefer answer };

    fn make<S: Store>(&self, hall: &mut Hall<S>, actor: u32) -> Result<u64, Refusal> {
        hall.open_new(actor, self.pool, self.size, self.prefer)
    }

    fn frees(&self) -> bool {
        false
    }

    ghost answers = { λ o answer. refl };
}

/// Space for a copy.
#[derive(Drop)]
pub(crate) struct OpensCopy {
    pub(crate) object: u64,
    pub(crate) aim: Aim,
    pub(crate) avoid: u32,
}

impl Order<u64> for OpensCopy {
    ghost use Rattle.std.specs.Prelude.{refl};
    ghost use Rattle.steps.specs.Events.Deed.{OpenCopy};

    ghost fits = { λ o. Unit {0} };

    ghost deed = { λ o answer. OpenCopy o.object o.aim o.avoid answer };

    fn make<S: Store>(&self, hall: &mut Hall<S>, actor: u32) -> Result<u64, Refusal> {
        hall.open_copy(actor, self.object, self.aim, self.avoid)
    }

    fn frees(&self) -> bool {
        false
    }

    ghost answers = { λ o answer. refl };
}

/// The next bytes of a new object.
#[derive(Drop)]
pub(crate) struct Writes<'a> {
    pub(crate) ticket: u64,
    pub(crate) bytes: &'a [u8],
}

impl Order<u64> for Writes<'_> {
    ghost use Rattle.std.specs.Prelude.{◌≤◌, ◌^◌, length, refl};
    ghost use Rattle.steps.specs.Events.Deed.{WritePiece};

    ghost fits = { λ o. (1 ≤ length o.bytes.now) × (length o.bytes.now ≤ 2 ^ 16) };

    ghost deed = { λ o answer. WritePiece o.ticket o.bytes.now answer };

    fn make<S: Store>(&self, hall: &mut Hall<S>, actor: u32) -> Result<u64, Refusal> {
        hall.write_piece(actor, self.ticket, self.bytes)
    }

    fn frees(&self) -> bool {
        false
    }

    ghost answers = { λ o answer. refl };
}

/// The next bytes of a copy.
#[derive(Drop)]
pub(crate) struct Copies {
    pub(crate) ticket: u64,
}

impl Order<u64> for Copies {
    ghost use Rattle.std.specs.Prelude.{refl};
    ghost use Rattle.steps.specs.Events.Deed.{CopyPiece};

    ghost fits = { λ o. Unit {0} };

    ghost deed = { λ o answer. CopyPiece o.ticket answer };

    fn make<S: Store>(&self, hall: &mut Hall<S>, actor: u32) -> Result<u64, Refusal> {
        hall.copy_piece(actor, self.ticket)
    }

    fn frees(&self) -> bool {
        false
    }

    ghost answers = { λ o answer. refl };
}

/// What a ticket took is made durable.
#[derive(Drop)]
pub(crate) struct Seals {
    pub(crate) ticket: u64,
}

impl Order<()> for Seals {
    ghost use Rattle.std.specs.Prelude.{refl};
    ghost use Rattle.steps.specs.Events.Deed.{Seal};

    ghost fits = { λ o. Unit {0} };

    ghost deed = { λ o answer. Seal o.ticket answer };

    fn make<S: Store>(&self, hall: &mut Hall<S>, actor: u32) -> Result<(), Refusal> {
        hall.seal(actor, self.ticket)
    }

    fn frees(&self) -> bool {
        false
    }

    ghost answers = { λ o answer. refl };
}

/// One transaction.
#[derive(Drop)]
pub(crate) struct Commits<'a> {
    pub(crate) asked: &'a Asked,
    pub(crate) tickets: &'a [u64],
}

impl Order<u64> for Commits<'_> {
    ghost use Rattle.std.specs.Prelude.{refl};
    ghost use Rattle.steps.specs.Events.Deed.{Commit};

    ghost fits = { λ o. Unit {0} };

    ghost deed = { λ o answer. Commit o.asked.now o.tickets.now answer };

    fn make<S: Store>(&self, hall: &mut Hall<S>, actor: u32) -> Result<u64, Refusal> {
        hall.commit(actor, self.asked, self.tickets)
    }

    ghost answers = { λ o answer. refl };
}

/// A ticket's space is given back.
#[derive(Drop)]
pub(crate) struct Drops {
    pub(crate) ticket: u64,
}

impl Order<()> for Drops {
    ghost use Rattle.std.specs.Prelude.{refl};
    ghost use Rattle.steps.specs.Events.Deed.{DropTicket};

    ghost fits = { λ o. Unit {0} };

    ghost deed = { λ o answer. DropTicket o.ticket answer };

    fn make<S: Store>(&self, hall: &mut Hall<S>, actor: u32) -> Result<(), Refusal> {
        hall.drop_ticket(actor, self.ticket)
    }

    ghost answers = { λ o answer. refl };
}

/// A query.
#[derive(Drop)]
pub(crate) struct Asks<'a> {
    pub(crate) query: &'a Query,
}

impl Order<Answer> for Asks<'_> {
    ghost use Rattle.std.specs.Prelude.{refl};
    ghost use Rattle.steps.specs.Events.Deed.{Ask};

    ghost fits = { λ o. Unit {0} };

    ghost deed = { λ o answer. Ask o.query.now answer };

    fn make<S: Store>(&self, hall: &mut Hall<S>, actor: u32) -> Result<Answer, Refusal> {
        hall.ask(actor, self.query)
    }

    fn frees(&self) -> bool {
        false
    }

    ghost answers = { λ o answer. refl };
}

/// An image begins or goes on.
#[derive(Drop)]
pub(crate) struct Images {
    pub(crate) kind: ImageKind,
}

impl Order<ImageReply> for Images {
    ghost use Rattle.std.specs.Prelude.{refl};
    ghost use Rattle.steps.specs.Events.Deed.{Image};

    ghost fits = { λ o. Unit {0} };

    ghost deed = { λ o answer. Image o.kind answer };

    fn make<S: Store>(&self, hall: &mut Hall<S>, actor: u32) -> Result<ImageReply, Refusal> {
        image(hall, actor, self.kind)
    }

    ghost answers = { λ o answer. refl };
}

/// An emptied volume may be written again.
#[derive(Drop)]
pub(crate) struct Reuses {
    pub(crate) file: u32,
}

impl Order<u64> for Reuses {
    ghost use Rattle.std.specs.Prelude.{refl};
    ghost use Rattle.steps.specs.Events.Deed.{Reuse};

    ghost fits = { λ o. Unit {0} };

    ghost deed = { λ o answer. Reuse o.file answer };

    fn make<S: Store>(&self, hall: &mut Hall<S>, actor: u32) -> Result<u64, Refusal> {
        hall.reuse(actor, self.file)
    }

    ghost answers = { λ o answer. refl };
}

/// All is made durable.
#[derive(Drop)]
pub(crate) struct Forces;

impl Order<u64> for Forces {
    ghost use Rattle.std.specs.Prelude.{refl};
    ghost use Rattle.steps.specs.Events.Deed.{Force};

    ghost fits = { λ o. Unit {0} };

    ghost deed = { λ o answer. Force answer };

    fn make<S: Store>(&self, hall: &mut Hall<S>, actor: u32) -> Result<u64, Refusal> {
        hall.force(actor)
    }

    ghost answers = { λ o answer. refl };
}
