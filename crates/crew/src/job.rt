//! What is run in a block, and what comes of it.
ghost use Rattle.std.specs.Prelude.{◌≡◌, List};
ghost use Rattle.steps.specs.Calls.{Call};
ghost use Rattle.crew.specs.Passes.{Worked};

use crate::known::{Origin, Own};
use crate::pass::{Gate, Pass, Shared};
use std::sync::Wait;
use steps::Stepper;
use store_api::Store;

/// What one actor of a block does: a list of commands, or whatever is done by steps.
pub trait Job {
    ghost use Rattle.std.specs.Prelude.{ℕ, List};
    ghost use Rattle.steps.specs.Events.{Event};

    /// What it is to have become this, as the actor with this number, by these events and no others.
    ghost did: { Self → ℕ → List Event → Self → Type 0 };

    /// Does it, as whoever makes steps.
    fn run<P: Stepper>(&mut self, p: &mut P)
        ensures { Call P.did p.old p.new (λ events. did self.old (P.actor_of p.old) events self.new) };
}

/// A job, and the pass of the actor that is to run it.
pub(crate) type Seat<J, B> = (J, Option<Own<B>>);

/// Runs a job as its actor, and passes the gate once more.
pub(crate) fn run_job<J: Job, S: Store, B: Origin, R: Wait, G: Gate>(
    seat: &mut Seat<J, B>,
    shared: &Shared<S, B>,
    rt: &R,
    gate: &G,
)
    ensures { Worked J.did seat.old.0 seat.old.1 seat.new.0 seat.new.1 }
{
    let Some(own) = seat.1.take() else {
        return;
    };
    let mut pass = Pass::new(shared, rt, gate, own);
    pass.begin();
    seat.0.run(&mut pass);
    pass.end();
    pass.pass_gate();
    seat.1 = Some(pass.into_own());
}
