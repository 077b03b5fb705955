//! Turns of actors on a hall, with stops of the machine between them.
ghost use Rattle.std.specs.Prelude.{◌≡◌, ◌++◌, ◌∷◌, [], ℕ, List, IfErr, IfOk, IfSome};
ghost use Rattle.vault.specs.Openings.{SaysNothing};
ghost use Rattle.steps.specs.declared.step.Reply.{Reply as Replied};
ghost use Rattle.machine.specs.State.{Machine};
ghost use Rattle.hall.specs.Good.{Is};
ghost use Rattle.hall.specs.Held.{Hall as Whole};
ghost use Rattle.hall.specs.Opening.{IsSound};
ghost use Rattle.hall.specs.Plays.{Plays};
ghost use Rattle.hall.specs.Steps.{Answers, IsTrusted};
ghost use Rattle.hall_turns.specs.Runs.{AreSafe, HasOwnBackups, PlaysFrom, RunsFrom};

use crate::stepping::step;
use hall::laws::{trusted_halls_are_safe, turns_are_exact};
use hall::{Closed, Hall, Turn};
use kinds::OpenRefused;
use std::alloc::Global;
use steps::{Reply, Step};
use store_api::{Stop, Store};

/// What came of turns: the store behind them, and the reply to each step, oldest first.
#[derive(Drop)]
pub struct Played<S: Store> {
    pub store: S,
    pub replies: Vec<Reply>,
}

/// The store of a hall that is used no more.
fn into_store<S: Store>(hall: Hall<S>) -> S
    ensures { result ≡ hall.store }
{
    let Closed { store, .. } = hall.close();
    store
}

/// Makes a step, and notes its reply. Where there is no memory for that the store is left.
fn make<S: Store>(
    alloc: Global,
    hall: Hall<S>,
    actor: u32,
    asked: &Step,
    replies: &mut Vec<Reply>,
) -> Result<Hall<S>, (S, OpenRefused)>
    ensures ok { IfOk result (λ next. (reply : Replied) × (replies.new.items ≡ replies.old.items ++ reply ∷ []) × Answers S.told S.moment_of S.faults_of actor asked.now reply hall next) }
    ensures memory { IfErr result (λ e. SaysNothing e.1) }
{
    let mut hall = hall;
    let reply = step(alloc, &mut hall, actor, asked);
    match replies.push(reply) {
        Ok(()) => Ok(hall),
        Err(_) => Err((into_store(hall), OpenRefused::Memory)),
    }
}

/// Plays one turn.
fn take_turn<S: Store + Stop>(
    alloc: Global,
    hall: Hall<S>,
    turn: &Turn,
    replies: &mut Vec<Reply>,
) -> Result<Hall<S>, (S, OpenRefused)>
    ensures ok { IfOk result (λ next. (more : List Replied) × (replies.new.items ≡ replies.old.items ++ more) × Plays S.told S.moment_of S.faults_of (turn.now ∷ []) more hall next) }
    ensures sound { IfErr result (λ e. (m : Machine) → Is S.told S.moment_of S.faults_of hall m → IsTrusted (S.told hall.store) hall.held → SaysNothing e.1) }
{
    trusted_halls_are_safe::<S>();
    match turn {
        Turn::Do { actor, step } => make(alloc, hall, *actor, step, replies),
        Turn::Stop { choice } => Hall::open(alloc, into_store(hall).stop(*choice)),
    }
}

/// Opens a hall over the store, and plays turns on it, one after the other. A stop of the machine is followed by an opening over what it left. Refused as `Hall::open` is, at the start or behind a
/// stop, but over a sound store never as not formatted or damaged; `Memory` may come at any turn. Then the store is left as it is by then. Over a sound store the turns are a run of the machine in
/// which every byte is exact, and between any two of them each image of each moment since the hall was opened is safe.
pub fn play<S: Store + Stop>(
    alloc: Global,
    store: S,
    turns: &[Turn],
) -> Result<Played<S>, (S, OpenRefused)>
    ensures plays { IfOk result (λ played. (last : Whole S) × PlaysFrom S.told S.moment_of S.faults_of store turns.now played.replies.items last × (played.store ≡ last.store)) }
    ensures exact { IfOk result (λ played. IfSome (S.told store) (λ h. (contents : ℕ → List ℕ) → IsSound contents h → (last : Whole S)
        × RunsFrom S.told S.moment_of S.faults_of store contents turns.now played.replies.items last × AreSafe S.told S.moment_of S.faults_of (HasOwnBackups h) store turns.now played.replies.items last × (played.store ≡ last.store))) }
    ensures sound { IfErr result (λ e. IfSome (S.told store) (λ h. (contents : ℕ → List ℕ) → IsSound contents h → SaysNothing e.1)) }
{
    turns_are_exact::<S>();
    trusted_halls_are_safe::<S>();
    let mut hall = match Hall::open(alloc, store) {
        Ok(hall) => hall,
        Err(refused) => return Err(refused),
    };
    let mut replies = Vec::new(alloc);
    'turns: for turn in turns {
        hall = match take_turn(alloc, hall, turn, &mut replies) {
            Ok(next) => next,
            Err(refused) => return Err(refused),
        };
    }
    Ok(Played {
        store: into_store(hall),
        replies,
    })
}
