// What every command asks for.
ghost use Rattle.kinds.specs.Answers.{Answers, AnswersBy};
ghost use Rattle.kinds.specs.declared.refusal.Refusal.TheVariants.{NotFound, BadHierarchy};
ghost use Rattle.kinds.specs.Refusals.{bad_value};
ghost use Rattle.admin_commands.specs.Orders.{needs, work_of};
ghost use Rattle.admin_commands.specs.Own.{IsClosed, Comes, lacks, misfits, breaks_hierarchy};

use crate::classes::{class_needs, class_work};
use crate::database::{database_needs, database_work};
use crate::files::{file_needs, file_work};
use crate::nodes::{node_needs, node_work};
use crate::policy::{policy_needs, policy_work};
use crate::pools::{pool_needs, pool_work};
use crate::volumes::{volume_needs, volume_work};
use crate::work::{Work, run};
use admin_words::Command;
use inventory_answers::{Answer, Query};
use kinds::Refusal;
use std::alloc::Global;

/// The look-ups whose answers `work_of` takes, in their order: at most two. None where the command's own words say already
/// that it is refused. Its one refusal is want of memory.
pub fn needs(alloc: Global, command: &Command) -> Result<Vec<Query>, Refusal>
    ensures { AnswersBy (λ v. v.items) result (needs command.now) }
{
    match command {
        Command::Policy(command) => policy_needs(alloc, command),
        Command::Class(command) => class_needs(alloc, command),
        Command::Node(command) => node_needs(alloc, command),
        Command::Pool(command) => pool_needs(alloc, command),
        Command::Volume(command) => volume_needs(alloc, command),
        Command::File(command) => file_needs(alloc, command),
        Command::Database(command) => database_needs(alloc, command),
        Command::Block(_) => Ok(Vec::new(alloc)),
    }
}

fn work_by_family(alloc: Global, command: &Command, answers: &[Answer]) -> Result<Work, Refusal>
    ensures { Answers result (work_of command.now answers.now) }
{
    match command {
        Command::Policy(command) => policy_work(alloc, command, answers),
        Command::Class(command) => class_work(command, answers),
        Command::Node(command) => node_work(alloc, command, answers),
        Command::Pool(command) => pool_work(alloc, command, answers),
        Command::Volume(command) => volume_work(alloc, command, answers),
        Command::File(command) => file_work(alloc, command, answers),
        Command::Database(command) => database_work(alloc, command, answers),
        Command::Block(_) => Ok(run(alloc)),
    }
}

/// The work of a command, by the answers to the look-ups that `needs` names. `BadValue(0)`: the values of the command don't go
/// together, or with what stands there. `NotFound`: something that it names isn't in the answers. `BadHierarchy`: a pool to be
/// migrated has no next one, or data would move between two pools of which one is a copy pool. What the database itself says of
/// a change isn't asked here.
pub fn work_of(alloc: Global, command: &Command, answers: &[Answer]) -> Result<Work, Refusal>
    ensures value { Answers result (work_of command.now answers.now) }

    // A change leaves the objects, and there is no other refusal than these three and want of memory.
    ensures closed { IsClosed result }

    // Something that the command names isn't in the answers.
    ensures lacking { Comes result NotFound (lacks command.now answers.now) }

    // The values of the command don't go together, or don't go with what stands there.
    ensures misfitting { Comes result bad_value (misfits command.now answers.now) }

    // A pool is to be migrated that has no next one, or data would move between two pools of which one is a copy pool.
    ensures hierarchy { Comes result BadHierarchy (breaks_hierarchy command.now answers.now) }
{
    work_by_family(alloc, command, answers)
}
