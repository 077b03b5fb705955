// What comes behind a command's work.
ghost use Rattle.std.specs.Prelude.{◌≡◌};
ghost use Rattle.steps.specs.Calls.{Call};
ghost use Rattle.command_steps.specs.Behind.{node_behind, pool_behind, volume_behind, file_behind, database_behind, behind, line_reused, with_reused};
ghost use Rattle.command_steps.specs.Doing.{EndsWork, Forcing, Reusing, behind_force, within_run};
ghost use Rattle.command_steps.specs.Reading.{behind_view};

use crate::outcome::Outcome;
use admin_words::Command;
use admin_words::command::{DatabaseCommand, FileCommand, NodeCommand, PoolCommand, VolumeCommand};
use kinds::Refusal;
use reports::Shown;
use reuse_delay::reuse_ready;
use steps::Stepper;

/// What comes behind a command's work.
#[derive(Clone, Copy)]
pub(crate) enum Behind {
    /// Nothing.
    NoMore,
    /// All is made durable, whatever came of the work.
    Forces,
    /// Where the work was done, emptied volumes whose reuse delay is over are reused; and then all is made durable.
    Reuses,
}

fn node_behind(command: &NodeCommand) -> Behind
    ensures { behind_view result ≡ node_behind command.now }
{
    match command {
        NodeCommand::DeleteFilespace(_) => Behind::Reuses,
        _ => Behind::NoMore,
    }
}

fn pool_behind(command: &PoolCommand) -> Behind
    ensures { behind_view result ≡ pool_behind command.now }
{
    match command {
        PoolCommand::BackupPool(_) => Behind::Forces,
        PoolCommand::MigrateAll
        | PoolCommand::MigratePool(_)
        | PoolCommand::ReclaimPool(_)
        | PoolCommand::RestorePool(_) => Behind::Reuses,
        _ => Behind::NoMore,
    }
}

fn volume_behind(command: &VolumeCommand) -> Behind
    ensures { behind_view result ≡ volume_behind command.now }
{
    match command {
        VolumeCommand::AuditVolume(_) => Behind::Forces,
        VolumeCommand::DeleteVolume(it) => {
            if it.discard_data {
                Behind::Forces
            } else {
                Behind::NoMore
            }
        }
        VolumeCommand::MoveData(_)
        | VolumeCommand::RestoreVolume(_)
        | VolumeCommand::ReuseVolumes => Behind::Reuses,
        _ => Behind::NoMore,
    }
}

fn file_behind(command: &FileCommand) -> Behind
    ensures { behind_view result ≡ file_behind command.now }
{
    match command {
        FileCommand::Incremental(_) => Behind::Forces,
        _ => Behind::NoMore,
    }
}

fn database_behind(command: &DatabaseCommand) -> Behind
    ensures { behind_view result ≡ database_behind command.now }
{
    match command {
        DatabaseCommand::BackupDatabase(_) | DatabaseCommand::DeleteHistory(_) => Behind::Forces,
        DatabaseCommand::Day(_) | DatabaseCommand::ExpireInventory => Behind::Reuses,
        _ => Behind::NoMore,
    }
}

/// What comes behind a command's work.
pub(crate) fn behind_of(command: &Command) -> Behind
    ensures { behind_view result ≡ behind command.now }
{
    match command {
        Command::Node(it) => node_behind(it),
        Command::Pool(it) => pool_behind(it),
        Command::Volume(it) => volume_behind(it),
        Command::File(it) => file_behind(it),
        Command::Database(it) => database_behind(it),
        _ => Behind::NoMore,
    }
}

/// A last line with how many volumes are used again, where it says so.
fn line_reused(number: u64, line: Shown) -> Shown
    ensures { result ≡ line_reused number line }
{
    match line {
        Shown::Reused { reused: _ } => Shown::Reused { reused: number },
        Shown::Expired { expired, reused: _ } => Shown::Expired {
            expired,
            reused: number,
        },
        Shown::DiscardedFilespace {
            discarded,
            reused: _,
        } => Shown::DiscardedFilespace {
            discarded,
            reused: number,
        },
        Shown::Moved {
            moved,
            failed,
            reused: _,
        } => Shown::Moved {
            moved,
            failed,
            reused: number,
        },
        Shown::RestoredCopies {
            restored,
            failed,
            reused: _,
        } => Shown::RestoredCopies {
            restored,
            failed,
            reused: number,
        },
        other => other,
    }
}

fn with_reused(number: u64, outcome: Outcome) -> Outcome
    ensures { result ≡ with_reused number outcome }
{
    match outcome {
        Outcome::Said(line) => Outcome::Said(line_reused(number, line)),
        other => other,
    }
}

/// Reuses emptied volumes whose delay is over, behind work that came to this.
fn reuse_behind<P: Stepper>(p: &mut P, said: Result<Outcome, Refusal>) -> Result<Outcome, Refusal>
    ensures { Call P.did p.old p.new (λ events. Reusing said events result) }
{
    match said {
        Ok(outcome) => match reuse_ready(p) {
            Ok(number) => Ok(with_reused(number, outcome)),
            Err(refusal) => {
                drop(outcome);
                Err(refusal)
            }
        },
        Err(refusal) => Err(refusal),
    }
}

/// What is answered behind a force that was made. A run that ended can't be forced: what says that it did stands for want of memory.
fn within_run(said: Result<Outcome, Refusal>) -> Result<Outcome, Refusal>
    ensures { result ≡ within_run said }
{
    match said {
        Err(Refusal::LogFault { file: _, count: _ } | Refusal::RunFull) => Err(Refusal::Memory),
        other => other,
    }
}

/// What is answered, where all came to this and the force behind it was answered so.
fn behind_force(
    said: Result<Outcome, Refusal>,
    forced: Result<u64, Refusal>,
) -> Result<Outcome, Refusal>
    ensures { result ≡ behind_force said forced }
{
    match forced {
        Ok(_) => within_run(said),
        Err(refusal) => {
            drop(said);
            Err(refusal)
        }
    }
}

/// Makes all durable, behind work that came to this.
fn force_behind<P: Stepper>(p: &mut P, said: Result<Outcome, Refusal>) -> Result<Outcome, Refusal>
    ensures { Call P.did p.old p.new (λ events. Forcing said events result) }
{
    let forced = p.force();
    behind_force(said, forced)
}

/// Does what comes behind a command's work, which came to this.
pub(crate) fn end_work<P: Stepper>(
    p: &mut P,
    behind: Behind,
    said: Result<Outcome, Refusal>,
) -> Result<Outcome, Refusal>
    ensures { Call P.did p.old p.new (λ events. EndsWork (behind_view behind) said events result) }
{
    match behind {
        Behind::NoMore => said,
        Behind::Forces => force_behind(p, said),
        Behind::Reuses => {
            let came = reuse_behind(p, said);
            force_behind(p, came)
        }
    }
}
