//! Questions.
ghost use Rattle.std.specs.Prelude.{◌≡◌, IfOk, IfErr};
ghost use Rattle.kinds.specs.declared.refusal.Refusal.TheVariants.{Memory as NoMemory};
ghost use Rattle.inventory_answers.specs.declared.reply.Rows.TheVariants as rows;
ghost use Rattle.steps.specs.Calls.{Call};
ghost use Rattle.pool_restores.specs.Listing.{AsksVolumes, Lists};

use copy_attempts::stopping;
use copy_runs::unlisted;
use inventory_answers::{Answer, Query, Rows, VolumeLine};
use inventory_work::{CopyLine, Listed};
use kinds::Refusal;
use steps::Stepper;

/// The copies that an answer has. An answer to another query has none, and stands for want of memory.
fn copies_of(answer: Answer) -> Result<Listed<CopyLine>, Refusal>
    ensures ok { IfOk result (λ lines. answer.rows ≡ rows.OnVolume lines) }
    ensures err { IfErr result (λ e. e ≡ NoMemory) }
{
    match answer.rows {
        Rows::OnVolume(lines) => Ok(lines),
        other => {
            drop(other);
            Err(Refusal::Memory)
        }
    }
}

/// The volumes that an answer has. An answer to another query has none, and stands for want of memory.
fn volumes_of(answer: Answer) -> Result<Listed<VolumeLine>, Refusal>
    ensures ok { IfOk result (λ lines. answer.rows ≡ rows.Volumes lines) }
    ensures err { IfErr result (λ e. e ≡ NoMemory) }
{
    match answer.rows {
        Rows::Volumes(lines) => Ok(lines),
        other => {
            drop(other);
            Err(Refusal::Memory)
        }
    }
}

/// Asks for the copies on the volume.
pub(crate) fn list<P: Stepper>(p: &mut P, file: u32) -> Result<Listed<CopyLine>, Refusal>
    ensures { Call P.did p.old p.new (λ events. Lists file events result) }
{
    let query = Query::OnVolume { file };
    let answer = p.ask(&query);
    drop(query);
    match answer {
        Ok(answer) => copies_of(answer),
        Err(refusal) => Err(unlisted(refusal)),
    }
}

/// Asks for all volumes.
pub(crate) fn ask_volumes<P: Stepper>(p: &mut P) -> Result<Listed<VolumeLine>, Refusal>
    ensures { Call P.did p.old p.new (λ events. AsksVolumes events result) }
{
    let query = Query::Volumes {
        volume: None,
        pool: None,
    };
    let answer = p.ask(&query);
    drop(query);
    match answer {
        Ok(answer) => volumes_of(answer),
        Err(refusal) => Err(stopping(refusal)),
    }
}
