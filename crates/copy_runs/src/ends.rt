//! How such a process begins and ends.
ghost use Rattle.std.specs.Prelude.{◌≡◌, IfOk, IfErr};
ghost use Rattle.kinds.specs.declared.refusal.Refusal.TheVariants.{Memory as NoMemory};
ghost use Rattle.inventory_answers.specs.declared.reply.Rows.TheVariants as rows;
ghost use Rattle.steps.specs.Calls.{Call};
ghost use Rattle.copy_runs.specs.Ends.{AsksPools, AsksToday, Finishes, unlisted};
ghost use Rattle.copy_runs.specs.Processes.{Completes};

use crate::run::copy_all;
use crate::wanted::{Moved, Wanted};
use copy_attempts::stopping;
use inventory_answers::{Answer, PoolLine, Query, Rows};
use inventory_work::Listed;
use kinds::Refusal;
use steps::Stepper;

/// The storage pools that an answer has. An answer to another query has none, and stands for want of memory.
fn pools_of(answer: Answer) -> Result<Listed<PoolLine>, Refusal>
    ensures ok { IfOk result (λ lines. answer.rows ≡ rows.Pools lines) }
    ensures err { IfErr result (λ e. e ≡ NoMemory) }
{
    match answer.rows {
        Rows::Pools(lines) => Ok(lines),
        other => {
            drop(other);
            Err(Refusal::Memory)
        }
    }
}

/// Asks for all storage pools.
pub fn ask_pools<P: Stepper>(p: &mut P) -> Result<Listed<PoolLine>, Refusal>
    ensures { Call P.did p.old p.new (λ events. AsksPools events result) }
{
    let query = Query::Pools { pool: None };
    let answer = p.ask(&query);
    drop(query);
    match answer {
        Ok(answer) => pools_of(answer),
        Err(refusal) => Err(stopping(refusal)),
    }
}

/// Asks for the number of the last transaction.
fn ask_today<P: Stepper>(p: &mut P) -> Result<(), Refusal>
    ensures { Call P.did p.old p.new (λ events. AsksToday events result) }
{
    let query = Query::Today;
    let answer = p.ask(&query);
    drop(query);
    match answer {
        Ok(answer) => {
            drop(answer);
            Ok(())
        }
        Err(refusal) => Err(stopping(refusal)),
    }
}

/// Makes all durable, and asks for the number of the last transaction.
pub fn finish<P: Stepper>(p: &mut P) -> Result<(), Refusal>
    ensures { Call P.did p.old p.new (λ events. Finishes events result) }
{
    match p.force() {
        Ok(_) => ask_today(p),
        Err(refusal) => Err(stopping(refusal)),
    }
}

/// The refusal with which a process ends where its list was refused so: what it names isn't there, or what ends any process.
pub fn unlisted(refusal: Refusal) -> Refusal
    ensures { result ≡ unlisted refusal }
{
    match refusal.number() {
        10 => refusal,
        _ => stopping(refusal),
    }
}

/// Makes these copies as `copy_all` does, and then makes all durable.
pub fn copy_and_finish<P: Stepper>(
    p: &mut P,
    wanted: &[Wanted],
    avoid: u32,
) -> Result<Moved, Refusal>
    ensures { Call P.did p.old p.new (λ events. Completes wanted.now avoid events result) }
{
    let moved = match copy_all(p, wanted, avoid) {
        Ok(moved) => moved,
        Err(refusal) => return Err(refusal),
    };
    match finish(p) {
        Ok(()) => Ok(moved),
        Err(refusal) => Err(refusal),
    }
}
