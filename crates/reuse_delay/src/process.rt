//! The process.
ghost use Rattle.std.specs.Prelude.{◌≡◌, ◌≤◌, ◌∷◌, [], IfOk, IfErr};
ghost use Rattle.kinds.specs.declared.refusal.Refusal.TheVariants.{Memory as NoMemory};
ghost use Rattle.inventory_answers.specs.declared.reply.Rows.TheVariants as rows;
ghost use Rattle.steps.specs.Calls.{Call};
ghost use Rattle.copy_runs.specs.Ends.{AsksToday};
ghost use Rattle.reuse_delay.specs.Reusing.{Handles, Lists, Tries, VolumeReuse};

use crate::tried::{Tried, outcome};
use copy_attempts::stopping;
use inventory_answers::{Answer, Query, Rows};
use inventory_work::Listed;
use kinds::Refusal;
use steps::Stepper;

/// Tries once to reuse a volume.
fn try_once<P: Stepper>(p: &mut P, file: u32) -> Result<Tried, Refusal>
    ensures { Call P.did p.old p.new (λ events. Tries file events result) }
{
    outcome(p.reuse(file))
}

/// Reuses a volume, and answers how many were reused: none where it may not be reused any more. Where something is held it waits and tries again.
fn reuse_one<P: Stepper>(p: &mut P, file: u32) -> Result<u64, Refusal>
    ensures works { Call P.did p.old p.new (λ events. Handles (file ∷ []) events result) }
    ensures few { IfOk result (λ count. count ≤ 1) }
{
    let mut tries = 0;
    'tries: while tries < u64::MAX {
        match try_once(p, file) {
            Ok(Tried::Reused) => return Ok(1),
            Ok(Tried::Passed) => return Ok(0),
            Ok(Tried::Held(holder)) => match p.wait(holder) {
                Ok(()) => tries += 1,
                Err(refusal) => return Err(stopping(refusal)),
            },
            Err(refusal) => return Err(refusal),
        }
    }
    Err(Refusal::Memory)
}

/// Reuses these volumes, one after the other, and answers how many were reused.
fn reuse_all<P: Stepper>(p: &mut P, files: &[u32]) -> Result<u64, Refusal>
    ensures { Call P.did p.old p.new (λ events. Handles files.now events result) }
{
    let mut count = 0;
    'files: for place in 0..files.len() {
        match reuse_one(p, files[place]) {
            Ok(more) => count += more,
            Err(refusal) => return Err(refusal),
        }
    }
    Ok(count)
}

/// The volumes that an answer has. An answer to another query has none, and stands for want of memory.
fn files_of(answer: Answer) -> Result<Listed<u32>, Refusal>
    ensures ok { IfOk result (λ files. answer.rows ≡ rows.Emptied files) }
    ensures err { IfErr result (λ e. e ≡ NoMemory) }
{
    match answer.rows {
        Rows::Emptied(files) => Ok(files),
        other => {
            drop(other);
            Err(Refusal::Memory)
        }
    }
}

/// Asks which volumes may be reused today.
fn list<P: Stepper>(p: &mut P) -> Result<Listed<u32>, Refusal>
    ensures { Call P.did p.old p.new (λ events. Lists events result) }
{
    let query = Query::Emptied;
    let answer = p.ask(&query);
    drop(query);
    match answer {
        Ok(answer) => files_of(answer),
        Err(refusal) => Err(stopping(refusal)),
    }
}

/// Asks for the number of the last transaction.
fn ask_today<P: Stepper>(p: &mut P) -> Result<(), Refusal>
    ensures { Call P.did p.old p.new (λ events. AsksToday events result) }
{
    let query = Query::Today;
    let answer = p.ask(&query);
    drop(query);
    match answer {
        Ok(answer) => {
            drop(answer);
            Ok(())
        }
        Err(refusal) => Err(stopping(refusal)),
    }
}

/// Reuses the emptied sequential volumes whose reuse delay is over, in ascending order of their file numbers, and answers how many: a defined volume is written
/// from its start again, and a scratch volume goes. It passes over a volume that may not be reused any more when its turn comes. While a ticket has space on a
/// volume it waits. It ends with `InventoryFull`, `LogFault`, `RunFull` or `Memory` where a step of its own answers so, and with `Busy` where a step of its own and
/// then `wait` answer so; what it reused until then stays so.
pub fn reuse_ready<P: Stepper>(p: &mut P) -> Result<u64, Refusal>
    ensures { Call P.did p.old p.new (λ events. VolumeReuse events result) }
{
    let files = match list(p) {
        Ok(files) => files,
        Err(refusal) => return Err(refusal),
    };
    let count = match reuse_all(p, files.as_slice()) {
        Ok(count) => count,
        Err(refusal) => return Err(refusal),
    };
    match ask_today(p) {
        Ok(()) => Ok(count),
        Err(refusal) => Err(refusal),
    }
}
