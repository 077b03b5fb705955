//! Old backups are taken off the list.
ghost use Rattle.std.specs.Prelude.{◌≡◌, ◌≤◌, IfOk};
ghost use Rattle.steps.specs.Calls.{Call};
ghost use Rattle.db_backup.specs.Deleting.{Deletes, Ends, HistoryDeletion, Tries, outcome};

use crate::listing::{due_files, list};
use copy_attempts::stopping;
use copy_runs::finish;
use entries::Change;
use kinds::{Day, Refusal};
use sessions::join;
use std::alloc::Global;
use steps::{Asked, Stepper};

/// How many backups were taken off the list where the transaction of one was so answered: none where that one isn't on it any more.
fn outcome(answer: Result<u64, Refusal>) -> Result<u64, Refusal>
    ensures is { result ≡ outcome answer }
    ensures few { IfOk result (λ count. count ≤ 1) }
{
    match answer {
        Ok(_) => Ok(1),
        Err(refusal) => match refusal.number() {
            10 => Ok(0),
            _ => Err(stopping(refusal)),
        },
    }
}

/// Takes the backup in this file off the list, and answers how many went: none where it isn't on it any more. While an image is being written into it it waits.
fn delete_one<P: Stepper>(p: &mut P, file: u32) -> Result<u64, Refusal>
    ensures tries { Call P.did p.old p.new (λ events. Tries file events result) }
    ensures few { IfOk result (λ count. count ≤ 1) }
{
    let asked = Asked::Plain(Change::DbDelete { file });
    let answer = join(p, &asked);
    drop(asked);
    outcome(answer)
}

/// Takes the backups in these files off the list, one after the other, and answers how many went.
fn delete_all<P: Stepper>(p: &mut P, files: &[u32]) -> Result<u64, Refusal>
    ensures { Call P.did p.old p.new (λ events. Deletes files.now events result) }
{
    let mut count = 0;
    'files: for place in 0..files.len() {
        match delete_one(p, files[place]) {
            Ok(more) => count += more,
            Err(refusal) => return Err(refusal),
        }
    }
    Ok(count)
}

/// Takes these backups off the list, and makes that durable.
fn delete_and_finish<P: Stepper>(p: &mut P, files: &[u32]) -> Result<u64, Refusal>
    ensures { Call P.did p.old p.new (λ events. Ends files.now events result) }
{
    match delete_all(p, files) {
        Ok(count) => match finish(p) {
            Ok(()) => Ok(count),
            Err(refusal) => Err(refusal),
        },
        Err(refusal) => Err(refusal),
    }
}

/// Takes the backups that were taken on or before the day off the list, and answers how many went. The whole one with the greatest number stays, and those that it follows, directly or through others. It
/// passes over one that isn't on the list any more, and waits while an image is being written into one. It ends with `InventoryFull`, `LogFault`, `RunFull` or `Memory` where a step of its own answers so, and
/// with `Busy` where a step of its own and then `wait` answer so; what went until then stays off the list.
pub fn delete_history<P: Stepper>(alloc: Global, p: &mut P, to: Day) -> Result<u64, Refusal>
    ensures { Call P.did p.old p.new (λ events. HistoryDeletion to events result) }
{
    let lines = match list(p) {
        Ok(lines) => lines,
        Err(refusal) => return Err(refusal),
    };
    let files = match due_files(alloc, to, lines.as_slice()) {
        Ok(files) => files,
        Err(refusal) => return Err(refusal),
    };
    drop(lines);
    delete_and_finish(p, files.as_slice())
}
