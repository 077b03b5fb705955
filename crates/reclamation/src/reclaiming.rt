//! The process that empties the volumes of a pool that are mostly unused.
ghost use Rattle.std.specs.Prelude.{◌≡◌, ◌⊎◌, ◌≤◌, ◌+◌, ◌-◌, ◌^◌, [], IfOk, IfErr};
ghost use Rattle.std.specs.Option.{option_copied};
ghost use Rattle.kinds.specs.Answers.{AnswersBy};
ghost use Rattle.kinds.specs.declared.refusal.Refusal.TheVariants.{Memory as NoMemory};
ghost use Rattle.inventory_answers.specs.declared.reply.Rows.TheVariants as rows;
ghost use Rattle.steps.specs.Calls.{Call};
ghost use Rattle.reclamation.specs.Reclaiming.{BeginsPool, ChecksPool, Clears, ClearsAll, ListsFiles, ListsThere, Reclamation, Works, absent_by, both_moved, is_disk, is_sequential_in, pool_with};

use crate::asking::copies_of;
use crate::tried::untried;
use copy_attempts::stopping;
use copy_runs::{Moved, ask_pools, copy_all, finish, unlisted};
use inventory_answers::{Answer, PoolLine, Query, Rows};
use inventory_work::{CopyLine, Listed};
use kinds::{Name, Refusal};
use std::alloc::Global;
use std::collections::BTreeSet;
use steps::Stepper;

/// The volumes that an answer has, by their file numbers. An answer to another query has none, and stands for want of memory.
fn files_of(answer: Answer) -> Result<Listed<u32>, Refusal>
    ensures ok { IfOk result (λ files. answer.rows ≡ rows.Eligible files) }
    ensures err { IfErr result (λ e. e ≡ NoMemory) }
{
    match answer.rows {
        Rows::Eligible(files) => Ok(files),
        other => {
            drop(other);
            Err(Refusal::Memory)
        }
    }
}

/// Asks which volumes of the pool are to be emptied.
fn list_files<P: Stepper>(p: &mut P, pool: u32, threshold: u8) -> Result<Listed<u32>, Refusal>
    ensures { Call P.did p.old p.new (λ events. ListsFiles pool threshold events result) }
{
    let query = Query::Eligible { pool, threshold };
    let answer = p.ask(&query);
    drop(query);
    match answer {
        Ok(answer) => files_of(answer),
        Err(refusal) => Err(unlisted(refusal)),
    }
}

/// Whether the volumes of this device class are of random access: it is DISK.
fn is_disk(class: &Name) -> bool
    ensures { result ≡ is_disk class.now }
{
    class.as_bytes() == b"DISK".as_slice()
}

/// The pool with this number, where it is among these.
fn pool_with<'a>(lines: &'a [PoolLine], pool: u32) -> Option<&'a PoolLine>
    ensures { option_copied result ≡ pool_with pool lines.now }
{
    lines.iter().find(|line| line.number == pool)
}

/// Whether the pool with this number is among these, and sequential.
fn is_sequential(lines: &[PoolLine], pool: u32) -> bool
    ensures { result ≡ is_sequential_in pool lines.now }
{
    match pool_with(lines, pool) {
        Some(line) => !is_disk(&line.class),
        None => false,
    }
}

/// Asks whether the pool is sequential.
fn check<P: Stepper>(p: &mut P, pool: u32) -> Result<(), Refusal>
    ensures { Call P.did p.old p.new (λ events. ChecksPool pool events result) }
{
    let lines = match ask_pools(p) {
        Ok(lines) => lines,
        Err(refusal) => return Err(refusal),
    };
    let is_so = is_sequential(lines.as_slice(), pool);
    drop(lines);
    if is_so {
        Ok(())
    } else {
        Err(Refusal::NotFound)
    }
}

/// Asks which volumes are to be emptied.
fn begin<P: Stepper>(p: &mut P, pool: u32, threshold: u8) -> Result<Listed<u32>, Refusal>
    ensures { Call P.did p.old p.new (λ events. BeginsPool pool threshold events result) }
{
    let files = match list_files(p, pool, threshold) {
        Ok(files) => files,
        Err(refusal) => return Err(refusal),
    };
    match check(p, pool) {
        Ok(()) => Ok(files),
        Err(refusal) => Err(refusal),
    }
}

/// The copies on a volume for which the question was so refused: none, where it isn't there.
fn absent_by(alloc: Global, refusal: Refusal) -> Result<Listed<CopyLine>, Refusal>
    ensures { result ≡ absent_by refusal }
{
    match refusal.number() {
        10 => Ok(Listed::from_vec(Vec::new(alloc))),
        _ => Err(stopping(refusal)),
    }
}

/// Asks for the copies on the volume. None lie on one that isn't there any more.
fn list_there<P: Stepper>(alloc: Global, p: &mut P, file: u32) -> Result<Listed<CopyLine>, Refusal>
    ensures { Call P.did p.old p.new (λ events. ListsThere file events result) }
{
    let query = Query::OnVolume { file };
    let answer = p.ask(&query);
    drop(query);
    match answer {
        Ok(answer) => copies_of(answer),
        Err(refusal) => absent_by(alloc, refusal),
    }
}

/// Moves what lies on the volume and wasn't tried to other volumes of the pool.
fn clear<P: Stepper>(
    alloc: Global,
    p: &mut P,
    file: u32,
    pool: u32,
    tried: &mut BTreeSet<(u64, u32, u64)>,
) -> Result<Moved, Refusal>
    ensures { Call P.did p.old p.new (λ events. Clears pool tried.old.keys tried.new.keys file events result) }
{
    let lines = match list_there(alloc, p, file) {
        Ok(lines) => lines,
        Err(refusal) => return Err(refusal),
    };
    match untried(alloc, lines.as_slice(), pool, tried) {
        Ok(wanted) => copy_all(p, wanted.as_slice(), file),
        Err(refusal) => Err(refusal),
    }
}

/// The counts of both. One that is no number of 64 bits, which no memory holds so many of, is want of memory.
fn both_moved(m: Moved, k: Moved) -> Result<Moved, Refusal>
    ensures { AnswersBy (λ s. s) result (both_moved m k) }
{
    let Some(moved) = m.moved.checked_add(k.moved) else {
        return Err(Refusal::Memory);
    };
    let Some(failed) = m.failed.checked_add(k.failed) else {
        return Err(Refusal::Memory);
    };
    Ok(Moved { moved, failed })
}

/// Does so for these volumes, one after the other.
fn clear_each<P: Stepper>(
    alloc: Global,
    p: &mut P,
    files: &[u32],
    pool: u32,
    tried: &mut BTreeSet<(u64, u32, u64)>,
) -> Result<Moved, Refusal>
    ensures { Call P.did p.old p.new (λ events. ClearsAll pool files.now tried.old.keys events result) }
{
    let mut so_far = Moved {
        moved: 0,
        failed: 0,
    };
    'files: for place in 0..files.len() {
        match clear(alloc, p, files[place], pool, tried) {
            Ok(came) => match both_moved(so_far, came) {
                Ok(both) => so_far = both,
                Err(refusal) => return Err(refusal),
            },
            Err(refusal) => return Err(refusal),
        }
    }
    Ok(so_far)
}

/// Moves what lies on these volumes to other volumes of the pool, each copy with the first of them on which it lies.
fn clear_all<P: Stepper>(
    alloc: Global,
    p: &mut P,
    files: &[u32],
    pool: u32,
) -> Result<Moved, Refusal>
    ensures { Call P.did p.old p.new (λ events. ClearsAll pool files.now [] events result) }
{
    let mut tried = BTreeSet::new(alloc);
    let came = clear_each(alloc, p, files, pool, &mut tried);
    drop(tried);
    came
}

/// Does so, and then makes all durable.
fn clear_and_finish<P: Stepper>(
    alloc: Global,
    p: &mut P,
    files: &[u32],
    pool: u32,
) -> Result<Moved, Refusal>
    ensures { Call P.did p.old p.new (λ events. Works pool files.now events result) }
{
    let came = match clear_all(alloc, p, files, pool) {
        Ok(came) => came,
        Err(refusal) => return Err(refusal),
    };
    match finish(p) {
        Ok(()) => Ok(came),
        Err(refusal) => Err(refusal),
    }
}

/// Empties the volumes of a sequential pool that are full and of whose capacity at least `threshold` hundredths are used by no copy, in ascending order of their file numbers: what lies on
/// one moves to other volumes of the pool, without a use of the volume itself. It answers how many copies were moved and for how many objects none could be moved; which volumes are to be
/// emptied is asked once, and a copy that lies on two of them is tried once. It passes over a volume that isn't there any more, over an object that was removed meanwhile, and over one whose
/// copy was moved or dropped. `NotFound` where the pool isn't there or isn't sequential, or where it goes meanwhile. It ends with `InventoryFull`, `LogFault`, `RunFull` or `Memory` where a step
/// of its own answers so, and with `Busy` where a step of its own and then `wait` answer so; what it moved until then stays moved.
pub fn reclaim<P: Stepper>(
    alloc: Global,
    p: &mut P,
    pool: u32,
    threshold: u8,
) -> Result<Moved, Refusal>
    ensures came { Call P.did p.old p.new (λ events. Reclamation pool threshold events result) }
    ensures rise { IfOk result (λ m. (P.refused_of p.old + m.failed ≤ P.refused_of p.new) ⊎ (2 ^ 64 - 1 ≤ P.refused_of p.new)) }
{
    let files = match begin(p, pool, threshold) {
        Ok(files) => files,
        Err(refusal) => return Err(refusal),
    };
    clear_and_finish(alloc, p, files.as_slice(), pool)
}
