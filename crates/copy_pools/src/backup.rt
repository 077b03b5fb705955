//! The process that copies a primary pool.
ghost use Rattle.std.specs.Prelude.{◌≡◌, ◌⊎◌, ◌≤◌, ◌+◌, ◌-◌, ◌^◌, map, IfOk, IfErr};
ghost use Rattle.kinds.specs.Answers.{AnswersBy};
ghost use Rattle.kinds.specs.declared.refusal.Refusal.TheVariants.{Memory as NoMemory};
ghost use Rattle.inventory_answers.specs.declared.reply.Rows.TheVariants as rows;
ghost use Rattle.steps.specs.Calls.{Call};
ghost use Rattle.copy_pools.specs.Backups.{Backup, Begins, Checks, Lists, are_kinds, further, kind_of};

use copy_runs::{Moved, Wanted, ask_pools, copy_and_finish, unlisted};
use inventory_answers::{Answer, PoolLine, Query, Rows};
use inventory_work::{Listed, MissingLine};
use kinds::{PoolKind, Refusal};
use space::Aim;
use std::alloc::Global;
use steps::Stepper;

/// The objects that an answer has. An answer to another query has none, and stands for want of memory.
fn missing_of(answer: Answer) -> Result<Listed<MissingLine>, Refusal>
    ensures ok { IfOk result (λ lines. answer.rows ≡ rows.Missing lines) }
    ensures err { IfErr result (λ e. e ≡ NoMemory) }
{
    match answer.rows {
        Rows::Missing(lines) => Ok(lines),
        other => {
            drop(other);
            Err(Refusal::Memory)
        }
    }
}

/// Asks which objects with a copy in the one pool have none in the other.
fn list<P: Stepper>(p: &mut P, primary: u32, copy: u32) -> Result<Listed<MissingLine>, Refusal>
    ensures { Call P.did p.old p.new (λ events. Lists primary copy events result) }
{
    let query = Query::Missing { primary, copy };
    let answer = p.ask(&query);
    drop(query);
    match answer {
        Ok(answer) => missing_of(answer),
        Err(refusal) => Err(unlisted(refusal)),
    }
}

/// What a pool is for, where it is among these.
pub fn kind_of(lines: &[PoolLine], pool: u32) -> Option<PoolKind>
    ensures { result ≡ kind_of pool lines.now }
{
    match lines.iter().find(|line| line.number == pool) {
        Some(line) => Some(line.kind),
        None => None,
    }
}

/// Whether the one is that of a primary pool and the other that of a copy pool.
fn are_kinds(primary: Option<PoolKind>, copy: Option<PoolKind>) -> bool
    ensures { result ≡ are_kinds primary copy }
{
    match (primary, copy) {
        (Some(PoolKind::Primary), Some(PoolKind::Copy)) => true,
        _ => false,
    }
}

/// Asks whether the one pool is a primary one and the other a copy pool.
fn check<P: Stepper>(p: &mut P, primary: u32, copy: u32) -> Result<(), Refusal>
    ensures { Call P.did p.old p.new (λ events. Checks primary copy events result) }
{
    let lines = match ask_pools(p) {
        Ok(lines) => lines,
        Err(refusal) => return Err(refusal),
    };
    let primary_kind = kind_of(lines.as_slice(), primary);
    let copy_kind = kind_of(lines.as_slice(), copy);
    drop(lines);
    if are_kinds(primary_kind, copy_kind) {
        Ok(())
    } else {
        Err(Refusal::NotFound)
    }
}

/// The copies that are wanted for these objects.
fn wanted(alloc: Global, lines: &[MissingLine], copy: u32) -> Result<Listed<Wanted>, Refusal>
    ensures { AnswersBy (λ w. w) result (map (further copy) lines.now) }
{
    let mut wanted = Vec::new(alloc);
    'lines: for line in lines {
        wanted.push(Wanted {
            object: line.object,
            aim: Aim::Copy { to: copy },
            size: line.size,
        })?;
    }
    Ok(Listed::from_vec(wanted))
}

/// Asks which copies are wanted.
fn begin<P: Stepper>(
    alloc: Global,
    p: &mut P,
    primary: u32,
    copy: u32,
) -> Result<Listed<Wanted>, Refusal>
    ensures { Call P.did p.old p.new (λ events. Begins primary copy events result) }
{
    let lines = match list(p, primary, copy) {
        Ok(lines) => lines,
        Err(refusal) => return Err(refusal),
    };
    match check(p, primary, copy) {
        Ok(()) => wanted(alloc, lines.as_slice(), copy),
        Err(refusal) => Err(refusal),
    }
}

/// Copies what a primary pool holds into a copy pool that lacks it, and answers how many copies were made and for how many objects none could be made. It passes
/// over an object that was removed meanwhile. `NotFound` where the one pool isn't a primary one or the other isn't a copy pool, or where the copy pool goes
/// meanwhile. It ends with `InventoryFull`, `LogFault`, `RunFull` or `Memory` where a step of its own answers so, and with `Busy` where a step of its own and then
/// `wait` answer so; what it copied until then stays copied.
pub fn backup_pool<P: Stepper>(
    alloc: Global,
    p: &mut P,
    primary: u32,
    copy: u32,
) -> Result<Moved, Refusal>
    ensures came { Call P.did p.old p.new (λ events. Backup primary copy events result) }
    ensures rise { IfOk result (λ m. (P.refused_of p.old + m.failed ≤ P.refused_of p.new) ⊎ (2 ^ 64 - 1 ≤ P.refused_of p.new)) }
{
    let wanted = match begin(alloc, p, primary, copy) {
        Ok(wanted) => wanted,
        Err(refusal) => return Err(refusal),
    };
    copy_and_finish(p, wanted.as_slice(), 0)
}
