//! Which copies are to be restored.
ghost use Rattle.std.specs.Prelude.{◌≡◌, [], ◌∷◌, ◌++◌, not, OnOk, IfErr};
ghost use Rattle.std.specs.List.{flat_map};
ghost use Rattle.kinds.specs.Answers.{AnswersBy};
ghost use Rattle.kinds.specs.declared.refusal.Refusal.TheVariants.{Memory as NoMemory};
ghost use Rattle.inventory_work.specs.Lists.{only};
ghost use Rattle.steps.specs.Calls.{Call};
ghost use Rattle.pool_restores.specs.Listing.{Adds, AreWanted, Collects, destroyed_file, destroyed_of, is_destroyed, is_of, is_there, is_wanted_of, restoring};

use crate::asking::list;
use copy_runs::Wanted;
use inventory_answers::{PoolLine, VolumeLine};
use inventory_work::{CopyLine, Listed};
use kinds::{Access, Refusal};
use space::Aim;
use std::alloc::Global;
use std::collections::BTreeSet;
use steps::Stepper;

fn is_destroyed(access: Access) -> bool
    ensures { result ≡ is_destroyed access }
{
    match access {
        Access::ReadWrite => false,
        Access::ReadOnly => false,
        Access::Unavailable => false,
        Access::Offsite => false,
        Access::Destroyed => true,
    }
}

/// The files of the volumes on which what they held is lost.
pub(crate) fn destroyed_of(alloc: Global, lines: &[VolumeLine]) -> Result<Vec<u32>, Refusal>
    ensures { AnswersBy (λ files. files.items) result (destroyed_of lines.now) }
{
    let mut files = Vec::new(alloc);
    'lines: for line in lines {
        if is_destroyed(line.access) {
            files.push(line.file)?;
        }
    }
    Ok(files)
}

/// Whether the pool is among these.
pub(crate) fn is_there(lines: &[PoolLine], pool: u32) -> bool
    ensures { result ≡ is_there pool lines.now }
{
    lines.iter().any(|line| line.number == pool)
}

/// The copy that is wanted in the place of one.
fn restoring(line: &CopyLine) -> Wanted
    ensures { result ≡ restoring line.now }
{
    Wanted {
        object: line.object,
        aim: Aim::Move {
            from: line.pool,
            placed: line.placed,
            to: line.pool,
            along: true,
        },
        size: line.size,
    }
}

/// Whether the copy lies in the pool that is to be restored, or any pool is.
fn is_of(pool: Option<u32>, line: &CopyLine) -> bool
    ensures { result ≡ is_of pool line.now }
{
    match pool {
        Some(pool) => line.pool == pool,
        None => true,
    }
}

/// Adds the copy, unless it is wanted already. The set has what is wanted, each copy by its object, its pool, and the transaction that placed it.
fn add_new(
    wanted: &mut Vec<Wanted>,
    known: &mut BTreeSet<(u64, u32, u64)>,
    line: &CopyLine,
) -> Result<(), Refusal>
    requires { AreWanted known.old.keys wanted.old.items }
    ensures adds { OnOk result (wanted.new.items ≡ wanted.old.items ++ only (not (is_wanted_of line.now wanted.old.items)) (restoring line.now)) }
    ensures known { OnOk result (AreWanted known.new.keys wanted.new.items) }
    ensures memory { IfErr result (λ e. e ≡ NoMemory) }
{
    if !known.insert((line.object, line.pool, line.placed))? {
        return Ok(());
    }
    wanted.push(restoring(line))?;
    Ok(())
}

/// Adds the copy, where it is of the pool and isn't wanted yet.
fn add_one(
    wanted: &mut Vec<Wanted>,
    known: &mut BTreeSet<(u64, u32, u64)>,
    pool: Option<u32>,
    line: &CopyLine,
) -> Result<(), Refusal>
    requires { AreWanted known.old.keys wanted.old.items }
    ensures adds { Adds pool (line.now ∷ []) wanted.old.items wanted.new.items result }
    ensures known { OnOk result (AreWanted known.new.keys wanted.new.items) }
{
    if !is_of(pool, line) {
        return Ok(());
    }
    add_new(wanted, known, line)
}

/// Adds these copies, those that are of the pool and aren't wanted yet.
fn add_all(
    wanted: &mut Vec<Wanted>,
    known: &mut BTreeSet<(u64, u32, u64)>,
    pool: Option<u32>,
    lines: &[CopyLine],
) -> Result<(), Refusal>
    requires { AreWanted known.old.keys wanted.old.items }
    ensures adds { Adds pool lines.now wanted.old.items wanted.new.items result }
    ensures known { OnOk result (AreWanted known.new.keys wanted.new.items) }
{
    'lines: for line in lines {
        match add_one(wanted, known, pool, line) {
            Ok(()) => (),
            Err(refusal) => return Err(refusal),
        }
    }
    Ok(())
}

/// Asks for the copies on these volumes, volume after volume, and answers which are wanted with them: those in the pool, where one is named, and each once.
pub(crate) fn collect<P: Stepper>(
    alloc: Global,
    p: &mut P,
    pool: Option<u32>,
    files: &[u32],
) -> Result<Listed<Wanted>, Refusal>
    ensures { Call P.did p.old p.new (λ events. Collects pool files.now events result) }
{
    let mut wanted = Vec::new(alloc);
    let mut known = BTreeSet::new(alloc);
    'files: for place in 0..files.len() {
        let lines = match list(p, files[place]) {
            Ok(lines) => lines,
            Err(refusal) => return Err(refusal),
        };
        match add_all(&mut wanted, &mut known, pool, lines.as_slice()) {
            Ok(()) => (),
            Err(refusal) => return Err(refusal),
        }
    }
    Ok(Listed::from_vec(wanted))
}
