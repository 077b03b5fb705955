//! Where copies go that move.
ghost use Rattle.std.specs.Prelude.{◌≡◌, map};
ghost use Rattle.std.specs.Option.{option_copied};
ghost use Rattle.kinds.specs.Answers.{AnswersBy};
ghost use Rattle.reclamation.specs.Moving.{both_primary, goes, goes_from, home_by, home_of, into, moving, pool_called, volume_with};

use copy_pools::kind_of;
use copy_runs::Wanted;
use inventory_answers::{PoolLine, VolumeLine};
use inventory_work::{CopyLine, Listed};
use kinds::{Name, PoolKind, Refusal};
use space::Aim;
use std::alloc::Global;

/// The pool to which a copy in the pool `from` moves: its own where `to` is 0, else that one.
fn into(to: u32, from: u32) -> u32
    ensures { result ≡ into to from }
{
    if to == 0 { from } else { to }
}

/// The copy that is wanted in the place of this one.
pub(crate) fn moving(line: &CopyLine, to: u32) -> Wanted
    ensures { result ≡ moving to line.now }
{
    Wanted {
        object: line.object,
        aim: Aim::Move {
            from: line.pool,
            placed: line.placed,
            to: into(to, line.pool),
            along: false,
        },
        size: line.size,
    }
}

/// The copies that are wanted in the place of these.
pub(crate) fn wanted(alloc: Global, lines: &[CopyLine], to: u32) -> Result<Listed<Wanted>, Refusal>
    ensures { AnswersBy (λ w. w) result (map (moving to) lines.now) }
{
    let mut wanted = Vec::new(alloc);
    'lines: for line in lines {
        wanted.push(moving(line, to))?;
    }
    Ok(Listed::from_vec(wanted))
}

/// The volume with this file number, where it is among these.
fn volume_with<'a>(lines: &'a [VolumeLine], file: u32) -> Option<&'a VolumeLine>
    ensures { option_copied result ≡ volume_with file lines.now }
{
    lines.iter().find(|line| line.file == file)
}

/// The number of the pool with this name, and what it is for, where it is among these.
fn pool_called(lines: &[PoolLine], name: &Name) -> Option<(u32, PoolKind)>
    ensures { result ≡ pool_called name.now lines.now }
{
    match lines.iter().find(|line| line.name == *name) {
        Some(line) => Some((line.number, line.kind)),
        None => None,
    }
}

/// The pool of this volume, where it is among these.
fn home_by(pools: &[PoolLine], line: &VolumeLine) -> Option<(u32, PoolKind)>
    ensures { result ≡ home_by pools.now line.now }
{
    match &line.pool {
        Some(name) => pool_called(pools, name),
        None => None,
    }
}

/// The pool of the volume with this file number, where both are among these.
fn home_of(volumes: &[VolumeLine], pools: &[PoolLine], file: u32) -> Option<(u32, PoolKind)>
    ensures { result ≡ home_of file volumes.now pools.now }
{
    match volume_with(volumes, file) {
        Some(line) => home_by(pools, line),
        None => None,
    }
}

/// Whether what lies in a pool for the one may move to another one for the other: both have to be primary. `NotFound` where that one isn't there, and else
/// `BadHierarchy`.
fn both_primary(from: PoolKind, to: Option<PoolKind>) -> Result<(), Refusal>
    ensures { result ≡ both_primary from to }
{
    match to {
        None => Err(Refusal::NotFound),
        Some(PoolKind::Primary) => match from {
            PoolKind::Primary => Ok(()),
            PoolKind::Copy => Err(Refusal::BadHierarchy),
        },
        Some(PoolKind::Copy) => Err(Refusal::BadHierarchy),
    }
}

/// Whether what lies in the one pool may move to the other one.
fn goes_from(home: Option<(u32, PoolKind)>, pools: &[PoolLine], to: u32) -> Result<(), Refusal>
    ensures { result ≡ goes_from to home pools.now }
{
    match home {
        Some((number, kind)) => {
            if number == to {
                Ok(())
            } else {
                both_primary(kind, kind_of(pools, to))
            }
        }
        None => Err(Refusal::NotFound),
    }
}

/// Whether what lies on a volume may move to the pool. `NotFound` where the volume or the pool isn't among these, and `BadHierarchy` where the pool is another
/// than the volume's and one of the two is a copy pool.
pub(crate) fn goes(
    volumes: &[VolumeLine],
    pools: &[PoolLine],
    file: u32,
    to: u32,
) -> Result<(), Refusal>
    ensures { result ≡ goes file to volumes.now pools.now }
{
    goes_from(home_of(volumes, pools, file), pools, to)
}
