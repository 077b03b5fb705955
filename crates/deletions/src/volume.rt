//! The deletion of a volume.
ghost use Rattle.std.specs.Prelude.{◌≡◌, true, false, IfOk, IfErr};
ghost use Rattle.kinds.specs.declared.refusal.Refusal.TheVariants.{Memory as NoMemory};
ghost use Rattle.inventory_answers.specs.declared.reply.Rows.TheVariants as rows;
ghost use Rattle.steps.specs.Calls.{Call};
ghost use Rattle.deletions.specs.Volumes.{Clears, Empties, Lists, Takes, TakesFrom, TakesOf, VolumeDeletion, is_copy_kind, kind_of, pool_of};

use crate::copies::{Removed, doomed_by, drop_all};
use crate::lists::discard_all;
use crate::row::{Row, ask, find, remove};
use copy_runs::ask_pools;
use entries::change_items::DiscardReason;
use inventory_answers::{Answer, PoolLine, Query, Rows};
use inventory_work::{CopyLine, Listed};
use kinds::{PoolKind, Refusal};
use std::alloc::Global;
use steps::Stepper;

/// The copies that an answer has. An answer to another query has none, and stands for want of memory.
fn copies_of(answer: Answer) -> Result<Listed<CopyLine>, Refusal>
    ensures ok { IfOk result (λ lines. answer.rows ≡ rows.OnVolume lines) }
    ensures err { IfErr result (λ e. e ≡ NoMemory) }
{
    match answer.rows {
        Rows::OnVolume(lines) => Ok(lines),
        other => {
            drop(other);
            Err(Refusal::Memory)
        }
    }
}

/// Asks for the copies on the volume.
fn list<P: Stepper>(p: &mut P, file: u32) -> Result<Listed<CopyLine>, Refusal>
    ensures { Call P.did p.old p.new (λ events. Lists file events result) }
{
    let query = Query::OnVolume { file };
    let answer = ask(p, &query);
    drop(query);
    match answer {
        Ok(answer) => copies_of(answer),
        Err(refusal) => Err(refusal),
    }
}

/// The number of the pool in which these copies lie, which is that of the first; none where there is no copy.
fn pool_of(lines: &[CopyLine]) -> Option<u32>
    ensures { result ≡ pool_of lines.now }
{
    match lines.first() {
        Some(line) => Some(line.pool),
        None => None,
    }
}

/// What the pool with this number is for, where it is among these.
fn kind_of(lines: &[PoolLine], pool: u32) -> Option<PoolKind>
    ensures { result ≡ kind_of pool lines.now }
{
    match lines.iter().find(|line| line.number == pool) {
        Some(line) => Some(line.kind),
        None => None,
    }
}

/// Whether it is that of a copy pool.
fn is_copy_kind(kind: Option<PoolKind>) -> bool
    ensures { result ≡ is_copy_kind kind }
{
    match kind {
        Some(PoolKind::Copy) => true,
        Some(PoolKind::Primary) => false,
        None => false,
    }
}

/// Discards the objects of these copies, and answers how many went.
fn discard_lines<P: Stepper>(
    alloc: Global,
    p: &mut P,
    file: u32,
    lines: &[CopyLine],
) -> Result<Removed, Refusal>
    ensures { Call P.did p.old p.new (λ events. Takes false file lines.now events result) }
{
    let objects = match doomed_by(alloc, lines) {
        Ok(objects) => objects,
        Err(refusal) => return Err(refusal),
    };
    match discard_all(alloc, p, DiscardReason::Volume { file }, objects.as_slice()) {
        Ok(discarded) => Ok(Removed {
            discarded,
            dropped: 0,
        }),
        Err(refusal) => Err(refusal),
    }
}

/// Takes these copies away: of a copy pool's volume they are dropped, and of another their objects are discarded.
fn take<P: Stepper>(
    alloc: Global,
    p: &mut P,
    file: u32,
    lines: &[CopyLine],
    of_copy_pool: bool,
) -> Result<Removed, Refusal>
    ensures { Call P.did p.old p.new (λ events. Takes of_copy_pool file lines.now events result) }
{
    if of_copy_pool {
        drop_all(alloc, p, file, lines)
    } else {
        discard_lines(alloc, p, file, lines)
    }
}

/// Takes the copies of this pool away.
fn take_from<P: Stepper>(
    alloc: Global,
    p: &mut P,
    file: u32,
    lines: &[CopyLine],
    pool: u32,
) -> Result<Removed, Refusal>
    ensures { Call P.did p.old p.new (λ events. TakesFrom pool file lines.now events result) }
{
    let pools = match ask_pools(p) {
        Ok(pools) => pools,
        Err(refusal) => return Err(refusal),
    };
    let kind = kind_of(pools.as_slice(), pool);
    drop(pools);
    take(alloc, p, file, lines, is_copy_kind(kind))
}

/// Takes these copies away, where there are any.
fn take_lines<P: Stepper>(
    alloc: Global,
    p: &mut P,
    file: u32,
    lines: &[CopyLine],
) -> Result<Removed, Refusal>
    ensures { Call P.did p.old p.new (λ events. TakesOf (pool_of lines.now) file lines.now events result) }
{
    match pool_of(lines) {
        Some(pool) => take_from(alloc, p, file, lines, pool),
        None => Ok(Removed {
            discarded: 0,
            dropped: 0,
        }),
    }
}

/// Takes away what lies on the volume.
fn clear<P: Stepper>(alloc: Global, p: &mut P, file: u32) -> Result<Removed, Refusal>
    ensures { Call P.did p.old p.new (λ events. Clears true file events result) }
{
    match list(p, file) {
        Ok(lines) => take_lines(alloc, p, file, lines.as_slice()),
        Err(refusal) => Err(refusal),
    }
}

/// Takes away what lies on the volume, where that is asked.
fn clear_if<P: Stepper>(
    alloc: Global,
    p: &mut P,
    file: u32,
    discard: bool,
) -> Result<Removed, Refusal>
    ensures { Call P.did p.old p.new (λ events. Clears discard file events result) }
{
    if discard {
        clear(alloc, p, file)
    } else {
        Ok(Removed {
            discarded: 0,
            dropped: 0,
        })
    }
}

/// Deletes the volume with this row, and answers what went with it.
fn delete_row<P: Stepper>(
    alloc: Global,
    p: &mut P,
    file: u32,
    row: &Row,
    discard: bool,
) -> Result<Removed, Refusal>
    ensures { Call P.did p.old p.new (λ events. Empties discard row.now file events result) }
{
    match clear_if(alloc, p, file, discard) {
        Ok(removed) => match remove(p, file, row) {
            Ok(()) => Ok(removed),
            Err(refusal) => Err(refusal),
        },
        Err(refusal) => Err(refusal),
    }
}

/// Deletes the volume with this file number, and answers what went with it: nothing without `discard`. With it each object goes whose copy in a primary pool lies there, and of
/// a copy pool's volume each copy goes, with the object where it is the last one. `NotFound` where the volume isn't there. It passes over an object or a copy that goes
/// meanwhile. `InUse` with an object's number where a copy lies on the volume, without `discard` or since another came there meanwhile. While a ticket has space there
/// it waits. It ends with `InventoryFull`, `LogFault`, `RunFull` or `Memory` where a step of its own answers so, and with `Busy` where a step of its own and then `wait` answer
/// so; what went until then stays so.
pub fn delete_volume<P: Stepper>(
    alloc: Global,
    p: &mut P,
    file: u32,
    discard: bool,
) -> Result<Removed, Refusal>
    ensures { Call P.did p.old p.new (λ events. VolumeDeletion discard file events result) }
{
    match find(p, file) {
        Ok(row) => {
            let result = delete_row(alloc, p, file, &row, discard);
            drop(row);
            result
        }
        Err(refusal) => Err(refusal),
    }
}
