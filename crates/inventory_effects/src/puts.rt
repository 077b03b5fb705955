//! Segments and scratch volumes that come.

ghost use Rattle.std.specs.Prelude.{◌≡◌};
ghost use Rattle.inventory_rows.specs.pool_rows.Segments.{end_at, emptied_at};
ghost use Rattle.inventory_rows.specs.State.{inv_of};
ghost use Rattle.inventory_rules.specs.Common.{each, CanEach};
ghost use Rattle.inventory_rules.specs.Segments.{make_scratch, put, CanPut, CanScratch, put_step};
ghost use Rattle.inventory_effects.specs.Undoing.{Goes};

use crate::undo::{Undo, UndoLog};
use entries::change_items::ScratchVolume;
use inventory_rows::Tables;
use inventory_rows::pool_rows::Pools;
use kinds::{Day, Refusal, Segment};

/// Where the next frame is written on the volume with this file number.
fn end_at(pools: &Pools, file: u32) -> u64
    ensures { result ≡ end_at file pools.now }
{
    match pools.volumes().get(&file) {
        Some(volume) => volume.end,
        None => 0,
    }
}

/// The day on which the volume with this file number was emptied.
fn emptied_at(pools: &Pools, file: u32) -> Option<Day>
    ensures { result ≡ emptied_at file pools.now }
{
    match pools.volumes().get(&file) {
        Some(volume) => volume.emptied,
        None => None,
    }
}

/// A segment of an object comes on its volume.
fn put_one(
    tables: &mut Tables,
    log: &mut UndoLog,
    object: u64,
    segment: &Segment,
) -> Result<(), Refusal>
    requires { CanPut object segment.now (inv_of tables.old) }
    ensures { Goes result log.old (inv_of tables.old) log.new (inv_of tables.new) (put_step object segment.now (inv_of tables.old)) }
{
    log.push(Undo::Segment {
        object,
        segment: *segment,
        end: end_at(&tables.pools, segment.file),
        emptied: emptied_at(&tables.pools, segment.file),
    })?;
    match tables.pools.put_segment(object, segment) {
        Ok(()) => Ok(()),
        Err(refusal) => {
            log.pop();
            Err(refusal)
        }
    }
}

/// The segments of an object come on their volumes, one after the other. Its one refusal is want of memory; what was made by
/// then is in the log.
pub(crate) fn put_all(
    tables: &mut Tables,
    log: &mut UndoLog,
    object: u64,
    segments: &[Segment],
) -> Result<(), Refusal>
    requires { CanEach (CanPut object) (put_step object) segments.now (inv_of tables.old) }
    ensures { Goes result log.old (inv_of tables.old) log.new (inv_of tables.new) (put object segments.now (inv_of tables.old)) }
{
    'segments: for segment in segments {
        put_one(tables, log, object, segment)?;
    }
    Ok(())
}

/// A scratch volume is made.
fn make_one(tables: &mut Tables, log: &mut UndoLog, scratch: &ScratchVolume) -> Result<(), Refusal>
    requires { CanScratch scratch.now (inv_of tables.old) }
    ensures { Goes result log.old (inv_of tables.old) log.new (inv_of tables.new) (make_scratch scratch.now (inv_of tables.old)) }
{
    let next_file = tables.next_file;
    log.push(Undo::Scratch {
        file: scratch.file,
        next_file,
    })?;
    match tables.pools.add_scratch(scratch.pool, scratch.file) {
        Ok(()) => {
            tables.next_file = next_file.max(scratch.file + 1);
            Ok(())
        }
        Err(refusal) => {
            log.pop();
            Err(refusal)
        }
    }
}

/// Some scratch volumes are made, one after the other. Its one refusal is want of memory; what was made by then is in the log.
pub fn make_scratch(
    tables: &mut Tables,
    log: &mut UndoLog,
    scratch: &[ScratchVolume],
) -> Result<(), Refusal>
    requires { CanEach CanScratch make_scratch scratch.now (inv_of tables.old) }
    ensures { Goes result log.old (inv_of tables.old) log.new (inv_of tables.new) (each make_scratch scratch.now (inv_of tables.old)) }
{
    'scratch: for one in scratch {
        make_one(tables, log, one)?;
    }
    Ok(())
}
