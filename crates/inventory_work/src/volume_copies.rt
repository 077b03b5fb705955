// The copies on a volume.
ghost use Rattle.std.specs.Prelude.{◌≡◌, Some, []};
ghost use Rattle.std.specs.List.{flat_map};
ghost use Rattle.kinds.specs.Answers.{Answers, AnswersBy};
ghost use Rattle.inventory_rows.specs.pool_tables.Rows.{row_at};
ghost use Rattle.inventory_rows.specs.State.{inv_of};
ghost use Rattle.inventory_work.specs.Lists.{Writes};
ghost use Rattle.inventory_work.specs.declared.copies.Where.TheVariants as lying;
ghost use Rattle.inventory_work.specs.Copies.{copies_where, on_volume};
ghost use Rattle.inventory_work.specs.OnVolume.{RowsHoldObjects, copies_of_object, node_of_object, objects_of};

use crate::copies::{Where, node_of, write_copies};
use crate::lines::CopyLine;
use crate::listed::Listed;
use inventory_rows::Tables;
use inventory_rows::object_rows::Objects;
use inventory_rows::volume_rows::{HeldSegment, Volume};
use kinds::Refusal;
use std::alloc::Global;
use std::collections::{BTreeMap, BTreeSet};

fn objects_of(alloc: Global, held: &BTreeMap<HeldSegment, u64>) -> Result<BTreeSet<u64>, Refusal>
    ensures { AnswersBy (λ objects. objects.keys) result (objects_of [] held.now.entries) }
{
    let mut objects = BTreeSet::new(alloc);
    'held: for (segment, _) in held {
        objects.insert(segment.object)?;
    }
    Ok(objects)
}

fn node_of_object(objects: &Objects, object: u64) -> u32
    ensures { result ≡ node_of_object object objects.now }
{
    match objects.filespace_of(object) {
        Some(filespace) => node_of(objects.filespaces(), filespace),
        None => 0,
    }
}

fn write_copies_of_object(
    lines: &mut Vec<CopyLine>,
    here: Where,
    objects: &Objects,
    object: u64,
) -> Result<(), Refusal>
    ensures { Writes result lines.old.items lines.new.items (copies_of_object here objects.now object) }
{
    let Some(version) = objects.find(object) else {
        return Ok(());
    };
    let node = node_of_object(objects, object);
    write_copies(lines, here, node, version, version.copies.as_slice())
}

fn copies_of_objects(
    alloc: Global,
    here: Where,
    objects: &Objects,
    numbers: &BTreeSet<u64>,
) -> Result<Listed<CopyLine>, Refusal>
    ensures { AnswersBy (λ lines. lines) result (flat_map (copies_of_object here objects.now) numbers.now.keys) }
{
    let mut lines = Vec::new(alloc);
    'numbers: for object in numbers {
        write_copies_of_object(&mut lines, here, objects, *object)?;
    }
    Ok(Listed::from_vec(lines))
}

fn copies_on(
    alloc: Global,
    tables: &Tables,
    file: u32,
    volume: &Volume,
) -> Result<Listed<CopyLine>, Refusal>
    requires held { RowsHoldObjects (inv_of tables.now) }
    requires row { row_at file (inv_of tables.now).stores.volumes ≡ Some volume.now }
    ensures { AnswersBy (λ lines. lines) result (copies_where (lying.Volume file) (inv_of tables.now)) }
{
    let objects = &tables.objects;
    objects.are_ordered();
    let _ = objects.filespaces();
    let numbers = objects_of(alloc, volume.segments.as_map())?;
    let _ = numbers.len();
    copies_of_objects(alloc, Where::Volume(file), objects, &numbers)
}

/// The copies with a segment on a volume, in ascending order of their objects' numbers. `NotFound` where the volume is not there; else its one
/// refusal is want of memory. It looks up each object of which the volume's row holds a segment, and no other: the row has to hold a segment of
/// each object that has one on the volume.
pub fn on_volume(alloc: Global, tables: &Tables, file: u32) -> Result<Listed<CopyLine>, Refusal>
    requires held { RowsHoldObjects (inv_of tables.now) }
    ensures { Answers result (on_volume file (inv_of tables.now)) }
{
    match tables.pools.volumes().get(&file) {
        Some(volume) => copies_on(alloc, tables, file, volume),
        None => Err(Refusal::NotFound),
    }
}
