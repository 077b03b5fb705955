// The objects on a volume.
ghost use Rattle.std.specs.Prelude.{◌≡◌, ℕ, List, []};
ghost use Rattle.std.specs.Option.{option_copied};
ghost use Rattle.kinds.specs.Answers.{Answers, AnswersBy};
ghost use Rattle.inventory_work.specs.inventory_rows.volume_rows.declared.held.HeldSegment.{HeldSegment};
ghost use Rattle.inventory_work.specs.inventory_rows.State.{inv_of};
ghost use Rattle.inventory_answers.specs.Content.{so_far, with_segment, counted, content_line, content_lines, size_of_object, volume_at, content_of, Counts, segments_of};

use crate::lines::ContentLine;
use crate::look::plus;
use inventory_work::Listed;
use inventory_work::inventory_rows::Tables;
use inventory_work::inventory_rows::pool_rows::Pools;
use inventory_work::inventory_rows::volume_rows::{HeldSegment, Volume};
use kinds::{Name, ObjectSize, Refusal};
use std::alloc::Global;
use std::collections::BTreeMap;

fn so_far(counts: &BTreeMap<u64, u64>, object: u64) -> u64
    ensures { result ≡ so_far object counts.now.entries }
{
    match counts.get(&object) {
        Some(count) => *count,
        None => 0,
    }
}

fn count_segment(
    counts: &mut BTreeMap<u64, u64>,
    segment: &HeldSegment,
    repeats: u64,
) -> Result<(), Refusal>
    ensures { Counts result counts.new.entries (with_segment counts.old.entries (segment.now, repeats)) }
{
    let more = plus(repeats, 1)?;
    let count = plus(so_far(counts, segment.object), more)?;
    counts.insert(segment.object, count)?;
    Ok(())
}

fn counted(alloc: Global, held: &BTreeMap<HeldSegment, u64>) -> Result<BTreeMap<u64, u64>, Refusal>
    ensures { AnswersBy (λ counts. counts.entries) result (counted [] held.now.entries) }
{
    let mut counts = BTreeMap::new(alloc);
    'held: for (segment, repeats) in held {
        count_segment(&mut counts, segment, *repeats)?;
    }
    Ok(counts)
}

fn size_of_object(tables: &Tables, object: u64) -> Option<ObjectSize>
    ensures { result ≡ size_of_object object (inv_of tables.now) }
{
    match tables.objects.find(object) {
        Some(version) => Some(version.size),
        None => None,
    }
}

fn content_line(
    tables: &Tables,
    volume: &Name,
    object: u64,
    segments: u64,
) -> Result<ContentLine, Refusal>
    ensures { AnswersBy (λ line. line) result (content_line (inv_of tables.now) volume.now (object, segments)) }
{
    Ok(ContentLine {
        volume: volume.clone()?,
        object,
        size: size_of_object(tables, object),
        segments,
    })
}

fn content_lines(
    alloc: Global,
    tables: &Tables,
    volume: &Volume,
) -> Result<Listed<ContentLine>, Refusal>
    ensures { AnswersBy (λ lines. lines) result (content_lines (inv_of tables.now) volume.now) }
{
    let counts = counted(alloc, volume.segments.as_map())?;
    let mut lines = Vec::new(alloc);
    'counts: for (object, segments) in &counts {
        lines.push(content_line(tables, &volume.name, *object, *segments)?)?;
    }
    Ok(Listed::from_vec(lines))
}

fn volume_at<'a>(pools: &'a Pools, name: &Name) -> Option<&'a Volume>
    ensures { option_copied result ≡ volume_at name.now pools.now }
{
    match pools.volume_named(name) {
        Some(file) => pools.volumes().get(&file),
        None => None,
    }
}

/// The objects on the volume with this name.
pub(crate) fn content_of(
    alloc: Global,
    tables: &Tables,
    volume: &Name,
) -> Result<Listed<ContentLine>, Refusal>
    ensures { Answers result (content_of volume.now (inv_of tables.now)) }
{
    match volume_at(&tables.pools, volume) {
        Some(volume) => content_lines(alloc, tables, volume),
        None => Err(Refusal::NotFound),
    }
}

/// The segments that are counted for an object on a volume are those that are the object's.
#[tactic(auto, using(crate::proofs::Counting::counted_all))]
pub fn segments_are_counted()
    ensures { (object : ℕ) (held : List (HeldSegment × ℕ)) → so_far object (counted [] held) ≡ segments_of object held }
{}
