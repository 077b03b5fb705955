//! Whether a new segment overlaps none that a volume's row holds, but for those of copies that move from there.

ghost use Rattle.std.specs.Prelude.{◌≡◌, ◌||◌, true};
ghost use Rattle.std.specs.BTreeMap.Range.{entries_between};
ghost use Rattle.std.specs.declared.ops.Bound.TheVariants.{Included, Excluded, Unbounded};
ghost use Rattle.inventory_rows.specs.volume_rows.Held.{held_cmp};
ghost use Rattle.inventory_rules.specs.Segments.{are_clear, leaves};
ghost use Rattle.inventory_fits.specs.Frames.{frame_of, is_clear_after, are_held_apart, start_of};

use crate::frames::{is_clear_of, leaves};
use entries::change_items::MovedCopy;
use inventory_rows::volume_rows::HeldSegment;
use kinds::Segment;
use std::collections::BTreeMap;

/// Whether the segment doesn't overlap one that is held, or the copy of that one moves from this pool.
fn is_clear_or_leaves(
    moved: &[MovedCopy],
    number: u32,
    sequential: bool,
    segment: &Segment,
    held: &HeldSegment,
) -> bool
    ensures { result ≡ (leaves moved.now number held.now.object || are_clear sequential segment.now (frame_of held.now)) }
{
    leaves(moved, number, held.object) || is_clear_of(sequential, segment, held)
}

/// Whether the segment overlaps none of those that begin before it. They don't overlap one another, so only the last one matters.
fn is_clear_below(
    moved: &[MovedCopy],
    number: u32,
    held: &BTreeMap<HeldSegment, u64>,
    sequential: bool,
    segment: &Segment,
    start: HeldSegment,
) -> bool
    requires apart { are_held_apart sequential held.now.entries ≡ true }
    requires start { start ≡ start_of segment.now }
    ensures { result ≡ is_clear_after moved.now number sequential segment.now (entries_between held_cmp Unbounded (Excluded start) held.now.entries) }
{
    match held.range(..start).next_back() {
        None => true,
        Some((last, _)) => is_clear_or_leaves(moved, number, sequential, segment, last),
    }
}

/// Whether the segment overlaps none of those that begin where it does or behind. They don't overlap one another, so only the first one
/// that stays matters.
fn is_clear_above(
    moved: &[MovedCopy],
    number: u32,
    held: &BTreeMap<HeldSegment, u64>,
    sequential: bool,
    segment: &Segment,
    start: HeldSegment,
) -> bool
    requires apart { are_held_apart sequential held.now.entries ≡ true }
    requires start { start ≡ start_of segment.now }
    ensures { result ≡ is_clear_after moved.now number sequential segment.now (entries_between held_cmp (Included start) Unbounded held.now.entries) }
{
    'held: for (there, _) in held.range(start..) {
        if !leaves(moved, number, there.object) {
            return is_clear_of(sequential, segment, there);
        }
    }
    true
}

/// Whether the segment overlaps none of those that are held, which don't overlap one another: it takes the logarithm of how many they are, and
/// as many steps as segments that move lie there in a row.
pub(crate) fn is_clear_between(
    moved: &[MovedCopy],
    number: u32,
    held: &BTreeMap<HeldSegment, u64>,
    sequential: bool,
    segment: &Segment,
) -> bool
    requires { are_held_apart sequential held.now.entries ≡ true }
    ensures { result ≡ is_clear_after moved.now number sequential segment.now held.now.entries }
{
    let start = HeldSegment {
        offset: segment.offset,
        object: 0,
        len: 0,
    };
    is_clear_below(moved, number, held, sequential, segment, start)
        && is_clear_above(moved, number, held, sequential, segment, start)
}

/// Whether the segment overlaps none of those that are held, each looked at.
pub(crate) fn is_clear_of_all(
    moved: &[MovedCopy],
    number: u32,
    held: &BTreeMap<HeldSegment, u64>,
    sequential: bool,
    segment: &Segment,
) -> bool
    ensures { result ≡ is_clear_after moved.now number sequential segment.now held.now.entries }
{
    'held: for (there, _) in held.iter() {
        if !is_clear_or_leaves(moved, number, sequential, segment, there) {
            return false;
        }
    }
    true
}
