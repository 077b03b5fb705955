//! Whether new segments fit where they come.

ghost use Rattle.std.specs.Prelude.{◌≡◌, ◌||◌, true};
ghost use Rattle.std.specs.List.{list_all};
ghost use Rattle.inventory_rows.specs.Search.{segments_on};
ghost use Rattle.inventory_rows.specs.State.{inv_of};
ghost use Rattle.inventory_rules.specs.Segments.{are_clear, leaves};
ghost use Rattle.inventory_fits.specs.Fitting.{copy_fits_at, segment_fits_at};
ghost use Rattle.inventory_fits.specs.Frames.{is_clear_after, are_held_apart};
ghost use Rattle.inventory_fits.specs.Lying.{Lying};
ghost use Rattle.inventory_fits.specs.Sizes.{have_bytes};

use crate::neighbours::{is_clear_between, is_clear_of_all};
use crate::targets::{lies_at, target_at};
use entries::change_items::{MovedCopy, ScratchVolume};
use inventory_rows::Tables;
use inventory_rows::volume_rows::HeldSegment;
use kinds::Segment;
use std::collections::BTreeMap;

/// Whether the segment overlaps none that a row holds, but for those of copies that move from there. Those don't overlap one another on a
/// volume of the row's kind, so where the segment's pool is of that kind only its neighbours matter; where it isn't, since a scratch volume has
/// the number of a volume that is there, each is looked at.
fn is_clear_in(
    moved: &[MovedCopy],
    number: u32,
    row_sequential: bool,
    held: &BTreeMap<HeldSegment, u64>,
    sequential: bool,
    segment: &Segment,
) -> bool
    requires { are_held_apart row_sequential held.now.entries ≡ true }
    ensures { result ≡ is_clear_after moved.now number sequential segment.now held.now.entries }
{
    if row_sequential == sequential {
        is_clear_between(moved, number, held, sequential, segment)
    } else {
        is_clear_of_all(moved, number, held, sequential, segment)
    }
}

/// Whether the segment overlaps none that lies on its volume, but for those of copies that move from there.
fn is_clear_on(
    tables: &Tables,
    moved: &[MovedCopy],
    number: u32,
    sequential: bool,
    segment: &Segment,
) -> bool
    requires { Lying (inv_of tables.now) }
    ensures { result ≡ list_all (λ e. leaves moved.now number e.0 || are_clear sequential segment.now e.1) (segments_on segment.now.file (inv_of tables.now)) }
{
    match tables.pools.volumes().get(&segment.file) {
        None => true,
        Some(volume) => {
            let row_sequential = tables.pools.is_sequential(volume.pool);
            is_clear_in(
                moved,
                number,
                row_sequential,
                volume.segments.as_map(),
                sequential,
                segment,
            )
        }
    }
}

/// Whether the segment lies on a volume of the pool and overlaps none that lies there, but for those of copies that move from there. It takes
/// the logarithm of how many lie there, and as many steps as segments that move lie there in a row.
#[tactic(auto, unfolding(crate::specs::Fitting::segment_fits_at))]
fn segment_fits(
    tables: &Tables,
    moved: &[MovedCopy],
    scratch: &[ScratchVolume],
    number: u32,
    segment: &Segment,
) -> bool
    requires { Lying (inv_of tables.now) }
    ensures { result ≡ segment_fits_at moved.now scratch.now (inv_of tables.now) number segment.now }
{
    let sequential = tables.pools.is_sequential(number);
    let target = target_at(&tables.pools, segment.file, scratch);
    lies_at(sequential, number, segment, target)
        && is_clear_on(tables, moved, number, sequential, segment)
}

fn segments_fit(
    tables: &Tables,
    moved: &[MovedCopy],
    scratch: &[ScratchVolume],
    number: u32,
    segments: &[Segment],
) -> bool
    requires { Lying (inv_of tables.now) }
    ensures { result ≡ list_all (segment_fits_at moved.now scratch.now (inv_of tables.now) number) segments.now }
{
    'segments: for segment in segments {
        if !segment_fits(tables, moved, scratch, number, segment) {
            return false;
        }
    }
    true
}

/// Whether the segments have so many bytes in all.
fn have_bytes(segments: &[Segment], size: u64) -> bool
    ensures { result ≡ have_bytes size segments.now }
{
    let mut left = size;
    'segments: for segment in segments {
        if left < segment.len {
            return false;
        }
        left -= segment.len;
    }
    left == 0
}

/// Whether a copy of so many bytes fits: its pool is there, its segments have the bytes, and each fits, where the copies that move have gone.
#[tactic(auto, unfolding(crate::specs::Fitting::copy_fits_at))]
pub(crate) fn copy_fits(
    tables: &Tables,
    moved: &[MovedCopy],
    scratch: &[ScratchVolume],
    number: u32,
    size: u64,
    segments: &[Segment],
) -> bool
    requires { Lying (inv_of tables.now) }
    ensures { result ≡ copy_fits_at moved.now scratch.now (inv_of tables.now) number size segments.now }
{
    tables.pools.pools().contains_key(&number)
        && have_bytes(segments, size)
        && segments_fit(tables, moved, scratch, number, segments)
}
