//! Whether no two of the new segments overlap.

ghost use Rattle.std.specs.Prelude.{◌≡◌, ◌&&◌, List};
ghost use Rattle.std.specs.List.{list_all, flat_map};
ghost use Rattle.kinds.specs.declared.segment.Segment.{Segment};
ghost use Rattle.inventory_rows.specs.pool_rows.PoolRows.{is_sequential_at};
ghost use Rattle.inventory_rows.specs.State.{inv_of};
ghost use Rattle.inventory_rules.specs.Segments.{are_all_clear};
ghost use Rattle.inventory_fits.specs.Fitting.{all_lead, are_clear_by, are_clear_pair, lead};
ghost use Rattle.inventory_fits.specs.Targets.{made};

use crate::frames::are_clear;
use crate::targets::{is_sequential, target_at};
use entries::change_items::ScratchVolume;
use inventory_rows::Tables;
use kinds::Segment;

/// What a transaction places, with the segments in which it lies.
pub(crate) trait Placed {
    /// Its segments.
    ghost segments: { Self → List Segment };

    /// Its segments.
    fn segments(&self) -> &[Segment]
        ensures { result.now ≡ segments self.now };
}

/// Whether the volume of a file is there once the scratch volumes are made, and its pool sequential.
fn is_sequential_at(tables: &Tables, scratch: &[ScratchVolume], file: u32) -> bool
    ensures { result ≡ is_sequential_at file (made scratch.now (inv_of tables.now)).stores }
{
    is_sequential(&tables.pools, target_at(&tables.pools, file, scratch))
}

/// Whether two new segments don't overlap, the first of which lies on a volume of this kind: they lie on different volumes, or are clear of
/// one another.
fn are_clear_by(sequential: bool, a: &Segment, b: &Segment) -> bool
    ensures { result ≡ are_clear_by sequential a.now b.now }
{
    a.file != b.file || are_clear(sequential, a, b)
}

fn is_clear_of_segments(sequential: bool, segment: &Segment, others: &[Segment]) -> bool
    ensures { result ≡ list_all (are_clear_by sequential segment.now) others.now }
{
    'others: for other in others {
        if !are_clear_by(sequential, segment, other) {
            return false;
        }
    }
    true
}

fn is_clear_of_items<T: Placed>(sequential: bool, segment: &Segment, items: &[T]) -> bool
    ensures { result ≡ list_all (are_clear_by sequential segment.now) (flat_map T.segments items.now) }
{
    'items: for item in items {
        if !is_clear_of_segments(sequential, segment, item.segments()) {
            return false;
        }
    }
    true
}

/// Whether a segment overlaps neither those behind it in its copy nor those of other items.
fn is_clear_of_rest<T: Placed>(
    tables: &Tables,
    scratch: &[ScratchVolume],
    segment: &Segment,
    others: &[Segment],
    items: &[T],
) -> bool
    ensures { result ≡ (list_all (are_clear_pair (made scratch.now (inv_of tables.now)) segment.now) others.now
        && list_all (are_clear_pair (made scratch.now (inv_of tables.now)) segment.now) (flat_map T.segments items.now)) }
{
    let sequential = is_sequential_at(tables, scratch, segment.file);
    is_clear_of_segments(sequential, segment, others)
        && is_clear_of_items(sequential, segment, items)
}

/// Whether segments overlap neither one another nor those of other items.
fn are_clear_of<T: Placed>(
    tables: &Tables,
    scratch: &[ScratchVolume],
    segments: &[Segment],
    items: &[T],
) -> bool
    ensures { result ≡ lead (are_clear_pair (made scratch.now (inv_of tables.now))) segments.now (flat_map T.segments items.now) }
{
    'segments: for i in 0..segments.len() {
        if !is_clear_of_rest(tables, scratch, &segments[i], &segments[i + 1..], items) {
            return false;
        }
    }
    true
}

fn are_items_clear<T: Placed>(tables: &Tables, scratch: &[ScratchVolume], items: &[T]) -> bool
    ensures { result ≡ all_lead (are_clear_pair (made scratch.now (inv_of tables.now))) T.segments items.now }
{
    'items: for i in 0..items.len() {
        if !are_clear_of(tables, scratch, items[i].segments(), &items[i + 1..]) {
            return false;
        }
    }
    true
}

/// Whether no two of the items' segments overlap. It takes as many steps as there are pairs of them.
pub(crate) fn are_all_clear<T: Placed>(
    tables: &Tables,
    scratch: &[ScratchVolume],
    items: &[T],
) -> bool
    ensures { result ≡ are_all_clear (made scratch.now (inv_of tables.now)) (flat_map T.segments items.now) }
{
    are_items_clear(tables, scratch, items)
}
