//! Where the frames of segments begin and end on a volume.

ghost use Rattle.std.specs.Prelude.{◌≡◌, ◌==◌, ◌&&◌};
ghost use Rattle.std.specs.List.{list_any};
ghost use Rattle.inventory_rules.specs.Valid.{high_of, low_of};
ghost use Rattle.inventory_rules.specs.Segments.{are_clear, leaves};
ghost use Rattle.inventory_fits.specs.Frames.{frame_of};

use entries::change_items::MovedCopy;
use inventory_rows::volume_rows::HeldSegment;
use kinds::Segment;

/// Where the frame begins: in bytes, or on a volume of random access in blocks of 4,096.
fn low(sequential: bool, segment: &Segment) -> u128
    ensures { result ≡ low_of sequential segment.now }
{
    let offset = u128::from(segment.offset);
    if sequential { offset } else { offset / 4096 }
}

/// Where the frame ends.
fn high(sequential: bool, segment: &Segment) -> u128
    ensures { result ≡ high_of sequential segment.now }
{
    let end = u128::from(segment.offset) + 32 + u128::from(segment.len);
    if sequential { end } else { (end + 4095) / 4096 }
}

/// Whether two frames on one volume don't overlap.
pub(crate) fn are_clear(sequential: bool, a: &Segment, b: &Segment) -> bool
    ensures { result ≡ are_clear sequential a.now b.now }
{
    high(sequential, a) <= low(sequential, b) || high(sequential, b) <= low(sequential, a)
}

/// Whether one of these copies that move is the object's copy in the pool.
pub(crate) fn leaves(moved: &[MovedCopy], number: u32, object: u64) -> bool
    ensures { result ≡ leaves moved.now number object }
{
    moved
        .iter()
        .any(|copy| object == copy.object && number == copy.from)
}

/// Whether a new segment doesn't overlap one that is held.
pub(crate) fn is_clear_of(sequential: bool, segment: &Segment, held: &HeldSegment) -> bool
    ensures { result ≡ are_clear sequential segment.now (frame_of held.now) }
{
    let there = Segment {
        file: 0,
        offset: held.offset,
        len: held.len,
    };
    are_clear(sequential, segment, &there)
}
