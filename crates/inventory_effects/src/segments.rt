//! Segments that go from their volumes.

ghost use Rattle.std.specs.Prelude.{◌≡◌};
ghost use Rattle.inventory_rows.specs.pool_rows.Segments.{take_segment};
ghost use Rattle.inventory_rules.specs.Common.{or_same};
ghost use Rattle.inventory_effects.specs.Volumes.{taken, all_taken};

use inventory_rows::pool_rows::Pools;
use inventory_rows::version_groups::CopyRow;
use kinds::{Day, Segment};

/// A segment goes from its volume, where it is there.
fn take_one(pools: &mut Pools, object: u64, segment: &Segment, today: Day)
    ensures { pools.new ≡ or_same pools.old (take_segment object segment.now today pools.old) }
{
    match pools.take_segment(object, segment, today) {
        Ok(()) => {}
        Err(_) => {}
    }
}

/// The segments of an object's copy go from their volumes.
pub(crate) fn take(pools: &mut Pools, object: u64, segments: &[Segment], today: Day)
    ensures { pools.new ≡ taken object segments.now today pools.old }
{
    'segments: for segment in segments {
        take_one(pools, object, segment, today);
    }
}

/// The segments of some copies of an object go from their volumes.
pub(crate) fn take_all(pools: &mut Pools, object: u64, copies: &[CopyRow], today: Day)
    ensures { pools.new ≡ all_taken object copies.now today pools.old }
{
    'copies: for copy in copies {
        take(pools, object, copy.segments.as_slice(), today);
    }
}
