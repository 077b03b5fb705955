//! The volumes on which segments come, once the scratch volumes of a transaction are made.

ghost use Rattle.std.specs.Prelude.{◌≡◌};
ghost use Rattle.std.specs.Option.{option_copied};
ghost use Rattle.inventory_rows.specs.pool_tables.Rows.{row_at};
ghost use Rattle.inventory_fits.specs.Targets.{target_of, scratch_target, target_at, is_sequential_target, lies_at};

use entries::change_items::ScratchVolume;
use inventory_rows::pool_rows::Pools;
use kinds::Segment;

/// A volume, as far as it matters to what comes on it.
#[derive(Clone, Copy)]
pub struct Target {
    /// The number of its pool.
    pub pool: u32,
    /// How many bytes it has.
    pub capacity: u64,
}

fn target_of(pools: &Pools, file: u32) -> Option<Target>
    ensures { result ≡ target_of (row_at file pools.now.volumes) }
{
    match pools.volumes().get(&file) {
        Some(volume) => Some(Target {
            pool: volume.pool,
            capacity: volume.capacity.bytes(),
        }),
        None => None,
    }
}

fn scratch_target(pools: &Pools, volume: &ScratchVolume) -> Target
    ensures { result ≡ scratch_target pools.now volume.now }
{
    let capacity = match pools.pool_capacity(volume.pool) {
        Some(capacity) => capacity.bytes(),
        None => 0,
    };
    Target {
        pool: volume.pool,
        capacity,
    }
}

/// The volume of a file once the scratch volumes are made.
pub(crate) fn target_at(pools: &Pools, file: u32, scratch: &[ScratchVolume]) -> Option<Target>
    ensures { result ≡ target_at pools.now file scratch.now }
{
    let mut target = target_of(pools, file);
    'scratch: for volume in scratch {
        if volume.file == file {
            target = Some(scratch_target(pools, volume));
        }
    }
    target
}

/// Whether the volume is there, and its pool sequential.
pub(crate) fn is_sequential(pools: &Pools, target: Option<Target>) -> bool
    ensures { result ≡ is_sequential_target pools.now target }
{
    match target {
        None => false,
        Some(target) => pools.is_sequential(target.pool),
    }
}

/// Whether a segment lies on the volume of this pool and ends within it; on one of random access it begins with a block.
pub(crate) fn lies_at(
    sequential: bool,
    number: u32,
    segment: &Segment,
    target: Option<Target>,
) -> bool
    ensures { result ≡ lies_at sequential number segment.now target }
{
    match target {
        None => false,
        Some(target) => {
            let end = u128::from(segment.offset) + 32 + u128::from(segment.len);
            target.pool == number
                && end <= u128::from(target.capacity)
                && (sequential || segment.offset % 4096 == 0)
        }
    }
}
