// Where a client's file goes.
ghost use Rattle.std.specs.Prelude.{◌≡◌, ◌<◌, ◌^◌, ◌∷◌, [], Some, None, if◌then◌else◌};
ghost use Rattle.kinds.specs.Answers.{AnswersBy};
ghost use Rattle.inventory_rows.specs.State.{inv_of};
ghost use Rattle.inventory_rows.specs.volume_rows.Held.{end_of};
ghost use Rattle.placing.specs.Placing.{whole_blocks, block_bytes, blocks_end, is_writable, has_room, place_among, place, segments_for};

use inventory_rows::Tables;
use inventory_rows::pool_rows::Pools;
use inventory_rows::volume_rows::{HeldSegment, Holdings, Volume};
use kinds::{Access, Refusal, Segment, Segments};
use std::alloc::Global;

/// So many bytes, rounded up to whole blocks.
fn whole_blocks(bytes: u128) -> u128
    requires { bytes < 2 ^ 66 }
    ensures value { result ≡ whole_blocks bytes }
    ensures few { result < 2 ^ 67 }
{
    4096 * ((bytes + 4095) / 4096)
}

/// How many bytes of a volume a file of so many bytes uses.
fn block_bytes(len: u64) -> u128
    ensures value { result ≡ block_bytes len }
    ensures few { result < 2 ^ 67 }
{
    whole_blocks(32 + u128::from(len))
}

/// Where the blocks of a segment end.
fn end_of_segment(segment: &HeldSegment) -> u128
    ensures value { result ≡ whole_blocks (end_of segment.now) }
    ensures few { result < 2 ^ 67 }
{
    whole_blocks(u128::from(segment.offset) + 32 + u128::from(segment.len))
}

/// Where the blocks in use of a volume end.
fn blocks_end(held: &Holdings) -> u128
    ensures value { result ≡ blocks_end held.now }
    ensures few { result < 2 ^ 67 }
{
    match held.as_map().last_key_value() {
        Some((segment, _)) => end_of_segment(segment),
        None => 0,
    }
}

fn is_writable(access: &Access) -> bool
    ensures { result ≡ is_writable access.now }
{
    match access {
        Access::ReadWrite => true,
        Access::ReadOnly | Access::Unavailable | Access::Offsite | Access::Destroyed => false,
    }
}

/// Where a file goes on this volume, in bytes; none where the volume is not of the pool, not READWRITE or has no room.
fn room_on(pool: u32, size: u64, file: u32, volume: &Volume) -> Option<u64>
    ensures { result ≡ (if has_room pool size (file, volume.now) then Some (blocks_end volume.now.segments) else None) }
{
    if volume.pool != pool || !is_writable(&volume.access) {
        return None;
    }
    let end = blocks_end(&volume.segments);
    if end + block_bytes(size) <= u128::from(volume.capacity.bytes()) {
        Some(end as u64)
    } else {
        None
    }
}

fn place_among(pools: &Pools, pool: u32, size: u64) -> Option<Segment>
    ensures { result ≡ place_among pool size pools.now.volumes }
{
    'volumes: for (file, volume) in pools.volumes() {
        if let Some(offset) = room_on(pool, size, *file, volume) {
            return Some(Segment {
                file: *file,
                offset,
                len: size,
            });
        }
    }
    None
}

/// Where a file of `size` bytes goes in this pool: behind the blocks in use of the volume with the least file number that is of the
/// pool, READWRITE and has room there; none where there is no such volume, or the pool is on sequential devices. It walks the volumes,
/// and looks at the last segment of each. It takes no memory.
pub fn place(tables: &Tables, pool: u32, size: u64) -> Option<Segment>
    ensures { result ≡ place pool size (inv_of tables.now) }
{
    if tables.pools.is_sequential(pool) {
        None
    } else {
        place_among(&tables.pools, pool, size)
    }
}

/// One segment in a list.
fn only(alloc: Global, segment: Segment) -> Result<Segments, Refusal>
    ensures { AnswersBy (λ segments. segments) result (segment ∷ []) }
{
    let mut items = Vec::new(alloc);
    items.push(segment)?;
    Ok(Segments::new(items))
}

/// The segments of a file of `size` bytes in this pool: none for an empty file, which needs no volume, and else one, at the file's
/// place; no list where there is no such place. Its one refusal is want of memory.
pub fn segments_for(
    alloc: Global,
    tables: &Tables,
    pool: u32,
    size: u64,
) -> Result<Option<Segments>, Refusal>
    ensures { AnswersBy (λ segments. segments) result (segments_for pool size (inv_of tables.now)) }
{
    if size == 0 {
        return Ok(Some(Segments::new(Vec::new(alloc))));
    }
    match place(tables, pool, size) {
        Some(segment) => {
            let segments = only(alloc, segment)?;
            Ok(Some(segments))
        }
        None => Ok(None),
    }
}
