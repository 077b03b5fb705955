// Where an object goes, found by the index.
ghost use Rattle.std.specs.Prelude.{◌≡◌, ◌-◌, ◌++◌, true, Some, nat_le, map, IfOk, OnOk};
ghost use Rattle.std.specs.List.{find};
ghost use Rattle.std.specs.List.Sorted.{IsStrictlySortedBy};
ghost use Rattle.std.specs.Map.{keys_of};
ghost use Rattle.std.specs.Ordering.{nat_cmp};
ghost use Rattle.kinds.specs.Answers.{Answers};
ghost use Rattle.pool_rows.specs.PoolRows.{pool_capacity, is_sequential};
ghost use Rattle.space.specs.Claims.{counted};
ghost use Rattle.space.specs.Pieces.{pieces, run_piece, room, cut, filled};
ghost use Rattle.extent_map.specs.Blocks.{room_in};
ghost use Rattle.space.specs.Placing.{has_place, placed_in, choose};
ghost use Rattle.space_index.specs.Tails.{IsTailsOf, IsIndexOf};
ghost use Rattle.space_index.specs.Choosing.{pieces_on, other_pieces, preferred_pieces, listed_pieces, listed_room};
ghost use Rattle.space_index.specs.Listed.{rooms_at};

use crate::index::Index;
use crate::random::RandomIndex;
use crate::rooms::Rooms;
use crate::sequential;
use crate::tails::Tails;
use extent_map::Run;
use kinds::Refusal;
use pool_rows::Pools;
use space::{Piece, Places, Request, Space, may_take, no_place, placed_in, walked};
use std::alloc::{AllocError, Global};

/// The front of a run, or all of it, as a piece of free space on a volume.
fn piece(file: u32, run: &Run, room: u64) -> Piece
    ensures { result ≡ cut (run_piece file run.now) room }
{
    Piece {
        file: u64::from(file),
        offset: 4096 * u64::from(run.first),
        room,
    }
}

fn room_in(run: &Run) -> u64
    ensures { result ≡ room_in run.now }
{
    (4096 * u64::from(run.blocks)).saturating_sub(32)
}

/// What so many bytes of data use of some runs of a volume, and how many bytes are left.
fn push_filled(out: &mut Vec<Piece>, rest: u64, file: u32, runs: &[Run]) -> Result<u64, AllocError>
    ensures pieces { OnOk result (out.new.items ≡ out.old.items ++ filled rest (map (run_piece file) runs.now)) }
    ensures left { IfOk result (λ n. n ≡ rest - room (map (run_piece file) runs.now)) }
{
    let mut left = rest;
    'runs: for run in runs {
        if left == 0 {
            return Ok(0);
        }
        let room = room_in(run);
        if left <= room {
            out.push(piece(file, run, left))?;
            return Ok(0);
        }
        out.push(piece(file, run, room))?;
        left -= room;
    }
    Ok(left)
}

/// What so many bytes of data use of a volume, and how many bytes are left.
fn push_volume(
    alloc: Global,
    index: &RandomIndex,
    out: &mut Vec<Piece>,
    rest: u64,
    file: u32,
) -> Result<u64, AllocError>
    ensures pieces { OnOk result (out.new.items ≡ out.old.items ++ filled rest (pieces_on index.now file)) }
    ensures left { IfOk result (λ n. n ≡ rest - room (pieces_on index.now file)) }
{
    let Some(standing) = index.files.get(&file) else {
        return Ok(rest);
    };
    let runs = standing.blocks.runs_for(alloc, rest)?;
    let left = push_filled(out, rest, file, runs.as_slice())?;
    Ok(left)
}

/// What is used of the preferred volume.
fn push_preferred(
    alloc: Global,
    index: &RandomIndex,
    out: &mut Vec<Piece>,
    rooms: &Rooms,
    number: u32,
    request: &Request,
) -> Result<u64, AllocError>
    requires { rooms.now ≡ rooms_at number index.now.pools.entries }
    ensures pieces { OnOk result (out.new.items ≡ out.old.items ++ filled request.now.size (preferred_pieces index.now number request.now.prefer request.now.avoid)) }
    ensures left { IfOk result (λ n. n ≡ request.now.size - room (preferred_pieces index.now number request.now.prefer request.now.avoid)) }
{
    if request.prefer == request.avoid {
        return Ok(request.size);
    }
    match rooms.as_map().get(&request.prefer) {
        None => Ok(request.size),
        Some(_) => {
            let left = push_volume(alloc, index, out, request.size, request.prefer)?;
            Ok(left)
        }
    }
}

/// What is used of a volume that has room, where it is neither the preferred nor the avoided one.
fn push_other(
    alloc: Global,
    index: &RandomIndex,
    out: &mut Vec<Piece>,
    rest: u64,
    request: &Request,
    file: u32,
    bytes: u64,
) -> Result<u64, AllocError>
    ensures pieces { OnOk result (out.new.items ≡ out.old.items ++ filled rest (other_pieces index.now request.now.prefer request.now.avoid (file, bytes))) }
    ensures left { IfOk result (λ n. n ≡ rest - room (other_pieces index.now request.now.prefer request.now.avoid (file, bytes))) }
{
    if file == request.prefer {
        return Ok(rest);
    }
    if file == request.avoid {
        return Ok(rest);
    }
    let left = push_volume(alloc, index, out, rest, file)?;
    Ok(left)
}

/// What is used of a pool of random access for so many bytes of data: time goes into the volumes and runs that are used, and two volumes more.
fn listed_places(
    alloc: Global,
    index: &RandomIndex,
    request: &Request,
    number: u32,
) -> Result<Vec<Piece>, AllocError>
    ensures { IfOk result (λ v. v.items ≡ filled request.now.size (listed_pieces index.now number request.now.prefer request.now.avoid)) }
{
    let mut out = Vec::new(alloc);
    let Some(rooms) = index.pools.get(&number) else {
        return Ok(out);
    };
    let mut rest = push_preferred(alloc, index, &mut out, rooms, number, request)?;
    'files: for (file, bytes) in rooms.as_map() {
        if rest == 0 {
            return Ok(out);
        }
        rest = push_other(alloc, index, &mut out, rest, request, *file, *bytes)?;
    }
    Ok(out)
}

/// The room of a pool of random access, but for the avoided volume's: by what is kept, and no walk.
fn listed_room(index: &RandomIndex, request: &Request, number: u32) -> u128
    ensures value { result ≡ listed_room index.now number request.now.avoid }
    ensures ordered { IsStrictlySortedBy nat_cmp (keys_of (rooms_at number index.now.pools.entries)) }
{
    match index.pools.get(&number) {
        None => 0,
        Some(rooms) => {
            let _len = rooms.as_map().len();
            let avoided = match rooms.as_map().get(&request.avoid).copied() {
                Some(room) => room,
                None => 0,
            };
            rooms.total().saturating_sub(u128::from(avoided))
        }
    }
}

/// The capacity of a sequential pool's volumes.
fn capacity_of(pools: &Pools, number: u32) -> u64
    requires { is_sequential number pools.now ≡ true }
    ensures { pool_capacity number pools.now ≡ Some result }
{
    match pools.pool_capacity(number) {
        Some(capacity) => capacity.bytes(),
        None => 0,
    }
}

/// Whether a sequential pool has room for what is asked for.
fn has_sequential_room(
    alloc: Global,
    pools: &Pools,
    space: &Space,
    index: &Tails,
    request: &Request,
    number: u32,
) -> Result<bool, AllocError>
    requires index { IsTailsOf index.now pools.now space.now.tickets }
    requires sequential { is_sequential number pools.now ≡ true }
    ensures { IfOk result (λ b. b ≡ nat_le request.now.size (room (pieces number request.now.prefer request.now.avoid space.now.next_file (counted request.now.actor space.now) pools.now))) }
{
    let capacity = capacity_of(pools, number);
    let has = sequential::has_room(alloc, pools, space, index, request, number, capacity)?;
    Ok(has)
}

/// What is used of the free space of a sequential pool.
fn used_sequential(
    alloc: Global,
    pools: &Pools,
    space: &Space,
    index: &Tails,
    request: &Request,
    number: u32,
) -> Result<Vec<Piece>, AllocError>
    requires index { IsTailsOf index.now pools.now space.now.tickets }
    requires sequential { is_sequential number pools.now ≡ true }
    ensures { IfOk result (λ v. v.items ≡ filled request.now.size (pieces number request.now.prefer request.now.avoid space.now.next_file (counted request.now.actor space.now) pools.now)) }
{
    let capacity = capacity_of(pools, number);
    let used = sequential::used_pieces(alloc, pools, space, index, request, number, capacity)?;
    Ok(used)
}

/// Whether a pool may take what is asked for and has room for it.
fn has_room(
    alloc: Global,
    pools: &Pools,
    space: &Space,
    index: &Index,
    request: &Request,
    number: u32,
) -> Result<bool, AllocError>
    requires { IsIndexOf index.now pools.now space.now }
    ensures { IfOk result (λ b. b ≡ has_place request.now space.now.next_file (counted request.now.actor space.now) pools.now number) }
{
    if !may_take(pools, number, request.size) {
        return Ok(false);
    }
    if pools.is_sequential(number) {
        let has = has_sequential_room(alloc, pools, space, &index.tails, request, number)?;
        return Ok(has);
    }
    let _len = pools.volumes().len();
    Ok(u128::from(request.size) <= listed_room(&index.random, request, number))
}

/// The first of these pools that may take what is asked for and has room for it.
fn pool_among(
    alloc: Global,
    pools: &Pools,
    space: &Space,
    index: &Index,
    request: &Request,
    numbers: &[u32],
) -> Result<Option<u32>, AllocError>
    requires { IsIndexOf index.now pools.now space.now }
    ensures { IfOk result (λ o. o ≡ find (has_place request.now space.now.next_file (counted request.now.actor space.now) pools.now) numbers.now) }
{
    'numbers: for number in numbers {
        let number = *number;
        let has = has_room(alloc, pools, space, index, request, number)?;
        if has {
            return Ok(Some(number));
        }
    }
    Ok(None)
}

/// What is used of the free space of a pool.
fn used_pieces(
    alloc: Global,
    pools: &Pools,
    space: &Space,
    index: &Index,
    request: &Request,
    number: u32,
) -> Result<Vec<Piece>, AllocError>
    requires { IsIndexOf index.now pools.now space.now }
    ensures { IfOk result (λ v. v.items ≡ filled request.now.size (pieces number request.now.prefer request.now.avoid space.now.next_file (counted request.now.actor space.now) pools.now)) }
{
    if pools.is_sequential(number) {
        let used = used_sequential(alloc, pools, space, &index.tails, request, number)?;
        return Ok(used);
    }
    let _len = pools.volumes().len();
    let _room = listed_room(&index.random, request, number);
    let used = listed_places(alloc, &index.random, request, number)?;
    Ok(used)
}

/// Where an object goes: its segments, each with its pool, exactly as `choose_by_walk` of `space` answers. On pools of random access it takes
/// time that grows with the logarithm of the volumes and blocks, and with the segments that it answers; on sequential pools with the logarithm of
/// the volumes, of the tickets and of the segments that they hold, and with the segments that it answers. Where no pool has room all is walked. `NoSpace`, with the number of the pool that the aim
/// goes to, where no pool of the hierarchy that may take the object has room; `Busy` where one would have, if other actors' tickets or the
/// transactions that aren't forced yet were gone, with the least of these that holds space there; `InventoryFull` where a scratch volume is
/// needed for which no file number is left; `Memory`.
pub fn choose(
    alloc: Global,
    pools: &Pools,
    space: &Space,
    index: &Index,
    request: &Request,
) -> Result<Places, Refusal>
    requires { IsIndexOf index.now pools.now space.now }
    ensures { Answers result (choose request.now pools.now space.now) }
{
    let numbers = walked(alloc, pools, request.aim)?;
    let found = pool_among(alloc, pools, space, index, request, numbers.as_slice())?;
    match found {
        Some(number) => {
            let used = used_pieces(alloc, pools, space, index, request, number)?;
            placed_in(alloc, number, used.as_slice())
        }
        None => {
            let refusal = no_place(alloc, pools, space, request, numbers.as_slice())?;
            Err(refusal)
        }
    }
}
