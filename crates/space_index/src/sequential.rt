//! The free space of a sequential pool: of its volumes are looked at one by one the preferred and the avoided one, and as many as an object
//! needs; of the others is known what is kept.

ghost use Rattle.std.specs.Prelude.{◌≡◌, ℕ, ◌+◌, ◌-◌, ◌*◌, ◌^◌, ◌<◌, ◌≤◌, ◌++◌, true, None, Some, List, [], unwrap_or, nat_le, is_some, sum, IfOk, OnOk, if◌then◌else◌};
ghost use Rattle.std.specs.List.{flat_map};
ghost use Rattle.std.specs.List.Sorted.{IsStrictlySortedBy};
ghost use Rattle.std.specs.Map.{keys_of, values_of};
ghost use Rattle.std.specs.Ordering.{nat_cmp};
ghost use Rattle.pool_tables.specs.Rows.{row_at};
ghost use Rattle.pool_rows.specs.PoolRows.{is_sequential};
ghost use Rattle.space.specs.declared.claims.Claim.{Claim};
ghost use Rattle.space.specs.declared.piece.Piece.{Piece};
ghost use Rattle.space.specs.declared.site.Site.{Site};
ghost use Rattle.space.specs.Claims.{counted};
ghost use Rattle.space.specs.Pieces.{tails, scratch_pieces, max_scratch, sequential_pieces, room, filled};
ghost use Rattle.space_index.specs.Listed.{rooms_at};
ghost use Rattle.space_index.specs.Tails.{IsTailsOf};
ghost use Rattle.space_index.specs.Sequential.{view, KnowsMore, AreMore, AreNear, AreSeenAs, IsPart, IsNextOrNone, Serves, behind, listed_near, listed_else, listed_by, own_rooms, in_either};

use crate::by_pool::Listing;
use crate::near::{near_sites, note_seen};
use crate::rooms::Rooms;
use crate::tails::Tails;
use pool_rows::Pools;
use space::{Piece, Request, Site, Space, Turn, filled, max_scratch, push_tails, room};
use std::alloc::{AllocError, Global};
use std::collections::BTreeMap;
use std::ops::Bound;

fn listed_there(rooms: &Rooms, file: u32) -> u64
    ensures { result ≡ unwrap_or (row_at file rooms.now) 0 }
{
    match rooms.as_map().get(&file).copied() {
        Some(room) => room,
        None => 0,
    }
}

/// What is listed of the volumes that are looked at.
fn listed_near(rooms: &Rooms, near: &BTreeMap<u32, Site>) -> u128
    ensures { result ≡ listed_near rooms.now near.now.entries }
{
    let _len = near.len();
    let mut sum: u128 = 0;
    'near: for (file, _) in near {
        sum += u128::from(listed_there(rooms, *file));
    }
    sum
}

/// What is listed of the others: by the sum that is kept.
fn listed_else(listing: &Listing, number: u32, near: &BTreeMap<u32, Site>) -> u128
    ensures value { result ≡ listed_else (rooms_at number listing.now.pools.entries) near.now.entries }
    ensures ordered { IsStrictlySortedBy nat_cmp (keys_of (rooms_at number listing.now.pools.entries)) }
{
    match listing.pools.get(&number) {
        None => 0,
        Some(rooms) => {
            let _len = rooms.as_map().len();
            rooms.total().saturating_sub(listed_near(rooms, near))
        }
    }
}

/// The same of the volumes on which the actor's tickets alone have space.
fn own_else(tails: &Tails, actor: u32, number: u32, near: &BTreeMap<u32, Site>) -> u128
    ensures value { result ≡ listed_else (own_rooms tails.now.lists number actor) near.now.entries }
    ensures ordered { IsStrictlySortedBy nat_cmp (keys_of (own_rooms tails.now.lists number actor)) }
{
    match tails.lists.own.get(&u128::from(actor)) {
        None => 0,
        Some(listing) => listed_else(listing, number, near),
    }
}

/// The first volume that has room.
fn first_in(rooms: &Rooms) -> Option<(u32, u64)>
    ensures { IsNextOrNone (λ q. row_at q rooms.now) 0 result }
{
    let _len = rooms.as_map().len();
    match rooms.as_map().iter().next() {
        Some((file, bytes)) => Some((*file, *bytes)),
        None => None,
    }
}

/// The first volume behind this one that has room.
fn first_behind(rooms: &Rooms, file: u32) -> Option<(u32, u64)>
    ensures { IsNextOrNone (λ q. row_at q rooms.now) (file + 1) result }
{
    match rooms
        .as_map()
        .range((Bound::Excluded(file), Bound::Unbounded))
        .next()
    {
        Some((file, bytes)) => Some((*file, *bytes)),
        None => None,
    }
}

/// The first volume behind the last one in a pool's list, with its room.
fn next_in(listing: &Listing, number: u32, last: Option<u32>) -> Option<(u32, u64)>
    ensures { IsNextOrNone (λ q. row_at q (rooms_at number listing.now.pools.entries)) (behind last) result }
{
    let Some(rooms) = listing.pools.get(&number) else {
        return None;
    };
    match last {
        None => first_in(rooms),
        Some(file) => first_behind(rooms, file),
    }
}

/// The first behind the last one in the actor's list.
fn next_own(tails: &Tails, actor: u32, number: u32, last: Option<u32>) -> Option<(u32, u64)>
    ensures { IsNextOrNone (λ q. row_at q (own_rooms tails.now.lists number actor)) (behind last) result }
{
    match tails.lists.own.get(&u128::from(actor)) {
        None => None,
        Some(listing) => next_in(listing, number, last),
    }
}

/// The earlier of two.
fn earlier(first: Option<(u32, u64)>, second: Option<(u32, u64)>) -> Option<(u32, u64)>
    ensures { (rooms others : List (ℕ × ℕ)) (low : ℕ) → IsNextOrNone (λ q. row_at q rooms) low first → IsNextOrNone (λ q. row_at q others) low second → IsNextOrNone (in_either rooms others) low result }
{
    let Some(a) = first else {
        return second;
    };
    let Some(b) = second else {
        return Some(a);
    };
    if a.0 <= b.0 { Some(a) } else { Some(b) }
}

/// The first volume behind the last one that comes in this turn.
fn next_of(
    tails: &Tails,
    turn: Turn,
    actor: u32,
    number: u32,
    last: Option<u32>,
) -> Option<(u32, u64)>
    ensures { IsNextOrNone (listed_by turn tails.now.lists number actor) (behind last) result }
{
    match turn {
        Turn::Preferred => None,
        Turn::Filling => earlier(
            next_in(&tails.lists.filling, number, last),
            next_own(tails, actor, number, last),
        ),
        Turn::Empty => next_in(&tails.lists.empty, number, last),
    }
}

/// One listed volume more is looked at, where it wasn't before; how many bytes it leaves of so many.
fn collect_one(
    pools: &Pools,
    tails: &Tails,
    request: &Request,
    number: u32,
    near: &mut BTreeMap<u32, Site>,
    file: u32,
    bytes: u64,
    rest: u64,
) -> Result<u64, AllocError>
    ensures known { OnOk result (KnowsMore (view pools.now tails.now.held.entries number request.now.actor) file near.old.entries near.new.entries) }
    ensures left { IfOk result (λ n. rest ≤ n + (if is_some (row_at file near.old.entries) then 0 else bytes)) }
    ensures few { file < 2 ^ 32 }
{
    if near.get(&file).is_some() {
        return Ok(rest);
    }
    note_seen(pools, tails, request, number, near, file)?;
    Ok(rest.saturating_sub(bytes))
}

/// As many listed volumes more are looked at, by file number, as have room for so many bytes of data, or all of them.
fn collect(
    pools: &Pools,
    tails: &Tails,
    request: &Request,
    number: u32,
    near: &mut BTreeMap<u32, Site>,
    turn: Turn,
    size: u64,
) -> Result<(), AllocError>
    ensures more { OnOk result (AreMore (view pools.now tails.now.held.entries number request.now.actor) near.old.entries near.new.entries) }
    ensures served { (g : ℕ × Site → List Piece) (sites : List (ℕ × Site)) → AreSeenAs (view pools.now tails.now.held.entries number request.now.actor) sites → IsStrictlySortedBy nat_cmp (keys_of sites) → AreMore (view pools.now tails.now.held.entries number request.now.actor) [] near.old.entries
        → IsPart g (view pools.now tails.now.held.entries number request.now.actor) (listed_by turn tails.now.lists number request.now.actor) near.old.entries → OnOk result (Serves size (flat_map g sites) (flat_map g near.new.entries)) }
{
    let mut rest = size;
    let mut last: Option<u32> = None;
    'files: while rest > 0 {
        let Some((file, bytes)) = next_of(tails, turn, request.actor, number, last) else {
            let _len = near.len();
            return Ok(());
        };
        rest = collect_one(pools, tails, request, number, near, file, bytes, rest)?;
        last = Some(file);
    }
    let _len = near.len();
    Ok(())
}

/// How many of so many bytes don't fit into some pieces.
fn rest_of(size: u64, free: &[Piece]) -> u64
    ensures { result ≡ size - room free.now }
{
    u128::from(size).saturating_sub(room(free)) as u64
}

/// The space behind the ends of the volumes that are looked at: nobody else has space there.
fn near_tails(
    alloc: Global,
    near: &BTreeMap<u32, Site>,
    number: u32,
    request: &Request,
) -> Result<Vec<Piece>, AllocError>
    ensures { IfOk result (λ v. v.items ≡ tails number request.now.prefer request.now.avoid [] near.now.entries) }
{
    let mut out = Vec::new(alloc);
    push_tails(&mut out, Turn::Preferred, number, request, &[], near)?;
    push_tails(&mut out, Turn::Filling, number, request, &[], near)?;
    push_tails(&mut out, Turn::Empty, number, request, &[], near)?;
    Ok(out)
}

/// What is listed of a pool: by the sum that is kept.
fn listed_in(listing: &Listing, number: u32) -> u128
    ensures value { result ≡ sum (values_of (rooms_at number listing.now.pools.entries)) }
    ensures ordered { IsStrictlySortedBy nat_cmp (keys_of (rooms_at number listing.now.pools.entries)) }
{
    match listing.pools.get(&number) {
        None => 0,
        Some(rooms) => {
            let _len = rooms.as_map().len();
            rooms.total()
        }
    }
}

/// How many scratch volumes MAXSCRATCH still allows the pool.
fn scratch_left(pools: &Pools, tails: &Tails, number: u32) -> u64
    ensures value { result ≡ max_scratch (row_at number pools.now.pools) - sum (values_of (rooms_at number tails.now.lists.scratch.pools.entries)) }
    ensures few { result < 2 ^ 16 }
    ensures ordered { IsStrictlySortedBy nat_cmp (keys_of (rooms_at number tails.now.lists.scratch.pools.entries)) }
{
    let there = listed_in(&tails.lists.scratch, number);
    let most = u128::from(max_scratch(pools, number));
    most.saturating_sub(there) as u64
}

/// The room of so many scratch volumes, in bytes of data.
fn scratch_room(capacity: u64, count: u64) -> u128
    requires { count < 2 ^ 16 }
    ensures { result ≡ room (scratch_pieces capacity count 0) }
{
    u128::from(capacity.saturating_sub(32)) * u128::from(count)
}

/// What so many bytes of data use of new scratch volumes, with numbers from this one on.
fn push_filled_scratch(
    out: &mut Vec<Piece>,
    rest: u64,
    capacity: u64,
    count: u64,
    file: u64,
) -> Result<(), AllocError>
    requires { file + count < 2 ^ 63 }
    ensures { OnOk result (out.new.items ≡ out.old.items ++ filled rest (scratch_pieces capacity count file)) }
{
    let room = capacity.saturating_sub(32);
    let mut left = rest;
    'files: for i in 0..count {
        if left == 0 {
            return Ok(());
        }
        let bytes = left.min(room);
        out.push(Piece {
            file: file + i,
            offset: 0,
            room: bytes,
        })?;
        left -= bytes;
    }
    Ok(())
}

/// Whether a sequential pool has room for what is asked for: by the sums that are kept, and the preferred and the avoided volume.
pub fn has_room(
    alloc: Global,
    pools: &Pools,
    space: &Space,
    index: &Tails,
    request: &Request,
    number: u32,
    capacity: u64,
) -> Result<bool, AllocError>
    requires index { IsTailsOf index.now pools.now space.now.tickets }
    requires sequential { is_sequential number pools.now ≡ true }
    ensures { IfOk result (λ b. b ≡ nat_le request.now.size (room (sequential_pieces number capacity request.now.prefer request.now.avoid space.now.next_file (counted request.now.actor space.now) pools.now))) }
{
    let _len = pools.volumes().len();
    let near = near_sites(alloc, pools, index, request, number)?;
    let _len = near.len();
    let free = near_tails(alloc, &near, number, request)?;
    let left = scratch_left(pools, index, number);
    let filling = listed_else(&index.lists.filling, number, &near);
    let own = own_else(index, request.actor, number, &near);
    let empty = listed_else(&index.lists.empty, number, &near);
    let rest = rest_of(request.size, free.as_slice());
    let rest = u128::from(rest)
        .saturating_sub(filling)
        .saturating_sub(own)
        .saturating_sub(empty);
    Ok(rest <= scratch_room(capacity, left))
}

/// The space behind the ends of as many volumes as so many bytes of data need, or of all.
fn serving_tails(
    alloc: Global,
    pools: &Pools,
    index: &Tails,
    near: &mut BTreeMap<u32, Site>,
    request: &Request,
    number: u32,
) -> Result<Vec<Piece>, AllocError>
    ensures { (tickets : List (ℕ × Claim)) (sites : List (ℕ × Site)) → IsTailsOf index.now pools.now tickets → is_sequential number pools.now ≡ true → AreNear (view pools.now index.now.held.entries number request.now.actor) request.now.prefer request.now.avoid near.old.entries
        → AreSeenAs (view pools.now index.now.held.entries number request.now.actor) sites → IsStrictlySortedBy nat_cmp (keys_of sites) → IfOk result (λ v. Serves request.now.size (tails number request.now.prefer request.now.avoid [] sites) v.items) }
{
    let _len = near.len();
    let mut out = Vec::new(alloc);
    push_tails(&mut out, Turn::Preferred, number, request, &[], near)?;
    let rest = rest_of(request.size, out.as_slice());
    collect(pools, index, request, number, near, Turn::Filling, rest)?;
    push_tails(&mut out, Turn::Filling, number, request, &[], near)?;
    let rest = rest_of(request.size, out.as_slice());
    collect(pools, index, request, number, near, Turn::Empty, rest)?;
    push_tails(&mut out, Turn::Empty, number, request, &[], near)?;
    Ok(out)
}

/// What is used of a sequential pool for what is asked for: time goes into the volumes that so many bytes need, and into two more.
pub fn used_pieces(
    alloc: Global,
    pools: &Pools,
    space: &Space,
    index: &Tails,
    request: &Request,
    number: u32,
    capacity: u64,
) -> Result<Vec<Piece>, AllocError>
    requires index { IsTailsOf index.now pools.now space.now.tickets }
    requires sequential { is_sequential number pools.now ≡ true }
    ensures { IfOk result (λ v. v.items ≡ filled request.now.size (sequential_pieces number capacity request.now.prefer request.now.avoid space.now.next_file (counted request.now.actor space.now) pools.now)) }
{
    let _len = pools.volumes().len();
    let mut near = near_sites(alloc, pools, index, request, number)?;
    let left = scratch_left(pools, index, number);
    let free = serving_tails(alloc, pools, index, &mut near, request, number)?;
    let mut out = filled(alloc, request.size, free.as_slice())?;
    let rest = rest_of(request.size, free.as_slice());
    push_filled_scratch(&mut out, rest, capacity, left, u64::from(space.next_file()))?;
    Ok(out)
}
