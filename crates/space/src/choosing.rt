// Where an object goes, found by a walk over the volumes.
ghost use Rattle.std.specs.Prelude.{◌≡◌, ◌+◌, ◌-◌, ◌^◌, ◌<◌, ◌==◌, not, ◌&&◌, nat_le, List, [], ◌∷◌, ◌++◌, IfOk, OnOk};
ghost use Rattle.std.specs.List.{find, list_any};
ghost use Rattle.std.specs.Option.{option_map};
ghost use Rattle.kinds.specs.Answers.{Answers};
ghost use Rattle.kinds.specs.declared.refusal.Holder.TheVariants.{Ticket, Unforced};
ghost use Rattle.pool_rows.specs.pool_tables.Rows.{row_at};
ghost use Rattle.pool_rows.specs.Hierarchy.{next_in};
ghost use Rattle.space.specs.Pieces.{pieces, room, cut, filled};
ghost use Rattle.space.specs.Placing.{goes_to, hierarchy, walked, is_allowed, may_take, has_place, pool_for, lies_in, holds_in, ticket_in, unforced_in, if_random, random_among, busy_or_full, no_place, is_last, placed, placed_in, choose};

use crate::aim::Aim;
use crate::claims::{Claim, Space};
use crate::counted::Counted;
use crate::piece::Piece;
use crate::places::{Placed, Places};
use crate::request::Request;
use crate::runs::random_pieces;
use crate::tails::sequential_pieces;
use kinds::{Holder, Refusal, Segment, SizeLimit};
use pool_rows::Pools;
use std::alloc::{AllocError, Global};

/// The free space of a pool, in the order in which it is used. It walks all volumes, tickets and transactions.
pub fn pieces(
    alloc: Global,
    pools: &Pools,
    counted: &Counted,
    request: &Request,
    next_file: u32,
    number: u32,
) -> Result<Vec<Piece>, AllocError>
    ensures { IfOk result (λ v. v.items ≡ pieces number request.now.prefer request.now.avoid next_file counted.now pools.now) }
{
    match pools.pool_capacity(number) {
        Some(capacity) => {
            let capacity = capacity.bytes();
            let free = sequential_pieces(
                alloc, pools, counted, request, next_file, number, capacity,
            )?;
            Ok(free)
        }
        None => {
            let free = random_pieces(alloc, pools, counted, request, number)?;
            Ok(free)
        }
    }
}

/// How many bytes of data some pieces have room for.
pub fn room(free: &[Piece]) -> u128
    ensures { result ≡ room free.now }
{
    let _len = free.len();
    let mut sum: u128 = 0;
    'free: for p in free {
        sum += u128::from(p.room);
    }
    sum
}

fn cut(piece: &Piece, len: u64) -> Piece
    ensures { result ≡ cut piece.now len }
{
    Piece {
        file: piece.file,
        offset: piece.offset,
        room: len,
    }
}

/// What so many bytes of data use of some pieces: each piece but the last is filled.
pub fn filled(alloc: Global, size: u64, free: &[Piece]) -> Result<Vec<Piece>, AllocError>
    ensures { IfOk result (λ v. v.items ≡ filled size free.now) }
{
    let mut out = Vec::new(alloc);
    let mut rest = size;
    'free: for p in free {
        if rest == 0 {
            return Ok(out);
        }
        if rest <= p.room {
            out.push(cut(p, rest))?;
            return Ok(out);
        }
        out.push(cut(p, p.room))?;
        rest -= p.room;
    }
    Ok(out)
}

/// Whether the number behind that of a scratch volume would reach the bound of file numbers.
fn is_last(piece: &Piece) -> bool
    ensures { result ≡ is_last piece.now }
{
    u128::from(piece.file) + 1 >= 4_294_967_295
}

fn placed(number: u32, piece: &Piece) -> Placed
    requires { piece.now.file < 2 ^ 32 }
    ensures { result ≡ placed number piece.now }
{
    Placed {
        pool: number,
        segment: Segment {
            file: piece.file as u32,
            offset: piece.offset,
            len: piece.room,
        },
    }
}

/// The segments that fill these pieces of a pool. `InventoryFull` where one of them is on a scratch volume that no number is left for.
pub fn placed_in(alloc: Global, number: u32, used: &[Piece]) -> Result<Places, Refusal>
    ensures { Answers result (placed_in number used.now) }
{
    let mut out = Vec::new(alloc);
    'used: for p in used {
        if is_last(p) {
            return Err(Refusal::InventoryFull);
        }
        out.push(placed(number, p))?;
    }
    Ok(Places::new(out))
}

fn next_of(pools: &Pools, pool: u32) -> Option<u32>
    ensures { result ≡ next_in (row_at pool pools.now.pools) }
{
    match pools.pools().get(&pool) {
        Some(pool) => pool.settings.rule().next,
        None => None,
    }
}

fn hierarchy(alloc: Global, pools: &Pools, start: u32) -> Result<Vec<u32>, AllocError>
    ensures { IfOk result (λ v. v.items ≡ hierarchy start pools.now) }
{
    let mut out = Vec::new(alloc);
    let mut next = Some(start);
    'steps: for _ in 0..pools.pools().len() {
        let pool = match next {
            Some(pool) => pool,
            None => return Ok(out),
        };
        out.push(pool)?;
        next = next_of(pools, pool);
    }
    Ok(out)
}

fn only(alloc: Global, pool: u32) -> Result<Vec<u32>, AllocError>
    ensures { IfOk result (λ v. v.items ≡ pool ∷ []) }
{
    let mut out = Vec::new(alloc);
    out.push(pool)?;
    Ok(out)
}

/// The pools that are walked.
pub fn walked(alloc: Global, pools: &Pools, aim: Aim) -> Result<Vec<u32>, AllocError>
    ensures { IfOk result (λ v. v.items ≡ walked aim pools.now) }
{
    match aim {
        Aim::New { pool } => {
            let found = hierarchy(alloc, pools, pool)?;
            Ok(found)
        }
        Aim::Move { to, along, .. } => {
            let found = if along {
                hierarchy(alloc, pools, to)?
            } else {
                only(alloc, to)?
            };
            Ok(found)
        }
        Aim::Copy { to } => {
            let found = only(alloc, to)?;
            Ok(found)
        }
    }
}

/// The pool that an aim goes to.
pub fn goes_to(aim: Aim) -> u32
    ensures { result ≡ goes_to aim }
{
    match aim {
        Aim::New { pool } => pool,
        Aim::Move { to, .. } => to,
        Aim::Copy { to } => to,
    }
}

fn is_allowed(size: u64, limit: SizeLimit) -> bool
    ensures { result ≡ is_allowed size limit }
{
    match limit {
        SizeLimit::At(most) => size <= most,
        SizeLimit::NoLimit => true,
    }
}

/// Whether the pool is there and may take an object of so many bytes.
pub fn may_take(pools: &Pools, number: u32, size: u64) -> bool
    ensures { result ≡ may_take size (row_at number pools.now.pools) }
{
    match pools.pools().get(&number) {
        Some(pool) => is_allowed(size, pool.settings.rule().max_size),
        None => false,
    }
}

fn has_place(
    alloc: Global,
    pools: &Pools,
    counted: &Counted,
    request: &Request,
    next_file: u32,
    number: u32,
) -> Result<bool, AllocError>
    ensures { IfOk result (λ b. b ≡ has_place request.now next_file counted.now pools.now number) }
{
    if !may_take(pools, number, request.size) {
        return Ok(false);
    }
    let free = pieces(alloc, pools, counted, request, next_file, number)?;
    Ok(u128::from(request.size) <= room(free.as_slice()))
}

/// The first of these pools that may take what is asked for and has room for it.
pub fn pool_among(
    alloc: Global,
    pools: &Pools,
    counted: &Counted,
    request: &Request,
    next_file: u32,
    walked: &[u32],
) -> Result<Option<u32>, AllocError>
    ensures { IfOk result (λ o. o ≡ find (has_place request.now next_file counted.now pools.now) walked.now) }
{
    'walked: for number in walked {
        let number = *number;
        let has = has_place(alloc, pools, counted, request, next_file, number)?;
        if has {
            return Ok(Some(number));
        }
    }
    Ok(None)
}

fn lies_in(pools: &[u32], place: &Placed) -> bool
    ensures { result ≡ lies_in pools.now place.now }
{
    pools.iter().any(|number| *number == place.pool)
}

fn lie_in(pools: &[u32], places: &[Placed]) -> bool
    ensures { result ≡ list_any (lies_in pools.now) places.now }
{
    places.iter().any(|p| lies_in(pools, p))
}

fn holds_in(pools: &[u32], actor: u32, claim: &Claim) -> bool
    ensures { result ≡ holds_in pools.now actor claim.now }
{
    if claim.actor == actor {
        return false;
    }
    lie_in(pools, claim.places.as_slice())
}

/// The least ticket of another actor that holds space in these pools.
pub fn ticket_in(pools: &[u32], actor: u32, space: &Space) -> Option<u64>
    ensures { result ≡ ticket_in pools.now actor space.now }
{
    'tickets: for (number, claim) in space.tickets() {
        if holds_in(pools, actor, claim) {
            return Some(*number);
        }
    }
    None
}

/// The least transaction that isn't forced yet and took segments away in these pools.
pub fn unforced_in(pools: &[u32], space: &Space) -> Option<u64>
    ensures { result ≡ unforced_in pools.now space.now }
{
    'freed: for (number, places) in space.freed() {
        if lie_in(pools, places.as_slice()) {
            return Some(*number);
        }
    }
    None
}

fn push_random(out: &mut Vec<u32>, pools: &Pools, number: u32) -> Result<(), AllocError>
    ensures { OnOk result (out.new.items ≡ out.old.items ++ if_random pools.now number) }
{
    if !pools.is_sequential(number) {
        out.push(number)?;
    }
    Ok(())
}

/// Those of some pools that are of random access.
pub fn random_among(alloc: Global, pools: &Pools, walked: &[u32]) -> Result<Vec<u32>, AllocError>
    ensures { IfOk result (λ v. v.items ≡ random_among walked.now pools.now) }
{
    let mut out = Vec::new(alloc);
    'walked: for number in walked {
        push_random(&mut out, pools, *number)?;
    }
    Ok(out)
}

fn busy_by_ticket(start: u32, ticket: Option<u64>) -> Refusal
    ensures { result ≡ busy_or_full start Ticket ticket }
{
    match ticket {
        Some(number) => Refusal::Busy(Holder::Ticket(number)),
        None => Refusal::NoSpace(start),
    }
}

fn busy_by_unforced(start: u32, transaction: Option<u64>) -> Refusal
    ensures { result ≡ busy_or_full start Unforced transaction }
{
    match transaction {
        Some(number) => Refusal::Busy(Holder::Unforced(number)),
        None => Refusal::NoSpace(start),
    }
}

/// Why there is no place in any of the pools that are walked.
pub fn no_place(
    alloc: Global,
    pools: &Pools,
    space: &Space,
    request: &Request,
    numbers: &[u32],
) -> Result<Refusal, AllocError>
    requires { numbers.now ≡ walked request.now.aim pools.now }
    ensures { IfOk result (λ e. e ≡ no_place request.now pools.now space.now) }
{
    let start = goes_to(request.aim);
    let next_file = space.next_file();
    let counted = Counted::new(alloc, space, request.actor)?;
    let counted = counted.without_others(alloc);
    let found = pool_among(alloc, pools, &counted, request, next_file, numbers)?;
    if found.is_some() {
        return Ok(busy_by_ticket(start, ticket_in(numbers, request.actor, space)));
    }
    let counted = counted.own_alone(alloc);
    let found = pool_among(alloc, pools, &counted, request, next_file, numbers)?;
    if found.is_none() {
        return Ok(Refusal::NoSpace(start));
    }
    let random = random_among(alloc, pools, numbers)?;
    Ok(busy_by_unforced(start, unforced_in(random.as_slice(), space)))
}

/// The segments of an object in a pool that has room for it.
fn place_in(
    alloc: Global,
    pools: &Pools,
    counted: &Counted,
    request: &Request,
    next_file: u32,
    number: u32,
) -> Result<Places, Refusal>
    ensures { Answers result (placed_in number (filled request.now.size (pieces number request.now.prefer request.now.avoid next_file counted.now pools.now))) }
{
    let free = pieces(alloc, pools, counted, request, next_file, number)?;
    let used = filled(alloc, request.size, free.as_slice())?;
    placed_in(alloc, number, used.as_slice())
}

/// Where an object goes: its segments, each with its pool. `NoSpace`, with the number of the pool that the aim goes to, where no pool of the
/// hierarchy that may take the object has room; `Busy` where one would have, if other actors' tickets or the transactions that aren't forced
/// yet were gone, with the least of these that holds space there; `InventoryFull` where a scratch volume is needed for which no file number is
/// left; `Memory` where there is too little. It walks all volumes, tickets and transactions.
pub fn choose_by_walk(
    alloc: Global,
    pools: &Pools,
    space: &Space,
    request: &Request,
) -> Result<Places, Refusal>
    ensures { Answers result (choose request.now pools.now space.now) }
{
    let counted = Counted::new(alloc, space, request.actor)?;
    let numbers = walked(alloc, pools, request.aim)?;
    let next_file = space.next_file();
    let found = pool_among(
        alloc,
        pools,
        &counted,
        request,
        next_file,
        numbers.as_slice(),
    )?;
    match found {
        Some(number) => place_in(alloc, pools, &counted, request, next_file, number),
        None => {
            let refusal = no_place(alloc, pools, space, request, numbers.as_slice())?;
            Err(refusal)
        }
    }
}
