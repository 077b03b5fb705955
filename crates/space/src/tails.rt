// The free space of sequential pools.
ghost use Rattle.std.specs.Prelude.{◌≡◌, ◌+◌, ◌-◌, ◌^◌, ◌<◌, ◌≤◌, ◌++◌, IfOk, OnOk};
ghost use Rattle.pool_rows.specs.pool_tables.Rows.{row_at};
ghost use Rattle.space.specs.Pieces.{tail_piece, is_in_turn, tail_in, tails_in, scratch_pieces, max_scratch, scratch_left, sequential_pieces};

use crate::counted::Counted;
use crate::piece::Piece;
use crate::places::Placed;
use crate::request::Request;
use crate::site::Site;
use crate::turn::Turn;
use crate::volumes::{is_held, scratch_count, sites};
use pool_rows::Pools;
use std::alloc::{AllocError, Global};
use std::collections::BTreeMap;

fn is_in_turn(turn: Turn, prefer: u32, file: u32, site: &Site) -> bool
    ensures { result ≡ is_in_turn turn prefer (file, site.now) }
{
    match turn {
        Turn::Preferred => file == prefer && (site.is_filling() || site.is_empty()),
        Turn::Filling => file != prefer && site.is_filling(),
        Turn::Empty => file != prefer && site.is_empty(),
    }
}

fn tail_piece(file: u32, site: &Site) -> Piece
    requires { site.now.end + 4096 ≤ site.now.capacity }
    ensures { result ≡ tail_piece (file, site.now) }
{
    let capacity = site.capacity;
    let end = site.end as u64;
    Piece {
        file: u64::from(file),
        offset: end,
        room: capacity - end - 32,
    }
}

fn push_tail(
    out: &mut Vec<Piece>,
    turn: Turn,
    number: u32,
    request: &Request,
    others: &[Placed],
    file: u32,
    site: &Site,
) -> Result<(), AllocError>
    ensures { OnOk result (out.new.items ≡ out.old.items ++ tail_in turn number request.now.prefer request.now.avoid others.now (file, site.now)) }
{
    if !site.is_open(file, number, request.avoid) {
        return Ok(());
    }
    if is_held(file, others) {
        return Ok(());
    }
    if !is_in_turn(turn, request.prefer, file, site) {
        return Ok(());
    }
    if !site.has_tail() {
        return Ok(());
    }
    out.push(tail_piece(file, site))?;
    Ok(())
}

/// The space behind the ends of those of these volumes that come in this turn.
pub fn push_tails(
    out: &mut Vec<Piece>,
    turn: Turn,
    number: u32,
    request: &Request,
    others: &[Placed],
    sites: &BTreeMap<u32, Site>,
) -> Result<(), AllocError>
    ensures { OnOk result (out.new.items ≡ out.old.items ++ tails_in turn number request.now.prefer request.now.avoid others.now sites.now.entries) }
{
    'sites: for (file, site) in sites {
        push_tail(out, turn, number, request, others, *file, site)?;
    }
    Ok(())
}

/// How many scratch volumes MAXSCRATCH allows the pool; none where it isn't there.
pub fn max_scratch(pools: &Pools, number: u32) -> u64
    ensures value { result ≡ max_scratch (row_at number pools.now.pools) }
    ensures few { result < 2 ^ 16 }
{
    match pools.pools().get(&number) {
        Some(pool) => u64::from(pool.settings.rule().max_scratch),
        None => 0,
    }
}

/// How many scratch volumes MAXSCRATCH still allows the pool.
fn scratch_left(number: u32, pools: &Pools, sites: &BTreeMap<u32, Site>) -> u64
    ensures value { result ≡ scratch_left number pools.now sites.now.entries }
    ensures few { result < 2 ^ 16 }
{
    max_scratch(pools, number).saturating_sub(scratch_count(number, sites))
}

fn push_scratch(
    out: &mut Vec<Piece>,
    capacity: u64,
    count: u64,
    file: u64,
) -> Result<(), AllocError>
    requires { file + count < 2 ^ 63 }
    ensures { OnOk result (out.new.items ≡ out.old.items ++ scratch_pieces capacity count file) }
{
    'files: for i in 0..count {
        out.push(Piece {
            file: file + i,
            offset: 0,
            room: capacity.saturating_sub(32),
        })?;
    }
    Ok(())
}

/// The free space of a sequential pool whose volumes have this capacity.
pub fn sequential_pieces(
    alloc: Global,
    pools: &Pools,
    counted: &Counted,
    request: &Request,
    next_file: u32,
    number: u32,
    capacity: u64,
) -> Result<Vec<Piece>, AllocError>
    ensures { IfOk result (λ v. v.items ≡ sequential_pieces number capacity request.now.prefer request.now.avoid next_file counted.now pools.now) }
{
    let sites = sites(alloc, pools, counted)?;
    let mut out = Vec::new(alloc);
    let others = counted.others.as_slice();
    push_tails(&mut out, Turn::Preferred, number, request, others, &sites)?;
    push_tails(&mut out, Turn::Filling, number, request, others, &sites)?;
    push_tails(&mut out, Turn::Empty, number, request, others, &sites)?;
    let left = scratch_left(number, pools, &sites);
    push_scratch(&mut out, capacity, left, u64::from(next_file))?;
    Ok(out)
}
