// The free space of pools of random access.
ghost use Rattle.std.specs.Prelude.{◌≡◌, ℕ, List, [], ◌∷◌, ◌++◌, map, IfOk, OnOk};
ghost use Rattle.std.specs.List.{flat_map};
ghost use Rattle.kinds.specs.declared.segment.Segment.{Segment};
ghost use Rattle.extent_map.specs.Blocks.{free_runs};
ghost use Rattle.space.specs.Claims.{if_there, on_volume};
ghost use Rattle.space.specs.Pieces.{copies_on, segments_on, blocks_used, used_on, run_piece, open_pieces, preferred_pieces, other_pieces, random_pieces};

use crate::counted::Counted;
use crate::piece::Piece;
use crate::places::Placed;
use crate::request::Request;
use crate::volumes::site_of;
use extent_map::{Extents, Run};
use kinds::Segment;
use pool_rows::Pools;
use pool_rows::volume_rows::{HeldSegment, Holdings, Volume};
use std::alloc::{AllocError, Global};

fn segment_of(file: u32, held: &HeldSegment) -> Segment
    ensures { result ≡ record { file = file; offset = held.now.offset; len = held.now.len } }
{
    Segment {
        file,
        offset: held.offset,
        len: held.len,
    }
}

fn push_copies(out: &mut Vec<Segment>, file: u32, segments: &Holdings) -> Result<(), AllocError>
    ensures { OnOk result (out.new.items ≡ out.old.items ++ map (λ e. record { file = file; offset = e.0.offset; len = e.0.len }) segments.now) }
{
    'copies: for (held, _) in segments.as_map() {
        out.push(segment_of(file, held))?;
    }
    Ok(())
}

fn push_if_there(out: &mut Vec<Segment>, file: u32, place: &Placed) -> Result<(), AllocError>
    ensures { OnOk result (out.new.items ≡ out.old.items ++ if_there file place.now) }
{
    if place.segment.file == file {
        out.push(place.segment)?;
    }
    Ok(())
}

fn push_claims(out: &mut Vec<Segment>, file: u32, places: &[Placed]) -> Result<(), AllocError>
    ensures { OnOk result (out.new.items ≡ out.old.items ++ on_volume file places.now) }
{
    'places: for place in places {
        push_if_there(out, file, place)?;
    }
    Ok(())
}

/// The segments on a volume that count.
fn segments_on(
    alloc: Global,
    counted: &Counted,
    file: u32,
    volume: &Volume,
) -> Result<Vec<Segment>, AllocError>
    ensures { IfOk result (λ v. v.items ≡ segments_on counted.now (file, volume.now)) }
{
    let mut out = Vec::new(alloc);
    push_copies(&mut out, file, &volume.segments)?;
    push_claims(&mut out, file, counted.own.as_slice())?;
    push_claims(&mut out, file, counted.others.as_slice())?;
    push_claims(&mut out, file, counted.freed.as_slice())?;
    Ok(out)
}

/// The blocks of a segment come into use, as far as the volume has them.
fn mark(extents: &mut Extents, segment: &Segment)
    ensures { (count : ℕ) (segments : List Segment) → extents.old ≡ blocks_used count segments → extents.new ≡ blocks_used count (segments ++ segment.now ∷ []) }
{
    let count = extents.blocks();
    let low = segment.offset / 4096;
    let high = (u128::from(segment.offset) + 32 + u128::from(segment.len) + 4095) / 4096;
    let first = low.min(u64::from(count));
    let end = high.min(u128::from(count)) as u64;
    extents.mark_used(Run {
        first: first as u32,
        blocks: (end - first) as u32,
    });
}

fn mark_all(extents: &mut Extents, segments: &[Segment])
    ensures { (count : ℕ) → extents.old ≡ blocks_used count [] → extents.new ≡ blocks_used count segments.now }
{
    'segments: for segment in segments {
        mark(extents, segment);
    }
}

#[tactic(auto, using(crate::proofs::Used::none_used))]
fn all_free(alloc: Global, blocks: u32) -> Result<Extents, AllocError>
    ensures { IfOk result (λ e. e ≡ blocks_used blocks []) }
{
    match Extents::new(alloc, blocks) {
        Ok(extents) => Ok(extents),
        Err(_) => Err(AllocError),
    }
}

/// Which blocks of a volume of random access count as used.
pub fn used_on(
    alloc: Global,
    counted: &Counted,
    file: u32,
    volume: &Volume,
) -> Result<Extents, AllocError>
    ensures { IfOk result (λ e. e ≡ used_on counted.now (file, volume.now)) }
{
    let segments = segments_on(alloc, counted, file, volume)?;
    let mut extents = all_free(alloc, (volume.capacity.bytes() / 4096) as u32)?;
    mark_all(&mut extents, segments.as_slice());
    Ok(extents)
}

fn run_piece(file: u32, run: &Run) -> Piece
    ensures { result ≡ run_piece file run.now }
{
    Piece {
        file: u64::from(file),
        offset: 4096 * u64::from(run.first),
        room: (4096 * u64::from(run.blocks)).saturating_sub(32),
    }
}

fn free_runs(alloc: Global, extents: &Extents) -> Result<Vec<Run>, AllocError>
    ensures { IfOk result (λ v. v.items ≡ free_runs extents.now) }
{
    match extents.free_runs(alloc) {
        Ok(runs) => Ok(runs),
        Err(_) => Err(AllocError),
    }
}

fn push_runs(out: &mut Vec<Piece>, file: u32, runs: &[Run]) -> Result<(), AllocError>
    ensures { OnOk result (out.new.items ≡ out.old.items ++ map (run_piece file) runs.now) }
{
    'runs: for run in runs {
        out.push(run_piece(file, run))?;
    }
    Ok(())
}

fn push_open(
    alloc: Global,
    out: &mut Vec<Piece>,
    number: u32,
    request: &Request,
    counted: &Counted,
    file: u32,
    volume: &Volume,
) -> Result<(), AllocError>
    ensures { OnOk result (out.new.items ≡ out.old.items ++ open_pieces number request.now.avoid counted.now (file, volume.now)) }
{
    let site = site_of(volume);
    if !site.is_open(file, number, request.avoid) {
        return Ok(());
    }
    let extents = used_on(alloc, counted, file, volume)?;
    let runs = free_runs(alloc, &extents)?;
    push_runs(out, file, runs.as_slice())?;
    Ok(())
}

fn push_preferred(
    alloc: Global,
    out: &mut Vec<Piece>,
    number: u32,
    request: &Request,
    counted: &Counted,
    file: u32,
    volume: &Volume,
) -> Result<(), AllocError>
    ensures { OnOk result (out.new.items ≡ out.old.items ++ preferred_pieces number request.now.prefer request.now.avoid counted.now (file, volume.now)) }
{
    if file == request.prefer {
        push_open(alloc, out, number, request, counted, file, volume)?;
    }
    Ok(())
}

fn push_other(
    alloc: Global,
    out: &mut Vec<Piece>,
    number: u32,
    request: &Request,
    counted: &Counted,
    file: u32,
    volume: &Volume,
) -> Result<(), AllocError>
    ensures { OnOk result (out.new.items ≡ out.old.items ++ other_pieces number request.now.prefer request.now.avoid counted.now (file, volume.now)) }
{
    if file != request.prefer {
        push_open(alloc, out, number, request, counted, file, volume)?;
    }
    Ok(())
}

fn push_all_preferred(
    alloc: Global,
    out: &mut Vec<Piece>,
    number: u32,
    request: &Request,
    counted: &Counted,
    pools: &Pools,
) -> Result<(), AllocError>
    ensures { OnOk result (out.new.items ≡ out.old.items ++ flat_map (preferred_pieces number request.now.prefer request.now.avoid counted.now) pools.now.volumes) }
{
    'volumes: for (file, volume) in pools.volumes() {
        push_preferred(alloc, out, number, request, counted, *file, volume)?;
    }
    Ok(())
}

fn push_all_others(
    alloc: Global,
    out: &mut Vec<Piece>,
    number: u32,
    request: &Request,
    counted: &Counted,
    pools: &Pools,
) -> Result<(), AllocError>
    ensures { OnOk result (out.new.items ≡ out.old.items ++ flat_map (other_pieces number request.now.prefer request.now.avoid counted.now) pools.now.volumes) }
{
    'volumes: for (file, volume) in pools.volumes() {
        push_other(alloc, out, number, request, counted, *file, volume)?;
    }
    Ok(())
}

/// The free space of a pool of random access.
pub fn random_pieces(
    alloc: Global,
    pools: &Pools,
    counted: &Counted,
    request: &Request,
    number: u32,
) -> Result<Vec<Piece>, AllocError>
    ensures { IfOk result (λ v. v.items ≡ random_pieces number request.now.prefer request.now.avoid counted.now pools.now) }
{
    let mut out = Vec::new(alloc);
    push_all_preferred(alloc, &mut out, number, request, counted, pools)?;
    push_all_others(alloc, &mut out, number, request, counted, pools)?;
    Ok(out)
}
