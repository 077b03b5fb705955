//! What is asked of each volume and of the segments on it.

ghost use Rattle.std.specs.Prelude.{◌≡◌};
ghost use Rattle.inventory_rows.specs.volume_rows.Held.{end_of};
ghost use Rattle.inventory_rows.specs.volume_rows.Holdings.{is_bare};
ghost use Rattle.inventory_rows.specs.Search.{segments_on};
ghost use Rattle.inventory_rows.specs.State.{inv_of};
ghost use Rattle.inventory_rules.specs.Held.{IsTied, holding};
ghost use Rattle.inventory_rules.specs.Valid.{is_sized, is_volume, volumes_are};
ghost use Rattle.inventory_check.specs.Laid.{are_laid, emptied_by, fits_below, high_held, is_behind, limit_of, low_held, row_agrees};

use inventory_rows::volume_rows::{HeldSegment, Volume};
use inventory_rows::{Tables, is_primary};
use inventory_rules::{is_format_size, may_have};
use std::collections::BTreeMap;

/// Where the segment's frame ends, in bytes.
fn end_of(segment: &HeldSegment) -> u128
    ensures { result ≡ end_of segment.now }
{
    segment.offset as u128 + 32 + segment.len as u128
}

fn low_held(sequential: bool, segment: &HeldSegment) -> u128
    ensures { result ≡ low_held sequential segment.now }
{
    if sequential {
        segment.offset as u128
    } else {
        segment.offset as u128 / 4096
    }
}

fn high_held(sequential: bool, segment: &HeldSegment) -> u128
    ensures { result ≡ high_held sequential segment.now }
{
    let end = segment.offset as u128 + 32 + segment.len as u128;
    if sequential { end } else { (end + 4095) / 4096 }
}

fn fits_below(sequential: bool, most: u64, segment: &HeldSegment) -> bool
    ensures { result ≡ fits_below sequential most segment.now }
{
    end_of(segment) <= most as u128 && (sequential || segment.offset % 4096 == 0)
}

fn is_behind(sequential: bool, low: u128, segment: &HeldSegment, repeats: u64) -> bool
    ensures { result ≡ is_behind sequential low segment.now repeats }
{
    repeats == 0 && low <= low_held(sequential, segment)
}

/// Whether the segments end at or before this place, and each stands once and behind the one before it.
fn are_laid(sequential: bool, most: u64, held: &BTreeMap<HeldSegment, u64>) -> bool
    ensures { result ≡ are_laid sequential most 0 held.now.entries }
{
    let mut low = 0;
    'held: for (segment, repeats) in held {
        if !(fits_below(sequential, most, segment)
            && is_behind(sequential, low, segment, *repeats))
        {
            return false;
        }
        low = high_held(sequential, segment);
    }
    true
}

fn limit_of(sequential: bool, volume: &Volume) -> u64
    ensures { result ≡ limit_of sequential volume.now }
{
    if sequential {
        volume.end
    } else {
        volume.capacity.bytes()
    }
}

fn is_sized(tables: &Tables, sequential: bool, volume: &Volume) -> bool
    ensures { result ≡ is_sized sequential (inv_of tables.now) volume.now }
{
    let bytes = volume.capacity.bytes();
    if sequential {
        match tables.pools.pool_capacity(volume.pool) {
            Some(capacity) => bytes == capacity.bytes() && volume.end <= bytes,
            None => false,
        }
    } else {
        is_format_size(bytes) && (volume.end == 0 && !volume.scratch)
    }
}

fn is_emptied_rightly(sequential: bool, volume: &Volume) -> bool
    ensures { result ≡ emptied_by sequential volume.now (is_bare volume.now.segments) }
{
    if sequential && (volume.end != 0 && volume.segments.is_empty()) {
        volume.emptied.is_some()
    } else {
        volume.emptied.is_none()
    }
}

/// Whether the volume is as its pool and the segments of its row say.
fn row_agrees(tables: &Tables, sequential: bool, volume: &Volume) -> bool
    ensures { result ≡ row_agrees (inv_of tables.now) sequential volume.now }
{
    is_sized(tables, sequential, volume)
        && (may_have(volume.access, is_primary(tables, volume.pool))
            && (are_laid(
                sequential,
                limit_of(sequential, volume),
                volume.segments.as_map(),
            ) && is_emptied_rightly(sequential, volume)))
}

fn is_volume(tables: &Tables, file: u32, volume: &Volume) -> bool
    requires { volume.now.segments ≡ holding (segments_on file (inv_of tables.now)) }
    ensures { result ≡ is_volume (inv_of tables.now) (file, volume.now) }
{
    let held = volume.segments.as_map();
    let _len = held.len();
    row_agrees(tables, tables.pools.is_sequential(volume.pool), volume)
}

/// Whether each volume is as its pool and the segments on it say, which the volume's row has to hold.
pub fn volumes_are(tables: &Tables) -> bool
    requires { IsTied (inv_of tables.now) }
    ensures { result ≡ volumes_are (inv_of tables.now) }
{
    'volumes: for (file, volume) in tables.pools.volumes() {
        if !is_volume(tables, *file, volume) {
            return false;
        }
    }
    true
}
