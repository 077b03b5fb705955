//! The segments of the copies, put on their volumes.
ghost use Rattle.std.specs.Prelude.{◌≡◌, ◌∷◌, ◌++◌, [], OnOk, IfOk};
ghost use Rattle.inventory_rows.specs.volume_rows.Holdings.{with_segment};
ghost use Rattle.inventory_rows.specs.object_rows.HeldRows.{held_versions};
ghost use Rattle.inventory_bytes.specs.Segments.{of_segments, of_copies, of_versions, of_groups, of_filespaces, of_kept, Fills};

use fields::Memory;
use inventory_rows::object_rows::HeldRow;
use inventory_rows::version_groups::{CopyRow, Filespace, Group, Version};
use inventory_rows::volume_rows::{HeldSegment, Volume};
use kinds::{Path, Segment};
use std::collections::BTreeMap;

/// Puts a segment on a volume, which ends where it ended.
fn hold(volume: &mut Volume, segment: HeldSegment) -> Result<(), Memory>
    ensures { OnOk result (volume.new ≡ record volume.old { segments = with_segment segment volume.old.segments }) }
{
    match volume.segments.put(segment) {
        Ok(()) => Ok(()),
        Err(_) => Err(Memory),
    }
}

/// Puts an object's segment on its volume; false where that isn't there.
fn put_segment(
    volumes: &mut BTreeMap<u32, Volume>,
    object: u64,
    segment: &Segment,
) -> Result<bool, Memory>
    ensures { IfOk result (λ there. Fills there volumes.old.entries volumes.new.entries ((object, segment.now) ∷ [])) }
{
    let _len = volumes.len();
    let held = HeldSegment::new(object, segment);
    match volumes.get_mut(&segment.file) {
        Some(volume) => {
            hold(volume, held)?;
            Ok(true)
        }
        None => Ok(false),
    }
}

/// Puts an object's segments on their volumes; false where one of these isn't there.
fn put_segments(
    volumes: &mut BTreeMap<u32, Volume>,
    object: u64,
    segments: &[Segment],
) -> Result<bool, Memory>
    ensures { IfOk result (λ there. Fills there volumes.old.entries volumes.new.entries (of_segments object segments.now)) }
{
    'segments: for segment in segments {
        if !put_segment(volumes, object, segment)? {
            return Ok(false);
        }
    }
    Ok(true)
}

/// Puts the segments of an object's copies on their volumes; false where one of these isn't there.
fn put_copies(
    volumes: &mut BTreeMap<u32, Volume>,
    object: u64,
    copies: &[CopyRow],
) -> Result<bool, Memory>
    ensures { IfOk result (λ there. Fills there volumes.old.entries volumes.new.entries (of_copies object copies.now)) }
{
    'copies: for copy in copies {
        if !put_segments(volumes, object, copy.segments.as_slice())? {
            return Ok(false);
        }
    }
    Ok(true)
}

/// Puts the segments of some versions' copies on their volumes; false where one of these isn't there.
fn put_versions(volumes: &mut BTreeMap<u32, Volume>, versions: &[Version]) -> Result<bool, Memory>
    ensures { IfOk result (λ there. Fills there volumes.old.entries volumes.new.entries (of_versions versions.now)) }
{
    'versions: for version in versions {
        if !put_copies(volumes, version.object, version.copies.as_slice())? {
            return Ok(false);
        }
    }
    Ok(true)
}

/// Puts the segments of the groups' versions on their volumes; false where one of these isn't there.
fn put_groups(
    volumes: &mut BTreeMap<u32, Volume>,
    groups: &BTreeMap<Path, Group>,
) -> Result<bool, Memory>
    ensures { IfOk result (λ there. Fills there volumes.old.entries volumes.new.entries (of_groups groups.now.entries)) }
{
    'groups: for (_, group) in groups.iter() {
        if !put_versions(volumes, group.versions.as_slice())? {
            return Ok(false);
        }
    }
    Ok(true)
}

/// Puts the segments of the versions' copies on their volumes; false where one of these isn't there.
fn put_filespaces(
    volumes: &mut BTreeMap<u32, Volume>,
    filespaces: &BTreeMap<u32, Filespace>,
) -> Result<bool, Memory>
    ensures { IfOk result (λ there. Fills there volumes.old.entries volumes.new.entries (of_filespaces filespaces.now.entries)) }
{
    'filespaces: for (_, filespace) in filespaces.iter() {
        if !put_groups(volumes, filespace.groups.as_map())? {
            return Ok(false);
        }
    }
    Ok(true)
}

/// Puts the segments of the held objects' copies on their volumes; false where one of these isn't there.
fn put_held(
    volumes: &mut BTreeMap<u32, Volume>,
    held: &BTreeMap<u64, HeldRow>,
) -> Result<bool, Memory>
    ensures { IfOk result (λ there. Fills there volumes.old.entries volumes.new.entries (of_versions (held_versions held.now.entries))) }
{
    'held: for (_, row) in held.iter() {
        if !put_copies(
            volumes,
            row.held.version.object,
            row.held.version.copies.as_slice(),
        )? {
            return Ok(false);
        }
    }
    Ok(true)
}

/// Puts the segments of all copies on their volumes; false where one of these isn't there.
pub(crate) fn put_all(
    volumes: &mut BTreeMap<u32, Volume>,
    filespaces: &BTreeMap<u32, Filespace>,
    held: &BTreeMap<u64, HeldRow>,
) -> Result<bool, Memory>
    ensures { IfOk result (λ there. Fills there volumes.old.entries volumes.new.entries (of_kept filespaces.now.entries held.now.entries)) }
{
    if !put_filespaces(volumes, filespaces)? {
        return Ok(false);
    }
    put_held(volumes, held)
}
