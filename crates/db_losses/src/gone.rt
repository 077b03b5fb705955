// The segments of the copies that are lost go from their volumes.
ghost use Rattle.std.specs.Prelude.{◌≡◌, ◌∷◌, []};
ghost use Rattle.inventory_rows.specs.pool_rows.Segments.{take_segment};
ghost use Rattle.inventory_rows.specs.object_rows.Filespaces.{versions_of};
ghost use Rattle.inventory_rows.specs.object_rows.HeldRows.{held_versions};
ghost use Rattle.inventory_rows.specs.object_rows.Rows.{kept_of};
ghost use Rattle.inventory_rules.specs.Common.{or_same};
ghost use Rattle.inventory_effects.specs.Volumes.{taken};
ghost use Rattle.db_losses.specs.Losses.{all_gone, lost_of, lost_of_copies, lost_of_groups};

use crate::losses::Losses;
use inventory_rows::object_rows::{HeldRow, Objects};
use inventory_rows::pool_rows::Pools;
use inventory_rows::version_groups::{CopyRow, Filespace, Group, Version};
use kinds::{Day, Path, Segment};
use std::collections::BTreeMap;

/// A segment goes from its volume, where it is there.
fn take_one(pools: &mut Pools, object: u64, segment: &Segment, day: Day)
    ensures { pools.new ≡ or_same pools.old (take_segment object segment.now day pools.old) }
{
    match pools.take_segment(object, segment, day) {
        Ok(()) => {}
        Err(_) => {}
    }
}

/// The segments of an object's copy go from their volumes.
fn take(pools: &mut Pools, object: u64, segments: &[Segment], day: Day)
    ensures { pools.new ≡ taken object segments.now day pools.old }
{
    'segments: for segment in segments {
        take_one(pools, object, segment, day);
    }
}

/// The segments of a copy of an object go from their volumes, where it is lost.
fn take_copy(pools: &mut Pools, losses: &Losses, object: u64, copy: &CopyRow, day: Day)
    ensures { pools.new ≡ all_gone (lost_of_copies losses.now object (copy.now ∷ [])) day pools.old }
{
    if losses.has(object, copy.pool) {
        take(pools, object, copy.segments.as_slice(), day);
    }
}

/// The segments of those of an object's copies go that are lost.
fn take_copies(pools: &mut Pools, losses: &Losses, object: u64, copies: &[CopyRow], day: Day)
    ensures { pools.new ≡ all_gone (lost_of_copies losses.now object copies.now) day pools.old }
{
    'copies: for copy in copies {
        take_copy(pools, losses, object, copy, day);
    }
}

/// The same of some versions.
fn take_versions(pools: &mut Pools, losses: &Losses, versions: &[Version], day: Day)
    ensures { pools.new ≡ all_gone (lost_of losses.now versions.now) day pools.old }
{
    'versions: for version in versions {
        take_copies(
            pools,
            losses,
            version.object,
            version.copies.as_slice(),
            day,
        );
    }
}

/// The same of the versions of some groups.
fn take_groups(pools: &mut Pools, losses: &Losses, groups: &BTreeMap<Path, Group>, day: Day)
    ensures { pools.new ≡ all_gone (lost_of_groups losses.now groups.now.entries) day pools.old }
{
    'groups: for (_, group) in groups.iter() {
        take_versions(pools, losses, group.versions.as_slice(), day);
    }
}

/// The same of the versions in some filespaces.
fn take_filespaces(
    pools: &mut Pools,
    losses: &Losses,
    filespaces: &BTreeMap<u32, Filespace>,
    day: Day,
)
    ensures { pools.new ≡ all_gone (lost_of losses.now (versions_of filespaces.now.entries)) day pools.old }
{
    'filespaces: for (_, filespace) in filespaces.iter() {
        take_groups(pools, losses, filespace.groups.as_map(), day);
    }
}

/// The same of some held objects.
fn take_held(pools: &mut Pools, losses: &Losses, held: &BTreeMap<u64, HeldRow>, day: Day)
    ensures { pools.new ≡ all_gone (lost_of losses.now (held_versions held.now.entries)) day pools.old }
{
    'held: for (_, row) in held.iter() {
        take_copies(
            pools,
            losses,
            row.held.version.object,
            row.held.version.copies.as_slice(),
            day,
        );
    }
}

/// The same of all that is kept. It takes no memory.
pub(crate) fn take_all(pools: &mut Pools, losses: &Losses, objects: &Objects, day: Day)
    ensures { pools.new ≡ all_gone (lost_of losses.now (kept_of objects.now)) day pools.old }
{
    take_filespaces(pools, losses, objects.filespaces(), day);
    take_held(pools, losses, objects.held(), day);
}
