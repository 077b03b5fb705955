ghost use Rattle.std.specs.Prelude.{◌≡◌, IsTrue};
ghost use Rattle.std.specs.Cmp.Lexicographic.{slice_cmp};
ghost use Rattle.std.specs.Ordering.{nat_cmp};
ghost use Rattle.object_rows.specs.Build.{Builds, are_apart};
ghost use Rattle.object_rows.specs.Names.{named};
ghost use Rattle.object_rows.specs.Places.{are_full, are_all_full, AreAllOrderly, listed, listed_at, listed_in};
ghost use Rattle.object_rows.specs.SpaceNames.{BuildsNames};

use crate::held_object::HeldRow;
use crate::place::{Node, Place};
use crate::space_names;
use crate::space_names::SpaceNames;
use std::alloc::Global;
use std::collections::BTreeMap;
use version_groups::kinds::{NodeName, Path, Refusal};
use version_groups::{Filespace, Group, Version};

/// Puts each node's name into the index; false where two nodes have one.
pub(crate) fn add_nodes(
    names: &mut BTreeMap<NodeName, u32>,
    nodes: &BTreeMap<u32, Node>,
) -> Result<bool, Refusal>
    ensures { Builds (slice_cmp nat_cmp) result names.old.entries names.new.entries (named nodes.now.entries) }
{
    'nodes: for (number, node) in nodes.iter() {
        if names.contains_key(&node.name) {
            return Ok(false);
        }
        names.insert(node.name.clone()?, *number)?;
    }
    Ok(true)
}

/// Puts each filespace's name into the index of its node; false where two filespaces of one node have one.
pub(crate) fn add_spaces(
    alloc: Global,
    spaces: &mut BTreeMap<u32, SpaceNames>,
    filespaces: &BTreeMap<u32, Filespace>,
) -> Result<bool, Refusal>
    ensures { BuildsNames result spaces.old.entries spaces.new.entries filespaces.now.entries }
{
    'filespaces: for (number, filespace) in filespaces.iter() {
        if space_names::get(spaces, filespace.node, &filespace.name).is_some() {
            return Ok(false);
        }
        let name = filespace.name.clone()?;
        space_names::put(alloc, spaces, filespace.node, name, *number)?;
    }
    Ok(true)
}

/// Puts the place of each version into the index; false where an object has one already.
fn add_versions(
    places: &mut BTreeMap<u64, Place>,
    number: u32,
    path: &Path,
    versions: &[Version],
) -> Result<bool, Refusal>
    ensures { Builds nat_cmp result places.old.entries places.new.entries (listed_at number path.now versions.now) }
{
    'versions: for version in versions {
        if places.contains_key(&version.object) {
            return Ok(false);
        }
        let place = Place {
            filespace: number,
            path: path.clone()?,
        };
        places.insert(version.object, place)?;
    }
    Ok(true)
}

/// Puts the places of the groups' versions into the index; false where an object has one already.
fn add_groups(
    places: &mut BTreeMap<u64, Place>,
    number: u32,
    groups: &BTreeMap<Path, Group>,
) -> Result<bool, Refusal>
    ensures { Builds nat_cmp result places.old.entries places.new.entries (listed_in number groups.now.entries) }
{
    'groups: for (path, group) in groups.iter() {
        if !add_versions(places, number, path, group.versions.as_slice())? {
            return Ok(false);
        }
    }
    Ok(true)
}

/// Puts the places of all versions into the index; false where two versions are of one object.
pub(crate) fn add_filespaces(
    places: &mut BTreeMap<u64, Place>,
    filespaces: &BTreeMap<u32, Filespace>,
) -> Result<bool, Refusal>
    ensures { Builds nat_cmp result places.old.entries places.new.entries (listed filespaces.now.entries) }
{
    'filespaces: for (number, filespace) in filespaces.iter() {
        if !add_groups(places, *number, filespace.groups.as_map())? {
            return Ok(false);
        }
    }
    Ok(true)
}

/// Whether each group has a version.
fn are_full(groups: &BTreeMap<Path, Group>) -> bool
    ensures { result ≡ are_full groups.now.entries }
{
    'groups: for (_, group) in groups.iter() {
        if group.versions.is_empty() {
            return false;
        }
    }
    true
}

/// Whether each group of each filespace has a version, and the groups stand by path.
pub(crate) fn are_all_full(filespaces: &BTreeMap<u32, Filespace>) -> bool
    ensures value { result ≡ are_all_full filespaces.now.entries }
    ensures orderly { IsTrue result → AreAllOrderly filespaces.now.entries }
{
    'filespaces: for (_, filespace) in filespaces.iter() {
        if !are_full(filespace.groups.as_map()) {
            return false;
        }
    }
    true
}

/// Whether no held object has a number that has a place.
pub(crate) fn are_apart(places: &BTreeMap<u64, Place>, held: &BTreeMap<u64, HeldRow>) -> bool
    ensures { result ≡ are_apart places.now.entries held.now.entries }
{
    'rows: for (object, _) in held.iter() {
        if places.contains_key(object) {
            return false;
        }
    }
    true
}
