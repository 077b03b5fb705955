ghost use Rattle.std.specs.Prelude.{◌≡◌, ℕ, false, is_some, ◌∷◌, ◌==◌, List, Some, None, map, length, Ok};
ghost use Rattle.std.specs.Map.{lookup, remove_entry};
ghost use Rattle.std.specs.Result.{result_err};
ghost use Rattle.version_groups.specs.kinds.Answers.{Becomes};
ghost use Rattle.object_rows.specs.Changes.{least, least_object, filespaces_defined, filespaces_without};
ghost use Rattle.object_rows.specs.declared.place.Node.{Node};
ghost use Rattle.object_rows.specs.Filespaces.{at_number, filespace_at};
ghost use Rattle.object_rows.specs.Names.{filespace_named, filespace_of, SpacesIndexed};
ghost use Rattle.object_rows.specs.Places.{Indexed};
ghost use Rattle.object_rows.specs.declared.tally.Tally.{Tally};
ghost use Rattle.object_rows.specs.Tally.{IsCounted};

use crate::held_rows::HeldRows;
use crate::place::Place;
use crate::space_names;
use crate::space_names::SpaceNames;
use std::alloc::Global;
use std::collections::BTreeMap;
use version_groups::kinds::{FilespaceName, Path, Refusal, lesser};
use version_groups::{Filespace, Group, Groups, Version};

/// The number of the node's filespace with this name. It takes no memory.
pub(crate) fn named(
    spaces: &BTreeMap<u32, SpaceNames>,
    filespaces: &BTreeMap<u32, Filespace>,
    node: u32,
    name: &FilespaceName,
) -> Option<u32>
    requires { SpacesIndexed spaces.now.entries filespaces.now.entries }
    ensures { result ≡ filespace_named node name.now filespaces.now.entries }
{
    space_names::get(spaces, node, name)
}

/// The least number of a filespace of the node.
fn least_of_node(filespaces: &BTreeMap<u32, Filespace>, node: u32) -> Option<u32>
    ensures { result ≡ filespace_of node filespaces.now.entries }
{
    'filespaces: for (number, filespace) in filespaces.iter() {
        if filespace.node == node {
            return Some(*number);
        }
    }
    None
}

/// The least number of a filespace of the node. It walks the filespaces only where there is one.
pub(crate) fn of_node(
    spaces: &BTreeMap<u32, SpaceNames>,
    filespaces: &BTreeMap<u32, Filespace>,
    node: u32,
) -> Option<u32>
    requires { SpacesIndexed spaces.now.entries filespaces.now.entries }
    ensures { result ≡ filespace_of node filespaces.now.entries }
{
    if space_names::has_none(spaces, node) {
        return None;
    }
    least_of_node(filespaces, node)
}

/// The least object of the versions.
fn least_of(versions: &[Version]) -> Option<u64>
    ensures { result ≡ least (map (λ v. v.object) versions.now) }
{
    let mut found = None;
    'versions: for version in versions {
        found = lesser(found, Some(version.object));
    }
    found
}

/// The least object that has a version in the groups.
pub(crate) fn least_object(groups: &BTreeMap<Path, Group>) -> Option<u64>
    ensures { result ≡ least_object groups.now.entries }
{
    let mut found = None;
    'groups: for (_, group) in groups.iter() {
        found = lesser(found, least_of(group.versions.as_slice()));
    }
    found
}

/// Defines a filespace without groups, which is not refused.
#[tactic(auto, using(crate::proofs::Made::space_comes))]
pub(crate) fn define(
    alloc: Global,
    places: &BTreeMap<u64, Place>,
    spaces: &mut BTreeMap<u32, SpaceNames>,
    filespaces: &mut BTreeMap<u32, Filespace>,
    node: u32,
    name: &FilespaceName,
    number: u32,
) -> Result<(), Refusal>
    requires indexed { Indexed places.now.entries filespaces.old.entries }
    requires named { SpacesIndexed spaces.old.entries filespaces.old.entries }
    requires free { is_some (filespace_at number filespaces.old.entries) ≡ false }
    requires new { filespace_named node name.now filespaces.old.entries ≡ None }
    ensures value { (nodes : List (ℕ × Node)) → result_err (filespaces_defined node name.now number nodes filespaces.old.entries) ≡ None
        → Becomes result filespaces.old.entries filespaces.new.entries (filespaces_defined node name.now number nodes filespaces.old.entries) }
    ensures indexed { Indexed places.now.entries filespaces.new.entries }
    ensures named { SpacesIndexed spaces.new.entries filespaces.new.entries }
    ensures counted { (tally : Tally) → IsCounted tally filespaces.old.entries → IsCounted tally filespaces.new.entries }
{
    let filespace = Filespace {
        node,
        name: name.clone()?,
        groups: Groups::new(alloc),
    };
    space_names::put(alloc, spaces, node, name.clone()?, number)?;
    match filespaces.insert(number, filespace) {
        Ok(_) => Ok(()),
        Err(_) => {
            space_names::take(spaces, node, name);
            Err(Refusal::Memory)
        }
    }
}

/// Takes a filespace away, which is not refused.
#[tactic(auto, using(crate::proofs::Made::space_goes))]
pub(crate) fn delete(
    held: &HeldRows,
    places: &BTreeMap<u64, Place>,
    spaces: &mut BTreeMap<u32, SpaceNames>,
    filespaces: &mut BTreeMap<u32, Filespace>,
    number: u32,
)
    requires indexed { Indexed places.now.entries filespaces.old.entries }
    requires named { SpacesIndexed spaces.old.entries filespaces.old.entries }
    requires fine { result_err (filespaces_without number held.now filespaces.old.entries) ≡ None }
    ensures value { filespaces_without number held.now filespaces.old.entries ≡ Ok filespaces.new.entries }
    ensures indexed { Indexed places.now.entries filespaces.new.entries }
    ensures named { SpacesIndexed spaces.new.entries filespaces.new.entries }
    ensures counted { (tally : Tally) → IsCounted tally filespaces.old.entries → IsCounted tally filespaces.new.entries }
{
    match filespaces.get(&number) {
        None => return,
        Some(filespace) => space_names::take(spaces, filespace.node, &filespace.name),
    }
    filespaces.remove(&number);
}
