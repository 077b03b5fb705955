ghost use Rattle.std.specs.Prelude.{◌≡◌, ◌+◌, ◌∷◌, false, true, IsTrue, is_some, OnOk, Ok, []};
ghost use Rattle.std.specs.Option.{option_copied};
ghost use Rattle.kinds.specs.Answers.{Becomes, Makes};
ghost use Rattle.version_groups.specs.Copies.{takes_free_pool, Alters};
ghost use Rattle.version_groups.specs.Entries.{changed_at, is_nil};
ghost use Rattle.version_groups.specs.Groups.{AreByPath, at_path, group_after, group_at, groups_after, groups_altered, groups_with, versions_after, versions_at, without_empty, count_of, taken, TakesAway, VersionsBecome, ObjectsStay, UndoGivesBack};
ghost use Rattle.version_groups.specs.Versions.{is_empty, has_object, version_of, copies_of, superseded};

use crate::copies::CopyChange;
use crate::group::{Group, GroupChange};
use crate::versions::Version;
use kinds::{FilespaceName, Name, Path, Refusal};
use std::alloc::{AllocError, Global};
use std::collections::BTreeMap;
use std::marker::Model;

/// The groups of the paths of one filespace, in ascending order of the paths.
#[derive(Drop)]
pub struct Groups {
    map: BTreeMap<Path, Group>,
}

impl Model for Groups {
    ghost use Rattle.std.specs.Prelude.{List, ℕ};
    ghost use Rattle.version_groups.specs.declared.group.Group.{Group};

    ghost Value = { List (List ℕ × Group) };

    ghost view = { λ g. g.map.entries };

    ghost use Rattle.version_groups.specs.Groups.{AreByPath};

    ghost invariant = { λ g. AreByPath g.map.entries };
}

/// A filespace of a client node.
#[derive(Drop)]
pub struct Filespace {
    /// The node's number.
    pub node: u32,
    /// The filespace's name.
    pub name: FilespaceName,
    /// The groups of its paths.
    pub groups: Groups,
}

/// Changes the group of the path, which has to be there.
fn change_at(
    map: &mut BTreeMap<Path, Group>,
    path: &Path,
    change: GroupChange,
) -> Result<(), Refusal>
    ensures value { Makes result map.old.entries map.new.entries (changed_at (at_path path.now) (group_after change) map.old.entries) }
    ensures taken { OnOk result (TakesAway change (versions_at path.now map.old.entries)) }
    ensures ordered { AreByPath map.new.entries }
{
    match map.get_mut(path) {
        None => Err(Refusal::NotFound),
        Some(group) => group.change(change),
    }
}

/// Changes copies of an object of the path, which has to be there.
fn alter_at(
    map: &mut BTreeMap<Path, Group>,
    path: &Path,
    object: u64,
    change: CopyChange,
) -> Result<(), Refusal>
    requires { IsTrue (takes_free_pool change (copies_of object (versions_at path.now map.old.entries))) }
    ensures value { Alters change result map.old.entries map.new.entries (groups_altered path.now object change map.old.entries) }
    ensures ordered { AreByPath map.new.entries }
{
    match map.get_mut(path) {
        None => Err(Refusal::NotFound),
        Some(group) => group.alter(object, change),
    }
}

/// Puts a version into the group of the path, which has to be there.
fn put_at(
    map: &mut BTreeMap<Path, Group>,
    path: &Path,
    class: Name,
    version: Version,
) -> Result<(), Refusal>
    requires there { is_some (group_at path.now map.old.entries) ≡ true }
    requires new { has_object version.object (versions_at path.now map.old.entries) ≡ false }
    ensures value { Becomes result map.old.entries map.new.entries (Ok (groups_with path.now class version map.old.entries)) }
    ensures ordered { AreByPath map.new.entries }
{
    match map.get_mut(path) {
        None => Err(Refusal::NotFound),
        Some(group) => group.put(class, version),
    }
}

/// Makes the group of the path, which has none.
fn add(
    map: &mut BTreeMap<Path, Group>,
    path: &Path,
    class: Name,
    version: Version,
) -> Result<(), Refusal>
    requires { is_some (group_at path.now map.old.entries) ≡ false }
    ensures value { Becomes result map.old.entries map.new.entries (Ok (groups_with path.now class version map.old.entries)) }
    ensures ordered { OnOk result (AreByPath map.new.entries) }
{
    let group = Group::of_one(class, version)?;
    map.insert(path.clone()?, group)?;
    Ok(())
}

/// Puts a version into the group of the path, or makes that group.
fn put(
    map: &mut BTreeMap<Path, Group>,
    path: &Path,
    class: Name,
    version: Version,
) -> Result<(), Refusal>
    requires ordered { AreByPath map.old.entries }
    requires new { has_object version.object (versions_at path.now map.old.entries) ≡ false }
    ensures value { Becomes result map.old.entries map.new.entries (Ok (groups_with path.now class version map.old.entries)) }
    ensures ordered { AreByPath map.new.entries }
{
    if map.contains_key(path) {
        put_at(map, path, class, version)
    } else {
        add(map, path, class, version)
    }
}

/// Changes the group of the path, and takes it away if it has no version then.
fn change_group(
    map: &mut BTreeMap<Path, Group>,
    path: &Path,
    change: GroupChange,
) -> Result<(), Refusal>
    ensures value { Makes result map.old.entries map.new.entries (groups_after path.now change map.old.entries) }
    ensures taken { OnOk result (TakesAway change (versions_at path.now map.old.entries)) }
    ensures ordered { AreByPath map.new.entries }
{
    change_at(map, path, change)?;
    drop_empty(map, path);
    Ok(())
}

/// Whether the group of the path has no version.
fn is_empty_at(map: &BTreeMap<Path, Group>, path: &Path) -> bool
    ensures { result ≡ is_empty (versions_at path.now map.now.entries) }
{
    match map.get(path) {
        None => true,
        Some(group) => group.versions.is_empty(),
    }
}

/// Takes the group of the path away, if it has no version.
fn drop_empty(map: &mut BTreeMap<Path, Group>, path: &Path)
    ensures value { map.new.entries ≡ without_empty path.now map.old.entries }
    ensures ordered { AreByPath map.old.entries → AreByPath map.new.entries }
{
    if is_empty_at(map, path) {
        map.remove(path);
    }
}

impl Groups {
    /// No groups. It takes no memory.
    pub fn new(alloc: Global) -> Self
        ensures { result ≡ [] }
    {
        Groups {
            map: BTreeMap::new(alloc),
        }
    }

    /// These groups. It takes no memory.
    pub fn from_map(map: BTreeMap<Path, Group>) -> Self
        ensures { result ≡ map.entries }
    {
        let _ = map.len();
        Groups { map }
    }

    /// The groups by path.
    pub fn as_map(&self) -> &BTreeMap<Path, Group>
        ensures value { result.now.entries ≡ self.now }
        ensures ordered { AreByPath self.now }
    {
        &self.map
    }

    /// Whether no path has a group.
    pub fn is_empty(&self) -> bool
        ensures { result ≡ is_nil self.now }
    {
        self.map.is_empty()
    }

    /// The group of the path.
    pub fn get(&self, path: &Path) -> Option<&Group>
        ensures { option_copied result ≡ group_at path.now self.now }
    {
        self.map.get(path)
    }

    /// Whether one of the path's versions is of the object.
    pub fn has_object(&self, path: &Path, object: u64) -> bool
        ensures { result ≡ has_object object (versions_at path.now self.now) }
    {
        match self.map.get(path) {
            None => false,
            Some(group) => group.versions.contains(object),
        }
    }

    /// The version of the object, among those of the path.
    pub fn find(&self, path: &Path, object: u64) -> Option<&Version>
        ensures { option_copied result ≡ version_of object (versions_at path.now self.now) }
    {
        match self.map.get(path) {
            None => None,
            Some(group) => group.versions.find(object),
        }
    }

    /// Puts a version in front of those of the path, and binds the path to this class; the former active version is inactive
    /// from the day on which the new one was stored.
    pub fn put(&mut self, path: &Path, class: Name, version: Version) -> Result<(), Refusal>
        requires { has_object version.object (versions_at path.now self.old) ≡ false }
        ensures value { Becomes result self.old self.new (Ok (groups_with path.now class version self.old)) }
        ensures ordered { AreByPath self.new }
        ensures versions { OnOk result (VersionsBecome path.now (version ∷ superseded version.stored (versions_at path.now self.old)) self.old self.new) }
        ensures count { OnOk result (count_of self.new ≡ count_of self.old + 1) }
        ensures undone { OnOk result (UndoGivesBack path.now self.old self.new) }
    {
        put(&mut self.map, path, class, version)
    }

    /// Changes the group of the path. A path without a group, and an object that is named and has no version in it, are
    /// `NotFound`. A group that is left without versions goes. It takes no memory.
    pub fn change(&mut self, path: &Path, change: GroupChange) -> Result<(), Refusal>
        ensures value { Makes result self.old self.new (groups_after path.now change self.old) }
        ensures ordered { AreByPath self.new }
        ensures versions { OnOk result (VersionsBecome path.now (versions_after change (versions_at path.now self.old)) self.old self.new) }
        ensures count { OnOk result (count_of self.new + taken change (versions_at path.now self.old) ≡ count_of self.old) }
    {
        change_group(&mut self.map, path, change)
    }

    /// Changes copies of an object of the path. A path without a group, an object without a version in it, and a copy that
    /// is to be replaced or dropped and is not there, are `NotFound`. Only a copy that is added takes memory.
    pub fn alter(&mut self, path: &Path, object: u64, change: CopyChange) -> Result<(), Refusal>
        requires { IsTrue (takes_free_pool change (copies_of object (versions_at path.now self.old))) }
        ensures value { Alters change result self.old self.new (groups_altered path.now object change self.old) }
        ensures ordered { AreByPath self.new }
        ensures objects { ObjectsStay self.old self.new }
        ensures count { count_of self.new ≡ count_of self.old }
    {
        alter_at(&mut self.map, path, object, change)
    }
}

impl Clone for Groups {
    ghost is_clone = { λ groups copy. copy ≡ groups };

    fn clone(&self) -> Result<Self, AllocError> {
        Ok(Groups {
            map: self.map.clone()?,
        })
    }
}

impl Clone for Filespace {
    ghost is_clone = { λ filespace copy. copy ≡ filespace };

    fn clone(&self) -> Result<Self, AllocError> {
        Ok(Filespace {
            node: self.node,
            name: self.name.clone()?,
            groups: self.groups.clone()?,
        })
    }
}
