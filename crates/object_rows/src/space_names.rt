//! The names of the filespaces of each node. A map by node and name together could not be asked by a borrowed name without taking
//! memory for a key, so each node has a map of its own.

ghost use Rattle.std.specs.Prelude.{◌≡◌, ℕ, false, is_some, [], IsTrue, IfErr, OnOk, length, ◌↔◌};
ghost use Rattle.std.specs.Map.{lookup};
ghost use Rattle.version_groups.specs.kinds.declared.refusal.Refusal.TheVariants.{Memory};
ghost use Rattle.object_rows.specs.Filespaces.{at_number};
ghost use Rattle.object_rows.specs.Names.{at_name, names_at};
ghost use Rattle.object_rows.specs.SpaceNames.{NamePut, NameTaken, Puts, Takes};

use std::alloc::{AllocError, Global};
use std::collections::BTreeMap;
use std::marker::Model;
use version_groups::kinds::{FilespaceName, Refusal};

/// The number of each filespace of one node, by its name.
#[derive(Drop)]
pub(crate) struct SpaceNames {
    map: BTreeMap<FilespaceName, u32>,
}

impl Model for SpaceNames {
    ghost use Rattle.std.specs.Prelude.{List, ℕ};

    ghost Value = { List (List ℕ × ℕ) };

    ghost view = { λ n. n.map.entries };
}

impl SpaceNames {
    /// No names. It takes no memory.
    fn new(alloc: Global) -> Self
        ensures { result ≡ [] }
    {
        SpaceNames {
            map: BTreeMap::new(alloc),
        }
    }

    /// The number to which the name leads. It takes no memory.
    fn get(&self, name: &FilespaceName) -> Option<u32>
        ensures { result ≡ lookup (at_name name.now) self.now }
    {
        self.map.get(name).copied()
    }

    /// Whether there is no name.
    fn is_empty(&self) -> bool
        ensures { IsTrue result ↔ (length self.now ≡ 0) }
    {
        self.map.is_empty()
    }

    /// Puts a name in.
    fn put(&mut self, name: FilespaceName, number: u32) -> Result<(), Refusal>
        ensures put { OnOk result (NamePut name number self.old self.new) }
        ensures kept { IfErr result (λ e. (e ≡ Memory) × (self.new ≡ self.old)) }
    {
        self.map.insert(name, number)?;
        Ok(())
    }

    /// Takes a name out. It takes no memory.
    fn take(&mut self, name: &FilespaceName)
        ensures { NameTaken name.now self.old self.new }
    {
        self.map.remove(name);
    }
}

impl Clone for SpaceNames {
    ghost is_clone = { λ names copy. copy ≡ names };

    fn clone(&self) -> Result<Self, AllocError> {
        Ok(SpaceNames {
            map: self.map.clone()?,
        })
    }
}

/// The number to which the name leads for the node. It takes no memory.
pub(crate) fn get(
    spaces: &BTreeMap<u32, SpaceNames>,
    node: u32,
    name: &FilespaceName,
) -> Option<u32>
    ensures { result ≡ lookup (at_name name.now) (names_at node spaces.now.entries) }
{
    match spaces.get(&node) {
        None => None,
        Some(names) => names.get(name),
    }
}

/// Whether there is no name for the node.
pub(crate) fn has_none(spaces: &BTreeMap<u32, SpaceNames>, node: u32) -> bool
    ensures { IsTrue result ↔ (length (names_at node spaces.now.entries) ≡ 0) }
{
    match spaces.get(&node) {
        None => true,
        Some(names) => names.is_empty(),
    }
}

/// Puts a name in for the node, which has to be there.
fn put_at(
    spaces: &mut BTreeMap<u32, SpaceNames>,
    node: u32,
    name: FilespaceName,
    number: u32,
) -> Result<(), Refusal>
    ensures put { OnOk result (Puts node name number spaces.old.entries spaces.new.entries) }
    ensures kept { IfErr result (λ e. (e ≡ Memory) × (spaces.new.entries ≡ spaces.old.entries)) }
{
    match spaces.get_mut(&node) {
        None => Err(Refusal::Memory),
        Some(names) => names.put(name, number),
    }
}

/// Puts a name in for the node, which is not there.
fn add(
    alloc: Global,
    spaces: &mut BTreeMap<u32, SpaceNames>,
    node: u32,
    name: FilespaceName,
    number: u32,
) -> Result<(), Refusal>
    requires { is_some (lookup (at_number node) spaces.old.entries) ≡ false }
    ensures put { OnOk result (Puts node name number spaces.old.entries spaces.new.entries) }
    ensures kept { IfErr result (λ e. (e ≡ Memory) × (spaces.new.entries ≡ spaces.old.entries)) }
{
    let mut names = SpaceNames::new(alloc);
    names.put(name, number)?;
    spaces.insert(node, names)?;
    Ok(())
}

/// Puts a name in for the node.
pub(crate) fn put(
    alloc: Global,
    spaces: &mut BTreeMap<u32, SpaceNames>,
    node: u32,
    name: FilespaceName,
    number: u32,
) -> Result<(), Refusal>
    ensures put { OnOk result (Puts node name number spaces.old.entries spaces.new.entries) }
    ensures kept { IfErr result (λ e. (e ≡ Memory) × (spaces.new.entries ≡ spaces.old.entries)) }
{
    if spaces.contains_key(&node) {
        put_at(spaces, node, name, number)
    } else {
        add(alloc, spaces, node, name, number)
    }
}

/// Takes a name out for the node, and leaves the node there.
fn take_at(spaces: &mut BTreeMap<u32, SpaceNames>, node: u32, name: &FilespaceName)
    ensures { Takes node name.now spaces.old.entries spaces.new.entries }
{
    if let Some(names) = spaces.get_mut(&node) {
        names.take(name);
    }
}

/// Takes the node away, if there is no name for it.
fn drop_empty(spaces: &mut BTreeMap<u32, SpaceNames>, node: u32)
    ensures { (m : ℕ) → names_at m spaces.new.entries ≡ names_at m spaces.old.entries }
{
    if has_none(spaces, node) {
        spaces.remove(&node);
    }
}

/// Takes a name out for the node. It takes no memory.
pub(crate) fn take(spaces: &mut BTreeMap<u32, SpaceNames>, node: u32, name: &FilespaceName)
    ensures { Takes node name.now spaces.old.entries spaces.new.entries }
{
    take_at(spaces, node, name);
    drop_empty(spaces, node);
}
