ghost use Rattle.std.specs.Prelude.{◌≡◌, ◌<◌, ℕ, MatchResult, ◌∷◌, true, IsTrue, Ok, Err, OnOk, Some, None, [], length, nat_le};
ghost use Rattle.std.specs.Bool.{OnTrue};
ghost use Rattle.std.specs.List.Sorted.{IsStrictlySortedBy};
ghost use Rattle.std.specs.Map.{keys_of};
ghost use Rattle.std.specs.Option.{option_copied, option_map};
ghost use Rattle.std.specs.Ordering.{nat_cmp};
ghost use Rattle.std.specs.Result.{result_err};
ghost use Rattle.version_groups.specs.kinds.Answers.{Becomes, Makes};
ghost use Rattle.version_groups.specs.kinds.declared.refusal.Refusal.TheVariants.{Memory};
ghost use Rattle.version_groups.specs.Versions.{copies_of, has_object, is_active, are_distinct, superseded, version_of};
ghost use Rattle.version_groups.specs.declared.group.GroupChange.TheVariants.{Gone, Rebind, Undo};
ghost use Rattle.version_groups.specs.declared.copies.CopyChange.TheVariants.{Add, Replace, Drop};
ghost use Rattle.version_groups.specs.Copies.{has_copy, without_copy, Alters};
ghost use Rattle.object_rows.specs.Changes.{Changes, HasFreeNumber, least_in, rows_changed};
ghost use Rattle.object_rows.specs.Held.{holds_copy};
ghost use Rattle.object_rows.specs.HeldRows.{AreHeld, has_under, held_at};
ghost use Rattle.object_rows.specs.Items.{items_of_rows, left};
ghost use Rattle.object_rows.specs.Names.{filespace_named, filespace_of, node_named};
ghost use Rattle.object_rows.specs.Filespaces.{group_at, versions_at};
ghost use Rattle.object_rows.specs.Places.{PathsAscend};
ghost use Rattle.object_rows.specs.Rows.{IsNew, FreePool, IsMadeOf, IsSound, filespace_of_kept, kept_of, most_kept, rows_after, rows_altered, rows_cleared, rows_holding, rows_with, rows_without, UndoGivesBack};

use crate::held_object::{HeldObject, HeldRow};
use crate::held_rows::HeldRows;
use crate::place::{Node, Place};
use crate::space_names::SpaceNames;
use crate::tally::Tally;
use crate::{build, indexed, items, nodes, refusals, spaces};
use std::alloc::{AllocError, Global};
use std::collections::BTreeMap;
use std::marker::Model;
use version_groups::kinds::{
    Day, DefineOrDelete, FilespaceName, Name, NodeName, ObjectChange, Path, Refusal,
};
use version_groups::{CopyChange, CopyRow, Filespace, Group, Version};

/// How many objects may be kept.
const MOST_KEPT: usize = 1 << 20;

/// The client nodes, their filespaces, and the versions and held objects in them.
#[derive(Drop)]
pub struct Objects {
    alloc: Global,
    nodes: BTreeMap<u32, Node>,
    names: BTreeMap<NodeName, u32>,
    filespaces: BTreeMap<u32, Filespace>,
    spaces: BTreeMap<u32, SpaceNames>,
    places: BTreeMap<u64, Place>,
    tally: Tally,
    held: HeldRows,
}

impl Model for Objects {
    ghost use Rattle.object_rows.specs.HeldRows.{AreApart, AreHeld};
    ghost use Rattle.object_rows.specs.Names.{NodesIndexed, SpacesIndexed};
    ghost use Rattle.object_rows.specs.Places.{Indexed};
    ghost use Rattle.object_rows.specs.Rows.{Rows};
    ghost use Rattle.object_rows.specs.Tally.{IsCounted};

    ghost Value = { Rows };

    ghost view = { λ o. record { nodes = o.nodes.entries; filespaces = o.filespaces.entries; held = o.held } };

    ghost invariant = { λ o. NodesIndexed o.names.entries o.nodes.entries × Indexed o.places.entries o.filespaces.entries × IsCounted o.tally o.filespaces.entries × SpacesIndexed o.spaces.entries o.filespaces.entries × AreHeld o.held × AreApart o.filespaces.entries o.held };
}

impl Objects {
    /// No nodes, no filespaces and no held objects. It takes no memory.
    pub fn new(alloc: Global) -> Self
        ensures { result ≡ record { nodes = []; filespaces = []; held = [] } }
    {
        Objects {
            alloc,
            nodes: BTreeMap::new(alloc),
            names: BTreeMap::new(alloc),
            filespaces: BTreeMap::new(alloc),
            spaces: BTreeMap::new(alloc),
            places: BTreeMap::new(alloc),
            tally: Tally::new(alloc),
            held: HeldRows::new(alloc),
        }
    }

    /// These nodes, filespaces and held objects; none where two nodes, or two filespaces of one node, have one name, two versions, or a
    /// version and a held object, are of one number, a group has no version, or a held object doesn't stand under its number or has a
    /// day from which it is inactive.
    pub fn from_parts(
        alloc: Global,
        nodes: BTreeMap<u32, Node>,
        filespaces: BTreeMap<u32, Filespace>,
        held: BTreeMap<u64, HeldRow>,
    ) -> Result<Option<Self>, Refusal>
        ensures { MatchResult result (IsMadeOf (record { nodes = nodes.entries; filespaces = filespaces.entries; held = held.entries })) (λ e. e ≡ Memory) }
    {
        if !build::are_all_full(&filespaces) {
            return Ok(None);
        }
        let mut names = BTreeMap::new(alloc);
        if !build::add_nodes(&mut names, &nodes)? {
            return Ok(None);
        }
        let mut spaces = BTreeMap::new(alloc);
        if !build::add_spaces(alloc, &mut spaces, &filespaces)? {
            return Ok(None);
        }
        let mut places = BTreeMap::new(alloc);
        if !build::add_filespaces(&mut places, &filespaces)? {
            return Ok(None);
        }
        if !build::are_apart(&places, &held) {
            return Ok(None);
        }
        let Some(held) = HeldRows::from_map(alloc, held) else {
            return Ok(None);
        };
        let _ = nodes.len();
        let _ = filespaces.len();
        let tally = Tally::of(alloc, &filespaces);
        Ok(Some(Objects {
            alloc,
            nodes,
            names,
            filespaces,
            spaces,
            places,
            tally,
            held,
        }))
    }

    /// The nodes by number.
    pub fn nodes(&self) -> &BTreeMap<u32, Node>
        ensures { result.now.entries ≡ self.now.nodes }
    {
        &self.nodes
    }

    /// The filespaces by number.
    pub fn filespaces(&self) -> &BTreeMap<u32, Filespace>
        ensures value { result.now.entries ≡ self.now.filespaces }
        ensures sound { IsSound self.now }
    {
        &self.filespaces
    }

    /// The filespaces stand in ascending order of their numbers, and the groups of each in ascending order of their paths, each number and
    /// each path once. It only says so: it does nothing, and takes no step.
    pub fn are_ordered(&self)
        ensures filespaces { IsStrictlySortedBy nat_cmp (keys_of self.now.filespaces) }
        ensures paths { PathsAscend self.now.filespaces }
    {
        let _ = &self.filespaces;
    }

    /// The held objects by number, each with its filespace.
    pub fn held(&self) -> &BTreeMap<u64, HeldRow>
        ensures value { result.now.entries ≡ self.now.held }
        ensures held { AreHeld self.now.held }
    {
        self.held.as_map()
    }

    /// The number of the node with this name. It takes no memory.
    pub fn node_named(&self, name: &NodeName) -> Option<u32>
        ensures { result ≡ node_named name.now self.now.nodes }
    {
        nodes::named(&self.names, &self.nodes, name)
    }

    /// The number of the node's filespace with this name. It takes no memory, and no walk.
    pub fn filespace_named(&self, node: u32, name: &FilespaceName) -> Option<u32>
        ensures { result ≡ filespace_named node name.now self.now.filespaces }
    {
        spaces::named(&self.spaces, &self.filespaces, node, name)
    }

    /// The least number of a filespace of the node. It takes no memory, and walks the filespaces only where the node has one.
    pub fn filespace_of_node(&self, node: u32) -> Option<u32>
        ensures { result ≡ filespace_of node self.now.filespaces }
    {
        spaces::of_node(&self.spaces, &self.filespaces, node)
    }

    /// What is kept of the object, as a version or held. It takes no memory.
    pub fn find(&self, object: u64) -> Option<&Version>
        ensures value { option_copied result ≡ version_of object (kept_of self.now) }
        ensures distinct { are_distinct (kept_of self.now) ≡ true }
    {
        match indexed::find(&self.places, &self.filespaces, object) {
            Some(version) => Some(version),
            None => self.held.version(object),
        }
    }

    /// The held object with this number. It takes no memory.
    pub fn find_held(&self, object: u64) -> Option<&HeldObject>
        ensures { option_copied result ≡ option_map (λ row. row.held) (held_at object self.now.held) }
    {
        match self.held.find(object) {
            None => None,
            Some(row) => Some(&row.held),
        }
    }

    /// Whether the object is held under this path of the filespace. It takes no memory.
    pub fn has_held(&self, filespace: u32, path: &Path, object: u64) -> bool
        ensures { result ≡ has_under filespace path.now object self.now.held }
    {
        self.held.has_under(filespace, path, object)
    }

    /// The least object that is held in the filespace. It takes no memory, and walks the held objects.
    pub fn least_held_in(&self, filespace: u32) -> Option<u64>
        ensures { result ≡ least_in filespace self.now.held }
    {
        self.held.least_in(filespace)
    }

    /// Whether the object is kept, as a version or held. It takes no memory.
    pub fn has_object(&self, object: u64) -> bool
        ensures { result ≡ has_object object (kept_of self.now) }
    {
        self.places.contains_key(&object) || self.held.contains(object)
    }

    /// Whether a copy of the object lies in the pool. It takes no memory.
    pub fn has_copy(&self, object: u64, pool: u32) -> bool
        ensures { result ≡ has_copy pool (copies_of object (kept_of self.now)) }
    {
        match self.find(object) {
            None => false,
            Some(version) => version.copies.is_in(pool),
        }
    }

    /// Whether a copy of the object, other than the one in the pool `from`, lies in the pool. It takes no memory.
    #[tactic(auto, using(crate::proofs::OtherCopies::has_copy_of_others))]
    pub fn has_other_copy(&self, object: u64, from: u32, pool: u32) -> bool
        ensures { result ≡ has_copy pool (without_copy from (copies_of object (kept_of self.now))) }
    {
        from != pool && self.has_copy(object, pool)
    }

    /// The number of the filespace in which the object is kept. It takes no memory, and no walk.
    pub fn filespace_of(&self, object: u64) -> Option<u32>
        ensures { result ≡ filespace_of_kept object self.now }
    {
        match self.places.get(&object) {
            Some(place) => Some(place.filespace),
            None => match self.held.find(object) {
                None => None,
                Some(row) => Some(row.filespace),
            },
        }
    }

    /// How many objects are kept. It takes no memory, and no walk.
    pub fn count(&self) -> usize
        ensures { result ≡ length (kept_of self.now) }
    {
        self.places.len() + self.held.len()
    }

    /// Whether as many objects are kept as may be.
    fn is_full(&self) -> bool
        ensures { result ≡ nat_le most_kept (length (kept_of self.now)) }
    {
        self.count() >= MOST_KEPT
    }

    /// What is left of the room once the nodes and filespaces with their groups, versions, copies and segments, and the held objects with
    /// their copies and segments, are in it; none where they have no room. It takes no memory, and no walk while they are fewer than
    /// 2^128.
    pub fn items_left(&self, room: u128) -> Option<u128>
        ensures { result ≡ left (items_of_rows self.now) room }
    {
        let rest = items::left_by(self.nodes.len(), room)?;
        let rest = items::left_by(self.filespaces.len(), rest)?;
        let rest = self.tally.items_left(&self.filespaces, rest)?;
        self.held.items_left(rest)
    }

    /// Whether a copy of an object lies in the pool. It takes no memory, and no walk, unless memory was once wanted for the count of the
    /// copies in a pool: then it walks the versions and the held objects, up to such a copy.
    pub fn holds_copy(&self, pool: u32) -> bool
        ensures { result ≡ holds_copy pool self.now }
    {
        self.tally.holds_copy(&self.filespaces, pool) || self.held.holds_copy(pool)
    }

    /// The group of a path of a filespace. It takes no memory.
    pub fn group(&self, filespace: u32, path: &Path) -> Option<&Group>
        ensures { option_copied result ≡ group_at filespace path.now self.now.filespaces }
    {
        match self.filespaces.get(&filespace) {
            None => None,
            Some(filespace) => filespace.groups.get(path),
        }
    }

    /// How many versions a path of a filespace has. It takes no memory.
    pub fn count_at(&self, filespace: u32, path: &Path) -> usize
        ensures { result ≡ length (versions_at filespace path.now self.now.filespaces) }
    {
        match self.group(filespace, path) {
            None => 0,
            Some(group) => group.versions.as_slice().len(),
        }
    }

    /// Whether the object has a version at a path of a filespace. It takes no memory.
    pub fn has_at(&self, filespace: u32, path: &Path, object: u64) -> bool
        ensures { result ≡ has_object object (versions_at filespace path.now self.now.filespaces) }
    {
        match self.group(filespace, path) {
            None => false,
            Some(group) => group.versions.contains(object),
        }
    }

    /// Whether the object's version is the active one of a path of a filespace. It takes no memory.
    pub fn is_active(&self, filespace: u32, path: &Path, object: u64) -> bool
        ensures { result ≡ is_active object (versions_at filespace path.now self.now.filespaces) }
    {
        match self.group(filespace, path) {
            None => false,
            Some(group) => group.versions.is_active(object),
        }
    }

    /// How `change` would refuse this change, where it would. It takes no memory.
    pub fn refusal(&self, change: &ObjectChange) -> Option<Refusal>
        ensures { (number : ℕ) → result ≡ result_err (rows_changed change.now number self.now) }
    {
        refusals::refusal(self, change)
    }

    /// Makes a change that is not refused.
    #[tactic(auto, using(crate::proofs::Made::error_on_ok, crate::proofs::Made::node_is_new, crate::proofs::Made::space_is_new))]
    fn make(&mut self, change: &ObjectChange, number: u32) -> Result<(), Refusal>
        requires free { HasFreeNumber change.now number self.old }
        requires fine { result_err (rows_changed change.now number self.old) ≡ None }
        ensures { Changes change.now result self.old self.new (rows_changed change.now number self.old) }
    {
        match change {
            ObjectChange::Node {
                verb: DefineOrDelete::Define,
                node,
                domain,
            } => nodes::define(&mut self.names, &mut self.nodes, node, domain, number),
            ObjectChange::Node {
                verb: DefineOrDelete::Delete,
                node,
                ..
            } => {
                nodes::delete(&mut self.names, &mut self.nodes, node);
                Ok(())
            }
            ObjectChange::Filespace {
                verb: DefineOrDelete::Define,
                node,
                name,
                filespace,
            } => spaces::define(
                self.alloc,
                &self.places,
                &mut self.spaces,
                &mut self.filespaces,
                *node,
                name,
                *filespace,
            ),
            ObjectChange::Filespace {
                verb: DefineOrDelete::Delete,
                filespace,
                ..
            } => {
                spaces::delete(
                    &self.held,
                    &self.places,
                    &mut self.spaces,
                    &mut self.filespaces,
                    *filespace,
                );
                Ok(())
            }
        }
    }

    /// Defines or deletes a node or a filespace. A node that is defined gets this number, which no node has. What is not there
    /// is `NotFound`: the node of a filespace that is defined, and the node or filespace that is deleted; a name that is taken is
    /// `Exists`; a node with filespaces, or a filespace with versions or held objects, that is deleted is in use by the least of them. A
    /// filespace is deleted by its number, and its node and name are not looked at, nor is the domain of a node that is deleted.
    pub fn change(&mut self, change: &ObjectChange, number: u32) -> Result<(), Refusal>
        requires { HasFreeNumber change.now number self.old }
        ensures { Changes change.now result self.old self.new (rows_changed change.now number self.old) }
    {
        match self.refusal(change) {
            Some(refusal) => Err(refusal),
            None => self.make(change, number),
        }
    }

    /// Puts a new version in front of those of a path of a filespace, and binds the path to this class; the former active
    /// version is inactive from the day on which the new one was stored. A filespace that is not there is `NotFound`; where
    /// 2^20 objects are kept already it is `InventoryFull`.
    pub fn insert(
        &mut self,
        filespace: u32,
        path: &Path,
        class: &Name,
        version: Version,
    ) -> Result<(), Refusal>
        requires new { IsNew version.object self.old }
        requires active { version.since ≡ None }
        ensures value { Becomes result self.old self.new (rows_with filespace path.now class.now version self.old) }
        ensures newest { OnOk result (versions_at filespace path.now self.new.filespaces ≡ version ∷ superseded version.stored (versions_at filespace path.now self.old.filespaces)) }
        ensures found { OnOk result (version_of version.object (kept_of self.new) ≡ Some version) }
        ensures undone { OnOk result (UndoGivesBack filespace path.now self.old self.new) }
    {
        if !self.filespaces.contains_key(&filespace) {
            return Err(Refusal::NotFound);
        }
        if self.is_full() {
            return Err(Refusal::InventoryFull);
        }
        let class = class.clone()?;
        indexed::put(
            &mut self.places,
            &mut self.filespaces,
            &mut self.tally,
            filespace,
            path,
            class,
            version,
        )
    }

    /// Holds an object in a filespace. A filespace that is not there is `NotFound`; where 2^20 objects are kept already it is
    /// `InventoryFull`.
    pub fn hold(&mut self, filespace: u32, held: HeldObject) -> Result<(), Refusal>
        requires new { IsNew held.version.object self.old }
        requires active { held.version.since ≡ None }
        ensures value { Becomes result self.old self.new (rows_holding filespace held self.old) }
        ensures found { OnOk result (version_of held.version.object (kept_of self.new) ≡ Some held.version) }
        ensures undone { OnOk result (rows_without held.version.object self.new ≡ Ok self.old) }
    {
        if !self.filespaces.contains_key(&filespace) {
            return Err(Refusal::NotFound);
        }
        if self.is_full() {
            return Err(Refusal::InventoryFull);
        }
        self.held.put(filespace, held)
    }

    /// Makes the object, which is the path's active version, inactive from today on. A filespace, a path or an object in it
    /// that is not there is `NotFound`. It takes no memory.
    pub fn mark_gone(
        &mut self,
        filespace: u32,
        path: &Path,
        object: u64,
        today: Day,
    ) -> Result<(), Refusal>
        requires { OnTrue (has_object object (versions_at filespace path.now self.old.filespaces)) (IsTrue (is_active object (versions_at filespace path.now self.old.filespaces))) }
        ensures { Makes result self.old self.new (rows_after filespace path.now (Gone object today) self.old) }
    {
        indexed::retire(
            &self.places,
            &mut self.filespaces,
            filespace,
            path,
            object,
            today,
        )
    }

    /// Takes the object away that is kept under the path, as a version or held; a group without versions goes. A filespace, a path or an
    /// object in it that is not there is `NotFound`. It takes no memory.
    pub fn remove(&mut self, filespace: u32, path: &Path, object: u64) -> Result<(), Refusal>
        ensures { Makes result self.old self.new (rows_cleared filespace path.now object self.old) }
    {
        if self.held.has_under(filespace, path, object) {
            self.held.take(object);
            return Ok(());
        }
        indexed::remove(
            &mut self.places,
            &mut self.filespaces,
            &mut self.tally,
            filespace,
            path,
            object,
        )
    }

    /// Takes the object away, a version or held, whatever its path; a group without versions goes. An object that is not there is
    /// `NotFound`. It takes no memory.
    pub fn discard(&mut self, object: u64) -> Result<(), Refusal>
        ensures { Makes result self.old self.new (rows_without object self.old) }
    {
        if self.held.contains(object) {
            self.held.take(object);
            return Ok(());
        }
        indexed::discard(
            &mut self.places,
            &mut self.filespaces,
            &mut self.tally,
            object,
        )
    }

    /// Binds the path to this class. A filespace or a path that is not there is `NotFound`. It takes no memory.
    pub fn rebind(&mut self, filespace: u32, path: &Path, class: Name) -> Result<(), Refusal>
        ensures { Makes result self.old self.new (rows_after filespace path.now (Rebind class) self.old) }
    {
        indexed::rebind(&self.places, &mut self.filespaces, filespace, path, class)
    }

    /// Takes the newest version of the path away, makes the next one active if so wanted, and binds the path to this class; a
    /// group without versions goes. It takes no memory.
    pub fn undo_insert(&mut self, filespace: u32, path: &Path, class: Name, active: bool)
        requires { 0 < length (versions_at filespace path.now self.old.filespaces) }
        ensures { rows_after filespace path.now (Undo class active) self.old ≡ Ok self.new }
    {
        indexed::undo(
            &mut self.places,
            &mut self.filespaces,
            &mut self.tally,
            filespace,
            path,
            class,
            active,
        );
    }

    /// Adds a copy of the object. An object that is not there is `NotFound`.
    pub fn add_copy(&mut self, object: u64, copy: CopyRow) -> Result<(), Refusal>
        requires { FreePool (Add copy) object self.old }
        ensures { Becomes result self.old self.new (rows_altered object (Add copy) self.old) }
    {
        self.alter(object, CopyChange::Add(copy))
    }

    /// Replaces the copy of the object in the pool `from`. An object, or a copy, that is not there is `NotFound`. It takes no
    /// memory.
    pub fn replace_copy(&mut self, object: u64, from: u32, copy: CopyRow) -> Result<(), Refusal>
        requires { FreePool (Replace from copy) object self.old }
        ensures { Makes result self.old self.new (rows_altered object (Replace from copy) self.old) }
    {
        self.alter(object, CopyChange::Replace { from, copy })
    }

    /// Takes the copy of the object in the pool away. An object, or a copy, that is not there is `NotFound`. It takes no memory.
    pub fn drop_copy(&mut self, object: u64, pool: u32) -> Result<(), Refusal>
        ensures { Makes result self.old self.new (rows_altered object (Drop pool) self.old) }
    {
        self.alter(object, CopyChange::Drop(pool))
    }

    fn alter(&mut self, object: u64, change: CopyChange) -> Result<(), Refusal>
        requires { FreePool change object self.old }
        ensures { Alters change result self.old self.new (rows_altered object change self.old) }
    {
        if self.held.contains(object) {
            return self.held.alter(object, change);
        }
        indexed::alter(
            &self.places,
            &mut self.filespaces,
            &mut self.tally,
            object,
            change,
        )
    }
}

impl Clone for Objects {
    ghost is_clone = { λ objects copy. copy ≡ objects };

    fn clone(&self) -> Result<Self, AllocError> {
        Ok(Objects {
            alloc: self.alloc,
            nodes: self.nodes.clone()?,
            names: self.names.clone()?,
            filespaces: self.filespaces.clone()?,
            spaces: self.spaces.clone()?,
            places: self.places.clone()?,
            tally: self.tally.clone()?,
            held: self.held.clone()?,
        })
    }
}
