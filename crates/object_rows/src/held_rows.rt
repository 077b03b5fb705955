ghost use Rattle.std.specs.Prelude.{◌≡◌, ◌<◌, ◌^◌, false, IsTrue, IfSome, Ok, Some, None, [], length, if◌then◌else◌, OnOk};
ghost use Rattle.std.specs.List.Sorted.{IsStrictlySortedBy};
ghost use Rattle.std.specs.Map.{keys_of};
ghost use Rattle.std.specs.Option.{option_copied};
ghost use Rattle.std.specs.Ordering.{nat_cmp};
ghost use Rattle.version_groups.specs.kinds.Answers.{Becomes};
ghost use Rattle.version_groups.specs.Copies.{takes_free_pool, Alters};
ghost use Rattle.version_groups.specs.Versions.{copies_of, version_of};
ghost use Rattle.object_rows.specs.Changes.{least_in};
ghost use Rattle.object_rows.specs.Held.{held_hold};
ghost use Rattle.object_rows.specs.HeldRows.{AreHeld, are_held_rows, copies_at, has_row, has_under, held_altered, held_altered_at, held_at, held_versions, held_with, held_without, is_held_row, is_under};
ghost use Rattle.object_rows.specs.Items.{items_of_held, left};
ghost use Rattle.object_rows.specs.Tally.{IsCountedHeld};

use crate::held_object::{HeldObject, HeldRow};
use crate::tally::Tally;
use std::alloc::{AllocError, Global};
use std::collections::BTreeMap;
use std::marker::Model;
use version_groups::kinds::{Path, Refusal, lesser};
use version_groups::{CopyChange, Version};

/// The held objects, each with its filespace, in ascending order of their numbers. Contracts see them as these rows.
#[derive(Drop)]
pub struct HeldRows {
    map: BTreeMap<u64, HeldRow>,
    tally: Tally,
}

impl Model for HeldRows {
    ghost use Rattle.std.specs.Prelude.{List, ℕ};
    ghost use Rattle.object_rows.specs.declared.held_object.HeldRow.{HeldRow};
    ghost use Rattle.object_rows.specs.HeldRows.{AreHeld};
    ghost use Rattle.object_rows.specs.Tally.{IsCountedHeld};

    ghost Value = { List (ℕ × HeldRow) };

    ghost view = { λ h. h.map.entries };

    ghost invariant = { λ h. AreHeld h.map.entries × IsCountedHeld h.tally h.map.entries };
}

/// Whether a row belongs under this number, and its object is not inactive from any day on.
fn is_held_row(object: u64, row: &HeldRow) -> bool
    ensures { result ≡ is_held_row (object, row.now) }
{
    row.held.version.object == object && row.held.version.since.is_none()
}

/// Whether each row belongs where it stands.
fn are_held_rows(map: &BTreeMap<u64, HeldRow>) -> bool
    ensures { result ≡ are_held_rows map.now.entries }
{
    'rows: for (object, row) in map.iter() {
        if !is_held_row(*object, row) {
            return false;
        }
    }
    true
}

/// Whether the row is of this filespace and path.
fn is_under(row: &HeldRow, filespace: u32, path: &Path) -> bool
    ensures { result ≡ is_under filespace path.now row.now }
{
    row.filespace == filespace && row.held.path == *path
}

fn least_in(map: &BTreeMap<u64, HeldRow>, filespace: u32) -> Option<u64>
    ensures { result ≡ least_in filespace map.now.entries }
{
    let mut found = None;
    'rows: for (object, row) in map.iter() {
        if row.filespace == filespace {
            found = lesser(found, Some(*object));
        }
    }
    found
}

/// Puts a row under its object's number.
fn insert(map: &mut BTreeMap<u64, HeldRow>, row: HeldRow) -> Result<(), Refusal>
    ensures value { Becomes result map.old.entries map.new.entries (Ok (held_with row.filespace row.held map.old.entries)) }
    ensures ordered { IsStrictlySortedBy nat_cmp (keys_of map.new.entries) }
{
    let object = row.held.version.object;
    map.insert(object, row)?;
    Ok(())
}

/// Puts a row under its object's number, which no row has.
fn put(map: &mut BTreeMap<u64, HeldRow>, tally: &mut Tally, row: HeldRow) -> Result<(), Refusal>
    requires held { AreHeld map.old.entries }
    requires counted { IsCountedHeld tally.old map.old.entries }
    requires new { has_row row.held.version.object map.old.entries ≡ false }
    requires active { row.held.version.since ≡ None }
    ensures value { Becomes result map.old.entries map.new.entries (Ok (held_with row.filespace row.held map.old.entries)) }
    ensures held { AreHeld map.new.entries }
    ensures counted { IsCountedHeld tally.new map.new.entries }
{
    let object = row.held.version.object;
    tally.leave_held(map, object);
    let result = insert(map, row);
    tally.enter_held(map, object);
    result
}

/// Takes a row away, where there is one.
fn take(map: &mut BTreeMap<u64, HeldRow>, tally: &mut Tally, object: u64)
    requires held { AreHeld map.old.entries }
    requires counted { IsCountedHeld tally.old map.old.entries }
    ensures value { map.new.entries ≡ held_without object map.old.entries }
    ensures held { AreHeld map.new.entries }
    ensures counted { IsCountedHeld tally.new map.new.entries }
{
    tally.leave_held(map, object);
    map.remove(&object);
    tally.enter_held(map, object);
}

/// Changes the copies of a row's object.
fn change(map: &mut BTreeMap<u64, HeldRow>, object: u64, by: CopyChange) -> Result<(), Refusal>
    requires { IsTrue (takes_free_pool by (copies_at object map.old.entries)) }
    ensures { Alters by result map.old.entries map.new.entries (held_altered_at object by map.old.entries) }
{
    match map.get_mut(&object) {
        None => Err(Refusal::NotFound),
        Some(row) => row.held.version.copies.change(by),
    }
}

/// Changes the copies of an object.
fn alter(
    map: &mut BTreeMap<u64, HeldRow>,
    tally: &mut Tally,
    object: u64,
    by: CopyChange,
) -> Result<(), Refusal>
    requires held { AreHeld map.old.entries }
    requires counted { IsCountedHeld tally.old map.old.entries }
    requires free { IsTrue (takes_free_pool by (copies_of object (held_versions map.old.entries))) }
    ensures value { Alters by result map.old.entries map.new.entries (held_altered object by map.old.entries) }
    ensures held { AreHeld map.new.entries }
    ensures counted { IsCountedHeld tally.new map.new.entries }
{
    tally.leave_held(map, object);
    let result = change(map, object, by);
    tally.enter_held(map, object);
    result
}

impl HeldRows {
    /// No held objects. It takes no memory.
    pub fn new(alloc: Global) -> Self
        ensures value { result ≡ [] }
        ensures held { AreHeld result }
    {
        HeldRows {
            map: BTreeMap::new(alloc),
            tally: Tally::new(alloc),
        }
    }

    /// These rows; none where one doesn't stand under its object's number, or has a day from which its object is inactive.
    pub fn from_map(alloc: Global, map: BTreeMap<u64, HeldRow>) -> Option<Self>
        ensures value { result ≡ (if are_held_rows map.entries then Some map.entries else None) }
        ensures held { IfSome result (λ rows. AreHeld rows) }
    {
        if !are_held_rows(&map) {
            return None;
        }
        let _ = map.len();
        let tally = Tally::of_held(alloc, &map);
        Some(HeldRows { map, tally })
    }

    /// The rows.
    pub fn as_map(&self) -> &BTreeMap<u64, HeldRow>
        ensures value { result.now.entries ≡ self.now }
        ensures held { AreHeld self.now }
    {
        &self.map
    }

    /// How many objects are held. It takes no memory, and no walk.
    pub fn len(&self) -> usize
        ensures value { result ≡ length self.now }
        ensures small { result < 2 ^ 63 }
    {
        self.map.len()
    }

    /// The held object with this number, and its filespace. It takes no memory.
    pub fn find(&self, object: u64) -> Option<&HeldRow>
        ensures { option_copied result ≡ held_at object self.now }
    {
        self.map.get(&object)
    }

    /// What is kept of the held object with this number, as of any object. It takes no memory.
    pub fn version(&self, object: u64) -> Option<&Version>
        ensures { option_copied result ≡ version_of object (held_versions self.now) }
    {
        match self.map.get(&object) {
            None => None,
            Some(row) => Some(&row.held.version),
        }
    }

    /// Whether a held object has this number. It takes no memory.
    pub fn contains(&self, object: u64) -> bool
        ensures { result ≡ has_row object self.now }
    {
        self.map.contains_key(&object)
    }

    /// Whether the object is held under this path of the filespace. It takes no memory.
    pub fn has_under(&self, filespace: u32, path: &Path, object: u64) -> bool
        ensures { result ≡ has_under filespace path.now object self.now }
    {
        match self.map.get(&object) {
            Some(row) => is_under(row, filespace, path),
            None => false,
        }
    }

    /// The least object that is held in the filespace. It takes no memory, and walks the rows.
    pub fn least_in(&self, filespace: u32) -> Option<u64>
        ensures { result ≡ least_in filespace self.now }
    {
        least_in(&self.map, filespace)
    }

    /// What is left of the room once the held objects with their copies and segments are in it; none where they have no room. It takes no
    /// memory, and no walk while they are fewer than 2^128.
    pub fn items_left(&self, room: u128) -> Option<u128>
        ensures { result ≡ left (items_of_held self.now) room }
    {
        self.tally.items_left_held(&self.map, room)
    }

    /// Whether a copy of a held object lies in the pool. It takes no memory, and no walk, unless memory was once wanted for the count of
    /// the copies in a pool: then it walks the rows, up to such a copy.
    pub fn holds_copy(&self, pool: u32) -> bool
        ensures { result ≡ held_hold pool self.now }
    {
        self.tally.holds_copy_held(&self.map, pool)
    }

    /// Puts an object into the filespace, whose number no held object has. It is taken out again without a trace.
    pub fn put(&mut self, filespace: u32, held: HeldObject) -> Result<(), Refusal>
        requires new { has_row held.version.object self.old ≡ false }
        requires active { held.version.since ≡ None }
        ensures value { Becomes result self.old self.new (Ok (held_with filespace held self.old)) }
        ensures held { AreHeld self.new }
        ensures undone { OnOk result (held_without held.version.object self.new ≡ self.old) }
    {
        put(&mut self.map, &mut self.tally, HeldRow { filespace, held })
    }

    /// Takes an object out, where it is held. It takes no memory.
    pub fn take(&mut self, object: u64)
        ensures value { self.new ≡ held_without object self.old }
        ensures held { AreHeld self.new }
    {
        take(&mut self.map, &mut self.tally, object)
    }

    /// Changes the copies of an object. An object that isn't there, and a copy that is to be replaced or dropped and isn't there, are
    /// `NotFound`. Only a copy that is added takes memory.
    pub fn alter(&mut self, object: u64, change: CopyChange) -> Result<(), Refusal>
        requires { IsTrue (takes_free_pool change (copies_of object (held_versions self.old))) }
        ensures value { Alters change result self.old self.new (held_altered object change self.old) }
        ensures held { AreHeld self.new }
    {
        alter(&mut self.map, &mut self.tally, object, change)
    }
}

impl Clone for HeldRows {
    ghost is_clone = { λ rows copy. copy ≡ rows };

    fn clone(&self) -> Result<Self, AllocError> {
        Ok(HeldRows {
            map: self.map.clone()?,
            tally: self.tally.clone()?,
        })
    }
}
