ghost use Rattle.std.specs.Prelude.{◌≡◌, ◌+◌, false, not, ◌<◌, ◌==◌, IfSome, IfNone, Ok, IsTrue, Some, None, [], ◌∷◌, if◌then◌else◌, length, OnErr};
ghost use Rattle.std.specs.Option.{option_copied};
ghost use Rattle.std.specs.List.{list_all, slice_get};
ghost use Rattle.kinds.specs.Answers.{AnswersBy, Becomes};
ghost use Rattle.version_groups.specs.Copies.{copies_after, takes_free_pool, Alters};
ghost use Rattle.version_groups.specs.Entries.{on_ok};
ghost use Rattle.version_groups.specs.Versions.{has_object, are_distinct, version_of, has_active, retired, superseded, revived, undone, is_empty, superseded_older, without_object, is_active, copies_of, copies_at, put_copies_at, versions_altered};

use crate::copies::{Copies, CopyChange};
use kinds::{Day, Digest, ObjectSize, Refusal};
use std::alloc::{AllocError, Global};
use std::marker::Model;

/// A backup version of a client file: what the server keeps of one stored object.
#[derive(Drop)]
pub struct Version {
    /// The object's number.
    pub object: u64,
    /// How many bytes the file has.
    pub size: ObjectSize,
    /// When the file was changed last, as the client said.
    pub mtime: u64,
    /// The SHA-256 of the file's bytes.
    pub digest: Digest,
    /// The day on which the version was stored.
    pub stored: Day,
    /// The day from which the version is inactive; none for an active version.
    pub since: Option<Day>,
    /// The copies of the object, by storage pool.
    pub copies: Copies,
}

impl Clone for Version {
    ghost is_clone = { λ version copy. copy ≡ version };

    fn clone(&self) -> Result<Self, AllocError> {
        Ok(Version {
            object: self.object,
            size: self.size,
            mtime: self.mtime,
            digest: self.digest,
            stored: self.stored,
            since: self.since,
            copies: self.copies.clone()?,
        })
    }
}

/// The versions of one path, the newest first. No two are of one object.
#[derive(Drop)]
pub struct Versions {
    items: Vec<Version>,
}

impl Model for Versions {
    ghost use Rattle.std.specs.Prelude.{IsTrue, List};
    ghost use Rattle.version_groups.specs.declared.versions.Version.{Version};
    ghost use Rattle.version_groups.specs.Versions.{are_distinct};

    ghost Value = { List Version };

    ghost view = { λ v. v.items.items };

    ghost invariant = { λ v. IsTrue (are_distinct v.items.items) };
}

fn has_object(object: u64, versions: &[Version]) -> bool
    ensures { result ≡ has_object object versions.now }
{
    versions.iter().any(|v| v.object == object)
}

/// Whether none of the versions is of the object.
fn are_of_others(object: u64, versions: &[Version]) -> bool
    ensures { result ≡ list_all (λ v. not (v.object == object)) versions.now }
{
    versions.iter().all(|v| v.object != object)
}

/// Whether no two of the versions are of one object.
fn are_distinct(versions: &[Version]) -> bool
    ensures { result ≡ are_distinct versions.now }
{
    'versions: for i in 0..versions.len() {
        if !are_of_others(versions[i].object, &versions[i + 1..]) {
            return false;
        }
    }
    true
}

/// Makes the newest version inactive from this day on.
fn retire(versions: &mut [Version], day: Day)
    ensures { versions.new ≡ retired day versions.old }
{
    if let [newest, ..] = versions {
        newest.since = Some(day);
    }
}

/// Makes the newest version active.
fn revive(versions: &mut [Version])
    ensures { versions.new ≡ revived versions.old }
{
    if let [newest, ..] = versions {
        newest.since = None;
    }
}

/// Makes the active version, where there is one, inactive from this day on.
fn supersede(versions: &mut [Version], day: Day)
    ensures { versions.new ≡ superseded day versions.old }
{
    if has_active(versions) {
        retire(versions, day);
    }
}

fn has_active(versions: &[Version]) -> bool
    ensures { result ≡ has_active versions.now }
{
    match versions {
        [] => false,
        [newest, ..] => newest.since.is_none(),
    }
}

fn is_active(object: u64, versions: &[Version]) -> bool
    ensures { result ≡ is_active object versions.now }
{
    match versions {
        [] => false,
        [newest, ..] => newest.object == object && newest.since.is_none(),
    }
}

/// Makes the active version behind the newest one inactive from this day on.
fn supersede_older(versions: &mut [Version], day: Day)
    ensures { versions.new ≡ superseded_older day versions.old }
{
    if let [_, older @ ..] = versions {
        supersede(older, day);
    }
}

/// Puts a version in front of the others.
fn put_newest(items: &mut Vec<Version>, version: Version) -> Result<(), Refusal>
    ensures value { AnswersBy (λ _. items.new.items) result (version ∷ superseded version.stored items.old.items) }
    ensures unchanged { OnErr result (items.new.items ≡ items.old.items) }
{
    let day = version.stored;
    items.insert(0, version)?;
    supersede_older(items.as_mut_slice(), day);
    Ok(())
}

/// Takes the newest version out, and makes the next one active if so wanted.
fn take_newest(items: &mut Vec<Version>, active: bool)
    ensures { items.new.items ≡ undone active items.old.items }
{
    if items.is_empty() {
        return;
    }
    items.remove(0);
    if active {
        revive(items.as_mut_slice());
    }
}

/// Takes the object's version out.
fn take_out(items: &mut Vec<Version>, object: u64)
    ensures { items.new.items ≡ without_object object items.old.items }
{
    items.retain(|v| v.object != object);
}

/// The place of the object's version.
fn index_of(object: u64, versions: &[Version]) -> Option<usize>
    ensures none { IfNone result (version_of object versions.now ≡ None) }
    ensures found { IfSome result (λ i. version_of object versions.now ≡ slice_get versions.now i) }
    ensures within { IfSome result (λ i. i < length versions.now) }
{
    'versions: for i in 0..versions.len() {
        if versions[i].object == object {
            return Some(i);
        }
    }
    None
}

/// Changes the copies of the object's version.
fn alter(versions: &mut [Version], object: u64, change: CopyChange) -> Result<(), Refusal>
    requires distinct { IsTrue (are_distinct versions.old) }
    requires free { IsTrue (takes_free_pool change (copies_of object versions.old)) }
    ensures { Alters change result versions.old versions.new (versions_altered object change versions.old) }
{
    match index_of(object, versions) {
        None => Err(Refusal::NotFound),
        Some(i) => alter_at(versions, i, change),
    }
}

fn alter_at(versions: &mut [Version], i: usize, change: CopyChange) -> Result<(), Refusal>
    requires within { i < length versions.old }
    requires free { IsTrue (takes_free_pool change (copies_at i versions.old)) }
    ensures { Alters change result versions.old versions.new (on_ok (put_copies_at i versions.old) (copies_after change (copies_at i versions.old))) }
{
    let version = &mut versions[i];
    version.copies.change(change)
}

impl Versions {
    /// No versions. It takes no memory.
    pub fn new(alloc: Global) -> Self
        ensures { result ≡ [] }
    {
        Versions {
            items: Vec::new(alloc),
        }
    }

    /// One version.
    pub fn of_one(version: Version) -> Result<Self, Refusal>
        ensures { AnswersBy (λ versions. versions) result (version ∷ []) }
    {
        let mut versions = Versions::new(version.copies.allocator());
        versions.put(version)?;
        Ok(versions)
    }

    /// These versions; none where two of them are of one object. It takes no memory.
    pub fn from_vec(items: Vec<Version>) -> Option<Self>
        ensures { result ≡ (if are_distinct items.items then Some items.items else None) }
    {
        if are_distinct(items.as_slice()) {
            Some(Versions { items })
        } else {
            None
        }
    }

    /// The versions in a vector. It takes no memory.
    pub fn into_vec(self) -> Vec<Version>
        ensures value { result.items ≡ self }
        ensures distinct { IsTrue (are_distinct self) }
    {
        let Versions { items } = self;
        items
    }

    /// The versions, the newest first.
    pub fn as_slice(&self) -> &[Version]
        ensures value { result.now ≡ self.now }
        ensures distinct { IsTrue (are_distinct self.now) }
    {
        self.items.as_slice()
    }

    /// Whether there is no version.
    pub fn is_empty(&self) -> bool
        ensures { result ≡ is_empty self.now }
    {
        self.items.is_empty()
    }

    /// Whether one of the versions is that of the object.
    pub fn contains(&self, object: u64) -> bool
        ensures { result ≡ has_object object self.now }
    {
        has_object(object, self.items.as_slice())
    }

    /// The object's version.
    pub fn find(&self, object: u64) -> Option<&Version>
        ensures { option_copied result ≡ version_of object self.now }
    {
        self.items.iter().find(|v| v.object == object)
    }

    /// Whether the newest version is active.
    pub fn has_active(&self) -> bool
        ensures { result ≡ has_active self.now }
    {
        has_active(self.items.as_slice())
    }

    /// Whether the object's version is the active one.
    pub fn is_active(&self, object: u64) -> bool
        ensures { result ≡ is_active object self.now }
    {
        is_active(object, self.items.as_slice())
    }

    /// Puts a version in front; the former active one is inactive from the day on which the new one was stored.
    pub fn put(&mut self, version: Version) -> Result<(), Refusal>
        requires { has_object version.object self.old ≡ false }
        ensures { Becomes result self.old self.new (Ok (version ∷ superseded version.stored self.old)) }
    {
        put_newest(&mut self.items, version)
    }

    /// Makes the newest version inactive from this day on. It takes no memory.
    pub fn retire(&mut self, day: Day)
        ensures { self.new ≡ retired day self.old }
    {
        retire(self.items.as_mut_slice(), day);
    }

    /// Takes the object's version out, where there is one. It takes no memory.
    pub fn remove(&mut self, object: u64)
        ensures value { self.new ≡ without_object object self.old }
        ensures one { IsTrue (has_object object self.old) → length self.new + 1 ≡ length self.old }
    {
        take_out(&mut self.items, object);
    }

    /// Takes the newest version out, and makes the next one active if so wanted. It takes no memory.
    pub fn undo(&mut self, active: bool)
        ensures { self.new ≡ undone active self.old }
    {
        take_newest(&mut self.items, active);
    }

    /// Changes the copies of the object's version. An object that has no version here, and a copy that is to be replaced or
    /// dropped and is not there, are `NotFound`. Only a copy that is added takes memory.
    pub fn alter(&mut self, object: u64, change: CopyChange) -> Result<(), Refusal>
        requires { IsTrue (takes_free_pool change (copies_of object self.old)) }
        ensures { Alters change result self.old self.new (versions_altered object change self.old) }
    {
        alter(self.items.as_mut_slice(), object, change)
    }
}

impl Clone for Versions {
    ghost is_clone = { λ versions copy. copy ≡ versions };

    fn clone(&self) -> Result<Self, AllocError> {
        Ok(Versions {
            items: self.items.clone()?,
        })
    }
}
