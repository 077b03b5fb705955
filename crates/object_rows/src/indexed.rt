ghost use Rattle.std.specs.Prelude.{◌≡◌, ◌<◌, ◌∷◌, false, true, IsTrue, Ok, Err, [], length};
ghost use Rattle.std.specs.Option.{option_copied};
ghost use Rattle.version_groups.specs.kinds.Answers.{Becomes, Makes};
ghost use Rattle.version_groups.specs.kinds.declared.refusal.Refusal.TheVariants.{NotFound};
ghost use Rattle.version_groups.specs.Copies.{takes_free_pool, Alters};
ghost use Rattle.version_groups.specs.Versions.{are_distinct, has_object, copies_of, version_of};
ghost use Rattle.version_groups.specs.declared.group.GroupChange.TheVariants.{Gone, Remove, Rebind, Undo};
ghost use Rattle.object_rows.specs.Filespaces.{at_number, filespaces_after, filespaces_altered, filespaces_with, versions_at, versions_of};
ghost use Rattle.std.specs.Map.{lookup};
ghost use Rattle.object_rows.specs.Places.{AreAllOrderly, Indexed, listed};
ghost use Rattle.object_rows.specs.Rows.{NewestIs, filespaces_cleared};
ghost use Rattle.object_rows.specs.declared.tally.Tally.{Tally};
ghost use Rattle.object_rows.specs.Tally.{IsCounted};

use crate::place::Place;
use crate::tally::Tally;
use crate::{counted, filespaces};
use std::collections::BTreeMap;
use version_groups::kinds::{Day, Name, Path, Refusal};
use version_groups::{CopyChange, Filespace, GroupChange, Version};

/// The version of the object.
pub(crate) fn find<'a>(
    places: &BTreeMap<u64, Place>,
    filespaces: &'a BTreeMap<u32, Filespace>,
    object: u64,
) -> Option<&'a Version>
    requires { Indexed places.now.entries filespaces.now.entries }
    ensures { option_copied result ≡ version_of object (versions_of filespaces.now.entries) }
{
    match places.get(&object) {
        None => None,
        Some(place) => match filespaces.get(&place.filespace) {
            None => None,
            Some(filespace) => filespace.groups.find(&place.path, object),
        },
    }
}

/// Puts a version of a new object in front of those of a path of a filespace, which has to be there.
pub(crate) fn put(
    places: &mut BTreeMap<u64, Place>,
    filespaces: &mut BTreeMap<u32, Filespace>,
    tally: &mut Tally,
    number: u32,
    path: &Path,
    class: Name,
    version: Version,
) -> Result<(), Refusal>
    requires indexed { Indexed places.old.entries filespaces.old.entries }
    requires counted { IsCounted tally.old filespaces.old.entries }
    requires new { has_object version.object (versions_of filespaces.old.entries) ≡ false }
    ensures value { Becomes result filespaces.old.entries filespaces.new.entries (filespaces_with number path.now class version filespaces.old.entries) }
    ensures indexed { Indexed places.new.entries filespaces.new.entries }
    ensures counted { IsCounted tally.new filespaces.new.entries }
{
    let place = Place {
        filespace: number,
        path: path.clone()?,
    };
    let object = version.object;
    places.insert(object, place)?;
    match counted::put(filespaces, tally, number, path, class, version) {
        Ok(()) => Ok(()),
        Err(refusal) => {
            places.remove(&object);
            Err(refusal)
        }
    }
}

/// Takes the object's version out of a path.
pub(crate) fn remove(
    places: &mut BTreeMap<u64, Place>,
    filespaces: &mut BTreeMap<u32, Filespace>,
    tally: &mut Tally,
    number: u32,
    path: &Path,
    object: u64,
) -> Result<(), Refusal>
    requires indexed { Indexed places.old.entries filespaces.old.entries }
    requires counted { IsCounted tally.old filespaces.old.entries }
    ensures value { Makes result filespaces.old.entries filespaces.new.entries (filespaces_after number path.now (Remove object) filespaces.old.entries) }
    ensures indexed { Indexed places.new.entries filespaces.new.entries }
    ensures counted { IsCounted tally.new filespaces.new.entries }
{
    let gone = GroupChange::Remove { object };
    match counted::change(filespaces, tally, number, path, gone, object) {
        Ok(()) => {
            places.remove(&object);
            Ok(())
        }
        Err(refusal) => Err(refusal),
    }
}

/// Takes the object's version out of its path, wherever that is.
fn clear(
    places: &BTreeMap<u64, Place>,
    filespaces: &mut BTreeMap<u32, Filespace>,
    tally: &mut Tally,
    object: u64,
) -> Result<(), Refusal>
    ensures value { Makes result filespaces.old.entries filespaces.new.entries (filespaces_cleared object (lookup (at_number object) places.now.entries) filespaces.old.entries) }
    ensures counted { AreAllOrderly filespaces.old.entries → are_distinct (versions_of filespaces.old.entries) ≡ true → IsCounted tally.old filespaces.old.entries → IsCounted tally.new filespaces.new.entries }
    ensures orderly { AreAllOrderly filespaces.old.entries → AreAllOrderly filespaces.new.entries }
{
    match places.get(&object) {
        None => Err(Refusal::NotFound),
        Some(place) => {
            let gone = GroupChange::Remove { object };
            counted::change(
                filespaces,
                tally,
                place.filespace,
                &place.path,
                gone,
                object,
            )
        }
    }
}

/// Takes the object's version away, wherever it is.
pub(crate) fn discard(
    places: &mut BTreeMap<u64, Place>,
    filespaces: &mut BTreeMap<u32, Filespace>,
    tally: &mut Tally,
    object: u64,
) -> Result<(), Refusal>
    requires indexed { Indexed places.old.entries filespaces.old.entries }
    requires counted { IsCounted tally.old filespaces.old.entries }
    ensures value { Makes result filespaces.old.entries filespaces.new.entries (filespaces_cleared object (lookup (at_number object) (listed filespaces.old.entries)) filespaces.old.entries) }
    ensures indexed { Indexed places.new.entries filespaces.new.entries }
    ensures counted { IsCounted tally.new filespaces.new.entries }
{
    match clear(places, filespaces, tally, object) {
        Ok(()) => {
            places.remove(&object);
            Ok(())
        }
        Err(refusal) => Err(refusal),
    }
}

/// Makes the newest version of a path inactive from today on.
pub(crate) fn retire(
    places: &BTreeMap<u64, Place>,
    filespaces: &mut BTreeMap<u32, Filespace>,
    number: u32,
    path: &Path,
    object: u64,
    today: Day,
) -> Result<(), Refusal>
    requires { Indexed places.now.entries filespaces.old.entries }
    ensures value { Makes result filespaces.old.entries filespaces.new.entries (filespaces_after number path.now (Gone object today) filespaces.old.entries) }
    ensures indexed { Indexed places.now.entries filespaces.new.entries }
    ensures counted { (tally : Tally) → IsCounted tally filespaces.old.entries → IsCounted tally filespaces.new.entries }
{
    let gone = GroupChange::Gone { object, today };
    filespaces::change(filespaces, number, path, gone)
}

/// Binds a path to a class.
pub(crate) fn rebind(
    places: &BTreeMap<u64, Place>,
    filespaces: &mut BTreeMap<u32, Filespace>,
    number: u32,
    path: &Path,
    class: Name,
) -> Result<(), Refusal>
    requires { Indexed places.now.entries filespaces.old.entries }
    ensures value { Makes result filespaces.old.entries filespaces.new.entries (filespaces_after number path.now (Rebind class) filespaces.old.entries) }
    ensures indexed { Indexed places.now.entries filespaces.new.entries }
    ensures counted { (tally : Tally) → IsCounted tally filespaces.old.entries → IsCounted tally filespaces.new.entries }
{
    filespaces::change(filespaces, number, path, GroupChange::Rebind { class })
}

/// Takes the newest version of a path out, makes the next one active if so wanted, and binds the path to a class.
pub(crate) fn undo(
    places: &mut BTreeMap<u64, Place>,
    filespaces: &mut BTreeMap<u32, Filespace>,
    tally: &mut Tally,
    number: u32,
    path: &Path,
    class: Name,
    active: bool,
)
    requires indexed { Indexed places.old.entries filespaces.old.entries }
    requires counted { IsCounted tally.old filespaces.old.entries }
    requires there { 0 < length (versions_at number path.now filespaces.old.entries) }
    ensures value { filespaces_after number path.now (Undo class active) filespaces.old.entries ≡ Ok filespaces.new.entries }
    ensures indexed { Indexed places.new.entries filespaces.new.entries }
    ensures counted { IsCounted tally.new filespaces.new.entries }
{
    if let Some(object) = newest(filespaces, number, path) {
        let undo = GroupChange::Undo { class, active };
        match counted::change(filespaces, tally, number, path, undo, object) {
            Ok(()) => {
                places.remove(&object);
            }
            Err(_) => {}
        }
    }
}

/// Changes the copies of the object's version.
pub(crate) fn alter(
    places: &BTreeMap<u64, Place>,
    filespaces: &mut BTreeMap<u32, Filespace>,
    tally: &mut Tally,
    object: u64,
    change: CopyChange,
) -> Result<(), Refusal>
    requires indexed { Indexed places.now.entries filespaces.old.entries }
    requires counted { IsCounted tally.old filespaces.old.entries }
    requires free { IsTrue (takes_free_pool change (copies_of object (versions_of filespaces.old.entries))) }
    ensures value { Alters change result filespaces.old.entries filespaces.new.entries (filespaces_altered object change filespaces.old.entries) }
    ensures indexed { Indexed places.now.entries filespaces.new.entries }
    ensures counted { IsCounted tally.new filespaces.new.entries }
{
    match places.get(&object) {
        None => Err(Refusal::NotFound),
        Some(place) => {
            counted::alter(
                filespaces,
                tally,
                place.filespace,
                &place.path,
                object,
                change,
            )
        }
    }
}

/// The object of the newest version of a path of a filespace.
fn newest(filespaces: &BTreeMap<u32, Filespace>, number: u32, path: &Path) -> Option<u64>
    ensures { NewestIs result (versions_at number path.now filespaces.now.entries) }
{
    match filespaces.get(&number) {
        None => None,
        Some(filespace) => match filespace.groups.get(path) {
            None => None,
            Some(group) => match group.versions.as_slice() {
                [] => None,
                [newest, ..] => Some(newest.object),
            },
        },
    }
}
