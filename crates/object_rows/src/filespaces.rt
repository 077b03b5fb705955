ghost use Rattle.std.specs.Prelude.{◌≡◌, false, IsTrue};
ghost use Rattle.version_groups.specs.kinds.Answers.{Becomes, Makes};
ghost use Rattle.version_groups.specs.Copies.{takes_free_pool, Alters};
ghost use Rattle.version_groups.specs.Versions.{has_object, copies_of};
ghost use Rattle.object_rows.specs.Filespaces.{filespaces_after, filespaces_altered_at, filespaces_with, versions_at};
ghost use Rattle.object_rows.specs.Places.{AreAllOrderly};

use std::collections::BTreeMap;
use version_groups::kinds::{Name, Path, Refusal};
use version_groups::{CopyChange, Filespace, GroupChange, Version};

/// Puts a version in front of those of a path of a filespace, which has to be there.
pub(crate) fn put(
    map: &mut BTreeMap<u32, Filespace>,
    number: u32,
    path: &Path,
    class: Name,
    version: Version,
) -> Result<(), Refusal>
    requires { has_object version.object (versions_at number path.now map.old.entries) ≡ false }
    ensures value { Becomes result map.old.entries map.new.entries (filespaces_with number path.now class version map.old.entries) }
    ensures orderly { AreAllOrderly map.old.entries → AreAllOrderly map.new.entries }
{
    match map.get_mut(&number) {
        None => Err(Refusal::NotFound),
        Some(filespace) => filespace.groups.put(path, class, version),
    }
}

/// Changes the group of a path of a filespace, which has to be there.
pub(crate) fn change(
    map: &mut BTreeMap<u32, Filespace>,
    number: u32,
    path: &Path,
    by: GroupChange,
) -> Result<(), Refusal>
    ensures value { Makes result map.old.entries map.new.entries (filespaces_after number path.now by map.old.entries) }
    ensures orderly { AreAllOrderly map.old.entries → AreAllOrderly map.new.entries }
{
    match map.get_mut(&number) {
        None => Err(Refusal::NotFound),
        Some(filespace) => filespace.groups.change(path, by),
    }
}

/// Changes copies of an object of a path of a filespace, which has to be there.
pub(crate) fn alter(
    map: &mut BTreeMap<u32, Filespace>,
    number: u32,
    path: &Path,
    object: u64,
    by: CopyChange,
) -> Result<(), Refusal>
    requires { IsTrue (takes_free_pool by (copies_of object (versions_at number path.now map.old.entries))) }
    ensures value { Alters by result map.old.entries map.new.entries (filespaces_altered_at number path.now object by map.old.entries) }
    ensures orderly { AreAllOrderly map.old.entries → AreAllOrderly map.new.entries }
{
    match map.get_mut(&number) {
        None => Err(Refusal::NotFound),
        Some(filespace) => filespace.groups.alter(path, object, by),
    }
}
