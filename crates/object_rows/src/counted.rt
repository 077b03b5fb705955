//! Changes of the filespaces with the counts that are kept beside them.
ghost use Rattle.std.specs.Prelude.{◌≡◌, false, true, IsTrue};
ghost use Rattle.version_groups.specs.kinds.Answers.{Becomes, Makes};
ghost use Rattle.version_groups.specs.Copies.{takes_free_pool, Alters};
ghost use Rattle.version_groups.specs.Groups.{versions_after};
ghost use Rattle.version_groups.specs.Versions.{are_distinct, has_object, copies_of};
ghost use Rattle.object_rows.specs.Filespaces.{filespaces_after, filespaces_altered_at, filespaces_with, versions_at};
ghost use Rattle.object_rows.specs.Places.{AreAllOrderly};
ghost use Rattle.object_rows.specs.Tally.{Exchanges, IsCounted};

use crate::filespaces;
use crate::tally::Tally;
use std::collections::BTreeMap;
use version_groups::kinds::{Name, Path, Refusal};
use version_groups::{CopyChange, Filespace, GroupChange, Version};

/// Puts a version in front of those of a path of a filespace, which has to be there.
pub(crate) fn put(
    map: &mut BTreeMap<u32, Filespace>,
    tally: &mut Tally,
    number: u32,
    path: &Path,
    class: Name,
    version: Version,
) -> Result<(), Refusal>
    requires { has_object version.object (versions_at number path.now map.old.entries) ≡ false }
    ensures value { Becomes result map.old.entries map.new.entries (filespaces_with number path.now class version map.old.entries) }
    ensures orderly { AreAllOrderly map.old.entries → AreAllOrderly map.new.entries }
    ensures counted { AreAllOrderly map.old.entries → IsCounted tally.old map.old.entries → IsCounted tally.new map.new.entries }
{
    let object = version.object;
    tally.leave(map, number, path, object);
    let result = filespaces::put(map, number, path, class, version);
    tally.enter(map, number, path, object);
    result
}

/// Changes the group of a path of a filespace, which has to be there, by a change of its class and of the object's version alone.
pub(crate) fn change(
    map: &mut BTreeMap<u32, Filespace>,
    tally: &mut Tally,
    number: u32,
    path: &Path,
    by: GroupChange,
    object: u64,
) -> Result<(), Refusal>
    ensures value { Makes result map.old.entries map.new.entries (filespaces_after number path.now by map.old.entries) }
    ensures orderly { AreAllOrderly map.old.entries → AreAllOrderly map.new.entries }
    ensures counted { AreAllOrderly map.old.entries → Exchanges object (versions_at number path.now map.old.entries) (versions_after by (versions_at number path.now map.old.entries)) → IsCounted tally.old map.old.entries → IsCounted tally.new map.new.entries }
{
    tally.leave(map, number, path, object);
    let result = filespaces::change(map, number, path, by);
    tally.enter(map, number, path, object);
    result
}

/// Changes copies of an object of a path of a filespace, which has to be there.
pub(crate) fn alter(
    map: &mut BTreeMap<u32, Filespace>,
    tally: &mut Tally,
    number: u32,
    path: &Path,
    object: u64,
    by: CopyChange,
) -> Result<(), Refusal>
    requires { IsTrue (takes_free_pool by (copies_of object (versions_at number path.now map.old.entries))) }
    ensures value { Alters by result map.old.entries map.new.entries (filespaces_altered_at number path.now object by map.old.entries) }
    ensures orderly { AreAllOrderly map.old.entries → AreAllOrderly map.new.entries }
    ensures counted { are_distinct (versions_at number path.now map.old.entries) ≡ true → IsCounted tally.old map.old.entries → IsCounted tally.new map.new.entries }
{
    tally.leave(map, number, path, object);
    let result = filespaces::alter(map, number, path, object, by);
    tally.enter(map, number, path, object);
    result
}
