// How many copies objects have.
ghost use Rattle.std.specs.Prelude.{◌≡◌, ◌<◌, ◌^◌, length};
ghost use Rattle.inventory_rows.specs.object_rows.Filespaces.{versions_in, versions_of};
ghost use Rattle.inventory_rows.specs.object_rows.HeldRows.{held_versions};
ghost use Rattle.inventory_rows.specs.object_rows.Rows.{kept_of};
ghost use Rattle.db_losses.specs.Losses.{copies_in};

use inventory_rows::object_rows::{HeldRow, Objects};
use inventory_rows::version_groups::{Filespace, Group, Version};
use kinds::Path;
use std::collections::BTreeMap;

/// How many copies some versions have.
fn in_versions(versions: &[Version]) -> u64
    requires { length (copies_in versions.now) < 2 ^ 64 }
    ensures { result ≡ length (copies_in versions.now) }
{
    let mut count = 0;
    'versions: for version in versions {
        count += version.copies.as_slice().len() as u64;
    }
    count
}

/// How many the versions of some groups have.
fn in_groups(groups: &BTreeMap<Path, Group>) -> u64
    requires { length (copies_in (versions_in groups.now.entries)) < 2 ^ 64 }
    ensures { result ≡ length (copies_in (versions_in groups.now.entries)) }
{
    let mut count = 0;
    'groups: for (_, group) in groups.iter() {
        count += in_versions(group.versions.as_slice());
    }
    count
}

/// How many the versions in some filespaces have.
fn in_filespaces(filespaces: &BTreeMap<u32, Filespace>) -> u64
    requires { length (copies_in (versions_of filespaces.now.entries)) < 2 ^ 64 }
    ensures { result ≡ length (copies_in (versions_of filespaces.now.entries)) }
{
    let mut count = 0;
    'filespaces: for (_, filespace) in filespaces.iter() {
        count += in_groups(filespace.groups.as_map());
    }
    count
}

/// How many some held objects have.
fn in_held(held: &BTreeMap<u64, HeldRow>) -> u64
    requires { length (copies_in (held_versions held.now.entries)) < 2 ^ 64 }
    ensures { result ≡ length (copies_in (held_versions held.now.entries)) }
{
    let mut count = 0;
    'held: for (_, row) in held.iter() {
        count += row.held.version.copies.as_slice().len() as u64;
    }
    count
}

/// How many copies all that is kept has. It takes no memory.
pub fn count_copies(objects: &Objects) -> u64
    requires { length (copies_in (kept_of objects.now)) < 2 ^ 64 }
    ensures { result ≡ length (copies_in (kept_of objects.now)) }
{
    in_filespaces(objects.filespaces()) + in_held(objects.held())
}
