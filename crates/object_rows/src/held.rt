//! Pools in which a copy lies, found by a walk.

ghost use Rattle.std.specs.Prelude.{◌≡◌};
ghost use Rattle.object_rows.specs.Held.{versions_hold, groups_hold, filespaces_hold, held_hold};

use crate::held_object::HeldRow;
use std::collections::BTreeMap;
use version_groups::kinds::Path;
use version_groups::{Filespace, Group, Version};

/// Whether one of the versions has a copy in the pool.
fn versions_hold(versions: &[Version], pool: u32) -> bool
    ensures { result ≡ versions_hold pool versions.now }
{
    'versions: for version in versions {
        if version.copies.is_in(pool) {
            return true;
        }
    }
    false
}

/// Whether a version of one of the groups has a copy in the pool.
fn groups_hold(groups: &BTreeMap<Path, Group>, pool: u32) -> bool
    ensures { result ≡ groups_hold pool groups.now.entries }
{
    'groups: for (_, group) in groups.iter() {
        if versions_hold(group.versions.as_slice(), pool) {
            return true;
        }
    }
    false
}

/// Whether a version in one of the filespaces has a copy in the pool.
pub(crate) fn filespaces_hold(filespaces: &BTreeMap<u32, Filespace>, pool: u32) -> bool
    ensures { result ≡ filespaces_hold pool filespaces.now.entries }
{
    'filespaces: for (_, filespace) in filespaces.iter() {
        if groups_hold(filespace.groups.as_map(), pool) {
            return true;
        }
    }
    false
}

/// Whether a held object has a copy in the pool.
pub(crate) fn held_hold(held: &BTreeMap<u64, HeldRow>, pool: u32) -> bool
    ensures { result ≡ held_hold pool held.now.entries }
{
    'rows: for (_, row) in held.iter() {
        if row.held.version.copies.is_in(pool) {
            return true;
        }
    }
    false
}
