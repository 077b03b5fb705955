//! How many items the filespaces and the held objects have, as room that is left.
ghost use Rattle.std.specs.Prelude.{◌≡◌, length};
ghost use Rattle.std.specs.List.{sum_by};
ghost use Rattle.object_rows.specs.Items.{items_of_version, items_of_group, items_of_filespace, items_of_filespaces, items_of_held, items_with, left};

use crate::held_object::HeldRow;
use std::collections::BTreeMap;
use version_groups::kinds::Path;
use version_groups::{CopyRow, Filespace, Group, Version};

/// What is left of a room once so many things are in it; none where they have no room.
pub fn left_by_many(count: u128, room: u128) -> Option<u128>
    ensures { result ≡ left count room }
{
    if count <= room {
        Some(room - count)
    } else {
        None
    }
}

/// The same of as many things as a list or a map has.
pub fn left_by(count: usize, room: u128) -> Option<u128>
    ensures { result ≡ left count room }
{
    left_by_many(count as u128, room)
}

fn left_by_copies(copies: &[CopyRow], room: u128) -> Option<u128>
    ensures { result ≡ left (sum_by (λ c. length c.segments) copies.now) room }
{
    let mut rest = room;
    'copies: for copy in copies {
        match left_by(copy.segments.as_slice().len(), rest) {
            Some(less) => rest = less,
            None => return None,
        }
    }
    Some(rest)
}

/// The copies of a version and their segments.
pub(crate) fn left_by_version(version: &Version, room: u128) -> Option<u128>
    ensures { result ≡ left (items_of_version version.now) room }
{
    let copies = version.copies.as_slice();
    match left_by(copies.len(), room) {
        Some(rest) => left_by_copies(copies, rest),
        None => None,
    }
}

/// A held object and what it has.
fn left_by_row(row: &HeldRow, room: u128) -> Option<u128>
    ensures { result ≡ left (items_with row.now.held.version.copies) room }
{
    match left_by_many(1, room) {
        Some(rest) => left_by_version(&row.held.version, rest),
        None => None,
    }
}

fn left_by_versions(versions: &[Version], room: u128) -> Option<u128>
    ensures { result ≡ left (sum_by items_of_version versions.now) room }
{
    let mut rest = room;
    'versions: for version in versions {
        match left_by_version(version, rest) {
            Some(less) => rest = less,
            None => return None,
        }
    }
    Some(rest)
}

/// The versions of a path and what they have.
fn left_by_group(group: &Group, room: u128) -> Option<u128>
    ensures { result ≡ left (items_of_group group.now) room }
{
    let versions = group.versions.as_slice();
    match left_by(versions.len(), room) {
        Some(rest) => left_by_versions(versions, rest),
        None => None,
    }
}

fn left_by_groups(groups: &BTreeMap<Path, Group>, room: u128) -> Option<u128>
    ensures { result ≡ left (sum_by (λ g. items_of_group g.1) groups.now.entries) room }
{
    let mut rest = room;
    'groups: for (_, group) in groups.iter() {
        match left_by_group(group, rest) {
            Some(less) => rest = less,
            None => return None,
        }
    }
    Some(rest)
}

/// The groups of a filespace and what they have.
fn left_by_filespace(filespace: &Filespace, room: u128) -> Option<u128>
    ensures { result ≡ left (items_of_filespace filespace.now) room }
{
    let groups = filespace.groups.as_map();
    match left_by(groups.len(), room) {
        Some(rest) => left_by_groups(groups, rest),
        None => None,
    }
}

pub(crate) fn left_by_filespaces(filespaces: &BTreeMap<u32, Filespace>, room: u128) -> Option<u128>
    ensures { result ≡ left (items_of_filespaces filespaces.now.entries) room }
{
    let mut rest = room;
    'filespaces: for (_, filespace) in filespaces.iter() {
        match left_by_filespace(filespace, rest) {
            Some(less) => rest = less,
            None => return None,
        }
    }
    Some(rest)
}

/// The held objects and what they have.
pub(crate) fn left_by_held(held: &BTreeMap<u64, HeldRow>, room: u128) -> Option<u128>
    ensures { result ≡ left (items_of_held held.now.entries) room }
{
    let mut rest = room;
    'rows: for (_, row) in held.iter() {
        match left_by_row(row, rest) {
            Some(less) => rest = less,
            None => return None,
        }
    }
    Some(rest)
}
