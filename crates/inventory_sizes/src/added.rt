//! How many items a transaction brings, as room that is left.

ghost use Rattle.std.specs.Prelude.{◌≡◌, ◌+◌, ◌||◌, [], is_some, length, not};
ghost use Rattle.std.specs.List.{list_any, sum_by};
ghost use Rattle.kinds.specs.Names.{is_same_name};
ghost use Rattle.inventory_rows.specs.object_rows.Items.{left};
ghost use Rattle.inventory_rows.specs.Search.{group};
ghost use Rattle.inventory_rows.specs.State.{inv_of};
ghost use Rattle.inventory_rules.specs.Backups.{delays_now};
ghost use Rattle.inventory_rules.specs.Clients.{is_new_client};
ghost use Rattle.inventory_rules.specs.Policy.{policy_added};
ghost use Rattle.inventory_rules.specs.Stores.{is_new_store};
ghost use Rattle.inventory_rules.specs.Transactions.{items_added};
ghost use Rattle.inventory_rules.specs.Versions.{items_of_new, items_of_new_held, paths_added};

use crate::delays::left_by_delays;
use crate::gone::items_of_set;
use crate::room::left_by_one;
use entries::Change;
use entries::change_items::{
    MovedCopies, MovedCopy, NewCopies, NewCopy, NewHeldObject, NewHeldObjects, NewVersion,
    NewVersions,
};
use inventory_rows::Tables;
use inventory_rows::object_rows::{left_by, left_by_many};
use inventory_rows::policy_domains::PolicyDomain;
use kinds::{DefineOrDelete, Name, ObjectChange, Path, PolicyChange, PoolChange, Verb};
use std::collections::BTreeMap;

/// A domain comes without sets, a set without classes; an activation copies a set with its classes.
fn policy_added(change: &PolicyChange, domains: &BTreeMap<Name, PolicyDomain>) -> u128
    ensures { result ≡ policy_added change.now domains.now.entries }
{
    match change {
        PolicyChange::Domain {
            verb: Verb::Define,
            ..
        } => 1,
        PolicyChange::Set {
            verb: DefineOrDelete::Define,
            ..
        } => 1,
        PolicyChange::Class {
            verb: DefineOrDelete::Define,
            ..
        } => 1,
        PolicyChange::Activate { domain, set } => items_of_set(domains, domain, set),
        _ => 0,
    }
}

fn is_new_client(change: &ObjectChange) -> bool
    ensures { result ≡ is_new_client change.now }
{
    match change {
        ObjectChange::Node {
            verb: DefineOrDelete::Define,
            ..
        } => true,
        ObjectChange::Node {
            verb: DefineOrDelete::Delete,
            ..
        } => false,
        ObjectChange::Filespace {
            verb: DefineOrDelete::Define,
            ..
        } => true,
        ObjectChange::Filespace {
            verb: DefineOrDelete::Delete,
            ..
        } => false,
    }
}

fn is_new_store(change: &PoolChange) -> bool
    ensures { result ≡ is_new_store change.now }
{
    match change {
        PoolChange::DevClass {
            verb: DefineOrDelete::Define,
            ..
        } => true,
        PoolChange::DevClass {
            verb: DefineOrDelete::Delete,
            ..
        } => false,
        PoolChange::Pool {
            verb: Verb::Define,
            ..
        } => true,
        PoolChange::Pool {
            verb: Verb::Update,
            ..
        } => false,
        PoolChange::Pool {
            verb: Verb::Delete,
            ..
        } => false,
        PoolChange::Volume {
            verb: Verb::Define,
            ..
        } => true,
        PoolChange::Volume {
            verb: Verb::Update,
            ..
        } => false,
        PoolChange::Volume {
            verb: Verb::Delete,
            ..
        } => false,
    }
}

/// A version, its copy and the copy's segments.
fn left_by_version(item: &NewVersion, room: u128) -> Option<u128>
    ensures { result ≡ left (items_of_new item.now) room }
{
    left_by_many(1 + (1 + item.segments.as_slice().len() as u128), room)
}

fn left_by_versions(items: &[NewVersion], room: u128) -> Option<u128>
    ensures { result ≡ left (sum_by items_of_new items.now) room }
{
    let mut rest = room;
    'items: for item in items {
        match left_by_version(item, rest) {
            Some(less) => rest = less,
            None => return None,
        }
    }
    Some(rest)
}

/// A held object, its copy and the copy's segments.
fn left_by_object(item: &NewHeldObject, room: u128) -> Option<u128>
    ensures { result ≡ left (items_of_new_held item.now) room }
{
    left_by_many(1 + (1 + item.segments.as_slice().len() as u128), room)
}

fn left_by_objects(items: &[NewHeldObject], room: u128) -> Option<u128>
    ensures { result ≡ left (sum_by items_of_new_held items.now) room }
{
    let mut rest = room;
    'items: for item in items {
        match left_by_object(item, rest) {
            Some(less) => rest = less,
            None => return None,
        }
    }
    Some(rest)
}

fn left_by_hold(change: &NewHeldObjects, room: u128) -> Option<u128>
    ensures { result ≡ left (length change.now.scratch + sum_by items_of_new_held change.now.items) room }
{
    let rest = left_by(change.scratch.len(), room)?;
    left_by_objects(change.items.as_slice(), rest)
}

/// Whether one of the items before has the path.
fn has_path(path: &Path, earlier: &[NewVersion]) -> bool
    ensures { result ≡ list_any (λ i. is_same_name path.now i.path) earlier.now }
{
    earlier.iter().any(|item| *path == item.path)
}

/// Whether a path gets a group: it has none, and isn't the path of one of the items before.
fn is_new_path(tables: &Tables, filespace: u32, path: &Path, earlier: &[NewVersion]) -> bool
    ensures { result ≡ not (is_some (group filespace path.now (inv_of tables.now)) || list_any (λ i. is_same_name path.now i.path) earlier.now) }
{
    let has_group = tables.objects.group(filespace, path).is_some();
    !(has_group || has_path(path, earlier))
}

/// The groups of the paths that have none.
fn left_by_paths(tables: &Tables, filespace: u32, items: &[NewVersion], room: u128) -> Option<u128>
    ensures { result ≡ left (paths_added filespace [] items.now (inv_of tables.now)) room }
{
    let mut rest = room;
    'items: for i in 0..items.len() {
        let comes = is_new_path(tables, filespace, &items[i].path, &items[..i]);
        match left_by_one(comes, rest) {
            Some(less) => rest = less,
            None => return None,
        }
    }
    Some(rest)
}

fn left_by_backup(change: &NewVersions, tables: &Tables, room: u128) -> Option<u128>
    ensures { result ≡ left (length change.now.scratch + (sum_by items_of_new change.now.items + paths_added change.now.filespace [] change.now.items (inv_of tables.now))) room }
{
    let items = change.items.as_slice();
    let rest = left_by(change.scratch.len(), room)?;
    let rest = left_by_versions(items, rest)?;
    left_by_paths(tables, change.filespace, items, rest)
}

fn left_by_new_segments(item: &MovedCopy, room: u128) -> Option<u128>
    ensures { result ≡ left (length item.now.segments) room }
{
    left_by(item.segments.as_slice().len(), room)
}

fn left_by_moved(items: &[MovedCopy], room: u128) -> Option<u128>
    ensures { result ≡ left (sum_by (λ i. length i.segments) items.now) room }
{
    let mut rest = room;
    'items: for item in items {
        match left_by_new_segments(item, rest) {
            Some(less) => rest = less,
            None => return None,
        }
    }
    Some(rest)
}

fn left_by_move(change: &MovedCopies, room: u128) -> Option<u128>
    ensures { result ≡ left (length change.now.scratch + sum_by (λ i. length i.segments) change.now.items) room }
{
    let rest = left_by(change.scratch.len(), room)?;
    left_by_moved(change.items.as_slice(), rest)
}

/// A copy and its segments.
fn left_by_new_copy(item: &NewCopy, room: u128) -> Option<u128>
    ensures { result ≡ left (1 + length item.now.segments) room }
{
    left_by_many(1 + item.segments.as_slice().len() as u128, room)
}

fn left_by_copies(items: &[NewCopy], room: u128) -> Option<u128>
    ensures { result ≡ left (sum_by (λ i. 1 + length i.segments) items.now) room }
{
    let mut rest = room;
    'items: for item in items {
        match left_by_new_copy(item, rest) {
            Some(less) => rest = less,
            None => return None,
        }
    }
    Some(rest)
}

fn left_by_copy(change: &NewCopies, room: u128) -> Option<u128>
    ensures { result ≡ left (length change.now.scratch + sum_by (λ i. 1 + length i.segments) change.now.items) room }
{
    let rest = left_by(change.scratch.len(), room)?;
    left_by_copies(change.items.as_slice(), rest)
}

/// A backup and its delays.
fn left_by_begin(tables: &Tables, room: u128) -> Option<u128>
    ensures { result ≡ left (1 + length (delays_now (inv_of tables.now))) room }
{
    let rest = left_by(1, room)?;
    left_by_delays(tables, rest)
}

/// What a transaction brings.
pub(crate) fn left_by_change(change: &Change, tables: &Tables, room: u128) -> Option<u128>
    ensures { result ≡ left (items_added change.now (inv_of tables.now)) room }
{
    match change {
        Change::Policy(policy) => left_by_many(policy_added(policy, tables.domains.rows()), room),
        Change::Object(client) => left_by_one(is_new_client(client), room),
        Change::Pool(store) => left_by_one(is_new_store(store), room),
        Change::Backup(versions) => left_by_backup(versions, tables, room),
        Change::Hold(objects) => left_by_hold(objects, room),
        Change::Move(copies) => left_by_move(copies, room),
        Change::Copy(copies) => left_by_copy(copies, room),
        Change::DbBegin { .. } => left_by_begin(tables, room),
        _ => left_by(0, room),
    }
}
