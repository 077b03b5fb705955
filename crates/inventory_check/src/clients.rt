//! What is asked of client nodes, filespaces, groups and held objects.

ghost use Rattle.std.specs.Prelude.{◌≡◌, ◌&&◌, is_some};
ghost use Rattle.inventory_rows.specs.object_rows.Filespaces.{filespace_at};
ghost use Rattle.inventory_rows.specs.object_rows.HeldRows.{is_held_row};
ghost use Rattle.inventory_rows.specs.policy_domains.Rows.{row_of};
ghost use Rattle.inventory_rows.specs.State.{inv_of};
ghost use Rattle.inventory_rules.specs.Valid.{are_all_inactive, filespaces_cite, groups_are_orderly, held_cite, is_orderly, nodes_cite};
ghost use Rattle.inventory_check.specs.Rows.{days_fall, groups_orderly, is_not_later};

use inventory_rows::Tables;
use inventory_rows::object_rows::{HeldRow, Node};
use inventory_rows::policy_domains::Domains;
use inventory_rows::version_groups::{Group, Version};
use kinds::{Day, Path};
use std::collections::BTreeMap;

fn node_cites(domains: &Domains, node: &Node) -> bool
    ensures { result ≡ is_some (row_of node.now.domain domains.now) }
{
    domains.rows().contains_key(&node.domain)
}

/// Whether the domain of each node is there.
pub fn nodes_cite(tables: &Tables) -> bool
    ensures { result ≡ nodes_cite (inv_of tables.now) }
{
    'nodes: for (_, node) in tables.objects.nodes() {
        if !node_cites(&tables.domains, node) {
            return false;
        }
    }
    true
}

/// Whether the node of each filespace is there.
pub fn filespaces_cite(tables: &Tables) -> bool
    ensures { result ≡ filespaces_cite (inv_of tables.now) }
{
    'filespaces: for (_, filespace) in tables.objects.filespaces() {
        if !tables.objects.nodes().contains_key(&filespace.node) {
            return false;
        }
    }
    true
}

fn is_held(tables: &Tables, object: u64, row: &HeldRow) -> bool
    ensures { result ≡ (is_held_row (object, row.now) && is_some (filespace_at row.now.filespace (inv_of tables.now).clients.filespaces)) }
{
    let numbered = row.held.version.object == object && row.held.version.since.is_none();
    numbered && tables.objects.filespaces().contains_key(&row.filespace)
}

/// Whether each held object stands under its number, has no day from which it is inactive, and lies in a filespace that is there.
pub fn held_cite(tables: &Tables) -> bool
    ensures { result ≡ held_cite (inv_of tables.now) }
{
    'held: for (object, row) in tables.objects.held() {
        if !is_held(tables, *object, row) {
            return false;
        }
    }
    true
}

fn are_all_inactive(older: &[Version]) -> bool
    ensures { result ≡ are_all_inactive older.now }
{
    older.iter().all(|version| version.since.is_some())
}

/// Whether the day, where there is one, is the bound, where there is one, or before it.
fn is_not_later(bound: Option<Day>, day: Option<Day>) -> bool
    ensures { result ≡ is_not_later bound day }
{
    match (bound, day) {
        (Some(bound), Some(day)) => day.number() <= bound.number(),
        (Some(_), None) => true,
        (None, _) => true,
    }
}

/// Whether no version became inactive after the one before it in the list, and the first not after this day.
fn days_fall(since: Option<Day>, older: &[Version]) -> bool
    ensures { result ≡ days_fall since older.now }
{
    let mut bound = since;
    'older: for version in older {
        if !is_not_later(bound, version.since) {
            return false;
        }
        bound = version.since;
    }
    true
}

fn is_orderly(group: &Group) -> bool
    ensures { result ≡ is_orderly group.now }
{
    match group.versions.as_slice() {
        [] => false,
        [newest, older @ ..] => are_all_inactive(older) && days_fall(newest.since, older),
    }
}

fn groups_orderly(groups: &BTreeMap<Path, Group>) -> bool
    ensures { result ≡ groups_orderly groups.now.entries }
{
    'groups: for (_, group) in groups {
        if !is_orderly(group) {
            return false;
        }
    }
    true
}

/// Whether each path's versions are in order: at least one; only the newest may be active; none became inactive before an older one.
pub fn groups_are_orderly(tables: &Tables) -> bool
    ensures { result ≡ groups_are_orderly (inv_of tables.now) }
{
    'filespaces: for (_, filespace) in tables.objects.filespaces() {
        if !groups_orderly(filespace.groups.as_map()) {
            return false;
        }
    }
    true
}
