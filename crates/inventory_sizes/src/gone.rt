//! How many items go that a transaction replaces, and a set that stands under its name.

ghost use Rattle.std.specs.Prelude.{◌≡◌, ◌+◌, ◌*◌, ◌^◌, ◌<◌, ◌≤◌, length};
ghost use Rattle.std.specs.List.{sum_by};
ghost use Rattle.std.specs.Option.{option_copied};
ghost use Rattle.kinds.specs.Names.{is_same_name};
ghost use Rattle.inventory_rows.specs.policy_domains.Rows.{active_set, row_of};
ghost use Rattle.inventory_rows.specs.Search.{copy_in};
ghost use Rattle.inventory_rows.specs.State.{inv_of};
ghost use Rattle.inventory_rules.specs.Copies.{segments_left};
ghost use Rattle.inventory_rules.specs.Policy.{items_of_set, policy_gone, set_in};
ghost use Rattle.inventory_rules.specs.Transactions.{items_gone};

use entries::Change;
use entries::change_items::MovedCopy;
use inventory_rows::Tables;
use inventory_rows::policy_domains::{PolicyDomain, PolicySet};
use inventory_rows::version_groups::{CopyRow, Version};
use kinds::{Name, PolicyChange};
use std::collections::BTreeMap;

/// A set and its classes.
fn items_with(set: &PolicySet) -> u128
    ensures value { result ≡ 1 + length set.now.classes }
    ensures few { result ≤ 2 ^ 64 }
{
    1 + set.classes().len() as u128
}

/// A set of a domain, where it is there, and its classes.
fn items_under(sets: &BTreeMap<Name, PolicySet>, set: &Name) -> u128
    ensures value { result ≡ items_of_set (row_of set.now sets.now.entries) }
    ensures few { result ≤ 2 ^ 64 }
{
    match sets.get(set) {
        Some(set) => items_with(set),
        None => 0,
    }
}

/// A set, where its domain has it, and its classes.
pub(crate) fn items_of_set(
    domains: &BTreeMap<Name, PolicyDomain>,
    domain: &Name,
    set: &Name,
) -> u128
    ensures value { result ≡ items_of_set (set_in domain.now set.now domains.now.entries) }
    ensures few { result ≤ 2 ^ 64 }
{
    match domains.get(domain) {
        Some(row) => items_under(row.sets(), set),
        None => 0,
    }
}

fn is_active(set: &Name) -> bool
    ensures { result ≡ is_same_name active_set set.now }
{
    b"ACTIVE".as_slice() == set.as_bytes()
}

/// The active set, where it is there, and its classes.
fn items_of_active(sets: &BTreeMap<Name, PolicySet>) -> u128
    ensures value { result ≡ items_of_set (row_of active_set sets.now.entries) }
    ensures few { result ≤ 2 ^ 64 }
{
    'sets: for (name, set) in sets.iter() {
        if is_active(name) {
            return items_with(set);
        }
    }
    0
}

/// The active set of a domain, where it is there, and its classes.
fn active_items(domains: &BTreeMap<Name, PolicyDomain>, domain: &Name) -> u128
    ensures value { result ≡ items_of_set (set_in domain.now active_set domains.now.entries) }
    ensures few { result ≤ 2 ^ 64 }
{
    match domains.get(domain) {
        Some(row) => items_of_active(row.sets()),
        None => 0,
    }
}

/// An activation takes the set that was active.
fn policy_gone(change: &PolicyChange, domains: &BTreeMap<Name, PolicyDomain>) -> u128
    ensures value { result ≡ policy_gone change.now domains.now.entries }
    ensures few { result ≤ 2 ^ 64 }
{
    match change {
        PolicyChange::Activate { domain, .. } => active_items(domains, domain),
        _ => 0,
    }
}

/// The copy of a version in a pool.
fn copy_in(pool: u32, version: &Version) -> Option<&CopyRow>
    ensures { option_copied result ≡ copy_in pool version.now }
{
    version.copies.as_slice().iter().find(|c| c.pool == pool)
}

/// The segments of a copy that moves, where they were.
fn segments_left(tables: &Tables, item: &MovedCopy) -> usize
    ensures value { result ≡ segments_left (inv_of tables.now) item.now }
    ensures few { result < 2 ^ 32 }
{
    match tables.objects.find(item.object) {
        Some(version) => match copy_in(item.from, version) {
            Some(copy) => copy.segments.as_slice().len(),
            None => 0,
        },
        None => 0,
    }
}

/// The segments of all copies that move, where they were.
fn copies_gone(tables: &Tables, items: &[MovedCopy]) -> u128
    ensures value { result ≡ sum_by (segments_left (inv_of tables.now)) items.now }
    ensures few { result ≤ length items.now * 2 ^ 32 }
{
    let mut count: u128 = 0;
    'items: for item in items {
        count += segments_left(tables, item) as u128;
    }
    count
}

/// How many items go that a transaction replaces.
pub(crate) fn items_gone(change: &Change, tables: &Tables) -> u128
    ensures value { result ≡ items_gone change.now (inv_of tables.now) }
    ensures few { result ≤ 2 ^ 64 }
{
    match change {
        Change::Policy(policy) => policy_gone(policy, tables.domains.rows()),
        Change::Move(copies) => copies_gone(tables, copies.items.as_slice()),
        _ => 0,
    }
}
