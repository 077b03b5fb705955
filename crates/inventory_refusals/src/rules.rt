//! What rows use one another.

ghost use Rattle.std.specs.Prelude.{◌≡◌, ◌==◌, true, false};
ghost use Rattle.std.specs.List.{list_any};
ghost use Rattle.std.specs.Option.{option_map_or};
ghost use Rattle.inventory_rows.specs.State.{inv_of};
ghost use Rattle.inventory_rows.specs.Search.{is_destination, node_in};
ghost use Rattle.inventory_refusals.specs.Users.{goes_to, classes_go_to, sets_go_to, domains_go_to};

use inventory_rows::Tables;
use inventory_rows::policy_domains::{ManagementClass, PolicyDomain, PolicySet};
use kinds::{ArchiveGroup, CopyGroup, Name};
use std::collections::BTreeMap;

/// The least node of a domain.
pub(crate) fn node_in(tables: &Tables, domain: &Name) -> Option<u32>
    ensures { result ≡ node_in domain.now (inv_of tables.now) }
{
    'nodes: for (number, node) in tables.objects.nodes() {
        if node.domain == *domain {
            return Some(*number);
        }
    }
    None
}

fn backup_goes_to(group: Option<CopyGroup>, pool: u32) -> bool
    ensures { result ≡ option_map_or (λ rule. rule.destination == pool) group false }
{
    match group {
        Some(group) => group.rule().destination == pool,
        None => false,
    }
}

fn archive_goes_to(group: Option<ArchiveGroup>, pool: u32) -> bool
    ensures { result ≡ option_map_or (λ rule. rule.destination == pool) group false }
{
    match group {
        Some(group) => group.rule().destination == pool,
        None => false,
    }
}

fn goes_to(class: &ManagementClass, pool: u32) -> bool
    ensures { result ≡ goes_to pool class.now }
{
    backup_goes_to(class.backup, pool) || archive_goes_to(class.archive, pool)
}

fn classes_go_to(classes: &BTreeMap<Name, ManagementClass>, pool: u32) -> bool
    ensures { result ≡ classes_go_to pool classes.now.entries }
{
    'classes: for (_, class) in classes {
        if goes_to(class, pool) {
            return true;
        }
    }
    false
}

fn sets_go_to(sets: &BTreeMap<Name, PolicySet>, pool: u32) -> bool
    ensures { result ≡ sets_go_to pool sets.now.entries }
{
    'sets: for (_, set) in sets {
        if classes_go_to(set.classes(), pool) {
            return true;
        }
    }
    false
}

fn domains_go_to(domains: &BTreeMap<Name, PolicyDomain>, pool: u32) -> bool
    ensures { result ≡ domains_go_to pool domains.now.entries }
{
    'domains: for (_, domain) in domains {
        if sets_go_to(domain.sets(), pool) {
            return true;
        }
    }
    false
}

/// Whether a copy group of any set has the pool as its destination.
pub(crate) fn is_destination(tables: &Tables, pool: u32) -> bool
    ensures { result ≡ is_destination pool (inv_of tables.now) }
{
    domains_go_to(tables.domains.rows(), pool)
}
