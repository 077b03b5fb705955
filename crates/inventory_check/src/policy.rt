//! What is asked of policy domains.

ghost use Rattle.std.specs.Prelude.{◌≡◌, is_some, true};
ghost use Rattle.std.specs.Option.{option_map_or};
ghost use Rattle.inventory_rows.specs.Search.{pool};
ghost use Rattle.kinds.specs.Names.{is_same_name};
ghost use Rattle.inventory_rows.specs.policy_domains.Rows.{active_set, row_of};
ghost use Rattle.inventory_rows.specs.State.{inv_of};
ghost use Rattle.inventory_rules.specs.Valid.{defaults_are_there, is_default_there, rules_cite};
ghost use Rattle.inventory_check.specs.Rows.{class_cites, domain_cites, domain_has_defaults, domains_cite, set_cites};

use inventory_rows::Tables;
use inventory_rows::policy_domains::{ManagementClass, PolicyDomain, PolicySet};
use kinds::{ArchiveGroup, CopyGroup, Name};

fn backup_cites(tables: &Tables, group: Option<CopyGroup>) -> bool
    ensures { result ≡ option_map_or (λ rule. is_some (pool rule.destination (inv_of tables.now))) group true }
{
    match group {
        None => true,
        Some(group) => {
            let destination = group.rule().destination;
            tables.pools.pools().contains_key(&destination)
        }
    }
}

fn archive_cites(tables: &Tables, group: Option<ArchiveGroup>) -> bool
    ensures { result ≡ option_map_or (λ rule. is_some (pool rule.destination (inv_of tables.now))) group true }
{
    match group {
        None => true,
        Some(group) => {
            let destination = group.rule().destination;
            tables.pools.pools().contains_key(&destination)
        }
    }
}

fn class_cites(tables: &Tables, class: &ManagementClass) -> bool
    ensures { result ≡ class_cites (inv_of tables.now) class.now }
{
    backup_cites(tables, class.backup) && archive_cites(tables, class.archive)
}

fn set_cites(tables: &Tables, set: &PolicySet) -> bool
    ensures { result ≡ set_cites (inv_of tables.now) set.now }
{
    'classes: for (_, class) in set.classes() {
        if !class_cites(tables, class) {
            return false;
        }
    }
    true
}

fn domain_cites(tables: &Tables, domain: &PolicyDomain) -> bool
    ensures { result ≡ domain_cites (inv_of tables.now) domain.now }
{
    'sets: for (_, set) in domain.sets() {
        if !set_cites(tables, set) {
            return false;
        }
    }
    true
}

fn domains_cite(tables: &Tables) -> bool
    ensures { result ≡ domains_cite (inv_of tables.now) }
{
    'domains: for (_, domain) in tables.domains.rows() {
        if !domain_cites(tables, domain) {
            return false;
        }
    }
    true
}

/// Whether the pool is there to which each copy group sends.
pub fn rules_cite(tables: &Tables) -> bool
    ensures { result ≡ rules_cite (inv_of tables.now) }
{
    domains_cite(tables)
}

fn is_active(name: &Name) -> bool
    ensures { result ≡ is_same_name name.now active_set }
{
    name.as_bytes() == b"ACTIVE".as_slice()
}

fn has_class(set: &PolicySet, class: &Name) -> bool
    ensures { result ≡ is_some (row_of class.now set.now.classes) }
{
    set.classes().contains_key(class)
}

fn is_default_there(name: &Name, set: &PolicySet) -> bool
    ensures { result ≡ is_default_there name.now set.now }
{
    match set.default_class() {
        Some(class) => has_class(set, class),
        None => !is_active(name),
    }
}

fn domain_has_defaults(domain: &PolicyDomain) -> bool
    ensures { result ≡ domain_has_defaults domain.now }
{
    'sets: for (name, set) in domain.sets() {
        if !is_default_there(name, set) {
            return false;
        }
    }
    true
}

/// Whether each set's default class is one of its classes, and the set that binds clients has one.
pub fn defaults_are_there(tables: &Tables) -> bool
    ensures { result ≡ defaults_are_there (inv_of tables.now) }
{
    'domains: for (_, domain) in tables.domains.rows() {
        if !domain_has_defaults(domain) {
            return false;
        }
    }
    true
}
