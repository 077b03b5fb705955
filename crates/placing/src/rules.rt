// The rule of files that no rule binds.
ghost use Rattle.std.specs.Prelude.{◌≡◌};
ghost use Rattle.std.specs.BTreeMap.{is_at};
ghost use Rattle.std.specs.Cmp.Lexicographic.{slice_cmp};
ghost use Rattle.std.specs.Ordering.{nat_cmp};
ghost use Rattle.std.specs.Option.{option_copied, option_map};
ghost use Rattle.inventory_rows.specs.policy_domains.Rows.{active_set, row_of};
ghost use Rattle.inventory_rows.specs.policy_domains.Rules.{group_of};
ghost use Rattle.inventory_rows.specs.State.{inv_of};
ghost use Rattle.inventory_work.specs.Rules.{active_in};
ghost use Rattle.placing.specs.Placing.{class_with_rule, default_of_set, default_in, default_rule};

use inventory_rows::policy_domains::{Domains, PolicySet};
use inventory_rows::{Tables, domain_of_node};
use kinds::{BackupRule, Name};
use std::collections::BTreeMap;

fn is_active_name(name: &Name) -> bool
    ensures { result ≡ is_at (slice_cmp nat_cmp active_set) name.now }
{
    b"ACTIVE".as_slice().cmp(name.as_bytes()).is_eq()
}

/// The set ACTIVE, among the sets of a domain. It walks the sets.
fn active_set(sets: &BTreeMap<Name, PolicySet>) -> Option<&PolicySet>
    ensures { option_copied result ≡ row_of active_set sets.now.entries }
{
    'sets: for (name, set) in sets {
        if is_active_name(name) {
            return Some(set);
        }
    }
    None
}

fn active_in<'a>(domains: &'a Domains, domain: &Name) -> Option<&'a PolicySet>
    ensures { option_copied result ≡ active_in domain.now domains.now }
{
    match domains.rows().get(domain) {
        Some(row) => active_set(row.sets()),
        None => None,
    }
}

fn group_of(set: &PolicySet, class: &Name) -> Option<BackupRule>
    ensures { result ≡ group_of class.now set.now }
{
    match set.classes().get(class)?.backup {
        Some(group) => Some(group.rule()),
        None => None,
    }
}

fn class_with_rule<'a>(set: &PolicySet, class: &'a Name) -> Option<(&'a Name, BackupRule)>
    ensures { option_map (λ found. (found.0.now, found.1)) result ≡ class_with_rule set.now class.now }
{
    match group_of(set, class) {
        Some(rule) => Some((class, rule)),
        None => None,
    }
}

fn default_of_set(set: &PolicySet) -> Option<(&Name, BackupRule)>
    ensures { option_map (λ found. (found.0.now, found.1)) result ≡ default_of_set set.now }
{
    match set.default_class() {
        Some(class) => class_with_rule(set, class),
        None => None,
    }
}

fn default_in<'a>(domains: &'a Domains, domain: &Name) -> Option<(&'a Name, BackupRule)>
    ensures { option_map (λ found. (found.0.now, found.1)) result ≡ default_in domain.now domains.now }
{
    match active_in(domains, domain) {
        Some(set) => default_of_set(set),
        None => None,
    }
}

/// The management class to which a node's files are bound that no rule binds, with the rule of its backup copy group: the default class of
/// the set ACTIVE of the node's domain. None where the node is not there, its domain has no set ACTIVE, the set no default class, or
/// the class no such group. It walks the sets of that one domain, and takes no memory.
pub fn default_rule(tables: &Tables, node: u32) -> Option<(&Name, BackupRule)>
    ensures { option_map (λ found. (found.0.now, found.1)) result ≡ default_rule node (inv_of tables.now) }
{
    match domain_of_node(tables, node) {
        Some(domain) => default_in(&tables.domains, domain),
        None => None,
    }
}
