//! The rules by which the versions of files are kept.

ghost use Rattle.std.specs.Prelude.{◌≡◌};
ghost use Rattle.std.specs.Option.{option_copied};
ghost use Rattle.policy_domains.specs.Rules.{rule_of};
ghost use Rattle.inventory_rows.specs.Search.{domain_of_node, domain_of, rule_in};
ghost use Rattle.inventory_rows.specs.State.{inv_of};

use crate::tables::Tables;
use kinds::{Name, RuleFound};
use policy_domains::Domains;

/// The name of the domain of a node.
pub fn domain_of_node(tables: &Tables, node: u32) -> Option<&Name>
    ensures { option_copied result ≡ domain_of_node node (inv_of tables.now) }
{
    match tables.objects.nodes().get(&node) {
        Some(row) => Some(&row.domain),
        None => None,
    }
}

fn domain_of(tables: &Tables, filespace: u32) -> Option<&Name>
    ensures { option_copied result ≡ domain_of filespace (inv_of tables.now) }
{
    match tables.objects.filespaces().get(&filespace) {
        Some(row) => domain_of_node(tables, row.node),
        None => None,
    }
}

/// The rule by which the versions of a class of a domain are kept; none where the domain is not there.
pub fn rule_of(domains: &Domains, domain: &Name, class: &Name) -> Option<RuleFound>
    ensures { result ≡ rule_of domains.now domain.now class.now }
{
    if domains.rows().contains_key(domain) {
        Some(domains.rule_of(domain, class))
    } else {
        None
    }
}

/// The rule by which the versions of a class are kept in a filespace; none where the filespace, its node or the node's domain is not there.
pub fn rule_in(tables: &Tables, filespace: u32, class: &Name) -> Option<RuleFound>
    ensures { result ≡ rule_in filespace class.now (inv_of tables.now) }
{
    match domain_of(tables, filespace) {
        Some(domain) => rule_of(&tables.domains, domain, class),
        None => None,
    }
}
