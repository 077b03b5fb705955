//! Why a change of the policy domains is refused.

ghost use Rattle.std.specs.Prelude.{◌≡◌};
ghost use Rattle.kinds.specs.Refusals.{foremost};
ghost use Rattle.inventory_rows.specs.State.{inv_of};
ghost use Rattle.inventory_rules.specs.Policy.{destination_refused, domain_used, policy_refused};

use crate::rules::node_in;
use inventory_rows::policy_domains::names_active;
use inventory_rows::{Tables, is_primary};
use kinds::{By, PolicyChange, Refusal, Verb, bad_value, sooner_of, unless};

/// The destination of a copy group that is defined or replaced is not there, or no primary pool.
fn destination_refusal(tables: &Tables, change: &PolicyChange) -> Option<Refusal>
    ensures { result ≡ foremost (destination_refused change.now (inv_of tables.now)) }
{
    match change {
        PolicyChange::Group {
            verb: Verb::Define | Verb::Update,
            group,
            ..
        } => unless(
            is_primary(tables, group.rule().destination),
            Refusal::NotFound,
        ),
        PolicyChange::ArchiveGroup {
            verb: Verb::Define | Verb::Update,
            group,
            ..
        } => unless(
            is_primary(tables, group.rule().destination),
            Refusal::NotFound,
        ),
        _ => None,
    }
}

/// A domain that is deleted has a node.
fn domain_use(tables: &Tables, change: &PolicyChange) -> Option<Refusal>
    ensures { result ≡ foremost (domain_used change.now (inv_of tables.now)) }
{
    match change {
        PolicyChange::Domain {
            verb: Verb::Delete,
            domain,
            ..
        } => match node_in(tables, domain) {
            Some(node) => Some(Refusal::InUse(By::Node(node))),
            None => None,
        },
        _ => None,
    }
}

/// Why the database refuses a change of the policy domains: a change of the set ACTIVE is `BadValue`, what is named and not there, a
/// destination that is no primary pool included, is `NotFound`, what is there already is `Exists`, a domain with nodes that is deleted is
/// `InUse` by the least of them, and a set without a default class that is activated is `NoDefaultClass`. It takes no memory.
#[tactic(auto, using(item_refusals::proofs::Foremost::foremost_append, crate::proofs::Changes::foremost_of_change))]
pub fn policy_refused(tables: &Tables, change: &PolicyChange) -> Option<Refusal>
    ensures { result ≡ foremost (policy_refused change.now (inv_of tables.now)) }
{
    let active = unless(!names_active(change), bad_value());
    let rows = tables.domains.refusal(change);
    let destination = destination_refusal(tables, change);
    let used = domain_use(tables, change);
    sooner_of(active, sooner_of(rows, sooner_of(destination, used)))
}
