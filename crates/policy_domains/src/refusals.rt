// How changes of the rows that are named are refused.
ghost use Rattle.std.specs.Prelude.{◌≡◌, ℕ};
ghost use Rattle.std.specs.Option.{option_copied};
ghost use Rattle.std.specs.Result.{result_err};
ghost use Rattle.policy_domains.specs.Errors.{set_at};
ghost use Rattle.policy_domains.specs.Rows.{changed, row_of};
ghost use Rattle.policy_domains.specs.Sets.{in_sets, set_changed, class_changed, to_activate, activated};
ghost use Rattle.policy_domains.specs.Changes.{domain_changed, in_group, set_after};

use crate::changes::refusal_in;
use crate::classes::AnyGroup;
use crate::named::{define_refusal, delete_refusal};
use crate::policy::PolicyDomain;
use crate::sets::PolicySet;
use kinds::{DefineOrDelete, Name, PolicyChange, Refusal, Verb};
use std::collections::BTreeMap;

/// How a change of the domain itself would be refused.
pub(crate) fn of_domain(
    rows: &BTreeMap<Name, PolicyDomain>,
    verb: Verb,
    domain: &Name,
) -> Option<Refusal>
    ensures { (days : ℕ) → result ≡ result_err (domain_changed verb domain.now days rows.now.entries) }
{
    match verb {
        Verb::Define => define_refusal(rows, domain),
        Verb::Update => match rows.get(domain) {
            Some(_) => None,
            None => Some(Refusal::NotFound),
        },
        Verb::Delete => delete_refusal(rows, domain),
    }
}

/// How a change of the policy set itself would be refused.
fn set_in(sets: &BTreeMap<Name, PolicySet>, verb: DefineOrDelete, set: &Name) -> Option<Refusal>
    ensures { result ≡ result_err (set_changed verb set.now sets.now.entries) }
{
    match verb {
        DefineOrDelete::Define => define_refusal(sets, set),
        DefineOrDelete::Delete => delete_refusal(sets, set),
    }
}

/// How a change of a domain's policy set itself would be refused.
#[tactic(auto, using(crate::proofs::Errors::error_in_sets))]
pub(crate) fn of_set(
    rows: &BTreeMap<Name, PolicyDomain>,
    verb: DefineOrDelete,
    domain: &Name,
    set: &Name,
) -> Option<Refusal>
    ensures { result ≡ result_err (changed domain.now (in_sets (set_changed verb set.now)) rows.now.entries) }
{
    match rows.get(domain) {
        None => Some(Refusal::NotFound),
        Some(row) => set_in(row.sets(), verb, set),
    }
}

/// The policy set of a domain.
fn set_at<'a>(
    rows: &'a BTreeMap<Name, PolicyDomain>,
    domain: &Name,
    set: &Name,
) -> Option<&'a PolicySet>
    ensures { option_copied result ≡ set_at domain.now set.now rows.now.entries }
{
    match rows.get(domain) {
        None => None,
        Some(row) => row.sets().get(set),
    }
}

#[tactic(auto, using(crate::proofs::Errors::error_within))]
pub(crate) fn class_in(row: &PolicySet, verb: DefineOrDelete, class: &Name) -> Option<Refusal>
    ensures { result ≡ result_err (class_changed verb class.now row.now) }
{
    match verb {
        DefineOrDelete::Define => define_refusal(row.classes(), class),
        DefineOrDelete::Delete => delete_refusal(row.classes(), class),
    }
}

#[tactic(auto, using(crate::proofs::Errors::error_within, crate::proofs::Errors::error_changed))]
pub(crate) fn group_in(
    row: &PolicySet,
    verb: Verb,
    class: &Name,
    group: AnyGroup,
) -> Option<Refusal>
    ensures { result ≡ result_err (in_group verb class.now group row.now) }
{
    match row.classes().get(class) {
        None => Some(Refusal::NotFound),
        Some(there) => there.refusal(verb, group),
    }
}

/// How a change within a set is refused, where it is.
#[tactic(auto, using(crate::proofs::Errors::error_in_set))]
pub(crate) fn of_within(
    rows: &BTreeMap<Name, PolicyDomain>,
    domain: &Name,
    set: &Name,
    change: &PolicyChange,
) -> Option<Refusal>
    ensures { result ≡ result_err (changed domain.now (in_sets (changed set.now (set_after change.now))) rows.now.entries) }
{
    match set_at(rows, domain, set) {
        None => Some(Refusal::NotFound),
        Some(row) => refusal_in(row, change),
    }
}

fn activate_in(sets: &BTreeMap<Name, PolicySet>, set: &Name) -> Option<Refusal>
    ensures { result ≡ result_err (to_activate (row_of set.now sets.now.entries)) }
{
    match sets.get(set) {
        None => Some(Refusal::NotFound),
        Some(row) => {
            if row.default_class().is_none() {
                Some(Refusal::NoDefaultClass)
            } else {
                None
            }
        }
    }
}

/// How the activation of a set is refused, where it is.
#[tactic(auto, using(crate::proofs::Errors::error_activated))]
pub(crate) fn of_activation(
    rows: &BTreeMap<Name, PolicyDomain>,
    domain: &Name,
    set: &Name,
) -> Option<Refusal>
    ensures { result ≡ result_err (changed domain.now (activated set.now) rows.now.entries) }
{
    match rows.get(domain) {
        None => Some(Refusal::NotFound),
        Some(row) => activate_in(row.sets(), set),
    }
}
