// How each change is made of the rows that it names.
ghost use Rattle.std.specs.Prelude.{◌≡◌};
ghost use Rattle.policy_domains.specs.Makings.{IsAsSaid, Brings};
ghost use Rattle.policy_domains.specs.Rows.{active_set, changed};
ghost use Rattle.policy_domains.specs.Sets.{in_sets, set_changed, activated};
ghost use Rattle.policy_domains.specs.Changes.{domain_changed, set_after};

use crate::named::{define_row, delete_row};
use crate::policy::PolicyDomain;
use kinds::{Days, DefineOrDelete, Name, PolicyChange, Refusal, Verb};
use std::alloc::Global;
use std::collections::BTreeMap;

fn update_domain(rows: &mut BTreeMap<Name, PolicyDomain>, domain: &Name, back_retention: Days)
    ensures { IsAsSaid rows.new.entries (domain_changed Verb.Update domain.now back_retention rows.old.entries) }
{
    match rows.get_mut(domain) {
        Some(row) => row.set_back_retention(back_retention),
        None => (),
    }
}

pub(crate) fn change_domain(
    alloc: Global,
    rows: &mut BTreeMap<Name, PolicyDomain>,
    verb: Verb,
    domain: &Name,
    back_retention: Days,
) -> Result<(), Refusal>
    ensures { Brings result rows.old.entries rows.new.entries (domain_changed verb domain.now back_retention rows.old.entries) }
{
    match verb {
        Verb::Define => define_row(rows, domain, PolicyDomain::empty(alloc, back_retention)),
        Verb::Update => {
            update_domain(rows, domain, back_retention);
            Ok(())
        }
        Verb::Delete => {
            delete_row(rows, domain);
            Ok(())
        }
    }
}

pub(crate) fn change_set(
    alloc: Global,
    rows: &mut BTreeMap<Name, PolicyDomain>,
    verb: DefineOrDelete,
    domain: &Name,
    set: &Name,
) -> Result<(), Refusal>
    ensures { Brings result rows.old.entries rows.new.entries (changed domain.now (in_sets (set_changed verb set.now)) rows.old.entries) }
{
    match rows.get_mut(domain) {
        Some(row) => row.change_set(alloc, verb, set),
        None => Ok(()),
    }
}

pub(crate) fn change_within(
    rows: &mut BTreeMap<Name, PolicyDomain>,
    domain: &Name,
    set: &Name,
    change: &PolicyChange,
) -> Result<(), Refusal>
    ensures { Brings result rows.old.entries rows.new.entries
        (changed domain.now (in_sets (changed set.now (set_after change.now))) rows.old.entries) }
{
    match rows.get_mut(domain) {
        Some(row) => row.change_within(set, change),
        None => Ok(()),
    }
}

pub(crate) fn activate(
    rows: &mut BTreeMap<Name, PolicyDomain>,
    active: &Name,
    domain: &Name,
    set: &Name,
) -> Result<(), Refusal>
    requires { active.now ≡ active_set }
    ensures { Brings result rows.old.entries rows.new.entries (changed domain.now (activated set.now) rows.old.entries) }
{
    match rows.get_mut(domain) {
        Some(row) => row.activate(active, set),
        None => Ok(()),
    }
}
