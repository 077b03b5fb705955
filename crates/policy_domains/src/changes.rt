// What each verb makes of what it names, and how it is refused.
ghost use Rattle.std.specs.Prelude.{◌≡◌, false};
ghost use Rattle.std.specs.Option.{option_copied};
ghost use Rattle.std.specs.Result.{result_err};
ghost use Rattle.kinds.specs.Names.{is_same_name};
ghost use Rattle.policy_domains.specs.Makings.{Brings};
ghost use Rattle.policy_domains.specs.Rows.{active_set};
ghost use Rattle.policy_domains.specs.Sets.{assigned};
ghost use Rattle.policy_domains.specs.Changes.{domain_of, set_within, set_after, domains_after, names_active, after};

use crate::classes::AnyGroup;
use crate::makings::{activate, change_domain, change_set, change_within};
use crate::policy::PolicyDomain;
use crate::refusals::{class_in, group_in, of_activation, of_domain, of_set, of_within};
use crate::sets::PolicySet;
use kinds::{Name, PolicyChange, Refusal};
use std::alloc::Global;
use std::collections::BTreeMap;

fn is_active(set: &Name) -> bool
    ensures { result ≡ is_same_name set.now active_set }
{
    set.as_bytes() == b"ACTIVE".as_slice()
}

/// Whether a change is of the set ACTIVE, or would activate that set itself. Such a change is refused as a bad value before the domains are
/// looked at: ACTIVE is only ever made as the copy of another set.
pub fn names_active(change: &PolicyChange) -> bool
    ensures { result ≡ names_active change.now }
{
    match change {
        PolicyChange::Domain { .. } => false,
        PolicyChange::Set { set, .. } => is_active(set),
        PolicyChange::Class { set, .. } => is_active(set),
        PolicyChange::Group { set, .. } => is_active(set),
        PolicyChange::ArchiveGroup { set, .. } => is_active(set),
        PolicyChange::Assign { set, .. } => is_active(set),
        PolicyChange::Activate { set, .. } => is_active(set),
    }
}

/// The domain that a change names.
fn domain_of(change: &PolicyChange) -> &Name
    ensures { result.now ≡ domain_of change.now }
{
    match change {
        PolicyChange::Domain { domain, .. } => domain,
        PolicyChange::Set { domain, .. } => domain,
        PolicyChange::Class { domain, .. } => domain,
        PolicyChange::Group { domain, .. } => domain,
        PolicyChange::ArchiveGroup { domain, .. } => domain,
        PolicyChange::Assign { domain, .. } => domain,
        PolicyChange::Activate { domain, .. } => domain,
    }
}

/// The set within which a change is made, where it is made within one.
fn set_within(change: &PolicyChange) -> Option<&Name>
    ensures { option_copied result ≡ set_within change.now }
{
    match change {
        PolicyChange::Domain { .. } => None,
        PolicyChange::Set { .. } => None,
        PolicyChange::Class { set, .. } => Some(set),
        PolicyChange::Group { set, .. } => Some(set),
        PolicyChange::ArchiveGroup { set, .. } => Some(set),
        PolicyChange::Assign { set, .. } => Some(set),
        PolicyChange::Activate { .. } => None,
    }
}

fn assign_in(row: &PolicySet, class: &Name) -> Option<Refusal>
    ensures { result ≡ result_err (assigned class.now row.now) }
{
    if row.classes().contains_key(class) {
        None
    } else {
        Some(Refusal::NotFound)
    }
}

#[tactic(auto, using(crate::proofs::Parts::said_where))]
fn assign(row: &mut PolicySet, class: &Name) -> Result<(), Refusal>
    ensures { Brings result row.old row.new (assigned class.now row.old) }
{
    let class = class.clone()?;
    row.set_default(class);
    Ok(())
}

/// How a change within a set is refused, where it is.
pub(crate) fn refusal_in(row: &PolicySet, change: &PolicyChange) -> Option<Refusal>
    ensures { result ≡ result_err (set_after change.now row.now) }
{
    match change {
        PolicyChange::Domain { .. } => None,
        PolicyChange::Set { .. } => None,
        PolicyChange::Class { verb, class, .. } => class_in(row, *verb, class),
        PolicyChange::Group {
            verb,
            class,
            group,
            ..
        } => group_in(row, *verb, class, AnyGroup::Backup(*group)),
        PolicyChange::ArchiveGroup {
            verb,
            class,
            group,
            ..
        } => group_in(row, *verb, class, AnyGroup::Archive(*group)),
        PolicyChange::Assign { class, .. } => assign_in(row, class),
        PolicyChange::Activate { .. } => None,
    }
}

/// Makes a change within a set that is not refused.
#[tactic(auto, using(crate::proofs::Parts::said_itself))]
pub(crate) fn make_in(row: &mut PolicySet, change: &PolicyChange) -> Result<(), Refusal>
    ensures { Brings result row.old row.new (set_after change.now row.old) }
{
    match change {
        PolicyChange::Domain { .. } => Ok(()),
        PolicyChange::Set { .. } => Ok(()),
        PolicyChange::Class { verb, class, .. } => row.change_class(*verb, class),
        PolicyChange::Group {
            verb,
            class,
            group,
            ..
        } => {
            row.change_group(*verb, class, AnyGroup::Backup(*group));
            Ok(())
        }
        PolicyChange::ArchiveGroup {
            verb,
            class,
            group,
            ..
        } => {
            row.change_group(*verb, class, AnyGroup::Archive(*group));
            Ok(())
        }
        PolicyChange::Assign { class, .. } => assign(row, class),
        PolicyChange::Activate { .. } => Ok(()),
    }
}

/// How a change that is made within no set is refused, where it is.
fn refusal_outside(rows: &BTreeMap<Name, PolicyDomain>, change: &PolicyChange) -> Option<Refusal>
    ensures { result ≡ result_err (domains_after change.now rows.now.entries) }
{
    match change {
        PolicyChange::Domain { verb, domain, .. } => of_domain(rows, *verb, domain),
        PolicyChange::Set { verb, domain, set } => of_set(rows, *verb, domain, set),
        PolicyChange::Class { .. } => None,
        PolicyChange::Group { .. } => None,
        PolicyChange::ArchiveGroup { .. } => None,
        PolicyChange::Assign { .. } => None,
        PolicyChange::Activate { domain, set } => of_activation(rows, domain, set),
    }
}

/// Makes a change that is made within no set and not refused; `active` is the name of the set that binds clients.
#[tactic(auto, using(crate::proofs::Parts::said_itself))]
fn make_outside(
    alloc: Global,
    active: &Name,
    rows: &mut BTreeMap<Name, PolicyDomain>,
    change: &PolicyChange,
) -> Result<(), Refusal>
    requires { active.now ≡ active_set }
    ensures { Brings result rows.old.entries rows.new.entries (domains_after change.now rows.old.entries) }
{
    match change {
        PolicyChange::Domain {
            verb,
            domain,
            back_retention,
        } => change_domain(alloc, rows, *verb, domain, *back_retention),
        PolicyChange::Set { verb, domain, set } => change_set(alloc, rows, *verb, domain, set),
        PolicyChange::Class { .. } => Ok(()),
        PolicyChange::Group { .. } => Ok(()),
        PolicyChange::ArchiveGroup { .. } => Ok(()),
        PolicyChange::Assign { .. } => Ok(()),
        PolicyChange::Activate { domain, set } => activate(rows, active, domain, set),
    }
}

/// How a change is refused, where it is.
pub(crate) fn refusal(rows: &BTreeMap<Name, PolicyDomain>, change: &PolicyChange) -> Option<Refusal>
    ensures { result ≡ result_err (after change.now rows.now.entries) }
{
    match set_within(change) {
        Some(set) => of_within(rows, domain_of(change), set, change),
        None => refusal_outside(rows, change),
    }
}

/// Makes a change of the rows that is not refused; `active` is the name of the set that binds clients.
pub(crate) fn make(
    alloc: Global,
    active: &Name,
    rows: &mut BTreeMap<Name, PolicyDomain>,
    change: &PolicyChange,
) -> Result<(), Refusal>
    requires { active.now ≡ active_set }
    ensures { Brings result rows.old.entries rows.new.entries (after change.now rows.old.entries) }
{
    match set_within(change) {
        Some(set) => change_within(rows, domain_of(change), set, change),
        None => make_outside(alloc, active, rows, change),
    }
}
