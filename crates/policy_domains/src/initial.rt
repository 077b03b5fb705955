// The policy of a server that was just formatted.
ghost use Rattle.std.specs.Prelude.{◌≡◌};
ghost use Rattle.kinds.specs.Answers.{AnswersBy};
ghost use Rattle.policy_domains.specs.Rows.{active_set};
ghost use Rattle.policy_domains.specs.Fresh.{standard, standard_rule, standard_set, standard_domain};

use crate::classes::ManagementClass;
use crate::policy::PolicyDomain;
use crate::sets::PolicySet;
use kinds::{BackupRule, CopyGroup, Days, Limit, Name, Refusal, Still};
use std::alloc::Global;
use std::collections::BTreeMap;

/// The name of the set that binds clients.
pub(crate) fn active_name(alloc: Global) -> Result<Name, Refusal>
    ensures { AnswersBy (λ name. name) result active_set }
{
    Name::read(alloc, b"ACTIVE", 30)
}

/// The name of the domain, the set and the class that stand there at first.
pub(crate) fn standard_name(alloc: Global) -> Result<Name, Refusal>
    ensures { AnswersBy (λ name. name) result standard }
{
    Name::read(alloc, b"STANDARD", 30)
}

fn standard_group() -> CopyGroup
    ensures { result ≡ standard_rule }
{
    CopyGroup::new(BackupRule {
        destination: 1,
        frequency: 0,
        ver_exists: Limit::At(2),
        ver_deleted: Limit::At(1),
        ret_extra: Limit::At(30),
        ret_only: Limit::At(60),
        absolute: false,
        still: Still::ShrStatic,
    })
    .unwrap()
}

fn standard_days() -> Days
    ensures { result ≡ 30 }
{
    Days::new(30).unwrap()
}

fn standard_set(alloc: Global) -> Result<PolicySet, Refusal>
    ensures { AnswersBy (λ set. set) result standard_set }
{
    let name = standard_name(alloc)?;
    let mut classes = BTreeMap::new(alloc);
    let class = ManagementClass {
        backup: Some(standard_group()),
        archive: None,
    };
    classes.insert(name, class)?;
    let default_class = standard_name(alloc)?;
    Ok(PolicySet::from_parts(Some(default_class), classes))
}

pub(crate) fn standard_domain(alloc: Global) -> Result<PolicyDomain, Refusal>
    ensures { AnswersBy (λ domain. domain) result standard_domain }
{
    let active = active_name(alloc)?;
    let copy = standard_set(alloc)?;
    let name = standard_name(alloc)?;
    let set = standard_set(alloc)?;
    let mut sets = BTreeMap::new(alloc);
    sets.insert(active, copy)?;
    sets.insert(name, set)?;
    Ok(PolicyDomain::from_parts(standard_days(), sets))
}
