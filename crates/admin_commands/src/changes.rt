// Changes by the names that they take.
ghost use Rattle.kinds.specs.Answers.{Answers, AnswersBy};
ghost use Rattle.kinds.specs.declared.change.PolicyChange.TheVariants as policy;
ghost use Rattle.kinds.specs.declared.change.ObjectChange.TheVariants as client;
ghost use Rattle.kinds.specs.declared.change.PoolChange.TheVariants as store;
ghost use Rattle.admin_commands.specs.Orders.{policies, clients, stores};

use crate::work::Work;
use entries::Change;
use kinds::{
    ArchiveGroup, Capacity, CopyGroup, Days, DefineOrDelete, Name, NodeName, ObjectChange,
    PolicyChange, PoolChange, Refusal, Verb,
};

pub(crate) fn domain(verb: Verb, domain: &Name, days: Days) -> Result<Work, Refusal>
    ensures { Answers result (policies (policy.Domain verb domain.now days)) }
{
    Ok(Work::Commit(Change::Policy(PolicyChange::Domain {
        verb,
        domain: domain.clone()?,
        back_retention: days,
    })))
}

pub(crate) fn set(verb: DefineOrDelete, domain: &Name, set: &Name) -> Result<Work, Refusal>
    ensures { Answers result (policies (policy.Set verb domain.now set.now)) }
{
    Ok(Work::Commit(Change::Policy(PolicyChange::Set {
        verb,
        domain: domain.clone()?,
        set: set.clone()?,
    })))
}

pub(crate) fn activate(domain: &Name, set: &Name) -> Result<Work, Refusal>
    ensures { Answers result (policies (policy.Activate domain.now set.now)) }
{
    Ok(Work::Commit(Change::Policy(PolicyChange::Activate {
        domain: domain.clone()?,
        set: set.clone()?,
    })))
}

/// Copies of three names.
fn copies(first: &Name, second: &Name, third: &Name) -> Result<(Name, Name, Name), Refusal>
    ensures { AnswersBy (λ names. names) result (first.now, second.now, third.now) }
{
    let first = first.clone()?;
    let second = second.clone()?;
    Ok((first, second, third.clone()?))
}

pub(crate) fn class(
    verb: DefineOrDelete,
    domain: &Name,
    set: &Name,
    class: &Name,
) -> Result<Work, Refusal>
    ensures { Answers result (policies (policy.Class verb domain.now set.now class.now)) }
{
    let (domain, set, class) = copies(domain, set, class)?;
    Ok(Work::Commit(Change::Policy(PolicyChange::Class {
        verb,
        domain,
        set,
        class,
    })))
}

pub(crate) fn group(
    verb: Verb,
    domain: &Name,
    set: &Name,
    class: &Name,
    group: CopyGroup,
) -> Result<Work, Refusal>
    ensures { Answers result (policies (policy.Group verb domain.now set.now class.now group)) }
{
    let (domain, set, class) = copies(domain, set, class)?;
    Ok(Work::Commit(Change::Policy(PolicyChange::Group {
        verb,
        domain,
        set,
        class,
        group,
    })))
}

pub(crate) fn archive_group(
    verb: Verb,
    domain: &Name,
    set: &Name,
    class: &Name,
    group: ArchiveGroup,
) -> Result<Work, Refusal>
    ensures { Answers result (policies (policy.ArchiveGroup verb domain.now set.now class.now group)) }
{
    let (domain, set, class) = copies(domain, set, class)?;
    Ok(Work::Commit(Change::Policy(PolicyChange::ArchiveGroup {
        verb,
        domain,
        set,
        class,
        group,
    })))
}

pub(crate) fn assign(domain: &Name, set: &Name, class: &Name) -> Result<Work, Refusal>
    ensures { Answers result (policies (policy.Assign domain.now set.now class.now)) }
{
    let (domain, set, class) = copies(domain, set, class)?;
    Ok(Work::Commit(Change::Policy(PolicyChange::Assign { domain, set, class })))
}

pub(crate) fn node(verb: DefineOrDelete, node: &NodeName, domain: &Name) -> Result<Work, Refusal>
    ensures { Answers result (clients (client.Node verb node.now domain.now)) }
{
    Ok(Work::Commit(Change::Object(ObjectChange::Node {
        verb,
        node: node.clone()?,
        domain: domain.clone()?,
    })))
}

pub(crate) fn dev_class(
    verb: DefineOrDelete,
    class: &Name,
    capacity: Capacity,
) -> Result<Work, Refusal>
    ensures { Answers result (stores (store.DevClass verb class.now capacity)) }
{
    Ok(Work::Commit(Change::Pool(PoolChange::DevClass {
        verb,
        class: class.clone()?,
        capacity,
    })))
}
