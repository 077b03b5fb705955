// Policy domains, policy sets, management classes and copy groups.
ghost use Rattle.std.specs.Prelude.{◌≡◌, is_some};
ghost use Rattle.kinds.specs.Answers.{Answers, AnswersBy};
ghost use Rattle.inventory_work.specs.inventory_rows.policy_domains.Rows.{active_set};
ghost use Rattle.inventory_work.specs.Lists.{Writes};
ghost use Rattle.inventory_answers.specs.Policy.{domain_line, domain_lines, set_line, set_lines, sets_of, class_line, class_lines, classes_of, group_line, group_lines_of, group_lines, groups_of, activation_refusal};

use crate::lines::{ClassLine, DomainLine, GroupLine, SetLine};
use crate::look::{active_name, domain_row, name_of_pool, set_row};
use inventory_work::Listed;
use inventory_work::inventory_rows::policy_domains::{
    Domains, ManagementClass, PolicyDomain, PolicySet,
};
use inventory_work::inventory_rows::pool_rows::Pools;
use kinds::{ArchiveGroup, ArchiveRule, CopyGroup, Name, Refusal};
use std::alloc::Global;

fn domain_line(active: &Name, name: &Name, domain: &PolicyDomain) -> Result<DomainLine, Refusal>
    requires { active.now ≡ active_set }
    ensures { AnswersBy (λ line. line) result (domain_line (name.now, domain.now)) }
{
    Ok(DomainLine {
        name: name.clone()?,
        back_retention: domain.back_retention(),
        active: domain.sets().contains_key(active),
    })
}

/// All policy domains.
pub(crate) fn domain_lines(alloc: Global, domains: &Domains) -> Result<Listed<DomainLine>, Refusal>
    ensures { AnswersBy (λ lines. lines) result (domain_lines domains.now) }
{
    let active = active_name(alloc)?;
    let mut lines = Vec::new(alloc);
    'domains: for (name, domain) in domains.rows() {
        lines.push(domain_line(&active, name, domain)?)?;
    }
    Ok(Listed::from_vec(lines))
}

fn set_line(domain: &Name, name: &Name, set: &PolicySet) -> Result<SetLine, Refusal>
    ensures { AnswersBy (λ line. line) result (set_line domain.now (name.now, set.now)) }
{
    Ok(SetLine {
        domain: domain.clone()?,
        set: name.clone()?,
        default_class: set.default_class().cloned()?,
    })
}

fn set_lines(alloc: Global, domain: &Name, row: &PolicyDomain) -> Result<Listed<SetLine>, Refusal>
    ensures { AnswersBy (λ lines. lines) result (set_lines domain.now row.now) }
{
    let mut lines = Vec::new(alloc);
    'sets: for (name, set) in row.sets() {
        lines.push(set_line(domain, name, set)?)?;
    }
    Ok(Listed::from_vec(lines))
}

/// The policy sets of a domain.
pub(crate) fn sets_of(
    alloc: Global,
    domains: &Domains,
    domain: &Name,
) -> Result<Listed<SetLine>, Refusal>
    ensures { Answers result (sets_of domain.now domains.now) }
{
    match domain_row(domains, domain) {
        Some(row) => set_lines(alloc, domain, row),
        None => Err(Refusal::NotFound),
    }
}

fn archive_rule(group: Option<ArchiveGroup>) -> Option<ArchiveRule>
    ensures { result ≡ group }
{
    match group {
        None => None,
        Some(group) => Some(group.rule()),
    }
}

fn class_line(
    domain: &Name,
    set: &Name,
    name: &Name,
    row: &ManagementClass,
) -> Result<ClassLine, Refusal>
    ensures { AnswersBy (λ line. line) result (class_line domain.now set.now (name.now, row.now)) }
{
    Ok(ClassLine {
        domain: domain.clone()?,
        set: set.clone()?,
        class: name.clone()?,
        group: row.backup.is_some(),
        archive: archive_rule(row.archive),
    })
}

fn class_lines(
    alloc: Global,
    domain: &Name,
    set: &Name,
    row: &PolicySet,
) -> Result<Listed<ClassLine>, Refusal>
    ensures { AnswersBy (λ lines. lines) result (class_lines domain.now set.now row.now) }
{
    let mut lines = Vec::new(alloc);
    'classes: for (name, class) in row.classes() {
        lines.push(class_line(domain, set, name, class)?)?;
    }
    Ok(Listed::from_vec(lines))
}

/// The management classes of a set.
pub(crate) fn classes_of(
    alloc: Global,
    domains: &Domains,
    domain: &Name,
    set: &Name,
) -> Result<Listed<ClassLine>, Refusal>
    ensures { Answers result (classes_of domain.now set.now domains.now) }
{
    match set_row(domains, domain, set) {
        Ok(row) => class_lines(alloc, domain, set, row),
        Err(refusal) => Err(refusal),
    }
}

fn group_line(
    pools: &Pools,
    domain: &Name,
    set: &Name,
    class: &Name,
    group: &CopyGroup,
) -> Result<GroupLine, Refusal>
    ensures { AnswersBy (λ line. line) result (group_line domain.now set.now class.now pools.now group.now) }
{
    let rule = group.rule();
    Ok(GroupLine {
        domain: domain.clone()?,
        set: set.clone()?,
        class: class.clone()?,
        rule,
        destination: name_of_pool(pools, rule.destination)?,
    })
}

fn write_group(
    lines: &mut Vec<GroupLine>,
    pools: &Pools,
    domain: &Name,
    set: &Name,
    class: &Name,
    row: &ManagementClass,
) -> Result<(), Refusal>
    ensures { Writes result lines.old.items lines.new.items (group_lines_of domain.now set.now pools.now (class.now, row.now)) }
{
    match &row.backup {
        None => Ok(()),
        Some(group) => {
            lines.push(group_line(pools, domain, set, class, group)?)?;
            Ok(())
        }
    }
}

fn group_lines(
    alloc: Global,
    pools: &Pools,
    domain: &Name,
    set: &Name,
    row: &PolicySet,
) -> Result<Listed<GroupLine>, Refusal>
    ensures { AnswersBy (λ lines. lines) result (group_lines domain.now set.now pools.now row.now) }
{
    let mut lines = Vec::new(alloc);
    'classes: for (name, class) in row.classes() {
        write_group(&mut lines, pools, domain, set, name, class)?;
    }
    Ok(Listed::from_vec(lines))
}

/// The backup copy groups of a set.
pub(crate) fn groups_of(
    alloc: Global,
    domains: &Domains,
    pools: &Pools,
    domain: &Name,
    set: &Name,
) -> Result<Listed<GroupLine>, Refusal>
    ensures { Answers result (groups_of domain.now set.now domains.now pools.now) }
{
    match set_row(domains, domain, set) {
        Ok(row) => group_lines(alloc, pools, domain, set, row),
        Err(refusal) => Err(refusal),
    }
}

/// How a set's activation would be refused, where it would: `NotFound` where the domain or the set isn't there, else `NoDefaultClass` where the set has
/// no default class. It takes no memory.
#[tactic(auto, using(crate::proofs::Validating::not_refused))]
pub(crate) fn activation_refusal(domains: &Domains, domain: &Name, set: &Name) -> Option<Refusal>
    ensures { result ≡ activation_refusal domain.now set.now domains.now }
{
    match domains.validate(domain, set) {
        Ok(()) => None,
        Err(refusal) => Some(refusal),
    }
}
