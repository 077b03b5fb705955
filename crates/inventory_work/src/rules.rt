// The rules of a node's management classes.
ghost use Rattle.std.specs.Prelude.{◌≡◌};
ghost use Rattle.std.specs.List.{flat_map};
ghost use Rattle.std.specs.Option.{option_copied};
ghost use Rattle.kinds.specs.Answers.{Answers, AnswersBy};
ghost use Rattle.inventory_rows.specs.policy_domains.Rows.{active_set};
ghost use Rattle.inventory_rows.specs.policy_domains.Rules.{archive_of};
ghost use Rattle.inventory_rows.specs.State.{inv_of};
ghost use Rattle.inventory_work.specs.Lists.{Writes};
ghost use Rattle.inventory_work.specs.Rules.{class_rules, rules_of_set, active_in, rules_in, rules_of};

use crate::lines::{ClassRule, Rules};
use crate::listed::Listed;
use inventory_rows::policy_domains::{Domains, PolicySet};
use inventory_rows::{Tables, domain_of_node, rule_of};
use kinds::{ArchiveRule, Name, Refusal};
use std::alloc::Global;

fn active_name(alloc: Global) -> Result<Name, Refusal>
    ensures { AnswersBy (λ name. name) result active_set }
{
    Name::read(alloc, b"ACTIVE", 30)
}

fn active_in<'a>(domains: &'a Domains, domain: &Name, active: &Name) -> Option<&'a PolicySet>
    requires { active.now ≡ active_set }
    ensures { option_copied result ≡ active_in domain.now domains.now }
{
    match domains.rows().get(domain) {
        Some(row) => row.sets().get(active),
        None => None,
    }
}

/// The archive rule of a class of a domain; none where the domain is not there.
fn archive_of(domains: &Domains, domain: &Name, class: &Name) -> Option<ArchiveRule>
    ensures { result ≡ archive_of domains.now domain.now class.now }
{
    if domains.rows().contains_key(domain) {
        domains.archive_of(domain, class)
    } else {
        None
    }
}

fn write_rule(
    lines: &mut Vec<ClassRule>,
    domains: &Domains,
    domain: &Name,
    class: &Name,
) -> Result<(), Refusal>
    ensures { Writes result lines.old.items lines.new.items (class_rules domains.now domain.now class.now) }
{
    match rule_of(domains, domain, class) {
        None => Ok(()),
        Some(rule) => {
            let archive = archive_of(domains, domain, class);
            let class = class.clone()?;
            lines.push(ClassRule {
                class,
                rule,
                archive,
            })?;
            Ok(())
        }
    }
}

fn class_rules(
    alloc: Global,
    domains: &Domains,
    domain: &Name,
    set: &PolicySet,
) -> Result<Listed<ClassRule>, Refusal>
    ensures { AnswersBy (λ lines. lines) result (flat_map (λ c. class_rules domains.now domain.now c.0) set.now.classes) }
{
    let mut lines = Vec::new(alloc);
    'classes: for (class, _) in set.classes() {
        write_rule(&mut lines, domains, domain, class)?;
    }
    Ok(Listed::from_vec(lines))
}

fn rules_of_set(
    alloc: Global,
    domains: &Domains,
    domain: &Name,
    set: &PolicySet,
) -> Result<Rules, Refusal>
    ensures { AnswersBy (λ rules. rules) result (rules_of_set domains.now domain.now set.now) }
{
    let classes = class_rules(alloc, domains, domain, set)?;
    Ok(Rules {
        default_class: set.default_class().cloned()?,
        classes,
    })
}

fn rules_in(alloc: Global, domains: &Domains, domain: &Name) -> Result<Rules, Refusal>
    ensures { AnswersBy (λ rules. rules) result (rules_in domain.now domains.now) }
{
    let active = active_name(alloc)?;
    match active_in(domains, domain, &active) {
        Some(set) => rules_of_set(alloc, domains, domain, set),
        None => Ok(Rules {
            default_class: None,
            classes: Listed::from_vec(Vec::new(alloc)),
        }),
    }
}

/// The classes of the set ACTIVE of a node's domain, each with the rule by which its files are kept, and the default class;
/// no classes where the domain has no such set. `NotFound` where the node is not there; else its one refusal is want of memory.
pub fn rules_of(alloc: Global, tables: &Tables, node: u32) -> Result<Rules, Refusal>
    ensures { Answers result (rules_of node (inv_of tables.now)) }
{
    match domain_of_node(tables, node) {
        Some(domain) => rules_in(alloc, &tables.domains, domain),
        None => Err(Refusal::NotFound),
    }
}
