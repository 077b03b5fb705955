// Commands of policy domains and policy sets.
ghost use Rattle.std.specs.Prelude.{◌≡◌};
ghost use Rattle.kinds.specs.Answers.{Answers, AnswersBy};
ghost use Rattle.inventory_answers.specs.declared.query.Query.TheVariants as query;
ghost use Rattle.admin_commands.specs.Orders.{policy_needs, policy_work, delete_domain, run_set, show};

use crate::changes::{activate, domain, set};
use crate::found::{domain_named, set_named};
use crate::looks::{one, sets};
use crate::work::{Work, run};
use admin_words::command::PolicyCommand;
use admin_words::policy::{NamedDomain, NamedSet};
use inventory_answers::{Answer, Query};
use kinds::{DefineOrDelete, Name, Refusal, Verb};
use std::alloc::Global;

pub(crate) fn policy_needs(alloc: Global, command: &PolicyCommand) -> Result<Vec<Query>, Refusal>
    ensures { AnswersBy (λ v. v.items) result (policy_needs command.now) }
{
    match command {
        PolicyCommand::ActivateSet(_) => Ok(Vec::new(alloc)),
        PolicyCommand::DefineDomain(_) => Ok(Vec::new(alloc)),
        PolicyCommand::DefineSet(_) => Ok(Vec::new(alloc)),
        PolicyCommand::DeleteDomain(_) => one(alloc, Query::Domains),
        PolicyCommand::DeleteSet(_) => Ok(Vec::new(alloc)),
        PolicyCommand::QueryDomain => Ok(Vec::new(alloc)),
        PolicyCommand::QuerySet(_) => Ok(Vec::new(alloc)),
        PolicyCommand::UpdateDomain(_) => Ok(Vec::new(alloc)),
        PolicyCommand::ValidateSet(it) => one(alloc, sets(&it.domain)?),
    }
}

fn delete_domain(name: &Name, answers: &[Answer]) -> Result<Work, Refusal>
    ensures { Answers result (delete_domain name.now answers.now) }
{
    match domain_named(answers, name) {
        None => Err(Refusal::NotFound),
        Some(old) => domain(Verb::Delete, name, old.back_retention),
    }
}

/// Work over nothing; the policy set that is named has to be there.
fn run_set(alloc: Global, name: &Name, answers: &[Answer]) -> Result<Work, Refusal>
    ensures { Answers result (run_set name.now answers.now) }
{
    match set_named(answers, name) {
        None => Err(Refusal::NotFound),
        Some(_) => Ok(run(alloc)),
    }
}

fn show_sets(command: &NamedDomain) -> Result<Work, Refusal>
    ensures { Answers result (show (query.Sets command.now.domain)) }
{
    Ok(Work::Show(sets(&command.domain)?))
}

pub(crate) fn policy_work(
    alloc: Global,
    command: &PolicyCommand,
    answers: &[Answer],
) -> Result<Work, Refusal>
    ensures { Answers result (policy_work command.now answers.now) }
{
    match command {
        PolicyCommand::ActivateSet(it) => activate(&it.domain, &it.set),
        PolicyCommand::DefineDomain(it) => domain(Verb::Define, &it.domain, it.back_retention),
        PolicyCommand::DefineSet(it) => set(DefineOrDelete::Define, &it.domain, &it.set),
        PolicyCommand::DeleteDomain(it) => delete_domain(&it.domain, answers),
        PolicyCommand::DeleteSet(it) => set(DefineOrDelete::Delete, &it.domain, &it.set),
        PolicyCommand::QueryDomain => Ok(Work::Show(Query::Domains)),
        PolicyCommand::QuerySet(it) => show_sets(it),
        PolicyCommand::UpdateDomain(it) => domain(Verb::Update, &it.domain, it.back_retention),
        PolicyCommand::ValidateSet(it) => run_set(alloc, &it.set, answers),
    }
}
