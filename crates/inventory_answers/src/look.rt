// What a name or a number leads to.
ghost use Rattle.std.specs.Prelude.{◌≡◌, ◌+◌, ◌*◌};
ghost use Rattle.std.specs.Option.{option_copied};
ghost use Rattle.kinds.specs.Answers.{AnswersBy};
ghost use Rattle.inventory_work.specs.inventory_rows.policy_domains.Rows.{active_set, row_of};
ghost use Rattle.inventory_work.specs.inventory_rows.policy_domains.Seen.{seen};
ghost use Rattle.inventory_answers.specs.Look.{set_row, name_of_pool, next_name, name_of_node, node_asked, pool_asked, volume_asked, is_asked};

use inventory_work::inventory_rows::object_rows::Objects;
use inventory_work::inventory_rows::policy_domains::{Domains, PolicyDomain, PolicySet};
use inventory_work::inventory_rows::pool_rows::Pools;
use kinds::{Name, NodeName, Refusal};
use std::alloc::Global;

/// The name of the policy set that binds clients.
pub(crate) fn active_name(alloc: Global) -> Result<Name, Refusal>
    ensures { AnswersBy (λ name. name) result active_set }
{
    Name::read(alloc, b"ACTIVE", 30)
}

/// The domain with this name.
pub(crate) fn domain_row<'a>(domains: &'a Domains, domain: &Name) -> Option<&'a PolicyDomain>
    ensures { option_copied result ≡ row_of domain.now domains.now }
{
    domains.rows().get(domain)
}

fn set_in<'a>(row: &'a PolicyDomain, set: &Name) -> Option<&'a PolicySet>
    ensures { option_copied result ≡ row_of set.now row.now.sets }
{
    row.sets().get(set)
}

/// The set with this name of a domain.
pub(crate) fn set_row<'a>(
    domains: &'a Domains,
    domain: &Name,
    set: &Name,
) -> Result<&'a PolicySet, Refusal>
    ensures { seen result ≡ set_row domain.now set.now domains.now }
{
    match domain_row(domains, domain) {
        None => Err(Refusal::NotFound),
        Some(row) => match set_in(row, set) {
            None => Err(Refusal::NotFound),
            Some(set) => Ok(set),
        },
    }
}

/// The name of the pool with this number.
pub(crate) fn name_of_pool(pools: &Pools, pool: u32) -> Result<Option<Name>, Refusal>
    ensures { AnswersBy (λ name. name) result (name_of_pool pool pools.now) }
{
    match pools.pools().get(&pool) {
        Some(row) => Ok(Some(row.name.clone()?)),
        None => Ok(None),
    }
}

/// The name of the next pool.
pub(crate) fn next_name(pools: &Pools, next: Option<u32>) -> Result<Option<Name>, Refusal>
    ensures { AnswersBy (λ name. name) result (next_name next pools.now) }
{
    match next {
        Some(next) => name_of_pool(pools, next),
        None => Ok(None),
    }
}

/// The name of the node with this number.
pub(crate) fn name_of_node(objects: &Objects, node: u32) -> Result<Option<NodeName>, Refusal>
    ensures { AnswersBy (λ name. name) result (name_of_node node objects.now) }
{
    match objects.nodes().get(&node) {
        Some(row) => Ok(Some(row.name.clone()?)),
        None => Ok(None),
    }
}

/// The number of the node that is asked for, where one is.
pub(crate) fn node_asked(objects: &Objects, node: &Option<NodeName>) -> Result<Option<u32>, Refusal>
    ensures { result ≡ node_asked node.now objects.now }
{
    match node {
        None => Ok(None),
        Some(name) => match objects.node_named(name) {
            None => Err(Refusal::NotFound),
            Some(number) => Ok(Some(number)),
        },
    }
}

/// The number of the pool that is asked for, where one is.
pub(crate) fn pool_asked(pools: &Pools, pool: &Option<Name>) -> Result<Option<u32>, Refusal>
    ensures { result ≡ pool_asked pool.now pools.now }
{
    match pool {
        None => Ok(None),
        Some(name) => match pools.pool_named(name) {
            None => Err(Refusal::NotFound),
            Some(number) => Ok(Some(number)),
        },
    }
}

/// The file number of the volume that is asked for, where one is.
pub(crate) fn volume_asked(pools: &Pools, volume: &Option<Name>) -> Result<Option<u32>, Refusal>
    ensures { result ≡ volume_asked volume.now pools.now }
{
    match volume {
        None => Ok(None),
        Some(name) => match pools.volume_named(name) {
            None => Err(Refusal::NotFound),
            Some(file) => Ok(Some(file)),
        },
    }
}

/// Whether it is the number that is asked for, where one is.
pub(crate) fn is_asked(asked: Option<u32>, number: u32) -> bool
    ensures { result ≡ is_asked asked number }
{
    match asked {
        None => true,
        Some(n) => number == n,
    }
}

/// The sum of two numbers; one of 2^64 or more, which no memory holds so many of, is want of memory.
pub(crate) fn plus(a: u64, b: u64) -> Result<u64, Refusal>
    ensures { AnswersBy (λ n. n) result (a + b) }
{
    match a.checked_add(b) {
        Some(sum) => Ok(sum),
        None => Err(Refusal::Memory),
    }
}

/// The product of two numbers; one of 2^64 or more is want of memory.
pub(crate) fn times(a: u64, b: u64) -> Result<u64, Refusal>
    ensures { AnswersBy (λ n. n) result (a * b) }
{
    match a.checked_mul(b) {
        Some(product) => Ok(product),
        None => Err(Refusal::Memory),
    }
}
