// Look-ups, and lists of them.
ghost use Rattle.std.specs.Prelude.{◌≡◌, [], ◌∷◌, Some, None};
ghost use Rattle.kinds.specs.Answers.{AnswersBy};
ghost use Rattle.admin_commands.specs.Orders.{node, dev_class, pool, volume, pool_row, volume_row, if_given, if_next, for_move};
ghost use Rattle.inventory_answers.specs.declared.query.Query.TheVariants as query;

use inventory_answers::Query;
use inventory_work::Named;
use kinds::{Name, NodeName, Refusal};
use std::alloc::Global;

/// One look-up.
pub(crate) fn one(alloc: Global, first: Query) -> Result<Vec<Query>, Refusal>
    ensures { AnswersBy (λ v. v.items) result (first ∷ []) }
{
    let mut queries = Vec::new(alloc);
    queries.push(first)?;
    Ok(queries)
}

/// Two look-ups.
pub(crate) fn two(alloc: Global, first: Query, second: Query) -> Result<Vec<Query>, Refusal>
    ensures { AnswersBy (λ v. v.items) result (first ∷ second ∷ []) }
{
    let mut queries = one(alloc, first)?;
    queries.push(second)?;
    Ok(queries)
}

pub(crate) fn node(name: &NodeName) -> Result<Query, Refusal>
    ensures { AnswersBy (λ q. q) result (node name.now) }
{
    Ok(Query::Lookup {
        named: Named::Node(name.clone()?),
    })
}

pub(crate) fn dev_class(name: &Name) -> Result<Query, Refusal>
    ensures { AnswersBy (λ q. q) result (dev_class name.now) }
{
    Ok(Query::Lookup {
        named: Named::DevClass(name.clone()?),
    })
}

pub(crate) fn pool(name: &Name) -> Result<Query, Refusal>
    ensures { AnswersBy (λ q. q) result (pool name.now) }
{
    Ok(Query::Lookup {
        named: Named::Pool(name.clone()?),
    })
}

pub(crate) fn volume(name: &Name) -> Result<Query, Refusal>
    ensures { AnswersBy (λ q. q) result (volume name.now) }
{
    Ok(Query::Lookup {
        named: Named::Volume(name.clone()?),
    })
}

/// The row of a pool.
pub(crate) fn pool_row(name: &Name) -> Result<Query, Refusal>
    ensures { AnswersBy (λ q. q) result (pool_row name.now) }
{
    Ok(Query::Pools {
        pool: Some(name.clone()?),
    })
}

/// The row of a volume.
pub(crate) fn volume_row(name: &Name) -> Result<Query, Refusal>
    ensures { AnswersBy (λ q. q) result (volume_row name.now) }
{
    Ok(Query::Volumes {
        volume: Some(name.clone()?),
        pool: None,
    })
}

/// The filespaces of a node.
pub(crate) fn filespaces(name: &NodeName) -> Result<Query, Refusal>
    ensures { AnswersBy (λ q. q) result (query.Filespaces (Some name.now)) }
{
    Ok(Query::Filespaces {
        node: Some(name.clone()?),
    })
}

/// The policy sets of a domain.
pub(crate) fn sets(domain: &Name) -> Result<Query, Refusal>
    ensures { AnswersBy (λ q. q) result (query.Sets domain.now) }
{
    Ok(Query::Sets {
        domain: domain.clone()?,
    })
}

/// The management classes of a set.
pub(crate) fn classes(domain: &Name, set: &Name) -> Result<Query, Refusal>
    ensures { AnswersBy (λ q. q) result (query.Classes domain.now set.now) }
{
    Ok(Query::Classes {
        domain: domain.clone()?,
        set: set.clone()?,
    })
}

/// The backup copy groups of a set.
pub(crate) fn groups(domain: &Name, set: &Name) -> Result<Query, Refusal>
    ensures { AnswersBy (λ q. q) result (query.Groups domain.now set.now) }
{
    Ok(Query::Groups {
        domain: domain.clone()?,
        set: set.clone()?,
    })
}

/// A pool's number, where one is named.
pub(crate) fn pool_if(alloc: Global, name: &Option<Name>) -> Result<Vec<Query>, Refusal>
    ensures { AnswersBy (λ v. v.items) result (if_given pool name.now) }
{
    match name {
        None => Ok(Vec::new(alloc)),
        Some(name) => one(alloc, pool(name)?),
    }
}

/// A device class, where one is named.
pub(crate) fn dev_class_if(alloc: Global, name: &Option<Name>) -> Result<Vec<Query>, Refusal>
    ensures { AnswersBy (λ v. v.items) result (if_given dev_class name.now) }
{
    match name {
        None => Ok(Vec::new(alloc)),
        Some(name) => one(alloc, dev_class(name)?),
    }
}

/// This look-up, and a pool's number where one is named.
pub(crate) fn with_pool_if(
    alloc: Global,
    first: Query,
    name: &Option<Name>,
) -> Result<Vec<Query>, Refusal>
    ensures { AnswersBy (λ v. v.items) result (first ∷ if_given pool name.now) }
{
    match name {
        None => one(alloc, first),
        Some(name) => two(alloc, first, pool(name)?),
    }
}

/// This look-up, and the pools where a next one is named.
pub(crate) fn with_pools_if(
    alloc: Global,
    first: Query,
    next: &Option<Option<Name>>,
) -> Result<Vec<Query>, Refusal>
    ensures { AnswersBy (λ v. v.items) result (first ∷ if_next next.now) }
{
    match next {
        None => one(alloc, first),
        Some(None) => one(alloc, first),
        Some(Some(_)) => two(alloc, first, Query::Pools { pool: None }),
    }
}

/// A volume whose data moves; with the pools, where one is named.
pub(crate) fn for_move(alloc: Global, name: &Name, to: &Option<Name>) -> Result<Vec<Query>, Refusal>
    ensures { AnswersBy (λ v. v.items) result (for_move name.now to.now) }
{
    match to {
        None => one(alloc, volume(name)?),
        Some(_) => two(alloc, volume_row(name)?, Query::Pools { pool: None }),
    }
}
