ghost use Rattle.std.specs.Prelude.{map};
ghost use Rattle.kinds.specs.Answers.{AnswersBy};
ghost use Rattle.command_words.specs.Rows.{given_view};
ghost use Rattle.admin_words.specs.Pools.{named_dev_class, dev_class_definition, pool_definition, pool_update, named_pool, migration, reclamation, pool_backup, pool_query};

use crate::words::{capacity_or_usual, next_pool, read_collocate, read_pool_kind, usual_reclaim};
use command_words::{Given, field, text_at};
use kinds::{Capacity, Days, Name, PoolKind, Refusal, SizeLimit};
use std::alloc::Global;

/// A device class by its name.
#[derive(Debug, Drop)]
pub struct NamedDevClass {
    pub class: Name,
}

/// What the values that were given for the row say.
pub fn read_named_dev_class(
    alloc: Global,
    places: &[Given],
    keys: &[Given],
) -> Result<NamedDevClass, Refusal>
    ensures { AnswersBy (λ x. x) result (named_dev_class (map given_view places.now) (map given_view keys.now)) }
{
    let class = field::name(alloc, text_at(places, 0))?;
    Ok(NamedDevClass { class })
}

/// DEFINE DEVCLASS with DEVTYPE=FILE. MAXCAPACITY is 2 GiB where it is not given.
#[derive(Debug, Drop)]
pub struct DevClassDefinition {
    pub class: Name,
    pub capacity: Capacity,
}

/// What the values that were given for the row say.
pub fn read_dev_class_definition(
    alloc: Global,
    places: &[Given],
    keys: &[Given],
) -> Result<DevClassDefinition, Refusal>
    ensures { AnswersBy (λ x. x) result (dev_class_definition (map given_view places.now) (map given_view keys.now)) }
{
    let class = field::name(alloc, text_at(places, 0))?;
    Ok(DevClassDefinition {
        class,
        capacity: capacity_or_usual(text_at(keys, 1)),
    })
}

/// DEFINE STGPOOL, with the usual values where none are given. An empty NEXTSTGPOOL is none.
#[derive(Debug, Drop)]
pub struct PoolDefinition {
    pub pool: Name,
    pub class: Name,
    pub kind: PoolKind,
    pub max_size: SizeLimit,
    pub next: Option<Name>,
    pub high: u8,
    pub low: u8,
    pub reclaim: u8,
    pub reuse_delay: Days,
    pub max_scratch: u16,
    pub collocate: bool,
}

/// What the values that were given for the row say.
pub fn read_pool_definition(
    alloc: Global,
    places: &[Given],
    keys: &[Given],
) -> Result<PoolDefinition, Refusal>
    ensures { AnswersBy (λ x. x) result (pool_definition (map given_view places.now) (map given_view keys.now)) }
{
    let pool = field::name(alloc, text_at(places, 0))?;
    let class = field::name(alloc, text_at(places, 1))?;
    let next = field::name_if(alloc, text_at(keys, 2))?;
    let kind = read_pool_kind(text_at(keys, 0)).unwrap_or(PoolKind::Primary);
    Ok(PoolDefinition {
        pool,
        class,
        kind,
        max_size: field::size_limit(text_at(keys, 1)).unwrap_or(SizeLimit::NoLimit),
        next,
        high: field::percent(text_at(keys, 3)).unwrap_or(90),
        low: field::percent(text_at(keys, 4)).unwrap_or(70),
        reclaim: field::percent(text_at(keys, 5)).unwrap_or(usual_reclaim(kind)),
        reuse_delay: field::days_or(text_at(keys, 6), 0),
        max_scratch: field::count(text_at(keys, 7)).unwrap_or(0),
        collocate: read_collocate(text_at(keys, 8)).unwrap_or(false),
    })
}

/// UPDATE STGPOOL: what is not given stays. An empty NEXTSTGPOOL takes the next pool away.
#[derive(Debug, Drop)]
pub struct PoolUpdate {
    pub pool: Name,
    pub max_size: Option<SizeLimit>,
    pub next: Option<Option<Name>>,
    pub high: Option<u8>,
    pub low: Option<u8>,
    pub reclaim: Option<u8>,
    pub reuse_delay: Option<Days>,
    pub max_scratch: Option<u16>,
    pub collocate: Option<bool>,
}

/// What the values that were given for the row say.
pub fn read_pool_update(
    alloc: Global,
    places: &[Given],
    keys: &[Given],
) -> Result<PoolUpdate, Refusal>
    ensures { AnswersBy (λ x. x) result (pool_update (map given_view places.now) (map given_view keys.now)) }
{
    let pool = field::name(alloc, text_at(places, 0))?;
    let next = next_pool(alloc, text_at(keys, 1))?;
    Ok(PoolUpdate {
        pool,
        max_size: field::size_limit(text_at(keys, 0)),
        next,
        high: field::percent(text_at(keys, 2)),
        low: field::percent(text_at(keys, 3)),
        reclaim: field::percent(text_at(keys, 4)),
        reuse_delay: field::days(text_at(keys, 5)),
        max_scratch: field::count(text_at(keys, 6)),
        collocate: read_collocate(text_at(keys, 7)),
    })
}

/// A storage pool by its name.
#[derive(Debug, Drop)]
pub struct NamedPool {
    pub pool: Name,
}

/// What the values that were given for the row say.
pub fn read_named_pool(
    alloc: Global,
    places: &[Given],
    keys: &[Given],
) -> Result<NamedPool, Refusal>
    ensures { AnswersBy (λ x. x) result (named_pool (map given_view places.now) (map given_view keys.now)) }
{
    let pool = field::name(alloc, text_at(places, 0))?;
    Ok(NamedPool { pool })
}

/// MIGRATE STGPOOL: down to this percentage, or to the pool's LOWMIG.
#[derive(Debug, Drop)]
pub struct Migration {
    pub pool: Name,
    pub low: Option<u8>,
}

/// What the values that were given for the row say.
pub fn read_migration(alloc: Global, places: &[Given], keys: &[Given]) -> Result<Migration, Refusal>
    ensures { AnswersBy (λ x. x) result (migration (map given_view places.now) (map given_view keys.now)) }
{
    let pool = field::name(alloc, text_at(places, 0))?;
    Ok(Migration {
        pool,
        low: field::percent(text_at(keys, 0)),
    })
}

/// RECLAIM STGPOOL: from this percentage on, or from the pool's RECLAIM.
#[derive(Debug, Drop)]
pub struct Reclamation {
    pub pool: Name,
    pub threshold: Option<u8>,
}

/// What the values that were given for the row say.
pub fn read_reclamation(
    alloc: Global,
    places: &[Given],
    keys: &[Given],
) -> Result<Reclamation, Refusal>
    ensures { AnswersBy (λ x. x) result (reclamation (map given_view places.now) (map given_view keys.now)) }
{
    let pool = field::name(alloc, text_at(places, 0))?;
    Ok(Reclamation {
        pool,
        threshold: field::percent(text_at(keys, 0)),
    })
}

/// BACKUP STGPOOL: from a primary pool to a copy pool.
#[derive(Debug, Drop)]
pub struct PoolBackup {
    pub primary: Name,
    pub copy: Name,
}

/// What the values that were given for the row say.
pub fn read_pool_backup(
    alloc: Global,
    places: &[Given],
    keys: &[Given],
) -> Result<PoolBackup, Refusal>
    ensures { AnswersBy (λ x. x) result (pool_backup (map given_view places.now) (map given_view keys.now)) }
{
    let primary = field::name(alloc, text_at(places, 0))?;
    let copy = field::name(alloc, text_at(places, 1))?;
    Ok(PoolBackup { primary, copy })
}

/// QUERY STGPOOL: one pool, or all.
#[derive(Debug, Drop)]
pub struct PoolQuery {
    pub pool: Option<Name>,
}

/// What the values that were given for the row say.
pub fn read_pool_query(
    alloc: Global,
    places: &[Given],
    keys: &[Given],
) -> Result<PoolQuery, Refusal>
    ensures { AnswersBy (λ x. x) result (pool_query (map given_view places.now) (map given_view keys.now)) }
{
    let pool = field::name_if(alloc, text_at(places, 0))?;
    Ok(PoolQuery { pool })
}
