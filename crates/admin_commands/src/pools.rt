// Commands of device classes and storage pools.
ghost use Rattle.std.specs.Prelude.{◌≡◌};
ghost use Rattle.kinds.specs.Answers.{Answers, AnswersBy};
ghost use Rattle.inventory_answers.specs.declared.query.Query.TheVariants as query;
ghost use Rattle.admin_commands.specs.Orders.{define_needs, update_needs, pool_needs, pool_work, show, run_found};
ghost use Rattle.admin_commands.specs.Stores.{delete_dev_class, pool_changed, new_settings, is_disk, is_definition, other_settings, is_ordered, next_for, define_pool, update_settings, collocates_disk, update_found, update_pool, delete_pool, migrate, reclaim, back_up_pool};

use crate::changes::dev_class;
use crate::found::{behind, device_found, next_among, next_found, number_found, the_pool};
use crate::looks;
use crate::looks::{one, pool, pool_if, pool_row, two, with_pools_if};
use crate::work::{Work, run, run_one, run_two};
use admin_words::command::PoolCommand;
use admin_words::pools::{Migration, PoolDefinition, PoolQuery, PoolUpdate, Reclamation};
use entries::Change;
use inventory_answers::{Answer, PoolLine, Query};
use kinds::{
    DefineOrDelete, Name, PoolChange, PoolKind, PoolRule, PoolSettings, Refusal, Verb, bad_value,
};
use std::alloc::Global;

fn new_settings(it: &PoolDefinition, next: Option<u32>) -> PoolRule
    ensures { result ≡ new_settings it.now next }
{
    PoolRule {
        max_size: it.max_size,
        next,
        high: it.high,
        low: it.low,
        reclaim: it.reclaim,
        reuse_delay: it.reuse_delay,
        max_scratch: it.max_scratch,
        collocate: it.collocate,
    }
}

/// Whether the volumes of this device class are of random access: it is DISK.
fn is_disk(class: &Name) -> bool
    ensures { result ≡ is_disk class.now }
{
    class.as_bytes() == b"DISK".as_slice()
}

/// Whether the values of a definition go together, whatever its other names lead to.
fn is_definition(it: &PoolDefinition) -> bool
    ensures { result ≡ is_definition it.now }
{
    PoolSettings::new(new_settings(it, None)).is_some() && !(it.collocate && is_disk(&it.class))
}

fn other_settings(it: &PoolUpdate, old: &PoolRule, next: Option<u32>) -> PoolRule
    ensures { result ≡ other_settings it.now old.now next }
{
    PoolRule {
        max_size: it.max_size.unwrap_or(old.max_size),
        next,
        high: it.high.unwrap_or(old.high),
        low: it.low.unwrap_or(old.low),
        reclaim: it.reclaim.unwrap_or(old.reclaim),
        reuse_delay: it.reuse_delay.unwrap_or(old.reuse_delay),
        max_scratch: it.max_scratch.unwrap_or(old.max_scratch),
        collocate: it.collocate.unwrap_or(old.collocate),
    }
}

/// Whether LOWMIG is at most HIGHMIG, where both are given.
fn is_ordered(low: Option<u8>, high: Option<u8>) -> bool
    ensures { result ≡ is_ordered low high }
{
    match (low, high) {
        (Some(low), Some(high)) => low <= high,
        (Some(_), None) => true,
        (None, _) => true,
    }
}

fn define_needs(alloc: Global, it: &PoolDefinition) -> Result<Vec<Query>, Refusal>
    ensures { AnswersBy (λ v. v.items) result (define_needs it.now) }
{
    if is_definition(it) {
        pool_if(alloc, &it.next)
    } else {
        Ok(Vec::new(alloc))
    }
}

fn update_needs(alloc: Global, it: &PoolUpdate) -> Result<Vec<Query>, Refusal>
    ensures { AnswersBy (λ v. v.items) result (update_needs it.now) }
{
    if is_ordered(it.low, it.high) {
        with_pools_if(alloc, pool_row(&it.pool)?, &it.next)
    } else {
        Ok(Vec::new(alloc))
    }
}

pub(crate) fn pool_needs(alloc: Global, command: &PoolCommand) -> Result<Vec<Query>, Refusal>
    ensures { AnswersBy (λ v. v.items) result (pool_needs command.now) }
{
    match command {
        PoolCommand::BackupPool(it) => two(alloc, pool(&it.primary)?, pool(&it.copy)?),
        PoolCommand::DefineDevClass(_) => Ok(Vec::new(alloc)),
        PoolCommand::DefinePool(it) => define_needs(alloc, it),
        PoolCommand::DeleteDevClass(it) => one(alloc, looks::dev_class(&it.class)?),
        PoolCommand::DeletePool(it) => one(alloc, pool_row(&it.pool)?),
        PoolCommand::MigrateAll => Ok(Vec::new(alloc)),
        PoolCommand::MigratePool(it) => one(alloc, pool_row(&it.pool)?),
        PoolCommand::QueryDevClass => Ok(Vec::new(alloc)),
        PoolCommand::QueryPool(_) => Ok(Vec::new(alloc)),
        PoolCommand::ReclaimPool(it) => one(alloc, pool_row(&it.pool)?),
        PoolCommand::RestorePool(it) => one(alloc, pool(&it.pool)?),
        PoolCommand::UpdatePool(it) => update_needs(alloc, it),
    }
}

fn delete_dev_class(class: &Name, answers: &[Answer]) -> Result<Work, Refusal>
    ensures { Answers result (delete_dev_class class.now answers.now) }
{
    match device_found(answers) {
        None => Err(Refusal::NotFound),
        Some(None) => Err(Refusal::NotFound),
        Some(Some(capacity)) => dev_class(DefineOrDelete::Delete, class, capacity),
    }
}

fn pool_changed(
    verb: Verb,
    pool: &Name,
    class: &Name,
    kind: PoolKind,
    rule: PoolRule,
) -> Result<Work, Refusal>
    ensures { Answers result (pool_changed verb pool.now class.now kind rule) }
{
    match PoolSettings::new(rule) {
        None => Err(bad_value()),
        Some(settings) => {
            let pool = pool.clone()?;
            let class = class.clone()?;
            Ok(Work::Commit(Change::Pool(PoolChange::Pool {
                verb,
                pool,
                class,
                kind,
                settings,
            })))
        }
    }
}

fn define_pool(it: &PoolDefinition, answers: &[Answer]) -> Result<Work, Refusal>
    ensures { Answers result (define_pool it.now answers.now) }
{
    if !is_definition(it) {
        return Err(bad_value());
    }
    match next_found(answers, &it.next) {
        None => Err(Refusal::NotFound),
        Some(next) => pool_changed(
            Verb::Define,
            &it.pool,
            &it.class,
            it.kind,
            new_settings(it, next),
        ),
    }
}

fn next_for(
    name: &Option<Option<Name>>,
    old: Option<u32>,
    answers: &[Answer],
) -> Option<Option<u32>>
    ensures { result ≡ next_for name.now old answers.now }
{
    match name {
        None => Some(old),
        Some(name) => next_among(answers, name),
    }
}

/// The pool gets what is given of the update.
fn update_settings(it: &PoolUpdate, old: &PoolLine, answers: &[Answer]) -> Result<Work, Refusal>
    ensures { Answers result (update_settings it.now old.now answers.now) }
{
    match next_for(&it.next, old.settings.next, answers) {
        None => Err(Refusal::NotFound),
        Some(next) => pool_changed(
            Verb::Update,
            &it.pool,
            &old.class,
            old.kind,
            other_settings(it, &old.settings, next),
        ),
    }
}

/// Whether COLLOCATE=NODE is asked for a pool of the device class DISK.
fn collocates_disk(it: &PoolUpdate, old: &PoolLine) -> bool
    ensures { result ≡ collocates_disk it.now old.now }
{
    it.collocate.unwrap_or(false) && is_disk(&old.class)
}

/// The pool that is to be updated is there.
fn update_found(it: &PoolUpdate, old: &PoolLine, answers: &[Answer]) -> Result<Work, Refusal>
    ensures { Answers result (update_found it.now old.now answers.now) }
{
    if collocates_disk(it, old) {
        return Err(bad_value());
    }
    update_settings(it, old, answers)
}

fn update_pool(it: &PoolUpdate, answers: &[Answer]) -> Result<Work, Refusal>
    ensures { Answers result (update_pool it.now answers.now) }
{
    if !is_ordered(it.low, it.high) {
        return Err(bad_value());
    }
    match the_pool(answers) {
        None => Err(Refusal::NotFound),
        Some(old) => update_found(it, old, behind(answers)),
    }
}

fn delete_pool(name: &Name, answers: &[Answer]) -> Result<Work, Refusal>
    ensures { Answers result (delete_pool name.now answers.now) }
{
    match the_pool(answers) {
        None => Err(Refusal::NotFound),
        Some(old) => pool_changed(Verb::Delete, name, &old.class, old.kind, old.settings),
    }
}

fn migrate(alloc: Global, it: &Migration, answers: &[Answer]) -> Result<Work, Refusal>
    ensures { Answers result (migrate it.now answers.now) }
{
    match the_pool(answers) {
        None => Err(Refusal::NotFound),
        Some(line) => {
            if line.settings.next.is_none() {
                return Err(Refusal::BadHierarchy);
            }
            let low = it.low.unwrap_or(line.settings.low);
            run_two(alloc, line.number, low as u32)
        }
    }
}

fn reclaim(alloc: Global, it: &Reclamation, answers: &[Answer]) -> Result<Work, Refusal>
    ensures { Answers result (reclaim it.now answers.now) }
{
    match the_pool(answers) {
        None => Err(Refusal::NotFound),
        Some(line) => {
            let threshold = it.threshold.unwrap_or(line.settings.reclaim);
            run_two(alloc, line.number, threshold as u32)
        }
    }
}

fn back_up_pool(alloc: Global, answers: &[Answer]) -> Result<Work, Refusal>
    ensures { Answers result (back_up_pool answers.now) }
{
    match number_found(answers) {
        None => Err(Refusal::NotFound),
        Some(primary) => match number_found(behind(answers)) {
            None => Err(Refusal::NotFound),
            Some(copy) => run_two(alloc, primary, copy),
        },
    }
}

fn show_pools(it: &PoolQuery) -> Result<Work, Refusal>
    ensures { Answers result (show (query.Pools it.now.pool)) }
{
    match &it.pool {
        None => Ok(Work::Show(Query::Pools { pool: None })),
        Some(pool) => Ok(Work::Show(pool_row(pool)?)),
    }
}

/// Work over the number that the one name leads to.
pub(crate) fn run_found(alloc: Global, answers: &[Answer]) -> Result<Work, Refusal>
    ensures { Answers result (run_found answers.now) }
{
    match number_found(answers) {
        None => Err(Refusal::NotFound),
        Some(number) => run_one(alloc, number),
    }
}

pub(crate) fn pool_work(
    alloc: Global,
    command: &PoolCommand,
    answers: &[Answer],
) -> Result<Work, Refusal>
    ensures { Answers result (pool_work command.now answers.now) }
{
    match command {
        PoolCommand::BackupPool(_) => back_up_pool(alloc, answers),
        PoolCommand::DefineDevClass(it) => {
            dev_class(DefineOrDelete::Define, &it.class, it.capacity)
        }
        PoolCommand::DefinePool(it) => define_pool(it, answers),
        PoolCommand::DeleteDevClass(it) => delete_dev_class(&it.class, answers),
        PoolCommand::DeletePool(it) => delete_pool(&it.pool, answers),
        PoolCommand::MigrateAll => Ok(run(alloc)),
        PoolCommand::MigratePool(it) => migrate(alloc, it, answers),
        PoolCommand::QueryDevClass => Ok(Work::Show(Query::Devices)),
        PoolCommand::QueryPool(it) => show_pools(it),
        PoolCommand::ReclaimPool(it) => reclaim(alloc, it, answers),
        PoolCommand::RestorePool(_) => run_found(alloc, answers),
        PoolCommand::UpdatePool(it) => update_pool(it, answers),
    }
}
