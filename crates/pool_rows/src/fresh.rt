//! What a new server has.

ghost use Rattle.std.specs.Prelude.{◌≡◌, codes};
ghost use Rattle.pool_tables.specs.kinds.Answers.{AnswersBy};
ghost use Rattle.pool_rows.specs.PoolRows.{backup_pool};

use pool_tables::Pool;
use pool_tables::kinds::{Days, Name, PoolKind, PoolRule, PoolSettings, Refusal, SizeLimit};
use std::alloc::Global;

/// The name of the device class of random access.
pub fn disk(alloc: Global) -> Result<Name, Refusal>
    ensures { AnswersBy (λ name. name) result (codes "DISK") }
{
    Name::read(alloc, b"DISK", 30)
}

fn backup_pool_name(alloc: Global) -> Result<Name, Refusal>
    ensures { AnswersBy (λ name. name) result (codes "BACKUPPOOL") }
{
    Name::read(alloc, b"BACKUPPOOL", 30)
}

/// The defaults of DEFINE STGPOOL for a primary pool.
fn default_settings() -> PoolSettings
    ensures { result ≡ backup_pool.settings }
{
    let Some(reuse_delay) = Days::new(0) else {
        unreachable!()
    };
    let rule = PoolRule {
        max_size: SizeLimit::NoLimit,
        next: None,
        high: 90,
        low: 70,
        reclaim: 60,
        reuse_delay,
        max_scratch: 0,
        collocate: false,
    };
    let Some(settings) = PoolSettings::new(rule) else {
        unreachable!()
    };
    settings
}

/// The pool BACKUPPOOL.
pub fn backup_pool(alloc: Global) -> Result<Pool, Refusal>
    ensures { AnswersBy (λ pool. pool) result backup_pool }
{
    let name = backup_pool_name(alloc)?;
    let class = disk(alloc)?;
    Ok(Pool {
        name,
        class,
        kind: PoolKind::Primary,
        settings: default_settings(),
    })
}
