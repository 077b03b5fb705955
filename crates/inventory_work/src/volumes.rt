// Volumes that may be reclaimed or reused.
ghost use Rattle.std.specs.Prelude.{◌≡◌};
ghost use Rattle.std.specs.Result.{is_ok};
ghost use Rattle.kinds.specs.Answers.{Answers, AnswersBy};
ghost use Rattle.inventory_rows.specs.pool_rows.Segments.{may_reuse_at};
ghost use Rattle.inventory_rows.specs.State.{inv_of};
ghost use Rattle.inventory_work.specs.Lists.{Writes};
ghost use Rattle.inventory_work.specs.Volumes.{is_eligible, eligible_files, eligible_in, eligible, reusable_files, emptied};

use crate::copies::has_pool;
use crate::listed::Listed;
use inventory_rows::Tables;
use inventory_rows::pool_rows::Pools;
use inventory_rows::volume_rows::Volume;
use kinds::{Day, Refusal};
use std::alloc::Global;

fn is_eligible(pools: &Pools, pool: u32, threshold: u8, volume: &Volume) -> bool
    ensures { result ≡ is_eligible pool threshold pools.now volume.now }
{
    volume.pool == pool && volume.is_reclaimable(pools.is_sequential(pool), threshold)
}

fn write_eligible(
    files: &mut Vec<u32>,
    pools: &Pools,
    pool: u32,
    threshold: u8,
    file: u32,
    volume: &Volume,
) -> Result<(), Refusal>
    ensures { Writes result files.old.items files.new.items (eligible_files pool threshold pools.now (file, volume.now)) }
{
    if !is_eligible(pools, pool, threshold, volume) {
        return Ok(());
    }
    files.push(file)?;
    Ok(())
}

fn eligible_in(
    alloc: Global,
    pools: &Pools,
    pool: u32,
    threshold: u8,
) -> Result<Listed<u32>, Refusal>
    ensures { AnswersBy (λ files. files) result (eligible_in pool threshold pools.now) }
{
    let mut files = Vec::new(alloc);
    'volumes: for (file, volume) in pools.volumes() {
        write_eligible(&mut files, pools, pool, threshold, *file, volume)?;
    }
    Ok(Listed::from_vec(files))
}

/// The FULL volumes of a pool of whose capacity at least `threshold` hundredths are used by no copy, by file number.
/// `NotFound` where the pool is not there; else its one refusal is want of memory.
pub fn eligible(
    alloc: Global,
    tables: &Tables,
    pool: u32,
    threshold: u8,
) -> Result<Listed<u32>, Refusal>
    ensures { Answers result (eligible pool threshold (inv_of tables.now)) }
{
    if has_pool(tables, pool) {
        eligible_in(alloc, &tables.pools, pool, threshold)
    } else {
        Err(Refusal::NotFound)
    }
}

fn is_reusable(pools: &Pools, file: u32, today: Day) -> bool
    ensures { result ≡ is_ok (may_reuse_at file today pools.now) }
{
    pools.may_reuse(file, today).is_ok()
}

fn write_reusable(files: &mut Vec<u32>, pools: &Pools, today: Day, file: u32) -> Result<(), Refusal>
    ensures { Writes result files.old.items files.new.items (reusable_files today pools.now file) }
{
    if !is_reusable(pools, file, today) {
        return Ok(());
    }
    files.push(file)?;
    Ok(())
}

/// The volumes that may be reused today, by file number. Its one refusal is want of memory.
pub fn emptied(alloc: Global, tables: &Tables) -> Result<Listed<u32>, Refusal>
    ensures { AnswersBy (λ files. files) result (emptied (inv_of tables.now)) }
{
    let mut files = Vec::new(alloc);
    'volumes: for (file, _) in tables.pools.volumes() {
        write_reusable(&mut files, &tables.pools, tables.today, *file)?;
    }
    Ok(Listed::from_vec(files))
}
