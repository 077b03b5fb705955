// Device classes, storage pools, volumes and database backups.
ghost use Rattle.std.specs.Prelude.{◌≡◌, ◌<◌, Some, None};
ghost use Rattle.kinds.specs.Answers.{Answers, AnswersBy};
ghost use Rattle.inventory_work.specs.inventory_rows.pool_rows.Shares.{percent_of};
ghost use Rattle.inventory_work.specs.Lists.{Writes};
ghost use Rattle.inventory_answers.specs.Stores.{device_line, device_lines, first_within, least_of, pool_line, pool_lines, pools_of, used_on, volume_line, volume_lines_of, volume_lines, volumes_of, backup_line, backup_lines};

use crate::lines::{BackupLine, DeviceLine, PoolLine, VolumeLine};
use crate::look::{is_asked, name_of_pool, next_name, pool_asked, times, volume_asked};
use inventory_work::Listed;
use inventory_work::inventory_rows::Backup;
use inventory_work::inventory_rows::pool_rows::Pools;
use inventory_work::inventory_rows::pool_tables::Pool;
use inventory_work::inventory_rows::volume_rows::Volume;
use kinds::{Capacity, Name, Refusal};
use std::alloc::Global;
use std::collections::BTreeMap;

fn device_line(name: &Name, capacity: Option<Capacity>) -> Result<DeviceLine, Refusal>
    ensures { AnswersBy (λ line. line) result (device_line (name.now, capacity)) }
{
    Ok(DeviceLine {
        name: name.clone()?,
        capacity,
    })
}

/// All device classes.
pub(crate) fn device_lines(alloc: Global, pools: &Pools) -> Result<Listed<DeviceLine>, Refusal>
    ensures { AnswersBy (λ lines. lines) result (device_lines pools.now) }
{
    let mut lines = Vec::new(alloc);
    'classes: for (name, capacity) in pools.classes() {
        lines.push(device_line(name, *capacity)?)?;
    }
    Ok(Listed::from_vec(lines))
}

fn percent_of(pools: &Pools, pool: u32) -> Result<u64, Refusal>
    ensures { AnswersBy (λ n. n) result (percent_of pool pools.now) }
{
    match u64::try_from(pools.percent_of(pool)) {
        Ok(percent) => Ok(percent),
        Err(_) => Err(Refusal::Memory),
    }
}

/// The first of this percentage and the next one that what is used of a pool doesn't exceed.
fn first_within(pools: &Pools, pool: u32, percent: u8) -> Option<u8>
    requires { percent < 255 }
    ensures { result ≡ first_within pool percent pools.now }
{
    if pools.percent_at_most(pool, percent) {
        Some(percent)
    } else if pools.percent_at_most(pool, percent + 1) {
        Some(percent + 1)
    } else {
        None
    }
}

/// The least percentage that what is used of a pool doesn't exceed, where this is the one that is rounded down.
fn least_of(pools: &Pools, pool: u32, percent: u64) -> Option<u8>
    ensures { result ≡ least_of pool percent pools.now }
{
    if percent < 255 {
        first_within(pools, pool, percent as u8)
    } else {
        None
    }
}

fn pool_line(pools: &Pools, number: u32, pool: &Pool) -> Result<PoolLine, Refusal>
    ensures { AnswersBy (λ line. line) result (pool_line pools.now (number, pool.now)) }
{
    let settings = pool.settings.rule();
    let percent = percent_of(pools, number)?;
    Ok(PoolLine {
        number,
        name: pool.name.clone()?,
        kind: pool.kind,
        class: pool.class.clone()?,
        next: next_name(pools, settings.next)?,
        percent,
        least: least_of(pools, number, percent),
        settings,
    })
}

fn all_pools(alloc: Global, pools: &Pools) -> Result<Listed<PoolLine>, Refusal>
    ensures { AnswersBy (λ lines. lines) result (pool_lines None pools.now) }
{
    let mut lines = Vec::new(alloc);
    'pools: for (number, pool) in pools.pools() {
        lines.push(pool_line(pools, *number, pool)?)?;
    }
    Ok(Listed::from_vec(lines))
}

fn one_pool(alloc: Global, pools: &Pools, number: u32) -> Result<Listed<PoolLine>, Refusal>
    ensures { AnswersBy (λ lines. lines) result (pool_lines (Some number) pools.now) }
{
    let mut lines = Vec::new(alloc);
    if let Some(pool) = pools.pools().get(&number) {
        lines.push(pool_line(pools, number, pool)?)?;
    }
    Ok(Listed::from_vec(lines))
}

/// All storage pools, or one.
pub(crate) fn pools_of(
    alloc: Global,
    pools: &Pools,
    pool: &Option<Name>,
) -> Result<Listed<PoolLine>, Refusal>
    ensures { Answers result (pools_of pool.now pools.now) }
{
    match pool_asked(pools, pool) {
        Ok(None) => all_pools(alloc, pools),
        Ok(Some(number)) => one_pool(alloc, pools, number),
        Err(refusal) => Err(refusal),
    }
}

fn used_on(sequential: bool, volume: &Volume) -> Result<u64, Refusal>
    ensures { AnswersBy (λ n. n) result (used_on sequential volume.now) }
{
    if sequential {
        Ok(volume.segments.live_bytes())
    } else {
        times(volume.segments.used_blocks(), 4096)
    }
}

fn volume_line(pools: &Pools, file: u32, volume: &Volume) -> Result<VolumeLine, Refusal>
    ensures { AnswersBy (λ line. line) result (volume_line pools.now (file, volume.now)) }
{
    let sequential = pools.is_sequential(volume.pool);
    Ok(VolumeLine {
        name: volume.name.clone()?,
        file,
        pool: name_of_pool(pools, volume.pool)?,
        status: volume.status(sequential),
        access: volume.access,
        used: used_on(sequential, volume)?,
        capacity: volume.capacity,
        end: volume.end,
    })
}

fn write_volume(
    lines: &mut Vec<VolumeLine>,
    pools: &Pools,
    pool: Option<u32>,
    file: u32,
    volume: &Volume,
) -> Result<(), Refusal>
    ensures { Writes result lines.old.items lines.new.items (volume_lines_of pools.now pool (file, volume.now)) }
{
    if !is_asked(pool, volume.pool) {
        return Ok(());
    }
    lines.push(volume_line(pools, file, volume)?)?;
    Ok(())
}

fn all_volumes(
    alloc: Global,
    pools: &Pools,
    pool: Option<u32>,
) -> Result<Listed<VolumeLine>, Refusal>
    ensures { AnswersBy (λ lines. lines) result (volume_lines None pool pools.now) }
{
    let mut lines = Vec::new(alloc);
    'volumes: for (file, volume) in pools.volumes() {
        write_volume(&mut lines, pools, pool, *file, volume)?;
    }
    Ok(Listed::from_vec(lines))
}

fn one_volume(
    alloc: Global,
    pools: &Pools,
    file: u32,
    pool: Option<u32>,
) -> Result<Listed<VolumeLine>, Refusal>
    ensures { AnswersBy (λ lines. lines) result (volume_lines (Some file) pool pools.now) }
{
    let mut lines = Vec::new(alloc);
    if let Some(volume) = pools.volumes().get(&file) {
        write_volume(&mut lines, pools, pool, file, volume)?;
    }
    Ok(Listed::from_vec(lines))
}

fn volume_lines(
    alloc: Global,
    pools: &Pools,
    file: Option<u32>,
    pool: Option<u32>,
) -> Result<Listed<VolumeLine>, Refusal>
    ensures { AnswersBy (λ lines. lines) result (volume_lines file pool pools.now) }
{
    match file {
        None => all_volumes(alloc, pools, pool),
        Some(file) => one_volume(alloc, pools, file, pool),
    }
}

/// The volumes that have this name and that lie in this pool, where these are given.
pub(crate) fn volumes_of(
    alloc: Global,
    pools: &Pools,
    volume: &Option<Name>,
    pool: &Option<Name>,
) -> Result<Listed<VolumeLine>, Refusal>
    ensures { Answers result (volumes_of volume.now pool.now pools.now) }
{
    match volume_asked(pools, volume) {
        Err(refusal) => Err(refusal),
        Ok(file) => match pool_asked(pools, pool) {
            Err(refusal) => Err(refusal),
            Ok(pool) => volume_lines(alloc, pools, file, pool),
        },
    }
}

fn backup_line(file: u32, backup: &Backup) -> BackupLine
    ensures { result ≡ backup_line (file, backup.now) }
{
    BackupLine {
        file,
        taken: backup.taken,
        number: backup.number,
        done: backup.is_done,
        after: backup.after,
    }
}

/// All database backups that are listed.
pub(crate) fn backup_lines(
    alloc: Global,
    backups: &BTreeMap<u32, Backup>,
) -> Result<Listed<BackupLine>, Refusal>
    ensures { AnswersBy (λ lines. lines) result (backup_lines backups.now.entries) }
{
    let mut lines = Vec::new(alloc);
    'backups: for (file, backup) in backups {
        lines.push(backup_line(*file, backup))?;
    }
    Ok(Listed::from_vec(lines))
}
