//! Database backups that begin, end or go, and their delays.

ghost use Rattle.std.specs.Prelude.{◌≡◌, ◌+◌, ◌<◌, ◌^◌, Ok, Some, map};
ghost use Rattle.kinds.specs.Answers.{AnswersBy, Becomes};
ghost use Rattle.inventory_rows.specs.State.{inv_of};
ghost use Rattle.inventory_rules.specs.Backups.{backup_ended, begin_backup, delays_now, delete_backup, end_backup};
ghost use Rattle.inventory_rules.specs.Stores.{backups_lowered};
ghost use Rattle.inventory_effects.specs.Delaying.{delay_kept, has_delay};
ghost use Rattle.std.specs.BTreeMap.{is_at};
ghost use Rattle.std.specs.Map.{lookup};
ghost use Rattle.std.specs.Ordering.{nat_cmp};

use crate::rows::draw_file;
use inventory_rows::pool_tables::Pool;
use inventory_rows::{Backup, Delays, Tables};
use kinds::{Days, Refusal};
use std::alloc::Global;
use std::collections::BTreeMap;

/// The delay that each backup has of the pool is lowered to this one, where that is less.
pub(crate) fn lower_delays(backups: &mut BTreeMap<u32, Backup>, pool: u32, delay: Days)
    ensures { backups.new.entries ≡ backups_lowered (Some pool) delay backups.old.entries }
{
    backups.retain(|_, backup| {
        backup.delays.lower(pool, delay);
        true
    });
}

/// Whether a backup that begins now keeps the pool's delay: the pool is sequential, and a copy lies in it.
fn has_delay(tables: &Tables, pool: u32) -> bool
    ensures { result ≡ has_delay (inv_of tables.now) pool }
{
    tables.pools.is_sequential(pool) && tables.objects.holds_copy(pool)
}

/// The delay of a pool is kept, where a backup that begins now keeps it.
fn keep_delay(
    delays: &mut BTreeMap<u32, Days>,
    tables: &Tables,
    number: u32,
    pool: &Pool,
) -> Result<(), Refusal>
    ensures { Becomes result delays.old.entries delays.new.entries (Ok (delay_kept (inv_of tables.now) number pool.now delays.old.entries)) }
{
    if has_delay(tables, number) {
        delays.insert(number, pool.settings.rule().reuse_delay)?;
    }
    Ok(())
}

/// The delays that a backup keeps that begins now.
fn delays_now(alloc: Global, tables: &Tables) -> Result<BTreeMap<u32, Days>, Refusal>
    ensures { AnswersBy (λ delays. delays.entries) result (delays_now (inv_of tables.now)) }
{
    let _len = tables.pools.pools().len();
    let mut delays = BTreeMap::new(alloc);
    'pools: for (number, pool) in tables.pools.pools().iter() {
        keep_delay(&mut delays, tables, *number, pool)?;
    }
    Ok(delays)
}

/// A backup into a file begins. It holds what was before the next transaction, and that transaction itself; where it follows another, by its
/// file, only what came behind that one. Its one refusal is want of memory; then all is as it was. It walks the pools.
pub fn begin_backup(
    alloc: Global,
    tables: &mut Tables,
    file: u32,
    after: Option<u32>,
) -> Result<(), Refusal>
    requires next { file + 1 < 2 ^ 32 }
    requires number { tables.old.number + 1 < 2 ^ 64 }
    ensures { Becomes result (inv_of tables.old) (inv_of tables.new) (Ok (begin_backup file after (inv_of tables.old))) }
{
    let delays = delays_now(alloc, tables)?;
    let backup = Backup {
        taken: tables.today,
        number: tables.number + 1,
        is_done: false,
        after,
        delays: Delays::from_map(delays),
    };
    tables.backups.insert(file, backup)?;
    draw_file(tables, file);
    Ok(())
}

/// The backup of a file is whole.
fn end(backups: &mut BTreeMap<u32, Backup>, file: u32)
    ensures { backups.new.entries ≡ backup_ended file (lookup (is_at (nat_cmp file)) backups.old.entries) backups.old.entries }
{
    if let Some(backup) = backups.get_mut(&file) {
        backup.is_done = true;
    }
}

/// The backup of a file is whole, where it is listed. It takes no memory.
pub fn end_backup(tables: &mut Tables, file: u32)
    ensures { inv_of tables.new ≡ end_backup file (inv_of tables.old) }
{
    end(&mut tables.backups, file);
}

/// The backup of a file is taken off the list. It takes no memory.
pub fn delete_backup(tables: &mut Tables, file: u32)
    ensures { inv_of tables.new ≡ delete_backup file (inv_of tables.old) }
{
    tables.backups.remove(&file);
}
