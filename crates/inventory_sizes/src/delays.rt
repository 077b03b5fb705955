//! The delays that a database backup keeps which begins now.

ghost use Rattle.std.specs.Prelude.{◌≡◌, ◌&&◌, length};
ghost use Rattle.inventory_rows.specs.object_rows.Items.{left};
ghost use Rattle.inventory_rows.specs.Search.{holds_copy};
ghost use Rattle.inventory_rows.specs.State.{inv_of};
ghost use Rattle.inventory_rules.specs.Backups.{delays_now};
ghost use Rattle.inventory_rows.specs.pool_rows.PoolRows.{is_sequential};

use crate::room::left_by_one;
use inventory_rows::Tables;

/// Whether a backup that begins now keeps the pool's delay: the pool is sequential, and a copy lies in it.
fn has_delay(tables: &Tables, pool: u32) -> bool
    ensures { result ≡ (is_sequential pool (inv_of tables.now).stores && holds_copy pool (inv_of tables.now)) }
{
    tables.pools.is_sequential(pool) && tables.objects.holds_copy(pool)
}

/// The delays of all pools. It walks the pools.
pub(crate) fn left_by_delays(tables: &Tables, room: u128) -> Option<u128>
    ensures { result ≡ left (length (delays_now (inv_of tables.now))) room }
{
    let mut rest = room;
    'pools: for (number, _) in tables.pools.pools().iter() {
        match left_by_one(has_delay(tables, *number), rest) {
            Some(less) => rest = less,
            None => return None,
        }
    }
    Some(rest)
}
