//! What is asked of storage pools and of the days and pools of volumes.

ghost use Rattle.std.specs.Prelude.{◌≡◌, ◌&&◌, is_some, true, nat_le};
ghost use Rattle.std.specs.List.{list_all};
ghost use Rattle.std.specs.Option.{option_map_or};
ghost use Rattle.inventory_rows.specs.pool_tables.Rows.{named};
ghost use Rattle.inventory_rows.specs.pool_rows.Hierarchy.{comes_to};
ghost use Rattle.inventory_rows.specs.State.{inv_of};
ghost use Rattle.inventory_rules.specs.Valid.{next_is_there, no_ring, pools_cite, volumes_cite};

use crate::days::is_none_or_by;
use inventory_rows::Tables;
use inventory_rows::pool_tables::Pool;

fn next_is_there(tables: &Tables, next: Option<u32>) -> bool
    ensures { result ≡ next_is_there next (inv_of tables.now) }
{
    match next {
        None => true,
        Some(next) => tables.pools.pools().contains_key(&next),
    }
}

fn pool_cites(tables: &Tables, pool: &Pool) -> bool
    ensures { result ≡ (is_some (named pool.now.class tables.now.pools.classes) && next_is_there pool.now.settings.next (inv_of tables.now)) }
{
    tables.pools.classes().contains_key(&pool.class)
        && next_is_there(tables, pool.settings.rule().next)
}

/// Whether the device class and the next pool of each pool are there.
pub fn pools_cite(tables: &Tables) -> bool
    ensures { result ≡ pools_cite (inv_of tables.now) }
{
    'pools: for (_, pool) in tables.pools.pools() {
        if !pool_cites(tables, pool) {
            return false;
        }
    }
    true
}

/// Whether the pool of each volume is there.
pub fn volumes_cite(tables: &Tables) -> bool
    ensures { result ≡ volumes_cite (inv_of tables.now) }
{
    'volumes: for (_, volume) in tables.pools.volumes() {
        if !tables.pools.pools().contains_key(&volume.pool) {
            return false;
        }
    }
    true
}

/// Whether no volume was emptied on a day to come.
pub(crate) fn volumes_by_today(tables: &Tables) -> bool
    ensures { result ≡ list_all (λ f. option_map_or (λ day. nat_le day tables.now.today) f.1.emptied true) tables.now.pools.volumes }
{
    'volumes: for (_, volume) in tables.pools.volumes() {
        if !is_none_or_by(volume.emptied, tables.today) {
            return false;
        }
    }
    true
}

/// Whether no chain of next pools comes back to the pool where it began. It takes as many steps as there are pairs of pools.
pub fn no_ring(tables: &Tables) -> bool
    ensures { result ≡ no_ring (inv_of tables.now) }
{
    'pools: for (number, pool) in tables.pools.pools() {
        if tables.pools.comes_to(*number, pool.settings.rule().next) {
            return false;
        }
    }
    true
}
