//! Which pools are primary ones.

ghost use Rattle.std.specs.Prelude.{◌≡◌};
ghost use Rattle.inventory_rows.specs.State.{inv_of};
ghost use Rattle.inventory_rows.specs.Search.{is_primary, is_primary_kind};

use crate::tables::Tables;
use kinds::PoolKind;

/// Whether pools of this kind take what clients send.
pub fn is_primary_kind(kind: PoolKind) -> bool
    ensures { result ≡ is_primary_kind kind }
{
    match kind {
        PoolKind::Primary => true,
        PoolKind::Copy => false,
    }
}

/// Whether the pool is there and a primary one.
pub fn is_primary(tables: &Tables, pool: u32) -> bool
    ensures { result ≡ is_primary pool (inv_of tables.now) }
{
    match tables.pools.pools().get(&pool) {
        Some(pool) => is_primary_kind(pool.kind),
        None => false,
    }
}
