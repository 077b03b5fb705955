//! Which pools may follow one another.

ghost use Rattle.std.specs.Prelude.{◌≡◌};
ghost use Rattle.pool_tables.specs.Rows.{row_at};
ghost use Rattle.pool_rows.specs.Hierarchy.{next_in, comes_to, is_copy, is_copy_row};

use pool_tables::Pool;
use pool_tables::kinds::PoolKind;
use std::collections::BTreeMap;

pub fn is_copy(kind: PoolKind) -> bool
    ensures { result ≡ is_copy kind }
{
    match kind {
        PoolKind::Primary => false,
        PoolKind::Copy => true,
    }
}

/// Whether the pool is there and a copy pool.
pub fn is_copy_pool(pools: &BTreeMap<u32, Pool>, pool: u32) -> bool
    ensures { result ≡ is_copy_row (row_at pool pools.now.entries) }
{
    match pools.get(&pool) {
        Some(pool) => is_copy(pool.kind),
        None => false,
    }
}

fn next_of(pools: &BTreeMap<u32, Pool>, pool: u32) -> Option<u32>
    ensures { result ≡ next_in (row_at pool pools.now.entries) }
{
    match pools.get(&pool) {
        Some(pool) => pool.settings.rule().next,
        None => None,
    }
}

/// Whether the chain that begins with `next` comes to this pool.
pub fn comes_to(pools: &BTreeMap<u32, Pool>, number: u32, next: Option<u32>) -> bool
    ensures { result ≡ comes_to number next pools.now.entries }
{
    let mut next = next;
    'steps: for _ in 0..pools.len() {
        let Some(pool) = next else {
            return false;
        };
        if pool == number {
            return true;
        }
        next = next_of(pools, pool);
    }
    false
}
