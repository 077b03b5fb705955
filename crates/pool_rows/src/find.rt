//! Searches for the first row that has some property.

ghost use Rattle.std.specs.Prelude.{◌≡◌, ◌==◌};
ghost use Rattle.pool_tables.specs.kinds.Names.{is_same_name};
ghost use Rattle.pool_tables.specs.Rows.{number_where};
ghost use Rattle.pool_rows.specs.Changes.{is_pool};

use pool_tables::Pool;
use pool_tables::kinds::Name;
use pool_tables::volume_rows::Volume;
use std::collections::BTreeMap;

/// The least number of a pool of this device class.
pub fn pool_of_class(pools: &BTreeMap<u32, Pool>, class: &Name) -> Option<u32>
    ensures { result ≡ number_where (λ pool. is_same_name pool.class class.now) pools.now.entries }
{
    'pools: for (number, pool) in pools {
        if pool.class == *class {
            return Some(*number);
        }
    }
    None
}

fn is_pool(next: Option<u32>, pool: u32) -> bool
    ensures { result ≡ is_pool next pool }
{
    match next {
        Some(next) => next == pool,
        None => false,
    }
}

/// The least number of a pool of which this one is the next.
pub fn pool_before(pools: &BTreeMap<u32, Pool>, next: u32) -> Option<u32>
    ensures { result ≡ number_where (λ pool. is_pool pool.settings.next next) pools.now.entries }
{
    'pools: for (number, pool) in pools {
        if is_pool(pool.settings.rule().next, next) {
            return Some(*number);
        }
    }
    None
}

/// The least file number of a volume of this pool.
pub fn volume_of_pool(volumes: &BTreeMap<u32, Volume>, pool: u32) -> Option<u32>
    ensures { result ≡ number_where (λ volume. volume.pool == pool) volumes.now.entries }
{
    'volumes: for (file, volume) in volumes {
        if volume.pool == pool {
            return Some(*file);
        }
    }
    None
}
