//! Whether a pool that goes is of no use, and a volume that is defined fits its pool.

ghost use Rattle.std.specs.Prelude.{◌≡◌, not, true};
ghost use Rattle.std.specs.Option.{option_map_or};
ghost use Rattle.inventory_rows.specs.pool_rows.PoolRows.{is_sequential, pool_named};
ghost use Rattle.std.specs.List.{list_all};
ghost use Rattle.inventory_rows.specs.Search.{holds_copy};
ghost use Rattle.inventory_rows.specs.State.{inv_of};
ghost use Rattle.inventory_rules.specs.Segments.{scratch_fits};
ghost use Rattle.inventory_rules.specs.Stores.{capacity_fits, volume_fits, store_fits};

use entries::change_items::ScratchVolume;
use inventory_rows::pool_rows::Pools;
use inventory_rows::pool_tables::is_scratch_name;
use inventory_rows::{Tables, is_primary};
use inventory_rules::{is_format_size, may_have};
use kinds::{Access, Capacity, Name, PoolChange, Verb};

/// Whether a volume of a pool may have so many bytes: those of its class, or on random access whole MiB.
fn capacity_fits(class: Option<Capacity>, capacity: Capacity) -> bool
    ensures { result ≡ capacity_fits class capacity }
{
    match class {
        Some(class) => capacity.bytes() == class.bytes(),
        None => is_format_size(capacity.bytes()),
    }
}

fn volume_fits(
    tables: &Tables,
    name: &Name,
    number: u32,
    capacity: Capacity,
    access: Access,
) -> bool
    ensures { result ≡ volume_fits name.now number capacity access (inv_of tables.now) }
{
    !is_scratch_name(name)
        && capacity_fits(tables.pools.pool_capacity(number), capacity)
        && may_have(access, is_primary(tables, number))
}

/// Whether a pool that goes holds no copy.
fn pool_goes(tables: &Tables, name: &Name) -> bool
    ensures { result ≡ option_map_or (λ n. not (holds_copy n (inv_of tables.now))) (pool_named name.now (inv_of tables.now).stores) true }
{
    match tables.pools.pool_named(name) {
        Some(number) => !tables.objects.holds_copy(number),
        None => true,
    }
}

/// Whether a change of device classes, storage pools and volumes fits: a pool that goes holds no copy, and a volume that is defined has a
/// name, a capacity and an access that its pool's volumes may have. It takes no memory.
pub(crate) fn store_fits(tables: &Tables, change: &PoolChange) -> bool
    ensures { result ≡ store_fits change.now (inv_of tables.now) }
{
    match change {
        PoolChange::DevClass { .. } => true,
        PoolChange::Pool { verb, pool, .. } => match verb {
            Verb::Define | Verb::Update => true,
            Verb::Delete => pool_goes(tables, pool),
        },
        PoolChange::Volume {
            verb,
            volume,
            pool,
            capacity,
            access,
            ..
        } => match verb {
            Verb::Define => volume_fits(tables, volume, *pool, *capacity, *access),
            Verb::Update | Verb::Delete => true,
        },
    }
}

fn are_sequential(pools: &Pools, scratch: &[ScratchVolume]) -> bool
    ensures { result ≡ list_all (λ s. is_sequential s.pool pools.now) scratch.now }
{
    scratch
        .iter()
        .all(|volume| pools.is_sequential(volume.pool))
}

/// Whether the scratch volumes are made for sequential pools.
pub(crate) fn scratch_fits(tables: &Tables, scratch: &[ScratchVolume]) -> bool
    ensures { result ≡ scratch_fits (inv_of tables.now) scratch.now }
{
    are_sequential(&tables.pools, scratch)
}
