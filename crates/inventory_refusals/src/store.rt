//! Why a change of device classes, storage pools and volumes is refused.

ghost use Rattle.std.specs.Prelude.{◌≡◌, ℕ};
ghost use Rattle.std.specs.Option.{option_copied};
ghost use Rattle.kinds.specs.Refusals.{foremost};
ghost use Rattle.inventory_rows.specs.State.{inv_of};
ghost use Rattle.inventory_rules.specs.Stores.{collocation_refused, is_same_kind, stays, pool_by_name, destination_used, access_refused, pool_of_volume, store_bounds, store_refused};

use crate::rules::is_destination;
use inventory_rows::pool_tables::Pool;
use inventory_rows::{Tables, is_primary_kind};
use inventory_rules::may_have;
use item_refusals::{file_bound, file_refusal, full_at};
use kinds::{
    Access, By, Name, PoolChange, PoolKind, PoolRule, Refusal, Verb, bad_value, sooner_of, unless,
};

fn is_same_kind(a: PoolKind, b: PoolKind) -> bool
    ensures { result ≡ is_same_kind a b }
{
    if is_primary_kind(a) {
        is_primary_kind(b)
    } else {
        !is_primary_kind(b)
    }
}

/// Whether a pool that is there has this class and kind.
fn stays(class: &Name, kind: PoolKind, pool: Option<&Pool>) -> bool
    ensures { result ≡ stays class.now kind (option_copied pool.entry) }
{
    match pool {
        None => true,
        Some(pool) => pool.class == *class && is_same_kind(pool.kind, kind),
    }
}

fn pool_by_name<'a>(tables: &'a Tables, name: &Name) -> Option<&'a Pool>
    ensures { option_copied result ≡ pool_by_name name.now (inv_of tables.now) }
{
    match tables.pools.pool_named(name) {
        None => None,
        Some(number) => tables.pools.pools().get(&number),
    }
}

/// A pool that is deleted is the destination of a copy group.
fn destination_use(tables: &Tables, name: &Name) -> Option<Refusal>
    ensures { result ≡ foremost (destination_used name.now (inv_of tables.now)) }
{
    match tables.pools.pool_named(name) {
        None => None,
        Some(number) => unless(
            !is_destination(tables, number),
            Refusal::InUse(By::Destination),
        ),
    }
}

fn pool_of_volume<'a>(tables: &'a Tables, name: &Name) -> Option<&'a Pool>
    ensures { option_copied result ≡ pool_of_volume name.now (inv_of tables.now) }
{
    match tables.pools.volume_named(name) {
        None => None,
        Some(file) => match tables.pools.volumes().get(&file) {
            None => None,
            Some(volume) => tables.pools.pools().get(&volume.pool),
        },
    }
}

fn access_refusal(access: Access, pool: Option<&Pool>) -> Option<Refusal>
    ensures { result ≡ foremost (access_refused access (option_copied pool.entry)) }
{
    match pool {
        None => None,
        Some(pool) => unless(may_have(access, is_primary_kind(pool.kind)), bad_value()),
    }
}

/// A client's objects would be kept together in a pool of the class DISK.
fn collocation_refusal(class: &Name, rule: PoolRule) -> Option<Refusal>
    ensures { result ≡ foremost (collocation_refused class.now rule) }
{
    unless(
        !(rule.collocate && class.as_bytes() == b"DISK".as_slice()),
        bad_value(),
    )
}

#[tactic(auto, using(item_refusals::proofs::Foremost::foremost_append))]
fn pool_bounds(
    tables: &Tables,
    verb: Verb,
    name: &Name,
    class: &Name,
    kind: PoolKind,
    rule: PoolRule,
) -> Option<Refusal>
    ensures { result ≡ foremost (store_bounds (PoolChange.Pool verb name.now class.now kind rule) (inv_of tables.now)) }
{
    match verb {
        Verb::Define => {
            sooner_of(
                collocation_refusal(class, rule),
                full_at(tables.next_pool, 1 << 16),
            )
        }
        Verb::Update => {
            let same = stays(class, kind, pool_by_name(tables, name));
            sooner_of(unless(same, bad_value()), collocation_refusal(class, rule))
        }
        Verb::Delete => destination_use(tables, name),
    }
}

#[tactic(auto, using(item_refusals::proofs::Foremost::foremost_append))]
fn volume_bounds(
    tables: &Tables,
    verb: Verb,
    name: &Name,
    file: u32,
    access: Access,
) -> Option<Refusal>
    ensures { (pool capacity : ℕ) → result ≡ foremost (store_bounds (PoolChange.Volume verb name.now pool file capacity access) (inv_of tables.now)) }
{
    match verb {
        Verb::Define => sooner_of(file_refusal(tables, file), file_bound(tables, file)),
        Verb::Update => access_refusal(access, pool_of_volume(tables, name)),
        Verb::Delete => None,
    }
}

/// What the rows alone don't say: numbers that are drawn, a pool's class and kind, its use as a destination, and a volume's access.
fn bounds_refusal(tables: &Tables, change: &PoolChange) -> Option<Refusal>
    ensures { result ≡ foremost (store_bounds change.now (inv_of tables.now)) }
{
    match change {
        PoolChange::DevClass { .. } => None,
        PoolChange::Pool {
            verb,
            pool,
            class,
            kind,
            settings,
        } => pool_bounds(tables, *verb, pool, class, *kind, settings.rule()),
        PoolChange::Volume {
            verb,
            volume,
            file,
            access,
            ..
        } => volume_bounds(tables, *verb, volume, *file, *access),
    }
}

/// Why the database refuses a change of device classes, storage pools and volumes: a pool that would get another class or kind, an access that
/// a volume of its pool may not have, or a file number below 4 or in use is `BadValue`; what is named and not there is `NotFound`; a name that
/// is taken is `Exists`; what is deleted while it is used is `InUse` by a pool, a volume, an object or a destination; pools that would form no
/// hierarchies are `BadHierarchy`; and a next number that would reach its bound is `InventoryFull`. It takes no memory.
#[tactic(auto, using(item_refusals::proofs::Foremost::foremost_append, crate::proofs::Changes::foremost_of_change))]
pub fn store_refused(tables: &Tables, change: &PoolChange) -> Option<Refusal>
    ensures { result ≡ foremost (store_refused change.now (inv_of tables.now)) }
{
    let rows = tables.pools.refusal(change, tables.next_pool);
    let bounds = bounds_refusal(tables, change);
    sooner_of(rows, bounds)
}
