//! Why transactions on copies are refused.

ghost use Rattle.std.specs.Prelude.{◌≡◌};
ghost use Rattle.item_refusals.specs.Taken.{taken_refused};
ghost use Rattle.std.specs.Option.{option_copied};
ghost use Rattle.kinds.specs.Refusals.{foremost};
ghost use Rattle.inventory_rules.specs.inventory_rows.State.{inv_of};
ghost use Rattle.inventory_rules.specs.inventory_rows.Search.{copy_in};
ghost use Rattle.inventory_rules.specs.Copies.{placed_by, stale_copy, copy_refused, moved_refused, move_refused, copied_refused, copy_list_refused};

use crate::causes::{gone_or_unknown, once};
use crate::past::Past;
use inventory_rules::change_items::{MovedCopy, NewCopy};
use inventory_rules::inventory_rows::Tables;
use inventory_rules::inventory_rows::version_groups::{CopyRow, Version};
use kinds::{Refusal, sooner_of};

/// The copy of a version in a pool.
pub(crate) fn copy_in<'a>(pool: u32, version: &'a Version) -> Option<&'a CopyRow>
    ensures { option_copied result ≡ copy_in pool version.now }
{
    version
        .copies
        .as_slice()
        .iter()
        .find(|copy| copy.pool == pool)
}

/// Whether the copy is there and was placed by this transaction.
pub(crate) fn placed_by(placed: u64, copy: Option<&CopyRow>) -> bool
    ensures { result ≡ placed_by placed (option_copied copy.entry) }
{
    match copy {
        None => false,
        Some(copy) => copy.placed == placed,
    }
}

/// A copy is not as it was named: this transaction changed it; or the pool holds another one, which that transaction placed; or none.
pub(crate) fn stale_copy(changed: Option<u64>, copy: Option<&CopyRow>) -> Refusal
    ensures { result ≡ stale_copy changed (option_copied copy.entry) }
{
    match (changed, copy) {
        (Some(number), _) => Refusal::Stale(number),
        (None, Some(copy)) => Refusal::Stale(copy.placed),
        (None, None) => Refusal::NotFound,
    }
}

/// The version's copy in the pool isn't the one that this transaction placed.
pub(crate) fn copy_refusal<J: Past>(
    past: &J,
    object: u64,
    pool: u32,
    placed: u64,
    version: &Version,
) -> Option<Refusal>
    ensures { result ≡ foremost (copy_refused (J.journal past.now) object pool placed version.now) }
{
    let copy = copy_in(pool, version);
    if placed_by(placed, copy) {
        None
    } else {
        Some(stale_copy(past.copy_changed(object, pool), copy))
    }
}

fn moved_refusal<J: Past>(past: &J, tables: &Tables, item: &MovedCopy) -> Option<Refusal>
    ensures { result ≡ foremost (moved_refused (J.journal past.now) (inv_of tables.now) item.now) }
{
    match tables.objects.find(item.object) {
        None => Some(gone_or_unknown(past.removed(item.object))),
        Some(version) => copy_refusal(past, item.object, item.from, item.placed, version),
    }
}

/// Why copies don't move: an object that is named twice is `BadValue`; one without a version is `Gone` where the journal tells which
/// transaction removed it, and else `NotFound`; a copy that another transaction placed is `Stale`, by the journal's last transaction that
/// changed it, or else by the one that placed the pool's copy, and `NotFound` where there is neither. It takes no memory.
pub fn move_refused<J: Past>(past: &J, tables: &Tables, items: &[MovedCopy]) -> Option<Refusal>
    ensures { result ≡ foremost (move_refused (J.journal past.now) items.now (inv_of tables.now)) }
{
    let mut found = once(items);
    'items: for item in items {
        found = sooner_of(found, moved_refusal(past, tables, item));
    }
    found
}

/// A copy of the version lies in the pool already.
fn taken_refusal<J: Past>(past: &J, object: u64, pool: u32, version: &Version) -> Option<Refusal>
    ensures { result ≡ foremost (taken_refused (J.journal past.now) object pool version.now) }
{
    let copy = copy_in(pool, version);
    if copy.is_some() {
        Some(stale_copy(past.copy_changed(object, pool), copy))
    } else {
        None
    }
}

fn copied_refusal<J: Past>(past: &J, tables: &Tables, item: &NewCopy) -> Option<Refusal>
    ensures { result ≡ foremost (copied_refused (J.journal past.now) (inv_of tables.now) item.now) }
{
    match tables.objects.find(item.object) {
        None => Some(gone_or_unknown(past.removed(item.object))),
        Some(version) => taken_refusal(past, item.object, item.pool, version),
    }
}

/// Why copies are not made: an object that is named twice is `BadValue`; one without a version is `Gone` or `NotFound`; a pool in which a copy
/// lies already is `Stale`, by the journal's last transaction that changed that copy, or else by the one that placed it. It takes no memory.
pub fn copy_list_refused<J: Past>(past: &J, tables: &Tables, items: &[NewCopy]) -> Option<Refusal>
    ensures { result ≡ foremost (copy_list_refused (J.journal past.now) items.now (inv_of tables.now)) }
{
    let mut found = once(items);
    'items: for item in items {
        found = sooner_of(found, copied_refusal(past, tables, item));
    }
    found
}
