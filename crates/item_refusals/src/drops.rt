//! Why copies don't go while other copies of their objects stay.

ghost use Rattle.std.specs.Prelude.{◌≡◌, ◌++◌, ◌==◌, not};
ghost use Rattle.std.specs.List.{list_any};
ghost use Rattle.std.specs.Option.{option_copied};
ghost use Rattle.kinds.specs.Refusals.{foremost, unless};
ghost use Rattle.kinds.specs.declared.refusal.Refusal.TheVariants.{NotFound};
ghost use Rattle.inventory_rules.specs.inventory_rows.Search.{copy_in};
ghost use Rattle.inventory_rules.specs.inventory_rows.State.{inv_of};
ghost use Rattle.inventory_rules.specs.Copies.{file_of, drop_reason_refused, lies_elsewhere, lies_there, named_drop_refused, version_drop_refused, dropped_refused, drop_refused};
ghost use Rattle.inventory_rules.specs.Versions.{in_use};

use crate::causes::{gone_or_unknown, once};
use crate::copies::{copy_in, placed_by, stale_copy};
use crate::discards::{in_use, lies_on};
use crate::past::Past;
use inventory_rules::change_items::{DropReason, DroppedCopy};
use inventory_rules::inventory_rows::version_groups::{CopyRow, Version};
use inventory_rules::inventory_rows::{Tables, is_primary};
use kinds::{Digest, Refusal, bad_value, sooner_of, unless};

fn file_of(reason: DropReason) -> u32
    ensures { result ≡ file_of reason }
{
    match reason {
        DropReason::Audit { file } => file,
        DropReason::Volume { file } => file,
    }
}

/// The reason for which the copy in this pool is to go doesn't hold.
fn reason_refusal(
    tables: &Tables,
    reason: DropReason,
    pool: u32,
    kept: Digest,
    found: Digest,
) -> Option<Refusal>
    ensures { result ≡ foremost (drop_reason_refused reason pool kept found (inv_of tables.now)) }
{
    match reason {
        DropReason::Audit { .. } => {
            let same = kept.0.as_slice() == found.0.as_slice();
            unless(!same, bad_value())
        }
        DropReason::Volume { .. } => unless(!is_primary(tables, pool), bad_value()),
    }
}

fn lies_there(file: u32, copy: Option<&CopyRow>) -> bool
    ensures { result ≡ lies_there file (option_copied copy.entry) }
{
    match copy {
        None => false,
        Some(copy) => lies_on(file, copy),
    }
}

/// The version's copy in the pool isn't the one that is named, or it has no segment on the volume.
fn named_refusal<J: Past>(
    past: &J,
    reason: DropReason,
    item: &DroppedCopy,
    version: &Version,
) -> Option<Refusal>
    ensures { result ≡ foremost (named_drop_refused (J.journal past.now) reason item.now version.now) }
{
    let copy = copy_in(item.pool, version);
    if placed_by(item.placed, copy) {
        unless(lies_there(file_of(reason), copy), Refusal::NotFound)
    } else {
        Some(stale_copy(past.copy_changed(item.object, item.pool), copy))
    }
}

/// Whether one of the copies lies in another pool.
fn lies_elsewhere(pool: u32, version: &Version) -> bool
    ensures { result ≡ lies_elsewhere pool version.now.copies }
{
    version
        .copies
        .as_slice()
        .iter()
        .any(|copy| copy.pool != pool)
}

/// A copy of this version doesn't go.
#[tactic(auto, using(crate::proofs::Foremost::foremost_append))]
fn version_refusal<J: Past>(
    past: &J,
    tables: &Tables,
    reason: DropReason,
    item: &DroppedCopy,
    version: &Version,
) -> Option<Refusal>
    ensures { result ≡ foremost (version_drop_refused (J.journal past.now) reason (inv_of tables.now) item.now version.now) }
{
    let named = named_refusal(past, reason, item, version);
    let another = unless(lies_elsewhere(item.pool, version), in_use(item.object));
    let held = reason_refusal(tables, reason, item.pool, version.digest, item.found);
    sooner_of(named, sooner_of(another, held))
}

fn dropped_refusal<J: Past>(
    past: &J,
    tables: &Tables,
    reason: DropReason,
    item: &DroppedCopy,
) -> Option<Refusal>
    ensures { result ≡ foremost (dropped_refused (J.journal past.now) reason (inv_of tables.now) item.now) }
{
    match tables.objects.find(item.object) {
        None => Some(gone_or_unknown(past.removed(item.object))),
        Some(version) => version_refusal(past, tables, reason, item, version),
    }
}

/// Why copies don't go while others stay: an object that is named twice is `BadValue`; one without a version is `Gone` or `NotFound`; of a
/// version that is there the least of these that hold: a copy that isn't the one that was named is `Stale`, or `NotFound` where nothing tells
/// of it; the one that was named, without a segment on the reason's volume, is `NotFound`; a version without a copy in another pool is `InUse`;
/// and after an audit a digest that is the kept one, or with a volume that is deleted a primary pool, is `BadValue`. It takes no memory.
pub fn drop_refused<J: Past>(
    past: &J,
    tables: &Tables,
    reason: DropReason,
    items: &[DroppedCopy],
) -> Option<Refusal>
    ensures { result ≡ foremost (drop_refused (J.journal past.now) reason items.now (inv_of tables.now)) }
{
    let mut found = once(items);
    'items: for item in items {
        found = sooner_of(found, dropped_refusal(past, tables, reason, item));
    }
    found
}
