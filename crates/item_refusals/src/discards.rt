//! Why versions don't go with their copies.

ghost use Rattle.std.specs.Prelude.{◌≡◌};
ghost use Rattle.kinds.specs.Refusals.{foremost};
ghost use Rattle.inventory_rules.specs.inventory_rows.Search.{lies_on, filespace_of};
ghost use Rattle.inventory_rules.specs.inventory_rows.State.{inv_of};
ghost use Rattle.inventory_rules.specs.Versions.{all_lie_on, primary_lies_on, in_use, is_in, discard_reason_refused, discarded_refused, discard_refused};

use crate::causes::{gone_or_unknown, once};
use crate::past::Past;
use inventory_rules::change_items::{DiscardReason, DiscardedVersion};
use inventory_rules::inventory_rows::version_groups::{CopyRow, Version};
use inventory_rules::inventory_rows::{Tables, is_primary};
use kinds::{By, Digest, Refusal, bad_value, sooner_of, unless};

/// Whether one of the copy's segments lies on the volume.
pub(crate) fn lies_on(file: u32, copy: &CopyRow) -> bool
    ensures { result ≡ lies_on file copy.now }
{
    copy.segments
        .as_slice()
        .iter()
        .any(|segment| segment.file == file)
}

/// Whether each copy of the version has a segment on the volume.
fn all_lie_on(file: u32, version: &Version) -> bool
    ensures { result ≡ all_lie_on file version.now }
{
    version
        .copies
        .as_slice()
        .iter()
        .all(|copy| lies_on(file, copy))
}

/// Whether the version's copy in a primary pool has a segment on the volume.
fn primary_lies_on(tables: &Tables, file: u32, version: &Version) -> bool
    ensures { result ≡ primary_lies_on file version.now (inv_of tables.now) }
{
    version.copies.as_slice().iter().any(|copy| is_primary(tables, copy.pool)
        && lies_on(file, copy))
}

fn is_number(filespace: u32, found: Option<u32>) -> bool
    ensures { result ≡ is_in filespace found }
{
    match found {
        None => false,
        Some(number) => number == filespace,
    }
}

/// Whether the object is kept in the filespace.
fn is_in(tables: &Tables, filespace: u32, object: u64) -> bool
    ensures { result ≡ is_in filespace (filespace_of object (inv_of tables.now)) }
{
    is_number(filespace, tables.objects.filespace_of(object))
}

pub(crate) fn in_use(object: u64) -> Refusal
    ensures { result ≡ in_use object }
{
    Refusal::InUse(By::Object(object))
}

/// The reason for which a version is to go doesn't hold.
#[tactic(auto, using(crate::proofs::Foremost::foremost_append))]
fn reason_refusal(
    tables: &Tables,
    reason: DiscardReason,
    object: u64,
    found: Digest,
    version: &Version,
) -> Option<Refusal>
    ensures { result ≡ foremost (discard_reason_refused reason object found version.now (inv_of tables.now)) }
{
    match reason {
        DiscardReason::Audit { file } => {
            let same = version.digest.0.as_slice() == found.0.as_slice();
            let lie = unless(all_lie_on(file, version), in_use(object));
            sooner_of(lie, unless(!same, bad_value()))
        }
        DiscardReason::Volume { file } => {
            let lie = primary_lies_on(tables, file, version) || all_lie_on(file, version);
            unless(lie, in_use(object))
        }
        DiscardReason::Filespace { filespace } => {
            unless(is_in(tables, filespace, object), Refusal::NotFound)
        }
    }
}

fn discarded_refusal<J: Past>(
    past: &J,
    tables: &Tables,
    reason: DiscardReason,
    item: &DiscardedVersion,
) -> Option<Refusal>
    ensures { result ≡ foremost (discarded_refused (J.journal past.now) reason (inv_of tables.now) item.now) }
{
    match tables.objects.find(item.object) {
        None => Some(gone_or_unknown(past.removed(item.object))),
        Some(version) => reason_refusal(tables, reason, item.object, item.found, version),
    }
}

/// Why versions don't go with their copies: an object that is named twice is `BadValue`; one without a version is `Gone` or `NotFound`. After
/// an audit, a copy without a segment on the volume is `InUse` and a digest that is the kept one is `BadValue`; with a volume that is deleted, a
/// version of which neither the primary copy nor each copy has a segment on it is `InUse`; with a filespace, one that stands in another is
/// `NotFound`. It takes no memory.
pub fn discard_refused<J: Past>(
    past: &J,
    tables: &Tables,
    reason: DiscardReason,
    items: &[DiscardedVersion],
) -> Option<Refusal>
    ensures { result ≡ foremost (discard_refused (J.journal past.now) reason items.now (inv_of tables.now)) }
{
    let mut found = once(items);
    'items: for item in items {
        found = sooner_of(found, discarded_refusal(past, tables, reason, item));
    }
    found
}
