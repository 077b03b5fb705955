//! Why transactions on versions are refused.

ghost use Rattle.std.specs.Prelude.{◌≡◌};
ghost use Rattle.kinds.specs.Refusals.{foremost};
ghost use Rattle.inventory_rules.specs.inventory_rows.State.{inv_of};
ghost use Rattle.inventory_rules.specs.Versions.{is_under, rebinding_refused, rebind_refused, stale_version, named_gone_refused, gone_refused, expired_refused, expire_refused};

use crate::causes::{gone_or_unknown, once};
use crate::past::Past;
use crate::retained::is_retained;
use inventory_rules::change_items::{NamedVersion, Rebinding};
use inventory_rules::inventory_rows::Tables;
use kinds::{By, Path, Refusal, sooner_of, unless};

fn rebinding_refusal<J: Past>(
    past: &J,
    tables: &Tables,
    filespace: u32,
    item: &Rebinding,
) -> Option<Refusal>
    ensures { result ≡ foremost (rebinding_refused (J.journal past.now) filespace (inv_of tables.now) item.now) }
{
    let there = tables.objects.group(filespace, &item.path).is_some();
    unless(
        there,
        gone_or_unknown(past.path_emptied(filespace, &item.path)),
    )
}

/// Why paths are not bound to other classes: a path that is named twice is `BadValue`, and one without versions is `Gone` where the journal
/// tells which transaction removed its last one, and else `NotFound`. It takes no memory.
pub fn rebind_refused<J: Past>(
    past: &J,
    tables: &Tables,
    filespace: u32,
    items: &[Rebinding],
) -> Option<Refusal>
    ensures { result ≡ foremost (rebind_refused (J.journal past.now) filespace items.now (inv_of tables.now)) }
{
    let mut found = once(items);
    'items: for item in items {
        found = sooner_of(found, rebinding_refusal(past, tables, filespace, item));
    }
    found
}

/// A version is not as it was named: it was removed, or this transaction changed it, or it was never so.
fn stale_version(removed: Option<u64>, changed: Option<u64>) -> Refusal
    ensures { result ≡ stale_version removed changed }
{
    match (removed, changed) {
        (Some(number), _) => Refusal::Gone(number),
        (None, Some(number)) => Refusal::Stale(number),
        (None, None) => Refusal::NotFound,
    }
}

fn named_refusal<J: Past>(
    past: &J,
    tables: &Tables,
    filespace: u32,
    item: &NamedVersion,
) -> Option<Refusal>
    ensures { result ≡ foremost (named_gone_refused (J.journal past.now) filespace (inv_of tables.now) item.now) }
{
    let active = tables.objects.is_active(filespace, &item.path, item.object);
    let stale = stale_version(past.removed(item.object), past.changed(item.object));
    unless(active, stale)
}

/// Why active versions don't become inactive: an object that is named twice is `BadValue`; one that isn't the active version of its path is
/// `Gone` or `Stale` where the journal tells which transaction removed or changed it, and else `NotFound`. It takes no memory.
pub fn gone_refused<J: Past>(
    past: &J,
    tables: &Tables,
    filespace: u32,
    items: &[NamedVersion],
) -> Option<Refusal>
    ensures { result ≡ foremost (gone_refused (J.journal past.now) filespace items.now (inv_of tables.now)) }
{
    let mut found = once(items);
    'items: for item in items {
        found = sooner_of(found, named_refusal(past, tables, filespace, item));
    }
    found
}

/// Whether the object is one of the path's versions, or held under the path.
fn is_under(tables: &Tables, filespace: u32, path: &Path, object: u64) -> bool
    ensures { result ≡ is_under filespace path.now object (inv_of tables.now) }
{
    tables.objects.has_held(filespace, path, object)
        || tables.objects.has_at(filespace, path, object)
}

fn expired_refusal<J: Past>(
    past: &J,
    tables: &Tables,
    filespace: u32,
    item: &NamedVersion,
) -> Option<Refusal>
    ensures { result ≡ foremost (expired_refused (J.journal past.now) filespace (inv_of tables.now) item.now) }
{
    if is_under(tables, filespace, &item.path, item.object) {
        let retained = is_retained(tables, filespace, &item.path, item.object);
        unless(!retained, Refusal::InUse(By::Object(item.object)))
    } else {
        Some(gone_or_unknown(past.removed(item.object)))
    }
}

/// Why objects don't expire: an object that is named twice is `BadValue`; one that is retained today is `InUse`; one that isn't there is
/// `Gone` where the journal tells which transaction removed it, and else `NotFound`. It takes no memory.
pub fn expire_refused<J: Past>(
    past: &J,
    tables: &Tables,
    filespace: u32,
    items: &[NamedVersion],
) -> Option<Refusal>
    ensures { result ≡ foremost (expire_refused (J.journal past.now) filespace items.now (inv_of tables.now)) }
{
    let mut found = once(items);
    'items: for item in items {
        found = sooner_of(found, expired_refusal(past, tables, filespace, item));
    }
    found
}
