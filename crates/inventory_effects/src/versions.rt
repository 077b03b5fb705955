//! Versions that become inactive, and objects that go.

ghost use Rattle.std.specs.Prelude.{◌≡◌};
ghost use Rattle.inventory_rows.specs.State.{inv_of};
ghost use Rattle.inventory_rules.specs.Common.{each, CanEach};
ghost use Rattle.inventory_rules.specs.Versions.{discard, expire, mark_gone, take_versions, CanBeGone};

use crate::segments::take_all;
use entries::change_items::{DiscardedVersion, NamedVersion};
use inventory_rows::Tables;

/// The active version of a path becomes inactive today.
fn mark_gone(tables: &mut Tables, filespace: u32, item: &NamedVersion)
    requires { CanBeGone filespace item.now (inv_of tables.old) }
    ensures { inv_of tables.new ≡ mark_gone filespace item.now (inv_of tables.old) }
{
    let today = tables.today;
    match tables
        .objects
        .mark_gone(filespace, &item.path, item.object, today)
    {
        Ok(()) => {}
        Err(_) => {}
    }
}

/// The active versions of some paths become inactive today, one after the other. It takes no memory.
pub fn mark_all_gone(tables: &mut Tables, filespace: u32, items: &[NamedVersion])
    requires { CanEach (CanBeGone filespace) (mark_gone filespace) items.now (inv_of tables.old) }
    ensures { inv_of tables.new ≡ each (mark_gone filespace) items.now (inv_of tables.old) }
{
    'items: for item in items {
        mark_gone(tables, filespace, item);
    }
}

/// The segments of all copies of an object go from their volumes.
fn take_version(tables: &mut Tables, object: u64)
    ensures { inv_of tables.new ≡ take_versions object (inv_of tables.old) }
{
    if let Some(version) = tables.objects.find(object) {
        take_all(
            &mut tables.pools,
            object,
            version.copies.as_slice(),
            tables.today,
        );
    }
}

/// An object that is kept under a path goes, and its copies with it.
fn expire(tables: &mut Tables, filespace: u32, item: &NamedVersion)
    ensures { inv_of tables.new ≡ expire filespace item.now (inv_of tables.old) }
{
    take_version(tables, item.object);
    match tables.objects.remove(filespace, &item.path, item.object) {
        Ok(()) => {}
        Err(_) => {}
    }
}

/// Some objects go from the paths under which they are kept, one after the other; one that isn't there is left out. It takes no memory.
pub fn expire_all(tables: &mut Tables, filespace: u32, items: &[NamedVersion])
    ensures { inv_of tables.new ≡ each (expire filespace) items.now (inv_of tables.old) }
{
    'items: for item in items {
        expire(tables, filespace, item);
    }
}

/// An object goes, wherever it is kept, and its copies with it.
fn discard(tables: &mut Tables, item: &DiscardedVersion)
    ensures { inv_of tables.new ≡ discard item.now (inv_of tables.old) }
{
    take_version(tables, item.object);
    match tables.objects.discard(item.object) {
        Ok(()) => {}
        Err(_) => {}
    }
}

/// Some objects go, one after the other, wherever they are kept; one that isn't there is left out. It takes no memory.
pub fn discard_all(tables: &mut Tables, items: &[DiscardedVersion])
    ensures { inv_of tables.new ≡ each discard items.now (inv_of tables.old) }
{
    'items: for item in items {
        discard(tables, item);
    }
}
