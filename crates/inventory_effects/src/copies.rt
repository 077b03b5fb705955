//! Copies that go.

ghost use Rattle.std.specs.Prelude.{◌≡◌};
ghost use Rattle.std.specs.Option.{option_copied};
ghost use Rattle.inventory_rows.specs.State.{inv_of};
ghost use Rattle.inventory_rows.specs.Search.{copy_in};
ghost use Rattle.inventory_rules.specs.Common.{each};
ghost use Rattle.inventory_rules.specs.Copies.{drop_copy, segments_in, version_at};
ghost use Rattle.inventory_rules.specs.Segments.{take_away};

use crate::segments::take;
use entries::change_items::DroppedCopy;
use inventory_rows::Tables;
use inventory_rows::version_groups::{CopyRow, Version};

/// The copy of a version in a pool.
fn copy_in(pool: u32, version: &Version) -> Option<&CopyRow>
    ensures { option_copied result ≡ copy_in pool version.now }
{
    version.copies.as_slice().iter().find(|c| c.pool == pool)
}

/// The segments of an object's copy in a pool go from their volumes.
pub(crate) fn take_copy(tables: &mut Tables, object: u64, pool: u32)
    ensures taken { inv_of tables.new ≡ take_away object (segments_in pool (version_at object (inv_of tables.old))) (inv_of tables.old) }
    ensures objects { tables.new.objects ≡ tables.old.objects }
    ensures number { tables.new.number ≡ tables.old.number }
{
    if let Some(version) = tables.objects.find(object) {
        if let Some(copy) = copy_in(pool, version) {
            take(
                &mut tables.pools,
                object,
                copy.segments.as_slice(),
                tables.today,
            );
        }
    }
}

/// A copy goes.
fn drop_copy(tables: &mut Tables, item: &DroppedCopy)
    ensures { inv_of tables.new ≡ drop_copy item.now (inv_of tables.old) }
{
    take_copy(tables, item.object, item.pool);
    match tables.objects.drop_copy(item.object, item.pool) {
        Ok(()) => {}
        Err(_) => {}
    }
}

/// Some copies go, one after the other; a copy that isn't there is left out. It takes no memory.
pub fn drop_copies(tables: &mut Tables, items: &[DroppedCopy])
    ensures { inv_of tables.new ≡ each drop_copy items.now (inv_of tables.old) }
{
    'items: for item in items {
        drop_copy(tables, item);
    }
}
