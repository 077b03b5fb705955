//! The order of the rows.
ghost use Rattle.inventory_rows.specs.State.{inv_of};
ghost use Rattle.inventory_rows.specs.Ascending.{AreAscending};

use crate::tables::Tables;

/// The rows ascend: filespaces and pools by number, the sets of each domain by name, and the paths of each filespace. This says what the
/// types of the rows keep: it takes no step for any row, and no memory.
pub fn are_ascending(tables: &Tables)
    ensures { AreAscending (inv_of tables.now) }
{
    tables.objects.are_ordered();
    let _pools = tables.pools.pools().len();
    tables.domains.are_ordered();
}
