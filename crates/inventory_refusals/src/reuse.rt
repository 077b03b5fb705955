//! Why a volume may not be reused.

ghost use Rattle.std.specs.Prelude.{◌≡◌};
ghost use Rattle.std.specs.Result.{result_err};
ghost use Rattle.inventory_rows.specs.pool_rows.Segments.{may_reuse_at};

use inventory_rows::Tables;
use kinds::Refusal;

/// Why the database refuses that a volume is reused today: one that is not there, not sequential or never written on is `NotFound`; one with
/// copies is `InUse` by the least object on it; and one whose pool's REUSEDELAY is not over is `NotYet`. It takes no memory.
pub fn reuse_refused(tables: &Tables, file: u32) -> Option<Refusal>
    ensures { result ≡ result_err (may_reuse_at file tables.now.today tables.now.pools) }
{
    tables.pools.may_reuse(file, tables.today).err()
}
