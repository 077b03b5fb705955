// Which copies may be read.
ghost use Rattle.std.specs.Prelude.{◌≡◌};
ghost use Rattle.std.specs.List.{list_all};
ghost use Rattle.inventory_rows.specs.State.{inv_of};
ghost use Rattle.placing.specs.Placing.{may_be_read, is_readable, can_read};

use inventory_rows::Tables;
use inventory_rows::version_groups::CopyRow;
use kinds::{Access, Segment};

fn may_be_read(access: &Access) -> bool
    ensures { result ≡ may_be_read access.now }
{
    match access {
        Access::ReadWrite | Access::ReadOnly => true,
        Access::Unavailable | Access::Offsite | Access::Destroyed => false,
    }
}

/// Whether the volume with this file number is there and its access READWRITE or READONLY. It takes no memory.
pub fn is_readable(tables: &Tables, file: u32) -> bool
    ensures { result ≡ is_readable file (inv_of tables.now) }
{
    match tables.pools.volumes().get(&file) {
        Some(volume) => may_be_read(&volume.access),
        None => false,
    }
}

fn are_readable(tables: &Tables, segments: &[Segment]) -> bool
    ensures { result ≡ list_all (λ s. is_readable s.file (inv_of tables.now)) segments.now }
{
    segments.iter().all(|s| is_readable(tables, s.file))
}

/// Whether each segment of the copy lies on a volume that may be read. It takes no memory.
pub fn can_read(tables: &Tables, copy: &CopyRow) -> bool
    ensures { result ≡ can_read copy.now (inv_of tables.now) }
{
    are_readable(tables, copy.segments.as_slice())
}
