//! Volumes, without the segments on them.
ghost use Rattle.std.specs.Prelude.{◌≡◌, ◌++◌, ◌<◌, ◌^◌, length, OnOk};
ghost use Rattle.std.specs.List.{flat_map, AllByRecursion};
ghost use Rattle.std.specs.Int.{w32};
ghost use Rattle.fields.specs.Forms.{number, pair, ascending};
ghost use Rattle.inventory_bytes.specs.StoreForms.{volume_row, volume_row_form, volume_bytes, volume_fields, volumes};

use fields::{Decoder, Fault, Formed, Memory, Reader, put_u32, put_u64};
use inventory_rows::volume_rows::{Holdings, Volume};
use kinds::{Access, Capacity, Day, Name};
use std::alloc::Global;
use std::collections::BTreeMap;

/// Puts a volume's row; the segments on it are left out.
pub fn put_volume(out: &mut Vec<u8>, value: &Volume) -> Result<(), Memory>
    requires { volume_bytes.Fits (volume_fields value.now) }
    ensures { OnOk result (out.new.items ≡ out.old.items ++ volume_bytes.spell (volume_fields value.now)) }
{
    value.name.write_to(out)?;
    put_u32(out, value.pool)?;
    value.scratch.write_to(out)?;
    value.capacity.write_to(out)?;
    value.access.write_to(out)?;
    put_u64(out, value.end)?;
    value.emptied.write_to(out)?;
    Ok(())
}

/// A volume that holds no segments: its name, its pool, whether it is a scratch volume, its capacity, its access, where the
/// next frame is written, and the day on which it was emptied, where it is.
pub struct VolumeRow;

#[tactic(auto, unfolding(crate::specs::StoreForms::volume_row))]
impl Decoder<Volume> for VolumeRow {
    ghost form = { volume_row };

    fn take(alloc: Global, reader: &mut Reader<'_>) -> Result<Volume, Fault> {
        let name = Name::read_from(alloc, reader)?;
        let pool = reader.u32()?;
        let scratch = bool::read_from(alloc, reader)?;
        let capacity = Capacity::read_from(alloc, reader)?;
        let access = Access::read_from(alloc, reader)?;
        let end = reader.u64()?;
        let emptied = Option::<Day>::read_from(alloc, reader)?;
        Ok(Volume {
            name,
            pool,
            scratch,
            capacity,
            access,
            end,
            emptied,
            segments: Holdings::new(alloc),
        })
    }

    ghost is_form = { volume_row_form };
}
