//! The volumes of the database, without the segments on them.
ghost use Rattle.std.specs.Prelude.{◌≡◌, ◌++◌, OnOk};
ghost use Rattle.std.specs.List.{flat_map, AllByRecursion};
ghost use Rattle.std.specs.Int.{w32};
ghost use Rattle.fields.specs.Forms.{number, pair};
ghost use Rattle.inventory_bytes.specs.StoreForms.{volume_row, volumes};
ghost use Rattle.inventory_bytes.specs.Payload.{unheld_volume, unheld_volumes};

use crate::volume_codecs::put_volume;
use fields::{Memory, put_u32};
use inventory_rows::volume_rows::Volume;
use std::collections::BTreeMap;

/// Puts a file number and the row of its volume.
#[tactic(auto, unfolding(crate::specs::StoreForms::volume_row))]
fn put_entry(out: &mut Vec<u8>, file: u32, volume: &Volume) -> Result<(), Memory>
    requires { (pair (number w32) volume_row).Fits (file, unheld_volume volume.now) }
    ensures { OnOk result (out.new.items ≡ out.old.items ++ (pair (number w32) volume_row).spell (file, volume.now)) }
{
    put_u32(out, file)?;
    put_volume(out, volume)?;
    Ok(())
}

fn put_entries(out: &mut Vec<u8>, map: &BTreeMap<u32, Volume>) -> Result<(), Memory>
    requires { AllByRecursion (pair (number w32) volume_row).Fits (unheld_volumes map.now.entries) }
    ensures { OnOk result (out.new.items ≡ out.old.items ++ flat_map (pair (number w32) volume_row).spell map.now.entries) }
{
    'entries: for (file, volume) in map.iter() {
        put_entry(out, *file, volume)?;
    }
    Ok(())
}

/// Puts the volumes by file number, without the segments on them.
pub(crate) fn put_volumes(out: &mut Vec<u8>, map: &BTreeMap<u32, Volume>) -> Result<(), Memory>
    requires { volumes.Fits (unheld_volumes map.now.entries) }
    ensures { OnOk result (out.new.items ≡ out.old.items ++ volumes.spell map.now.entries) }
{
    put_u32(out, map.len() as u32)?;
    put_entries(out, map)?;
    Ok(())
}
