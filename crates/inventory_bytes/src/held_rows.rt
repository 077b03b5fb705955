//! The held objects of the database, whose numbers stand before their rows.
ghost use Rattle.std.specs.Prelude.{◌≡◌, ◌++◌, OnOk};
ghost use Rattle.std.specs.Int.{w64};
ghost use Rattle.std.specs.List.{flat_map, AllByRecursion};
ghost use Rattle.fields.specs.Forms.{number, pair};
ghost use Rattle.fields.specs.Gives.{GivesBy};
ghost use Rattle.inventory_bytes.specs.ClientForms.{held, held_row};
ghost use Rattle.inventory_bytes.specs.Payload.{held_objects, with_number, unnumbered, numbered};

use crate::client_codecs::{HeldBytes, put_held};
use fields::{Fault, InEdition, Memory, Reader, put_u32, put_u64, take_table};
use inventory_rows::object_rows::HeldRow;
use std::alloc::Global;
use std::collections::BTreeMap;

/// Puts an object's number and its row.
#[tactic(auto, unfolding(crate::specs::ClientForms::held_row))]
fn put_entry(out: &mut Vec<u8>, object: u64, row: &HeldRow) -> Result<(), Memory>
    requires { (pair (number w64) held_row).Fits (object, with_number 0 row.now) }
    ensures { OnOk result (out.new.items ≡ out.old.items ++ (pair (number w64) held_row).spell (object, row.now)) }
{
    put_u64(out, object)?;
    put_held(out, row)?;
    Ok(())
}

fn put_entries(out: &mut Vec<u8>, map: &BTreeMap<u64, HeldRow>) -> Result<(), Memory>
    requires { AllByRecursion (pair (number w64) held_row).Fits (unnumbered map.now.entries) }
    ensures { OnOk result (out.new.items ≡ out.old.items ++ flat_map (pair (number w64) held_row).spell map.now.entries) }
{
    'entries: for (object, row) in map.iter() {
        put_entry(out, *object, row)?;
    }
    Ok(())
}

/// Puts the held objects by number.
pub(crate) fn put_held_rows(out: &mut Vec<u8>, map: &BTreeMap<u64, HeldRow>) -> Result<(), Memory>
    requires { held.Fits (unnumbered map.now.entries) }
    ensures { OnOk result (out.new.items ≡ out.old.items ++ held.spell map.now.entries) }
{
    put_u32(out, map.len() as u32)?;
    put_entries(out, map)?;
    Ok(())
}

/// Takes the held objects, which the second form adds, with the number 0 in each row.
#[tactic(auto, unfolding(crate::specs::Payload::held_objects))]
pub(crate) fn take_held_rows<E: InEdition>(
    alloc: Global,
    reader: &mut Reader<'_>,
) -> Result<BTreeMap<u64, HeldRow>, Fault>
    ensures { GivesBy (λ m. m.entries) result reader.new.rest ((held_objects E.edition).read reader.old.rest) }
{
    if E::is_second() {
        take_table::<u64, HeldRow, HeldBytes>(alloc, reader, u32::MAX)
    } else {
        Ok(BTreeMap::new(alloc))
    }
}

/// Gives each row the number under which it stands.
pub(crate) fn number_rows(map: &mut BTreeMap<u64, HeldRow>)
    ensures { map.new.entries ≡ numbered map.old.entries }
{
    map.retain(|object, row| {
        row.held.version.object = *object;
        true
    });
}
