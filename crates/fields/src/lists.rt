//! Lists of values: their number in four bytes, and the values.

ghost use Rattle.std.specs.Prelude.{◌≡◌, ◌<◌, ◌≤◌, ◌^◌, ◌++◌, length, OnOk, IfOk};
ghost use Rattle.std.specs.List.{flat_map, AllByRecursion};
ghost use Rattle.fields.specs.Forms.{items, times_at};
ghost use Rattle.fields.specs.Gives.{GivesBy};

use crate::codec::{Codec, Decoder};
use crate::errors::{Fault, Memory};
use crate::puts::put_u32;
use crate::reader::Reader;
use std::alloc::Global;

/// Puts the values' spellings at the end, one after the other.
pub fn put_each<T: Drop, C: Codec<T>>(out: &mut Vec<u8>, values: &[T]) -> Result<(), Memory>
    requires { AllByRecursion C.form.Fits values.now }
    ensures { OnOk result (out.new.items ≡ out.old.items ++ flat_map C.form.spell values.now) }
{
    'values: for value in values {
        C::put(out, value)?;
    }
    Ok(())
}

/// Puts a list at the end: the values' number in four bytes, and their spellings. After an `Err` a part of them may stand there.
pub fn put_list<T: Drop, C: Codec<T>>(out: &mut Vec<u8>, values: &[T]) -> Result<(), Memory>
    requires short { length values.now < 2 ^ 32 }
    requires fit { AllByRecursion C.form.Fits values.now }
    ensures { OnOk result (out.new.items ≡ out.old.items ++ (items (length values.now) C.form).spell values.now) }
{
    put_u32(out, values.len() as u32)?;
    put_each::<T, C>(out, values)?;
    Ok(())
}

/// Takes so many values.
fn take_times<T: Drop, D: Decoder<T>>(
    alloc: Global,
    reader: &mut Reader<'_>,
    count: u32,
) -> Result<Vec<T>, Fault>
    ensures gives { GivesBy (λ v. v.items) result reader.new.rest (times_at D.form.read count reader.old.rest) }
    ensures count { IfOk result (λ v. length v.items ≡ count) }
{
    let mut values = Vec::new(alloc);
    'values: for _ in 0..count {
        let value = D::take(alloc, reader)?;
        values.push(value)?;
    }
    Ok(values)
}

/// Takes a list of at most `most` values. After an `Err` the reader stands anywhere.
pub fn take_list<T: Drop, D: Decoder<T>>(
    alloc: Global,
    reader: &mut Reader<'_>,
    most: u32,
) -> Result<Vec<T>, Fault>
    ensures gives { GivesBy (λ v. v.items) result reader.new.rest ((items most D.form).read reader.old.rest) }
    ensures few { IfOk result (λ v. length v.items ≤ most) }
{
    let count = reader.u32()?;
    if count > most {
        return Err(Fault::Malformed);
    }
    take_times::<T, D>(alloc, reader, count)
}
