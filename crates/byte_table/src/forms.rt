//! The forms of values: `u8`, `u16`, `u32`, `u64`, `bool`, a `digest`, a `pair` of a byte and of a number of two that may be missing, such an
//! `option` alone, `items` of at most two bytes, and a `note`, a record of several fields.
use crate::digits::bytes_of;
use fields::{Fault, Formed, Items, Memory, Reader, decode, encode, put_u32};
use kinds::{Digest, Refusal};
use std::alloc::Global;

/// A record of several fields.
#[derive(Drop)]
struct Note {
    id: u32,
    due: Option<u64>,
    marks: Items<u16, 4>,
}

impl Formed for Note {
    ghost use Rattle.std.specs.Prelude.{refl};
    ghost use Rattle.std.specs.Int.{w16, w32, w64};
    ghost use Rattle.fields.specs.Forms.{viewed, pair, number, option, items};
    ghost use Rattle.fields.specs.FieldLaws.{number_form, wide16, wide32, wide64};
    ghost use Rattle.fields.specs.FormLaws.{viewed_form, pair_form, option_form};
    ghost use Rattle.fields.specs.ListLaws.{items_form};

    ghost form = { viewed (λ p. record { id = p.0; due = p.1.0; marks = p.1.1 }) (λ n. (n.id, (n.due, n.marks)))
        (pair (number w32) (pair (option (number w64)) (items 4 (number w16)))) };

    fn write_to(&self, out: &mut Vec<u8>) -> Result<(), Memory> {
        put_u32(out, self.id)?;
        self.due.write_to(out)?;
        self.marks.write_to(out)?;
        Ok(())
    }

    fn read_from(alloc: Global, reader: &mut Reader<'_>) -> Result<Self, Fault> {
        let id = reader.u32()?;
        let due = Option::read_from(alloc, reader)?;
        let marks = Items::read_from(alloc, reader)?;
        Ok(Note { id, due, marks })
    }

    ghost is_form = { viewed_form (λ p. record { id = p.0; due = p.1.0; marks = p.1.1 }) (λ n. (n.id, (n.due, n.marks)))
        (λ _. refl) (λ _. refl)
        (pair_form (number_form w32 wide32) (pair_form (option_form (number_form w64 wide64)) (items_form 4 (number_form w16 wide16)))) };
}

/// Whether the bytes are a value's, and the value's spelling is they.
pub fn survives<T: Formed>(alloc: Global, bytes: &[u8]) -> Result<&'static str, Memory> {
    match decode::<T>(alloc, bytes) {
        Ok(Some(value)) => match encode(alloc, &value) {
            Ok(spelling) => {
                if spelling.as_slice() == bytes {
                    Ok("a value")
                } else {
                    Ok("SPELLED OTHERWISE")
                }
            }
            Err(e) => Err(e),
        },
        Ok(None) => Ok("none"),
        Err(e) => Err(e),
    }
}

/// Whether the bytes are a value's of this kind.
fn of_kind(alloc: Global, kind: &str, bytes: &[u8]) -> Result<&'static str, Memory> {
    match kind {
        "u8" => survives::<u8>(alloc, bytes),
        "u16" => survives::<u16>(alloc, bytes),
        "u32" => survives::<u32>(alloc, bytes),
        "u64" => survives::<u64>(alloc, bytes),
        "bool" => survives::<bool>(alloc, bytes),
        "digest" => survives::<Digest>(alloc, bytes),
        "pair" => survives::<(u8, Option<u16>)>(alloc, bytes),
        "option" => survives::<Option<u16>>(alloc, bytes),
        "items" => survives::<Items<u8, 2>>(alloc, bytes),
        "note" => survives::<Note>(alloc, bytes),
        _ => Ok("no kind"),
    }
}

/// The name of a kind, and the bytes that may be a value's.
pub fn line(alloc: Global, rest: &str) -> Result<Option<String>, Refusal> {
    let Some((kind, digits)) = rest.split_once(' ') else {
        return Ok(None);
    };
    match bytes_of(alloc, digits) {
        Some(bytes) => {
            let told = of_kind(alloc, kind, bytes.as_slice())?;
            Ok(Some(String::from_str(alloc, told)?))
        }
        None => Ok(None),
    }
}
