//! The forms of numbers, flags, pairs and options.

ghost use Rattle.std.specs.Int.{w16, w32, w64};
ghost use Rattle.fields.specs.Forms.{byte, number, flag, pair, option, option_body};
ghost use Rattle.fields.specs.Gives.{Gives};
ghost use Rattle.fields.specs.FieldLaws.{byte_form, number_form, wide16, wide32, wide64};
ghost use Rattle.fields.specs.FormLaws.{flag_form, pair_form, option_form};

use crate::errors::{Fault, Memory};
use crate::formed::Formed;
use crate::puts::{put_u8, put_u16, put_u32, put_u64};
use crate::reader::Reader;
use std::alloc::Global;

impl Formed for u8 {
    ghost form = { byte };

    fn write_to(&self, out: &mut Vec<u8>) -> Result<(), Memory> {
        put_u8(out, *self)
    }

    fn read_from(_alloc: Global, reader: &mut Reader<'_>) -> Result<Self, Fault> {
        Ok(reader.u8()?)
    }

    ghost is_form = { byte_form };
}

impl Formed for u16 {
    ghost form = { number w16 };

    fn write_to(&self, out: &mut Vec<u8>) -> Result<(), Memory> {
        put_u16(out, *self)
    }

    fn read_from(_alloc: Global, reader: &mut Reader<'_>) -> Result<Self, Fault> {
        Ok(reader.u16()?)
    }

    ghost is_form = { number_form w16 wide16 };
}

impl Formed for u32 {
    ghost form = { number w32 };

    fn write_to(&self, out: &mut Vec<u8>) -> Result<(), Memory> {
        put_u32(out, *self)
    }

    fn read_from(_alloc: Global, reader: &mut Reader<'_>) -> Result<Self, Fault> {
        Ok(reader.u32()?)
    }

    ghost is_form = { number_form w32 wide32 };
}

impl Formed for u64 {
    ghost form = { number w64 };

    fn write_to(&self, out: &mut Vec<u8>) -> Result<(), Memory> {
        put_u64(out, *self)
    }

    fn read_from(_alloc: Global, reader: &mut Reader<'_>) -> Result<Self, Fault> {
        Ok(reader.u64()?)
    }

    ghost is_form = { number_form w64 wide64 };
}

/// 0 or 1.
impl Formed for bool {
    ghost form = { flag };

    fn write_to(&self, out: &mut Vec<u8>) -> Result<(), Memory> {
        put_u8(out, if *self { 1 } else { 0 })
    }

    fn read_from(_alloc: Global, reader: &mut Reader<'_>) -> Result<Self, Fault> {
        match reader.u8()? {
            0 => Ok(false),
            1 => Ok(true),
            _ => Err(Fault::Malformed),
        }
    }

    ghost is_form = { flag_form };
}

/// One after the other.
impl<A: Formed, B: Formed> Formed for (A, B) {
    ghost form = { pair A.form B.form };

    fn write_to(&self, out: &mut Vec<u8>) -> Result<(), Memory> {
        self.0.write_to(out)?;
        self.1.write_to(out)?;
        Ok(())
    }

    fn read_from(alloc: Global, reader: &mut Reader<'_>) -> Result<Self, Fault> {
        let first = A::read_from(alloc, reader)?;
        let second = B::read_from(alloc, reader)?;
        Ok((first, second))
    }

    ghost is_form = { pair_form A.is_form B.is_form };
}

/// What follows the number in front of an option.
fn read_option<T: Formed>(
    alloc: Global,
    tag: u8,
    reader: &mut Reader<'_>,
) -> Result<Option<T>, Fault>
    ensures { Gives result reader.new.rest ((option_body T.form tag).read reader.old.rest) }
{
    match tag {
        0 => Ok(None),
        1 => Ok(Some(T::read_from(alloc, reader)?)),
        _ => Err(Fault::Malformed),
    }
}

/// 0 for none, or 1 and the value.
impl<T: Formed> Formed for Option<T> {
    ghost form = { option T.form };

    fn write_to(&self, out: &mut Vec<u8>) -> Result<(), Memory> {
        match self {
            None => put_u8(out, 0),
            Some(value) => {
                put_u8(out, 1)?;
                value.write_to(out)?;
                Ok(())
            }
        }
    }

    fn read_from(alloc: Global, reader: &mut Reader<'_>) -> Result<Self, Fault> {
        let tag = reader.u8()?;
        read_option(alloc, tag, reader)
    }

    ghost is_form = { option_form T.is_form };
}
