//! Days, spans of days, sizes of volumes and of objects: numbers in their ranges.
ghost use Rattle.fields.specs.Editions.{second_form};
ghost use Rattle.kinds.specs.ValueForms.{day, day_form, days, days_form, capacity, capacity_form, size, size_form};

use crate::day::{Day, Days};
use crate::pool::Capacity;
use crate::size::ObjectSize;
use fields::{
    By, Decoder, Fault, Formed, InEdition, Memory, Reader, Second, put_u16, put_u32, put_u64,
    take_byte_count,
};
use std::alloc::Global;

/// The day's number in four bytes.
impl Formed for Day {
    ghost form = { day };

    fn write_to(&self, out: &mut Vec<u8>) -> Result<(), Memory> {
        put_u32(out, self.number())
    }

    fn read_from(_alloc: Global, reader: &mut Reader<'_>) -> Result<Self, Fault> {
        let number = reader.u32()?;
        match Day::new(number) {
            Some(day) => Ok(day),
            None => Err(Fault::Malformed),
        }
    }

    ghost is_form = { day_form };
}

/// How many days these are, in two bytes.
impl Formed for Days {
    ghost form = { days };

    fn write_to(&self, out: &mut Vec<u8>) -> Result<(), Memory> {
        put_u16(out, self.count())
    }

    fn read_from(_alloc: Global, reader: &mut Reader<'_>) -> Result<Self, Fault> {
        let count = reader.u16()?;
        match Days::new(count) {
            Some(days) => Ok(days),
            None => Err(Fault::Malformed),
        }
    }

    ghost is_form = { days_form };
}

/// How many bytes these are, in eight bytes.
impl Formed for Capacity {
    ghost form = { capacity };

    fn write_to(&self, out: &mut Vec<u8>) -> Result<(), Memory> {
        put_u64(out, self.bytes())
    }

    fn read_from(_alloc: Global, reader: &mut Reader<'_>) -> Result<Self, Fault> {
        let bytes = reader.u64()?;
        match Capacity::new(bytes) {
            Some(capacity) => Ok(capacity),
            None => Err(Fault::Malformed),
        }
    }

    ghost is_form = { capacity_form };
}

/// How many bytes these are, as a count of bytes.
impl<E: InEdition> Decoder<ObjectSize> for By<E> {
    ghost form = { size E.edition };

    #[inline(always)]
    fn take(_alloc: Global, reader: &mut Reader<'_>) -> Result<ObjectSize, Fault> {
        let bytes = take_byte_count::<E>(reader)?;
        match ObjectSize::new(bytes) {
            Some(size) => Ok(size),
            None => Err(Fault::Malformed),
        }
    }

    ghost is_form = { size_form E.edition };
}

impl Formed for ObjectSize {
    ghost form = { size second_form };

    #[inline(always)]
    fn write_to(&self, out: &mut Vec<u8>) -> Result<(), Memory> {
        put_u64(out, self.bytes())
    }

    #[inline(always)]
    fn read_from(alloc: Global, reader: &mut Reader<'_>) -> Result<Self, Fault> {
        By::<Second>::take(alloc, reader)
    }

    ghost is_form = { size_form second_form };
}
