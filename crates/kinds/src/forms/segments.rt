//! Digests and segments.
ghost use Rattle.fields.specs.Editions.{second_form};
ghost use Rattle.kinds.specs.ValueForms.{digest, digest_form, segment, segment_form, segments, segments_form};

use crate::segment::{Digest, Segment, Segments};
use fields::{
    By, Decoder, Fault, Formed, InEdition, Memory, Own, Reader, Second, put_digest, put_list,
    take_byte_count, take_list,
};
use std::alloc::Global;

/// The 32 bytes.
impl Formed for Digest {
    ghost form = { digest };

    #[inline(always)]
    fn write_to(&self, out: &mut Vec<u8>) -> Result<(), Memory> {
        put_digest(out, &self.0)
    }

    #[inline(always)]
    fn read_from(_alloc: Global, reader: &mut Reader<'_>) -> Result<Self, Fault> {
        let bytes = reader.digest()?;
        Ok(Digest(bytes))
    }

    ghost is_form = { digest_form };
}

/// The file number in four bytes, the frame's place in eight, and the length as a count of bytes.
impl<E: InEdition> Decoder<Segment> for By<E> {
    ghost form = { segment E.edition };

    #[inline(always)]
    fn take(_alloc: Global, reader: &mut Reader<'_>) -> Result<Segment, Fault> {
        let file = reader.u32()?;
        let offset = reader.u64()?;
        let len = take_byte_count::<E>(reader)?;
        Ok(Segment { file, offset, len })
    }

    ghost is_form = { segment_form E.edition };
}

impl Formed for Segment {
    ghost form = { segment second_form };

    #[inline(always)]
    fn write_to(&self, out: &mut Vec<u8>) -> Result<(), Memory> {
        (self.file, (self.offset, self.len)).write_to(out)
    }

    #[inline(always)]
    fn read_from(alloc: Global, reader: &mut Reader<'_>) -> Result<Self, Fault> {
        By::<Second>::take(alloc, reader)
    }

    ghost is_form = { segment_form second_form };
}

/// The segments' number in four bytes, and the segments.
impl<E: InEdition> Decoder<Segments> for By<E> {
    ghost form = { segments E.edition };

    #[inline(always)]
    fn take(alloc: Global, reader: &mut Reader<'_>) -> Result<Segments, Fault> {
        let items = take_list::<Segment, By<E>>(alloc, reader, u32::MAX)?;
        Ok(Segments::new(items))
    }

    ghost is_form = { segments_form E.edition };
}

impl Formed for Segments {
    ghost form = { segments second_form };

    #[inline(always)]
    fn write_to(&self, out: &mut Vec<u8>) -> Result<(), Memory> {
        put_list::<Segment, Own>(out, self.as_slice())
    }

    #[inline(always)]
    fn read_from(alloc: Global, reader: &mut Reader<'_>) -> Result<Self, Fault> {
        By::<Second>::take(alloc, reader)
    }

    ghost is_form = { segments_form second_form };
}
