//! The two forms in which values are spelled.

ghost use Rattle.std.specs.Prelude.{◌≡◌};
ghost use Rattle.fields.specs.Editions.{Edition, first_form, second_form, is_second, byte_count, added};
ghost use Rattle.fields.specs.Gives.{Gives};

use crate::errors::Fault;
use crate::formed::Formed;
use crate::reader::Reader;
use std::alloc::Global;
use std::marker::PhantomData;

/// One of the two forms in which values are spelled: `Second`, which is written and read, or `First`, which was written
/// before and is only read.
pub trait InEdition {
    /// Which form it is.
    ghost edition: { Edition };

    /// Whether it is the second.
    fn is_second() -> bool
        ensures { result ≡ is_second edition };
}

/// The first form.
pub struct First;

impl InEdition for First {
    ghost edition = { first_form };

    fn is_second() -> bool {
        false
    }
}

/// The second form.
pub struct Second;

impl InEdition for Second {
    ghost edition = { second_form };

    fn is_second() -> bool {
        true
    }
}

/// The decoder of values which the two forms spell in different ways, by one of the forms.
pub struct By<E> {
    edition: PhantomData<E>,
}

/// Takes a count of bytes: a number of four bytes in the first form, and of eight in the second.
pub fn take_byte_count<E: InEdition>(reader: &mut Reader<'_>) -> Result<u64, Fault>
    ensures { Gives result reader.new.rest ((byte_count E.edition).read reader.old.rest) }
{
    if E::is_second() {
        Ok(reader.u64()?)
    } else {
        Ok(reader.u32()? as u64)
    }
}

/// Takes a value that the second form adds. In the first nothing stands there, and the value is `before`.
pub fn take_added<E: InEdition, T: Formed>(
    alloc: Global,
    reader: &mut Reader<'_>,
    before: T,
) -> Result<T, Fault>
    ensures { Gives result reader.new.rest ((added E.edition before T.form).read reader.old.rest) }
{
    if E::is_second() {
        T::read_from(alloc, reader)
    } else {
        Ok(before)
    }
}
