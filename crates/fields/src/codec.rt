//! Forms of bytes for values whose types stand in other crates.

ghost use Rattle.std.specs.Prelude.{◌≡◌, ◌++◌, OnOk};
ghost use Rattle.fields.specs.Forms.{Form, IsForm};
ghost use Rattle.fields.specs.Gives.{Gives};

use crate::errors::{Fault, Memory};
use crate::formed::Formed;
use crate::reader::Reader;
use std::alloc::Global;

/// How values of a type are read: each value that fits has one spelling, and the spelling tells the value.
pub trait Decoder<T: Drop> {
    /// How a value is spelled, what is read from the front of some bytes, and which values have a spelling.
    ghost form: { Form T };

    /// Takes the value that the bytes begin with. After an `Err` the reader stands anywhere.
    fn take(alloc: Global, reader: &mut Reader<'_>) -> Result<T, Fault>
        ensures { Gives result reader.new.rest (form.read reader.old.rest) };

    /// What is read is spelled so, and fits; what fits is read again, whatever follows.
    ghost is_form: { IsForm form };
}

/// How values of a type are read and written.
pub trait Codec<T: Drop>: Decoder<T> {
    /// Puts the value's spelling at the end. After an `Err` a part of it may stand there.
    fn put(out: &mut Vec<u8>, value: &T) -> Result<(), Memory>
        requires { Self.form.Fits value.now }
        ensures { OnOk result (out.new.items ≡ out.old.items ++ Self.form.spell value.now) };
}

/// The codec of a type that has a form of its own.
pub struct Own;

impl<T: Formed> Decoder<T> for Own {
    ghost form = { T.form };

    fn take(alloc: Global, reader: &mut Reader<'_>) -> Result<T, Fault> {
        T::read_from(alloc, reader)
    }

    ghost is_form = { T.is_form };
}

impl<T: Formed> Codec<T> for Own {
    fn put(out: &mut Vec<u8>, value: &T) -> Result<(), Memory> {
        value.write_to(out)
    }
}
