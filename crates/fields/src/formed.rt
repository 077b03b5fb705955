//! Values that have a form of bytes.

ghost use Rattle.std.specs.Prelude.{◌≡◌, ℕ, List, [], ◌++◌, OnOk, IfOk, IfSome, IfNone};
ghost use Rattle.fields.specs.Forms.{Form, IsForm};
ghost use Rattle.fields.specs.Gives.{Gives};

use crate::codec::{Decoder, Own};
use crate::errors::{Fault, Memory};
use crate::reader::Reader;
use std::alloc::Global;

/// A value with a form of bytes: each value that fits has one spelling, and the spelling tells the value.
pub trait Formed: Drop {
    /// How a value is spelled, what is read from the front of some bytes, and which values have a spelling.
    ghost form: { Form Self };

    /// Puts the value's spelling at the end. After an `Err` a part of it may stand there.
    fn write_to(&self, out: &mut Vec<u8>) -> Result<(), Memory>
        requires { form.Fits self.now }
        ensures { OnOk result (out.new.items ≡ out.old.items ++ form.spell self.now) };

    /// Takes the value that the bytes begin with. After an `Err` the reader stands anywhere.
    fn read_from(alloc: Global, reader: &mut Reader<'_>) -> Result<Self, Fault>
        ensures { Gives result reader.new.rest (form.read reader.old.rest) };

    /// What is read is spelled so, and fits; what fits is read again, whatever follows.
    ghost is_form: { IsForm form };
}

/// The value that the bytes begin with, if there is one. The reader then stands behind it.
pub fn take_front<T: Drop, D: Decoder<T>>(
    alloc: Global,
    reader: &mut Reader<'_>,
) -> Result<Option<T>, Memory>
    ensures found { IfOk result (λ o. IfSome o (λ x. D.form.Fits x × (reader.old.rest ≡ D.form.spell x ++ reader.new.rest))) }
    ensures none { IfOk result (λ o. IfNone o ((x : T) (rest : List ℕ) → D.form.Fits x → reader.old.rest ≡ D.form.spell x ++ rest → ⊥)) }
{
    let _bytes = reader.rest();
    match D::take(alloc, reader) {
        Ok(value) => Ok(Some(value)),
        Err(Fault::Malformed) => Ok(None),
        Err(Fault::Memory) => Err(Memory),
    }
}

/// The value whose spelling by this decoder the bytes are, or `None` where they are no value's. No other value's spelling begins with
/// them.
pub fn decode_by<T: Drop, D: Decoder<T>>(alloc: Global, bytes: &[u8]) -> Result<Option<T>, Memory>
    ensures found { IfOk result (λ o. IfSome o (λ x. D.form.Fits x × (bytes.now ≡ D.form.spell x))) }
    ensures none { IfOk result (λ o. IfNone o ((x : T) → D.form.Fits x → bytes.now ≡ D.form.spell x → ⊥)) }
    ensures alone { IfOk result (λ o. IfSome o (λ x. (y : T) (rest : List ℕ) → D.form.Fits y → bytes.now ++ rest ≡ D.form.spell y → (y ≡ x) × (rest ≡ []))) }
{
    let mut reader = Reader::new(bytes);
    let value = take_front::<T, D>(alloc, &mut reader)?;
    if reader.at_end() { Ok(value) } else { Ok(None) }
}

/// The value whose spelling the bytes are, or `None` where they are no value's. No other value's spelling begins with them.
pub fn decode<T: Formed>(alloc: Global, bytes: &[u8]) -> Result<Option<T>, Memory>
    ensures found { IfOk result (λ o. IfSome o (λ x. T.form.Fits x × (bytes.now ≡ T.form.spell x))) }
    ensures none { IfOk result (λ o. IfNone o ((x : T) → T.form.Fits x → bytes.now ≡ T.form.spell x → ⊥)) }
    ensures alone { IfOk result (λ o. IfSome o (λ x. (y : T) (rest : List ℕ) → T.form.Fits y → bytes.now ++ rest ≡ T.form.spell y → (y ≡ x) × (rest ≡ []))) }
{
    decode_by::<T, Own>(alloc, bytes)
}

/// The value's spelling. No other value's begins with it.
pub fn encode<T: Formed>(alloc: Global, value: &T) -> Result<Vec<u8>, Memory>
    requires { T.form.Fits value.now }
    ensures spelled { IfOk result (λ v. v.items ≡ T.form.spell value.now) }
    ensures alone { IfOk result (λ v. (x : T) (rest : List ℕ) → T.form.Fits x → v.items ++ rest ≡ T.form.spell x → (x ≡ value.now) × (rest ≡ [])) }
{
    let mut out = Vec::new(alloc);
    value.write_to(&mut out)?;
    Ok(out)
}
