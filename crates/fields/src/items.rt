//! A list that a contract sees as its values.

ghost use Rattle.std.specs.Prelude.{◌≡◌, ◌<◌, ◌≤◌, ◌++◌, ◌∷◌, [], length, OnOk, OnErr};
ghost use Rattle.fields.specs.Forms.{items};
ghost use Rattle.fields.specs.Gives.{Gives};
ghost use Rattle.fields.specs.ListLaws.{items_form};

use crate::codec::{Decoder, Own};
use crate::errors::{Fault, Memory};
use crate::formed::Formed;
use crate::lists::{put_list, take_list};
use crate::reader::Reader;
use std::alloc::Global;
use std::marker::Model;

/// A list of at most `MOST` values. Contracts see it as the list of them.
#[derive(Drop)]
pub struct Items<T, const MOST: u32> {
    values: Vec<T>,
}

impl<T, const MOST: u32> Model for Items<T, MOST> {
    ghost use Rattle.std.specs.Prelude.{List, ◌≤◌, length};

    ghost Value = { List T };

    ghost view = { λ a. a.values.items };

    ghost invariant = { λ a. length a.values.items ≤ MOST };
}

impl<T, const MOST: u32> Items<T, MOST> {
    /// No values.
    pub fn new(alloc: Global) -> Items<T, MOST>
        ensures { result ≡ [] }
    {
        Items {
            values: Vec::new(alloc),
        }
    }

    /// The values in order.
    pub fn as_slice(&self) -> &[T]
        ensures same { result.now ≡ self.now }
        ensures few { length self.now ≤ MOST }
    {
        self.values.as_slice()
    }

    /// How many values there are.
    pub fn len(&self) -> usize
        ensures len { result ≡ length self.now }
        ensures few { result ≤ MOST }
    {
        self.values.len()
    }
}

impl<T: Drop, const MOST: u32> Items<T, MOST> {
    /// Adds a value at the end. An `Err` changes nothing.
    pub fn push(&mut self, value: T) -> Result<(), Memory>
        requires { length self.old < MOST }
        ensures ok { OnOk result (self.new ≡ self.old ++ value ∷ []) }
        ensures err { OnErr result (self.new ≡ self.old) }
    {
        self.values.push(value)?;
        Ok(())
    }
}

/// Takes a list of at most `MOST` values by a decoder of its values. After an `Err` the reader stands anywhere.
pub fn take_items<T: Drop, D: Decoder<T>, const MOST: u32>(
    alloc: Global,
    reader: &mut Reader<'_>,
) -> Result<Items<T, MOST>, Fault>
    ensures { Gives result reader.new.rest ((items MOST D.form).read reader.old.rest) }
{
    let values = take_list::<T, D>(alloc, reader, MOST)?;
    Ok(Items { values })
}

/// The values' number in four bytes, and the values.
impl<T: Formed, const MOST: u32> Formed for Items<T, MOST> {
    ghost form = { items MOST T.form };

    fn write_to(&self, out: &mut Vec<u8>) -> Result<(), Memory> {
        put_list::<T, Own>(out, self.as_slice())
    }

    fn read_from(alloc: Global, reader: &mut Reader<'_>) -> Result<Self, Fault> {
        take_items::<T, Own, MOST>(alloc, reader)
    }

    ghost is_form = { items_form MOST T.is_form };
}
