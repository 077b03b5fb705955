//! Values as bytes.
//!
//! A field is a number with its highest byte first, a text (its length in two bytes, and its bytes) or a digest's
//! 32 bytes: the `put` calls write one at the end of a `Vec`, and a `Reader` reads one after the other from a slice.
//!
//! A type that is `Formed` says how its values are spelled: its form is made of those in `specs/Forms.antt`, and is
//! shown to be one by the laws that stand under the same names in `specs/FieldLaws.antt`, `specs/FormLaws.antt` and
//! `specs/ListLaws.antt`. Then `encode` gives the one spelling of a value, and `decode` the value of a spelling, or that
//! the bytes are no value's.
//!
//! A `Codec` is a type of its own that says how values of another type are spelled, as of one that stands in another
//! crate, and a `Decoder` one that only reads them; `Own` is that of a type that is `Formed`. Lists and ordered maps are
//! written and read by a codec of their values.
//!
//! Some values are spelled in two forms (`specs/Editions.antt`). A definition that has the form as a parameter says both,
//! and a function that is generic over it reads both: `By<First>` and `By<Second>` are the decoders. The second alone is
//! written, and is that of `Formed`.
//!
//! In an enum whose variants stand under tags, what follows the tag is best read by a function of the tag, whose
//! clause names the table of tags at that number: so each arm is proved by itself.
#![tactic(auto)]

mod codec;
mod editions;
mod errors;
mod formed;
mod items;
mod lists;
mod maps;
mod plain;
mod puts;
mod reader;

pub use codec::{Codec, Decoder, Own};
pub use editions::{By, First, InEdition, Second, take_added, take_byte_count};
pub use errors::{Fault, Memory, Short};
pub use formed::{Formed, decode, decode_by, encode, take_front};
pub use items::{Items, take_items};
pub use lists::{put_each, put_list, take_list};
pub use maps::{put_table, take_table};
pub use puts::{put_digest, put_text, put_u8, put_u16, put_u32, put_u64};
pub use reader::Reader;
