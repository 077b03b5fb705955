//! Names, paths and texts, which are such as they stand.
ghost use Rattle.kinds.specs.ValueForms.{name, name_form, path, path_form, description, description_form};

use crate::name::NameOf;
use crate::path::PathOf;
use crate::text::Text;
use fields::{Fault, Formed, Memory, Reader, put_text};
use std::alloc::Global;

/// The length in two bytes, and the name's bytes, which are in upper case.
impl<const MOST: u32> Formed for NameOf<MOST> {
    ghost form = { name MOST };

    fn write_to(&self, out: &mut Vec<u8>) -> Result<(), Memory> {
        put_text(out, self.as_bytes())
    }

    #[tactic(auto, unfolding(fields::specs::Reading::text_at))]
    fn read_from(alloc: Global, reader: &mut Reader<'_>) -> Result<Self, Fault> {
        let bytes = reader.text()?;
        let bytes = Vec::from_slice(alloc, bytes)?;
        match NameOf::from_bytes(bytes) {
            Some(name) => Ok(name),
            None => Err(Fault::Malformed),
        }
    }

    ghost is_form = { name_form MOST };
}

/// The length in two bytes, and the path's bytes.
impl<const MOST: u32> Formed for PathOf<MOST> {
    ghost form = { path MOST };

    fn write_to(&self, out: &mut Vec<u8>) -> Result<(), Memory> {
        put_text(out, self.as_bytes())
    }

    #[tactic(auto, unfolding(fields::specs::Reading::text_at))]
    fn read_from(alloc: Global, reader: &mut Reader<'_>) -> Result<Self, Fault> {
        let bytes = reader.text()?;
        let bytes = Vec::from_slice(alloc, bytes)?;
        match PathOf::from_bytes(bytes) {
            Some(path) => Ok(path),
            None => Err(Fault::Malformed),
        }
    }

    ghost is_form = { path_form MOST };
}

/// The length in two bytes, and the text's bytes.
impl Formed for Text {
    ghost form = { description };

    fn write_to(&self, out: &mut Vec<u8>) -> Result<(), Memory> {
        put_text(out, self.as_bytes())
    }

    #[tactic(auto, unfolding(fields::specs::Reading::text_at))]
    fn read_from(alloc: Global, reader: &mut Reader<'_>) -> Result<Self, Fault> {
        let bytes = reader.text()?;
        let bytes = Vec::from_slice(alloc, bytes)?;
        match Text::from_bytes(bytes) {
            Some(text) => Ok(text),
            None => Err(Fault::Malformed),
        }
    }

    ghost is_form = { description_form };
}
