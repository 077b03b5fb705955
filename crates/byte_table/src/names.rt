//! Names, paths and descriptions as they are read.
use crate::digits::show_text;
use kinds::{FilespaceName, Name, NodeName, Path, Refusal, Text};
use std::alloc::{AllocError, Global};

fn refused(alloc: Global, refusal: &Refusal) -> Result<String, AllocError> {
    format!(in alloc; "{refusal:?}")
}

/// What was read, or the refusal.
fn told(alloc: Global, read: Result<Vec<u8>, Refusal>) -> Result<Option<String>, Refusal> {
    match read {
        Ok(bytes) => {
            let mut out = String::new(alloc);
            show_text(&mut out, bytes.as_slice())?;
            Ok(Some(out))
        }
        Err(refusal) => Ok(Some(refused(alloc, &refusal)?)),
    }
}

pub fn name(alloc: Global, bytes: &[u8]) -> Result<Option<String>, Refusal> {
    let name = Name::read(alloc, bytes, 30);
    told(alloc, name.map(|name| name.into_bytes()))
}

pub fn node(alloc: Global, bytes: &[u8]) -> Result<Option<String>, Refusal> {
    let name = NodeName::read(alloc, bytes, 64);
    told(alloc, name.map(|name| name.into_bytes()))
}

pub fn path(alloc: Global, bytes: &[u8]) -> Result<Option<String>, Refusal> {
    let path = Path::read(alloc, bytes);
    told(alloc, path.map(|path| path.into_bytes()))
}

pub fn filespace(alloc: Global, bytes: &[u8]) -> Result<Option<String>, Refusal> {
    let name = FilespaceName::read(alloc, bytes);
    told(alloc, name.map(|name| name.into_bytes()))
}

pub fn description(alloc: Global, bytes: &[u8]) -> Result<Option<String>, Refusal> {
    let text = Text::read(alloc, bytes);
    told(alloc, text.map(|text| text.into_bytes()))
}
