// The names of the files in a folder.
ghost use Rattle.std.specs.Prelude.{◌≡◌, IfOk, string_bytes};
ghost use Rattle.real_edge.specs.Names.{file_name};

use std::alloc::{AllocError, Global};
use std::path::Path;

// The name of a file by its number.
pub(crate) fn name_of(alloc: Global, file: u32) -> Result<String, AllocError>
    ensures { IfOk result (λ name. string_bytes name ≡ file_name file) }
{
    format!(in alloc; "f{file:08}")
}

// The path of a file in a folder.
pub(crate) fn path_of(alloc: Global, folder: &str, name: &str) -> Result<String, AllocError> {
    format!(in alloc; "{folder}/{name}")
}

// The folder in which a folder lies; none for the root.
pub(crate) fn parent_of(folder: &str) -> Option<&str> {
    match Path::new(folder).parent() {
        Some(parent) if parent.as_str().is_empty() => Some("."),
        Some(parent) => Some(parent.as_str()),
        None => None,
    }
}
