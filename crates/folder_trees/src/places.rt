// Where the files of a tree lie below its folder.
ghost use Rattle.std.specs.Prelude.{◌≡◌, IfOk, drop, map, string_bytes};
ghost use Rattle.std.specs.List.{list_all};
ghost use Rattle.std.specs.Option.{option_map};
ghost use Rattle.folder_trees.specs.Places.{is_below, is_name, parts, place};

use kinds::Path;
use std::alloc::{AllocError, Global};
use std::str;

/// The name under which a file is written before it is whole.
pub(crate) const PARTIAL: &str = ".tsm-partial";

// Whether a part of a path names a file or a folder of the tree.
fn is_name(part: &[u8]) -> bool
    ensures { result ≡ is_name part.now }
{
    !part.is_empty()
        && part != b".".as_slice()
        && part != b"..".as_slice()
        && part != PARTIAL.as_bytes()
}

fn parts_of<'a>(alloc: Global, path: &'a str) -> Result<Vec<&'a str>, AllocError>
    ensures { IfOk result (λ found. map (λ x. x.now) found.items ≡ parts path.now) }
{
    path.split('/').collect(alloc)
}

fn are_names(parts: &[&str]) -> bool
    ensures { result ≡ list_all (λ x. is_name x.now) parts.now }
{
    parts.iter().all(|part| is_name(part.as_bytes()))
}

// Whether each part behind the first is a name.
fn are_below(parts: &[&str]) -> bool
    ensures { result ≡ list_all (λ x. is_name x.now) (drop 1 parts.now) }
{
    match parts.split_first() {
        Some((_, names)) => are_names(names),
        None => true,
    }
}

fn is_below(alloc: Global, path: &str) -> Result<bool, AllocError>
    ensures { IfOk result (λ is. is ≡ is_below path.now) }
{
    let parts = parts_of(alloc, path)?;
    Ok(are_below(parts.as_slice()))
}

/// Where the file of a path lies, below the tree's folder; nowhere, where its path leads elsewhere.
pub(crate) fn place_of(alloc: Global, root: &str, path: &Path) -> Result<Option<String>, AllocError>
    ensures { IfOk result (λ found. option_map string_bytes found ≡ place root.now path.now) }
{
    // (a path is UTF-8)
    let Ok(text) = str::from_utf8(path.as_bytes()) else {
        return Err(AllocError);
    };
    if !is_below(alloc, text)? {
        return Ok(None);
    }
    let mut place = String::from_str(alloc, root)?;
    place.push_str(text)?;
    Ok(Some(place))
}
