// The names of the files in memory.
ghost use Rattle.std.specs.Prelude.{◌≡◌, ◌<◌, ◌++◌, ◌∷◌, [], IfOk, OnOk, length, map, string_bytes};
ghost use Rattle.files_api.specs.Calls.{Lists};
ghost use Rattle.mem_files.specs.Entries.{file_in};
ghost use Rattle.mem_files.specs.Lists.{IsFileAt};

use crate::entries::{Entry, find_file};
use std::alloc::{AllocError, Global};

// Whether a file has the name of the entry at a place, and stands there.
fn is_file_at(entries: &[Entry], at: usize) -> bool
    requires { at < length entries.now }
    ensures { IsFileAt result entries.now at }
{
    match find_file(entries, entries[at].name.as_str()) {
        Some(first) => first == at,
        None => false,
    }
}

// Adds a name.
fn add_name(alloc: Global, names: &mut Vec<String>, name: &str) -> Result<(), AllocError>
    ensures { OnOk result (map string_bytes names.new.items ≡ map string_bytes names.old.items ++ (name.now ∷ [])) }
{
    names.push(String::from_str(alloc, name)?)?;
    Ok(())
}

// The names of all files, each once.
pub(crate) fn names_of(alloc: Global, entries: &[Entry]) -> Result<Vec<String>, AllocError>
    ensures { IfOk result (λ names. Lists (map string_bytes names.items) (file_in entries.now)) }
{
    let mut names = Vec::new(alloc);
    'entries: for at in 0..entries.len() {
        if is_file_at(entries, at) {
            add_name(alloc, &mut names, entries[at].name.as_str())?;
        }
    }
    Ok(names)
}
