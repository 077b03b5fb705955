// A walk through a folder and all folders below it.

use crate::found::Found;
use crate::places::PARTIAL;
use crate::times::mtime_of;
use client_trees::ListRefused;
use kinds::{Path, Refusal};
use std::alloc::{Alloc, AllocError, Global};
use std::collections::BTreeMap;
use std::fs::{DirEntry, Metadata};
use std::rt::Files as System;
use std::{fs, io};

/// What a walk has found so far: the files, and the folders that it has still to go through, each by its path below the first.
#[derive(Drop)]
pub(crate) struct Walk {
    alloc: Global,
    // whether what was left unfinished goes
    clears: bool,
    files: BTreeMap<Path, Found>,
    folders: Vec<String>,
}

// Why a walk ends before its end.
fn refusal_of(error: &io::Error) -> ListRefused {
    match error.kind() {
        io::ErrorKind::OutOfMemory => ListRefused::Memory,
        _ => ListRefused::Failed,
    }
}

fn path_below(alloc: Global, folder: &str, name: &str) -> Result<String, AllocError> {
    format!(in alloc; "{folder}/{name}")
}

impl Walk {
    // Keeps a file under its path. One whose path isn't that of a client's file can't be listed.
    fn add_file(&mut self, path: &str, file: &Metadata) -> Result<(), ListRefused> {
        let found = Found {
            size: file.len(),
            mtime: mtime_of(file),
        };
        let path = match Path::read(self.alloc, path.as_bytes()) {
            Ok(path) => path,
            Err(Refusal::Memory) => return Err(ListRefused::Memory),
            Err(_) => return Err(ListRefused::Failed),
        };
        match self.files.insert(path, found) {
            Ok(_) => Ok(()),
            Err(_) => Err(ListRefused::Memory),
        }
    }

    // Keeps what stands in a folder under a name, where it is a file or a folder; a link or a device is passed over, and so is what has gone meanwhile.
    fn add(&mut self, path: String, seen: io::Result<Metadata>) -> Result<(), ListRefused> {
        let seen = match seen {
            Ok(seen) => seen,
            Err(error) if error.kind() == io::ErrorKind::NotFound => return Ok(()),
            Err(error) => return Err(refusal_of(&error)),
        };
        if seen.is_file() {
            return self.add_file(path.as_str(), &seen);
        }
        if !seen.is_dir() {
            return Ok(());
        }
        match self.folders.push(path) {
            Ok(()) => Ok(()),
            Err(_) => Err(ListRefused::Memory),
        }
    }
}

// Where a path of the walk lies in the system.
fn place_in(alloc: Global, root: &str, path: &str) -> Result<String, AllocError> {
    format!(in alloc; "{root}{path}")
}

impl Walk {
    // Keeps what an entry of a folder says.
    fn add_entry<R: System + Alloc + Clone + Drop>(
        &mut self,
        system: &R,
        folder: &str,
        entry: &DirEntry<R, R::A>,
    ) -> Result<(), ListRefused> {
        if entry.file_name() == PARTIAL {
            if self.clears {
                let _ = fs::remove_file(system, entry.path());
            }
            return Ok(());
        }
        match path_below(self.alloc, folder, entry.file_name()) {
            Ok(path) => self.add(path, entry.metadata()),
            Err(_) => Err(ListRefused::Memory),
        }
    }

    // Goes through one folder.
    fn go_through<R: System + Alloc + Clone + Drop>(
        &mut self,
        system: &R,
        root: &str,
        folder: &str,
    ) -> Result<(), ListRefused> {
        let Ok(place) = place_in(self.alloc, root, folder) else {
            return Err(ListRefused::Memory);
        };
        let entries = match fs::read_dir(system, place.as_str()) {
            Ok(entries) => entries,
            Err(error) => return Err(refusal_of(&error)),
        };
        for entry in entries {
            match entry {
                Ok(entry) => self.add_entry(system, folder, &entry)?,
                Err(error) => return Err(refusal_of(&error)),
            }
        }
        Ok(())
    }
}

/// All files in the folder at a path and in the folders below it, each by its path below the first. Where that is asked, what a run that was stopped left unfinished goes.
pub(crate) fn files_below<R: System + Alloc + Clone + Drop>(
    system: &R,
    alloc: Global,
    root: &str,
    clears: bool,
) -> Result<BTreeMap<Path, Found>, ListRefused> {
    let mut walk = Walk {
        alloc,
        clears,
        files: BTreeMap::new(alloc),
        folders: Vec::new(alloc),
    };
    walk.go_through(system, root, "")?;
    for _ in 0..u64::MAX {
        match walk.folders.pop() {
            Some(folder) => walk.go_through(system, root, folder.as_str())?,
            None => {
                let Walk { files, .. } = walk;
                return Ok(files);
            }
        }
    }
    Err(ListRefused::Failed)
}
