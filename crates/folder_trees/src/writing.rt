// A file that is being written.

use crate::opened::{look_at, make_folders};
use crate::places::PARTIAL;
use crate::times::time_of;
use kinds::Path;
use real_edge::above_streams;
use std::alloc::{AllocError, Global};
use std::fs::{File, OpenOptions};
use std::io::Write;
use std::rt::Files as System;
use std::{fs, io};

/// A file that is being written: its path, where it is to lie, where it lies until it is whole, and the open file; none where it couldn't be made.
#[derive(Drop)]
pub(crate) struct Writing {
    pub path: Path,
    place: String,
    partial: String,
    file: Option<File>,
}

// Where a file lies until it is whole: in the folder of its place.
fn partial_of(alloc: Global, place: &str) -> Result<String, AllocError> {
    let folder = match place.rsplit_once('/') {
        Some((folder, _)) => folder,
        None => ".",
    };
    format!(in alloc; "{folder}/{PARTIAL}")
}

fn nothing_to_write() -> io::Error {
    io::Error::from(io::ErrorKind::NotFound)
}

impl Writing {
    /// What is to be written to a place; nothing is made yet.
    pub fn of(alloc: Global, path: Path, place: String) -> Result<Writing, AllocError> {
        let partial = partial_of(alloc, place.as_str())?;
        Ok(Writing {
            path,
            place,
            partial,
            file: None,
        })
    }

    /// Makes an empty file beside the place, and the folders in which it lies.
    pub fn make<R: System<File = File>>(&mut self, system: &R, root: &str) -> io::Result<()> {
        make_folders(system, root, self.place.as_str())?;
        // left by a run that was stopped
        let _ = fs::remove_file(system, self.partial.as_str());
        let file = OpenOptions::new()
            .write(true)
            .create_new(true)
            .open(system, self.partial.as_str())?;
        self.file = Some(above_streams(file)?);
        Ok(())
    }

    /// Puts bytes behind the last.
    pub fn put(&mut self, bytes: &[u8]) -> io::Result<()> {
        match &mut self.file {
            Some(file) => file.write_all(bytes),
            None => Err(nothing_to_write()),
        }
    }

    // Sets the time of the last change; where something stands at the place already, all that was written is on the disk before it is replaced.
    fn end<R: System<File = File>>(&mut self, system: &R, mtime: u64) -> io::Result<()> {
        let Some(file) = &self.file else {
            return Err(nothing_to_write());
        };
        let Some(time) = time_of(mtime) else {
            return Err(io::Error::from(io::ErrorKind::InvalidInput));
        };
        file.set_modified(time)?;
        if look_at(system, self.place.as_str())?.is_some() {
            file.sync_all()?;
        }
        Ok(())
    }

    /// Puts the file in its place, with the time of its last change in nanoseconds since 1970.
    pub fn finish<R: System<File = File>>(&mut self, system: &R, mtime: u64) -> io::Result<()> {
        self.end(system, mtime)?;
        fs::rename(system, self.partial.as_str(), self.place.as_str())
    }

    /// Takes what was written away; what stands at the place stays.
    pub fn give_up<R: System<File = File>>(self, system: &R) -> io::Result<()> {
        if self.file.is_none() {
            return Ok(());
        }
        fs::remove_file(system, self.partial.as_str())
    }
}
