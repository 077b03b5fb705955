// Folders and files that are looked at: no link is followed.

use std::fs::{File, Metadata};
use std::os::unix::fs::MetadataExt;
use std::rt::Files as System;
use std::{fs, io};

// What stands at a place itself, which is no link's target; none where nothing does.
pub(crate) fn look_at<R: System>(system: &R, place: &str) -> io::Result<Option<Metadata>> {
    match fs::symlink_metadata(system, place) {
        Ok(seen) => Ok(Some(seen)),
        Err(error) if error.kind() == io::ErrorKind::NotFound => Ok(None),
        Err(error) => Err(error),
    }
}

fn is_folder<R: System>(system: &R, place: &str) -> io::Result<bool> {
    Ok(fs::symlink_metadata(system, place)?.is_dir())
}

// Refuses a place of which what stands in front of a slash, behind the first so many bytes, is no folder but a link to one, say.
pub(crate) fn see_folders<R: System>(system: &R, root: &str, place: &str) -> io::Result<()> {
    for end in root.len() + 1..place.len() {
        match place.split_at_checked(end) {
            Some((folder, rest)) if rest.starts_with('/') => {
                if !is_folder(system, folder)? {
                    return Err(io::Error::from(io::ErrorKind::NotADirectory));
                }
            }
            _ => {}
        }
    }
    Ok(())
}

// Makes a folder where none is.
fn make_folder<R: System>(system: &R, place: &str) -> io::Result<()> {
    match fs::create_dir(system, place) {
        Ok(()) => Ok(()),
        Err(error) if error.kind() == io::ErrorKind::AlreadyExists => {
            if is_folder(system, place)? {
                Ok(())
            } else {
                Err(io::Error::from(io::ErrorKind::NotADirectory))
            }
        }
        Err(error) => Err(error),
    }
}

// Makes the folders in which a file is to lie, where they aren't there.
pub(crate) fn make_folders<R: System>(system: &R, root: &str, place: &str) -> io::Result<()> {
    for end in root.len() + 1..place.len() {
        match place.split_at_checked(end) {
            Some((folder, rest)) if rest.starts_with('/') => make_folder(system, folder)?,
            _ => {}
        }
    }
    Ok(())
}

// Opens the file at a place to be read. What is no file but a link or a device isn't opened, and what was put in its place meanwhile isn't read.
pub(crate) fn open_file<R: System<File = File>>(system: &R, place: &str) -> io::Result<File> {
    let seen = fs::symlink_metadata(system, place)?;
    if !seen.is_file() {
        return Err(io::Error::from(io::ErrorKind::InvalidInput));
    }
    let file = File::open(system, place)?;
    let opened = file.metadata()?;
    if opened.dev() == seen.dev() && opened.ino() == seen.ino() {
        Ok(file)
    } else {
        Err(io::Error::from(io::ErrorKind::InvalidInput))
    }
}
