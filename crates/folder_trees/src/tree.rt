// A folder of the system as a client's tree.
ghost use Rattle.std.specs.Prelude.{◌≡◌, ◌≤◌, None};
ghost use Rattle.std.specs.Io.{ReadsAtMost};
ghost use Rattle.tree_api.specs.Cause.{Rose};

use crate::found::rows;
use crate::opened::{look_at, open_file, see_folders};
use crate::places::place_of;
use crate::walk::files_below;
use crate::writing::Writing;
use client_trees::{FileRow, ListRefused, Tree};
use kinds::Path;
use std::alloc::{Alloc, Global};
use std::fs::File;
use std::os::unix::fs::FileExt;
use std::rt::Files as System;
use std::{fs, io};
use tree_api::Failed;

// A file that was read last, which is still open.
#[derive(Drop)]
struct Opened {
    path: Path,
    file: File,
}

// A folder with what is open in it.
#[derive(Drop)]
struct Folder<R: System<File = File> + Alloc + Clone + Drop> {
    system: R,
    alloc: Global,
    root: &'static str,
    reading: Option<Opened>,
    writing: Option<Writing>,
    // a file was to be written, of which it isn't known which
    is_lost: bool,
}

impl<R: System<File = File> + Alloc + Clone + Drop> Folder<R> {
    // Where a file lies; one whose path leads elsewhere can't be there.
    fn place(&self, path: &Path) -> io::Result<String> {
        match place_of(self.alloc, self.root, path)? {
            Some(place) => Ok(place),
            None => Err(io::Error::from(io::ErrorKind::InvalidInput)),
        }
    }

    fn open(&self, path: &Path) -> io::Result<Opened> {
        let place = self.place(path)?;
        see_folders(&self.system, self.root, place.as_str())?;
        let file = open_file(&self.system, place.as_str())?;
        Ok(Opened {
            path: path.clone()?,
            file,
        })
    }

    fn is_open(&self, path: &Path) -> bool {
        match &self.reading {
            Some(opened) => opened.path == *path,
            None => false,
        }
    }

    // Reads from the offset on; from the first byte on the file is opened anew.
    fn read(&mut self, path: &Path, offset: u64, into: &mut [u8]) -> io::Result<usize>
        ensures { ReadsAtMost result into.new }
    {
        if offset == 0 || !self.is_open(path) {
            self.reading = None;
            self.reading = Some(self.open(path)?);
        }
        match &self.reading {
            Some(opened) => opened.file.read_at(into, offset),
            None => Err(io::Error::from(io::ErrorKind::NotFound)),
        }
    }

    fn is_written(&self, path: &Path) -> bool {
        match &self.writing {
            Some(writing) => writing.path == *path,
            None => false,
        }
    }

    // What was being written is given up.
    fn give_up(&mut self) -> io::Result<()> {
        match self.writing.take() {
            Some(writing) => writing.give_up(&self.system),
            None => Ok(()),
        }
    }

    fn create(&mut self, path: &Path) -> io::Result<()> {
        self.is_lost = true;
        self.reading = None;
        self.give_up()?;
        let place = self.place(path)?;
        let mut writing = Writing::of(self.alloc, path.clone()?, place)?;
        let made = writing.make(&self.system, self.root);
        self.writing = Some(writing);
        self.is_lost = false;
        made
    }

    fn append(&mut self, path: &Path, bytes: &[u8]) -> io::Result<()> {
        match &mut self.writing {
            Some(writing) if writing.path == *path => writing.put(bytes),
            _ => Err(io::Error::from(io::ErrorKind::NotFound)),
        }
    }

    fn finish(&mut self, path: &Path, mtime: u64) -> io::Result<()> {
        match &mut self.writing {
            Some(writing) if writing.path == *path => writing.finish(&self.system, mtime)?,
            _ => return Err(io::Error::from(io::ErrorKind::NotFound)),
        }
        self.writing = None;
        Ok(())
    }

    // Takes a file away that isn't being written.
    fn remove_whole(&mut self, path: &Path) -> io::Result<()> {
        let place = self.place(path)?;
        match see_folders(&self.system, self.root, place.as_str()) {
            Ok(()) => {}
            Err(error) if error.kind() == io::ErrorKind::NotFound => return Ok(()),
            Err(error) => return Err(error),
        }
        match look_at(&self.system, place.as_str())? {
            Some(seen) if seen.is_file() => fs::remove_file(&self.system, place.as_str()),
            _ => Ok(()),
        }
    }

    // What stood at the path of a file that was to be written, and never was whole, isn't taken away.
    fn remove(&mut self, path: &Path) -> io::Result<()> {
        if self.is_lost {
            self.is_lost = false;
            return Err(io::Error::from(io::ErrorKind::NotFound));
        }
        if self.is_written(path) {
            self.give_up()
        } else {
            self.remove_whole(path)
        }
    }
}

/// A folder of the system as a client's tree. It tells nothing of its files.
///
/// The tree's files are the plain files in the folder and in the folders below it; the path of one is what stands behind the folder's own, and its time of last change counts nanoseconds since
/// 1970 (0 for a time before). No link is followed: links, sockets and devices are no files of the tree, nor are empty folders. A folder that can't be read, a name that isn't UTF-8 and a path of
/// more than 1,024 bytes make a listing fail, as does a tree's folder that isn't there; a file that went while the folder was listed is left out.
///
/// A file is written beside its place, as `.tsm-partial`, and put there by `finish`; so what stood at its path stays until the new file is whole, and stays where it never is: `remove` then takes
/// away only what was written. What a run that was stopped left under that name goes with the next listing, or with the next file that is written into that folder. A path with a part that is
/// empty, `.`, `..` or `.tsm-partial` is refused. Permissions and owners aren't kept.
#[derive(Drop)]
pub struct FolderTree<R: System<File = File> + Alloc + Clone + Drop> {
    folder: Folder<R>,
    faults: u64,
}

impl<R: System<File = File> + Alloc + Clone + Drop> FolderTree<R> {
    /// The tree of the folder at a path. Nothing is done yet.
    pub fn new(system: R, alloc: Global, root: &'static str) -> FolderTree<R>
        ensures told { ⟦<FolderTree<R> as Tree>⟧.files result ≡ None }
        ensures faults { ⟦<FolderTree<R> as Tree>⟧.fault_count result ≡ 0 }
    {
        FolderTree {
            folder: Folder {
                system,
                alloc,
                root,
                reading: None,
                writing: None,
                is_lost: false,
            },
            faults: 0,
        }
    }

    fn count(&mut self) -> Failed
        ensures rose { Rose self.old.faults self.new.faults }
        ensures kept { self.old.faults ≤ self.new.faults }
    {
        self.faults = self.faults.saturating_add(1);
        Failed
    }
}

impl<R: System<File = File> + Alloc + Clone + Drop> Tree for FolderTree<R> {
    ghost files = { λ _. None };

    ghost fault_count = { λ tree. tree.faults };

    fn faults(&self) -> u64 {
        self.faults
    }

    fn list(&mut self, alloc: Global) -> Result<Vec<FileRow>, ListRefused> {
        // what is being written now stays
        let clears = self.folder.writing.is_none();
        let files = match files_below(&self.folder.system, alloc, self.folder.root, clears) {
            Ok(files) => files,
            Err(ListRefused::Memory) => return Err(ListRefused::Memory),
            Err(ListRefused::Failed) => {
                let Failed = self.count();
                return Err(ListRefused::Failed);
            }
        };
        match rows(alloc, &files) {
            Ok(rows) => Ok(rows),
            Err(_) => Err(ListRefused::Memory),
        }
    }

    fn read(&mut self, path: &Path, offset: u64, into: &mut [u8]) -> Result<usize, Failed> {
        match self.folder.read(path, offset, into) {
            Ok(count) => Ok(count),
            Err(_) => Err(self.count()),
        }
    }

    fn create(&mut self, path: &Path) -> Result<(), Failed> {
        match self.folder.create(path) {
            Ok(()) => Ok(()),
            Err(_) => Err(self.count()),
        }
    }

    fn append(&mut self, path: &Path, bytes: &[u8]) -> Result<(), Failed> {
        match self.folder.append(path, bytes) {
            Ok(()) => Ok(()),
            Err(_) => Err(self.count()),
        }
    }

    fn finish(&mut self, path: &Path, mtime: u64) -> Result<(), Failed> {
        match self.folder.finish(path, mtime) {
            Ok(()) => Ok(()),
            Err(_) => Err(self.count()),
        }
    }

    fn remove(&mut self, path: &Path) -> Result<(), Failed> {
        match self.folder.remove(path) {
            Ok(()) => Ok(()),
            Err(_) => Err(self.count()),
        }
    }
}
