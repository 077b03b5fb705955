// The files of a folder of the system.
ghost use Rattle.std.specs.Prelude.{None, []};

use crate::names::{parent_of, path_of};
use files_api::{Failed, Files, ListRefused};
use std::alloc::{Alloc, AllocError, Global};
use std::fs::{File, OpenOptions};
use std::os::fd::AsRawFd;
use std::os::unix::fs::FileExt;
use std::rt::Files as System;
use std::{fs, io};

// The name of the file that is locked while the folder is in use.
const LOCK: &str = "lock";

/// The files of a folder of the system. They tell nothing. Each call is one call of the system, beside those that open and close what
/// it needs and those by which a list goes on; the system's error is kept for nobody. What a link that stands in the folder points
/// to is never renamed or removed, but the link itself. The lock is a file `lock` in the folder, which the list leaves out.
#[derive(Drop)]
pub struct RealFiles<R: System<File = File> + Alloc + Clone + Drop> {
    system: R,
    alloc: Global,
    path: &'static str,
    // held as long as the folder is in use
    lock: Option<File>,
}

impl<R: System<File = File> + Alloc + Clone + Drop> RealFiles<R> {
    /// The files in the folder at a path. Nothing is done yet; the folder that it lies in must be there.
    pub fn new(system: R, alloc: Global, path: &'static str) -> RealFiles<R> {
        RealFiles {
            system,
            alloc,
            path,
            lock: None,
        }
    }

    fn open_with(&self, options: &OpenOptions, name: &str) -> io::Result<File> {
        let path = path_of(self.alloc, self.path, name)?;
        above_streams(options.open(&self.system, path.as_str())?)
    }

    fn sync_folder(&self, path: &str) -> io::Result<()> {
        above_streams(File::open(&self.system, path)?)?.sync_all()
    }

    fn rename_file(&self, from: &str, to: &str) -> io::Result<()> {
        let from = path_of(self.alloc, self.path, from)?;
        let to = path_of(self.alloc, self.path, to)?;
        fs::rename(&self.system, from.as_str(), to.as_str())
    }

    fn remove_file(&self, name: &str) -> io::Result<()> {
        let path = path_of(self.alloc, self.path, name)?;
        fs::remove_file(&self.system, path.as_str())
    }

    fn take_lock(&mut self) -> io::Result<()> {
        let file = self.open_with(OpenOptions::new().read(true).write(true).create(true), LOCK)?;
        file.try_lock()?;
        self.lock = Some(file);
        Ok(())
    }
}

/// The same open file under a descriptor above those of the standard streams: where one of these was closed when the program
/// began, what is meant for it must not land in a file.
pub fn above_streams(file: File) -> io::Result<File> {
    if file.as_raw_fd() <= 2 {
        file.try_clone()
    } else {
        Ok(file)
    }
}

// The answer without the system's error.
fn plain<T>(answer: io::Result<T>) -> Result<T, Failed> {
    match answer {
        Ok(done) => Ok(done),
        Err(_) => Err(Failed),
    }
}

// Why the list ends before its end.
fn refusal_of(error: &io::Error) -> ListRefused {
    match error.kind() {
        io::ErrorKind::InvalidFilename => ListRefused::NotText,
        io::ErrorKind::OutOfMemory => ListRefused::Memory,
        _ => ListRefused::Failed,
    }
}

// Adds a name to the list, but that of the lock.
fn add_name(alloc: Global, names: &mut Vec<String>, name: &str) -> Result<(), AllocError> {
    if name != LOCK {
        names.push(String::from_str(alloc, name)?)?;
    }
    Ok(())
}

fn length_of(file: &File) -> io::Result<u64> {
    Ok(file.metadata()?.len())
}

impl<R: System<File = File> + Alloc + Clone + Drop> Files for RealFiles<R> {
    type Handle = File;

    ghost told = { λ _. None };

    ghost label_of = { λ _. record { name = []; turn = 0 } };

    ghost settled = { λ _. record {} };

    fn make(&mut self) -> Result<(), Failed> {
        match fs::create_dir(&self.system, self.path) {
            Err(error) if error.kind() != io::ErrorKind::AlreadyExists => Err(Failed),
            _ => Ok(()),
        }
    }

    fn sync_parent(&mut self) -> Result<(), Failed> {
        match parent_of(self.path) {
            Some(parent) => plain(self.sync_folder(parent)),
            None => Ok(()),
        }
    }

    fn lock(&mut self) -> Result<(), Failed> {
        plain(self.take_lock())
    }

    fn open(&mut self, name: &str) -> Result<Option<File>, Failed> {
        match self.open_with(OpenOptions::new().read(true).write(true), name) {
            Ok(file) => Ok(Some(file)),
            Err(error) if error.kind() == io::ErrorKind::NotFound => Ok(None),
            Err(_) => Err(Failed),
        }
    }

    fn create(&mut self, name: &str) -> Result<File, Failed> {
        plain(self.open_with(
            OpenOptions::new().read(true).write(true).create_new(true),
            name,
        ))
    }

    fn len(&mut self, handle: &File) -> Result<u64, Failed> {
        plain(length_of(handle))
    }

    fn read_at(&mut self, handle: &File, offset: u64, into: &mut [u8]) -> Result<usize, Failed> {
        match handle.read_at(into, offset) {
            Ok(count) => Ok(count),
            Err(_) => Err(Failed),
        }
    }

    fn write_at(&mut self, handle: &File, offset: u64, bytes: &[u8]) -> Result<usize, Failed> {
        match handle.write_at(bytes, offset) {
            Ok(count) => Ok(count),
            Err(_) => Err(Failed),
        }
    }

    fn cut(&mut self, handle: &File, len: u64) -> Result<(), Failed> {
        plain(handle.set_len(len))
    }

    fn sync(&mut self, handle: &File) -> Result<(), Failed> {
        plain(handle.sync_all())
    }

    fn sync_names(&mut self) -> Result<(), Failed> {
        plain(self.sync_folder(self.path))
    }

    fn list(&mut self) -> Result<Vec<String>, ListRefused> {
        let entries = match fs::read_dir(&self.system, self.path) {
            Ok(entries) => entries,
            Err(error) if error.kind() == io::ErrorKind::OutOfMemory => {
                return Err(ListRefused::Memory);
            }
            Err(_) => return Err(ListRefused::Failed),
        };
        let mut names = Vec::new(self.alloc);
        for entry in entries {
            let entry = match entry {
                Ok(entry) => entry,
                Err(error) => return Err(refusal_of(&error)),
            };
            match add_name(self.alloc, &mut names, entry.file_name()) {
                Ok(()) => {}
                Err(_) => return Err(ListRefused::Memory),
            }
        }
        Ok(names)
    }

    fn rename(&mut self, from: &str, to: &str) -> Result<(), Failed> {
        plain(self.rename_file(from, to))
    }

    fn remove(&mut self, name: &str) -> Result<bool, Failed> {
        match self.remove_file(name) {
            Ok(()) => Ok(true),
            Err(error) if error.kind() == io::ErrorKind::NotFound => Ok(false),
            Err(_) => Err(Failed),
        }
    }
}
