//! The files of a folder by their names, in memory and of the system.
use crate::answer::{Fault, bytes_text, done, number_text, truth_text, word_text};
use crate::words::{bytes, large, numbers};
use files_api::{Files, Stop};
use mem_files::MemFiles;
use real_edge::RealFiles;
use std::alloc::{AllocError, Global};
use std::mem;

/// The folder of the system whose files may be called by their names. Its path has to last as long as the program.
const FOLDER: &str = "named";

/// Makes the folder, where it is missing, and locks it.
fn enter<F: Files>(files: &mut F) -> Result<(), Fault> {
    files.make()?;
    files.sync_parent()?;
    files.lock()?;
    Ok(())
}

/// The file of this name, open.
fn opened<F: Files>(files: &mut F, name: &str) -> Result<F::Handle, Fault> {
    match files.open(name)? {
        Some(handle) => Ok(handle),
        None => Err(Fault::Missing),
    }
}

fn make<F: Files>(
    alloc: Global,
    files: &mut F,
    name: &str,
    pieces: &[&str],
) -> Result<String, Fault> {
    let bytes = bytes(alloc, pieces)?;
    let handle = files.create(name)?;
    let count = files.write_at(&handle, 0, &bytes)?;
    number_text(alloc, count as u64)
}

fn sync<F: Files>(alloc: Global, files: &mut F, name: &str) -> Result<String, Fault> {
    let handle = opened(files, name)?;
    files.sync(&handle)?;
    done(alloc)
}

/// What the file begins with, 16 bytes at most.
fn show<F: Files>(alloc: Global, files: &mut F, name: &str) -> Result<String, Fault> {
    let handle = opened(files, name)?;
    let mut into = [0; 16];
    let count = files.read_at(&handle, 0, &mut into)?;
    bytes_text(alloc, &into[..count])
}

/// The names one behind the other, `-` where there are none.
fn joined(alloc: Global, names: &[String]) -> Result<String, AllocError> {
    let mut text = String::new(alloc);
    for name in names {
        if !text.is_empty() {
            text.push(' ')?;
        }
        text.push_str(name)?;
    }
    Ok(text)
}

/// The names in ascending order.
fn list<F: Files>(alloc: Global, files: &mut F) -> Result<String, Fault> {
    let mut names = files.list()?;
    if names.is_empty() {
        return word_text(alloc, "-");
    }
    names.sort_unstable();
    Ok(joined(alloc, &names)?)
}

fn rename<F: Files>(alloc: Global, files: &mut F, from: &str, to: &str) -> Result<String, Fault> {
    files.rename(from, to)?;
    done(alloc)
}

fn remove<F: Files>(alloc: Global, files: &mut F, name: &str) -> Result<String, Fault> {
    truth_text(alloc, files.remove(name)?)
}

fn settle<F: Files>(alloc: Global, files: &mut F) -> Result<String, Fault> {
    files.sync_names()?;
    done(alloc)
}

/// What a call on the files is answered.
fn answer<F: Files>(alloc: Global, files: &mut F, words: &[&str]) -> Result<String, Fault> {
    match words {
        ["make", name, pieces @ ..] => make(alloc, files, name, pieces),
        ["sync", name] => sync(alloc, files, name),
        ["show", name] => show(alloc, files, name),
        ["list"] => list(alloc, files),
        ["rename", from, to] => rename(alloc, files, from, to),
        ["remove", name] => remove(alloc, files, name),
        ["settle"] => settle(alloc, files),
        _ => Err(Fault::NoCommand),
    }
}

/// The files of a folder in memory, and of one of the system.
#[derive(Drop)]
pub struct Names {
    memory: MemFiles,
    real: RealFiles<HostRuntime>,
}

impl Names {
    /// An empty folder in memory, and one of the system, which were not entered yet.
    pub fn new(rt: HostRuntime) -> Names {
        let alloc = rt.alloc();
        Names {
            memory: MemFiles::new(alloc),
            real: RealFiles::new(rt, alloc, FOLDER),
        }
    }

    fn begin(&mut self, alloc: Global, calls: &[&str]) -> Result<String, Fault> {
        let calls = numbers(alloc, calls)?;
        drop(mem::replace(&mut self.memory, MemFiles::new(alloc)));
        enter(&mut self.memory)?;
        let files = mem::replace(&mut self.memory, MemFiles::new(alloc));
        let files = files.with_failing(calls, usize::MAX);
        drop(mem::replace(&mut self.memory, files));
        done(alloc)
    }

    fn stop(&mut self, alloc: Global, choice: &str) -> Result<String, Fault> {
        let choice = large(choice)?;
        let files = mem::replace(&mut self.memory, MemFiles::new(alloc));
        drop(mem::replace(&mut self.memory, files.stop(choice)));
        enter(&mut self.memory)?;
        done(alloc)
    }

    fn enter_real(&mut self, alloc: Global) -> Result<String, Fault> {
        enter(&mut self.real)?;
        done(alloc)
    }

    /// What a line about the files in memory is answered.
    pub fn on_memory(&mut self, alloc: Global, words: &[&str]) -> Result<String, Fault> {
        match words {
            ["new", calls @ ..] => self.begin(alloc, calls),
            ["stop", choice] => self.stop(alloc, choice),
            _ => answer(alloc, &mut self.memory, words),
        }
    }

    /// What a line about the files of the system is answered.
    pub fn on_real(&mut self, alloc: Global, words: &[&str]) -> Result<String, Fault> {
        match words {
            ["enter"] => self.enter_real(alloc),
            _ => answer(alloc, &mut self.real, words),
        }
    }
}
