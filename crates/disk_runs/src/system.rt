//! What is asked of the system itself: its folders, links and files.
use crate::answer::{Fault, done, number_text, word_text};
use std::fs;
use std::os::unix::fs::symlink;

fn make(rt: &HostRuntime, path: &str) -> Result<String, Fault> {
    fs::create_dir(rt, path)?;
    done(rt.alloc())
}

fn link(rt: &HostRuntime, to: &str, path: &str) -> Result<String, Fault> {
    symlink(rt, to, path)?;
    done(rt.alloc())
}

fn remove(rt: &HostRuntime, path: &str) -> Result<String, Fault> {
    fs::remove_file(rt, path)?;
    done(rt.alloc())
}

/// Takes a folder away with all that is in it, where it is there.
fn clear(rt: &HostRuntime, path: &str) -> Result<String, Fault> {
    let _ = fs::remove_dir_all(rt, path);
    done(rt.alloc())
}

/// How many bytes a file has.
fn size(rt: &HostRuntime, path: &str) -> Result<String, Fault> {
    match fs::metadata(rt, path) {
        Ok(metadata) => number_text(rt.alloc(), metadata.len()),
        Err(_) => word_text(rt.alloc(), "missing"),
    }
}

/// What a line to the system is answered.
pub fn answer(rt: &HostRuntime, words: &[&str]) -> Result<String, Fault> {
    match words {
        ["make", path] => make(rt, path),
        ["link", to, path] => link(rt, to, path),
        ["remove", path] => remove(rt, path),
        ["clear", path] => clear(rt, path),
        ["size", path] => size(rt, path),
        _ => Err(Fault::NoCommand),
    }
}
