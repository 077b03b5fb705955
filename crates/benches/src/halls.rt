//! Steps of one actor on a hall over a folder, and the calls of the folder alone.
use crate::fault::Fault;
use crate::text::Text;
use crate::{plain, said, storing};
use real_edge::{FolderStore, RealFiles};
use std::alloc::Global;
use std::io;
use std::io::Write;
use std::process::ExitCode;
use store_api::Store;

/// The store's folder, in the folder that the program is run in.
const FOLDER: &str = "store";

/// What is done.
#[derive(Clone, Copy, Debug, PartialEq, Eq)]
enum Kind {
    /// Objects are stored in the pool with this number.
    Store(u32),
    Read,
    Write,
    Look,
}

/// What is done, with how many objects or pieces of them.
#[derive(Drop)]
struct Task {
    kind: Kind,
    count: u64,
    text: Text,
}

fn kind_of(word: &str) -> Result<Kind, Fault> {
    match word {
        "random" => Ok(Kind::Store(1)),
        "sequential" => Ok(Kind::Store(2)),
        "read" => Ok(Kind::Read),
        "write" => Ok(Kind::Write),
        "look" => Ok(Kind::Look),
        _ => Err(Fault::NoCommand),
    }
}

fn number(word: &str) -> Result<u64, Fault> {
    word.parse::<u64>().ok().ok_or(Fault::NoCommand)
}

/// What the words ask.
fn task_of(alloc: Global, words: &[&str]) -> Result<Task, Fault> {
    let [word, count, size] = words else {
        return Err(Fault::NoCommand);
    };
    let kind = kind_of(word)?;
    let count = number(count)?;
    let text = Text::new(alloc, number(size)?)?;
    Ok(Task { kind, count, text })
}

/// Does it.
fn make<S: Store + Drop, W: Write>(
    alloc: Global,
    store: S,
    task: &Task,
    out: &mut W,
) -> Result<(), Fault> {
    let Task { kind, count, text } = task;
    let mut store = store;
    match kind {
        Kind::Store(pool) => storing::store_new(alloc, store, *pool, text, *count, out),
        Kind::Read => storing::read_old(alloc, store, text, *count, out),
        Kind::Write => {
            let made = plain::write_new(&mut store, text, *count, out);
            drop(store);
            made
        }
        Kind::Look => {
            let made = plain::read_old(alloc, &mut store, text, *count, out);
            drop(store);
            made
        }
    }
}

/// Prints why nothing more is done.
fn tell<W: Write>(alloc: Global, fault: &Fault, out: &mut W) -> Result<(), Fault> {
    let line = format!(in alloc; "{fault:?}\n")?;
    said::say(out, line.as_bytes())
}

/// Does what the words ask.
pub(crate) fn run(rt: HostRuntime, words: &[&str]) -> ExitCode {
    let alloc = rt.alloc();
    let mut out = io::writer(&rt);
    let ended = match task_of(alloc, words) {
        Ok(task) => {
            let store = FolderStore::new(RealFiles::new(rt, alloc, FOLDER), alloc);
            make(alloc, store, &task, &mut out)
        }
        Err(fault) => Err(fault),
    };
    match ended {
        Ok(()) => ExitCode::SUCCESS,
        Err(fault) => {
            let _ = tell(alloc, &fault, &mut out).is_ok();
            ExitCode::FAILURE
        }
    }
}
