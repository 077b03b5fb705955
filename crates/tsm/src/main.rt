//! The program: a script of commands on standard input, answers on standard output, an exit status, a folder as the store, and folders as the clients' trees.
#![tactic(auto)]

mod rules;

use choosers::Binder;
use crew::OpenGate;
use folder_trees::FolderTree;
use real_edge::{FolderStore, RealFiles, StdSink, StdSource};
use rules::{NoRules, read_list};
use std::alloc::{Alloc, AllocError, Global};
use std::env::Env;
use std::fs::File;
use std::process::ExitCode;
use std::rt::Files;
use std::{env, fs, io};
use tree_api::{Sink, put_all};
use tsm_top::serve;

// The store's folder, in the folder that the program is run in.
const FOLDER: &str = "store";

// The folders of the clients' trees, by their numbers.
const TREES: [&str; 8] = [
    "tree0", "tree1", "tree2", "tree3", "tree4", "tree5", "tree6", "tree7",
];

const NO_COMMAND: u8 = 2;

const SINK_FAULT: u8 = 4;

const NO_MEMORY: u8 = 8;

const RULES_FAULT: u8 = 10;

fn main(rt: HostRuntime) -> ExitCode {
    let alloc = rt.alloc();
    let mut out = StdSink::new(io::writer(&rt));
    let trees = match trees(&rt, alloc) {
        Ok(trees) => trees,
        Err(_) => return ExitCode::from(end_with(NO_MEMORY, b"MEMORY\n", &mut out)),
    };
    let binder = match read_list(&rt, alloc) {
        Ok(rules) => Binder::new(rules),
        Err(why) => return ExitCode::from(no_rules(why, &mut out)),
    };
    let words = match words(&rt) {
        Ok(words) => words,
        Err(error) => return ExitCode::from(refused(&error, &mut out)),
    };
    let store = FolderStore::new(RealFiles::new(rt, alloc, FOLDER), alloc);
    let mut script = StdSource::new(rt.reader());
    let ended = serve(
        &rt,
        alloc,
        &words,
        store,
        trees,
        &mut script,
        &mut out,
        &OpenGate,
        binder,
    );
    let status = ended.status;
    drop(ended);
    ExitCode::from(status)
}

// Whether there is no folder of this name. One that can't be looked at counts as there: what is asked of its files fails.
fn is_missing<R: Files>(system: &R, name: &str) -> bool {
    match fs::metadata(system, name) {
        Ok(seen) => !seen.is_dir(),
        Err(error) => error.kind() == io::ErrorKind::NotFound,
    }
}

// The clients' trees: the folders up to the first that is missing.
fn trees<R: Files<File = File> + Alloc + Clone + Copy + Drop>(
    system: &R,
    alloc: Global,
) -> Result<Vec<FolderTree<R>>, AllocError> {
    let mut trees = Vec::new(alloc);
    for name in TREES {
        if is_missing(system, name) {
            return Ok(trees);
        }
        trees.push(FolderTree::new(*system, alloc, name))?;
    }
    Ok(trees)
}

// The words behind the program's name.
fn words<R: Env + AllocGlobal>(rt: &R) -> io::Result<Vec<String<Global>>> {
    let mut words = Vec::new(rt.alloc());
    for word in env::args(rt)?.skip(1) {
        words.push(word)?;
    }
    Ok(words)
}

// Puts the one line of a call that does nothing else, and answers its status; the sink may fail at it.
fn end_with<O: Sink>(status: u8, line: &[u8], out: &mut O) -> u8 {
    match put_all(out, line) {
        Ok(()) => status,
        Err(_) => SINK_FAULT,
    }
}

// The status where the words can't be read: a word that is no text is no command.
fn refused<O: Sink>(error: &io::Error, out: &mut O) -> u8 {
    match error.kind() {
        io::ErrorKind::OutOfMemory => end_with(NO_MEMORY, b"MEMORY\n", out),
        _ => end_with(NO_COMMAND, tsm_top::USAGE, out),
    }
}

// The status where there is no include-exclude list.
fn no_rules<O: Sink>(why: NoRules, out: &mut O) -> u8 {
    match why {
        NoRules::Fault => end_with(RULES_FAULT, b"RULES FAULT\n", out),
        NoRules::Refused => end_with(NO_COMMAND, tsm_top::USAGE, out),
        NoRules::Memory => end_with(NO_MEMORY, b"MEMORY\n", out),
    }
}
