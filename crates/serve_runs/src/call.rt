//! A call of the server, and what it leaves.
use choosers::Binder;
use client_trees::{MemTree, Tree};
use crew::{Gate, OpenGate};
use mem_files::{MemReader, MemWriter};
use real_edge::{StdSink, StdSource};
use std::alloc::{AllocError, Global};
use std::io::Read;
use std::sync::Wait;
use std::thread::Threads;
use store_api::Store;
use tsm_top::{Ended, serve};

/// What a call is made over, and what it leaves of that.
#[derive(Drop)]
pub struct Under<S: Store, T: Tree> {
    pub store: S,
    pub trees: Vec<T>,
}

/// What a call put, and what it left beside the store and the trees.
#[derive(Drop)]
pub struct Said {
    pub put: Vec<u8>,
    pub status: u8,
    /// How many transactions it made.
    pub made: usize,
    /// Of how many it says when they were durable.
    pub stamped: usize,
    /// The newest image's generation.
    pub generation: u64,
    /// Whether a database was opened.
    pub is_open: bool,
    /// How many bytes of the script it didn't read.
    pub unread: usize,
}

/// How many bytes are still to come.
fn unread(reader: &mut MemReader) -> usize {
    let mut bytes = [0; 1024];
    let mut total: usize = 0;
    for _ in 0..1024 {
        match reader.read(&mut bytes) {
            Ok(0) => return total,
            Ok(count) => total = total.saturating_add(count),
            Err(_) => {}
        }
    }
    total
}

/// What a call left, by its parts; what it put is still to be filled in.
fn parts<S: Store + Drop, T: Tree + Drop>(
    alloc: Global,
    ended: Ended<S, T>,
    unread: usize,
) -> (Under<S, T>, Said) {
    let Ended {
        status,
        store,
        trees,
        journal,
        stamps,
        notes,
        base,
        generation,
        opened: _,
    } = ended;
    let said = Said {
        put: Vec::new(alloc),
        status,
        made: journal.len(),
        stamped: stamps.len(),
        generation,
        is_open: base.is_some(),
        unread,
    };
    drop(journal);
    drop(notes);
    drop(base);
    (Under { store, trees }, said)
}

/// The words, each its own.
fn owned(alloc: Global, words: &[&str]) -> Result<Vec<String>, AllocError> {
    let mut all = Vec::new(alloc);
    for word in words {
        all.push(String::from_str(alloc, word)?)?;
    }
    Ok(all)
}

/// Calls the server, as the program does: over streams of which each call is one of the reader or the writer.
pub fn call<
    S: Store + Drop + Send,
    T: Tree + Drop + Send,
    R: Threads + Wait + Sync,
    G: Gate + Sync,
>(
    rt: &R,
    alloc: Global,
    words: &[&str],
    under: Under<S, T>,
    binder: Binder,
    reader: MemReader,
    writer: MemWriter,
    gate: &G,
) -> Result<(Under<S, T>, Said), AllocError> {
    let words = owned(alloc, words)?;
    let Under { store, trees } = under;
    let mut reader = reader;
    let mut writer = writer;
    let mut script = StdSource::new(&mut reader);
    let mut out = StdSink::new(&mut writer);
    let ended = serve(
        rt,
        alloc,
        &words,
        store,
        trees,
        &mut script,
        &mut out,
        gate,
        binder,
    );
    let (under, mut said) = parts(alloc, ended, unread(&mut reader));
    said.put = writer.bytes().to_vec(alloc)?;
    Ok((under, said))
}

/// The same with no trees and no include-exclude list.
pub fn call_alone<S: Store + Drop + Send, R: Threads + Wait + Sync>(
    rt: &R,
    alloc: Global,
    words: &[&str],
    store: S,
    reader: MemReader,
    writer: MemWriter,
) -> Result<(S, Said), AllocError> {
    let under = Under {
        store,
        trees: Vec::<MemTree>::new(alloc),
    };
    let binder = Binder::new(Vec::new(alloc));
    let (under, said) = call(rt, alloc, words, under, binder, reader, writer, &OpenGate)?;
    let Under { store, trees } = under;
    drop(trees);
    Ok((store, said))
}

/// What was put, as text.
pub fn text_of(said: &Said) -> &str {
    match str::from_utf8(&said.put) {
        Ok(text) => text,
        Err(_) => "no text",
    }
}

/// The last line of what was put.
pub fn last_line(said: &Said) -> &str {
    match text_of(said).lines().last() {
        Some(line) => line,
        None => "",
    }
}

/// What a call left, in words behind what it put.
pub fn words_of(alloc: Global, said: &Said, put: &str) -> Result<String, AllocError> {
    let gap = if put.is_empty() || put.ends_with('\n') {
        ""
    } else {
        "\n"
    };
    let Said {
        put: _,
        status,
        made,
        stamped,
        generation,
        is_open,
        unread,
    } = said;
    if *is_open {
        format!(in alloc;
            "{put}{gap}status {status}, {made} transactions, {stamped} stamped, image {generation}"
        )
    } else {
        format!(in alloc; "{put}{gap}status {status}, no database, {unread} bytes unread")
    }
}
