//! What is tried over and over with another call that fails, and what comes of it once.
use crate::call::{Said, call_alone, text_of, words_of};
use crate::files::FILES;
use hex::encode;
use mem_files::{MemReader, MemWriter};
use std::alloc::{AllocError, Global};
use std::sync::Wait;
use std::thread::Threads;
use store_api::Store;
use tree_api::{MemSink, MemSource};

/// More calls than any script comes to.
pub const MOST: u64 = 1000;

/// So many calls fail from one on: all that a run still makes.
const REST: u64 = 64;

/// A script, the choice by which the machine stops, the GETs of all files that the script stores, and what answers each.
#[derive(Drop)]
pub struct Trial<'a, R> {
    pub rt: &'a R,
    pub alloc: Global,
    pub choice: u64,
    pub script: String,
    gets: String,
    answers: Vec<String>,
}

/// How a run went all of whose calls fail from one on, and what is shown after the stop there.
#[derive(Drop)]
pub struct Stopped {
    /// How many files it said that it stored.
    pub stored: usize,
    pub shown: char,
    /// Whether no call failed.
    pub is_whole: bool,
}

/// How a run went of which one call fails.
#[derive(Drop)]
pub struct Failed {
    pub status: u8,
    /// The first of the files with faults.
    pub file: char,
    /// How many faults there are.
    pub faults: u64,
}

/// How a script went over a store behind openings of which the calls fail from one on, and whether one failed in the first and in
/// the second.
#[derive(Drop)]
pub struct Opened {
    pub words: String,
    pub has_failed: bool,
    pub has_failed_again: bool,
}

/// The sign of a number below ten.
pub fn digit(number: usize) -> char {
    match char::from_digit((number % 10) as u32, 10) {
        Some(sign) => sign,
        None => '!',
    }
}

/// Of a line that stores a file where that is to be stored, without the time, and the text.
fn stored_by(line: &str) -> Option<(&str, &str)> {
    let rest = line.strip_prefix("PUT ")?;
    let (front, text) = rest.split_once(" TEXT=")?;
    let (place, _) = front.rsplit_once(' ')?;
    Some((place, text))
}

/// What answers the GET of a file as the line with this number: its object has the same number.
fn shown_as(alloc: Global, text: &str, number: usize) -> Result<String, AllocError> {
    let digits = encode(alloc, text.as_bytes())?;
    let size = text.len();
    format!(in alloc; "{number} DATA {digits}\n{number} OK object={number} size={size}\n")
}

impl<'a, R> Trial<'a, R> {
    /// The trial of a script.
    pub fn new(
        rt: &'a R,
        alloc: Global,
        choice: u64,
        script: String,
    ) -> Result<Trial<'a, R>, AllocError> {
        let mut gets = String::new(alloc);
        let mut answers = Vec::new(alloc);
        for line in script.lines() {
            if let Some((place, text)) = stored_by(line) {
                let get = format!(in alloc; "GET {place}\n")?;
                gets.push_str(&get)?;
                let answer = shown_as(alloc, text, answers.len().saturating_add(1))?;
                answers.push(answer)?;
            }
        }
        Ok(Trial {
            rt,
            alloc,
            choice,
            script,
            gets,
            answers,
        })
    }

    /// How many of the files a call showed.
    fn count_shown(&self, said: &Said) -> usize {
        let text = text_of(said);
        let mut count: usize = 0;
        for answer in &self.answers {
            if text.contains(answer.as_str()) {
                count = count.saturating_add(1);
            }
        }
        count
    }
}

/// How many files a call said that it stored.
fn count_stored(said: &Said) -> usize {
    let mut count: usize = 0;
    for line in text_of(said).lines() {
        if line.contains(" OK object=") && !line.contains(" size=") {
            count = count.saturating_add(1);
        }
    }
    count
}

/// The calls from this one on, as many as a run still has.
pub fn from(alloc: Global, call: u64) -> Result<Vec<u64>, AllocError> {
    let mut calls = Vec::new(alloc);
    for more in 0..REST {
        calls.push(call.saturating_add(more))?;
    }
    Ok(calls)
}

/// A call of the server over a store with these words, and with a script.
pub fn ask<S: Store + Drop + Send, R: Threads + Wait + Sync>(
    rt: &R,
    alloc: Global,
    words: &[&str],
    store: S,
    script: &str,
) -> Result<(S, Said), AllocError> {
    let reader = MemReader::new(MemSource::new(alloc, script.as_bytes().to_vec(alloc)?));
    let writer = MemWriter::new(MemSink::new(alloc), usize::MAX);
    call_alone(rt, alloc, words, store, reader, writer)
}

/// The same with one word.
pub fn run<S: Store + Drop + Send, R: Threads + Wait + Sync>(
    rt: &R,
    alloc: Global,
    word: &str,
    store: S,
    script: &str,
) -> Result<(S, Said), AllocError> {
    ask(rt, alloc, &[word], store, script)
}

/// What is shown over a store, where no call fails.
pub fn shown_over<S: Store + Drop + Send, R: Threads + Wait + Sync>(
    trial: &Trial<'_, R>,
    store: S,
) -> Result<char, AllocError> {
    let (store, opened) = run(trial.rt, trial.alloc, "run", store, "")?;
    match text_of(&opened) {
        "NOT FORMATTED\n" => Ok('-'),
        "END 0 0 0\n" => {
            let (store, said) = run(trial.rt, trial.alloc, "run", store, &trial.gets)?;
            drop(store);
            Ok(digit(trial.count_shown(&said)))
        }
        _ => Ok('!'),
    }
}

/// How a run went, over what a stop has left.
pub fn stopped_over<S: Store + Drop + Send, R: Threads + Wait + Sync>(
    trial: &Trial<'_, R>,
    said: &Said,
    left: S,
) -> Result<Stopped, AllocError> {
    Ok(Stopped {
        stored: count_stored(said),
        shown: shown_over(trial, left)?,
        is_whole: said.status == 0,
    })
}

/// How a run went that left this store.
pub fn failed_over<S: Store>(store: &S, status: u8) -> Failed {
    let mut first = '-';
    let mut total: u64 = 0;
    for file in 0..FILES {
        let faults = store.faults(file);
        if faults > 0 && first == '-' {
            first = digit(file as usize);
        }
        total = total.saturating_add(faults);
    }
    Failed {
        status,
        file: first,
        faults: total,
    }
}

/// What the script is answered over a store, and how that run ends.
pub fn answers<S: Store + Drop + Send, R: Threads + Wait + Sync>(
    trial: &Trial<'_, R>,
    store: S,
) -> Result<String, AllocError> {
    let (store, said) = run(trial.rt, trial.alloc, "run", store, &trial.script)?;
    drop(store);
    words_of(trial.alloc, &said, text_of(&said))
}
