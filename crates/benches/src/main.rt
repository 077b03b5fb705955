//! Programs that are timed, one for each script under bench/ that times a library. The first argument says which, and the others how much it does; with none each does a little.
//!
//!     benches paths [paths | bytes [COUNT]]
//!     benches rules [PATHS]
//!     benches extents [BLOCKS [COUNT]]
//!     benches entries [encode | decode | copy [COUNT]]
//!     benches objects [COUNT [STEPS]]
//!     benches words [LINES [split]]
//!     benches space [random | sequential [VOLUMES [COUNT [ROOM [TICKETS [PARTS]]]]]]
//!     benches inventory [COUNT [STEPS [TIMES]]]
//!     benches vault [COUNT [STEPS]]
//!     benches phases [COMMITS [VERSIONS [TIMES]]]
//!
//! Steps of one actor on a hall over the folder `store` are timed by the lines that are printed: `ready`, then how many objects there are, about a hundred times, and `done`; and beside them the
//! calls of the folder alone.
//!
//!     benches hall random COUNT SIZE       makes a new store, and stores so many objects of so many bytes in a pool of random access, 32 in a transaction, with one force behind all
//!     benches hall sequential COUNT SIZE   the same in a sequential pool
//!     benches hall read COUNT SIZE         reads so many pieces of the objects of a store, which have so many bytes, one object after the other
//!     benches hall write COUNT SIZE        writes and hashes as many bytes with no hall, one behind the other in one file, with a sync behind each 32 objects and one behind all
//!     benches hall look COUNT SIZE         reads so many pieces of that file
#![tactic(auto)]

mod codec;
mod extents;
mod fault;
mod filling;
mod halls;
mod inventories;
mod objects;
mod paths;
mod phases;
mod plain;
mod rules;
mod said;
mod spaces;
mod spellings;
mod storing;
mod text;
mod vaults;
mod words;

use std::alloc::{AllocError, Global};
use std::env::Env;
use std::process::ExitCode;
use std::rt::Files;
use std::{env, io};

/// The number that an argument spells; the usual one where it spells none.
fn number(word: Option<&str>, usual: u32) -> u32 {
    word.and_then(|word| word.parse::<u32>().ok())
        .unwrap_or(usual)
}

/// A little of each that is timed below the database.
fn report_parts(rt: &impl Print, alloc: Global) -> io::Result<()> {
    paths::report(rt, alloc, "paths", paths::USUAL_COUNT)?;
    rules::report(rt, alloc, rules::USUAL_PATHS)?;
    extents::report(rt, alloc, extents::USUAL_BLOCKS, extents::USUAL_COUNT)?;
    codec::report(rt, alloc, "encode", codec::USUAL_COUNT)?;
    objects::report(rt, alloc, objects::USUAL_COUNT, objects::ALL_STEPS)?;
    words::report(rt, alloc, words::USUAL_LINES, false)?;
    report_space(rt, alloc, &["random"])?;
    report_space(rt, alloc, &["sequential"])
}

/// A little of each.
fn report_all(rt: &impl Print, alloc: Global) -> io::Result<()> {
    report_parts(rt, alloc)?;
    inventories::report(
        rt,
        alloc,
        inventories::USUAL_COUNT,
        inventories::ALL_STEPS,
        inventories::USUAL_TIMES,
    )?;
    vaults::report(rt, alloc, vaults::USUAL_COUNT, vaults::USUAL_STEP)
}

/// The placing of objects in a pool of this kind.
fn report_space(rt: &impl Print, alloc: Global, words: &[&str]) -> io::Result<()> {
    let count = number(words.get(2).copied(), spaces::USUAL_COUNT);
    spaces::report(
        rt,
        alloc,
        words.first().copied() == Some("sequential"),
        number(words.get(1).copied(), spaces::USUAL_VOLUMES),
        count,
        number(words.get(3).copied(), count),
        number(words.get(4).copied(), 0),
        number(words.get(5).copied(), 1),
    )
}

/// What is timed of a library below the database.
fn report_part(rt: &impl Print, alloc: Global, name: &str, words: &[&str]) -> io::Result<()> {
    let first = words.first().copied();
    let second = words.get(1).copied();
    match name {
        "paths" => paths::report(
            rt,
            alloc,
            first.unwrap_or(""),
            number(second, paths::USUAL_COUNT),
        ),
        "rules" => rules::report(rt, alloc, number(first, rules::USUAL_PATHS)),
        "extents" => extents::report(
            rt,
            alloc,
            number(first, extents::USUAL_BLOCKS),
            number(second, extents::USUAL_COUNT),
        ),
        "entries" => codec::report(
            rt,
            alloc,
            first.unwrap_or(""),
            number(second, codec::USUAL_COUNT),
        ),
        "objects" => objects::report(
            rt,
            alloc,
            number(first, objects::USUAL_COUNT),
            number(second, objects::ALL_STEPS),
        ),
        "words" => words::report(
            rt,
            alloc,
            number(first, words::USUAL_LINES),
            second.is_some(),
        ),
        "space" => report_space(rt, alloc, words),
        _ => println!(rt;
            "usage: benches [paths | rules | extents | entries | objects | words | space | inventory | vault | phases | hall]"
        ),
    }
}

/// What is timed with no hall.
fn report(
    rt: &(impl Print + Files + AllocGlobal),
    alloc: Global,
    name: &str,
    words: &[&str],
) -> io::Result<()> {
    let first = words.first().copied();
    let second = words.get(1).copied();
    let third = words.get(2).copied();
    match name {
        "inventory" => inventories::report(
            rt,
            alloc,
            number(first, inventories::USUAL_COUNT),
            number(second, inventories::ALL_STEPS),
            number(third, inventories::USUAL_TIMES),
        ),
        "vault" => vaults::report(
            rt,
            alloc,
            number(first, vaults::USUAL_COUNT),
            number(second, vaults::USUAL_STEP),
        ),
        "phases" => phases::report(
            rt,
            alloc,
            number(first, vaults::USUAL_COUNT),
            number(second, vaults::USUAL_COUNT),
            number(third, phases::USUAL_TIMES),
        ),
        name => report_part(rt, alloc, name, words),
    }
}

/// The words that the program is called with, behind its name.
fn read_words<R: Env + AllocGlobal>(rt: &R) -> io::Result<Vec<String>> {
    let mut all = env::args(rt)?;
    let _program = all.next();
    let mut words = Vec::new(rt.alloc());
    for word in all {
        words.push(word)?;
    }
    Ok(words)
}

fn texts_of<'a>(alloc: Global, words: &'a [String]) -> Result<Vec<&'a str>, AllocError> {
    let mut texts = Vec::new(alloc);
    for word in words {
        texts.push(word.as_str())?;
    }
    Ok(texts)
}

/// What the words ask.
fn run(rt: HostRuntime, words: &[&str]) -> io::Result<ExitCode> {
    let alloc = rt.alloc();
    match words {
        [] => {
            report_all(&rt, alloc)?;
            Ok(halls::run(rt, &["sequential", "40", "100"]))
        }
        ["hall", rest @ ..] => Ok(halls::run(rt, rest)),
        [name, rest @ ..] => {
            report(&rt, alloc, name, rest)?;
            Ok(ExitCode::SUCCESS)
        }
    }
}

/// What the program is asked.
fn start(rt: HostRuntime) -> io::Result<ExitCode> {
    let alloc = rt.alloc();
    let words = read_words(&rt)?;
    let texts = texts_of(alloc, words.as_slice())?;
    run(rt, texts.as_slice())
}

fn main(rt: HostRuntime) -> ExitCode {
    match start(rt) {
        Ok(code) => code,
        Err(_) => ExitCode::FAILURE,
    }
}
