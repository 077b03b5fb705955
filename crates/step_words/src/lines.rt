//! The step that a line's words stand for.
use crate::fault::Fault;
use crate::words::{self, Words};
use inventory_work::Listed;
use std::alloc::Global;
use steps::{Asked, Step};

fn open_new(words: &mut Words<'_>) -> Result<Step, Fault> {
    let pool = words.number();
    let size = words.long();
    let prefer = words.number();
    words.make(Step::OpenNew(pool, size, prefer))
}

fn open_copy(words: &mut Words<'_>) -> Result<Step, Fault> {
    let object = words.long();
    let avoid = words.number();
    let aim = words::aim(words);
    words.make(Step::OpenCopy(object, aim, avoid))
}

fn write(alloc: Global, words: &mut Words<'_>) -> Result<Step, Fault> {
    let ticket = words.long();
    let bytes = words::bytes_of(alloc, words.word())?;
    words.make(Step::WritePiece(ticket, Listed::from_vec(bytes)))
}

fn copy_piece(words: &mut Words<'_>) -> Result<Step, Fault> {
    let ticket = words.long();
    words.make(Step::CopyPiece(ticket))
}

fn seal(words: &mut Words<'_>) -> Result<Step, Fault> {
    let ticket = words.long();
    words.make(Step::Seal(ticket))
}

fn drop_ticket(words: &mut Words<'_>) -> Result<Step, Fault> {
    let ticket = words.long();
    words.make(Step::DropTicket(ticket))
}

fn read(alloc: Global, words: &mut Words<'_>) -> Result<Step, Fault> {
    let object = words.long();
    let digest = words::digest(alloc, words.word())?;
    let from = words.number();
    let offset = words.long();
    let wanted = words.number();
    words.make(Step::ReadPiece(object, digest, from, offset, wanted))
}

fn reuse(words: &mut Words<'_>) -> Result<Step, Fault> {
    let file = words.number();
    words.make(Step::Reuse(file))
}

fn ask(words: &mut Words<'_>) -> Result<Step, Fault> {
    let query = words::query(words);
    words.make(Step::Ask(query))
}

fn image(words: &mut Words<'_>) -> Result<Step, Fault> {
    let kind = words::image(words);
    words.make(Step::Image(kind))
}

/// A commit of what is asked, with the tickets that the words left stand for.
fn commit(alloc: Global, asked: Result<Asked, Fault>, words: &Words<'_>) -> Result<Step, Fault> {
    let asked = asked?;
    match words.longs(alloc) {
        Ok(tickets) => Ok(Step::Commit(asked, Listed::from_vec(tickets))),
        Err(fault) => {
            drop(asked);
            Err(fault)
        }
    }
}

/// What is to be committed.
fn asked(alloc: Global, word: &str, words: &mut Words<'_>) -> Result<Asked, Fault> {
    match word {
        "plain" => words::plain(alloc, words.word()),
        "backup" => words::backup(alloc, words),
        "hold" => words::hold(alloc, words),
        "placed" => Ok(Asked::Placed),
        _ => Err(Fault::NoCommand),
    }
}

/// Steps that make transactions.
fn commit_step(alloc: Global, word: &str, words: &mut Words<'_>) -> Result<Step, Fault> {
    let asked = asked(alloc, word, words);
    commit(alloc, asked, words)
}

/// Steps with tickets.
fn ticket_step(alloc: Global, word: &str, words: &mut Words<'_>) -> Result<Step, Fault> {
    match word {
        "open_new" => open_new(words),
        "open_copy" => open_copy(words),
        "write" => write(alloc, words),
        "copy_piece" => copy_piece(words),
        "seal" => seal(words),
        "drop" => drop_ticket(words),
        _ => commit_step(alloc, word, words),
    }
}

/// The step that the words stand for.
pub fn step(alloc: Global, line: &[&str]) -> Result<Step, Fault> {
    let mut words = Words::new(line);
    match words.word() {
        "read" => read(alloc, &mut words),
        "ask" => ask(&mut words),
        "image" => image(&mut words),
        "reuse" => reuse(&mut words),
        "force" => words.make(Step::Force),
        word => ticket_step(alloc, word, &mut words),
    }
}
