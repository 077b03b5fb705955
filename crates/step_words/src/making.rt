//! Steps by whoever makes steps.
use crate::fault::Fault;
use crate::{lines, replies};
use inventory_work::Listed;
use kinds::{Digest, Refusal, bad_value};
use std::alloc::Global;
use steps::{Asked, Reply, Step, Stepper};

/// A transaction has at most so many tickets.
const MOST_TICKETS: usize = 256;

/// A piece has at most so many bytes.
const MOST_BYTES: usize = 65536;

fn write<P: Stepper>(p: &mut P, ticket: u64, bytes: &[u8]) -> Result<u64, Refusal> {
    if bytes.len() < 1 || bytes.len() > MOST_BYTES {
        return Err(bad_value());
    }
    p.write_piece(ticket, bytes)
}

/// Commits what is asked, with these tickets.
fn commit<P: Stepper>(p: &mut P, asked: &Asked, tickets: &[u64]) -> Result<u64, Refusal> {
    if tickets.len() > MOST_TICKETS {
        return Err(bad_value());
    }
    p.commit(asked, tickets)
}

/// The bytes of a piece.
fn read<P: Stepper>(
    alloc: Global,
    p: &mut P,
    object: u64,
    kept: &Digest,
    from: u32,
    offset: u64,
    wanted: usize,
) -> Result<Listed<u8>, Refusal> {
    if wanted > MOST_BYTES {
        return Err(bad_value());
    }
    let mut into = vec![in alloc; 0u8; wanted]?;
    match p.read_piece(object, kept, from, offset, into.as_mut_slice()) {
        Ok(count) => {
            into.truncate(count);
            Ok(Listed::from_vec(into))
        }
        Err(refusal) => Err(refusal),
    }
}

/// Makes a step that is given as a value, as the method with its name does; a length that breaks a condition of that method is answered with `BadValue`. A read takes memory for what it reads.
fn make<P: Stepper>(alloc: Global, p: &mut P, step: &Step) -> Reply {
    match step {
        Step::OpenNew(pool, size, prefer) => Reply::OpenNew(p.open_new(*pool, *size, *prefer)),
        Step::OpenCopy(object, aim, avoid) => Reply::OpenCopy(p.open_copy(*object, *aim, *avoid)),
        Step::WritePiece(ticket, bytes) => Reply::WritePiece(write(p, *ticket, bytes.as_slice())),
        Step::CopyPiece(ticket) => Reply::CopyPiece(p.copy_piece(*ticket)),
        Step::Seal(ticket) => Reply::Seal(p.seal(*ticket)),
        Step::Commit(asked, tickets) => Reply::Commit(commit(p, asked, tickets.as_slice())),
        Step::DropTicket(ticket) => Reply::DropTicket(p.drop_ticket(*ticket)),
        Step::ReadPiece(object, kept, from, offset, wanted) => {
            let wanted = *wanted as usize;
            Reply::ReadPiece(read(alloc, p, *object, kept, *from, *offset, wanted))
        }
        Step::Ask(query) => Reply::Ask(p.ask(query)),
        Step::Image(kind) => Reply::Image(p.image(*kind)),
        Step::Reuse(file) => Reply::Reuse(p.reuse(*file)),
        Step::Force => Reply::Force(p.force()),
    }
}

/// Makes the step that the words stand for, and puts into words what it is answered.
pub fn answer<P: Stepper>(alloc: Global, p: &mut P, line: &[&str]) -> Result<String, Fault> {
    let step = lines::step(alloc, line)?;
    let reply = make(alloc, p, &step);
    drop(step);
    let text = replies::text(alloc, &reply);
    drop(reply);
    Ok(text?)
}
