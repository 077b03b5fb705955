//! The steps of lines on the machine of plain lists.
use crate::fault::Fault;
use inventory_work::Listed;
use kinds::{Digest, Refusal};
use plain_hall::Hall;
use std::alloc::Global;
use steps::{Reply, Step};

/// The bytes of a piece.
fn read(
    alloc: Global,
    hall: &Hall,
    object: u64,
    kept: &Digest,
    from: u32,
    offset: u64,
    wanted: u64,
) -> Result<Listed<u8>, Refusal> {
    match hall.read_piece(object, kept, from, offset, wanted) {
        Ok(bytes) => Ok(Listed::from_vec(bytes.to_vec(alloc)?)),
        Err(refusal) => Err(refusal),
    }
}

/// What is answered to a ticket that is dropped.
fn dropped(was_there: bool) -> Result<(), Refusal> {
    if was_there {
        Ok(())
    } else {
        Err(Refusal::NotFound)
    }
}

/// What is answered to a step that an actor makes.
fn make(alloc: Global, hall: &mut Hall, actor: u32, step: &Step) -> Reply {
    match step {
        Step::OpenNew(pool, size, prefer) => {
            Reply::OpenNew(hall.open_new(actor, *pool, *size, *prefer))
        }
        Step::OpenCopy(object, aim, avoid) => {
            Reply::OpenCopy(hall.open_copy(actor, *object, *aim, *avoid))
        }
        Step::WritePiece(ticket, bytes) => {
            Reply::WritePiece(hall.write_piece(actor, *ticket, bytes.as_slice()))
        }
        Step::CopyPiece(ticket) => Reply::CopyPiece(hall.copy_piece(actor, *ticket)),
        Step::Seal(ticket) => Reply::Seal(hall.seal(actor, *ticket)),
        Step::Commit(asked, tickets) => {
            Reply::Commit(hall.commit(actor, asked, tickets.as_slice()))
        }
        Step::DropTicket(ticket) => { Reply::DropTicket(dropped(hall.drop_ticket(actor, *ticket))) }
        Step::ReadPiece(object, kept, from, offset, wanted) => {
            let wanted = u64::from(*wanted);
            Reply::ReadPiece(read(alloc, hall, *object, kept, *from, *offset, wanted))
        }
        Step::Ask(query) => Reply::Ask(hall.ask(query)),
        Step::Image(kind) => Reply::Image(hall.image(actor, *kind)),
        Step::Reuse(file) => Reply::Reuse(hall.reuse(actor, *file)),
        Step::Force => Reply::Force(Ok(hall.force())),
    }
}

/// What an actor's step is answered, in words.
pub fn answer(alloc: Global, hall: &mut Hall, actor: u32, line: &[&str]) -> Result<String, Fault> {
    let step = step_words::step(alloc, line)?;
    let reply = make(alloc, hall, actor, &step);
    drop(step);
    let text = step_words::text(alloc, &reply);
    drop(reply);
    Ok(text?)
}
