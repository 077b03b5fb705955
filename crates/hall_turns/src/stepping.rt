//! Steps as values.
ghost use Rattle.std.specs.Prelude.{◌≡◌, ◌⊎◌, ◌<◌, true, length, IfOk};
ghost use Rattle.machine.specs.Causes.{most_bytes};
ghost use Rattle.steps.specs.Events.{is_listed};
ghost use Rattle.steps.specs.Events.Deed.{Image, ReadPiece};
ghost use Rattle.hall.specs.Steps.{Answers, Goes, Steps};

use hall::Hall;
use inventory_work::Listed;
use kinds::{Digest, Refusal};
use std::alloc::Global;
use steps::{ImageKind, ImageReply, Reply, Step};
use store_api::Store;

/// A piece has at most so many bytes.
const MOST_BYTES: u32 = 1 << 16;

/// Begins a checkpoint or a database backup, whole or behind another one, or goes on with the actor's image, as `checkpoint`, `backup`, `backup_since` and `next_image` of the hall.
pub fn image<S: Store>(
    hall: &mut Hall<S>,
    actor: u32,
    kind: ImageKind,
) -> Result<ImageReply, Refusal>
    ensures step { Steps S.told S.moment_of S.faults_of actor (Image kind result) hall.old hall.new }
    ensures listed { is_listed (Image kind result) ≡ true }
    ensures goes { Goes S.told hall.old hall.new }
{
    match kind {
        ImageKind::Checkpoint => hall.checkpoint(actor),
        ImageKind::Backup => hall.backup(actor),
        ImageKind::Since { after } => hall.backup_since(actor, after),
        ImageKind::Next => hall.next_image(actor),
    }
}

/// So many bytes.
fn zeros(alloc: Global, count: u32) -> Result<Vec<u8>, Refusal>
    ensures { IfOk result (λ bytes. length bytes.items ≡ count) }
{
    let mut bytes = Vec::new(alloc);
    bytes.resize(count as usize, 0)?;
    Ok(bytes)
}

/// How long a buffer is taken for a read: as long as it is wanted, but longer than a piece only by a byte, since the hall refuses each longer read alike.
fn buffer_length(wanted: u32) -> u32
    ensures { (result ≡ wanted) ⊎ ((most_bytes < result) × (most_bytes < wanted)) }
{
    if wanted <= MOST_BYTES {
        wanted
    } else {
        MOST_BYTES + 1
    }
}

/// Reads bytes of an object as `read_piece` of the hall does, into a buffer of its own.
fn read_listed<S: Store>(
    alloc: Global,
    hall: &mut Hall<S>,
    actor: u32,
    object: u64,
    kept: &Digest,
    from: u32,
    offset: u64,
    wanted: u32,
) -> Result<Listed<u8>, Refusal>
    ensures step { Steps S.told S.moment_of S.faults_of actor (ReadPiece object kept.now from offset wanted result) hall.old hall.new }
    ensures goes { Goes S.told hall.old hall.new }
{
    let mut buffer = match zeros(alloc, buffer_length(wanted)) {
        Ok(buffer) => buffer,
        Err(_) => return Err(Refusal::Memory),
    };
    match hall.read_piece(actor, object, kept, from, offset, &mut buffer) {
        Ok(count) => {
            buffer.truncate(count);
            Ok(Listed::from_vec(buffer))
        }
        Err(refusal) => Err(refusal),
    }
}

/// Makes an actor's step that is given as a value, as the hall's method with its name does. A length that breaks a condition of that method of `Stepper` is answered with `BadValue`, as the hall
/// answers it. A read takes memory for what it reads, 65,537 bytes at most.
pub fn step<S: Store>(alloc: Global, hall: &mut Hall<S>, actor: u32, step: &Step) -> Reply
    ensures { Answers S.told S.moment_of S.faults_of actor step.now result hall.old hall.new }
{
    match step {
        Step::OpenNew(pool, size, prefer) => {
            Reply::OpenNew(hall.open_new(actor, *pool, *size, *prefer))
        }
        Step::OpenCopy(object, aim, avoid) => {
            Reply::OpenCopy(hall.open_copy(actor, *object, *aim, *avoid))
        }
        Step::WritePiece(ticket, bytes) => {
            Reply::WritePiece(hall.write_piece(actor, *ticket, bytes.as_slice()))
        }
        Step::CopyPiece(ticket) => Reply::CopyPiece(hall.copy_piece(actor, *ticket)),
        Step::Seal(ticket) => Reply::Seal(hall.seal(actor, *ticket)),
        Step::Commit(asked, tickets) => {
            Reply::Commit(hall.commit(actor, asked, tickets.as_slice()))
        }
        Step::DropTicket(ticket) => Reply::DropTicket(hall.drop_ticket(actor, *ticket)),
        Step::ReadPiece(object, kept, from, offset, wanted) => Reply::ReadPiece(read_listed(
            alloc, hall, actor, *object, kept, *from, *offset, *wanted,
        )),
        Step::Ask(query) => Reply::Ask(hall.ask(actor, query)),
        Step::Image(kind) => Reply::Image(image(hall, actor, *kind)),
        Step::Reuse(file) => Reply::Reuse(hall.reuse(actor, *file)),
        Step::Force => Reply::Force(hall.force(actor)),
    }
}
