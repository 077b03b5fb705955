// A client's file into a sealed ticket.
ghost use Rattle.std.specs.Prelude.{◌≡◌, ◌≤◌, ◌^◌, length};
ghost use Rattle.client_files.specs.Reading.{file_of};
ghost use Rattle.steps.specs.Calls.{Call};
ghost use Rattle.sessions.specs.Putting.{Sends, SendsOnce, sealed_of};

use crate::waiting::holder_in;
use client_files::{Came, send_file};
use client_trees::{FileRow, Tree};
use kinds::{Digest, Refusal};
use steps::Stepper;

/// A ticket that is sealed.
#[derive(Clone, Copy)]
pub struct Sealed {
    /// The ticket's number.
    pub ticket: u64,
    /// The SHA-256 of its bytes.
    pub digest: Digest,
}

/// The sealed ticket, where that is what came of a file.
fn sealed_of(came: Result<Came, Refusal>) -> Result<Sealed, Refusal>
    ensures { result ≡ sealed_of came }
{
    match came {
        Ok(Came::Written(ticket, digest)) => Ok(Sealed { ticket, digest }),
        Ok(Came::Failed(refusal)) => Err(refusal),
        Ok(Came::Held(holder)) => Err(Refusal::Busy(holder)),
        Err(refusal) => Err(refusal),
    }
}

/// Sends a client's file once.
fn send_once<P: Stepper, T: Tree>(
    p: &mut P,
    tree: &mut T,
    file: &FileRow,
    pool: u32,
    buffer: &mut [u8],
) -> Result<Sealed, Refusal>
    requires some { 1 ≤ length buffer.old }
    requires few { length buffer.old ≤ 2 ^ 16 }
    ensures sends { Call P.did p.old p.new (SendsOnce (file_of (T.files tree.old) file.now.path) pool file.now.size result) }
    ensures kept { T.files tree.new ≡ T.files tree.old }
    ensures rises { T.fault_count tree.old ≤ T.fault_count tree.new }
    ensures long { length buffer.new ≡ length buffer.old }
{
    sealed_of(send_file(p, tree, file, pool, buffer))
}

/// Sends a client's file, and where others hold the room that it needs waits and tries again.
pub(crate) fn send<P: Stepper, T: Tree>(
    p: &mut P,
    tree: &mut T,
    file: &FileRow,
    pool: u32,
    buffer: &mut [u8],
) -> Result<Sealed, Refusal>
    requires some { 1 ≤ length buffer.old }
    requires few { length buffer.old ≤ 2 ^ 16 }
    ensures sends { Call P.did p.old p.new (λ events. Sends (file_of (T.files tree.old) file.now.path) pool file.now.size events result) }
    ensures kept { T.files tree.new ≡ T.files tree.old }
    ensures rises { T.fault_count tree.old ≤ T.fault_count tree.new }
    ensures long { length buffer.new ≡ length buffer.old }
{
    let mut tries = 0;
    'tries: while tries < u64::MAX {
        let answer = send_once(p, tree, file, pool, buffer);
        match holder_in(answer) {
            Some(holder) => match p.wait(holder) {
                Ok(()) => tries += 1,
                Err(refusal) => return Err(refusal),
            },
            None => return answer,
        }
    }
    Err(Refusal::Memory)
}
