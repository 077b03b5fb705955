//! A copy is read.
ghost use Rattle.std.specs.Prelude.{◌≡◌, ◌+◌, ◌≤◌, ◌<◌, ◌^◌, ◌↔◌, length, IfOk, IsTrue};
ghost use Rattle.steps.specs.Calls.{Call};
ghost use Rattle.volume_audits.specs.Looking.{Looks, ReadsAll, ReadsNext, unread};

use copy_attempts::stopping;
use inventory_work::CopyLine;
use kinds::{Digest, Refusal};
use sha2::{Digest as _, Sha256};
use steps::Stepper;

/// What was found of a copy.
#[derive(Clone, Copy)]
pub(crate) enum Found {
    /// It has the bytes that were stored.
    Sound,
    /// It has others, with this SHA-256.
    Damaged(Digest),
    /// It couldn't be read, or isn't there any more.
    Unread,
}

fn is_same(a: &Digest, b: &Digest) -> bool
    ensures { IsTrue result ↔ (a.now ≡ b.now) }
{
    a == b
}

/// Reads the next bytes of the copy from the place on, as many as the buffer holds or as there are.
fn next_piece<P: Stepper>(
    p: &mut P,
    line: &CopyLine,
    at: u64,
    buffer: &mut [u8],
) -> Result<usize, Refusal>
    requires some { 1 ≤ length buffer.old }
    requires few { length buffer.old ≤ 2 ^ 16 }
    requires below { at < line.now.size }
    ensures reads { Call P.did p.old p.new (λ events. ReadsNext line.now at buffer.new events result) }
    ensures end { IfOk result (λ count. at + count ≤ line.now.size) }
    ensures long { length buffer.new ≡ length buffer.old }
{
    let room = buffer.len().min((line.size.bytes() - at) as usize);
    let count = match p.read_piece(
        line.object,
        &line.digest,
        line.pool,
        at,
        &mut buffer[..room],
    ) {
        Ok(count) => count,
        Err(refusal) => return Err(refusal),
    };
    if count == 0 {
        return Err(Refusal::Memory);
    }
    Ok(count)
}

/// Reads all bytes of the copy, and answers their SHA-256.
fn read_all<P: Stepper>(p: &mut P, line: &CopyLine, buffer: &mut [u8]) -> Result<Digest, Refusal>
    requires some { 1 ≤ length buffer.old }
    requires few { length buffer.old ≤ 2 ^ 16 }
    ensures reads { Call P.did p.old p.new (λ events. ReadsAll line.now events result) }
    ensures long { length buffer.new ≡ length buffer.old }
{
    let mut hasher = Sha256::new();
    let size = line.size.bytes();
    let mut done = 0;
    'pieces: while done < size {
        let count = match next_piece(p, line, done, buffer) {
            Ok(count) => count,
            Err(refusal) => return Err(refusal),
        };
        hasher.update(&buffer[..count]);
        done += count as u64;
    }
    Ok(Digest(hasher.finalize()))
}

/// What comes of a copy whose reading was so refused. What can't be answered there stands for want of memory.
fn unread(refusal: Refusal) -> Result<Found, Refusal>
    ensures { result ≡ unread refusal }
{
    match refusal.number() {
        10 | 23 | 24 => Ok(Found::Unread),
        _ => Err(stopping(refusal)),
    }
}

/// Reads a copy, and compares its bytes with those that were stored.
pub(crate) fn look<P: Stepper>(
    p: &mut P,
    line: &CopyLine,
    buffer: &mut [u8],
) -> Result<Found, Refusal>
    requires some { 1 ≤ length buffer.old }
    requires few { length buffer.old ≤ 2 ^ 16 }
    ensures looks { Call P.did p.old p.new (λ events. Looks line.now events result) }
    ensures long { length buffer.new ≡ length buffer.old }
{
    match read_all(p, line, buffer) {
        Ok(found) => {
            if is_same(&line.digest, &found) {
                Ok(Found::Sound)
            } else {
                Ok(Found::Damaged(found))
            }
        }
        Err(refusal) => unread(refusal),
    }
}
