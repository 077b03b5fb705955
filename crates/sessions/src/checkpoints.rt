//! A checkpoint.
ghost use Rattle.std.specs.Prelude.{◌≡◌};
ghost use Rattle.client_files.specs.Sending.{stopping as broken_off};
ghost use Rattle.steps.specs.Calls.{Call};
ghost use Rattle.sessions.specs.Checkpoints.{Begins, Checkpointing, Checkpoints, Continues, Opens};

use crate::waiting::holder_in;
use copy_attempts::stopping;
use kinds::Refusal;
use steps::{ImageKind, ImageReply, Stepper};

/// Begins a checkpoint, and answers the number of the last transaction that it has.
fn begin_once<P: Stepper>(p: &mut P) -> Result<u64, Refusal>
    ensures { Call P.did p.old p.new (λ events. Begins result events) }
{
    match p.image(ImageKind::Checkpoint) {
        Ok(ImageReply::Begun { file: _, seq }) => Ok(seq),
        Ok(ImageReply::More) => Err(Refusal::Memory),
        Ok(ImageReply::Done { seq: _ }) => Err(Refusal::Memory),
        Err(refusal) => Err(stopping(refusal)),
    }
}

/// Begins a checkpoint, and where another image is being written waits and tries again.
fn begin<P: Stepper>(p: &mut P) -> Result<u64, Refusal>
    ensures { Call P.did p.old p.new (λ events. Opens events result) }
{
    let mut tries = 0;
    'tries: while tries < u64::MAX {
        let answer = begin_once(p);
        match holder_in(answer) {
            Some(holder) => match p.wait(holder) {
                Ok(()) => tries += 1,
                Err(refusal) => return Err(refusal),
            },
            None => return answer,
        }
    }
    Err(Refusal::Memory)
}

/// The refusal with which a checkpoint ends whose next piece was refused so. What can't be answered there stands for want of memory.
fn broken_off(refusal: Refusal) -> Refusal
    ensures { result ≡ broken_off refusal }
{
    match refusal.number() {
        40 | 41 | 50 => refusal,
        _ => Refusal::Memory,
    }
}

/// Writes what is left of the image, piece by piece.
fn go_on<P: Stepper>(p: &mut P) -> Result<u64, Refusal>
    ensures { Call P.did p.old p.new (λ events. Continues events result) }
{
    let mut pieces = 0;
    'pieces: while pieces < u64::MAX {
        match p.image(ImageKind::Next) {
            Ok(ImageReply::More) => pieces += 1,
            Ok(ImageReply::Done { seq }) => return Ok(seq),
            Ok(ImageReply::Begun { file: _, seq: _ }) => return Err(Refusal::Memory),
            Err(refusal) => return Err(broken_off(refusal)),
        }
    }
    Err(Refusal::Memory)
}

/// Begins a checkpoint, and writes its image.
fn begin_and_go_on<P: Stepper>(p: &mut P) -> Result<u64, Refusal>
    ensures { Call P.did p.old p.new (λ events. Checkpoints events result) }
{
    match begin(p) {
        Ok(_) => go_on(p),
        Err(refusal) => Err(refusal),
    }
}

/// Makes a checkpoint, and answers the number of the last transaction that its image has. Where another image is being written it waits and tries again. It ends with
/// `InventoryFull` where there is no generation behind the newest, with `Busy` where a step of its own and then `wait` answer so, and with `LogFault`, `RunFull` or `Memory`.
/// An image stays in progress only with these last three.
pub fn checkpoint<P: Stepper>(p: &mut P) -> Result<u64, Refusal>
    ensures { Call P.did p.old p.new (λ events. Checkpointing events result) }
{
    begin_and_go_on(p)
}
