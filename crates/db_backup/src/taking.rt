//! A database backup, piece by piece.
ghost use Rattle.std.specs.Prelude.{◌≡◌};
ghost use Rattle.steps.specs.Calls.{Call};
ghost use Rattle.sessions.specs.Waiting.{holder_in};
ghost use Rattle.db_backup.specs.Taking.{Backs, Begins, Completes, Continues, GivesUp, Opens, Starts, TakesOff, begun_file, failed_file, gone_by, since_numbers, unbegun, unbegun_by, unwritten, whole_numbers};

use copy_attempts::stopping;
use entries::Change;
use kinds::{Holder, Refusal};
use sessions::commit_change;
use steps::{ImageKind, ImageReply, Stepper};

/// A database backup that was made.
#[derive(Clone, Copy, Debug, PartialEq, Eq)]
pub struct Taken {
    /// The number of its file.
    pub file: u32,
    /// The number of the last transaction that it holds, which is that of its own beginning.
    pub seq: u64,
}

/// Who holds what is waited for, where a backup was so refused.
fn holder_in(answer: Result<Taken, Refusal>) -> Option<Holder>
    ensures { result ≡ holder_in answer }
{
    match answer {
        Err(Refusal::Busy(holder)) => Some(holder),
        _ => None,
    }
}

/// The refusal of a backup that follows another, whose beginning was so refused.
fn unbegun_since(refusal: Refusal) -> Refusal
    ensures { result ≡ unbegun_by since_numbers refusal }
{
    match refusal.number() {
        10 | 21 | 25 | 31 | 40 | 41 | 50 => refusal,
        _ => Refusal::Memory,
    }
}

/// The refusal of a whole backup whose beginning was so refused.
fn unbegun_whole(refusal: Refusal) -> Refusal
    ensures { result ≡ unbegun_by whole_numbers refusal }
{
    match refusal.number() {
        21 | 25 | 31 | 40 | 41 | 50 => refusal,
        _ => Refusal::Memory,
    }
}

/// The refusal of a backup whose beginning was so refused. What can't be answered there stands for want of memory.
fn unbegun(kind: ImageKind, refusal: Refusal) -> Refusal
    ensures { result ≡ unbegun kind refusal }
{
    match kind {
        ImageKind::Checkpoint => unbegun_whole(refusal),
        ImageKind::Backup => unbegun_whole(refusal),
        ImageKind::Since { after: _ } => unbegun_since(refusal),
        ImageKind::Next => unbegun_whole(refusal),
    }
}

/// Begins a backup, and answers its file and its number.
fn begin_once<P: Stepper>(p: &mut P, kind: ImageKind) -> Result<Taken, Refusal>
    ensures { Call P.did p.old p.new (λ events. Begins kind result events) }
{
    match p.image(kind) {
        Ok(ImageReply::Begun { file, seq }) => Ok(Taken { file, seq }),
        Ok(ImageReply::More) => Err(Refusal::Memory),
        Ok(ImageReply::Done { seq: _ }) => Err(Refusal::Memory),
        Err(refusal) => Err(unbegun(kind, refusal)),
    }
}

/// Begins a backup, and where another image is being written waits and tries again.
fn begin<P: Stepper>(p: &mut P, kind: ImageKind) -> Result<Taken, Refusal>
    ensures { Call P.did p.old p.new (λ events. Opens kind events result) }
{
    let mut tries = 0;
    'tries: while tries < u64::MAX {
        let answer = begin_once(p, kind);
        match holder_in(answer) {
            Some(holder) => match p.wait(holder) {
                Ok(()) => tries += 1,
                Err(refusal) => return Err(refusal),
            },
            None => return answer,
        }
    }
    Err(Refusal::Memory)
}

/// The refusal of a backup whose next piece was so refused. What can't be answered there stands for want of memory.
fn unwritten(refusal: Refusal) -> Refusal
    ensures { result ≡ unwritten refusal }
{
    match refusal.number() {
        25 | 31 | 40 | 41 | 50 => refusal,
        _ => Refusal::Memory,
    }
}

/// Writes what is left of the image, piece by piece.
fn go_on<P: Stepper>(p: &mut P) -> Result<u64, Refusal>
    ensures { Call P.did p.old p.new (λ events. Continues events result) }
{
    let mut pieces = 0;
    'pieces: while pieces < u64::MAX {
        match p.image(ImageKind::Next) {
            Ok(ImageReply::More) => pieces += 1,
            Ok(ImageReply::Done { seq }) => return Ok(seq),
            Ok(ImageReply::Begun { file: _, seq: _ }) => return Err(Refusal::Memory),
            Err(refusal) => return Err(unwritten(refusal)),
        }
    }
    Err(Refusal::Memory)
}

/// What it came to that a backup was to be taken off the list: one that isn't listed any more is gone.
fn gone_by(refusal: Refusal) -> Result<(), Refusal>
    ensures { result ≡ gone_by refusal }
{
    match refusal.number() {
        10 => Ok(()),
        _ => Err(stopping(refusal)),
    }
}

/// Takes the backup in this file off the list, and makes that durable.
fn take_off<P: Stepper>(p: &mut P, file: u32) -> Result<(), Refusal>
    ensures { Call P.did p.old p.new (λ events. TakesOff file events result) }
{
    match commit_change(p, Change::DbDelete { file }) {
        Ok(_) => Ok(()),
        Err(refusal) => gone_by(refusal),
    }
}

/// Gives up a backup that was so refused, and answers with which refusal it ends: where its file couldn't be written it is taken off the list.
fn give_up<P: Stepper>(p: &mut P, file: Option<u32>, refusal: Refusal) -> Refusal
    ensures { Call P.did p.old p.new (λ events. GivesUp file refusal events result) }
{
    match file {
        Some(file) => match take_off(p, file) {
            Ok(()) => refusal,
            Err(other) => other,
        },
        None => refusal,
    }
}

/// The file that couldn't be written, where a step was so refused.
fn failed_file(refusal: Refusal) -> Option<u32>
    ensures { result ≡ failed_file refusal }
{
    match refusal {
        Refusal::WriteFault(file) => Some(file),
        _ => None,
    }
}

/// The backup's own file, where it couldn't be written.
fn begun_file(file: u32, refusal: Refusal) -> Option<u32>
    ensures { result ≡ begun_file file refusal }
{
    match refusal.number() {
        25 => Some(file),
        _ => None,
    }
}

/// Begins a backup. Where its file can't be written it is taken off the list again.
fn start<P: Stepper>(p: &mut P, kind: ImageKind) -> Result<Taken, Refusal>
    ensures { Call P.did p.old p.new (λ events. Starts kind events result) }
{
    match begin(p, kind) {
        Ok(taken) => Ok(taken),
        Err(refusal) => {
            let file = failed_file(refusal);
            Err(give_up(p, file, refusal))
        }
    }
}

/// Writes a backup that was begun to its end, and makes its end durable. Where its file can't be written it is taken off the list again.
fn complete<P: Stepper>(p: &mut P, taken: Taken) -> Result<Taken, Refusal>
    ensures { Call P.did p.old p.new (λ events. Completes taken events result) }
{
    match go_on(p) {
        Ok(_) => match p.force() {
            Ok(_) => Ok(taken),
            Err(refusal) => Err(stopping(refusal)),
        },
        Err(refusal) => {
            let file = begun_file(taken.file, refusal);
            Err(give_up(p, file, refusal))
        }
    }
}

/// Makes a database backup of this kind.
pub(crate) fn take<P: Stepper>(p: &mut P, kind: ImageKind) -> Result<Taken, Refusal>
    ensures { Call P.did p.old p.new (λ events. Backs kind events result) }
{
    match start(p, kind) {
        Ok(taken) => complete(p, taken),
        Err(refusal) => Err(refusal),
    }
}
