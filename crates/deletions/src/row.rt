//! A volume's row, and how it goes.
ghost use Rattle.std.specs.Prelude.{◌≡◌, IfOk, IfErr};
ghost use Rattle.std.specs.Option.{option_copied};
ghost use Rattle.kinds.specs.Answers.{Answers, AnswersBy};
ghost use Rattle.kinds.specs.declared.refusal.Refusal.TheVariants.{Memory as NoMemory};
ghost use Rattle.inventory_answers.specs.declared.reply.Rows.TheVariants as rows;
ghost use Rattle.steps.specs.Calls.{Call};
ghost use Rattle.deletions.specs.Volumes.{Asks, ChecksGone, Ends, Finds, Removes, RemovesRow, TriesRow, deleting, gone_by, holder_of, outcome_of_row, row_in, row_of, row_with};

use crate::filespace::unremoved;
use copy_attempts::stopping;
use copy_runs::unlisted;
use entries::Change;
use inventory_answers::{Answer, Query, Rows, VolumeLine};
use inventory_work::Listed;
use kinds::{Access, Capacity, Holder, Name, PoolChange, Refusal, Verb};
use steps::{Asked, Stepper};

/// What of a volume's row its deletion names.
#[derive(Drop)]
pub(crate) struct Row {
    /// Its name.
    name: Name,
    /// How many bytes it has.
    capacity: Capacity,
    /// Whether it may be read and written.
    access: Access,
}

/// What came of a volume's row.
#[derive(Clone, Copy, Debug, PartialEq, Eq)]
enum Went {
    /// It is gone.
    Gone,
    /// This one has to be waited for.
    Held(Holder),
}

/// The volumes that an answer has. An answer to another query has none, and stands for want of memory.
fn volumes_of(answer: Answer) -> Result<Listed<VolumeLine>, Refusal>
    ensures ok { IfOk result (λ lines. answer.rows ≡ rows.Volumes lines) }
    ensures err { IfErr result (λ e. e ≡ NoMemory) }
{
    match answer.rows {
        Rows::Volumes(lines) => Ok(lines),
        other => {
            drop(other);
            Err(Refusal::Memory)
        }
    }
}

/// What the deletion of this volume names. Its one refusal is want of memory.
fn row_of(line: &VolumeLine) -> Result<Row, Refusal>
    ensures { AnswersBy (λ row. row) result (row_of line.now) }
{
    Ok(Row {
        name: line.name.clone()?,
        capacity: line.capacity,
        access: line.access,
    })
}

/// The volume with this file number, where it is among these.
fn row_with<'a>(lines: &'a [VolumeLine], file: u32) -> Option<&'a VolumeLine>
    ensures { option_copied result ≡ row_with file lines.now }
{
    lines.iter().find(|line| line.file == file)
}

/// What the deletion of the volume with this file number names, where it is among these.
fn row_in(lines: &[VolumeLine], file: u32) -> Result<Row, Refusal>
    ensures { Answers result (row_in file lines.now) }
{
    match row_with(lines, file) {
        Some(line) => row_of(line),
        None => Err(Refusal::NotFound),
    }
}

/// Asks a query.
pub(crate) fn ask<P: Stepper>(p: &mut P, query: &Query) -> Result<Answer, Refusal>
    ensures { Call P.did p.old p.new (λ events. Asks query.now events result) }
{
    match p.ask(query) {
        Ok(answer) => Ok(answer),
        Err(refusal) => Err(unlisted(refusal)),
    }
}

/// Asks for the row of the volume with this file number.
pub(crate) fn find<P: Stepper>(p: &mut P, file: u32) -> Result<Row, Refusal>
    ensures { Call P.did p.old p.new (λ events. Finds file events result) }
{
    let query = Query::Volumes {
        volume: None,
        pool: None,
    };
    let answer = ask(p, &query);
    drop(query);
    match answer {
        Ok(answer) => match volumes_of(answer) {
            Ok(lines) => row_in(lines.as_slice(), file),
            Err(refusal) => Err(refusal),
        },
        Err(refusal) => Err(refusal),
    }
}

/// The transaction that deletes a volume's row. The number of its pool isn't looked at. Its one refusal is want of memory.
fn deleting(file: u32, row: &Row) -> Result<Asked, Refusal>
    ensures { AnswersBy (λ asked. asked) result (deleting row.now file) }
{
    let volume = row.name.clone()?;
    Ok(Asked::Plain(Change::Pool(PoolChange::Volume {
        verb: Verb::Delete,
        volume,
        pool: 0,
        file,
        capacity: row.capacity,
        access: row.access,
    })))
}

/// Who is waited for, where a transaction was so refused.
fn holder_of(refusal: Refusal) -> Option<Holder>
    ensures { result ≡ holder_of refusal }
{
    match refusal {
        Refusal::Busy(holder) => Some(holder),
        _ => None,
    }
}

/// What comes of a row whose transaction was so answered.
fn outcome_of_row(answer: Result<u64, Refusal>) -> Result<Went, Refusal>
    ensures { result ≡ outcome_of_row answer }
{
    match answer {
        Ok(_) => Ok(Went::Gone),
        Err(refusal) => match holder_of(refusal) {
            Some(holder) => Ok(Went::Held(holder)),
            None => Err(unremoved(refusal)),
        },
    }
}

/// Tries once to make a row's transaction.
fn try_row<P: Stepper>(p: &mut P, asked: &Asked) -> Result<Went, Refusal>
    ensures { Call P.did p.old p.new (λ events. TriesRow asked.now events result) }
{
    outcome_of_row(p.commit(asked, &[]))
}

/// Makes a row's transaction. Where something is held it waits and tries again.
fn wait_and_remove<P: Stepper>(p: &mut P, asked: &Asked) -> Result<(), Refusal>
    ensures { Call P.did p.old p.new (λ events. RemovesRow asked.now events result) }
{
    let mut tries = 0;
    'tries: while tries < u64::MAX {
        match try_row(p, asked) {
            Ok(Went::Gone) => return Ok(()),
            Ok(Went::Held(holder)) => match p.wait(holder) {
                Ok(()) => tries += 1,
                Err(refusal) => return Err(stopping(refusal)),
            },
            Err(refusal) => return Err(refusal),
        }
    }
    Err(Refusal::Memory)
}

/// Commits that the volume's row goes.
fn remove_row<P: Stepper>(p: &mut P, file: u32, row: &Row) -> Result<(), Refusal>
    ensures { Call P.did p.old p.new (λ events. RemovesRow (deleting row.now file) events result) }
{
    let asked = match deleting(file, row) {
        Ok(asked) => asked,
        Err(refusal) => return Err(refusal),
    };
    let result = wait_and_remove(p, &asked);
    drop(asked);
    result
}

/// What comes of the question for a volume that has gone, where it was so refused.
fn gone_by(refusal: Refusal) -> Result<(), Refusal>
    ensures { result ≡ gone_by refusal }
{
    match refusal.number() {
        10 => Ok(()),
        _ => Err(stopping(refusal)),
    }
}

/// Asks for the volume, which isn't there any more. A volume that is there has another row's name, and stands for want of memory.
fn check_gone<P: Stepper>(p: &mut P, file: u32) -> Result<(), Refusal>
    ensures { Call P.did p.old p.new (λ events. ChecksGone file events result) }
{
    let query = Query::OnVolume { file };
    let answer = p.ask(&query);
    drop(query);
    match answer {
        Ok(answer) => {
            drop(answer);
            Err(Refusal::Memory)
        }
        Err(refusal) => gone_by(refusal),
    }
}

/// Makes all durable, and asks for the volume that has gone.
fn finish<P: Stepper>(p: &mut P, file: u32) -> Result<(), Refusal>
    ensures { Call P.did p.old p.new (λ events. Ends file events result) }
{
    match p.force() {
        Ok(_) => check_gone(p, file),
        Err(refusal) => Err(stopping(refusal)),
    }
}

/// Commits that the volume's row goes, makes all durable, and asks for the volume.
pub(crate) fn remove<P: Stepper>(p: &mut P, file: u32, row: &Row) -> Result<(), Refusal>
    ensures { Call P.did p.old p.new (λ events. Removes row.now file events result) }
{
    match remove_row(p, file, row) {
        Ok(()) => finish(p, file),
        Err(refusal) => Err(refusal),
    }
}
