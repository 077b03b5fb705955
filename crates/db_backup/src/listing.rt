//! The list of database backups.
ghost use Rattle.std.specs.Option.{option_copied};
ghost use Rattle.std.specs.Prelude.{◌≡◌, length, IfOk, IfErr};
ghost use Rattle.kinds.specs.declared.refusal.Refusal.TheVariants.{Memory as NoMemory};
ghost use Rattle.kinds.specs.Answers.{AnswersBy};
ghost use Rattle.inventory_answers.specs.declared.reply.Rows.TheVariants as rows;
ghost use Rattle.steps.specs.Calls.{Call};
ghost use Rattle.db_backup.specs.Backups.{Lists};
ghost use Rattle.db_backup.specs.Listing.{due_files, due_from, file_of, followed_by, is_due_by, is_met, line_of, marked, newer, newest, newest_file};

use copy_attempts::stopping;
use inventory_answers::{Answer, BackupLine, Query, Rows};
use inventory_work::Listed;
use kinds::{Day, Refusal};
use std::alloc::Global;
use steps::Stepper;

/// A backup that is whole.
#[derive(Clone, Copy, Debug, PartialEq, Eq)]
pub(crate) struct Latest {
    /// The number of its file.
    pub(crate) file: u32,
    /// The number of the last transaction that it holds.
    pub(crate) number: u64,
}

/// The database backups that an answer has. An answer to another query has none, and stands for want of memory.
fn backups_of(answer: Answer) -> Result<Listed<BackupLine>, Refusal>
    ensures ok { IfOk result (λ lines. answer.rows ≡ rows.History lines) }
    ensures err { IfErr result (λ e. e ≡ NoMemory) }
{
    match answer.rows {
        Rows::History(lines) => Ok(lines),
        other => {
            drop(other);
            Err(Refusal::Memory)
        }
    }
}

/// Asks for the list of database backups.
pub(crate) fn list<P: Stepper>(p: &mut P) -> Result<Listed<BackupLine>, Refusal>
    ensures { Call P.did p.old p.new (λ events. Lists events result) }
{
    let query = Query::History;
    let answer = p.ask(&query);
    drop(query);
    match answer {
        Ok(answer) => backups_of(answer),
        Err(refusal) => Err(stopping(refusal)),
    }
}

fn marked(line: &BackupLine) -> Latest
    ensures { result ≡ marked line.now }
{
    Latest {
        file: line.file,
        number: line.number,
    }
}

/// The newest of some backups and one more: of those that are whole the one with the greater number.
fn newer(best: Option<Latest>, line: &BackupLine) -> Option<Latest>
    ensures { result ≡ newer best line.now }
{
    match best {
        Some(it) => {
            if line.done && it.number < line.number {
                Some(marked(line))
            } else {
                Some(it)
            }
        }
        None => { if line.done { Some(marked(line)) } else { None } }
    }
}

/// The whole backup with the greatest number.
fn newest(lines: &[BackupLine]) -> Option<Latest>
    ensures { result ≡ newest lines.now }
{
    let mut best = None;
    'lines: for line in lines {
        best = newer(best, line);
    }
    best
}

fn file_of(best: Option<Latest>) -> Option<u32>
    ensures { result ≡ file_of best }
{
    match best {
        Some(it) => Some(it.file),
        None => None,
    }
}

/// The file of the whole backup with the greatest number.
pub(crate) fn newest_file(lines: &[BackupLine]) -> Option<u32>
    ensures { result ≡ newest_file lines.now }
{
    file_of(newest(lines))
}

/// The backup in this file.
fn line_of(lines: &[BackupLine], file: u32) -> Option<&BackupLine>
    ensures { option_copied result ≡ line_of lines.now file }
{
    lines.iter().find(|line| line.file == file)
}

/// The backup that this one follows, by their files.
fn followed_by(lines: &[BackupLine], file: u32) -> Option<u32>
    ensures { result ≡ followed_by lines.now file }
{
    match line_of(lines, file) {
        Some(line) => line.after,
        None => None,
    }
}

/// Whether the backup is met on the way that begins here and goes each time to the one that is followed. Its places are no more than there are backups.
fn is_met(lines: &[BackupLine], file: u32, from: Option<u32>) -> bool
    ensures { result ≡ is_met (length lines.now) lines.now file from }
{
    let mut at = from;
    let mut left = lines.len();
    'way: while left > 0 {
        match at {
            Some(other) => {
                if other == file {
                    return true;
                }
                at = followed_by(lines, other);
            }
            None => return false,
        }
        left -= 1;
    }
    false
}

/// Whether the backup was taken on or before the day, and isn't met on the way that begins here.
fn is_due_by(to: Day, lines: &[BackupLine], from: Option<u32>, line: &BackupLine) -> bool
    ensures { result ≡ is_due_by to lines.now from line.now }
{
    line.taken.number() <= to.number() && !is_met(lines, line.file, from)
}

fn due_from(
    alloc: Global,
    to: Day,
    lines: &[BackupLine],
    from: Option<u32>,
) -> Result<Vec<u32>, Refusal>
    ensures { AnswersBy (λ files. files.items) result (due_from to lines.now from) }
{
    let mut files = Vec::new(alloc);
    'lines: for line in lines {
        if is_due_by(to, lines, from, line) {
            files.push(line.file)?;
        }
    }
    Ok(files)
}

/// The files of the backups that were taken on or before the day, but of the newest whole one and of those that it follows, directly or through others.
pub(crate) fn due_files(alloc: Global, to: Day, lines: &[BackupLine]) -> Result<Vec<u32>, Refusal>
    ensures { AnswersBy (λ files. files.items) result (due_files to lines.now) }
{
    due_from(alloc, to, lines, newest_file(lines))
}
