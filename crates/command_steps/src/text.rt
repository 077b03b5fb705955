// Printed lines of files and rows.
ghost use Rattle.std.specs.Prelude.{◌≡◌, ◌<◌, ◌≤◌, ◌^◌, ◌*◌, ◌+◌, ◌++◌, length, take, codes, IfOk, IfErr, OnOk};
ghost use Rattle.std.specs.List.{flat_map};
ghost use Rattle.hex.specs.Hex.{encode_lower};
ghost use Rattle.kinds.specs.Answers.{AnswersBy};
ghost use Rattle.kinds.specs.declared.refusal.Refusal.TheVariants.{Memory};
ghost use Rattle.reports.specs.Pieces.{numbered};
ghost use Rattle.reports.specs.Lines.{shown_line};
ghost use Rattle.command_steps.specs.Answers.{audited_lines, damaged_line, piece_of, data_line, data_lines, data_width, failed_gave, failed_weight, failure_line, file_lines, given_lines, restored_lines, row_lines, sent_lines, shown_of, outcome_lines};

use crate::outcome::Outcome;
use client_files::Gave;
use incrementals::{Failure, Sent};
use inventory_answers::Answer;
use kinds::{ObjectSize, Refusal};
use reports::{Shown, print_line, print_rows, row_count};
use restores::{RestoreLine, Restored};
use sessions::FileRead;
use std::alloc::Global;
use volume_audits::{Audit, Damaged};

/// The bytes that a DATA line shows at the most.
const WIDTH: usize = 64;

/// The piece of the bytes that the DATA line with this number shows, counted from 0, where a line shows at most so many bytes.
#[tactic(auto, unfolding(crate::specs::Answers::piece_of))]
fn piece(bytes: &[u8], most: usize, number: usize) -> &[u8]
    requires { most * number ≤ length bytes.now }
    ensures { result.now ≡ piece_of most bytes.now number }
{
    front(&bytes[most * number..], most)
}

// At most so many of the first bytes.
#[tactic(auto, using(std::proofs::lemmas::List::take_all))]
fn front(bytes: &[u8], most: usize) -> &[u8]
    ensures { result.now ≡ take most bytes.now }
{
    if bytes.len() <= most {
        bytes
    } else {
        &bytes[..most]
    }
}

// The DATA line of these bytes, which the script's line with this number causes.
fn data(alloc: Global, line: u32, bytes: &[u8]) -> Result<Vec<u8>, Refusal>
    ensures { AnswersBy (λ text. text.items) result (numbered line (codes "DATA " ++ encode_lower bytes.now)) }
{
    let bytes = Vec::from_slice(alloc, bytes)?;
    print_line(alloc, line, &Shown::Data { bytes })
}

// Puts the DATA lines of some bytes, each of which shows `most` bytes or the rest.
#[tactic(auto, unfolding(crate::specs::Answers::pieces))]
fn put_data(
    alloc: Global,
    out: &mut Vec<u8>,
    line: u32,
    bytes: &[u8],
    most: usize,
) -> Result<(), Refusal>
    requires some { 0 < most }
    requires fits { length bytes.now + most < 2 ^ 64 }
    ensures put { OnOk result (out.new.items ≡ out.old.items ++ data_lines line most bytes.now) }
    ensures memory { IfErr result (λ e. e ≡ Memory) }
{
    let count = (bytes.len() + (most - 1)) / most;
    'pieces: for number in 0..count {
        let text = data(alloc, line, piece(bytes, most, number))?;
        out.extend_from_slice(text.as_slice())?;
    }
    Ok(())
}

/// How many bytes an object has. Where no object may have so many that stands for want of memory.
fn size_of(bytes: u64) -> Result<ObjectSize, Refusal>
    ensures { AnswersBy (λ size. size) result bytes }
{
    match ObjectSize::new(bytes) {
        Some(size) => Ok(size),
        None => Err(Refusal::Memory),
    }
}

/// The lines of a file that was read.
#[tactic(auto, unfolding(crate::specs::Answers::data_width))]
fn file_lines(alloc: Global, line: u32, file: &FileRead) -> Result<Vec<u8>, Refusal>
    ensures { AnswersBy (λ text. text.items) result (file_lines line file.now) }
{
    let size = size_of(file.size)?;
    let mut text = Vec::new(alloc);
    put_data(alloc, &mut text, line, file.bytes.as_slice(), WIDTH)?;
    let last = print_line(
        alloc,
        line,
        &Shown::Read {
            object: file.object,
            size,
        },
    )?;
    text.extend_from_slice(&last)?;
    Ok(text)
}

/// The lines of a query's rows.
fn row_lines(alloc: Global, line: u32, answer: &Answer) -> Result<Vec<u8>, Refusal>
    ensures { AnswersBy (λ text. text.items) result (row_lines line answer.now) }
{
    let mut text = print_rows(alloc, line, &answer.rows)?;
    let last = print_line(
        alloc,
        line,
        &Shown::Rows {
            rows: row_count(&answer.rows),
        },
    )?;
    text.extend_from_slice(&last)?;
    Ok(text)
}

/// The line of a path for which nothing was committed.
fn failure_line(alloc: Global, line: u32, failure: &Failure) -> Result<Vec<u8>, Refusal>
    ensures { AnswersBy (λ text. text.items) result (failure_line line failure.now) }
{
    let path = failure.path.clone()?;
    print_line(
        alloc,
        line,
        &Shown::Failed {
            path,
            refusal: failure.refusal,
        },
    )
}

/// Puts the lines of the paths for which nothing was committed.
fn put_failures(
    alloc: Global,
    out: &mut Vec<u8>,
    line: u32,
    failures: &[Failure],
) -> Result<(), Refusal>
    ensures put { OnOk result (out.new.items ≡ out.old.items ++ flat_map (failure_line line) failures.now) }
    ensures memory { IfErr result (λ e. e ≡ Memory) }
{
    'failures: for failure in failures {
        let text = failure_line(alloc, line, failure)?;
        out.extend_from_slice(text.as_slice())?;
    }
    Ok(())
}

/// The lines of an incremental backup.
fn sent_lines(alloc: Global, line: u32, sent: &Sent) -> Result<Vec<u8>, Refusal>
    ensures { AnswersBy (λ text. text.items) result (sent_lines line sent.now) }
{
    let mut text = Vec::new(alloc);
    put_failures(alloc, &mut text, line, sent.failed.as_slice())?;
    let last = print_line(
        alloc,
        line,
        &Shown::Sent {
            sent: sent.sent,
            rebound: sent.rebound,
            gone: sent.gone,
            skipped: sent.skipped,
            failed: sent.failed.as_slice().len() as u64,
        },
    )?;
    text.extend_from_slice(&last)?;
    Ok(text)
}

/// What is shown of an object of which this came.
fn shown_of(object: &RestoreLine, gave: Gave) -> Result<Shown, Refusal>
    ensures { AnswersBy (λ shown. shown) result (shown_of object.now gave) }
{
    let path = object.path.clone()?;
    match gave {
        Gave::Restored => {
            let size = size_of(object.stored.size)?;
            Ok(Shown::File {
                path,
                object: object.stored.object,
                size,
                sha256: object.stored.digest,
            })
        }
        Gave::Failed(refusal) => Ok(Shown::Failed { path, refusal }),
    }
}

/// Puts the line of an object of which this came.
fn put_given(
    alloc: Global,
    out: &mut Vec<u8>,
    line: u32,
    object: &RestoreLine,
    gave: Gave,
) -> Result<(), Refusal>
    ensures put { OnOk result (out.new.items ≡ out.old.items ++ shown_line line (shown_of object.now gave)) }
    ensures memory { IfErr result (λ e. e ≡ Memory) }
{
    let shown = shown_of(object, gave)?;
    let text = print_line(alloc, line, &shown)?;
    out.extend_from_slice(text.as_slice())?;
    Ok(())
}

/// Puts the lines of objects of which these came.
fn put_all_given(
    alloc: Global,
    out: &mut Vec<u8>,
    line: u32,
    objects: &[RestoreLine],
    given: &[Gave],
) -> Result<(), Refusal>
    ensures put { OnOk result (out.new.items ≡ out.old.items ++ given_lines line objects.now given.now) }
    ensures memory { IfErr result (λ e. e ≡ Memory) }
{
    let mut objects_left = objects;
    let mut given_left = given;
    'objects: while let Some((object, others)) = objects_left.split_first() {
        match given_left.split_first() {
            None => return Ok(()),
            Some((gave, more)) => {
                put_given(alloc, out, line, object, *gave)?;
                objects_left = others;
                given_left = more;
            }
        }
    }
    Ok(())
}

/// 1 for one that failed.
fn failed_weight(gave: Gave) -> u64
    ensures { result ≡ failed_weight gave }
{
    match gave {
        Gave::Restored => 0,
        Gave::Failed(_) => 1,
    }
}

/// How many failed.
pub(crate) fn failed_gave(given: &[Gave]) -> u64
    ensures value { result ≡ failed_gave given.now }
    ensures bound { result ≤ length given.now }
{
    let _most = given.len();
    let mut count = 0;
    let mut left = given;
    'given: while let Some((gave, more)) = left.split_first() {
        count += failed_weight(*gave);
        left = more;
    }
    count
}

/// The lines of a restore.
fn restored_lines(alloc: Global, line: u32, restored: &Restored) -> Result<Vec<u8>, Refusal>
    ensures { AnswersBy (λ text. text.items) result (restored_lines line restored.now) }
{
    let given = restored.gave.as_slice();
    let mut text = Vec::new(alloc);
    put_all_given(alloc, &mut text, line, restored.lines.as_slice(), given)?;
    let failed = failed_gave(given);
    let last = print_line(
        alloc,
        line,
        &Shown::RestoredFiles {
            restored: given.len() as u64 - failed,
            failed,
        },
    )?;
    text.extend_from_slice(&last)?;
    Ok(text)
}

/// The line of a copy that an audit found damaged.
fn damaged_line(alloc: Global, line: u32, copy: &Damaged) -> Result<Vec<u8>, Refusal>
    ensures { AnswersBy (λ text. text.items) result (damaged_line line copy.now) }
{
    print_line(
        alloc,
        line,
        &Shown::Damaged {
            object: copy.object,
            kept: copy.kept,
            found: copy.found,
        },
    )
}

/// Puts the lines of the copies that an audit found damaged.
fn put_damaged(
    alloc: Global,
    out: &mut Vec<u8>,
    line: u32,
    copies: &[Damaged],
) -> Result<(), Refusal>
    ensures put { OnOk result (out.new.items ≡ out.old.items ++ flat_map (damaged_line line) copies.now) }
    ensures memory { IfErr result (λ e. e ≡ Memory) }
{
    'copies: for copy in copies {
        let text = damaged_line(alloc, line, copy)?;
        out.extend_from_slice(text.as_slice())?;
    }
    Ok(())
}

/// The lines of an audit.
fn audited_lines(alloc: Global, line: u32, audit: &Audit) -> Result<Vec<u8>, Refusal>
    ensures { AnswersBy (λ text. text.items) result (audited_lines line audit.now) }
{
    let mut text = Vec::new(alloc);
    put_damaged(alloc, &mut text, line, audit.damaged.as_slice())?;
    let last = print_line(
        alloc,
        line,
        &Shown::Audited {
            sound: audit.sound,
            damaged: audit.damaged.as_slice().len() as u64,
            fixed: audit.fixed,
        },
    )?;
    text.extend_from_slice(&last)?;
    Ok(text)
}

/// The lines of what a command in this line came to. Its one refusal is want of memory.
pub(crate) fn outcome_lines(alloc: Global, line: u32, outcome: &Outcome) -> Result<Vec<u8>, Refusal>
    ensures { AnswersBy (λ text. text.items) result (outcome_lines line outcome.now) }
{
    match outcome {
        Outcome::Said(shown) => print_line(alloc, line, shown),
        Outcome::Read(file) => file_lines(alloc, line, file),
        Outcome::Rows(answer) => row_lines(alloc, line, answer),
        Outcome::Sent(sent) => sent_lines(alloc, line, sent),
        Outcome::Restored(it) => restored_lines(alloc, line, it),
        Outcome::Audited(it) => audited_lines(alloc, line, it),
    }
}
