// The lines by which commands are answered.
ghost use Rattle.std.specs.Prelude.{◌≡◌, ◌++◌, codes, decimal};
ghost use Rattle.hex.specs.Hex.{encode_lower};
ghost use Rattle.kinds.specs.Answers.{AnswersBy};
ghost use Rattle.inventory_work.specs.Lists.{Writes};
ghost use Rattle.reports.specs.Pieces.{escaped, digits};
ghost use Rattle.reports.specs.Refusals.{refusal_text};
ghost use Rattle.reports.specs.Lines.{shown_text, shown_line, refused_line, notice_text, notice_line};

use crate::pieces::{
    put_digest, put_number, put_path, put_three_numbers, put_two_digests, put_two_numbers,
    put_word, put_words,
};
use crate::refusals::put_refusal;
use crate::shown::{Notice, Shown};
use kinds::{Digest, FilespaceName, NodeName, ObjectSize, Path, Refusal};
use std::alloc::Global;

fn put_data(text: &mut Vec<u8>, bytes: &[u8]) -> Result<(), Refusal>
    ensures { Writes result text.old.items text.new.items (codes "DATA " ++ encode_lower bytes.now) }
{
    let digits = hex::encode(*text.allocator(), bytes)?;
    put_word(text, b"DATA ", digits.as_bytes())
}

fn put_file(
    text: &mut Vec<u8>,
    name: &Path,
    object: u64,
    size: ObjectSize,
    sha256: &Digest,
) -> Result<(), Refusal>
    ensures { Writes result text.old.items text.new.items (codes "FILE " ++ escaped name.now ++ codes " object=" ++ decimal object ++ codes " size=" ++ decimal size ++ codes " sha256=" ++ digits sha256.now) }
{
    put_path(text, b"FILE ", name.as_bytes())?;
    put_two_numbers(text, b" object=", object, b" size=", size.bytes())?;
    put_digest(text, b" sha256=", sha256)?;
    Ok(())
}

fn put_failed(text: &mut Vec<u8>, name: &Path, refusal: &Refusal) -> Result<(), Refusal>
    ensures { Writes result text.old.items text.new.items (codes "FAILED " ++ escaped name.now ++ refusal_text refusal.now) }
{
    put_path(text, b"FAILED ", name.as_bytes())?;
    put_refusal(text, refusal)?;
    Ok(())
}

fn put_sent(
    text: &mut Vec<u8>,
    sent: u64,
    rebound: u64,
    gone: u64,
    skipped: u64,
    failed: u64,
) -> Result<(), Refusal>
    ensures { Writes result text.old.items text.new.items (codes "OK sent=" ++ decimal sent ++ codes " rebound=" ++ decimal rebound ++ codes " gone=" ++ decimal gone ++ codes " skipped=" ++ decimal skipped ++ codes " failed=" ++ decimal failed) }
{
    put_three_numbers(
        text,
        b"OK sent=",
        sent,
        b" rebound=",
        rebound,
        b" gone=",
        gone,
    )?;
    put_two_numbers(text, b" skipped=", skipped, b" failed=", failed)?;
    Ok(())
}

fn put_damaged(
    text: &mut Vec<u8>,
    object: u64,
    kept: &Digest,
    found: &Digest,
) -> Result<(), Refusal>
    ensures { Writes result text.old.items text.new.items (codes "DAMAGED object=" ++ decimal object ++ codes " kept=" ++ digits kept.now ++ codes " found=" ++ digits found.now) }
{
    put_number(text, b"DAMAGED object=", object)?;
    put_two_digests(text, b" kept=", kept, b" found=", found)?;
    Ok(())
}

fn put_shown(text: &mut Vec<u8>, shown: &Shown) -> Result<(), Refusal>
    ensures { Writes result text.old.items text.new.items (shown_text shown.now) }
{
    match shown {
        Shown::Done => put_words(text, b"OK"),
        Shown::Reused { reused } => put_number(text, b"OK reused=", *reused),
        Shown::Stored { object } => put_number(text, b"OK object=", *object),
        Shown::Data { bytes } => put_data(text, bytes),
        Shown::Read { object, size } => {
            put_two_numbers(text, b"OK object=", *object, b" size=", size.bytes())
        }
        Shown::Sent {
            sent: files,
            rebound,
            gone,
            skipped,
            failed,
        } => put_sent(text, *files, *rebound, *gone, *skipped, *failed),
        Shown::File {
            path,
            object,
            size,
            sha256,
        } => put_file(text, path, *object, *size, sha256),
        Shown::Failed { path, refusal } => put_failed(text, path, refusal),
        Shown::RestoredFiles { restored, failed } => {
            put_two_numbers(text, b"OK restored=", *restored, b" failed=", *failed)
        }
        Shown::Archived {
            archived,
            deleted,
            failed,
        } => put_three_numbers(
            text,
            b"OK archived=",
            *archived,
            b" deleted=",
            *deleted,
            b" failed=",
            *failed,
        ),
        Shown::Retrieved { retrieved, failed } => {
            put_two_numbers(text, b"OK retrieved=", *retrieved, b" failed=", *failed)
        }
        Shown::Moved {
            moved,
            failed,
            reused,
        } => put_three_numbers(
            text,
            b"OK moved=",
            *moved,
            b" failed=",
            *failed,
            b" reused=",
            *reused,
        ),
        Shown::Copied { copied, failed } => {
            put_two_numbers(text, b"OK copied=", *copied, b" failed=", *failed)
        }
        Shown::RestoredCopies {
            restored,
            failed,
            reused,
        } => put_three_numbers(
            text,
            b"OK restored=",
            *restored,
            b" failed=",
            *failed,
            b" reused=",
            *reused,
        ),
        Shown::Expired { expired, reused } => {
            put_two_numbers(text, b"OK expired=", *expired, b" reused=", *reused)
        }
        Shown::DiscardedFilespace { discarded, reused } => {
            put_two_numbers(text, b"OK discarded=", *discarded, b" reused=", *reused)
        }
        Shown::DeletedVolume { discarded, dropped } => {
            put_two_numbers(text, b"OK discarded=", *discarded, b" dropped=", *dropped)
        }
        Shown::Damaged {
            object,
            kept,
            found,
        } => put_damaged(text, *object, kept, found),
        Shown::Audited {
            sound,
            damaged,
            fixed,
        } => put_three_numbers(
            text,
            b"OK sound=",
            *sound,
            b" damaged=",
            *damaged,
            b" fixed=",
            *fixed,
        ),
        Shown::BackedUp { file, seq } => {
            put_two_numbers(text, b"OK file=", u64::from(*file), b" seq=", *seq)
        }
        Shown::DeletedHistory { deleted } => put_number(text, b"OK deleted=", *deleted),
        Shown::Rows { rows } => put_number(text, b"OK rows=", *rows),
    }
}

fn put_lost(
    text: &mut Vec<u8>,
    node: &NodeName,
    filespace: &FilespaceName,
    path: &Path,
    object: u64,
) -> Result<(), Refusal>
    ensures { Writes result text.old.items text.new.items (codes "LOST " ++ node.now ++ codes " " ++ escaped filespace.now ++ codes " " ++ escaped path.now ++ codes " object=" ++ decimal object) }
{
    put_word(text, b"LOST ", node.as_bytes())?;
    put_path(text, b" ", filespace.as_bytes())?;
    put_path(text, b" ", path.as_bytes())?;
    put_number(text, b" object=", object)?;
    Ok(())
}

fn put_refused(text: &mut Vec<u8>, refusal: &Refusal) -> Result<(), Refusal>
    ensures { Writes result text.old.items text.new.items (codes "REFUSED" ++ refusal_text refusal.now) }
{
    put_words(text, b"REFUSED")?;
    put_refusal(text, refusal)?;
    Ok(())
}

fn put_notice(text: &mut Vec<u8>, notice: &Notice) -> Result<(), Refusal>
    ensures { Writes result text.old.items text.new.items (notice_text notice.now) }
{
    match notice {
        Notice::Lost {
            node,
            filespace,
            path,
            object,
        } => put_lost(text, node, filespace, path, *object),
        Notice::Restored {
            versions,
            copies,
            lost,
        } => put_three_numbers(
            text,
            b"RESTORED versions=",
            *versions,
            b" copies=",
            *copies,
            b" lost=",
            *lost,
        ),
        Notice::Refused { refusal } => put_refused(text, refusal),
        Notice::NotABackup { file } => put_number(text, b"NOT A BACKUP ", u64::from(*file)),
    }
}

/// A line that no line of the script causes, with LF. Its one refusal is want of memory.
pub fn print_notice(alloc: Global, notice: &Notice) -> Result<Vec<u8>, Refusal>
    ensures { AnswersBy (λ text. text.items) result (notice_line notice.now) }
{
    let mut text = Vec::new(alloc);
    put_notice(&mut text, notice)?;
    put_words(&mut text, b"\n")?;
    Ok(text)
}

/// A line of an answered command, with the number of the script's line that gave it and with LF. Its one refusal is want of memory.
pub fn print_line(alloc: Global, line: u32, shown: &Shown) -> Result<Vec<u8>, Refusal>
    ensures { AnswersBy (λ text. text.items) result (shown_line line shown.now) }
{
    let mut text = Vec::new(alloc);
    put_number(&mut text, b"", u64::from(line))?;
    put_words(&mut text, b" ")?;
    put_shown(&mut text, shown)?;
    put_words(&mut text, b"\n")?;
    Ok(text)
}

/// The line of a refused command, with the number of the script's line that gave it and with LF. Its one refusal is want of memory.
pub fn print_refused(alloc: Global, line: u32, refusal: &Refusal) -> Result<Vec<u8>, Refusal>
    ensures { AnswersBy (λ text. text.items) result (refused_line line refusal.now) }
{
    let mut text = Vec::new(alloc);
    put_number(&mut text, b"", u64::from(line))?;
    put_words(&mut text, b" REFUSED")?;
    put_refusal(&mut text, refusal)?;
    put_words(&mut text, b"\n")?;
    Ok(text)
}
