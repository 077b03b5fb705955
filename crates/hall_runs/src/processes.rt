//! Processes of the server and commands of sessions, by whoever makes their steps.
use crate::fault::Fault;
use crate::files;
use crate::last::Last;
use choosers::{Binder, First};
use client_trees::FileRow;
use copy_pools::backup_pool;
use copy_runs::Moved;
use deletions::{Removed, delete_filespace, delete_volume};
use entries::Entry;
use expiration::expire;
use kinds::{FilespaceName, NodeName, Path, Refusal};
use migration::{migrate, migrate_all};
use plain_hall::digest_of;
use pool_restores::{restore_pool, restore_volume};
use reclamation::{move_data, reclaim};
use reuse_delay::reuse_ready;
use sessions::{FileRead, checkpoint, commit_change, put_file, read_file};
use std::alloc::{AllocError, Global};
use step_words::{long, number, numbered, put_digest};
use steps::Stepper;

/// A piece has at most so many bytes.
const MOST_BYTES: usize = 65536;

/// Percentages go up to this.
const WHOLE: u32 = 100;

/// How many copies were made, and for how many objects none could be.
fn moved(alloc: Global, answer: &Result<Moved, Refusal>) -> Result<String, AllocError> {
    match answer {
        Ok(came) => {
            let moved = came.moved;
            let failed = came.failed;
            format!(in alloc; "moved {moved}, failed {failed}")
        }
        Err(e) => step_words::refusal(alloc, e),
    }
}

/// What went with a volume.
fn removed(alloc: Global, answer: &Result<Removed, Refusal>) -> Result<String, AllocError> {
    match answer {
        Ok(went) => {
            let discarded = went.discarded;
            let dropped = went.dropped;
            format!(in alloc; "discarded {discarded}, dropped {dropped}")
        }
        Err(e) => step_words::refusal(alloc, e),
    }
}

fn percent(number: u32) -> u8 {
    number.min(WHOLE) as u8
}

/// Processes that copy or move objects.
fn copying<P: Stepper>(
    alloc: Global,
    p: &mut P,
    word: &str,
    first: u32,
    second: u32,
) -> Result<String, Fault> {
    let answer = match word {
        "BACKUP" => backup_pool(alloc, p, first, second),
        "MIGRATE" => migrate(alloc, p, &First, first, percent(second)),
        "MIGRATE_LAST" => migrate(alloc, p, &Last, first, percent(second)),
        "MIGRATE_ALL" => migrate_all(alloc, p, &First),
        "RECLAIM" => reclaim(alloc, p, first, percent(second)),
        "MOVE" => move_data(alloc, p, first, second),
        "RESTORE" => restore_pool(alloc, p, first),
        "RESTORE_VOLUME" => restore_volume(alloc, p, first),
        _ => return Err(Fault::NoCommand),
    };
    Ok(moved(alloc, &answer)?)
}

/// Processes by numbers.
fn process<P: Stepper>(
    alloc: Global,
    p: &mut P,
    word: &str,
    first: u32,
    second: u32,
) -> Result<String, Fault> {
    match word {
        "EXPIRE" => Ok(numbered(alloc, "count", &expire(alloc, p))?),
        "REUSE" => Ok(numbered(alloc, "count", &reuse_ready(p))?),
        "CHECKPOINT" => Ok(numbered(alloc, "checkpoint", &checkpoint(p))?),
        "DELETE_FILESPACE" => Ok(numbered(alloc, "count", &delete_filespace(alloc, p, first))?),
        "DELETE_VOLUME" => Ok(removed(alloc, &delete_volume(alloc, p, first, second > 0))?),
        _ => copying(alloc, p, word, first, second),
    }
}

/// A change is committed.
fn change<P: Stepper>(alloc: Global, p: &mut P, digits: &str) -> Result<String, Fault> {
    let Entry { actor: _, change } = step_words::entry(alloc, digits)?;
    Ok(numbered(alloc, "number", &commit_change(p, change))?)
}

/// The names of the node and of its filespace.
#[derive(Drop)]
struct Names {
    node: NodeName,
    filespace: FilespaceName,
}

fn read_names(alloc: Global) -> Result<Names, Refusal> {
    let filespace = FilespaceName::read(alloc, b"/home")?;
    Ok(Names {
        node: NodeName::read(alloc, b"ANNA", 64)?,
        filespace,
    })
}

/// A file is stored.
fn put<P: Stepper>(
    alloc: Global,
    p: &mut P,
    names: &Names,
    row: &FileRow,
) -> Result<String, Fault> {
    let mut tree = files::tree_of(alloc, row)?;
    let binder = Binder::new(Vec::new(alloc));
    let mut buffer = vec![in alloc; 0u8; MOST_BYTES]?;
    let answer = put_file(
        alloc,
        p,
        &mut tree,
        &names.node,
        &names.filespace,
        row,
        &binder,
        buffer.as_mut_slice(),
    );
    drop(binder);
    drop(tree);
    Ok(numbered(alloc, "object", &answer)?)
}

/// A file of this path, size and time.
fn row_of(alloc: Global, path: &str, size: &str, mtime: &str) -> Result<FileRow, Fault> {
    let size = long(size)?;
    let mtime = long(mtime)?;
    Ok(FileRow {
        path: Path::read(alloc, path.as_bytes())?,
        size,
        mtime,
    })
}

fn put_words<P: Stepper>(
    alloc: Global,
    p: &mut P,
    path: &str,
    size: &str,
    mtime: &str,
) -> Result<String, Fault> {
    let names = read_names(alloc)?;
    let row = row_of(alloc, path, size, mtime)?;
    let text = put(alloc, p, &names, &row);
    drop(row);
    drop(names);
    text
}

/// What was read of a file: its object, its size, and the SHA-256 of its bytes.
fn read(alloc: Global, answer: &Result<FileRead, Refusal>) -> Result<String, AllocError> {
    match answer {
        Ok(read) => {
            let object = read.object;
            let size = read.size;
            let mut out = format!(in alloc; "object {object}, {size} bytes ")?;
            put_digest(&mut out, &digest_of(read.bytes.as_slice()))?;
            Ok(out)
        }
        Err(e) => step_words::refusal(alloc, e),
    }
}

fn get<P: Stepper>(alloc: Global, p: &mut P, path: &str) -> Result<String, Fault> {
    let path = Path::read(alloc, path.as_bytes())?;
    let mut buffer = vec![in alloc; 0u8; MOST_BYTES]?;
    let Names { node, filespace } = read_names(alloc)?;
    let answer = read_file(alloc, p, node, filespace, path, buffer.as_mut_slice());
    let text = read(alloc, &answer);
    drop(answer);
    Ok(text?)
}

/// A command of a session, or a process without numbers or with one or two.
fn command<P: Stepper>(alloc: Global, p: &mut P, line: &[&str]) -> Result<String, Fault> {
    match line {
        ["PUT", path, size, mtime] => put_words(alloc, p, path, size, mtime),
        ["GET", path] => get(alloc, p, path),
        ["CHANGE", digits] => change(alloc, p, digits),
        [word] => process(alloc, p, word, 0, 0),
        [word, first] => process(alloc, p, word, number(first)?, 0),
        [word, first, second] => process(alloc, p, word, number(first)?, number(second)?),
        _ => Err(Fault::NoCommand),
    }
}

/// Commands and processes are in capital letters.
fn is_command(line: &[&str]) -> bool {
    match line.first() {
        Some(word) => match word.as_bytes().first() {
            Some(byte) => byte.is_ascii_uppercase(),
            None => false,
        },
        None => false,
    }
}

/// Makes what the line says, a step or a command, and puts into words what it is answered.
pub fn answer<P: Stepper>(alloc: Global, p: &mut P, line: &[&str]) -> Result<String, Fault> {
    if is_command(line) {
        return command(alloc, p, line);
    }
    Ok(step_words::answer(alloc, p, line)?)
}
