// Which versions are restored.
ghost use Rattle.std.specs.Prelude.{◌≡◌, IfOk};
ghost use Rattle.std.specs.Option.{option_copied};
ghost use Rattle.kinds.specs.Answers.{AnswersBy};
ghost use Rattle.restores.specs.Chosen.{asks, chosen, is_last, line_of, was_active};

use client_files::Stored;
use inventory_answers::VersionLine;
use inventory_work::Listed;
use kinds::{Day, Path, Refusal};
use path_patterns::Pattern;
use std::alloc::{AllocError, Global};

/// Which of a filespace's versions are restored.
#[derive(Drop)]
pub enum Which {
    /// The active one of each path.
    Active,
    /// Of each path the one that was active at the end of this day.
    On(Day),
    /// The one with this object number, active or not.
    Object(u64),
    /// The active one of each path that matches the pattern.
    Like(Pattern),
}

/// An object that is restored to a path.
#[derive(Drop)]
pub struct RestoreLine {
    pub path: Path,
    pub stored: Stored,
}

/// Whether a version was active at the end of a day.
fn was_active(day: Day, line: &VersionLine) -> bool
    ensures { result ≡ was_active day line.now }
{
    if line.stored.number() > day.number() {
        return false;
    }
    match line.since {
        Some(since) => since.number() > day.number(),
        None => true,
    }
}

/// Whether a version is one that is restored, if none of its path is yet.
fn asks(which: &Which, line: &VersionLine) -> bool
    ensures { result ≡ asks which.now line.now }
{
    match which {
        Which::Active => line.since.is_none(),
        Which::On(day) => was_active(*day, line),
        Which::Object(object) => line.object == *object,
        Which::Like(pattern) => line.since.is_none() && pattern.matches(line.path.as_bytes()),
    }
}

fn is_last(last: Option<&Path>, path: &Path) -> bool
    ensures { result ≡ is_last (option_copied last.entry) path.now }
{
    match last {
        Some(last) => *last == *path,
        None => false,
    }
}

fn line_of(line: &VersionLine) -> Result<RestoreLine, AllocError>
    ensures { IfOk result (λ row. row ≡ line_of line.now) }
{
    Ok(RestoreLine {
        path: line.path.clone()?,
        stored: Stored {
            object: line.object,
            size: line.size.bytes(),
            mtime: line.mtime,
            digest: line.digest,
        },
    })
}

/// The objects that are restored, of these versions of a filespace, which stand by path and of each path the newest first.
pub fn choose(
    alloc: Global,
    lines: &[VersionLine],
    which: &Which,
) -> Result<Listed<RestoreLine>, Refusal>
    ensures { AnswersBy (λ rows. rows) result (chosen which.now lines.now) }
{
    let mut rows = Vec::new(alloc);
    let mut last = None;
    'lines: for line in lines {
        if asks(which, line) && !is_last(last, &line.path) {
            rows.push(line_of(line)?)?;
            last = Some(&line.path);
        }
    }
    Ok(Listed::from_vec(rows))
}
