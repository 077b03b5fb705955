// Renamings and removals, and how a stop undoes them.
ghost use Rattle.std.specs.Prelude.{◌≡◌, ◌≢◌, ◌+◌, ◌<◌, ◌≤◌, ◌++◌, ◌∷◌, [], OnOk, OnErr, vec_len, vec_capacity};
ghost use Rattle.files_api.specs.Folder.{removal, renaming};
ghost use Rattle.mem_files.specs.Entries.{file_of, IsFirst, IsFile};
ghost use Rattle.mem_files.specs.Moves.{move_of, HasRenamed, HasRemoved, Unchanged, Undid, UndidSome};

use crate::entries::{Body, Entry, find, find_file, nothing, put};
use std::alloc::{AllocError, Global};

// A name that a file got, or lost. `from`: its former name, where it was renamed. `was_sure`: that one was sure. `body`: what stood
// under the name before.
#[derive(Drop)]
pub(crate) struct Move {
    pub from: Option<String>,
    pub name: String,
    pub was_sure: bool,
    pub body: Body,
}

// Keeps what a stop may undo. There is room for it.
fn keep(moves: &mut Vec<Move>, it: Move)
    requires { vec_len moves.old + 1 ≤ vec_capacity moves.old }
    ensures { moves.new.items ≡ moves.old.items ++ (it ∷ []) }
{
    let _ = moves.push(it);
}

// Renames the file that stands at a place to the name of another place.
pub(crate) fn rename(
    alloc: Global,
    entries: &mut Vec<Entry>,
    moves: &mut Vec<Move>,
    at: usize,
    from: &str,
    there: usize,
    to: &str,
) -> Result<(), AllocError>
    requires file { IsFile entries.old.items from.now at }
    requires first { IsFirst entries.old.items to.now there }
    requires apart { from.now ≢ to.now }
    ensures done { OnOk result (HasRenamed from.now to.now entries.old.items moves.old.items entries.new.items moves.new.items) }
    ensures failed { OnErr result (Unchanged entries.old.items moves.old.items entries.new.items moves.new.items) }
{
    let was_sure = entries[at].body.is_sure;
    let former = String::from_str(alloc, from)?;
    let name = String::from_str(alloc, to)?;
    moves.reserve(1)?;
    let mut file = put(entries, at, nothing(alloc));
    file.is_sure = true;
    let body = put(entries, there, file);
    let from = Some(former);
    let it = Move {
        from,
        name,
        was_sure,
        body,
    };
    keep(moves, it);
    Ok(())
}

// Removes the file that stands at a place.
pub(crate) fn remove(
    alloc: Global,
    entries: &mut Vec<Entry>,
    moves: &mut Vec<Move>,
    at: usize,
    name: &str,
) -> Result<(), AllocError>
    requires { IsFile entries.old.items name.now at }
    ensures done { OnOk result (HasRemoved name.now entries.old.items moves.old.items entries.new.items moves.new.items) }
    ensures failed { OnErr result (Unchanged entries.old.items moves.old.items entries.new.items moves.new.items) }
{
    let name = String::from_str(alloc, name)?;
    moves.reserve(1)?;
    let body = put(entries, at, nothing(alloc));
    let it = Move {
        from: None,
        name,
        was_sure: true,
        body,
    };
    keep(moves, it);
    Ok(())
}

// Gives a file its former name back, and what it replaced the name that it has. Answers whether that was done.
fn undo_renaming(
    entries: &mut Vec<Entry>,
    from: &str,
    to: &str,
    was_sure: bool,
    replaced: Body,
) -> bool
    ensures { Undid (renaming from.now to.now was_sure (file_of replaced)) result entries.old.items entries.new.items }
{
    let at = match find(entries, from) {
        Some(at) => at,
        None => return false,
    };
    let there = match find_file(entries, to) {
        Some(there) => there,
        None => return false,
    };
    let mut file = put(entries, there, replaced);
    file.is_sure = was_sure;
    drop(put(entries, at, file));
    true
}

// Brings a file back that was removed. Answers whether that was done.
fn undo_removal(entries: &mut Vec<Entry>, name: &str, file: Body) -> bool
    ensures { Undid (removal name.now (file_of file)) result entries.old.items entries.new.items }
{
    match find(entries, name) {
        Some(at) => {
            drop(put(entries, at, file));
            true
        }
        None => false,
    }
}

// Undoes a renaming or a removal. Answers whether that was done.
fn undo(entries: &mut Vec<Entry>, it: Move) -> bool
    ensures { Undid (move_of it) result entries.old.items entries.new.items }
{
    let Move {
        from,
        name,
        was_sure,
        body,
    } = it;
    match from {
        Some(from) => undo_renaming(entries, from.as_str(), name.as_str(), was_sure, body),
        None => undo_removal(entries, name.as_str(), body),
    }
}

// Undoes so many renamings and removals, or fewer, the newest first.
pub(crate) fn undo_newest(entries: &mut Vec<Entry>, moves: &mut Vec<Move>, count: u64)
    ensures { UndidSome moves.old.items entries.old.items entries.new.items }
{
    let mut left = count;
    'moves: while left > 0 {
        match moves.pop() {
            Some(it) => match undo(entries, it) {
                true => {}
                false => return,
            },
            None => return,
        }
        left -= 1;
    }
}
