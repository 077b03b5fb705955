//! Versions of files, as lines ask for them.
ghost use Rattle.std.specs.Prelude.{◌≡◌, None};

use crate::answer::{Answer, Fault};
use crate::words::{day, is_there, large, name, number, path};
use kinds::{Day, Digest, Name, ObjectSize, Path};
use object_rows::Objects;
use std::alloc::Global;
use version_groups::{Copies, Version};

fn five_bytes() -> ObjectSize {
    let Some(size) = ObjectSize::new(5) else {
        unreachable!()
    };
    size
}

/// An active version of five bytes without copies.
fn version(alloc: Global, object: u64, stored: Day) -> Version
    ensures object { result.object ≡ object }
    ensures active { result.since ≡ None }
{
    Version {
        object,
        size: five_bytes(),
        mtime: 7,
        digest: Digest([0; 32]),
        stored,
        since: None,
        copies: Copies::new(alloc),
    }
}

/// Stores a version of an object that is new.
fn put(
    alloc: Global,
    objects: &mut Objects,
    filespace: u32,
    path: &Path,
    class: &Name,
    object: u64,
    stored: Day,
) -> Result<Answer, Fault> {
    if objects.has_object(object) {
        return Ok(Answer::Unmet);
    }
    objects.insert(filespace, path, class, version(alloc, object, stored))?;
    Ok(Answer::Done)
}

/// `FILESPACE PATH CLASS OBJECT DAY`.
pub fn insert(alloc: Global, objects: &mut Objects, words: &[&str]) -> Result<Answer, Fault> {
    let [filespace, of, class, object, stored] = words else {
        return Err(Fault::NoCommand);
    };
    let filespace = number(filespace)?;
    let object = large(object)?;
    let stored = day(stored)?;
    let of = path(alloc, of)?;
    let class = name(alloc, class)?;
    put(alloc, objects, filespace, &of, &class, object, stored)
}

/// Marks the object gone, unless another version is the active one.
fn mark_gone(
    objects: &mut Objects,
    filespace: u32,
    path: &Path,
    object: u64,
    today: Day,
) -> Result<Answer, Fault> {
    if objects.has_at(filespace, path, object) && !objects.is_active(filespace, path, object) {
        return Ok(Answer::Unmet);
    }
    objects.mark_gone(filespace, path, object, today)?;
    Ok(Answer::Done)
}

/// `FILESPACE PATH OBJECT DAY`.
pub fn gone(alloc: Global, objects: &mut Objects, words: &[&str]) -> Result<Answer, Fault> {
    let [filespace, of, object, today] = words else {
        return Err(Fault::NoCommand);
    };
    let filespace = number(filespace)?;
    let object = large(object)?;
    let today = day(today)?;
    mark_gone(objects, filespace, &path(alloc, of)?, object, today)
}

/// Undoes the newest version of a path, where it has one.
fn undo_newest(
    objects: &mut Objects,
    filespace: u32,
    path: &Path,
    class: Name,
    active: bool,
) -> Answer {
    if objects.count_at(filespace, path) == 0 {
        return Answer::Unmet;
    }
    objects.undo_insert(filespace, path, class, active);
    Answer::Done
}

/// `FILESPACE PATH CLASS there|gone`.
pub fn undo(alloc: Global, objects: &mut Objects, words: &[&str]) -> Result<Answer, Fault> {
    let [filespace, of, class, file] = words else {
        return Err(Fault::NoCommand);
    };
    let filespace = number(filespace)?;
    let active = is_there(file)?;
    let of = path(alloc, of)?;
    let class = name(alloc, class)?;
    Ok(undo_newest(objects, filespace, &of, class, active))
}

/// `FILESPACE PATH CLASS`.
pub fn rebind(alloc: Global, objects: &mut Objects, words: &[&str]) -> Result<Answer, Fault> {
    let [filespace, of, class] = words else {
        return Err(Fault::NoCommand);
    };
    let filespace = number(filespace)?;
    let of = path(alloc, of)?;
    objects.rebind(filespace, &of, name(alloc, class)?)?;
    Ok(Answer::Done)
}

/// `FILESPACE PATH OBJECT`.
pub fn remove(alloc: Global, objects: &mut Objects, words: &[&str]) -> Result<Answer, Fault> {
    let [filespace, of, object] = words else {
        return Err(Fault::NoCommand);
    };
    let filespace = number(filespace)?;
    let object = large(object)?;
    objects.remove(filespace, &path(alloc, of)?, object)?;
    Ok(Answer::Done)
}
