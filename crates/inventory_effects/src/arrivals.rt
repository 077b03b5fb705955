//! Objects that clients sent: versions of their files, and objects that are held.

ghost use Rattle.std.specs.Prelude.{◌≡◌, ◌+◌, ◌<◌, ◌^◌, ◌∷◌, [], max, MatchResult};
ghost use Rattle.kinds.specs.Answers.{AnswersBy};
ghost use Rattle.kinds.specs.declared.refusal.Refusal.TheVariants.{Memory};
ghost use Rattle.inventory_rows.specs.version_groups.Groups.{WasSo};
ghost use Rattle.inventory_rows.specs.object_rows.Filespaces.{group_at};
ghost use Rattle.inventory_rows.specs.State.{inv_of};
ghost use Rattle.inventory_rules.specs.Common.{each, CanEach};
ghost use Rattle.inventory_rules.specs.Copies.{placed_now};
ghost use Rattle.inventory_rules.specs.Versions.{back_up, held_too, hold, inserted, new_held, new_object, new_version, CanBackUp, CanHold, CanInsert};
ghost use Rattle.inventory_effects.specs.Undoing.{Goes};

use crate::puts::put_all;
use crate::undo::{Undo, UndoLog};
use entries::change_items::{NewHeldObject, NewVersion};
use inventory_rows::Tables;
use inventory_rows::object_rows::HeldObject;
use inventory_rows::version_groups::{Copies, CopyChange, CopyRow, Version};
use kinds::{Digest, Name, ObjectSize, Path, Refusal, Segments};
use std::alloc::Global;

/// A copy that the next transaction places.
pub(crate) fn placed_now(
    tables: &Tables,
    pool: u32,
    segments: &Segments,
) -> Result<CopyRow, Refusal>
    requires { tables.now.number + 1 < 2 ^ 64 }
    ensures { AnswersBy (λ row. row) result (placed_now pool segments.now (inv_of tables.now)) }
{
    Ok(CopyRow {
        pool,
        placed: tables.number + 1,
        segments: segments.clone()?,
    })
}

/// One copy alone.
fn one_copy(alloc: Global, copy: CopyRow) -> Result<Copies, Refusal>
    ensures { AnswersBy (λ copies. copies) result (copy ∷ []) }
{
    let mut copies = Copies::new(alloc);
    copies.change(CopyChange::Add(copy))?;
    Ok(copies)
}

/// What is kept of a new object, stored today, with one copy.
fn new_object(
    alloc: Global,
    tables: &Tables,
    object: u64,
    size: ObjectSize,
    mtime: u64,
    digest: Digest,
    pool: u32,
    segments: &Segments,
) -> Result<Version, Refusal>
    requires { tables.now.number + 1 < 2 ^ 64 }
    ensures { AnswersBy (λ version. version) result (new_object (inv_of tables.now) object size mtime digest pool segments.now) }
{
    let copy = placed_now(tables, pool, segments)?;
    Ok(Version {
        object,
        size,
        mtime,
        digest,
        stored: tables.today,
        since: None,
        copies: one_copy(alloc, copy)?,
    })
}

/// The version that a client's file becomes.
fn new_version(alloc: Global, tables: &Tables, item: &NewVersion) -> Result<Version, Refusal>
    requires { tables.now.number + 1 < 2 ^ 64 }
    ensures { AnswersBy (λ version. version) result (new_version (inv_of tables.now) item.now) }
{
    new_object(
        alloc,
        tables,
        item.object,
        item.size,
        item.mtime,
        item.digest,
        item.pool,
        &item.segments,
    )
}

/// What is kept of an object that a client archived.
fn new_held(alloc: Global, tables: &Tables, item: &NewHeldObject) -> Result<HeldObject, Refusal>
    requires { tables.now.number + 1 < 2 ^ 64 }
    ensures { AnswersBy (λ held. held) result (new_held (inv_of tables.now) item.now) }
{
    let path = item.path.clone()?;
    let description = item.description.clone()?;
    let version = new_object(
        alloc,
        tables,
        item.object,
        item.size,
        item.mtime,
        item.digest,
        item.pool,
        &item.segments,
    )?;
    Ok(HeldObject {
        path,
        description,
        version,
        until: item.until,
    })
}

/// The class of a path, or this one where it has none, and whether it has an active version.
fn class_before(
    tables: &Tables,
    filespace: u32,
    path: &Path,
    class: &Name,
) -> Result<(Name, bool), Refusal>
    ensures { MatchResult result (λ was. WasSo was.0 was.1 (group_at filespace path.now tables.now.objects.filespaces)) (λ e. e ≡ Memory) }
{
    let _rows = tables.objects.filespaces();
    match tables.objects.group(filespace, path) {
        Some(group) => Ok((group.class.clone()?, group.versions.has_active())),
        None => Ok((class.clone()?, false)),
    }
}

/// The next object number, once this number was drawn.
fn next_behind(next_object: u64, object: u64) -> u64
    requires { object + 1 < 2 ^ 64 }
    ensures { result ≡ max next_object (object + 1) }
{
    next_object.max(object + 1)
}

/// A client's file becomes the newest version of its path; its segments don't come yet.
fn insert(
    alloc: Global,
    tables: &mut Tables,
    log: &mut UndoLog,
    filespace: u32,
    item: &NewVersion,
) -> Result<(), Refusal>
    requires { CanInsert filespace item.now.object (inv_of tables.old) }
    ensures { Goes result log.old (inv_of tables.old) log.new (inv_of tables.new) (inserted filespace item.now (inv_of tables.old)) }
{
    let version = new_version(alloc, tables, item)?;
    let (class, active) = class_before(tables, filespace, &item.path, &item.class)?;
    let path = item.path.clone()?;
    let next_object = tables.next_object;
    log.push(Undo::Version {
        filespace,
        path,
        class,
        active,
        next_object,
    })?;
    match tables
        .objects
        .insert(filespace, &item.path, &item.class, version)
    {
        Ok(()) => {
            tables.next_object = next_behind(next_object, item.object);
            Ok(())
        }
        Err(refusal) => {
            log.pop();
            Err(refusal)
        }
    }
}

/// A client's file becomes the newest version of its path.
fn back_up(
    alloc: Global,
    tables: &mut Tables,
    log: &mut UndoLog,
    filespace: u32,
    item: &NewVersion,
) -> Result<(), Refusal>
    requires { CanBackUp filespace item.now (inv_of tables.old) }
    ensures { Goes result log.old (inv_of tables.old) log.new (inv_of tables.new) (back_up filespace item.now (inv_of tables.old)) }
{
    insert(alloc, tables, log, filespace, item)?;
    put_all(tables, log, item.object, item.segments.as_slice())
}

/// Some files become the newest versions of their paths, one after the other. Its one refusal is want of memory; what was made
/// by then is in the log.
pub fn back_up_all(
    alloc: Global,
    tables: &mut Tables,
    log: &mut UndoLog,
    filespace: u32,
    items: &[NewVersion],
) -> Result<(), Refusal>
    requires { CanEach (CanBackUp filespace) (back_up filespace) items.now (inv_of tables.old) }
    ensures { Goes result log.old (inv_of tables.old) log.new (inv_of tables.new) (each (back_up filespace) items.now (inv_of tables.old)) }
{
    'items: for item in items {
        back_up(alloc, tables, log, filespace, item)?;
    }
    Ok(())
}

/// An object is held from now on; its segments don't come yet.
fn begin_hold(
    alloc: Global,
    tables: &mut Tables,
    log: &mut UndoLog,
    filespace: u32,
    item: &NewHeldObject,
) -> Result<(), Refusal>
    requires { CanInsert filespace item.now.object (inv_of tables.old) }
    ensures { Goes result log.old (inv_of tables.old) log.new (inv_of tables.new) (held_too filespace item.now (inv_of tables.old)) }
{
    let held = new_held(alloc, tables, item)?;
    let next_object = tables.next_object;
    log.push(Undo::Held {
        object: item.object,
        next_object,
    })?;
    match tables.objects.hold(filespace, held) {
        Ok(()) => {
            tables.next_object = next_behind(next_object, item.object);
            Ok(())
        }
        Err(refusal) => {
            log.pop();
            Err(refusal)
        }
    }
}

/// An object is held from now on.
fn hold(
    alloc: Global,
    tables: &mut Tables,
    log: &mut UndoLog,
    filespace: u32,
    item: &NewHeldObject,
) -> Result<(), Refusal>
    requires { CanHold filespace item.now (inv_of tables.old) }
    ensures { Goes result log.old (inv_of tables.old) log.new (inv_of tables.new) (hold filespace item.now (inv_of tables.old)) }
{
    begin_hold(alloc, tables, log, filespace, item)?;
    put_all(tables, log, item.object, item.segments.as_slice())
}

/// Some objects are held from now on, one after the other. Its one refusal is want of memory; what was made by then is in the log.
pub fn hold_all(
    alloc: Global,
    tables: &mut Tables,
    log: &mut UndoLog,
    filespace: u32,
    items: &[NewHeldObject],
) -> Result<(), Refusal>
    requires { CanEach (CanHold filespace) (hold filespace) items.now (inv_of tables.old) }
    ensures { Goes result log.old (inv_of tables.old) log.new (inv_of tables.new) (each (hold filespace) items.now (inv_of tables.old)) }
{
    'items: for item in items {
        hold(alloc, tables, log, filespace, item)?;
    }
    Ok(())
}
