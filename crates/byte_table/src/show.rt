//! The words of an entry: what it changes, and each field by its name.
use crate::digits::{show_digits, show_text};
use entries::change_items::{
    DiscardReason, DiscardedVersion, DiscardedVersions, DropReason, DroppedCopies, DroppedCopy,
    MovedCopies, NamedVersions, NewCopies, NewHeldObject, NewHeldObjects, NewVersion, NewVersions,
    Rebindings, Scratch,
};
use entries::{Change, Entry};
use kinds::{Day, Digest, Name, ObjectChange, PolicyChange, PoolChange, Segments};
use std::alloc::{AllocError, Global};

/// A space, and a name or path.
fn show_name(out: &mut String, bytes: &[u8]) -> Result<(), AllocError> {
    out.push(' ')?;
    show_text(out, bytes)
}

fn show_digest(out: &mut String, digest: &Digest) -> Result<(), AllocError> {
    out.push_str(" digest ")?;
    show_digits(out, digest.0.as_slice())
}

/// The segments, each behind a space.
fn show_each(out: &mut String, segments: &Segments) -> Result<(), AllocError> {
    for segment in segments.as_slice() {
        write!(out, " {segment:?}")?;
    }
    Ok(())
}

/// The pool's number, and a copy of the segments.
fn show_segments(out: &mut String, pool: u32, segments: &Segments) -> Result<(), AllocError> {
    write!(out, " pool {pool}")?;
    let copy = segments.clone()?;
    if copy != *segments {
        out.push_str(" COPIED OTHERWISE")?;
    }
    show_each(out, &copy)
}

fn show_scratch(out: &mut String, scratch: &Scratch) -> Result<(), AllocError> {
    for volume in scratch.as_slice() {
        write!(out, " {volume:?}")?;
    }
    Ok(())
}

/// The names of a policy domain and of a set in it.
fn show_set(out: &mut String, domain: &Name, set: &Name) -> Result<(), AllocError> {
    show_name(out, domain.as_bytes())?;
    show_name(out, set.as_bytes())
}

/// The names of a policy domain, of a set in it and of a class in that.
fn show_class(out: &mut String, domain: &Name, set: &Name, class: &Name) -> Result<(), AllocError> {
    show_set(out, domain, set)?;
    show_name(out, class.as_bytes())
}

fn show_policy(out: &mut String, policy: &PolicyChange) -> Result<(), AllocError> {
    match policy {
        PolicyChange::Domain {
            verb,
            domain,
            back_retention,
        } => {
            let days = back_retention.count();
            write!(out, "{verb:?} domain")?;
            show_name(out, domain.as_bytes())?;
            write!(out, " backretention {days}")
        }
        PolicyChange::Set { verb, domain, set } => {
            write!(out, "{verb:?} set")?;
            show_set(out, domain, set)
        }
        PolicyChange::Class {
            verb,
            domain,
            set,
            class,
        } => {
            write!(out, "{verb:?} class")?;
            show_class(out, domain, set, class)
        }
        PolicyChange::Group {
            verb,
            domain,
            set,
            class,
            group,
        } => {
            let rule = group.rule();
            write!(out, "{verb:?} group")?;
            show_class(out, domain, set, class)?;
            write!(out, " {rule:?}")
        }
        PolicyChange::ArchiveGroup {
            verb,
            domain,
            set,
            class,
            group,
        } => {
            let rule = group.rule();
            write!(out, "{verb:?} group")?;
            show_class(out, domain, set, class)?;
            write!(out, " {rule:?}")
        }
        PolicyChange::Assign { domain, set, class } => {
            out.push_str("assign")?;
            show_class(out, domain, set, class)
        }
        PolicyChange::Activate { domain, set } => {
            out.push_str("activate")?;
            show_set(out, domain, set)
        }
    }
}

fn show_object(out: &mut String, object: &ObjectChange) -> Result<(), AllocError> {
    match object {
        ObjectChange::Node { verb, node, domain } => {
            write!(out, "{verb:?} node")?;
            show_name(out, node.as_bytes())?;
            out.push_str(" domain")?;
            show_name(out, domain.as_bytes())
        }
        ObjectChange::Filespace {
            verb,
            node,
            name,
            filespace,
        } => {
            write!(out, "{verb:?} filespace {filespace} of node {node}")?;
            show_name(out, name.as_bytes())
        }
    }
}

fn show_pool(out: &mut String, pool: &PoolChange) -> Result<(), AllocError> {
    match pool {
        PoolChange::DevClass {
            verb,
            class,
            capacity,
        } => {
            let bytes = capacity.bytes();
            write!(out, "{verb:?} device class")?;
            show_name(out, class.as_bytes())?;
            write!(out, " capacity {bytes}")
        }
        PoolChange::Pool {
            verb,
            pool,
            class,
            kind,
            settings,
        } => {
            let rule = settings.rule();
            write!(out, "{verb:?} pool")?;
            show_name(out, pool.as_bytes())?;
            show_name(out, class.as_bytes())?;
            write!(out, " {kind:?} {rule:?}")
        }
        PoolChange::Volume {
            verb,
            volume,
            pool,
            file,
            capacity,
            access,
        } => {
            let bytes = capacity.bytes();
            write!(out, "{verb:?} volume")?;
            show_name(out, volume.as_bytes())?;
            write!(out, " pool {pool} file {file} capacity {bytes} {access:?}")
        }
    }
}

/// A copy of the change.
fn show_policy_copy(out: &mut String, policy: &PolicyChange) -> Result<(), AllocError> {
    let copy = policy.clone()?;
    let shown = show_policy(out, &copy);
    drop(copy);
    shown
}

/// A copy of the change.
fn show_object_copy(out: &mut String, object: &ObjectChange) -> Result<(), AllocError> {
    let copy = object.clone()?;
    let shown = show_object(out, &copy);
    drop(copy);
    shown
}

/// A copy of the change.
fn show_pool_copy(out: &mut String, pool: &PoolChange) -> Result<(), AllocError> {
    let copy = pool.clone()?;
    let shown = show_pool(out, &copy);
    drop(copy);
    shown
}

fn show_version(out: &mut String, version: &NewVersion) -> Result<(), AllocError> {
    let size = version.size.bytes();
    let mtime = version.mtime;
    let object = version.object;
    out.push(';')?;
    show_name(out, version.path.as_bytes())?;
    show_name(out, version.class.as_bytes())?;
    write!(out, " size {size} mtime {mtime}")?;
    show_digest(out, &version.digest)?;
    write!(out, " object {object}")?;
    show_segments(out, version.pool, &version.segments)
}

fn show_backup(out: &mut String, versions: &NewVersions) -> Result<(), AllocError> {
    let filespace = versions.filespace;
    write!(out, "backup filespace {filespace}")?;
    show_scratch(out, &versions.scratch)?;
    for version in versions.items.as_slice() {
        show_version(out, version)?;
    }
    Ok(())
}

fn show_until(out: &mut String, until: Option<u32>) -> Result<(), AllocError> {
    match until {
        Some(day) => write!(out, " until {day}"),
        None => Ok(()),
    }
}

fn show_held_object(out: &mut String, held: &NewHeldObject) -> Result<(), AllocError> {
    let size = held.size.bytes();
    let mtime = held.mtime;
    let object = held.object;
    out.push(';')?;
    show_name(out, held.path.as_bytes())?;
    out.push_str(" described as")?;
    show_name(out, held.description.as_bytes())?;
    write!(out, " size {size} mtime {mtime}")?;
    show_digest(out, &held.digest)?;
    write!(out, " object {object}")?;
    show_segments(out, held.pool, &held.segments)?;
    show_until(out, held.until)
}

fn show_hold(out: &mut String, objects: &NewHeldObjects) -> Result<(), AllocError> {
    let filespace = objects.filespace;
    write!(out, "hold filespace {filespace}")?;
    show_scratch(out, &objects.scratch)?;
    for held in objects.items.as_slice() {
        show_held_object(out, held)?;
    }
    Ok(())
}

fn show_rebindings(out: &mut String, paths: &Rebindings) -> Result<(), AllocError> {
    let filespace = paths.filespace;
    write!(out, "rebind filespace {filespace}")?;
    for item in paths.items.as_slice() {
        out.push(';')?;
        show_name(out, item.path.as_bytes())?;
        show_name(out, item.class.as_bytes())?;
    }
    Ok(())
}

fn show_named(out: &mut String, what: &str, versions: &NamedVersions) -> Result<(), AllocError> {
    let filespace = versions.filespace;
    write!(out, "{what} filespace {filespace}")?;
    for item in versions.items.as_slice() {
        let object = item.object;
        out.push(';')?;
        show_name(out, item.path.as_bytes())?;
        write!(out, " object {object}")?;
    }
    Ok(())
}

fn show_moved(out: &mut String, copies: &MovedCopies) -> Result<(), AllocError> {
    out.push_str("move")?;
    show_scratch(out, &copies.scratch)?;
    for item in copies.items.as_slice() {
        let object = item.object;
        let from = item.from;
        let placed = item.placed;
        write!(out, "; object {object} from {from} placed {placed}")?;
        show_segments(out, item.pool, &item.segments)?;
    }
    Ok(())
}

fn show_copies(out: &mut String, copies: &NewCopies) -> Result<(), AllocError> {
    out.push_str("copy")?;
    show_scratch(out, &copies.scratch)?;
    for item in copies.items.as_slice() {
        let object = item.object;
        write!(out, "; object {object}")?;
        show_segments(out, item.pool, &item.segments)?;
    }
    Ok(())
}

fn show_drop_reason(out: &mut String, reason: &DropReason) -> Result<(), AllocError> {
    match reason {
        DropReason::Audit { file } => write!(out, "audit of file {file}"),
        DropReason::Volume { file } => write!(out, "volume in file {file}"),
    }
}

fn show_dropped_copy(out: &mut String, copy: &DroppedCopy) -> Result<(), AllocError> {
    let object = copy.object;
    let pool = copy.pool;
    let placed = copy.placed;
    write!(out, "; object {object} pool {pool} placed {placed}")?;
    show_digest(out, &copy.found)
}

fn show_dropped(out: &mut String, copies: &DroppedCopies) -> Result<(), AllocError> {
    out.push_str("drop copies, ")?;
    show_drop_reason(out, &copies.reason)?;
    for item in copies.items.as_slice() {
        show_dropped_copy(out, item)?;
    }
    Ok(())
}

fn show_discard_reason(out: &mut String, reason: &DiscardReason) -> Result<(), AllocError> {
    match reason {
        DiscardReason::Audit { file } => write!(out, "audit of file {file}"),
        DiscardReason::Volume { file } => write!(out, "volume in file {file}"),
        DiscardReason::Filespace { filespace } => write!(out, "filespace {filespace}"),
    }
}

fn show_discarded_version(out: &mut String, version: &DiscardedVersion) -> Result<(), AllocError> {
    let object = version.object;
    write!(out, "; object {object}")?;
    show_digest(out, &version.found)
}

fn show_discarded(out: &mut String, versions: &DiscardedVersions) -> Result<(), AllocError> {
    out.push_str("discard, ")?;
    show_discard_reason(out, &versions.reason)?;
    for item in versions.items.as_slice() {
        show_discarded_version(out, item)?;
    }
    Ok(())
}

fn show_day(out: &mut String, day: &Day) -> Result<(), AllocError> {
    let number = day.number();
    write!(out, "day {number}")
}

fn show_file(out: &mut String, what: &str, file: &u32) -> Result<(), AllocError> {
    write!(out, "{what}, file {file}")
}

fn show_begin(out: &mut String, file: &u32, after: &Option<u32>) -> Result<(), AllocError> {
    show_file(out, "a database backup begins", file)?;
    match after {
        Some(before) => write!(out, ", after {before}"),
        None => Ok(()),
    }
}

fn show_change(out: &mut String, change: &Change) -> Result<(), AllocError> {
    match change {
        Change::Day { day } => show_day(out, day),
        Change::Policy(policy) => show_policy_copy(out, policy),
        Change::Object(object) => show_object_copy(out, object),
        Change::Pool(pool) => show_pool_copy(out, pool),
        Change::Backup(versions) => show_backup(out, versions),
        Change::Rebind(paths) => show_rebindings(out, paths),
        Change::Gone(versions) => show_named(out, "gone", versions),
        Change::Move(copies) => show_moved(out, copies),
        Change::Copy(copies) => show_copies(out, copies),
        Change::DropCopies(copies) => show_dropped(out, copies),
        Change::Expire(versions) => show_named(out, "expire", versions),
        Change::Discard(versions) => show_discarded(out, versions),
        Change::Reuse { file } => show_file(out, "reuse", file),
        Change::DbBegin { file, after } => show_begin(out, file, after),
        Change::DbEnd { file } => show_file(out, "a database backup is whole", file),
        Change::DbDelete { file } => show_file(out, "a database backup goes", file),
        Change::Hold(objects) => show_hold(out, objects),
    }
}

/// The actor's number, and the change in words.
pub fn show(alloc: Global, entry: &Entry) -> Result<String, AllocError> {
    let actor = entry.actor;
    let mut out = format!(in alloc; "actor {actor}: ")?;
    show_change(&mut out, &entry.change)?;
    Ok(out)
}
