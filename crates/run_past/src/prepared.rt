//! What stood of that which a transaction may touch.
ghost use Rattle.std.specs.Prelude.{◌≡◌, ◌==◌, ℕ, IfOk, IfErr};
ghost use Rattle.std.specs.List.{flat_map, list_any};
ghost use Rattle.kinds.specs.declared.refusal.Refusal.TheVariants.{Memory};
ghost use Rattle.inventory_rows.specs.object_rows.Filespaces.{versions_at};
ghost use Rattle.inventory_rows.specs.Search.{version};
ghost use Rattle.inventory_rows.specs.State.{inv_of};
ghost use Rattle.inventory_work.specs.Lists.{Writes};
ghost use Rattle.inventory_rules.specs.Versions.{is_in};
ghost use Rattle.run_past.specs.Before.{IsBefore, found, going, going_from, going_in, has_going, lie_in, named, newest_of, path_going, path_if, paths, stood};

use change_items::{DiscardedVersion, DroppedCopy, MovedCopy, NamedVersion, NewCopy, NewVersion};
use entries::Change;
use inventory_rows::version_groups::{Filespace, Group, Version, Versions};
use inventory_rows::{Tables, are_ascending};
use kinds::{Path, Refusal};
use std::alloc::Global;

/// A path of a filespace.
#[derive(Drop)]
pub(crate) struct PathAt {
    /// The filespace, by its number.
    pub(crate) filespace: u32,
    /// The path in it.
    pub(crate) path: Path,
}

/// What stood of the objects and paths that a transaction may touch, before it is made.
#[derive(Drop)]
pub struct Prepared {
    pub(crate) versions: Vec<Version>,
    pub(crate) paths: Vec<PathAt>,
}

/// An item of a transaction that names an object that is kept.
pub(crate) trait ItemNamed {
    /// The object's number.
    ghost object: { Self → ℕ };

    /// The object's number.
    fn object(&self) -> u64
        ensures { result ≡ object self.now };
}

impl ItemNamed for NamedVersion {
    ghost object = { λ i. i.object };

    fn object(&self) -> u64 {
        self.object
    }
}

impl ItemNamed for MovedCopy {
    ghost object = { λ i. i.object };

    fn object(&self) -> u64 {
        self.object
    }
}

impl ItemNamed for NewCopy {
    ghost object = { λ i. i.object };

    fn object(&self) -> u64 {
        self.object
    }
}

impl ItemNamed for DroppedCopy {
    ghost object = { λ i. i.object };

    fn object(&self) -> u64 {
        self.object
    }
}

impl ItemNamed for DiscardedVersion {
    ghost object = { λ i. i.object };

    fn object(&self) -> u64 {
        self.object
    }
}

/// What stands of the object is kept beside the others.
fn keep(kept: &mut Vec<Version>, tables: &Tables, object: u64) -> Result<(), Refusal>
    ensures { Writes result kept.old.items kept.new.items (found (version object (inv_of tables.now))) }
{
    match tables.objects.find(object) {
        None => Ok(()),
        Some(version) => {
            kept.push(version.clone()?)?;
            Ok(())
        }
    }
}

/// What stands of the objects that items name.
fn named<T: ItemNamed>(alloc: Global, tables: &Tables, items: &[T]) -> Result<Vec<Version>, Refusal>
    ensures value { IfOk result (λ kept. kept.items ≡ named T.object items.now (inv_of tables.now)) }
    ensures memory { IfErr result (λ e. e ≡ Memory) }
{
    let mut kept = Vec::new(alloc);
    'items: for item in items {
        keep(&mut kept, tables, item.object())?;
    }
    Ok(kept)
}

/// What stands of the newest object of a path.
fn keep_newest(
    kept: &mut Vec<Version>,
    tables: &Tables,
    filespace: u32,
    path: &Path,
) -> Result<(), Refusal>
    ensures { Writes result kept.old.items kept.new.items (newest_of (versions_at filespace path.now (inv_of tables.now).clients.filespaces) (inv_of tables.now)) }
{
    match tables.objects.group(filespace, path) {
        None => Ok(()),
        Some(group) => match group.versions.as_slice() {
            [] => Ok(()),
            [newest, ..] => keep(kept, tables, newest.object),
        },
    }
}

/// What stands of the newest object of each item's path.
fn newest(
    alloc: Global,
    tables: &Tables,
    filespace: u32,
    items: &[NewVersion],
) -> Result<Vec<Version>, Refusal>
    ensures value { IfOk result (λ kept. kept.items ≡ flat_map (λ i. newest_of (versions_at filespace i.path (inv_of tables.now).clients.filespaces) (inv_of tables.now)) items.now) }
    ensures memory { IfErr result (λ e. e ≡ Memory) }
{
    let mut kept = Vec::new(alloc);
    'items: for item in items {
        keep_newest(&mut kept, tables, filespace, &item.path)?;
    }
    Ok(kept)
}

/// What stands of each object that a change may change or remove.
fn stood(alloc: Global, tables: &Tables, change: &Change) -> Result<Vec<Version>, Refusal>
    ensures value { IfOk result (λ kept. kept.items ≡ stood change.now (inv_of tables.now)) }
    ensures memory { IfErr result (λ e. e ≡ Memory) }
{
    match change {
        Change::Backup(c) => newest(alloc, tables, c.filespace, c.items.as_slice()),
        Change::Gone(c) => named(alloc, tables, c.items.as_slice()),
        Change::Move(c) => named(alloc, tables, c.items.as_slice()),
        Change::Copy(c) => named(alloc, tables, c.items.as_slice()),
        Change::DropCopies(c) => named(alloc, tables, c.items.as_slice()),
        Change::Expire(c) => named(alloc, tables, c.items.as_slice()),
        Change::Discard(c) => named(alloc, tables, c.items.as_slice()),
        _ => Ok(Vec::new(alloc)),
    }
}

/// The path is kept beside the others, where it has versions.
fn keep_path(
    kept: &mut Vec<PathAt>,
    tables: &Tables,
    filespace: u32,
    path: &Path,
) -> Result<(), Refusal>
    ensures { Writes result kept.old.items kept.new.items (path_if filespace path.now (inv_of tables.now)) }
{
    if tables.objects.group(filespace, path).is_none() {
        return Ok(());
    }
    let path = path.clone()?;
    kept.push(PathAt { filespace, path })?;
    Ok(())
}

/// The paths of items, those that have versions.
fn item_paths(
    alloc: Global,
    tables: &Tables,
    filespace: u32,
    items: &[NamedVersion],
) -> Result<Vec<PathAt>, Refusal>
    ensures value { IfOk result (λ kept. kept.items ≡ flat_map (λ i. path_if filespace i.path (inv_of tables.now)) items.now) }
    ensures memory { IfErr result (λ e. e ≡ Memory) }
{
    let mut kept = Vec::new(alloc);
    'items: for item in items {
        keep_path(&mut kept, tables, filespace, &item.path)?;
    }
    Ok(kept)
}

/// One of the versions is of an object that goes.
fn has_going(items: &[DiscardedVersion], versions: &Versions) -> bool
    ensures { result ≡ has_going items.now versions.now }
{
    versions
        .as_slice()
        .iter()
        .any(|version| is_going(items, version.object))
}

/// One of the items names the object.
fn is_going(items: &[DiscardedVersion], object: u64) -> bool
    ensures { result ≡ list_any (λ i. i.object == object) items.now }
{
    items.iter().any(|item| item.object == object)
}

/// The path is kept beside the others, where it has an object that goes.
fn keep_if_going(
    kept: &mut Vec<PathAt>,
    tables: &Tables,
    items: &[DiscardedVersion],
    filespace: u32,
    path: &Path,
    group: &Group,
) -> Result<(), Refusal>
    ensures { Writes result kept.old.items kept.new.items (path_going items.now filespace path.now group.now (inv_of tables.now)) }
{
    if has_going(items, &group.versions) {
        keep_path(kept, tables, filespace, path)
    } else {
        Ok(())
    }
}

/// The paths of a filespace that have an object that goes.
fn keep_going(
    kept: &mut Vec<PathAt>,
    tables: &Tables,
    items: &[DiscardedVersion],
    number: u32,
    filespace: &Filespace,
) -> Result<(), Refusal>
    ensures { Writes result kept.old.items kept.new.items (going_in items.now number filespace.now (inv_of tables.now)) }
{
    'groups: for (path, group) in filespace.groups.as_map() {
        keep_if_going(kept, tables, items, number, path, group)?;
    }
    Ok(())
}

fn is_in(number: u32, filespace: Option<u32>) -> bool
    ensures { result ≡ is_in number filespace }
{
    match filespace {
        None => false,
        Some(filespace) => filespace == number,
    }
}

/// One of the objects that go is kept in the filespace.
fn lie_in(tables: &Tables, items: &[DiscardedVersion], number: u32) -> bool
    ensures { result ≡ lie_in items.now number (inv_of tables.now) }
{
    items.iter().any(|item| is_in(number, tables.objects.filespace_of(item.object)))
}

/// The paths of a filespace that have an object that goes, where one is kept in it.
fn keep_from(
    kept: &mut Vec<PathAt>,
    tables: &Tables,
    items: &[DiscardedVersion],
    number: u32,
    filespace: &Filespace,
) -> Result<(), Refusal>
    ensures { Writes result kept.old.items kept.new.items (going_from items.now number filespace.now (inv_of tables.now)) }
{
    if lie_in(tables, items, number) {
        keep_going(kept, tables, items, number, filespace)
    } else {
        Ok(())
    }
}

/// The paths that have an object that goes. It walks the versions of the filespaces in which these are kept, since an object's path isn't found by its number.
fn going(alloc: Global, tables: &Tables, items: &[DiscardedVersion]) -> Result<Vec<PathAt>, Refusal>
    ensures value { IfOk result (λ kept. kept.items ≡ going items.now (inv_of tables.now).clients.filespaces (inv_of tables.now)) }
    ensures memory { IfErr result (λ e. e ≡ Memory) }
{
    let mut kept = Vec::new(alloc);
    'filespaces: for (number, filespace) in tables.objects.filespaces() {
        keep_from(&mut kept, tables, items, *number, filespace)?;
    }
    Ok(kept)
}

/// The paths with versions that a change may empty.
fn paths(alloc: Global, tables: &Tables, change: &Change) -> Result<Vec<PathAt>, Refusal>
    ensures value { IfOk result (λ kept. kept.items ≡ paths change.now (inv_of tables.now)) }
    ensures memory { IfErr result (λ e. e ≡ Memory) }
{
    match change {
        Change::Expire(c) => item_paths(alloc, tables, c.filespace, c.items.as_slice()),
        Change::Discard(c) => going(alloc, tables, c.items.as_slice()),
        _ => Ok(Vec::new(alloc)),
    }
}

/// What stands of that which a change may touch. Refused only for want of memory.
pub(crate) fn before(alloc: Global, tables: &Tables, change: &Change) -> Result<Prepared, Refusal>
    ensures value { IfOk result (λ p. IsBefore change.now (inv_of tables.now) p) }
    ensures memory { IfErr result (λ e. e ≡ Memory) }
{
    are_ascending(tables);
    let versions = stood(alloc, tables, change)?;
    let paths = paths(alloc, tables, change)?;
    Ok(Prepared { versions, paths })
}
