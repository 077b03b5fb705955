// Stored copies.
ghost use Rattle.std.specs.Prelude.{◌≡◌, ◌==◌};
ghost use Rattle.std.specs.List.{flat_map, list_any};
ghost use Rattle.kinds.specs.Answers.{Answers, AnswersBy};
ghost use Rattle.inventory_rows.specs.State.{inv_of};
ghost use Rattle.inventory_work.specs.Lists.{Writes};
ghost use Rattle.inventory_work.specs.Copies.{lies_there, copy_lines, copies_of_version, copies_of_filespace, copies_of_filespaces, copies_of_held, copies_where, node_of, has_pool, on_pool, missing_lines, missing_of_filespace, missing_of_filespaces, missing_of_held, missing_in, missing};

use crate::lines::{CopyLine, MissingLine};
use crate::listed::Listed;
use crate::order::sort_by_object;
use inventory_rows::Tables;
use inventory_rows::object_rows::HeldRow;
use inventory_rows::version_groups::{CopyRow, Filespace, Version};
use kinds::{Refusal, Segment};
use std::alloc::Global;
use std::collections::BTreeMap;

/// Where a copy lies.
#[derive(Clone, Copy)]
pub(crate) enum Where {
    /// In the pool with this number.
    Pool(u32),
    /// In part at least on the volume with this file number.
    Volume(u32),
}

fn is_on(file: u32, segments: &[Segment]) -> bool
    ensures { result ≡ list_any (λ s. s.file == file) segments.now }
{
    segments.iter().any(|s| s.file == file)
}

fn lies_there(here: Where, copy: &CopyRow) -> bool
    ensures { result ≡ lies_there here copy.now }
{
    match here {
        Where::Pool(pool) => copy.pool == pool,
        Where::Volume(file) => is_on(file, copy.segments.as_slice()),
    }
}

fn write_copy(
    lines: &mut Vec<CopyLine>,
    here: Where,
    node: u32,
    version: &Version,
    copy: &CopyRow,
) -> Result<(), Refusal>
    ensures { Writes result lines.old.items lines.new.items (copy_lines here node version.now copy.now) }
{
    if !lies_there(here, copy) {
        return Ok(());
    }
    lines.push(CopyLine {
        object: version.object,
        size: version.size,
        digest: version.digest,
        stored: version.stored,
        node,
        pool: copy.pool,
        placed: copy.placed,
    })?;
    Ok(())
}

pub(crate) fn write_copies(
    lines: &mut Vec<CopyLine>,
    here: Where,
    node: u32,
    version: &Version,
    copies: &[CopyRow],
) -> Result<(), Refusal>
    ensures { Writes result lines.old.items lines.new.items (flat_map (copy_lines here node version.now) copies.now) }
{
    'copies: for copy in copies {
        write_copy(lines, here, node, version, copy)?;
    }
    Ok(())
}

fn write_copies_of(
    lines: &mut Vec<CopyLine>,
    here: Where,
    node: u32,
    versions: &[Version],
) -> Result<(), Refusal>
    ensures { Writes result lines.old.items lines.new.items (flat_map (copies_of_version here node) versions.now) }
{
    'versions: for version in versions {
        write_copies(lines, here, node, version, version.copies.as_slice())?;
    }
    Ok(())
}

fn write_copies_of_filespace(
    lines: &mut Vec<CopyLine>,
    here: Where,
    filespace: &Filespace,
) -> Result<(), Refusal>
    ensures { Writes result lines.old.items lines.new.items (copies_of_filespace here filespace.now) }
{
    'groups: for (_, group) in filespace.groups.as_map() {
        write_copies_of(lines, here, filespace.node, group.versions.as_slice())?;
    }
    Ok(())
}

fn write_copies_of_filespaces(
    lines: &mut Vec<CopyLine>,
    here: Where,
    filespaces: &BTreeMap<u32, Filespace>,
) -> Result<(), Refusal>
    ensures { Writes result lines.old.items lines.new.items (copies_of_filespaces here filespaces.now.entries) }
{
    'filespaces: for (_, filespace) in filespaces {
        write_copies_of_filespace(lines, here, filespace)?;
    }
    Ok(())
}

/// The number of a filespace's node; 0 where the filespace isn't there.
pub(crate) fn node_of(filespaces: &BTreeMap<u32, Filespace>, filespace: u32) -> u32
    ensures { result ≡ node_of filespace filespaces.now.entries }
{
    match filespaces.get(&filespace) {
        Some(filespace) => filespace.node,
        None => 0,
    }
}

fn write_copies_of_row(
    lines: &mut Vec<CopyLine>,
    here: Where,
    filespaces: &BTreeMap<u32, Filespace>,
    row: &HeldRow,
) -> Result<(), Refusal>
    ensures { Writes result lines.old.items lines.new.items (copies_of_version here (node_of row.now.filespace filespaces.now.entries) row.now.held.version) }
{
    let node = node_of(filespaces, row.filespace);
    let version = &row.held.version;
    write_copies(lines, here, node, version, version.copies.as_slice())
}

fn write_copies_of_held(
    lines: &mut Vec<CopyLine>,
    here: Where,
    filespaces: &BTreeMap<u32, Filespace>,
    held: &BTreeMap<u64, HeldRow>,
) -> Result<(), Refusal>
    ensures { Writes result lines.old.items lines.new.items (copies_of_held here filespaces.now.entries held.now.entries) }
{
    'held: for (_, row) in held {
        write_copies_of_row(lines, here, filespaces, row)?;
    }
    Ok(())
}

fn copies_where(alloc: Global, tables: &Tables, here: Where) -> Result<Listed<CopyLine>, Refusal>
    ensures { AnswersBy (λ lines. lines) result (copies_where here (inv_of tables.now)) }
{
    let mut lines = Vec::new(alloc);
    let filespaces = tables.objects.filespaces();
    write_copies_of_filespaces(&mut lines, here, filespaces)?;
    write_copies_of_held(&mut lines, here, filespaces, tables.objects.held())?;
    sort_by_object(&mut lines)?;
    Ok(Listed::from_vec(lines))
}

pub(crate) fn has_pool(tables: &Tables, pool: u32) -> bool
    ensures { result ≡ has_pool pool (inv_of tables.now) }
{
    tables.pools.pools().contains_key(&pool)
}

/// The copies in a pool, in ascending order of their objects' numbers. `NotFound` where the pool is not there; else its one refusal is want of
/// memory. It walks all objects, and sorts what it found.
pub fn on_pool(alloc: Global, tables: &Tables, pool: u32) -> Result<Listed<CopyLine>, Refusal>
    ensures { Answers result (on_pool pool (inv_of tables.now)) }
{
    if has_pool(tables, pool) {
        copies_where(alloc, tables, Where::Pool(pool))
    } else {
        Err(Refusal::NotFound)
    }
}

fn write_missing(
    lines: &mut Vec<MissingLine>,
    primary: u32,
    copy: u32,
    version: &Version,
) -> Result<(), Refusal>
    ensures { Writes result lines.old.items lines.new.items (missing_lines primary copy version.now) }
{
    if !version.copies.is_in(primary) || version.copies.is_in(copy) {
        return Ok(());
    }
    lines.push(MissingLine {
        object: version.object,
        size: version.size,
    })?;
    Ok(())
}

fn write_missing_of(
    lines: &mut Vec<MissingLine>,
    primary: u32,
    copy: u32,
    versions: &[Version],
) -> Result<(), Refusal>
    ensures { Writes result lines.old.items lines.new.items (flat_map (missing_lines primary copy) versions.now) }
{
    'versions: for version in versions {
        write_missing(lines, primary, copy, version)?;
    }
    Ok(())
}

fn write_missing_of_filespace(
    lines: &mut Vec<MissingLine>,
    primary: u32,
    copy: u32,
    filespace: &Filespace,
) -> Result<(), Refusal>
    ensures { Writes result lines.old.items lines.new.items (missing_of_filespace primary copy filespace.now) }
{
    'groups: for (_, group) in filespace.groups.as_map() {
        write_missing_of(lines, primary, copy, group.versions.as_slice())?;
    }
    Ok(())
}

fn write_missing_of_filespaces(
    lines: &mut Vec<MissingLine>,
    primary: u32,
    copy: u32,
    filespaces: &BTreeMap<u32, Filespace>,
) -> Result<(), Refusal>
    ensures { Writes result lines.old.items lines.new.items (missing_of_filespaces primary copy filespaces.now.entries) }
{
    'filespaces: for (_, filespace) in filespaces {
        write_missing_of_filespace(lines, primary, copy, filespace)?;
    }
    Ok(())
}

fn write_missing_of_held(
    lines: &mut Vec<MissingLine>,
    primary: u32,
    copy: u32,
    held: &BTreeMap<u64, HeldRow>,
) -> Result<(), Refusal>
    ensures { Writes result lines.old.items lines.new.items (missing_of_held primary copy held.now.entries) }
{
    'held: for (_, row) in held {
        write_missing(lines, primary, copy, &row.held.version)?;
    }
    Ok(())
}

fn missing_in(
    alloc: Global,
    tables: &Tables,
    primary: u32,
    copy: u32,
) -> Result<Listed<MissingLine>, Refusal>
    ensures { AnswersBy (λ lines. lines) result (missing_in primary copy (inv_of tables.now)) }
{
    let mut lines = Vec::new(alloc);
    write_missing_of_filespaces(&mut lines, primary, copy, tables.objects.filespaces())?;
    write_missing_of_held(&mut lines, primary, copy, tables.objects.held())?;
    sort_by_object(&mut lines)?;
    Ok(Listed::from_vec(lines))
}

/// The objects with a copy in the one pool and none in the other, in ascending order of their numbers. `NotFound` where one of the pools is not
/// there; else its one refusal is want of memory. It walks all objects, and sorts what it found.
pub fn missing(
    alloc: Global,
    tables: &Tables,
    primary: u32,
    copy: u32,
) -> Result<Listed<MissingLine>, Refusal>
    ensures { Answers result (missing primary copy (inv_of tables.now)) }
{
    if has_pool(tables, primary) && has_pool(tables, copy) {
        missing_in(alloc, tables, primary, copy)
    } else {
        Err(Refusal::NotFound)
    }
}
