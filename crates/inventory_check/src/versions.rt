//! What is asked of each object that is kept.

ghost use Rattle.std.specs.Prelude.{◌≡◌, ◌==◌, length, filter, map, nat_le};
ghost use Rattle.std.specs.List.{list_all, sum_by};
ghost use Rattle.inventory_rows.specs.pool_tables.Rows.{row_at};
ghost use Rattle.inventory_rows.specs.version_groups.Copies.{are_by_pool};
ghost use Rattle.inventory_rows.specs.Search.{copies, is_primary, versions};
ghost use Rattle.inventory_rows.specs.State.{inv_of};
ghost use Rattle.inventory_rules.specs.Valid.{copies_cite, is_copied, is_of_pool, lie_in, versions_are_copied};
ghost use Rattle.inventory_check.specs.Asked.{all_in_filespaces, all_in_groups, all_in_held, copy_cites, holds, is_by_today};

use crate::days::{is_by, is_none_or_by};
use inventory_rows::object_rows::HeldRow;
use inventory_rows::pool_rows::Pools;
use inventory_rows::version_groups::{Copies, CopyRow, Filespace, Group, Version};
use inventory_rows::{Tables, is_primary};
use kinds::{Day, Path, Segment};
use std::collections::BTreeMap;

/// What is asked of each object that is kept.
#[derive(Clone, Copy)]
pub(crate) enum Asked {
    /// Each copy's pool is there, and each of its segments lies on a volume of that pool.
    Cited,
    /// The object's number was drawn.
    Drawn,
    /// No copy was placed by a transaction to come.
    Past,
    /// It has copies, which are as they have to be.
    Copied,
    /// None of its days is to come.
    ByToday,
}

fn is_of_pool(pools: &Pools, pool: u32, file: u32) -> bool
    ensures { result ≡ is_of_pool pool (row_at file pools.now.volumes) }
{
    match pools.volumes().get(&file) {
        None => false,
        Some(volume) => volume.pool == pool,
    }
}

fn segments_cite(pools: &Pools, pool: u32, segments: &[Segment]) -> bool
    ensures { result ≡ list_all (λ s. is_of_pool pool (row_at s.file pools.now.volumes)) segments.now }
{
    segments.iter().all(|s| is_of_pool(pools, pool, s.file))
}

fn copy_cites(tables: &Tables, copy: &CopyRow) -> bool
    ensures { result ≡ copy_cites (inv_of tables.now) copy.now }
{
    tables.pools.pools().contains_key(&copy.pool)
        && segments_cite(&tables.pools, copy.pool, copy.segments.as_slice())
}

fn are_cited(tables: &Tables, copies: &[CopyRow]) -> bool
    ensures { result ≡ list_all (copy_cites (inv_of tables.now)) copies.now }
{
    copies.iter().all(|copy| copy_cites(tables, copy))
}

fn are_past(number: u64, copies: &[CopyRow]) -> bool
    ensures { result ≡ list_all (λ c. nat_le c.placed number) copies.now }
{
    copies.iter().all(|copy| copy.placed <= number)
}

fn is_by_today(version: &Version, today: Day) -> bool
    ensures { result ≡ is_by_today today version.now }
{
    is_by(version.stored, today) && is_none_or_by(version.since, today)
}

/// How many of the copies lie in primary pools.
fn count_primary(tables: &Tables, copies: &[CopyRow]) -> usize
    ensures { result ≡ length (filter (λ c. is_primary c.pool (inv_of tables.now)) copies.now) }
{
    copies
        .iter()
        .filter(|copy| is_primary(tables, copy.pool))
        .count()
}

/// Whether the segments have so many bytes in all.
fn have_size(size: u64, segments: &[Segment]) -> bool
    ensures { result ≡ (sum_by (λ s. s.len) segments.now == size) }
{
    let mut left = size;
    'segments: for segment in segments {
        match left.checked_sub(segment.len) {
            Some(rest) => left = rest,
            None => return false,
        }
    }
    left == 0
}

fn are_whole(size: u64, copies: &[CopyRow]) -> bool
    ensures { result ≡ list_all (λ c. sum_by (λ s. s.len) c.segments == size) copies.now }
{
    copies
        .iter()
        .all(|copy| have_size(size, copy.segments.as_slice()))
}

/// The copies stand by pool, one in each: a list of copies sees to it.
fn are_by_pool(copies: &Copies) -> bool
    ensures { result ≡ are_by_pool copies.now }
{
    let _ = copies.as_slice();
    true
}

fn is_copied(tables: &Tables, version: &Version) -> bool
    ensures { result ≡ is_copied (inv_of tables.now) version.now }
{
    let copies = version.copies.as_slice();
    !copies.is_empty()
        && (count_primary(tables, copies) <= 1
            && (are_by_pool(&version.copies) && are_whole(version.size.bytes(), copies)))
}

fn holds(asked: Asked, tables: &Tables, version: &Version) -> bool
    ensures { result ≡ holds asked (inv_of tables.now) version.now }
{
    match asked {
        Asked::Cited => are_cited(tables, version.copies.as_slice()),
        Asked::Drawn => 1 <= version.object && version.object < tables.next_object,
        Asked::Past => are_past(tables.number, version.copies.as_slice()),
        Asked::Copied => is_copied(tables, version),
        Asked::ByToday => is_by_today(version, tables.today),
    }
}

fn all_hold(asked: Asked, tables: &Tables, versions: &[Version]) -> bool
    ensures { result ≡ list_all (holds asked (inv_of tables.now)) versions.now }
{
    versions.iter().all(|version| holds(asked, tables, version))
}

fn all_in_groups(asked: Asked, tables: &Tables, groups: &BTreeMap<Path, Group>) -> bool
    ensures { result ≡ all_in_groups (holds asked (inv_of tables.now)) groups.now.entries }
{
    'groups: for (_, group) in groups {
        if !all_hold(asked, tables, group.versions.as_slice()) {
            return false;
        }
    }
    true
}

fn all_in_filespaces(asked: Asked, tables: &Tables, filespaces: &BTreeMap<u32, Filespace>) -> bool
    ensures { result ≡ all_in_filespaces (holds asked (inv_of tables.now)) filespaces.now.entries }
{
    'filespaces: for (_, filespace) in filespaces {
        if !all_in_groups(asked, tables, filespace.groups.as_map()) {
            return false;
        }
    }
    true
}

fn all_in_held(asked: Asked, tables: &Tables, held: &BTreeMap<u64, HeldRow>) -> bool
    ensures { result ≡ all_in_held (holds asked (inv_of tables.now)) held.now.entries }
{
    'held: for (_, row) in held {
        if !holds(asked, tables, &row.held.version) {
            return false;
        }
    }
    true
}

/// Whether each object that is kept has what is asked.
pub(crate) fn all_versions(asked: Asked, tables: &Tables) -> bool
    ensures { result ≡ list_all (holds asked (inv_of tables.now)) (versions (inv_of tables.now)) }
{
    all_in_filespaces(asked, tables, tables.objects.filespaces())
        && all_in_held(asked, tables, tables.objects.held())
}

/// Whether each object's number is from the first one on and below the next one.
pub(crate) fn objects_drawn(tables: &Tables) -> bool
    ensures { result ≡ lie_in 1 tables.now.next_object (map (λ version. version.object) (versions (inv_of tables.now))) }
{
    all_versions(Asked::Drawn, tables)
}

/// Whether no copy was placed by a transaction to come.
pub(crate) fn copies_are_past(tables: &Tables) -> bool
    ensures { result ≡ list_all (λ e. nat_le e.1.placed tables.now.number) (copies (inv_of tables.now)) }
{
    all_versions(Asked::Past, tables)
}

/// Whether each copy's pool is there, and each of its segments lies on a volume of that pool.
pub fn copies_cite(tables: &Tables) -> bool
    ensures { result ≡ copies_cite (inv_of tables.now) }
{
    all_versions(Asked::Cited, tables)
}

/// Whether each object's copies are as they have to be.
pub fn versions_are_copied(tables: &Tables) -> bool
    ensures { result ≡ versions_are_copied (inv_of tables.now) }
{
    all_versions(Asked::Copied, tables)
}
