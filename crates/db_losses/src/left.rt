// What is left of objects where copies are lost.
ghost use Rattle.std.specs.Prelude.{◌≡◌, ◌++◌, ◌∷◌, [], not, filter, map, IsTrue, OnOk, IfErr};
ghost use Rattle.std.specs.Cmp.Lexicographic.{slice_cmp};
ghost use Rattle.std.specs.Ordering.{nat_cmp};
ghost use Rattle.kinds.specs.declared.refusal.Refusal.TheVariants.{Memory};
ghost use Rattle.kinds.specs.Answers.{AnswersBy};
ghost use Rattle.inventory_rows.specs.object_rows.Rows.{IsSound};
ghost use Rattle.inventory_rows.specs.version_groups.Copies.{are_by_pool};
ghost use Rattle.inventory_rows.specs.version_groups.Versions.{are_distinct};
ghost use Rattle.db_losses.specs.Losses.{is_lost, version_left, versions_left, groups_left, filespace_left, helds_left, rows_left};
ghost use Rattle.db_losses.specs.Behind.{IsBehind};

use crate::losses::Losses;
use inventory_rows::object_rows::{HeldObject, HeldRow, Node, Objects};
use inventory_rows::version_groups::{
    Copies, CopyRow, Filespace, Group, Groups, Version, Versions,
};
use kinds::{Path, Refusal};
use std::alloc::Global;
use std::collections::BTreeMap;

/// Puts an entry behind all others. Its key stands behind theirs.
fn put_last<K: Ord + Drop, V: Drop>(
    out: &mut BTreeMap<K, V>,
    key: K,
    value: V,
) -> Result<(), Refusal>
    requires { IsBehind K.cmp key out.old.entries }
    ensures put { OnOk result (out.new.entries ≡ out.old.entries ++ (key, value) ∷ []) }
    ensures memory { IfErr result (λ e. e ≡ Memory) }
{
    out.insert(key, value)?;
    Ok(())
}

/// Those of some copies of an object that aren't lost.
fn keep_copies(copies: &mut Vec<CopyRow>, losses: &Losses, object: u64)
    ensures { copies.new.items ≡ filter (λ c. not (is_lost losses.now object c.pool)) copies.old.items }
{
    copies.retain(|copy| !losses.has(object, copy.pool));
}

/// Copies that stand by pool.
fn by_pool(copies: Vec<CopyRow>) -> Copies
    requires { IsTrue (are_by_pool copies.items) }
    ensures { result ≡ copies.items }
{
    match Copies::from_vec(copies) {
        Some(copies) => copies,
        None => unreachable!(),
    }
}

/// Those of an object's copies that aren't lost.
#[tactic(auto, using(crate::proofs::Staying::filter_by_pool))]
fn copies_left(losses: &Losses, object: u64, copies: &Copies) -> Result<Copies, Refusal>
    ensures { AnswersBy (λ left. left) result (filter (λ c. not (is_lost losses.now object c.pool)) copies.now) }
{
    let mut left = copies.clone()?.into_vec();
    keep_copies(&mut left, losses, object);
    Ok(by_pool(left))
}

/// A version with the copies that are left.
fn version_left(losses: &Losses, version: &Version) -> Result<Version, Refusal>
    ensures { AnswersBy (λ left. left) result (version_left losses.now version.now) }
{
    let copies = copies_left(losses, version.object, &version.copies)?;
    Ok(Version {
        object: version.object,
        size: version.size,
        mtime: version.mtime,
        digest: version.digest,
        stored: version.stored,
        since: version.since,
        copies,
    })
}

/// Puts what is left of a version behind others, where it has a copy left.
fn put_version(out: &mut Vec<Version>, losses: &Losses, version: &Version) -> Result<(), Refusal>
    ensures put { OnOk result (out.new.items ≡ out.old.items ++ versions_left losses.now (version.now ∷ [])) }
    ensures memory { IfErr result (λ e. e ≡ Memory) }
{
    let left = version_left(losses, version)?;
    if !left.copies.as_slice().is_empty() {
        out.push(left)?;
    }
    Ok(())
}

/// Of versions, those that have a copy left.
fn versions_left(
    alloc: Global,
    losses: &Losses,
    versions: &[Version],
) -> Result<Vec<Version>, Refusal>
    ensures { AnswersBy (λ left. left.items) result (versions_left losses.now versions.now) }
{
    let mut out = Vec::new(alloc);
    'versions: for version in versions {
        put_version(&mut out, losses, version)?;
    }
    Ok(out)
}

/// Versions of which no two are of one object.
fn distinct(versions: Vec<Version>) -> Versions
    requires { IsTrue (are_distinct versions.items) }
    ensures { result ≡ versions.items }
{
    match Versions::from_vec(versions) {
        Some(versions) => versions,
        None => unreachable!(),
    }
}

/// A path's group with the versions that are left.
#[tactic(auto, using(crate::proofs::Staying::left_distinct))]
fn group_left(alloc: Global, losses: &Losses, group: &Group) -> Result<Group, Refusal>
    ensures { AnswersBy (λ left. left) result (record group.now { versions = versions_left losses.now group.now.versions }) }
{
    let versions = versions_left(alloc, losses, group.versions.as_slice())?;
    Ok(Group {
        class: group.class.clone()?,
        versions: distinct(versions),
    })
}

/// Puts what is left of a path's group behind others, where it has a version left. The path stands behind theirs.
fn put_group(
    alloc: Global,
    out: &mut BTreeMap<Path, Group>,
    losses: &Losses,
    path: &Path,
    group: &Group,
) -> Result<(), Refusal>
    requires { IsBehind (slice_cmp nat_cmp) path.now out.old.entries }
    ensures put { OnOk result (out.new.entries ≡ out.old.entries ++ groups_left losses.now ((path.now, group.now) ∷ [])) }
    ensures memory { IfErr result (λ e. e ≡ Memory) }
{
    let left = group_left(alloc, losses, group)?;
    if !left.versions.is_empty() {
        put_last(out, path.clone()?, left)?;
    }
    Ok(())
}

/// The groups that have a version left.
fn groups_left(
    alloc: Global,
    losses: &Losses,
    groups: &BTreeMap<Path, Group>,
) -> Result<BTreeMap<Path, Group>, Refusal>
    ensures { AnswersBy (λ left. left.entries) result (groups_left losses.now groups.now.entries) }
{
    let _len = groups.len();
    let mut out = BTreeMap::new(alloc);
    'groups: for (path, group) in groups.iter() {
        put_group(alloc, &mut out, losses, path, group)?;
    }
    Ok(out)
}

/// A filespace with what is left in it.
fn filespace_left(
    alloc: Global,
    losses: &Losses,
    filespace: &Filespace,
) -> Result<Filespace, Refusal>
    ensures { AnswersBy (λ left. left) result (record filespace.now { groups = groups_left losses.now filespace.now.groups }) }
{
    let groups = groups_left(alloc, losses, filespace.groups.as_map())?;
    Ok(Filespace {
        node: filespace.node,
        name: filespace.name.clone()?,
        groups: Groups::from_map(groups),
    })
}

/// Puts what is left in a filespace behind others. Its number stands behind theirs.
fn put_filespace(
    alloc: Global,
    out: &mut BTreeMap<u32, Filespace>,
    losses: &Losses,
    number: u32,
    filespace: &Filespace,
) -> Result<(), Refusal>
    requires { IsBehind nat_cmp number out.old.entries }
    ensures put { OnOk result (out.new.entries ≡ out.old.entries ++ filespace_left losses.now (number, filespace.now) ∷ []) }
    ensures memory { IfErr result (λ e. e ≡ Memory) }
{
    let left = filespace_left(alloc, losses, filespace)?;
    put_last(out, number, left)
}

/// The filespaces with what is left in them.
fn filespaces_left(
    alloc: Global,
    losses: &Losses,
    filespaces: &BTreeMap<u32, Filespace>,
) -> Result<BTreeMap<u32, Filespace>, Refusal>
    ensures { AnswersBy (λ left. left.entries) result (map (filespace_left losses.now) filespaces.now.entries) }
{
    let _len = filespaces.len();
    let mut out = BTreeMap::new(alloc);
    'filespaces: for (number, filespace) in filespaces.iter() {
        put_filespace(alloc, &mut out, losses, *number, filespace)?;
    }
    Ok(out)
}

/// A held object with the copies that are left.
fn held_left(losses: &Losses, row: &HeldRow) -> Result<HeldRow, Refusal>
    ensures { AnswersBy (λ left. left) result (record row.now { held = record (row.now.held) { version = version_left losses.now row.now.held.version } }) }
{
    let version = version_left(losses, &row.held.version)?;
    Ok(HeldRow {
        filespace: row.filespace,
        held: HeldObject {
            path: row.held.path.clone()?,
            description: row.held.description.clone()?,
            version,
            until: row.held.until,
        },
    })
}

/// Puts what is left of a held object behind others, where it has a copy left. Its number stands behind theirs.
fn put_held(
    out: &mut BTreeMap<u64, HeldRow>,
    losses: &Losses,
    object: u64,
    row: &HeldRow,
) -> Result<(), Refusal>
    requires { IsBehind nat_cmp object out.old.entries }
    ensures put { OnOk result (out.new.entries ≡ out.old.entries ++ helds_left losses.now ((object, row.now) ∷ [])) }
    ensures memory { IfErr result (λ e. e ≡ Memory) }
{
    let left = held_left(losses, row)?;
    if !left.held.version.copies.as_slice().is_empty() {
        put_last(out, object, left)?;
    }
    Ok(())
}

/// The held objects that have a copy left.
fn helds_left(
    alloc: Global,
    losses: &Losses,
    held: &BTreeMap<u64, HeldRow>,
) -> Result<BTreeMap<u64, HeldRow>, Refusal>
    ensures { AnswersBy (λ left. left.entries) result (helds_left losses.now held.now.entries) }
{
    let _len = held.len();
    let mut out = BTreeMap::new(alloc);
    'held: for (object, row) in held.iter() {
        put_held(&mut out, losses, *object, row)?;
    }
    Ok(out)
}

/// Nodes, filespaces and held objects that may stand together.
fn together(
    alloc: Global,
    nodes: BTreeMap<u32, Node>,
    filespaces: BTreeMap<u32, Filespace>,
    held: BTreeMap<u64, HeldRow>,
) -> Result<Objects, Refusal>
    requires { IsSound (record { nodes = nodes.entries; filespaces = filespaces.entries; held = held.entries }) }
    ensures { AnswersBy (λ objects. objects) result (record { nodes = nodes.entries; filespaces = filespaces.entries; held = held.entries }) }
{
    match Objects::from_parts(alloc, nodes, filespaces, held) {
        Ok(Some(objects)) => Ok(objects),
        Ok(None) => unreachable!(),
        Err(refusal) => Err(refusal),
    }
}

/// What is left of all objects. Refused only for want of memory.
pub(crate) fn objects_left(
    alloc: Global,
    losses: &Losses,
    objects: &Objects,
) -> Result<Objects, Refusal>
    ensures { AnswersBy (λ left. left) result (rows_left losses.now objects.now) }
{
    let nodes = objects.nodes().clone()?;
    let filespaces = filespaces_left(alloc, losses, objects.filespaces())?;
    let held = helds_left(alloc, losses, objects.held())?;
    together(alloc, nodes, filespaces, held)
}
