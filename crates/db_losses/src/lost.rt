// The objects of which no copy is left, with their names.
ghost use Rattle.std.specs.Prelude.{◌≡◌, ◌∷◌, [], not, OnOk, IfErr};
ghost use Rattle.std.specs.BTreeMap.{insert_entry};
ghost use Rattle.std.specs.List.{list_any};
ghost use Rattle.std.specs.Map.{lookup};
ghost use Rattle.std.specs.Ordering.{nat_cmp};
ghost use Rattle.kinds.specs.Answers.{AnswersBy};
ghost use Rattle.kinds.specs.declared.refusal.Refusal.TheVariants.{Memory};
ghost use Rattle.inventory_rows.specs.object_rows.Filespaces.{at_number, filespace_at};
ghost use Rattle.db_losses.specs.Losses.{has_copies, is_lost, version_left};
ghost use Rattle.db_losses.specs.Lost.{all_put, lost_held_in, lost_held_of, lost_in_filespaces, lost_in_groups, lost_in_held, lost_in_versions, lost_of_node, lost_rows};

use crate::losses::Losses;
use inventory_rows::object_rows::{HeldRow, Node, Objects};
use inventory_rows::version_groups::{CopyRow, Filespace, Group, Version};
use kinds::{FilespaceName, NodeName, Path, Refusal};
use std::alloc::Global;
use std::collections::BTreeMap;
use std::marker::Model;

/// Where an object was kept of which no copy is left.
#[derive(Drop)]
pub struct Lost {
    /// The name of the client node that it was kept for.
    pub node: NodeName,
    /// The name of the filespace in which it was kept.
    pub filespace: FilespaceName,
    /// The path of the client's file.
    pub path: Path,
}

/// The objects of which no copy is left, by number.
#[derive(Drop)]
pub struct LostObjects {
    map: BTreeMap<u64, Lost>,
}

impl Model for LostObjects {
    ghost use Rattle.std.specs.Prelude.{List, ℕ};
    ghost use Rattle.db_losses.specs.declared.lost.Lost.{Lost};

    ghost Value = { List (ℕ × Lost) };

    ghost view = { λ l. l.map.entries };
}

/// Whether one of these copies of an object isn't lost.
fn is_one_left(losses: &Losses, object: u64, copies: &[CopyRow]) -> bool
    ensures { result ≡ list_any (λ c. not (is_lost losses.now object c.pool)) copies.now }
{
    copies.iter().any(|copy| !losses.has(object, copy.pool))
}

/// Whether a copy of the version is left.
fn is_left(losses: &Losses, version: &Version) -> bool
    ensures { result ≡ has_copies (version_left losses.now version.now) }
{
    is_one_left(losses, version.object, version.copies.as_slice())
}

/// Puts an object of which no copy is left with the others.
fn put_lost(
    out: &mut BTreeMap<u64, Lost>,
    node: &NodeName,
    filespace: &FilespaceName,
    path: &Path,
    object: u64,
) -> Result<(), Refusal>
    ensures put { OnOk result (out.new.entries ≡ insert_entry nat_cmp out.old.entries object (record { node = node.now; filespace = filespace.now; path = path.now })) }
    ensures memory { IfErr result (λ e. e ≡ Memory) }
{
    let lost = Lost {
        node: node.clone()?,
        filespace: filespace.clone()?,
        path: path.clone()?,
    };
    out.insert(object, lost)?;
    Ok(())
}

/// Puts a version with the others, where no copy of it is left.
fn put_version(
    out: &mut BTreeMap<u64, Lost>,
    losses: &Losses,
    node: &NodeName,
    filespace: &FilespaceName,
    path: &Path,
    version: &Version,
) -> Result<(), Refusal>
    ensures put { OnOk result (out.new.entries ≡ all_put (lost_in_versions losses.now node.now filespace.now path.now (version.now ∷ [])) out.old.entries) }
    ensures memory { IfErr result (λ e. e ≡ Memory) }
{
    if is_left(losses, version) {
        Ok(())
    } else {
        put_lost(out, node, filespace, path, version.object)
    }
}

/// Puts those of some versions with the others of which no copy is left.
fn put_versions(
    out: &mut BTreeMap<u64, Lost>,
    losses: &Losses,
    node: &NodeName,
    filespace: &FilespaceName,
    path: &Path,
    versions: &[Version],
) -> Result<(), Refusal>
    ensures put { OnOk result (out.new.entries ≡ all_put (lost_in_versions losses.now node.now filespace.now path.now versions.now) out.old.entries) }
    ensures memory { IfErr result (λ e. e ≡ Memory) }
{
    'versions: for version in versions {
        put_version(out, losses, node, filespace, path, version)?;
    }
    Ok(())
}

/// The same of the versions of some groups.
fn put_groups(
    out: &mut BTreeMap<u64, Lost>,
    losses: &Losses,
    node: &NodeName,
    filespace: &FilespaceName,
    groups: &BTreeMap<Path, Group>,
) -> Result<(), Refusal>
    ensures put { OnOk result (out.new.entries ≡ all_put (lost_in_groups losses.now node.now filespace.now groups.now.entries) out.old.entries) }
    ensures memory { IfErr result (λ e. e ≡ Memory) }
{
    'groups: for (path, group) in groups.iter() {
        put_versions(
            out,
            losses,
            node,
            filespace,
            path,
            group.versions.as_slice(),
        )?;
    }
    Ok(())
}

/// The same of what is in a filespace.
fn put_filespace(
    out: &mut BTreeMap<u64, Lost>,
    losses: &Losses,
    nodes: &BTreeMap<u32, Node>,
    filespace: &Filespace,
) -> Result<(), Refusal>
    ensures put { OnOk result (out.new.entries ≡ all_put (lost_of_node losses.now (lookup (at_number filespace.now.node) nodes.now.entries) filespace.now) out.old.entries) }
    ensures memory { IfErr result (λ e. e ≡ Memory) }
{
    match nodes.get(&filespace.node) {
        Some(node) => put_groups(
            out,
            losses,
            &node.name,
            &filespace.name,
            filespace.groups.as_map(),
        ),
        None => Ok(()),
    }
}

/// The same of what is in some filespaces.
fn put_filespaces(
    out: &mut BTreeMap<u64, Lost>,
    losses: &Losses,
    nodes: &BTreeMap<u32, Node>,
    filespaces: &BTreeMap<u32, Filespace>,
) -> Result<(), Refusal>
    ensures put { OnOk result (out.new.entries ≡ all_put (lost_in_filespaces losses.now nodes.now.entries filespaces.now.entries) out.old.entries) }
    ensures memory { IfErr result (λ e. e ≡ Memory) }
{
    'filespaces: for (_, filespace) in filespaces.iter() {
        put_filespace(out, losses, nodes, filespace)?;
    }
    Ok(())
}

/// The same of an object that is held in this filespace.
fn put_held_in(
    out: &mut BTreeMap<u64, Lost>,
    losses: &Losses,
    nodes: &BTreeMap<u32, Node>,
    filespace: &Filespace,
    row: &HeldRow,
) -> Result<(), Refusal>
    ensures put { OnOk result (out.new.entries ≡ all_put (lost_held_of losses.now (lookup (at_number filespace.now.node) nodes.now.entries) filespace.now row.now) out.old.entries) }
    ensures memory { IfErr result (λ e. e ≡ Memory) }
{
    match nodes.get(&filespace.node) {
        Some(node) => put_version(
            out,
            losses,
            &node.name,
            &filespace.name,
            &row.held.path,
            &row.held.version,
        ),
        None => Ok(()),
    }
}

/// The same of a held object.
fn put_held(
    out: &mut BTreeMap<u64, Lost>,
    losses: &Losses,
    nodes: &BTreeMap<u32, Node>,
    filespaces: &BTreeMap<u32, Filespace>,
    row: &HeldRow,
) -> Result<(), Refusal>
    ensures put { OnOk result (out.new.entries ≡ all_put (lost_held_in losses.now nodes.now.entries (filespace_at row.now.filespace filespaces.now.entries) row.now) out.old.entries) }
    ensures memory { IfErr result (λ e. e ≡ Memory) }
{
    match filespaces.get(&row.filespace) {
        Some(filespace) => put_held_in(out, losses, nodes, filespace, row),
        None => Ok(()),
    }
}

/// The same of some held objects.
fn put_all_held(
    out: &mut BTreeMap<u64, Lost>,
    losses: &Losses,
    nodes: &BTreeMap<u32, Node>,
    filespaces: &BTreeMap<u32, Filespace>,
    held: &BTreeMap<u64, HeldRow>,
) -> Result<(), Refusal>
    ensures put { OnOk result (out.new.entries ≡ all_put (lost_in_held losses.now nodes.now.entries filespaces.now.entries held.now.entries) out.old.entries) }
    ensures memory { IfErr result (λ e. e ≡ Memory) }
{
    'held: for (_, row) in held.iter() {
        put_held(out, losses, nodes, filespaces, row)?;
    }
    Ok(())
}

/// The objects of which no copy is left, with the names under which they were kept. Refused only for want of memory.
pub fn list_lost(alloc: Global, losses: &Losses, objects: &Objects) -> Result<LostObjects, Refusal>
    ensures { AnswersBy (λ lost. lost) result (all_put (lost_rows losses.now objects.now) []) }
{
    let mut map = BTreeMap::new(alloc);
    put_filespaces(&mut map, losses, objects.nodes(), objects.filespaces())?;
    put_all_held(
        &mut map,
        losses,
        objects.nodes(),
        objects.filespaces(),
        objects.held(),
    )?;
    Ok(LostObjects { map })
}

impl LostObjects {
    /// The objects by number, each with the names under which it was kept.
    pub fn as_map(&self) -> &BTreeMap<u64, Lost>
        ensures { result.now.entries ≡ self.now }
    {
        &self.map
    }
}
