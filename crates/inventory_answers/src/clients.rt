// Client nodes, filespaces and versions.
ghost use Rattle.std.specs.Prelude.{◌≡◌, ℕ, List, [], ◌∷◌, filter};
ghost use Rattle.kinds.specs.Answers.{Answers, AnswersBy};
ghost use Rattle.inventory_work.specs.inventory_rows.object_rows.Places.{PathsAscend};
ghost use Rattle.inventory_work.specs.inventory_rows.version_groups.Groups.{at_path};
ghost use Rattle.inventory_work.specs.inventory_rows.State.{Inv, inv_of};
ghost use Rattle.inventory_work.specs.Lists.{Writes};
ghost use Rattle.inventory_answers.specs.Clients.{node_line, active_files, version_line_at, node_lines, files_in, versions_in, filespace_line, filespace_lines_of, filespace_lines, filespaces_of, version_line, lines_from, group_versions, version_lines, versions_at, versions_of, versions_under, path_versions_of};

use crate::lines::{FilespaceLine, NodeLine, VersionLine};
use crate::look::{is_asked, name_of_node, node_asked, plus};
use inventory_work::copy_groups::is_owed;
use inventory_work::inventory_rows::object_rows::{Node, Objects};
use inventory_work::inventory_rows::version_groups::{Filespace, Group, Version};
use inventory_work::inventory_rows::{Tables, rule_in};
use inventory_work::{Listed, filespace_asked};
use kinds::{Day, FilespaceName, Name, NodeName, Path, Refusal, RuleFound};
use std::alloc::Global;
use std::collections::BTreeMap;

fn node_line(number: u32, node: &Node) -> Result<NodeLine, Refusal>
    ensures { AnswersBy (λ line. line) result (node_line (number, node.now)) }
{
    Ok(NodeLine {
        number,
        name: node.name.clone()?,
        domain: node.domain.clone()?,
    })
}

/// All client nodes.
pub(crate) fn node_lines(alloc: Global, objects: &Objects) -> Result<Listed<NodeLine>, Refusal>
    ensures { AnswersBy (λ lines. lines) result (node_lines objects.now) }
{
    let mut lines = Vec::new(alloc);
    'nodes: for (number, node) in objects.nodes() {
        lines.push(node_line(*number, node)?)?;
    }
    Ok(Listed::from_vec(lines))
}

fn active_files(group: &Group) -> u64
    ensures { result ≡ active_files group.now }
{
    if group.versions.has_active() { 1 } else { 0 }
}

fn files_in(groups: &BTreeMap<Path, Group>) -> Result<u64, Refusal>
    ensures { AnswersBy (λ n. n) result (files_in groups.now.entries) }
{
    let mut files = 0;
    'groups: for (_, group) in groups {
        files = plus(files, active_files(group))?;
    }
    Ok(files)
}

fn versions_in(groups: &BTreeMap<Path, Group>) -> Result<u64, Refusal>
    ensures { AnswersBy (λ n. n) result (versions_in groups.now.entries) }
{
    let mut versions = 0;
    'groups: for (_, group) in groups {
        versions = plus(versions, group.versions.as_slice().len() as u64)?;
    }
    Ok(versions)
}

fn filespace_line(
    objects: &Objects,
    number: u32,
    filespace: &Filespace,
) -> Result<FilespaceLine, Refusal>
    ensures { AnswersBy (λ line. line) result (filespace_line objects.now (number, filespace.now)) }
{
    Ok(FilespaceLine {
        node: name_of_node(objects, filespace.node)?,
        number,
        name: filespace.name.clone()?,
        files: files_in(filespace.groups.as_map())?,
        versions: versions_in(filespace.groups.as_map())?,
    })
}

fn write_filespace(
    lines: &mut Vec<FilespaceLine>,
    objects: &Objects,
    node: Option<u32>,
    number: u32,
    filespace: &Filespace,
) -> Result<(), Refusal>
    ensures { Writes result lines.old.items lines.new.items (filespace_lines_of objects.now node (number, filespace.now)) }
{
    if !is_asked(node, filespace.node) {
        return Ok(());
    }
    lines.push(filespace_line(objects, number, filespace)?)?;
    Ok(())
}

fn filespace_lines(
    alloc: Global,
    objects: &Objects,
    node: Option<u32>,
) -> Result<Listed<FilespaceLine>, Refusal>
    ensures { AnswersBy (λ lines. lines) result (filespace_lines objects.now node) }
{
    let mut lines = Vec::new(alloc);
    'filespaces: for (number, filespace) in objects.filespaces() {
        write_filespace(&mut lines, objects, node, *number, filespace)?;
    }
    Ok(Listed::from_vec(lines))
}

/// The filespaces of all nodes, or of one.
pub(crate) fn filespaces_of(
    alloc: Global,
    objects: &Objects,
    node: &Option<NodeName>,
) -> Result<Listed<FilespaceLine>, Refusal>
    ensures { Answers result (filespaces_of node.now objects.now) }
{
    match node_asked(objects, node) {
        Ok(node) => filespace_lines(alloc, objects, node),
        Err(refusal) => Err(refusal),
    }
}

fn version_line(
    path: &Path,
    class: &Name,
    owed: bool,
    version: &Version,
) -> Result<VersionLine, Refusal>
    ensures { AnswersBy (λ line. line) result (version_line path.now class.now owed version.now) }
{
    Ok(VersionLine {
        path: path.clone()?,
        object: version.object,
        size: version.size,
        mtime: version.mtime,
        stored: version.stored,
        since: version.since,
        class: class.clone()?,
        owed,
        digest: version.digest,
    })
}

fn write_version(
    lines: &mut Vec<VersionLine>,
    rule: &Option<RuleFound>,
    today: Day,
    path: &Path,
    group: &Group,
    place: usize,
    version: &Version,
) -> Result<(), Refusal>
    ensures { Writes result lines.old.items lines.new.items (version_line_at rule.now today path.now group.now place version.now ∷ []) }
{
    let owed = is_owed(
        rule,
        group.versions.has_active(),
        version.since,
        today,
        place,
    );
    lines.push(version_line(path, &group.class, owed, version)?)?;
    Ok(())
}

fn write_group(
    lines: &mut Vec<VersionLine>,
    rule: &Option<RuleFound>,
    today: Day,
    path: &Path,
    group: &Group,
) -> Result<(), Refusal>
    ensures { Writes result lines.old.items lines.new.items (group_versions rule.now today path.now group.now) }
{
    'versions: for (place, version) in group.versions.as_slice().iter().enumerate() {
        write_version(lines, rule, today, path, group, place, version)?;
    }
    Ok(())
}

fn version_lines(
    alloc: Global,
    tables: &Tables,
    filespace: u32,
    groups: &BTreeMap<Path, Group>,
) -> Result<Listed<VersionLine>, Refusal>
    ensures { AnswersBy (λ lines. lines) result (version_lines filespace (inv_of tables.now) groups.now.entries) }
{
    let mut lines = Vec::new(alloc);
    'groups: for (path, group) in groups {
        let rule = rule_in(tables, filespace, &group.class);
        write_group(&mut lines, &rule, tables.today, path, group)?;
    }
    Ok(Listed::from_vec(lines))
}

fn versions_at(
    alloc: Global,
    tables: &Tables,
    filespace: u32,
) -> Result<Listed<VersionLine>, Refusal>
    ensures { AnswersBy (λ lines. lines) result (versions_at filespace (inv_of tables.now)) }
{
    match tables.objects.filespaces().get(&filespace) {
        Some(row) => version_lines(alloc, tables, filespace, row.groups.as_map()),
        None => Ok(Listed::from_vec(Vec::new(alloc))),
    }
}

/// The versions of the files of a filespace.
pub(crate) fn versions_of(
    alloc: Global,
    tables: &Tables,
    node: &NodeName,
    filespace: &FilespaceName,
) -> Result<Listed<VersionLine>, Refusal>
    ensures { Answers result (versions_of node.now filespace.now (inv_of tables.now)) }
{
    match filespace_asked(&tables.objects, node, filespace) {
        Ok(number) => versions_at(alloc, tables, number),
        Err(refusal) => Err(refusal),
    }
}

fn versions_under(
    alloc: Global,
    tables: &Tables,
    filespace: u32,
    path: &Path,
) -> Result<Listed<VersionLine>, Refusal>
    ensures { AnswersBy (λ lines. lines) result (versions_under filespace path.now (inv_of tables.now)) }
{
    let mut lines = Vec::new(alloc);
    match tables.objects.group(filespace, path) {
        Some(group) => {
            let rule = rule_in(tables, filespace, &group.class);
            write_group(&mut lines, &rule, tables.today, path, group)?;
        }
        None => {}
    }
    Ok(Listed::from_vec(lines))
}

/// The versions of one path of a filespace. It looks the path up, and walks no other.
pub(crate) fn path_versions_of(
    alloc: Global,
    tables: &Tables,
    node: &NodeName,
    filespace: &FilespaceName,
    path: &Path,
) -> Result<Listed<VersionLine>, Refusal>
    ensures { Answers result (path_versions_of node.now filespace.now path.now (inv_of tables.now)) }
{
    match filespace_asked(&tables.objects, node, filespace) {
        Ok(number) => versions_under(alloc, tables, number, path),
        Err(refusal) => Err(refusal),
    }
}

/// What is answered for one path is what the answer for its filespace has of that path, where the paths of each filespace stand in ascending order, each once.
pub fn path_lines_are_the_paths()
    ensures { (v : Inv) (n : ℕ) (path : List ℕ) → PathsAscend v.clients.filespaces → filter (λ l. at_path path l.path) (versions_at n v) ≡ versions_under n path v }
{}
