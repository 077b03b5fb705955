// What the answers to a command's look-ups say, taken in the order of the look-ups.
ghost use Rattle.std.specs.Prelude.{◌≡◌};
ghost use Rattle.std.specs.Option.{option_copied};
ghost use Rattle.admin_commands.specs.Found.{behind, number_at, number_in, number_found, device_at, device_in, device_found, domains_in, domains, sets_in, sets, classes_in, classes, groups_in, groups, nodes_in, nodes, filespaces_in, filespaces, devices_in, devices, pools_in, pools, volumes_in, volumes, domain_named, set_named, class_named, archive_of, group_of, node_named, filespace_named, device_named, pool_named, pool_called, the_pool, the_volume, next_found, next_among};

use inventory_answers::{
    Answer, ClassLine, DeviceLine, DomainLine, FilespaceLine, GroupLine, NodeLine, PoolLine, Rows,
    SetLine, VolumeLine,
};
use inventory_work::Found;
use kinds::{ArchiveRule, Capacity, FilespaceName, Name, NodeName};

/// The answers behind the first.
pub(crate) fn behind(answers: &[Answer]) -> &[Answer]
    ensures { result.now ≡ behind answers.now }
{
    match answers {
        [] => answers,
        [_, more @ ..] => more,
    }
}

fn number_at(found: &Found) -> Option<u32>
    ensures { result ≡ number_at found.now }
{
    match found {
        Found::Number(number) => Some(*number),
        Found::DevClass(_) => None,
    }
}

fn number_in(rows: &Rows) -> Option<u32>
    ensures { result ≡ number_in rows.now }
{
    match rows {
        Rows::Lookup(found) => number_at(found),
        _ => None,
    }
}

/// The number that the first answer gives.
pub(crate) fn number_found(answers: &[Answer]) -> Option<u32>
    ensures { result ≡ number_found answers.now }
{
    match answers {
        [] => None,
        [answer, ..] => number_in(&answer.rows),
    }
}

fn device_at(found: &Found) -> Option<Option<Capacity>>
    ensures { result ≡ device_at found.now }
{
    match found {
        Found::Number(_) => None,
        Found::DevClass(capacity) => Some(*capacity),
    }
}

fn device_in(rows: &Rows) -> Option<Option<Capacity>>
    ensures { result ≡ device_in rows.now }
{
    match rows {
        Rows::Lookup(found) => device_at(found),
        _ => None,
    }
}

/// The capacity that the first answer gives; none of DISK.
pub(crate) fn device_found(answers: &[Answer]) -> Option<Option<Capacity>>
    ensures { result ≡ device_found answers.now }
{
    match answers {
        [] => None,
        [answer, ..] => device_in(&answer.rows),
    }
}

fn domains_in(rows: &Rows) -> &[DomainLine]
    ensures { result.now ≡ domains_in rows.now }
{
    match rows {
        Rows::Domains(lines) => lines.as_slice(),
        _ => &[],
    }
}

fn domains(answers: &[Answer]) -> &[DomainLine]
    ensures { result.now ≡ domains answers.now }
{
    match answers {
        [] => &[],
        [answer, ..] => domains_in(&answer.rows),
    }
}

fn sets_in(rows: &Rows) -> &[SetLine]
    ensures { result.now ≡ sets_in rows.now }
{
    match rows {
        Rows::Sets(lines) => lines.as_slice(),
        _ => &[],
    }
}

fn sets(answers: &[Answer]) -> &[SetLine]
    ensures { result.now ≡ sets answers.now }
{
    match answers {
        [] => &[],
        [answer, ..] => sets_in(&answer.rows),
    }
}

fn classes_in(rows: &Rows) -> &[ClassLine]
    ensures { result.now ≡ classes_in rows.now }
{
    match rows {
        Rows::Classes(lines) => lines.as_slice(),
        _ => &[],
    }
}

fn classes(answers: &[Answer]) -> &[ClassLine]
    ensures { result.now ≡ classes answers.now }
{
    match answers {
        [] => &[],
        [answer, ..] => classes_in(&answer.rows),
    }
}

fn groups_in(rows: &Rows) -> &[GroupLine]
    ensures { result.now ≡ groups_in rows.now }
{
    match rows {
        Rows::Groups(lines) => lines.as_slice(),
        _ => &[],
    }
}

fn groups(answers: &[Answer]) -> &[GroupLine]
    ensures { result.now ≡ groups answers.now }
{
    match answers {
        [] => &[],
        [answer, ..] => groups_in(&answer.rows),
    }
}

fn nodes_in(rows: &Rows) -> &[NodeLine]
    ensures { result.now ≡ nodes_in rows.now }
{
    match rows {
        Rows::Nodes(lines) => lines.as_slice(),
        _ => &[],
    }
}

fn nodes(answers: &[Answer]) -> &[NodeLine]
    ensures { result.now ≡ nodes answers.now }
{
    match answers {
        [] => &[],
        [answer, ..] => nodes_in(&answer.rows),
    }
}

fn filespaces_in(rows: &Rows) -> &[FilespaceLine]
    ensures { result.now ≡ filespaces_in rows.now }
{
    match rows {
        Rows::Filespaces(lines) => lines.as_slice(),
        _ => &[],
    }
}

fn filespaces(answers: &[Answer]) -> &[FilespaceLine]
    ensures { result.now ≡ filespaces answers.now }
{
    match answers {
        [] => &[],
        [answer, ..] => filespaces_in(&answer.rows),
    }
}

fn devices_in(rows: &Rows) -> &[DeviceLine]
    ensures { result.now ≡ devices_in rows.now }
{
    match rows {
        Rows::Devices(lines) => lines.as_slice(),
        _ => &[],
    }
}

fn devices(answers: &[Answer]) -> &[DeviceLine]
    ensures { result.now ≡ devices answers.now }
{
    match answers {
        [] => &[],
        [answer, ..] => devices_in(&answer.rows),
    }
}

fn pools_in(rows: &Rows) -> &[PoolLine]
    ensures { result.now ≡ pools_in rows.now }
{
    match rows {
        Rows::Pools(lines) => lines.as_slice(),
        _ => &[],
    }
}

fn pools(answers: &[Answer]) -> &[PoolLine]
    ensures { result.now ≡ pools answers.now }
{
    match answers {
        [] => &[],
        [answer, ..] => pools_in(&answer.rows),
    }
}

fn volumes_in(rows: &Rows) -> &[VolumeLine]
    ensures { result.now ≡ volumes_in rows.now }
{
    match rows {
        Rows::Volumes(lines) => lines.as_slice(),
        _ => &[],
    }
}

fn volumes(answers: &[Answer]) -> &[VolumeLine]
    ensures { result.now ≡ volumes answers.now }
{
    match answers {
        [] => &[],
        [answer, ..] => volumes_in(&answer.rows),
    }
}

/// The policy domain with this name.
pub(crate) fn domain_named<'a>(answers: &'a [Answer], name: &Name) -> Option<&'a DomainLine>
    ensures { option_copied result ≡ domain_named name.now answers.now }
{
    domains(answers).iter().find(|line| line.name == *name)
}

/// The policy set with this name.
pub(crate) fn set_named<'a>(answers: &'a [Answer], name: &Name) -> Option<&'a SetLine>
    ensures { option_copied result ≡ set_named name.now answers.now }
{
    sets(answers).iter().find(|line| line.set == *name)
}

/// The management class with this name.
fn class_named<'a>(answers: &'a [Answer], name: &Name) -> Option<&'a ClassLine>
    ensures { option_copied result ≡ class_named name.now answers.now }
{
    classes(answers).iter().find(|line| line.class == *name)
}

/// The rule of the archive copy group of this class.
pub(crate) fn archive_of(answers: &[Answer], name: &Name) -> Option<ArchiveRule>
    ensures { result ≡ archive_of name.now answers.now }
{
    match class_named(answers, name) {
        None => None,
        Some(line) => line.archive,
    }
}

/// The backup copy group of this class.
pub(crate) fn group_of<'a>(answers: &'a [Answer], name: &Name) -> Option<&'a GroupLine>
    ensures { option_copied result ≡ group_of name.now answers.now }
{
    groups(answers).iter().find(|line| line.class == *name)
}

/// The node with this name.
pub(crate) fn node_named<'a>(answers: &'a [Answer], name: &NodeName) -> Option<&'a NodeLine>
    ensures { option_copied result ≡ node_named name.now answers.now }
{
    nodes(answers).iter().find(|line| line.name == *name)
}

/// The filespace with this name.
pub(crate) fn filespace_named<'a>(
    answers: &'a [Answer],
    name: &FilespaceName,
) -> Option<&'a FilespaceLine>
    ensures { option_copied result ≡ filespace_named name.now answers.now }
{
    filespaces(answers).iter().find(|line| line.name == *name)
}

/// The device class with this name.
pub(crate) fn device_named<'a>(answers: &'a [Answer], name: &Name) -> Option<&'a DeviceLine>
    ensures { option_copied result ≡ device_named name.now answers.now }
{
    devices(answers).iter().find(|line| line.name == *name)
}

/// The pool with this name.
pub(crate) fn pool_named<'a>(answers: &'a [Answer], name: &Name) -> Option<&'a PoolLine>
    ensures { option_copied result ≡ pool_named name.now answers.now }
{
    pools(answers).iter().find(|line| line.name == *name)
}

/// The pool with this name, where there is a name.
pub(crate) fn pool_called<'a>(answers: &'a [Answer], name: &Option<Name>) -> Option<&'a PoolLine>
    ensures { option_copied result ≡ pool_called name.now answers.now }
{
    match name {
        None => None,
        Some(name) => pool_named(answers, name),
    }
}

/// The pool that was asked for alone.
pub(crate) fn the_pool(answers: &[Answer]) -> Option<&PoolLine>
    ensures { option_copied result ≡ the_pool answers.now }
{
    match pools(answers) {
        [] => None,
        [line, ..] => Some(line),
    }
}

/// The volume that was asked for alone.
pub(crate) fn the_volume(answers: &[Answer]) -> Option<&VolumeLine>
    ensures { option_copied result ≡ the_volume answers.now }
{
    match volumes(answers) {
        [] => None,
        [line, ..] => Some(line),
    }
}

/// The number of the pool that was looked up, where one was named, or else none.
pub(crate) fn next_found(answers: &[Answer], name: &Option<Name>) -> Option<Option<u32>>
    ensures { result ≡ next_found name.now answers.now }
{
    match name {
        None => Some(None),
        Some(_) => match number_found(answers) {
            None => None,
            Some(number) => Some(Some(number)),
        },
    }
}

/// The number of the pool with this name among all, where one is named, or else none.
pub(crate) fn next_among(answers: &[Answer], name: &Option<Name>) -> Option<Option<u32>>
    ensures { result ≡ next_among name.now answers.now }
{
    match name {
        None => Some(None),
        Some(name) => match pool_named(answers, name) {
            None => None,
            Some(line) => Some(Some(line.number)),
        },
    }
}
