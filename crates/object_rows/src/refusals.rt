// How the changes of nodes and filespaces are refused.
ghost use Rattle.std.specs.Prelude.{◌≡◌, List, ℕ};
ghost use Rattle.std.specs.Result.{result_err};
ghost use Rattle.object_rows.specs.Changes.{nodes_with, nodes_without, filespaces_defined, filespaces_without, rows_changed};

use crate::objects::Objects;
use crate::spaces::least_object;
use version_groups::kinds::{
    By, DefineOrDelete, FilespaceName, NodeName, ObjectChange, Refusal, lesser,
};

fn node_define(objects: &Objects, name: &NodeName) -> Option<Refusal>
    ensures { (domain : List ℕ) (number : ℕ) → result ≡ result_err (nodes_with name.now domain number objects.now.nodes) }
{
    if objects.node_named(name).is_some() {
        Some(Refusal::Exists)
    } else {
        None
    }
}

fn node_delete(objects: &Objects, name: &NodeName) -> Option<Refusal>
    ensures { result ≡ result_err (nodes_without name.now objects.now.filespaces objects.now.nodes) }
{
    let Some(number) = objects.node_named(name) else {
        return Some(Refusal::NotFound);
    };
    match objects.filespace_of_node(number) {
        Some(filespace) => Some(Refusal::InUse(By::Filespace(filespace))),
        None => None,
    }
}

fn filespace_define(objects: &Objects, node: u32, name: &FilespaceName) -> Option<Refusal>
    ensures { (filespace : ℕ) → result ≡ result_err (filespaces_defined node name.now filespace objects.now.nodes objects.now.filespaces) }
{
    if !objects.nodes().contains_key(&node) {
        return Some(Refusal::NotFound);
    }
    if objects.filespace_named(node, name).is_some() {
        return Some(Refusal::Exists);
    }
    None
}

fn filespace_delete(objects: &Objects, filespace: u32) -> Option<Refusal>
    ensures { result ≡ result_err (filespaces_without filespace objects.now.held objects.now.filespaces) }
{
    match objects.filespaces().get(&filespace) {
        None => Some(Refusal::NotFound),
        Some(row) => match lesser(
            least_object(row.groups.as_map()),
            objects.least_held_in(filespace),
        ) {
            Some(object) => Some(Refusal::InUse(By::Object(object))),
            None => None,
        },
    }
}

/// How a change is refused, where it is.
#[tactic(auto, using(crate::proofs::Made::error_on_ok))]
pub(crate) fn refusal(objects: &Objects, change: &ObjectChange) -> Option<Refusal>
    ensures { (number : ℕ) → result ≡ result_err (rows_changed change.now number objects.now) }
{
    match change {
        ObjectChange::Node {
            verb: DefineOrDelete::Define,
            node,
            ..
        } => node_define(objects, node),
        ObjectChange::Node {
            verb: DefineOrDelete::Delete,
            node,
            ..
        } => node_delete(objects, node),
        ObjectChange::Filespace {
            verb: DefineOrDelete::Define,
            node,
            name,
            ..
        } => filespace_define(objects, *node, name),
        ObjectChange::Filespace {
            verb: DefineOrDelete::Delete,
            filespace,
            ..
        } => filespace_delete(objects, *filespace),
    }
}
