ghost use Rattle.std.specs.Prelude.{◌≡◌, ℕ, false, is_some, List, Some, None, Ok};
ghost use Rattle.std.specs.Map.{lookup, remove_entry};
ghost use Rattle.std.specs.Result.{result_err};
ghost use Rattle.version_groups.specs.kinds.Answers.{Becomes};
ghost use Rattle.version_groups.specs.declared.groups.Filespace.{Filespace};
ghost use Rattle.object_rows.specs.Changes.{nodes_with, nodes_without};
ghost use Rattle.object_rows.specs.Filespaces.{at_number};
ghost use Rattle.object_rows.specs.Names.{node_named, NodesIndexed};

use crate::place::Node;
use std::collections::BTreeMap;
use version_groups::kinds::{Name, NodeName, Refusal};

/// The number of the node with this name.
pub(crate) fn named(
    names: &BTreeMap<NodeName, u32>,
    nodes: &BTreeMap<u32, Node>,
    name: &NodeName,
) -> Option<u32>
    requires { NodesIndexed names.now.entries nodes.now.entries }
    ensures { result ≡ node_named name.now nodes.now.entries }
{
    names.get(name).copied()
}

/// Defines a node that is not refused.
#[tactic(auto, using(crate::proofs::Made::node_comes))]
pub(crate) fn define(
    names: &mut BTreeMap<NodeName, u32>,
    nodes: &mut BTreeMap<u32, Node>,
    name: &NodeName,
    domain: &Name,
    number: u32,
) -> Result<(), Refusal>
    requires indexed { NodesIndexed names.old.entries nodes.old.entries }
    requires free { is_some (lookup (at_number number) nodes.old.entries) ≡ false }
    requires fine { result_err (nodes_with name.now domain.now number nodes.old.entries) ≡ None }
    ensures value { Becomes result nodes.old.entries nodes.new.entries (nodes_with name.now domain.now number nodes.old.entries) }
    ensures indexed { NodesIndexed names.new.entries nodes.new.entries }
{
    let key = name.clone()?;
    let node = Node {
        name: name.clone()?,
        domain: domain.clone()?,
    };
    names.insert(key, number)?;
    match nodes.insert(number, node) {
        Ok(_) => Ok(()),
        Err(_) => {
            names.remove(name);
            Err(Refusal::Memory)
        }
    }
}

/// Takes the node with this name and number away.
fn remove(
    names: &mut BTreeMap<NodeName, u32>,
    nodes: &mut BTreeMap<u32, Node>,
    name: &NodeName,
    number: u32,
)
    requires indexed { NodesIndexed names.old.entries nodes.old.entries }
    requires there { node_named name.now nodes.old.entries ≡ Some number }
    ensures value { nodes.new.entries ≡ remove_entry (at_number number) nodes.old.entries }
    ensures indexed { NodesIndexed names.new.entries nodes.new.entries }
{
    names.remove(name);
    nodes.remove(&number);
}

/// Takes the node with this name away, which is not refused.
#[tactic(auto, using(crate::proofs::Made::node_goes))]
pub(crate) fn delete(
    names: &mut BTreeMap<NodeName, u32>,
    nodes: &mut BTreeMap<u32, Node>,
    name: &NodeName,
)
    requires { NodesIndexed names.old.entries nodes.old.entries }
    ensures value { (filespaces : List (ℕ × Filespace)) → result_err (nodes_without name.now filespaces nodes.old.entries) ≡ None
        → nodes_without name.now filespaces nodes.old.entries ≡ Ok nodes.new.entries }
    ensures indexed { NodesIndexed names.new.entries nodes.new.entries }
{
    match named(names, nodes, name) {
        None => (),
        Some(number) => remove(names, nodes, name, number),
    }
}
