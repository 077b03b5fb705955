//! Rows of which a whole value is made.
use crate::answer::Fault;
use crate::words::{filespace_name, name, node_name, number};
use kinds::Refusal;
use object_rows::{Node, Objects};
use std::alloc::Global;
use std::collections::BTreeMap;
use version_groups::{Filespace, Groups};

/// The rows of nodes and filespaces.
#[derive(Drop)]
struct Parts {
    nodes: BTreeMap<u32, Node>,
    filespaces: BTreeMap<u32, Filespace>,
}

/// A node of the domain STANDARD.
fn node(alloc: Global, text: &str) -> Result<Node, Fault> {
    Ok(Node {
        name: node_name(alloc, text)?,
        domain: name(alloc, "STANDARD")?,
    })
}

/// A filespace without versions, of the node and with the name that stand in `NODE:NAME`.
fn filespace(alloc: Global, text: &str) -> Result<Filespace, Fault> {
    let (node, name) = text.split_once(':').ok_or(Fault::NoCommand)?;
    Ok(Filespace {
        node: number(node)?,
        name: filespace_name(alloc, name)?,
        groups: Groups::new(alloc),
    })
}

impl Parts {
    fn new(alloc: Global) -> Self {
        Parts {
            nodes: BTreeMap::new(alloc),
            filespaces: BTreeMap::new(alloc),
        }
    }

    fn add_node(&mut self, number: u32, node: Node) -> Result<(), Refusal> {
        self.nodes.insert(number, node)?;
        Ok(())
    }

    fn add_filespace(&mut self, number: u32, filespace: Filespace) -> Result<(), Refusal> {
        self.filespaces.insert(number, filespace)?;
        Ok(())
    }

    /// Adds the row that the word has: `node=1:TOM` or `space=2:1:/home`.
    fn add(&mut self, alloc: Global, word: &str) -> Result<(), Fault> {
        let (kind, row) = word.split_once('=').ok_or(Fault::NoCommand)?;
        let (place, text) = row.split_once(':').ok_or(Fault::NoCommand)?;
        let place = number(place)?;
        match kind {
            "node" => self.add_node(place, node(alloc, text)?)?,
            "space" => self.add_filespace(place, filespace(alloc, text)?)?,
            _ => return Err(Fault::NoCommand),
        }
        Ok(())
    }
}

/// The value that has these rows, if there is one.
pub fn made(alloc: Global, words: &[&str]) -> Result<Option<Objects>, Fault> {
    let mut parts = Parts::new(alloc);
    for word in words {
        parts.add(alloc, word)?;
    }
    let Parts { nodes, filespaces } = parts;
    let held = BTreeMap::new(alloc);
    let made = Objects::from_parts(alloc, nodes, filespaces, held)?;
    Ok(made)
}

/// The value that has the same rows as this one.
pub fn made_again(alloc: Global, of: &Objects) -> Result<Option<Objects>, Fault> {
    let nodes = of.nodes().clone()?;
    let filespaces = of.filespaces().clone()?;
    let held = of.held().clone()?;
    let made = Objects::from_parts(alloc, nodes, filespaces, held)?;
    Ok(made)
}
