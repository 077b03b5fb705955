//! Client nodes and filespaces, as lines ask for them.
use crate::answer::{Answer, Fault, number as found};
use crate::words::{define_or_delete, filespace_name, name, node_name, number};
use kinds::{DefineOrDelete, ObjectChange};
use object_rows::Objects;
use std::alloc::Global;

/// `define|delete NUMBER NODE`; the node is of the domain STANDARD.
fn node_change(alloc: Global, words: &[&str]) -> Result<ObjectChange, Fault> {
    let [what, _, node] = words else {
        return Err(Fault::NoCommand);
    };
    Ok(ObjectChange::Node {
        verb: define_or_delete(what)?,
        node: node_name(alloc, node)?,
        domain: name(alloc, "STANDARD")?,
    })
}

/// `define|delete NODE NUMBER NAME`.
fn filespace_change(alloc: Global, words: &[&str]) -> Result<ObjectChange, Fault> {
    let [what, node, filespace, of] = words else {
        return Err(Fault::NoCommand);
    };
    Ok(ObjectChange::Filespace {
        verb: define_or_delete(what)?,
        node: number(node)?,
        filespace: number(filespace)?,
        name: filespace_name(alloc, of)?,
    })
}

/// Makes the change, where what it defines may have its number.
fn make(objects: &mut Objects, change: &ObjectChange, number: u32) -> Result<Answer, Fault> {
    let taken = match change {
        ObjectChange::Node { .. } => objects.nodes().contains_key(&number),
        ObjectChange::Filespace {
            verb: DefineOrDelete::Define,
            filespace,
            ..
        } => objects.filespaces().contains_key(filespace),
        ObjectChange::Filespace { .. } => false,
    };
    if taken {
        return Ok(Answer::Unmet);
    }
    objects.change(change, number)?;
    Ok(Answer::Done)
}

/// Defines or deletes a node.
pub fn node(alloc: Global, objects: &mut Objects, words: &[&str]) -> Result<Answer, Fault> {
    let [_, place, _] = words else {
        return Err(Fault::NoCommand);
    };
    let place = number(place)?;
    let change = node_change(alloc, words)?;
    let made = make(objects, &change, place);
    drop(change);
    made
}

/// Defines or deletes a filespace.
pub fn filespace(alloc: Global, objects: &mut Objects, words: &[&str]) -> Result<Answer, Fault> {
    let change = filespace_change(alloc, words)?;
    let made = make(objects, &change, 0);
    drop(change);
    made
}

/// The number to which a name leads, `node NAME` or `filespace NODE NAME`.
pub fn named(alloc: Global, objects: &Objects, words: &[&str]) -> Result<Answer, Fault> {
    match words {
        ["node", name] => Ok(found(objects.node_named(&node_name(alloc, name)?))),
        ["filespace", node, name] => {
            let node = number(node)?;
            let name = filespace_name(alloc, name)?;
            Ok(found(objects.filespace_named(node, &name)))
        }
        _ => Err(Fault::NoCommand),
    }
}
