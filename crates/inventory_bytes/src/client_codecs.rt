//! Client nodes, filespaces and held objects.
ghost use Rattle.std.specs.Prelude.{◌≡◌, ◌++◌, OnOk};
ghost use Rattle.fields.specs.Editions.{second_form};
ghost use Rattle.inventory_bytes.specs.ClientForms.{node_row, node_row_form, filespace_row, filespace_row_form, held_row, held_row_form, held_bytes, held_fields};

use crate::version_codecs::{GroupRow, put_copies, take_copies};
use fields::{
    Codec, Decoder, Fault, Formed, InEdition, Memory, Reader, Second, put_table, put_u32, put_u64,
    take_table,
};
use inventory_rows::object_rows::{HeldObject, HeldRow, Node};
use inventory_rows::version_groups::{Filespace, Group, Groups, Version};
use kinds::{Day, Digest, FilespaceName, Name, NodeName, ObjectSize, Path, Text};
use std::alloc::Global;
use std::marker::PhantomData;

/// A node: its name, and that of its domain.
pub struct NodeRow;

#[tactic(auto, unfolding(crate::specs::ClientForms::node_row))]
impl Decoder<Node> for NodeRow {
    ghost form = { node_row };

    fn take(alloc: Global, reader: &mut Reader<'_>) -> Result<Node, Fault> {
        let name = NodeName::read_from(alloc, reader)?;
        let domain = Name::read_from(alloc, reader)?;
        Ok(Node { name, domain })
    }

    ghost is_form = { node_row_form };
}

#[tactic(auto, unfolding(crate::specs::ClientForms::node_row))]
impl Codec<Node> for NodeRow {
    fn put(out: &mut Vec<u8>, value: &Node) -> Result<(), Memory> {
        value.name.write_to(out)?;
        value.domain.write_to(out)?;
        Ok(())
    }
}

/// A filespace: its node's number, its name, and the groups of its paths.
pub struct FilespaceRow<E> {
    edition: PhantomData<E>,
}

#[tactic(auto, unfolding(crate::specs::ClientForms::filespace_row))]
impl<E: InEdition> Decoder<Filespace> for FilespaceRow<E> {
    ghost form = { filespace_row E.edition };

    fn take(alloc: Global, reader: &mut Reader<'_>) -> Result<Filespace, Fault> {
        let node = reader.u32()?;
        let name = FilespaceName::read_from(alloc, reader)?;
        let groups = take_table::<Path, Group, GroupRow<E>>(alloc, reader, u32::MAX)?;
        Ok(Filespace {
            node,
            name,
            groups: Groups::from_map(groups),
        })
    }

    ghost is_form = { filespace_row_form E.edition };
}

#[tactic(auto, unfolding(crate::specs::ClientForms::filespace_row))]
impl Codec<Filespace> for FilespaceRow<Second> {
    fn put(out: &mut Vec<u8>, value: &Filespace) -> Result<(), Memory> {
        put_u32(out, value.node)?;
        value.name.write_to(out)?;
        put_table::<Path, Group, GroupRow<Second>>(out, value.groups.as_map())?;
        Ok(())
    }
}

/// Puts a held object's row; its number, under which it stands, is left out.
pub(crate) fn put_held(out: &mut Vec<u8>, value: &HeldRow) -> Result<(), Memory>
    requires { held_bytes.Fits (held_fields value.now) }
    ensures { OnOk result (out.new.items ≡ out.old.items ++ held_bytes.spell (held_fields value.now)) }
{
    put_u32(out, value.filespace)?;
    value.held.path.write_to(out)?;
    value.held.description.write_to(out)?;
    value.held.version.size.write_to(out)?;
    put_u64(out, value.held.version.mtime)?;
    value.held.version.digest.write_to(out)?;
    value.held.version.stored.write_to(out)?;
    value.held.until.write_to(out)?;
    put_copies(out, &value.held.version.copies)?;
    Ok(())
}

/// A held object with the number 0: its filespace, its path, its description, its size, its time, its digest, the day on which it was stored, the day
/// until which it is held, or none, and its copies.
pub struct HeldBytes;

#[tactic(auto, unfolding(crate::specs::ClientForms::held_row))]
impl Decoder<HeldRow> for HeldBytes {
    ghost form = { held_row };

    fn take(alloc: Global, reader: &mut Reader<'_>) -> Result<HeldRow, Fault> {
        let filespace = reader.u32()?;
        let path = Path::read_from(alloc, reader)?;
        let description = Text::read_from(alloc, reader)?;
        let size = ObjectSize::read_from(alloc, reader)?;
        let mtime = reader.u64()?;
        let digest = Digest::read_from(alloc, reader)?;
        let stored = Day::read_from(alloc, reader)?;
        let until = Option::<u32>::read_from(alloc, reader)?;
        let copies = take_copies::<Second>(alloc, reader)?;
        let version = Version {
            object: 0,
            size,
            mtime,
            digest,
            stored,
            since: None,
            copies,
        };
        Ok(HeldRow {
            filespace,
            held: HeldObject {
                path,
                description,
                version,
                until,
            },
        })
    }

    ghost is_form = { held_row_form };
}
