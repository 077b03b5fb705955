//! Changes of client nodes and filespaces.
ghost use Rattle.std.specs.Prelude.{◌≡◌, ◌++◌, OnOk};
ghost use Rattle.std.specs.Int.{w32};
ghost use Rattle.fields.specs.Forms.{number, pair, variant};
ghost use Rattle.kinds.specs.ValueForms.{path};
ghost use Rattle.fields.specs.Gives.{Gives};
ghost use Rattle.fields.specs.Editions.{second_form};
ghost use Rattle.entries.specs.ChangeForm.{change};
ghost use Rattle.entries.specs.declared.change.Change.TheVariants.{Object};
ghost use Rattle.entries.specs.NodeTags.{object_body, node_with, node_of, node_fields, filespace_with, filespace_of, filespace_fields};

use fields::{Fault, Formed, Memory, Reader, put_u8, put_u32};
use kinds::{DefineOrDelete, FilespaceName, Fitting, Name, NodeName, ObjectChange};
use std::alloc::Global;

fn put_named(out: &mut Vec<u8>, name: &FilespaceName, filespace: u32) -> Result<(), Memory>
    requires { (pair (path 64) (number w32)).Fits (name.now, filespace) }
    ensures { OnOk result (out.new.items ≡ out.old.items ++ (pair (path 64) (number w32)).spell (name.now, filespace)) }
{
    name.write_to(out)?;
    put_u32(out, filespace)?;
    Ok(())
}

/// Puts the spelling of the change at the end, its tag in front.
#[tactic(auto, unfolding(crate::specs::ChangeForm::change, crate::specs::ChangeForm::change_body, crate::specs::NodeTags::object_body))]
pub fn put_object(out: &mut Vec<u8>, object: &ObjectChange) -> Result<(), Memory>
    requires { (change second_form).Fits (Object object.now) }
    ensures { OnOk result (out.new.items ≡ out.old.items ++ (change second_form).spell (Object object.now)) }
{
    match object {
        ObjectChange::Node { verb, node, domain } => {
            put_u8(out, 8)?;
            verb.write_to(out)?;
            node.write_to(out)?;
            domain.write_to(out)?;
            Ok(())
        }
        ObjectChange::Filespace {
            verb,
            node,
            name,
            filespace,
        } => {
            put_u8(out, 24)?;
            verb.write_to(out)?;
            put_u32(out, *node)?;
            put_named(out, name, *filespace)?;
            Ok(())
        }
    }
}

/// Nothing is done; the caller learns that the change has a spelling.
#[tactic(auto, unfolding(crate::specs::ChangeForm::change, crate::specs::ChangeForm::change_body, crate::specs::NodeTags::object_body))]
pub fn object_fits(object: &ObjectChange)
    ensures { (change second_form).Fits (Object object.now) }
{
    match object {
        ObjectChange::Node {
            verb: _,
            node,
            domain,
        } => {
            node.fits();
            domain.fits();
        }
        ObjectChange::Filespace {
            verb: _,
            node,
            name,
            filespace,
        } => {
            node.fits();
            name.fits();
            filespace.fits();
        }
    }
}

fn read_node(alloc: Global, reader: &mut Reader<'_>) -> Result<ObjectChange, Fault>
    ensures { Gives result reader.new.rest ((variant node_with node_of node_fields).read reader.old.rest) }
{
    let verb = DefineOrDelete::read_from(alloc, reader)?;
    let node = NodeName::read_from(alloc, reader)?;
    let domain = Name::read_from(alloc, reader)?;
    Ok(ObjectChange::Node { verb, node, domain })
}

fn read_filespace(alloc: Global, reader: &mut Reader<'_>) -> Result<ObjectChange, Fault>
    ensures { Gives result reader.new.rest ((variant filespace_with filespace_of filespace_fields).read reader.old.rest) }
{
    let verb = DefineOrDelete::read_from(alloc, reader)?;
    let node = reader.u32()?;
    let name = FilespaceName::read_from(alloc, reader)?;
    let filespace = reader.u32()?;
    Ok(ObjectChange::Filespace {
        verb,
        node,
        name,
        filespace,
    })
}

/// Takes what follows the tag of a change of nodes and filespaces: 8 or 24. After an `Err` the reader stands anywhere.
#[tactic(auto, unfolding(crate::specs::NodeTags::object_body))]
pub fn read_object(alloc: Global, tag: u8, reader: &mut Reader<'_>) -> Result<ObjectChange, Fault>
    ensures { Gives result reader.new.rest ((object_body tag).read reader.old.rest) }
{
    match tag {
        8 => read_node(alloc, reader),
        24 => read_filespace(alloc, reader),
        _ => Err(Fault::Malformed),
    }
}
