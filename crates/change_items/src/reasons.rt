//! Why copies and versions go.
ghost use Rattle.fields.specs.Gives.{Gives};
ghost use Rattle.change_items.specs.ReasonForms.{drop_body, drop_reason, drop_reason_form, discard_body, discard_reason, discard_reason_form};

use crate::tagged::put_tagged;
use fields::{Fault, Formed, Memory, Reader};
use kinds::Fitting;
use std::alloc::Global;

/// Why copies go while other copies of their objects stay.
#[derive(Clone, Copy, Debug, PartialEq, Eq)]
pub enum DropReason {
    /// An audit found other bytes than were stored, in the volume with this file number.
    Audit { file: u32 },
    /// The volume with this file number is deleted with what it holds.
    Volume { file: u32 },
}

/// Why versions go with all their copies.
#[derive(Clone, Copy, Debug, PartialEq, Eq)]
pub enum DiscardReason {
    /// An audit found other bytes than were stored, in the volume with this file number.
    Audit { file: u32 },
    /// The volume with this file number is deleted with what it holds.
    Volume { file: u32 },
    /// The filespace with this number is deleted.
    Filespace { filespace: u32 },
}

fn read_drop(tag: u8, reader: &mut Reader<'_>) -> Result<DropReason, Fault>
    ensures { Gives result reader.new.rest ((drop_body tag).read reader.old.rest) }
{
    match tag {
        1 => Ok(DropReason::Audit {
            file: reader.u32()?,
        }),
        2 => Ok(DropReason::Volume {
            file: reader.u32()?,
        }),
        _ => Err(Fault::Malformed),
    }
}

/// 1 or 2, and the file number in four bytes.
#[tactic(auto, unfolding(crate::specs::ReasonForms::drop_reason))]
impl Formed for DropReason {
    ghost form = { drop_reason };

    fn write_to(&self, out: &mut Vec<u8>) -> Result<(), Memory> {
        match self {
            DropReason::Audit { file } => put_tagged(out, 1, file),
            DropReason::Volume { file } => put_tagged(out, 2, file),
        }
    }

    fn read_from(_alloc: Global, reader: &mut Reader<'_>) -> Result<Self, Fault> {
        let tag = reader.u8()?;
        read_drop(tag, reader)
    }

    ghost is_form = { drop_reason_form };
}

#[tactic(auto, unfolding(crate::specs::ReasonForms::drop_reason))]
impl Fitting for DropReason {
    fn fits(&self) {
        match self {
            DropReason::Audit { file } => file.fits(),
            DropReason::Volume { file } => file.fits(),
        }
    }
}

fn read_discard(tag: u8, reader: &mut Reader<'_>) -> Result<DiscardReason, Fault>
    ensures { Gives result reader.new.rest ((discard_body tag).read reader.old.rest) }
{
    match tag {
        1 => Ok(DiscardReason::Audit {
            file: reader.u32()?,
        }),
        2 => Ok(DiscardReason::Volume {
            file: reader.u32()?,
        }),
        3 => Ok(DiscardReason::Filespace {
            filespace: reader.u32()?,
        }),
        _ => Err(Fault::Malformed),
    }
}

/// 1, 2 or 3, and the number of the file or of the filespace in four bytes.
#[tactic(auto, unfolding(crate::specs::ReasonForms::discard_reason))]
impl Formed for DiscardReason {
    ghost form = { discard_reason };

    fn write_to(&self, out: &mut Vec<u8>) -> Result<(), Memory> {
        match self {
            DiscardReason::Audit { file } => put_tagged(out, 1, file),
            DiscardReason::Volume { file } => put_tagged(out, 2, file),
            DiscardReason::Filespace { filespace } => put_tagged(out, 3, filespace),
        }
    }

    fn read_from(_alloc: Global, reader: &mut Reader<'_>) -> Result<Self, Fault> {
        let tag = reader.u8()?;
        read_discard(tag, reader)
    }

    ghost is_form = { discard_reason_form };
}

#[tactic(auto, unfolding(crate::specs::ReasonForms::discard_reason))]
impl Fitting for DiscardReason {
    fn fits(&self) {
        match self {
            DiscardReason::Audit { file } => file.fits(),
            DiscardReason::Volume { file } => file.fits(),
            DiscardReason::Filespace { filespace } => filespace.fits(),
        }
    }
}
