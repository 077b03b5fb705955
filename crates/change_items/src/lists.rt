//! What transactions on stored objects change, by their kinds.
ghost use Rattle.fields.specs.Editions.{second_form};
ghost use Rattle.change_items.specs.BatchForms.{new_versions, new_versions_form, new_held_objects, new_held_objects_form, rebindings, rebindings_form, named_versions, named_versions_form, moved_copies, moved_copies_form, new_copies, new_copies_form, dropped_copies, dropped_copies_form, discarded_versions, discarded_versions_form};

use crate::items::{
    Batch, DiscardedVersion, DroppedCopy, MovedCopy, NamedVersion, NewCopy, NewHeldObject,
    NewVersion, Rebinding, Scratch,
};
use crate::reasons::{DiscardReason, DropReason};
use fields::{
    By, Decoder, Fault, Formed, InEdition, Items, Memory, Reader, Second, put_u32, take_items,
};
use kinds::Fitting;
use std::alloc::Global;

/// Versions that a client sent into one filespace.
#[derive(Drop)]
pub struct NewVersions {
    /// The filespace, by its number.
    pub filespace: u32,
    /// The scratch volumes that are made for them.
    pub scratch: Scratch,
    /// The versions.
    pub items: Batch<NewVersion>,
}

/// The fields one after the other.
#[tactic(auto, unfolding(crate::specs::BatchForms::new_versions))]
impl<E: InEdition> Decoder<NewVersions> for By<E> {
    ghost form = { new_versions E.edition };

    fn take(alloc: Global, reader: &mut Reader<'_>) -> Result<NewVersions, Fault> {
        let filespace = reader.u32()?;
        let scratch = Items::read_from(alloc, reader)?;
        let items = take_items::<NewVersion, By<E>, 256>(alloc, reader)?;
        Ok(NewVersions {
            filespace,
            scratch,
            items,
        })
    }

    ghost is_form = { new_versions_form E.edition };
}

#[tactic(auto, unfolding(crate::specs::BatchForms::new_versions))]
impl Formed for NewVersions {
    ghost form = { new_versions second_form };

    fn write_to(&self, out: &mut Vec<u8>) -> Result<(), Memory> {
        put_u32(out, self.filespace)?;
        self.scratch.write_to(out)?;
        self.items.write_to(out)?;
        Ok(())
    }

    fn read_from(alloc: Global, reader: &mut Reader<'_>) -> Result<Self, Fault> {
        By::<Second>::take(alloc, reader)
    }

    ghost is_form = { new_versions_form second_form };
}

#[tactic(auto, unfolding(crate::specs::BatchForms::new_versions))]
impl Fitting for NewVersions {
    fn fits(&self) {
        self.filespace.fits();
        self.scratch.fits();
        self.items.fits();
    }
}

/// Objects that a client archived, of one filespace.
#[derive(Drop)]
pub struct NewHeldObjects {
    /// The filespace, by its number.
    pub filespace: u32,
    /// The scratch volumes that are made for them.
    pub scratch: Scratch,
    /// The objects.
    pub items: Batch<NewHeldObject>,
}

/// The fields one after the other.
#[tactic(auto, unfolding(crate::specs::BatchForms::new_held_objects))]
impl Formed for NewHeldObjects {
    ghost form = { new_held_objects };

    fn write_to(&self, out: &mut Vec<u8>) -> Result<(), Memory> {
        put_u32(out, self.filespace)?;
        self.scratch.write_to(out)?;
        self.items.write_to(out)?;
        Ok(())
    }

    fn read_from(alloc: Global, reader: &mut Reader<'_>) -> Result<Self, Fault> {
        let filespace = reader.u32()?;
        let scratch = Items::read_from(alloc, reader)?;
        let items = Items::read_from(alloc, reader)?;
        Ok(NewHeldObjects {
            filespace,
            scratch,
            items,
        })
    }

    ghost is_form = { new_held_objects_form };
}

#[tactic(auto, unfolding(crate::specs::BatchForms::new_held_objects))]
impl Fitting for NewHeldObjects {
    fn fits(&self) {
        self.filespace.fits();
        self.scratch.fits();
        self.items.fits();
    }
}

/// Paths of one filespace that are bound to other management classes.
#[derive(Drop)]
pub struct Rebindings {
    /// The filespace, by its number.
    pub filespace: u32,
    /// The paths, and their classes.
    pub items: Batch<Rebinding>,
}

/// The fields one after the other.
#[tactic(auto, unfolding(crate::specs::BatchForms::rebindings))]
impl Formed for Rebindings {
    ghost form = { rebindings };

    fn write_to(&self, out: &mut Vec<u8>) -> Result<(), Memory> {
        put_u32(out, self.filespace)?;
        self.items.write_to(out)?;
        Ok(())
    }

    fn read_from(alloc: Global, reader: &mut Reader<'_>) -> Result<Self, Fault> {
        let filespace = reader.u32()?;
        let items = Items::read_from(alloc, reader)?;
        Ok(Rebindings { filespace, items })
    }

    ghost is_form = { rebindings_form };
}

#[tactic(auto, unfolding(crate::specs::BatchForms::rebindings))]
impl Fitting for Rebindings {
    fn fits(&self) {
        self.filespace.fits();
        self.items.fits();
    }
}

/// Versions of one filespace, by their paths and object numbers.
#[derive(Drop)]
pub struct NamedVersions {
    /// The filespace, by its number.
    pub filespace: u32,
    /// The versions.
    pub items: Batch<NamedVersion>,
}

/// The fields one after the other.
#[tactic(auto, unfolding(crate::specs::BatchForms::named_versions))]
impl Formed for NamedVersions {
    ghost form = { named_versions };

    fn write_to(&self, out: &mut Vec<u8>) -> Result<(), Memory> {
        put_u32(out, self.filespace)?;
        self.items.write_to(out)?;
        Ok(())
    }

    fn read_from(alloc: Global, reader: &mut Reader<'_>) -> Result<Self, Fault> {
        let filespace = reader.u32()?;
        let items = Items::read_from(alloc, reader)?;
        Ok(NamedVersions { filespace, items })
    }

    ghost is_form = { named_versions_form };
}

#[tactic(auto, unfolding(crate::specs::BatchForms::named_versions))]
impl Fitting for NamedVersions {
    fn fits(&self) {
        self.filespace.fits();
        self.items.fits();
    }
}

/// Copies that move.
#[derive(Drop)]
pub struct MovedCopies {
    /// The scratch volumes that are made for them.
    pub scratch: Scratch,
    /// The copies.
    pub items: Batch<MovedCopy>,
}

/// The fields one after the other.
#[tactic(auto, unfolding(crate::specs::BatchForms::moved_copies))]
impl<E: InEdition> Decoder<MovedCopies> for By<E> {
    ghost form = { moved_copies E.edition };

    fn take(alloc: Global, reader: &mut Reader<'_>) -> Result<MovedCopies, Fault> {
        let scratch = Items::read_from(alloc, reader)?;
        let items = take_items::<MovedCopy, By<E>, 256>(alloc, reader)?;
        Ok(MovedCopies { scratch, items })
    }

    ghost is_form = { moved_copies_form E.edition };
}

#[tactic(auto, unfolding(crate::specs::BatchForms::moved_copies))]
impl Formed for MovedCopies {
    ghost form = { moved_copies second_form };

    fn write_to(&self, out: &mut Vec<u8>) -> Result<(), Memory> {
        self.scratch.write_to(out)?;
        self.items.write_to(out)?;
        Ok(())
    }

    fn read_from(alloc: Global, reader: &mut Reader<'_>) -> Result<Self, Fault> {
        By::<Second>::take(alloc, reader)
    }

    ghost is_form = { moved_copies_form second_form };
}

#[tactic(auto, unfolding(crate::specs::BatchForms::moved_copies))]
impl Fitting for MovedCopies {
    fn fits(&self) {
        self.scratch.fits();
        self.items.fits();
    }
}

/// Copies that are made beside others of their objects.
#[derive(Drop)]
pub struct NewCopies {
    /// The scratch volumes that are made for them.
    pub scratch: Scratch,
    /// The copies.
    pub items: Batch<NewCopy>,
}

/// The fields one after the other.
#[tactic(auto, unfolding(crate::specs::BatchForms::new_copies))]
impl<E: InEdition> Decoder<NewCopies> for By<E> {
    ghost form = { new_copies E.edition };

    fn take(alloc: Global, reader: &mut Reader<'_>) -> Result<NewCopies, Fault> {
        let scratch = Items::read_from(alloc, reader)?;
        let items = take_items::<NewCopy, By<E>, 256>(alloc, reader)?;
        Ok(NewCopies { scratch, items })
    }

    ghost is_form = { new_copies_form E.edition };
}

#[tactic(auto, unfolding(crate::specs::BatchForms::new_copies))]
impl Formed for NewCopies {
    ghost form = { new_copies second_form };

    fn write_to(&self, out: &mut Vec<u8>) -> Result<(), Memory> {
        self.scratch.write_to(out)?;
        self.items.write_to(out)?;
        Ok(())
    }

    fn read_from(alloc: Global, reader: &mut Reader<'_>) -> Result<Self, Fault> {
        By::<Second>::take(alloc, reader)
    }

    ghost is_form = { new_copies_form second_form };
}

#[tactic(auto, unfolding(crate::specs::BatchForms::new_copies))]
impl Fitting for NewCopies {
    fn fits(&self) {
        self.scratch.fits();
        self.items.fits();
    }
}

/// Copies that go, while other copies of their objects stay.
#[derive(Drop)]
pub struct DroppedCopies {
    /// Why they go.
    pub reason: DropReason,
    /// The copies.
    pub items: Batch<DroppedCopy>,
}

/// The fields one after the other.
#[tactic(auto, unfolding(crate::specs::BatchForms::dropped_copies))]
impl Formed for DroppedCopies {
    ghost form = { dropped_copies };

    fn write_to(&self, out: &mut Vec<u8>) -> Result<(), Memory> {
        self.reason.write_to(out)?;
        self.items.write_to(out)?;
        Ok(())
    }

    fn read_from(alloc: Global, reader: &mut Reader<'_>) -> Result<Self, Fault> {
        let reason = DropReason::read_from(alloc, reader)?;
        let items = Items::read_from(alloc, reader)?;
        Ok(DroppedCopies { reason, items })
    }

    ghost is_form = { dropped_copies_form };
}

#[tactic(auto, unfolding(crate::specs::BatchForms::dropped_copies))]
impl Fitting for DroppedCopies {
    fn fits(&self) {
        self.reason.fits();
        self.items.fits();
    }
}

/// Versions that go with their copies.
#[derive(Drop)]
pub struct DiscardedVersions {
    /// Why they go.
    pub reason: DiscardReason,
    /// The versions.
    pub items: Batch<DiscardedVersion>,
}

/// The fields one after the other.
#[tactic(auto, unfolding(crate::specs::BatchForms::discarded_versions))]
impl Formed for DiscardedVersions {
    ghost form = { discarded_versions };

    fn write_to(&self, out: &mut Vec<u8>) -> Result<(), Memory> {
        self.reason.write_to(out)?;
        self.items.write_to(out)?;
        Ok(())
    }

    fn read_from(alloc: Global, reader: &mut Reader<'_>) -> Result<Self, Fault> {
        let reason = DiscardReason::read_from(alloc, reader)?;
        let items = Items::read_from(alloc, reader)?;
        Ok(DiscardedVersions { reason, items })
    }

    ghost is_form = { discarded_versions_form };
}

#[tactic(auto, unfolding(crate::specs::BatchForms::discarded_versions))]
impl Fitting for DiscardedVersions {
    fn fits(&self) {
        self.reason.fits();
        self.items.fits();
    }
}
