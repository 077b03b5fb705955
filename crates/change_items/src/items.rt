//! What transactions on stored objects list.
ghost use Rattle.std.specs.Prelude.{◌≡◌, ◌++◌, OnOk};
ghost use Rattle.fields.specs.Editions.{second_form};
ghost use Rattle.change_items.specs.ItemForms.{placed, scratch_volume, scratch_volume_form, new_version, new_version_form, new_held_object, new_held_object_form, rebinding, rebinding_form, named_version, named_version_form, moved_copy, moved_copy_form, new_copy, new_copy_form, dropped_copy, dropped_copy_form, discarded_version, discarded_version_form};

use fields::{
    By, Decoder, Fault, Formed, InEdition, Items, Memory, Reader, Second, put_u32, put_u64,
};
use kinds::{Digest, Fitting, Name, ObjectSize, Path, Segments, Text};
use std::alloc::Global;

/// A list of at most 256 things that one transaction changes. Contracts see it as the list of them.
pub type Batch<T> = Items<T, 256>;

/// The scratch volumes that a transaction makes. Contracts see them as the list of them.
pub type Scratch = Items<ScratchVolume, 4294967295>;

/// Puts where a copy lies: its pool's number, and its segments.
fn put_placed(out: &mut Vec<u8>, pool: u32, segments: &Segments) -> Result<(), Memory>
    requires { (placed second_form).Fits (pool, segments.now) }
    ensures { OnOk result (out.new.items ≡ out.old.items ++ (placed second_form).spell (pool, segments.now)) }
{
    put_u32(out, pool)?;
    segments.write_to(out)?;
    Ok(())
}

/// A scratch volume that a transaction makes.
#[derive(Clone, Copy, Debug, PartialEq, Eq)]
pub struct ScratchVolume {
    /// Its storage pool, by its number.
    pub pool: u32,
    /// Its file number.
    pub file: u32,
}

/// The pool's number and the file number, each in four bytes.
#[tactic(auto, unfolding(crate::specs::ItemForms::scratch_volume))]
impl Formed for ScratchVolume {
    ghost form = { scratch_volume };

    fn write_to(&self, out: &mut Vec<u8>) -> Result<(), Memory> {
        put_u32(out, self.pool)?;
        put_u32(out, self.file)?;
        Ok(())
    }

    fn read_from(_alloc: Global, reader: &mut Reader<'_>) -> Result<Self, Fault> {
        let pool = reader.u32()?;
        let file = reader.u32()?;
        Ok(ScratchVolume { pool, file })
    }

    ghost is_form = { scratch_volume_form };
}

#[tactic(auto, unfolding(crate::specs::ItemForms::scratch_volume))]
impl Fitting for ScratchVolume {
    fn fits(&self) {
        self.pool.fits();
        self.file.fits();
    }
}

/// A version that a client sent.
#[derive(Drop)]
pub struct NewVersion {
    /// The path of the client file.
    pub path: Path,
    /// The management class that the path is bound to.
    pub class: Name,
    /// How many bytes it has.
    pub size: ObjectSize,
    /// When the file was changed last, in the unit of the tree that it comes from.
    pub mtime: u64,
    /// The digest of its bytes.
    pub digest: Digest,
    /// Its object number.
    pub object: u64,
    /// The storage pool that its copy lies in, by its number.
    pub pool: u32,
    /// Where the copy lies.
    pub segments: Segments,
}

/// The fields one after the other.
#[tactic(auto, unfolding(crate::specs::ItemForms::new_version))]
impl<E: InEdition> Decoder<NewVersion> for By<E> {
    ghost form = { new_version E.edition };

    fn take(alloc: Global, reader: &mut Reader<'_>) -> Result<NewVersion, Fault> {
        let path = Path::read_from(alloc, reader)?;
        let class = Name::read_from(alloc, reader)?;
        let size: ObjectSize = By::<E>::take(alloc, reader)?;
        let mtime = reader.u64()?;
        let digest = Digest::read_from(alloc, reader)?;
        let object = reader.u64()?;
        let pool = reader.u32()?;
        let segments: Segments = By::<E>::take(alloc, reader)?;
        Ok(NewVersion {
            path,
            class,
            size,
            mtime,
            digest,
            object,
            pool,
            segments,
        })
    }

    ghost is_form = { new_version_form E.edition };
}

#[tactic(auto, unfolding(crate::specs::ItemForms::new_version))]
impl Formed for NewVersion {
    ghost form = { new_version second_form };

    fn write_to(&self, out: &mut Vec<u8>) -> Result<(), Memory> {
        self.path.write_to(out)?;
        self.class.write_to(out)?;
        self.size.write_to(out)?;
        put_u64(out, self.mtime)?;
        self.digest.write_to(out)?;
        put_u64(out, self.object)?;
        put_u32(out, self.pool)?;
        self.segments.write_to(out)?;
        Ok(())
    }

    fn read_from(alloc: Global, reader: &mut Reader<'_>) -> Result<Self, Fault> {
        By::<Second>::take(alloc, reader)
    }

    ghost is_form = { new_version_form second_form };
}

#[tactic(auto, unfolding(crate::specs::ItemForms::new_version))]
impl Fitting for NewVersion {
    fn fits(&self) {
        self.path.fits();
        self.class.fits();
        self.size.fits();
        self.mtime.fits();
        self.digest.fits();
        self.object.fits();
        self.pool.fits();
        self.segments.fits();
    }
}

/// An object that a client archived.
#[derive(Debug, Drop)]
pub struct NewHeldObject {
    /// The path of the client file.
    pub path: Path,
    /// What the client says of it.
    pub description: Text,
    /// How many bytes it has.
    pub size: ObjectSize,
    /// When the file was changed last, in the unit of the tree that it comes from.
    pub mtime: u64,
    /// The digest of its bytes.
    pub digest: Digest,
    /// Its object number.
    pub object: u64,
    /// The storage pool that its copy lies in, by its number.
    pub pool: u32,
    /// Where the copy lies.
    pub segments: Segments,
    /// The day from which on it is no longer kept; none where it is kept without a limit.
    pub until: Option<u32>,
}

/// The fields one after the other.
#[tactic(auto, unfolding(crate::specs::ItemForms::new_held_object))]
impl Formed for NewHeldObject {
    ghost form = { new_held_object };

    fn write_to(&self, out: &mut Vec<u8>) -> Result<(), Memory> {
        self.path.write_to(out)?;
        self.description.write_to(out)?;
        self.size.write_to(out)?;
        put_u64(out, self.mtime)?;
        self.digest.write_to(out)?;
        put_u64(out, self.object)?;
        put_u32(out, self.pool)?;
        self.segments.write_to(out)?;
        self.until.write_to(out)?;
        Ok(())
    }

    fn read_from(alloc: Global, reader: &mut Reader<'_>) -> Result<Self, Fault> {
        let path = Path::read_from(alloc, reader)?;
        let description = Text::read_from(alloc, reader)?;
        let size = ObjectSize::read_from(alloc, reader)?;
        let mtime = reader.u64()?;
        let digest = Digest::read_from(alloc, reader)?;
        let object = reader.u64()?;
        let pool = reader.u32()?;
        let segments = Segments::read_from(alloc, reader)?;
        let until = <Option<u32>>::read_from(alloc, reader)?;
        Ok(NewHeldObject {
            path,
            description,
            size,
            mtime,
            digest,
            object,
            pool,
            segments,
            until,
        })
    }

    ghost is_form = { new_held_object_form };
}

#[tactic(auto, unfolding(crate::specs::ItemForms::new_held_object))]
impl Fitting for NewHeldObject {
    fn fits(&self) {
        self.path.fits();
        self.description.fits();
        self.size.fits();
        self.mtime.fits();
        self.digest.fits();
        self.object.fits();
        self.pool.fits();
        self.segments.fits();
        self.until.fits();
    }
}

/// A path that is bound to another management class.
#[derive(Drop)]
pub struct Rebinding {
    /// The path of the client file.
    pub path: Path,
    /// The management class that it is bound to.
    pub class: Name,
}

/// The path, and the class.
#[tactic(auto, unfolding(crate::specs::ItemForms::rebinding))]
impl Formed for Rebinding {
    ghost form = { rebinding };

    fn write_to(&self, out: &mut Vec<u8>) -> Result<(), Memory> {
        self.path.write_to(out)?;
        self.class.write_to(out)?;
        Ok(())
    }

    fn read_from(alloc: Global, reader: &mut Reader<'_>) -> Result<Self, Fault> {
        let path = Path::read_from(alloc, reader)?;
        let class = Name::read_from(alloc, reader)?;
        Ok(Rebinding { path, class })
    }

    ghost is_form = { rebinding_form };
}

#[tactic(auto, unfolding(crate::specs::ItemForms::rebinding))]
impl Fitting for Rebinding {
    fn fits(&self) {
        self.path.fits();
        self.class.fits();
    }
}

/// A version, by its path and its object number.
#[derive(Drop)]
pub struct NamedVersion {
    /// The path of the client file.
    pub path: Path,
    /// The object number.
    pub object: u64,
}

/// The path, and the object number in eight bytes.
#[tactic(auto, unfolding(crate::specs::ItemForms::named_version))]
impl Formed for NamedVersion {
    ghost form = { named_version };

    fn write_to(&self, out: &mut Vec<u8>) -> Result<(), Memory> {
        self.path.write_to(out)?;
        put_u64(out, self.object)?;
        Ok(())
    }

    fn read_from(alloc: Global, reader: &mut Reader<'_>) -> Result<Self, Fault> {
        let path = Path::read_from(alloc, reader)?;
        let object = reader.u64()?;
        Ok(NamedVersion { path, object })
    }

    ghost is_form = { named_version_form };
}

#[tactic(auto, unfolding(crate::specs::ItemForms::named_version))]
impl Fitting for NamedVersion {
    fn fits(&self) {
        self.path.fits();
        self.object.fits();
    }
}

/// A copy that moves.
#[derive(Drop)]
pub struct MovedCopy {
    /// Its object number.
    pub object: u64,
    /// The storage pool that it leaves, by its number.
    pub from: u32,
    /// The transaction that placed the copy that it had there.
    pub placed: u64,
    /// The storage pool that it moves to, by its number.
    pub pool: u32,
    /// Where it lies then.
    pub segments: Segments,
}

/// The fields one after the other.
#[tactic(auto, unfolding(crate::specs::ItemForms::moved_copy))]
impl<E: InEdition> Decoder<MovedCopy> for By<E> {
    ghost form = { moved_copy E.edition };

    fn take(alloc: Global, reader: &mut Reader<'_>) -> Result<MovedCopy, Fault> {
        let object = reader.u64()?;
        let from = reader.u32()?;
        let placed = reader.u64()?;
        let pool = reader.u32()?;
        let segments: Segments = By::<E>::take(alloc, reader)?;
        Ok(MovedCopy {
            object,
            from,
            placed,
            pool,
            segments,
        })
    }

    ghost is_form = { moved_copy_form E.edition };
}

#[tactic(auto, unfolding(crate::specs::ItemForms::moved_copy))]
impl Formed for MovedCopy {
    ghost form = { moved_copy second_form };

    fn write_to(&self, out: &mut Vec<u8>) -> Result<(), Memory> {
        put_u64(out, self.object)?;
        put_u32(out, self.from)?;
        put_u64(out, self.placed)?;
        put_placed(out, self.pool, &self.segments)?;
        Ok(())
    }

    fn read_from(alloc: Global, reader: &mut Reader<'_>) -> Result<Self, Fault> {
        By::<Second>::take(alloc, reader)
    }

    ghost is_form = { moved_copy_form second_form };
}

#[tactic(auto, unfolding(crate::specs::ItemForms::moved_copy))]
impl Fitting for MovedCopy {
    fn fits(&self) {
        self.object.fits();
        self.from.fits();
        self.placed.fits();
        self.pool.fits();
        self.segments.fits();
    }
}

/// A copy that is made beside others of its object.
#[derive(Drop)]
pub struct NewCopy {
    /// Its object number.
    pub object: u64,
    /// The storage pool that it lies in, by its number.
    pub pool: u32,
    /// Where it lies.
    pub segments: Segments,
}

/// The fields one after the other.
#[tactic(auto, unfolding(crate::specs::ItemForms::new_copy))]
impl<E: InEdition> Decoder<NewCopy> for By<E> {
    ghost form = { new_copy E.edition };

    fn take(alloc: Global, reader: &mut Reader<'_>) -> Result<NewCopy, Fault> {
        let object = reader.u64()?;
        let pool = reader.u32()?;
        let segments: Segments = By::<E>::take(alloc, reader)?;
        Ok(NewCopy {
            object,
            pool,
            segments,
        })
    }

    ghost is_form = { new_copy_form E.edition };
}

#[tactic(auto, unfolding(crate::specs::ItemForms::new_copy))]
impl Formed for NewCopy {
    ghost form = { new_copy second_form };

    fn write_to(&self, out: &mut Vec<u8>) -> Result<(), Memory> {
        put_u64(out, self.object)?;
        put_placed(out, self.pool, &self.segments)?;
        Ok(())
    }

    fn read_from(alloc: Global, reader: &mut Reader<'_>) -> Result<Self, Fault> {
        By::<Second>::take(alloc, reader)
    }

    ghost is_form = { new_copy_form second_form };
}

#[tactic(auto, unfolding(crate::specs::ItemForms::new_copy))]
impl Fitting for NewCopy {
    fn fits(&self) {
        self.object.fits();
        self.pool.fits();
        self.segments.fits();
    }
}

/// A copy that goes, while another copy of its object stays.
#[derive(Drop)]
pub struct DroppedCopy {
    /// Its object number.
    pub object: u64,
    /// The storage pool that it lies in, by its number.
    pub pool: u32,
    /// The transaction that placed it.
    pub placed: u64,
    /// The digest that was found; the kept one where the bytes were not read.
    pub found: Digest,
}

/// The fields one after the other.
#[tactic(auto, unfolding(crate::specs::ItemForms::dropped_copy))]
impl Formed for DroppedCopy {
    ghost form = { dropped_copy };

    fn write_to(&self, out: &mut Vec<u8>) -> Result<(), Memory> {
        put_u64(out, self.object)?;
        put_u32(out, self.pool)?;
        put_u64(out, self.placed)?;
        self.found.write_to(out)?;
        Ok(())
    }

    fn read_from(alloc: Global, reader: &mut Reader<'_>) -> Result<Self, Fault> {
        let object = reader.u64()?;
        let pool = reader.u32()?;
        let placed = reader.u64()?;
        let found = Digest::read_from(alloc, reader)?;
        Ok(DroppedCopy {
            object,
            pool,
            placed,
            found,
        })
    }

    ghost is_form = { dropped_copy_form };
}

#[tactic(auto, unfolding(crate::specs::ItemForms::dropped_copy))]
impl Fitting for DroppedCopy {
    fn fits(&self) {
        self.object.fits();
        self.pool.fits();
        self.placed.fits();
        self.found.fits();
    }
}

/// A version that goes with its copies.
#[derive(Drop)]
pub struct DiscardedVersion {
    /// Its object number.
    pub object: u64,
    /// The digest that was found; the kept one where the bytes were not read.
    pub found: Digest,
}

/// The object number in eight bytes, and the digest.
#[tactic(auto, unfolding(crate::specs::ItemForms::discarded_version))]
impl Formed for DiscardedVersion {
    ghost form = { discarded_version };

    fn write_to(&self, out: &mut Vec<u8>) -> Result<(), Memory> {
        put_u64(out, self.object)?;
        self.found.write_to(out)?;
        Ok(())
    }

    fn read_from(alloc: Global, reader: &mut Reader<'_>) -> Result<Self, Fault> {
        let object = reader.u64()?;
        let found = Digest::read_from(alloc, reader)?;
        Ok(DiscardedVersion { object, found })
    }

    ghost is_form = { discarded_version_form };
}

#[tactic(auto, unfolding(crate::specs::ItemForms::discarded_version))]
impl Fitting for DiscardedVersion {
    fn fits(&self) {
        self.object.fits();
        self.found.fits();
    }
}
