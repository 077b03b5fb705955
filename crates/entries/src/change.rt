//! The changes that transactions make.
ghost use Rattle.std.specs.Prelude.{◌≡◌, ◌++◌, ◌∷◌, OnOk};
ghost use Rattle.fields.specs.Gives.{Gives};
ghost use Rattle.fields.specs.Forms.{variant, choose, nothing};
ghost use Rattle.fields.specs.Editions.{second_form, is_second};
ghost use Rattle.change_items.specs.BatchForms.{new_held_objects};
ghost use Rattle.entries.specs.ChangeForm.{change, change_body, change_form, data_body, database_body, begin_fields, db_begin_with, db_begin_of, hold_with, hold_of, is_policy, is_object, is_pool, is_data};

use crate::nodes::{object_fits, put_object, read_object};
use crate::policy::{policy_fits, put_policy, read_policy};
use crate::pools::{pool_fits, put_pool, read_pool};
use change_items::{
    DiscardedVersions, DroppedCopies, MovedCopies, NamedVersions, NewCopies, NewHeldObjects,
    NewVersions, Rebindings, put_tagged,
};
use fields::{
    By, Decoder, Fault, Formed, InEdition, Memory, Reader, Second, put_u8, put_u32, take_added,
};
use kinds::{Day, Fitting, ObjectChange, PolicyChange, PoolChange};
use std::alloc::Global;

/// One change of the server's database.
#[derive(Drop)]
pub enum Change {
    /// A new day.
    Day { day: Day },
    /// A change of the policy domains.
    Policy(PolicyChange),
    /// A change of the client nodes and their filespaces.
    Object(ObjectChange),
    /// A change of the device classes, storage pools and volumes.
    Pool(PoolChange),
    /// Versions that a client sent become the active ones of their paths.
    Backup(NewVersions),
    /// Paths are bound to other management classes.
    Rebind(Rebindings),
    /// The active versions of files that are gone become inactive.
    Gone(NamedVersions),
    /// Copies move.
    Move(MovedCopies),
    /// Copies are made beside others.
    Copy(NewCopies),
    /// Copies go, while others stay.
    DropCopies(DroppedCopies),
    /// Versions that are not retained go.
    Expire(NamedVersions),
    /// Versions go with their copies.
    Discard(DiscardedVersions),
    /// A volume without copies, by its file number, may be written from its start again.
    Reuse { file: u32 },
    /// A database backup into the file with this number begins. Where it has only what came after another, that one is named by its file.
    DbBegin { file: u32, after: Option<u32> },
    /// The database backup in the file with this number is whole.
    DbEnd { file: u32 },
    /// The database backup in the file with this number is taken off the list.
    DbDelete { file: u32 },
    /// Objects that a client archived are kept.
    Hold(NewHeldObjects),
}

fn is_policy(tag: u8) -> bool
    ensures { result ≡ is_policy tag }
{
    (2 <= tag && tag <= 7) || tag == 26
}

fn is_object(tag: u8) -> bool
    ensures { result ≡ is_object tag }
{
    tag == 8 || tag == 24
}

fn is_pool(tag: u8) -> bool
    ensures { result ≡ is_pool tag }
{
    9 <= tag && tag <= 11
}

fn is_data(tag: u8) -> bool
    ensures { result ≡ is_data tag }
{
    (12 <= tag && tag <= 20) || tag == 25
}

/// Puts the beginning of a database backup, its tag in front.
fn put_begin(out: &mut Vec<u8>, file: u32, after: &Option<u32>) -> Result<(), Memory>
    requires { (begin_fields second_form).Fits (file, after.now) }
    ensures { OnOk result (out.new.items ≡ out.old.items ++ 21 ∷ (begin_fields second_form).spell (file, after.now)) }
{
    put_u8(out, 21)?;
    put_u32(out, file)?;
    after.write_to(out)?;
    Ok(())
}

fn read_hold<E: InEdition>(alloc: Global, reader: &mut Reader<'_>) -> Result<Change, Fault>
    ensures { Gives result reader.new.rest ((choose (is_second E.edition) (variant hold_with hold_of new_held_objects) nothing).read reader.old.rest) }
{
    if E::is_second() {
        Ok(Change::Hold(NewHeldObjects::read_from(alloc, reader)?))
    } else {
        Err(Fault::Malformed)
    }
}

#[tactic(auto, unfolding(crate::specs::ChangeForm::data_body))]
fn read_data<E: InEdition>(alloc: Global, tag: u8, reader: &mut Reader<'_>) -> Result<Change, Fault>
    ensures { Gives result reader.new.rest ((data_body E.edition tag).read reader.old.rest) }
{
    match tag {
        12 => Ok(Change::Backup(By::<E>::take(alloc, reader)?)),
        13 => Ok(Change::Rebind(Rebindings::read_from(alloc, reader)?)),
        14 => Ok(Change::Gone(NamedVersions::read_from(alloc, reader)?)),
        15 => Ok(Change::Move(By::<E>::take(alloc, reader)?)),
        16 => Ok(Change::Copy(By::<E>::take(alloc, reader)?)),
        17 => Ok(Change::DropCopies(DroppedCopies::read_from(alloc, reader)?)),
        18 => Ok(Change::Expire(NamedVersions::read_from(alloc, reader)?)),
        19 => Ok(Change::Discard(DiscardedVersions::read_from(alloc, reader)?)),
        20 => Ok(Change::Reuse {
            file: reader.u32()?,
        }),
        25 => read_hold::<E>(alloc, reader),
        _ => Err(Fault::Malformed),
    }
}

fn read_begin<E: InEdition>(alloc: Global, reader: &mut Reader<'_>) -> Result<Change, Fault>
    ensures { Gives result reader.new.rest ((variant db_begin_with db_begin_of (begin_fields E.edition)).read reader.old.rest) }
{
    let file = reader.u32()?;
    let after = take_added::<E, Option<u32>>(alloc, reader, None)?;
    Ok(Change::DbBegin { file, after })
}

#[tactic(auto, unfolding(crate::specs::ChangeForm::database_body))]
fn read_database<E: InEdition>(
    alloc: Global,
    tag: u8,
    reader: &mut Reader<'_>,
) -> Result<Change, Fault>
    ensures { Gives result reader.new.rest ((database_body E.edition tag).read reader.old.rest) }
{
    match tag {
        21 => read_begin::<E>(alloc, reader),
        22 => Ok(Change::DbEnd {
            file: reader.u32()?,
        }),
        23 => Ok(Change::DbDelete {
            file: reader.u32()?,
        }),
        _ => Err(Fault::Malformed),
    }
}

#[tactic(auto, unfolding(crate::specs::ChangeForm::change_body))]
fn read_body<E: InEdition>(alloc: Global, tag: u8, reader: &mut Reader<'_>) -> Result<Change, Fault>
    ensures { Gives result reader.new.rest ((change_body E.edition tag).read reader.old.rest) }
{
    if tag == 1 {
        let day = Day::read_from(alloc, reader)?;
        return Ok(Change::Day { day });
    }
    if is_policy(tag) {
        return Ok(Change::Policy(read_policy::<E>(alloc, tag, reader)?));
    }
    if is_object(tag) {
        return Ok(Change::Object(read_object(alloc, tag, reader)?));
    }
    if is_pool(tag) {
        return Ok(Change::Pool(read_pool::<E>(alloc, tag, reader)?));
    }
    if is_data(tag) {
        return read_data::<E>(alloc, tag, reader);
    }
    read_database::<E>(alloc, tag, reader)
}

/// The tag in one byte, and what stands under it.
#[tactic(auto, unfolding(crate::specs::ChangeForm::change))]
impl<E: InEdition> Decoder<Change> for By<E> {
    ghost form = { change E.edition };

    fn take(alloc: Global, reader: &mut Reader<'_>) -> Result<Change, Fault> {
        let tag = reader.u8()?;
        read_body::<E>(alloc, tag, reader)
    }

    ghost is_form = { change_form E.edition };
}

impl Formed for Change {
    ghost form = { change second_form };

    #[tactic(auto, unfolding(crate::specs::ChangeForm::change, crate::specs::ChangeForm::change_body, crate::specs::ChangeForm::data_body, crate::specs::ChangeForm::database_body))]
    fn write_to(&self, out: &mut Vec<u8>) -> Result<(), Memory> {
        match self {
            Change::Day { day } => put_tagged(out, 1, day),
            Change::Policy(policy) => put_policy(out, policy),
            Change::Object(object) => put_object(out, object),
            Change::Pool(pool) => put_pool(out, pool),
            Change::Backup(versions) => put_tagged(out, 12, versions),
            Change::Rebind(paths) => put_tagged(out, 13, paths),
            Change::Gone(versions) => put_tagged(out, 14, versions),
            Change::Move(copies) => put_tagged(out, 15, copies),
            Change::Copy(copies) => put_tagged(out, 16, copies),
            Change::DropCopies(copies) => put_tagged(out, 17, copies),
            Change::Expire(versions) => put_tagged(out, 18, versions),
            Change::Discard(versions) => put_tagged(out, 19, versions),
            Change::Reuse { file } => put_tagged(out, 20, file),
            Change::DbBegin { file, after } => put_begin(out, *file, after),
            Change::DbEnd { file } => put_tagged(out, 22, file),
            Change::DbDelete { file } => put_tagged(out, 23, file),
            Change::Hold(objects) => put_tagged(out, 25, objects),
        }
    }

    fn read_from(alloc: Global, reader: &mut Reader<'_>) -> Result<Self, Fault> {
        By::<Second>::take(alloc, reader)
    }

    ghost is_form = { change_form second_form };
}

impl Fitting for Change {
    #[tactic(auto, unfolding(crate::specs::ChangeForm::change, crate::specs::ChangeForm::change_body, crate::specs::ChangeForm::data_body, crate::specs::ChangeForm::database_body))]
    fn fits(&self) {
        match self {
            Change::Day { day } => day.fits(),
            Change::Policy(policy) => policy_fits(policy),
            Change::Object(object) => object_fits(object),
            Change::Pool(pool) => pool_fits(pool),
            Change::Backup(versions) => versions.fits(),
            Change::Rebind(paths) => paths.fits(),
            Change::Gone(versions) => versions.fits(),
            Change::Move(copies) => copies.fits(),
            Change::Copy(copies) => copies.fits(),
            Change::DropCopies(copies) => copies.fits(),
            Change::Expire(versions) => versions.fits(),
            Change::Discard(versions) => versions.fits(),
            Change::Reuse { file } => file.fits(),
            Change::DbBegin { file, after } => {
                file.fits();
                after.fits();
            }
            Change::DbEnd { file } => file.fits(),
            Change::DbDelete { file } => file.fits(),
            Change::Hold(objects) => objects.fits(),
        }
    }
}
