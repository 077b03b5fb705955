//! Versions of files, their copies, and the groups of paths.
ghost use Rattle.fields.specs.Editions.{second_form};
ghost use Rattle.std.specs.Prelude.{◌≡◌, ◌++◌, OnOk, Some, None, IsTrue, Vec, option_map};
ghost use Rattle.std.specs.Option.{option_copied};
ghost use Rattle.fields.specs.Forms.{items};
ghost use Rattle.fields.specs.Gives.{Gives};
ghost use Rattle.inventory_rows.specs.version_groups.Copies.{are_by_pool};
ghost use Rattle.inventory_bytes.specs.VersionForms.{copy_row, copy_row_form, copies, version_with, fields_since, dated_fields, dated, dated_form, as_spelled, as_meant, day_of, group_of, group_row, group_row_form};

use fields::{
    By, Codec, Decoder, Fault, Formed, InEdition, Memory, Reader, Second, put_each, put_list,
    put_u32, put_u64, take_list,
};
use inventory_rows::version_groups::{Copies, CopyRow, Group, Version, Versions};
use kinds::{Day, Digest, Name, ObjectSize, Segments};
use std::alloc::Global;
use std::marker::PhantomData;

/// A copy: its pool, the transaction that placed it, and its segments.
pub struct CopyBytes<E> {
    edition: PhantomData<E>,
}

#[tactic(auto, unfolding(crate::specs::VersionForms::copy_row))]
impl<E: InEdition> Decoder<CopyRow> for CopyBytes<E> {
    ghost form = { copy_row E.edition };

    fn take(alloc: Global, reader: &mut Reader<'_>) -> Result<CopyRow, Fault> {
        let pool = reader.u32()?;
        let placed = reader.u64()?;
        let segments: Segments = By::<E>::take(alloc, reader)?;
        Ok(CopyRow {
            pool,
            placed,
            segments,
        })
    }

    ghost is_form = { copy_row_form E.edition };
}

#[tactic(auto, unfolding(crate::specs::VersionForms::copy_row))]
impl Codec<CopyRow> for CopyBytes<Second> {
    fn put(out: &mut Vec<u8>, value: &CopyRow) -> Result<(), Memory> {
        put_u32(out, value.pool)?;
        put_u64(out, value.placed)?;
        value.segments.write_to(out)?;
        Ok(())
    }
}

/// Puts the copies of an object.
#[tactic(auto, unfolding(crate::specs::VersionForms::copies))]
pub(crate) fn put_copies(out: &mut Vec<u8>, value: &Copies) -> Result<(), Memory>
    requires { (copies second_form).Fits value.now }
    ensures { OnOk result (out.new.items ≡ out.old.items ++ (copies second_form).spell value.now) }
{
    put_list::<CopyRow, CopyBytes<Second>>(out, value.as_slice())
}

/// Takes the copies of an object, which stand in ascending order of their pools.
#[tactic(auto, unfolding(crate::specs::VersionForms::copies))]
pub(crate) fn take_copies<E: InEdition>(
    alloc: Global,
    reader: &mut Reader<'_>,
) -> Result<Copies, Fault>
    ensures { Gives result reader.new.rest ((copies E.edition).read reader.old.rest) }
{
    let taken = take_list::<CopyRow, CopyBytes<E>>(alloc, reader, u32::MAX)?;
    match Copies::from_vec(taken) {
        Some(by_pool) => Ok(by_pool),
        None => Err(Fault::Malformed),
    }
}

/// Puts a version as one that is inactive since a day.
#[tactic(auto, unfolding(crate::specs::VersionForms::dated_fields))]
fn put_dated(out: &mut Vec<u8>, value: &Version, since: Day) -> Result<(), Memory>
    requires { (dated_fields second_form).Fits (fields_since value.now since) }
    ensures { OnOk result (out.new.items ≡ out.old.items ++ (dated_fields second_form).spell (fields_since value.now since)) }
{
    put_u64(out, value.object)?;
    value.size.write_to(out)?;
    put_u64(out, value.mtime)?;
    value.digest.write_to(out)?;
    value.stored.write_to(out)?;
    since.write_to(out)?;
    put_copies(out, &value.copies)?;
    Ok(())
}

/// A version that is inactive since a day.
pub struct DatedVersion<E> {
    edition: PhantomData<E>,
}

impl<E: InEdition> Decoder<Version> for DatedVersion<E> {
    ghost form = { dated E.edition };

    #[tactic(auto, unfolding(crate::specs::VersionForms::dated, crate::specs::VersionForms::dated_fields))]
    fn take(alloc: Global, reader: &mut Reader<'_>) -> Result<Version, Fault> {
        let object = reader.u64()?;
        let size: ObjectSize = By::<E>::take(alloc, reader)?;
        let mtime = reader.u64()?;
        let digest = Digest::read_from(alloc, reader)?;
        let stored = Day::read_from(alloc, reader)?;
        let since = Day::read_from(alloc, reader)?;
        let copies = take_copies::<E>(alloc, reader)?;
        Ok(Version {
            object,
            size,
            mtime,
            digest,
            stored,
            since: Some(since),
            copies,
        })
    }

    ghost is_form = { dated_form E.edition };
}

impl Codec<Version> for DatedVersion<Second> {
    #[tactic(auto, unfolding(crate::specs::VersionForms::dated))]
    fn put(out: &mut Vec<u8>, value: &Version) -> Result<(), Memory> {
        match value.since {
            Some(since) => put_dated(out, value, since),
            None => Ok(()),
        }
    }
}

/// The first day, with which an active version is spelled.
fn first_day() -> Day
    ensures { result ≡ 0 }
{
    match Day::new(0) {
        Some(day) => day,
        None => unreachable!(),
    }
}

/// The day with which a version is spelled.
fn day_of(since: Option<Day>) -> Day
    ensures { result ≡ day_of since }
{
    match since {
        Some(day) => day,
        None => first_day(),
    }
}

/// Puts the newest version of a path, with the first day where it is active.
#[tactic(auto, unfolding(crate::specs::VersionForms::dated))]
fn put_newest(out: &mut Vec<u8>, newest: &Version) -> Result<(), Memory>
    requires { (dated second_form).Fits (record newest.now { since = Some (day_of newest.now.since) }) }
    ensures { OnOk result (out.new.items ≡ out.old.items ++ (dated second_form).spell (record newest.now { since = Some (day_of newest.now.since) })) }
{
    put_dated(out, newest, day_of(newest.since))
}

/// Puts the versions of a path, the newest first.
fn put_versions(out: &mut Vec<u8>, versions: &[Version]) -> Result<(), Memory>
    requires { (items 4294967295 (dated second_form)).Fits (as_spelled versions.now) }
    ensures { OnOk result (out.new.items ≡ out.old.items ++ (items 4294967295 (dated second_form)).spell (as_spelled versions.now)) }
{
    put_u32(out, versions.len() as u32)?;
    match versions {
        [] => Ok(()),
        [newest, older @ ..] => {
            put_newest(out, newest)?;
            put_each::<Version, DatedVersion<Second>>(out, older)?;
            Ok(())
        }
    }
}

/// The versions that are meant, with an active one or without one; none where there is no version.
fn as_meant(active: bool, spelled: Vec<Version>) -> Option<Vec<Version>>
    ensures { option_map (λ v. v.items) result ≡ as_meant active spelled.items }
{
    let mut versions = spelled;
    match versions.first_mut() {
        None => return None,
        Some(newest) => match newest.since {
            None => return None,
            Some(day) => {
                if active {
                    if day.number() != 0 {
                        return None;
                    }
                    newest.since = None;
                }
            }
        },
    }
    Some(versions)
}

/// The group of a path: its class, whether it has an active version, and its versions, the newest first.
pub struct GroupRow<E> {
    edition: PhantomData<E>,
}

#[tactic(auto, unfolding(crate::specs::VersionForms::group_row))]
impl<E: InEdition> Decoder<Group> for GroupRow<E> {
    ghost form = { group_row E.edition };

    fn take(alloc: Global, reader: &mut Reader<'_>) -> Result<Group, Fault> {
        let class = Name::read_from(alloc, reader)?;
        let active = bool::read_from(alloc, reader)?;
        let spelled = take_list::<Version, DatedVersion<E>>(alloc, reader, u32::MAX)?;
        match as_meant(active, spelled) {
            None => Err(Fault::Malformed),
            Some(meant) => match Versions::from_vec(meant) {
                None => Err(Fault::Malformed),
                Some(versions) => Ok(Group { class, versions }),
            },
        }
    }

    ghost is_form = { group_row_form E.edition };
}

#[tactic(auto, unfolding(crate::specs::VersionForms::group_row))]
impl Codec<Group> for GroupRow<Second> {
    fn put(out: &mut Vec<u8>, value: &Group) -> Result<(), Memory> {
        value.class.write_to(out)?;
        value.versions.has_active().write_to(out)?;
        put_versions(out, value.versions.as_slice())?;
        Ok(())
    }
}
