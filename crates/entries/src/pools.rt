//! Changes of device classes, storage pools and volumes.
ghost use Rattle.std.specs.Prelude.{◌≡◌, ◌++◌, OnOk};
ghost use Rattle.fields.specs.Forms.{variant};
ghost use Rattle.fields.specs.Gives.{Gives};
ghost use Rattle.fields.specs.Editions.{second_form};
ghost use Rattle.entries.specs.ChangeForm.{change};
ghost use Rattle.entries.specs.declared.change.Change.TheVariants.{Pool};
ghost use Rattle.entries.specs.PoolTags.{pool_body, described, located, device_with, device_of, device_fields, pool_with, pool_of, pool_fields, volume_with, volume_of, volume_fields};

use fields::{By, Decoder, Fault, Formed, InEdition, Memory, Reader, put_u8, put_u32};
use kinds::{
    Access, Capacity, DefineOrDelete, Fitting, Name, PoolChange, PoolKind, PoolSettings, Verb,
};
use std::alloc::Global;

fn put_described(
    out: &mut Vec<u8>,
    class: &Name,
    kind: &PoolKind,
    settings: &PoolSettings,
) -> Result<(), Memory>
    requires { (described second_form).Fits (class.now, (kind.now, settings.now)) }
    ensures { OnOk result (out.new.items ≡ out.old.items ++ (described second_form).spell (class.now, (kind.now, settings.now))) }
{
    class.write_to(out)?;
    kind.write_to(out)?;
    settings.write_to(out)?;
    Ok(())
}

fn put_located(
    out: &mut Vec<u8>,
    pool: u32,
    file: u32,
    capacity: &Capacity,
    access: &Access,
) -> Result<(), Memory>
    requires { located.Fits (pool, (file, (capacity.now, access.now))) }
    ensures { OnOk result (out.new.items ≡ out.old.items ++ located.spell (pool, (file, (capacity.now, access.now)))) }
{
    put_u32(out, pool)?;
    put_u32(out, file)?;
    capacity.write_to(out)?;
    access.write_to(out)?;
    Ok(())
}

/// Puts the spelling of the change at the end, its tag in front.
#[tactic(auto, unfolding(crate::specs::ChangeForm::change, crate::specs::ChangeForm::change_body, crate::specs::PoolTags::pool_body))]
pub fn put_pool(out: &mut Vec<u8>, pool: &PoolChange) -> Result<(), Memory>
    requires { (change second_form).Fits (Pool pool.now) }
    ensures { OnOk result (out.new.items ≡ out.old.items ++ (change second_form).spell (Pool pool.now)) }
{
    match pool {
        PoolChange::DevClass {
            verb,
            class,
            capacity,
        } => {
            put_u8(out, 9)?;
            verb.write_to(out)?;
            class.write_to(out)?;
            capacity.write_to(out)?;
            Ok(())
        }
        PoolChange::Pool {
            verb,
            pool,
            class,
            kind,
            settings,
        } => {
            put_u8(out, 10)?;
            verb.write_to(out)?;
            pool.write_to(out)?;
            put_described(out, class, kind, settings)?;
            Ok(())
        }
        PoolChange::Volume {
            verb,
            volume,
            pool,
            file,
            capacity,
            access,
        } => {
            put_u8(out, 11)?;
            verb.write_to(out)?;
            volume.write_to(out)?;
            put_located(out, *pool, *file, capacity, access)?;
            Ok(())
        }
    }
}

/// Nothing is done; the caller learns that the change has a spelling.
#[tactic(auto, unfolding(crate::specs::ChangeForm::change, crate::specs::ChangeForm::change_body, crate::specs::PoolTags::pool_body))]
pub fn pool_fits(pool: &PoolChange)
    ensures { (change second_form).Fits (Pool pool.now) }
{
    match pool {
        PoolChange::DevClass {
            verb: _,
            class,
            capacity,
        } => {
            class.fits();
            capacity.fits();
        }
        PoolChange::Pool {
            verb: _,
            pool,
            class,
            kind: _,
            settings,
        } => {
            pool.fits();
            class.fits();
            settings.fits();
        }
        PoolChange::Volume {
            verb: _,
            volume,
            pool,
            file,
            capacity,
            access: _,
        } => {
            volume.fits();
            pool.fits();
            file.fits();
            capacity.fits();
        }
    }
}

fn read_device(alloc: Global, reader: &mut Reader<'_>) -> Result<PoolChange, Fault>
    ensures { Gives result reader.new.rest ((variant device_with device_of device_fields).read reader.old.rest) }
{
    let verb = DefineOrDelete::read_from(alloc, reader)?;
    let class = Name::read_from(alloc, reader)?;
    let capacity = Capacity::read_from(alloc, reader)?;
    Ok(PoolChange::DevClass {
        verb,
        class,
        capacity,
    })
}

fn read_defined<E: InEdition>(alloc: Global, reader: &mut Reader<'_>) -> Result<PoolChange, Fault>
    ensures { Gives result reader.new.rest ((variant pool_with pool_of (pool_fields E.edition)).read reader.old.rest) }
{
    let verb = Verb::read_from(alloc, reader)?;
    let pool = Name::read_from(alloc, reader)?;
    let class = Name::read_from(alloc, reader)?;
    let kind = PoolKind::read_from(alloc, reader)?;
    let settings: PoolSettings = By::<E>::take(alloc, reader)?;
    Ok(PoolChange::Pool {
        verb,
        pool,
        class,
        kind,
        settings,
    })
}

fn read_volume(alloc: Global, reader: &mut Reader<'_>) -> Result<PoolChange, Fault>
    ensures { Gives result reader.new.rest ((variant volume_with volume_of volume_fields).read reader.old.rest) }
{
    let verb = Verb::read_from(alloc, reader)?;
    let volume = Name::read_from(alloc, reader)?;
    let pool = reader.u32()?;
    let file = reader.u32()?;
    let capacity = Capacity::read_from(alloc, reader)?;
    let access = Access::read_from(alloc, reader)?;
    Ok(PoolChange::Volume {
        verb,
        volume,
        pool,
        file,
        capacity,
        access,
    })
}

/// Takes what follows the tag of a change of device classes, pools and volumes: 9 to 11. After an `Err` the reader stands anywhere.
#[tactic(auto, unfolding(crate::specs::PoolTags::pool_body))]
pub fn read_pool<E: InEdition>(
    alloc: Global,
    tag: u8,
    reader: &mut Reader<'_>,
) -> Result<PoolChange, Fault>
    ensures { Gives result reader.new.rest ((pool_body E.edition tag).read reader.old.rest) }
{
    match tag {
        9 => read_device(alloc, reader),
        10 => read_defined::<E>(alloc, reader),
        11 => read_volume(alloc, reader),
        _ => Err(Fault::Malformed),
    }
}
