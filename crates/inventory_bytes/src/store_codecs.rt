//! Device classes, storage pools and listed backups.
ghost use Rattle.fields.specs.Editions.{second_form};
ghost use Rattle.inventory_bytes.specs.StoreForms.{class_row, class_row_form, pool_row, pool_row_form, backup_row, backup_row_form};

use fields::{
    By, Codec, Decoder, Fault, Formed, InEdition, Memory, Own, Reader, Second, put_table, put_u64,
    take_added, take_table,
};
use inventory_rows::pool_tables::Pool;
use inventory_rows::{Backup, Delays};
use kinds::{Capacity, Day, Days, Name, PoolKind, PoolSettings};
use std::alloc::Global;
use std::marker::PhantomData;

/// A device class: how many bytes its volumes have, or 0 for DISK.
pub struct ClassRow;

#[tactic(auto, unfolding(crate::specs::StoreForms::class_row))]
impl Decoder<Option<Capacity>> for ClassRow {
    ghost form = { class_row };

    fn take(_alloc: Global, reader: &mut Reader<'_>) -> Result<Option<Capacity>, Fault> {
        let bytes = reader.u64()?;
        if bytes == 0 {
            return Ok(None);
        }
        match Capacity::new(bytes) {
            Some(capacity) => Ok(Some(capacity)),
            None => Err(Fault::Malformed),
        }
    }

    ghost is_form = { class_row_form };
}

#[tactic(auto, unfolding(crate::specs::StoreForms::class_row))]
impl Codec<Option<Capacity>> for ClassRow {
    fn put(out: &mut Vec<u8>, value: &Option<Capacity>) -> Result<(), Memory> {
        match value {
            None => put_u64(out, 0),
            Some(capacity) => put_u64(out, capacity.bytes()),
        }
    }
}

/// A storage pool: its name, that of its device class, its kind, and its settings.
pub struct PoolRow<E> {
    edition: PhantomData<E>,
}

#[tactic(auto, unfolding(crate::specs::StoreForms::pool_row))]
impl<E: InEdition> Decoder<Pool> for PoolRow<E> {
    ghost form = { pool_row E.edition };

    fn take(alloc: Global, reader: &mut Reader<'_>) -> Result<Pool, Fault> {
        let name = Name::read_from(alloc, reader)?;
        let class = Name::read_from(alloc, reader)?;
        let kind = PoolKind::read_from(alloc, reader)?;
        let settings: PoolSettings = By::<E>::take(alloc, reader)?;
        Ok(Pool {
            name,
            class,
            kind,
            settings,
        })
    }

    ghost is_form = { pool_row_form E.edition };
}

#[tactic(auto, unfolding(crate::specs::StoreForms::pool_row))]
impl Codec<Pool> for PoolRow<Second> {
    fn put(out: &mut Vec<u8>, value: &Pool) -> Result<(), Memory> {
        value.name.write_to(out)?;
        value.class.write_to(out)?;
        value.kind.write_to(out)?;
        value.settings.write_to(out)?;
        Ok(())
    }
}

/// A listed backup: the day on which it was taken, its number, whether it is whole, the backup that it follows, which the second form adds, and its
/// least delays by pool.
pub struct BackupRow<E> {
    edition: PhantomData<E>,
}

#[tactic(auto, unfolding(crate::specs::StoreForms::backup_row))]
impl<E: InEdition> Decoder<Backup> for BackupRow<E> {
    ghost form = { backup_row E.edition };

    fn take(alloc: Global, reader: &mut Reader<'_>) -> Result<Backup, Fault> {
        let taken = Day::read_from(alloc, reader)?;
        let number = reader.u64()?;
        let is_done = bool::read_from(alloc, reader)?;
        let after = take_added::<E, Option<u32>>(alloc, reader, None)?;
        let delays = take_table::<u32, Days, Own>(alloc, reader, u32::MAX)?;
        Ok(Backup {
            taken,
            number,
            is_done,
            after,
            delays: Delays::from_map(delays),
        })
    }

    ghost is_form = { backup_row_form E.edition };
}

#[tactic(auto, unfolding(crate::specs::StoreForms::backup_row))]
impl Codec<Backup> for BackupRow<Second> {
    fn put(out: &mut Vec<u8>, value: &Backup) -> Result<(), Memory> {
        value.taken.write_to(out)?;
        put_u64(out, value.number)?;
        value.is_done.write_to(out)?;
        value.after.write_to(out)?;
        put_table::<u32, Days, Own>(out, value.delays.as_map())?;
        Ok(())
    }
}
