//! Device classes, storage pools, volumes and listed backups.
ghost use Rattle.std.specs.Prelude.{◌<◌, ◌^◌, ⊤, length};
ghost use Rattle.fields.specs.Editions.{second_form};
ghost use Rattle.inventory_bytes.specs.StoreForms.{class_row, pool_row, volume_row, backup_row};
ghost use Rattle.inventory_bytes.specs.Payload.{unheld_volume};

use crate::row_fits::{FittingRow, table_fits};
use crate::store_codecs::{BackupRow, ClassRow, PoolRow};
use crate::volume_codecs::VolumeRow;
use fields::{Own, Second};
use inventory_rows::Backup;
use inventory_rows::pool_tables::Pool;
use inventory_rows::volume_rows::Volume;
use kinds::{Capacity, Days, Fitting};

#[tactic(auto, unfolding(crate::specs::StoreForms::class_row))]
impl FittingRow<Option<Capacity>> for ClassRow {
    ghost within = { λ _. ⊤ };

    ghost spelled = { class_row.Fits };

    fn fits(value: &Option<Capacity>) {
        if let Some(capacity) = value {
            let _bytes = capacity.bytes();
        }
    }
}

#[tactic(auto, unfolding(crate::specs::StoreForms::pool_row))]
impl FittingRow<Pool> for PoolRow<Second> {
    ghost within = { λ _. ⊤ };

    ghost spelled = { (pool_row second_form).Fits };

    fn fits(value: &Pool) {
        value.name.fits();
        value.class.fits();
        value.kind.fits();
        value.settings.fits();
    }
}

/// A volume has a spelling without the segments on it.
#[tactic(auto, unfolding(crate::specs::StoreForms::volume_row))]
impl FittingRow<Volume> for VolumeRow {
    ghost within = { λ _. ⊤ };

    ghost spelled = { λ volume. volume_row.Fits (unheld_volume volume) };

    fn fits(value: &Volume) {
        value.name.fits();
        value.pool.fits();
        value.scratch.fits();
        value.capacity.fits();
        value.access.fits();
        value.end.fits();
        value.emptied.fits();
    }
}

#[tactic(auto, unfolding(crate::specs::StoreForms::backup_row))]
impl FittingRow<Backup> for BackupRow<Second> {
    ghost within = { λ backup. length backup.delays < 2 ^ 32 };

    ghost spelled = { (backup_row second_form).Fits };

    fn fits(value: &Backup) {
        value.taken.fits();
        value.number.fits();
        value.is_done.fits();
        value.after.fits();
        table_fits::<u32, Days, Own>(value.delays.as_map());
    }
}
