//! Changes of one row of the volumes or pools, in its place.

ghost use Rattle.std.specs.Prelude.{◌≡◌, ◌≤◌, OnOk};
ghost use Rattle.std.specs.Option.{ForSome};
ghost use Rattle.volume_rows.specs.kinds.Answers.{Becomes, Makes};
ghost use Rattle.volume_rows.specs.Held.{end_of};
ghost use Rattle.volume_rows.specs.Volumes.{undo_on, reset};
ghost use Rattle.pool_tables.specs.Rows.{row_at, edit_row, change_row};
ghost use Rattle.pool_tables.specs.RowChanges.{put, take, end_of_row, emptied_of_row, with_access, with_settings};

use crate::pool::Pool;
use std::collections::BTreeMap;
use volume_rows::kinds::{Access, Day, PoolSettings, Refusal};
use volume_rows::{HeldSegment, Volume};

/// Puts a segment on the volume with this file number.
pub fn put_at(
    volumes: &mut BTreeMap<u32, Volume>,
    file: u32,
    sequential: bool,
    segment: HeldSegment,
) -> Result<(), Refusal>
    requires { ForSome (row_at file volumes.old.entries) (λ v. end_of segment ≤ v.capacity) }
    ensures put { Becomes result volumes.old.entries volumes.new.entries (change_row file (put sequential segment) volumes.old.entries) }
    ensures undone { OnOk result (edit_row file (undo_on sequential segment (end_of_row (row_at file volumes.old.entries)) (emptied_of_row (row_at file volumes.old.entries))) volumes.new.entries ≡ volumes.old.entries) }
{
    match volumes.get_mut(&file) {
        Some(volume) => volume.put_segment(sequential, segment),
        None => Err(Refusal::NotFound),
    }
}

/// Takes a segment from the volume with this file number.
pub fn take_at(
    volumes: &mut BTreeMap<u32, Volume>,
    file: u32,
    sequential: bool,
    segment: &HeldSegment,
    today: Day,
) -> Result<(), Refusal>
    ensures { Makes result volumes.old.entries volumes.new.entries (change_row file (take sequential segment.now today) volumes.old.entries) }
{
    match volumes.get_mut(&file) {
        Some(volume) => volume.take_segment(sequential, segment, today),
        None => Err(Refusal::NotFound),
    }
}

/// Undoes a segment on the volume with this file number.
pub fn undo_at(
    volumes: &mut BTreeMap<u32, Volume>,
    file: u32,
    sequential: bool,
    segment: &HeldSegment,
    end: u64,
    emptied: Option<Day>,
)
    ensures { volumes.new.entries ≡ edit_row file (undo_on sequential segment.now end emptied) volumes.old.entries }
{
    if let Some(volume) = volumes.get_mut(&file) {
        volume.undo_segment(sequential, segment, end, emptied);
    }
}

/// The volume with this file number is written from its beginning again.
pub fn reset_at(volumes: &mut BTreeMap<u32, Volume>, file: u32)
    ensures { volumes.new.entries ≡ edit_row file reset volumes.old.entries }
{
    if let Some(volume) = volumes.get_mut(&file) {
        volume.reset();
    }
}

fn write_access(volume: &mut Volume, access: Access)
    ensures { volume.new ≡ with_access access volume.old }
{
    volume.access = access;
}

/// Sets the access of the volume with this file number.
pub fn set_access(volumes: &mut BTreeMap<u32, Volume>, file: u32, access: Access)
    ensures { volumes.new.entries ≡ edit_row file (with_access access) volumes.old.entries }
{
    if let Some(volume) = volumes.get_mut(&file) {
        write_access(volume, access);
    }
}

fn write_settings(pool: &mut Pool, settings: PoolSettings)
    ensures { pool.new ≡ with_settings settings pool.old }
{
    pool.settings = settings;
}

/// Sets the settings of the pool with this number.
pub fn set_settings(pools: &mut BTreeMap<u32, Pool>, number: u32, settings: PoolSettings)
    ensures { pools.new.entries ≡ edit_row number (with_settings settings) pools.old.entries }
{
    if let Some(pool) = pools.get_mut(&number) {
        write_settings(pool, settings);
    }
}
