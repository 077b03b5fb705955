//! The volumes by file number, with what is kept beside them: an index of their names, and each pool's totals.

ghost use Rattle.std.specs.Prelude.{◌≡◌, ◌<◌, ◌≤◌, ◌^◌, ℕ, true, [], IsSome, Some, None, if◌then◌else◌, Ok, OnOk, IfErr};
ghost use Rattle.std.specs.Option.{option_copied, ForSome};
ghost use Rattle.volume_rows.specs.kinds.declared.refusal.Refusal.TheVariants.{Memory};
ghost use Rattle.volume_rows.specs.kinds.Answers.{AnswersBy, Becomes, Makes};
ghost use Rattle.volume_rows.specs.Held.{end_of};
ghost use Rattle.volume_rows.specs.Volumes.{undo_on};
ghost use Rattle.pool_tables.specs.Rows.{row_at, with_row, without_row, edit_row, change_row};
ghost use Rattle.pool_tables.specs.Names.{row_named};
ghost use Rattle.pool_tables.specs.Scratch.{volume_name, is_rightly_named};
ghost use Rattle.pool_tables.specs.Counted.{totals_at, totals_of_row, totals_of, moved, are_sound, AreWithin, AreAtMost};
ghost use Rattle.pool_tables.specs.RowChanges.{put, take, end_of_row, emptied_of_row, is_scratch_row, reuse_volume, scratch_volume, with_access};

use crate::on_rows;
use crate::scratch::{is_rightly_named, scratch_volume};
use crate::totals::Totals;
use std::alloc::{AllocError, Global};
use std::collections::BTreeMap;
use std::marker::Model;
use volume_rows::kinds::{Access, Capacity, Day, Name, Refusal};
use volume_rows::{HeldSegment, Volume};

/// Volumes by file number. Contracts see the list of their rows in ascending order of the numbers.
#[derive(Drop)]
pub struct VolumeTable {
    rows: BTreeMap<u32, Volume>,
    names: BTreeMap<Name, u32>,
    totals: BTreeMap<u32, Totals>,
}

impl Model for VolumeTable {
    ghost use Rattle.std.specs.Prelude.{List, ℕ};
    ghost use Rattle.volume_rows.specs.declared.volume.Volume.{Volume};

    ghost Value = { List (ℕ × Volume) };

    ghost view = { λ t. t.rows.entries };

    ghost use Rattle.pool_tables.specs.Counted.{AreCounted};

    ghost invariant = { λ t. AreCounted t.names.entries t.totals.entries t.rows.entries };
}

/// The totals that are kept for the pool.
fn totals_at(totals: &BTreeMap<u32, Totals>, pool: u32) -> Totals
    ensures { result ≡ totals_at pool totals.now.entries }
{
    match totals.get(&pool) {
        Some(there) => *there,
        None => Totals::none(),
    }
}

/// Makes room for a pool's totals, so that they change without taking memory.
fn make_room(totals: &mut BTreeMap<u32, Totals>, pool: u32) -> Result<(), Refusal>
    ensures room { OnOk result (IsSome (row_at pool totals.new.entries)) }
    ensures same { (q : ℕ) → totals_at q totals.new.entries ≡ totals_at q totals.old.entries }
    ensures memory { IfErr result (λ e. e ≡ Memory) }
{
    if !totals.contains_key(&pool) {
        totals.insert(pool, Totals::none())?;
    }
    Ok(())
}

/// Takes what a volume comes to from the totals of a pool, which have it, and adds what another comes to.
fn recount(totals: &mut BTreeMap<u32, Totals>, pool: u32, less: &Totals, more: &Totals)
    requires most { AreAtMost less.now (totals_at pool totals.old.entries) }
    requires small { AreWithin (totals_at pool totals.old.entries) (2 ^ 119) }
    requires few { AreWithin more.now (2 ^ 56) }
    ensures { totals.new.entries ≡ edit_row pool (moved less.now more.now) totals.old.entries }
{
    if let Some(there) = totals.get_mut(&pool) {
        there.change(less, more);
    }
}

/// What the volume with this file number comes to.
fn totals_on(volumes: &BTreeMap<u32, Volume>, file: u32) -> Totals
    ensures value { result ≡ totals_of_row (row_at file volumes.now.entries) }
    ensures few { AreWithin result (2 ^ 56) }
{
    match volumes.get(&file) {
        Some(volume) => Totals::of(volume),
        None => Totals::none(),
    }
}

fn is_scratch(volumes: &BTreeMap<u32, Volume>, file: u32) -> bool
    ensures { result ≡ is_scratch_row (row_at file volumes.now.entries) }
{
    match volumes.get(&file) {
        Some(volume) => volume.scratch,
        None => false,
    }
}

impl VolumeTable {
    /// No volumes.
    pub fn new(alloc: Global) -> Self
        ensures { result ≡ [] }
    {
        VolumeTable {
            rows: BTreeMap::new(alloc),
            names: BTreeMap::new(alloc),
            totals: BTreeMap::new(alloc),
        }
    }

    /// The volumes with these rows; none where two of them have one name, or one's name is not of its kind: a scratch volume
    /// has that of its file number, and no other volume one that only scratch volumes have. Its one refusal is want of memory.
    pub fn from_rows(alloc: Global, rows: BTreeMap<u32, Volume>) -> Result<Option<Self>, Refusal>
        ensures { AnswersBy (λ table. table) result (if are_sound rows.entries then Some rows.entries else None) }
    {
        let mut table = VolumeTable::new(alloc);
        let _len = rows.len();
        'rows: for (file, volume) in rows {
            if table.named(&volume.name).is_some() {
                return Ok(None);
            }
            let named = is_rightly_named(alloc, file, &volume)?;
            if !named {
                return Ok(None);
            }
            table.insert(file, volume)?;
        }
        Ok(Some(table))
    }

    /// The volumes in ascending order of their file numbers.
    pub fn as_map(&self) -> &BTreeMap<u32, Volume>
        ensures value { result.now.entries ≡ self.now }
        ensures sound { are_sound self.now ≡ true }
    {
        &self.rows
    }

    /// The volume with this file number.
    pub fn get(&self, file: u32) -> Option<&Volume>
        ensures { option_copied result ≡ row_at file self.now }
    {
        self.rows.get(&file)
    }

    /// The file number of the volume with this name.
    pub fn named(&self, name: &Name) -> Option<u32>
        ensures { result ≡ row_named volume_name name.now self.now }
    {
        self.names.get(name).copied()
    }

    /// What the volumes of the pool come to. It walks none of them.
    pub fn totals(&self, pool: u32) -> Totals
        ensures value { result ≡ totals_of pool self.now }
        ensures few { AreWithin result (2 ^ 119) }
        ensures defined { result.defined < 2 ^ 63 }
        ensures scratch { result.scratch < 2 ^ 63 }
    {
        let _len = self.rows.len();
        totals_at(&self.totals, pool)
    }

    /// A volume comes, with a file number and a name that no volume has.
    pub fn insert(&mut self, file: u32, volume: Volume) -> Result<(), Refusal>
        requires number { row_at file self.old ≡ None }
        requires name { row_named volume_name volume.name self.old ≡ None }
        requires kind { is_rightly_named file volume ≡ true }
        ensures { Becomes result self.old self.new (Ok (with_row file volume self.old)) }
    {
        let name = volume.name.clone()?;
        let pool = volume.pool;
        let more = Totals::of(&volume);
        let _len = self.rows.len();
        make_room(&mut self.totals, pool)?;
        self.names.insert(name, file)?;
        match self.rows.insert(file, volume) {
            Ok(_) => {
                recount(&mut self.totals, pool, &Totals::none(), &more);
                Ok(())
            }
            Err(failed) => {
                let (_, volume) = failed.value;
                self.names.remove(&volume.name);
                Err(Refusal::Memory)
            }
        }
    }

    /// A scratch volume comes, with a file number that no volume has.
    pub fn add_scratch(
        &mut self,
        alloc: Global,
        pool: u32,
        file: u32,
        capacity: Capacity,
    ) -> Result<(), Refusal>
        requires { row_at file self.old ≡ None }
        ensures { Becomes result self.old self.new (Ok (with_row file (scratch_volume pool file capacity) self.old)) }
    {
        let volume = scratch_volume(alloc, pool, file, capacity)?;
        let _ = &self.rows;
        self.insert(file, volume)
    }

    /// The volume with this file number goes.
    pub fn remove(&mut self, file: u32)
        ensures { self.new ≡ without_row file self.old }
    {
        let _len = self.rows.len();
        if let Some(volume) = self.rows.remove(&file) {
            self.names.remove(&volume.name);
            let less = Totals::of(&volume);
            recount(&mut self.totals, volume.pool, &less, &Totals::none());
        }
    }

    /// Puts a segment on the volume with this file number.
    pub fn put(&mut self, file: u32, sequential: bool, segment: HeldSegment) -> Result<(), Refusal>
        requires { ForSome (row_at file self.old) (λ v. end_of segment ≤ v.capacity) }
        ensures put { Becomes result self.old self.new (change_row file (put sequential segment) self.old) }
        ensures undone { OnOk result (edit_row file (undo_on sequential segment (end_of_row (row_at file self.old)) (emptied_of_row (row_at file self.old))) self.new ≡ self.old) }
    {
        let _len = self.rows.len();
        let Some(volume) = self.rows.get(&file) else {
            return Err(Refusal::NotFound);
        };
        let pool = volume.pool;
        let less = Totals::of(volume);
        on_rows::put_at(&mut self.rows, file, sequential, segment)?;
        let more = totals_on(&self.rows, file);
        recount(&mut self.totals, pool, &less, &more);
        Ok(())
    }

    /// Takes a segment from the volume with this file number.
    pub fn take(
        &mut self,
        file: u32,
        sequential: bool,
        segment: &HeldSegment,
        today: Day,
    ) -> Result<(), Refusal>
        ensures { Makes result self.old self.new (change_row file (take sequential segment.now today) self.old) }
    {
        let _len = self.rows.len();
        let Some(volume) = self.rows.get(&file) else {
            return Err(Refusal::NotFound);
        };
        let pool = volume.pool;
        let less = Totals::of(volume);
        on_rows::take_at(&mut self.rows, file, sequential, segment, today)?;
        let more = totals_on(&self.rows, file);
        recount(&mut self.totals, pool, &less, &more);
        Ok(())
    }

    /// Undoes a segment on the volume with this file number.
    pub fn undo(
        &mut self,
        file: u32,
        sequential: bool,
        segment: &HeldSegment,
        end: u64,
        emptied: Option<Day>,
    )
        ensures { self.new ≡ edit_row file (undo_on sequential segment.now end emptied) self.old }
    {
        let _len = self.rows.len();
        let Some(volume) = self.rows.get(&file) else {
            return;
        };
        let pool = volume.pool;
        let less = Totals::of(volume);
        on_rows::undo_at(&mut self.rows, file, sequential, segment, end, emptied);
        let more = totals_on(&self.rows, file);
        recount(&mut self.totals, pool, &less, &more);
    }

    /// Reuses the volume with this file number: a scratch volume goes.
    pub fn reuse(&mut self, file: u32)
        ensures { self.new ≡ reuse_volume file self.old }
    {
        if is_scratch(&self.rows, file) {
            self.remove(file);
        } else {
            on_rows::reset_at(&mut self.rows, file);
        }
    }

    /// Sets the access of the volume with this file number.
    pub fn set_access(&mut self, file: u32, access: Access)
        ensures { self.new ≡ edit_row file (with_access access) self.old }
    {
        on_rows::set_access(&mut self.rows, file, access);
    }
}

impl Clone for VolumeTable {
    ghost is_clone = { λ table copy. copy ≡ table };

    fn clone(&self) -> Result<Self, AllocError> {
        Ok(VolumeTable {
            rows: self.rows.clone()?,
            names: self.names.clone()?,
            totals: self.totals.clone()?,
        })
    }
}
