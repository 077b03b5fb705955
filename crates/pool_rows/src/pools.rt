ghost use Rattle.std.specs.Prelude.{◌≡◌, true, IsSome, Some, None};
ghost use Rattle.pool_tables.specs.kinds.Answers.{AnswersBy};

use crate::fresh::{backup_pool, disk};
use pool_tables::kinds::{Capacity, Name, Refusal};
use pool_tables::volume_rows::{Status, Volume};
use pool_tables::{Pool, PoolTable, VolumeTable};
use std::alloc::{AllocError, Global};
use std::collections::BTreeMap;
use std::marker::Model;

/// The device classes by name, each with how many bytes its volumes have (none for DISK, whose volumes are of random access
/// and have sizes of their own), the storage pools by number, and the volumes by file number. Contracts see the lists of
/// these rows in ascending order of their keys.
#[derive(Drop)]
pub struct Pools {
    pub(crate) alloc: Global,
    pub(crate) classes: BTreeMap<Name, Option<Capacity>>,
    pub(crate) pools: PoolTable,
    pub(crate) volumes: VolumeTable,
}

impl Model for Pools {
    ghost use Rattle.pool_rows.specs.PoolRows.{PoolRows};

    ghost Value = { PoolRows };

    ghost view = { λ p. record { classes = p.classes.entries; pools = p.pools; volumes = p.volumes } };
}

impl Pools {
    ghost use Rattle.pool_tables.specs.Rows.{named, row_at};
    ghost use Rattle.pool_tables.specs.Names.{pool_name, are_apart};
    ghost use Rattle.pool_tables.specs.Counted.{are_sound};
    ghost use Rattle.pool_rows.specs.PoolRows.{PoolRows, with_rows, class_capacity, pool_class_capacity, pool_capacity, is_sequential, is_sequential_at, status_at, reclaimable_at, pool_named, volume_named, fresh};

    /// These device classes, storage pools and volumes; none where two pools or two volumes have one name, or a volume's name
    /// is not of its kind: a scratch volume has SCR and its file number, and no other volume SCR and eight or more digits. Its
    /// one refusal is want of memory.
    pub fn from_parts(
        alloc: Global,
        classes: BTreeMap<Name, Option<Capacity>>,
        pools: BTreeMap<u32, Pool>,
        volumes: BTreeMap<u32, Volume>,
    ) -> Result<Option<Self>, Refusal>
        ensures { AnswersBy (λ made. made) result (with_rows classes.entries pools.entries volumes.entries) }
    {
        let Some(pools) = PoolTable::from_rows(alloc, pools)? else {
            return Ok(None);
        };
        let Some(volumes) = VolumeTable::from_rows(alloc, volumes)? else {
            return Ok(None);
        };
        Ok(Some(Pools {
            alloc,
            classes,
            pools,
            volumes,
        }))
    }

    /// The device classes by name, each with its volumes' capacity; none for DISK.
    pub fn classes(&self) -> &BTreeMap<Name, Option<Capacity>>
        ensures { result.now.entries ≡ self.now.classes }
    {
        &self.classes
    }

    /// The storage pools by number.
    pub fn pools(&self) -> &BTreeMap<u32, Pool>
        ensures value { result.now.entries ≡ self.now.pools }
        ensures apart { are_apart pool_name self.now.pools ≡ true }
    {
        self.pools.as_map()
    }

    /// The volumes by file number.
    pub fn volumes(&self) -> &BTreeMap<u32, Volume>
        ensures value { result.now.entries ≡ self.now.volumes }
        ensures sound { are_sound self.now.volumes ≡ true }
    {
        self.volumes.as_map()
    }

    /// The number of the pool with this name.
    pub fn pool_named(&self, name: &Name) -> Option<u32>
        ensures { result ≡ pool_named name.now self.now }
    {
        self.pools.named(name)
    }

    /// The file number of the volume with this name.
    pub fn volume_named(&self, name: &Name) -> Option<u32>
        ensures { result ≡ volume_named name.now self.now }
    {
        self.volumes.named(name)
    }

    /// How many bytes the volumes of this device class have, where it is there and sequential.
    pub fn class_capacity(&self, class: &Name) -> Option<Capacity>
        ensures { result ≡ class_capacity class.now self.now }
    {
        match self.classes.get(class).copied() {
            Some(capacity) => capacity,
            None => None,
        }
    }

    /// How many bytes the volumes of this pool have, where it is there and sequential.
    pub fn pool_capacity(&self, pool: u32) -> Option<Capacity>
        ensures { result ≡ pool_capacity pool self.now }
    {
        match self.pools.get(pool) {
            Some(pool) => self.class_capacity(&pool.class),
            None => None,
        }
    }

    /// Whether the pool is there and sequential.
    pub fn is_sequential(&self, pool: u32) -> bool
        ensures { result ≡ is_sequential pool self.now }
    {
        self.pool_capacity(pool).is_some()
    }

    /// Whether the volume with this file number is there and its pool sequential.
    pub fn is_sequential_at(&self, file: u32) -> bool
        ensures { result ≡ is_sequential_at file self.now }
    {
        match self.volumes.get(file) {
            Some(volume) => self.is_sequential(volume.pool),
            None => false,
        }
    }

    /// How the volume with this file number is used.
    pub fn status(&self, file: u32) -> Status
        requires { IsSome (row_at file self.now.volumes) }
        ensures { status_at file self.now ≡ Some result }
    {
        match self.volumes.get(file) {
            Some(volume) => volume.status(self.is_sequential(volume.pool)),
            None => unreachable!(),
        }
    }

    /// Whether the volume with this file number is FULL, and of its capacity at least `threshold` hundredths are used by no
    /// copy.
    pub fn reclaimable(&self, file: u32, threshold: u8) -> bool
        requires { IsSome (row_at file self.now.volumes) }
        ensures { reclaimable_at file threshold self.now ≡ Some result }
    {
        match self.volumes.get(file) {
            Some(volume) => volume.is_reclaimable(self.is_sequential(volume.pool), threshold),
            None => unreachable!(),
        }
    }

    /// What a new server has: the device class DISK, and the pool BACKUPPOOL with the number 1, which is primary, on DISK and
    /// has the defaults of DEFINE STGPOOL.
    pub fn fresh(alloc: Global) -> Result<Pools, Refusal>
        ensures { AnswersBy (λ pools. pools) result fresh }
    {
        let mut classes = BTreeMap::new(alloc);
        classes.insert(disk(alloc)?, None)?;
        let mut pools = PoolTable::new(alloc);
        pools.insert(1, backup_pool(alloc)?)?;
        Ok(Pools {
            alloc,
            classes,
            pools,
            volumes: VolumeTable::new(alloc),
        })
    }
}

impl Clone for Pools {
    ghost is_clone = { λ pools copy. copy ≡ pools };

    fn clone(&self) -> Result<Self, AllocError> {
        Ok(Pools {
            alloc: self.alloc,
            classes: self.classes.clone()?,
            pools: self.pools.clone()?,
            volumes: self.volumes.clone()?,
        })
    }
}
