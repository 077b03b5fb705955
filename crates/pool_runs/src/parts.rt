//! Rows of which a whole value is made.
use crate::answer::Fault;
use crate::changes::settings;
use crate::words::{name, number};
use kinds::{Access, Capacity, Day, Name, PoolKind, Refusal};
use pool_rows::{Pool, Pools};
use std::alloc::Global;
use std::collections::BTreeMap;
use volume_rows::{Holdings, Volume};

/// The rows of device classes, pools and volumes.
#[derive(Drop)]
struct Parts {
    classes: BTreeMap<Name, Option<Capacity>>,
    pools: BTreeMap<u32, Pool>,
    volumes: BTreeMap<u32, Volume>,
}

fn least_capacity() -> Result<Capacity, Fault> {
    Capacity::new(65536).ok_or(Fault::NoCommand)
}

/// A primary pool of the class F.
fn pool(alloc: Global, text: &str) -> Result<Pool, Fault> {
    Ok(Pool {
        name: name(alloc, text)?,
        class: name(alloc, "F")?,
        kind: PoolKind::Primary,
        settings: settings(&[])?,
    })
}

/// An empty volume of 65,536 bytes in the pool 2.
fn volume(alloc: Global, text: &str, scratch: bool) -> Result<Volume, Fault> {
    Ok(Volume {
        name: name(alloc, text)?,
        pool: 2,
        scratch,
        capacity: least_capacity()?,
        access: Access::ReadWrite,
        end: 0,
        emptied: None,
        segments: Holdings::new(alloc),
    })
}

/// Such a volume that was written to its end, and emptied on day 3.
fn written(alloc: Global, text: &str) -> Result<Volume, Fault> {
    Ok(Volume {
        end: 65536,
        emptied: Day::new(3),
        ..volume(alloc, text, false)?
    })
}

impl Parts {
    /// The class F, of volumes of 65,536 bytes, alone.
    fn new(alloc: Global) -> Result<Self, Fault> {
        let mut classes = BTreeMap::new(alloc);
        let capacity = least_capacity()?;
        classes
            .insert(name(alloc, "F")?, Some(capacity))
            .map_err(Refusal::from)?;
        Ok(Parts {
            classes,
            pools: BTreeMap::new(alloc),
            volumes: BTreeMap::new(alloc),
        })
    }

    fn add_pool(&mut self, number: u32, pool: Pool) -> Result<(), Refusal> {
        self.pools.insert(number, pool)?;
        Ok(())
    }

    fn add_volume(&mut self, file: u32, volume: Volume) -> Result<(), Refusal> {
        self.volumes.insert(file, volume)?;
        Ok(())
    }

    /// Adds the row that the word has: `pool=2:A`, `scratch=7:SCR00000007`, `volume=8:T1` or `written=9:T2`.
    fn add(&mut self, alloc: Global, word: &str) -> Result<(), Fault> {
        let (kind, row) = word.split_once('=').ok_or(Fault::NoCommand)?;
        let (place, text) = row.split_once(':').ok_or(Fault::NoCommand)?;
        let place = number(place)?;
        match kind {
            "pool" => self.add_pool(place, pool(alloc, text)?)?,
            "scratch" => self.add_volume(place, volume(alloc, text, true)?)?,
            "volume" => self.add_volume(place, volume(alloc, text, false)?)?,
            "written" => self.add_volume(place, written(alloc, text)?)?,
            _ => return Err(Fault::NoCommand),
        }
        Ok(())
    }
}

/// The value that has these rows, if there is one.
pub fn made(alloc: Global, words: &[&str]) -> Result<Option<Pools>, Fault> {
    let mut parts = Parts::new(alloc)?;
    for word in words {
        parts.add(alloc, word)?;
    }
    let Parts {
        classes,
        pools,
        volumes,
    } = parts;
    let made = Pools::from_parts(alloc, classes, pools, volumes)?;
    Ok(made)
}

/// The value that has the same rows as this one.
pub fn made_again(alloc: Global, of: &Pools) -> Result<Option<Pools>, Fault> {
    let classes = of.classes().clone()?;
    let pools = of.pools().clone()?;
    let volumes = of.volumes().clone()?;
    let made = Pools::from_parts(alloc, classes, pools, volumes)?;
    Ok(made)
}
