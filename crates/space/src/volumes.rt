// The volumes as one who asks for space sees them.
ghost use Rattle.std.specs.Prelude.{◌≡◌, ◌+◌, ◌≤◌, unwrap_or, IfOk, OnOk, IsTrue};
ghost use Rattle.pool_rows.specs.PoolRows.{pool_capacity};
ghost use Rattle.space.specs.Volumes.{is_writable, site_of, drawn_site, with_claim, claimed_site, claim, claim_all, seen, sites, has_tail, is_filling, is_empty, is_held, is_open, scratch_one, scratch_count};

use crate::counted::Counted;
use crate::places::Placed;
use crate::site::Site;
use kinds::{Access, Segment};
use pool_rows::Pools;
use pool_rows::volume_rows::Volume;
use std::alloc::{AllocError, Global};
use std::collections::BTreeMap;

/// Whether a volume with this access may be written: READWRITE.
pub fn is_writable(access: &Access) -> bool
    ensures { result ≡ is_writable access.now }
{
    match access {
        Access::ReadWrite => true,
        Access::ReadOnly | Access::Unavailable | Access::Offsite | Access::Destroyed => false,
    }
}

/// What is seen of a volume's row.
pub fn site_of(volume: &Volume) -> Site
    ensures { result ≡ site_of volume.now }
{
    Site {
        pool: volume.pool,
        scratch: volume.scratch,
        is_writable: is_writable(&volume.access),
        capacity: volume.capacity.bytes(),
        end: u128::from(volume.end),
        is_bare: volume.segments.is_empty(),
    }
}

fn capacity_in(pools: &Pools, pool: u32) -> u64
    ensures { result ≡ unwrap_or (pool_capacity pool pools.now) 0 }
{
    match pools.pool_capacity(pool) {
        Some(capacity) => capacity.bytes(),
        None => 0,
    }
}

fn drawn_site(pool: u32, capacity: u64) -> Site
    ensures { result ≡ drawn_site pool capacity }
{
    Site {
        pool,
        scratch: true,
        is_writable: true,
        capacity,
        end: 0,
        is_bare: true,
    }
}

fn with_claim(segment: &Segment, site: Site) -> Site
    ensures { result ≡ with_claim segment.now site }
{
    let end = u128::from(segment.offset) + 32 + u128::from(segment.len);
    Site {
        pool: site.pool,
        scratch: site.scratch,
        is_writable: site.is_writable,
        capacity: site.capacity,
        end: site.end.max(end),
        is_bare: false,
    }
}

/// The volume of a place; a scratch volume that was drawn, where it is not there.
fn claimed_site(pools: &Pools, place: &Placed, sites: &BTreeMap<u32, Site>) -> Site
    ensures { result ≡ claimed_site pools.now place.now sites.now.entries }
{
    match sites.get(&place.segment.file).copied() {
        Some(site) => site,
        None => drawn_site(place.pool, capacity_in(pools, place.pool)),
    }
}

fn claim(pools: &Pools, place: &Placed, sites: &mut BTreeMap<u32, Site>) -> Result<(), AllocError>
    ensures { OnOk result (sites.new.entries ≡ claim pools.now place.now sites.old.entries) }
{
    let site = claimed_site(pools, place, sites);
    let claimed = with_claim(&place.segment, site);
    sites.insert(place.segment.file, claimed)?;
    Ok(())
}

/// These places are claimed on their volumes, among these; a volume that isn't among them is a scratch volume that was drawn.
pub fn claim_all(
    pools: &Pools,
    places: &[Placed],
    sites: &mut BTreeMap<u32, Site>,
) -> Result<(), AllocError>
    ensures { OnOk result (sites.new.entries ≡ claim_all pools.now places.now sites.old.entries) }
{
    'places: for place in places {
        claim(pools, place, sites)?;
    }
    Ok(())
}

/// The volumes of the rows.
fn row_sites(alloc: Global, pools: &Pools) -> Result<BTreeMap<u32, Site>, AllocError>
    ensures { IfOk result (λ sites. sites.entries ≡ seen pools.now.volumes) }
{
    let mut sites = BTreeMap::new(alloc);
    let _len = pools.volumes().len();
    'volumes: for (file, volume) in pools.volumes() {
        sites.insert(*file, site_of(volume))?;
    }
    Ok(sites)
}

/// The volumes, those among them that tickets have drawn, with what tickets claim.
pub fn sites(
    alloc: Global,
    pools: &Pools,
    counted: &Counted,
) -> Result<BTreeMap<u32, Site>, AllocError>
    ensures { IfOk result (λ found. found.entries ≡ sites pools.now counted.now) }
{
    let mut sites = row_sites(alloc, pools)?;
    claim_all(pools, counted.own.as_slice(), &mut sites)?;
    claim_all(pools, counted.others.as_slice(), &mut sites)?;
    Ok(sites)
}

impl Site {
    /// Whether a sequential volume isn't FULL: there is room for a further block behind its end.
    pub fn has_tail(&self) -> bool
        ensures value { result ≡ has_tail self.now }
        ensures room { IsTrue result → self.now.end + 4096 ≤ self.now.capacity }
    {
        u128::from(self.capacity).saturating_sub(self.end) >= 4096
    }

    /// Whether a sequential volume that isn't FULL is FILLING: it has copies.
    pub fn is_filling(&self) -> bool
        ensures { result ≡ is_filling self.now }
    {
        !self.is_bare
    }

    /// Whether a sequential volume is EMPTY: nothing was written on it since it was made or reused.
    pub fn is_empty(&self) -> bool
        ensures { result ≡ is_empty self.now }
    {
        self.is_bare && self.end == 0
    }

    /// Whether the volume, under this file number, is of the pool, may be written and is not to be avoided.
    pub fn is_open(&self, file: u32, number: u32, avoid: u32) -> bool
        ensures { result ≡ is_open number avoid (file, self.now) }
    {
        self.pool == number && self.is_writable && file != avoid
    }
}

/// Whether one of these places is on the volume.
pub fn is_held(file: u32, places: &[Placed]) -> bool
    ensures { result ≡ is_held file places.now }
{
    places.iter().any(|p| p.segment.file == file)
}

fn scratch_one(number: u32, site: &Site) -> u64
    ensures value { result ≡ scratch_one number site.now }
    ensures few { result ≤ 1 }
{
    if site.pool == number && site.scratch {
        1
    } else {
        0
    }
}

/// How many scratch volumes the pool has, those among them that tickets have drawn.
pub fn scratch_count(number: u32, sites: &BTreeMap<u32, Site>) -> u64
    ensures { result ≡ scratch_count number sites.now.entries }
{
    let _len = sites.len();
    let mut count = 0;
    'sites: for (_, site) in sites {
        count += scratch_one(number, site);
    }
    count
}
