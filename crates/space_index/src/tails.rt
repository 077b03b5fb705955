// The volumes of sequential pools, and what tickets hold.
ghost use Rattle.std.specs.Prelude.{◌≡◌, ℕ, Some, None, Option, List, [], OnOk, unwrap_or};
ghost use Rattle.pool_tables.specs.Rows.{row_at};
ghost use Rattle.pool_rows.specs.PoolRows.{pool_capacity};
ghost use Rattle.space.specs.declared.claims.Claim.{Claim};
ghost use Rattle.space.specs.declared.places.Placed.{Placed};
ghost use Rattle.space.specs.declared.site.Site.{Site};
ghost use Rattle.space.specs.Volumes.{drawn_site};
ghost use Rattle.space_index.specs.Claimed.{IsOneMore, and_ticket};
ghost use Rattle.space_index.specs.Sequential.{seen_with, view};
ghost use Rattle.space_index.specs.Tails.{AreElse, AreTails, base_in, IsTailsOf};

use crate::held::{Held, put_place, take_place};
use crate::lists::Lists;
use crate::lost::Lost;
use kinds::Segment;
use pool_rows::Pools;
use space::{Placed, Site, site_of};
use std::alloc::{AllocError, Global};
use std::collections::BTreeMap;

/// The volumes of sequential pools that can be written, and what tickets hold on volumes, of whatever pool.
#[derive(Drop)]
pub struct Tails {
    alloc: Global,
    pub(crate) lists: Lists,
    /// By file number, what tickets hold on the volume; none where they hold nothing.
    pub(crate) held: BTreeMap<u32, Held>,
}

/// A scratch volume that tickets have drawn, of this pool.
fn drawn(pools: &Pools, pool: u32) -> Site
    ensures { result ≡ drawn_site pool (unwrap_or (pool_capacity pool pools.now) 0) }
{
    let capacity = match pools.pool_capacity(pool) {
        Some(capacity) => capacity.bytes(),
        None => 0,
    };
    Site {
        pool,
        scratch: true,
        is_writable: true,
        capacity,
        end: 0,
        is_bare: true,
    }
}

/// A volume on which tickets have space, as the actor sees it, where they are its own.
fn seen_with(held: &Held, actor: u32, site: Site) -> Option<Site>
    ensures { result ≡ seen_with actor site (Some held.now) }
{
    if held.is_lone(u128::from(actor)) {
        Some(held.on(site))
    } else {
        None
    }
}

impl Tails {
    /// No volumes, and nothing is held. It takes no memory.
    pub fn new(alloc: Global) -> Self
        ensures lists { AreTails result (λ file. None) }
        ensures none { result.held.entries ≡ [] }
    {
        Tails {
            alloc,
            lists: Lists::new(alloc),
            held: BTreeMap::new(alloc),
        }
    }

    /// A volume that is there and sequential, or that tickets have drawn.
    pub fn base_at(&self, pools: &Pools, file: u32) -> Option<Site>
        ensures { result ≡ base_in pools.now self.now.held.entries file }
    {
        match pools.volumes().get(&file) {
            Some(volume) => {
                if pools.is_sequential(volume.pool) {
                    Some(site_of(volume))
                } else {
                    None
                }
            }
            None => match self.held.get(&file) {
                Some(held) => Some(drawn(pools, held.pool)),
                None => None,
            },
        }
    }

    /// A volume of the pool, as the actor sees it, on which nobody else's tickets have space.
    pub fn seen(&self, pools: &Pools, number: u32, actor: u32, file: u32) -> Option<Site>
        ensures { result ≡ view pools.now self.now.held.entries number actor file }
    {
        let site = match self.base_at(pools, file) {
            Some(site) => site,
            None => return None,
        };
        if site.pool != number {
            return None;
        }
        match self.held.get(&file) {
            None => Some(site),
            Some(held) => seen_with(held, actor, site),
        }
    }

    /// A volume stands so now, or is no sequential one any more.
    pub fn set(&mut self, file: u32, site: Option<Site>) -> Result<(), AllocError>
        ensures lists { (sites others : ℕ → Option Site) → AreTails self.old sites → AreElse file sites others → others file ≡ site → OnOk result (AreTails self.new others) }
        ensures held { self.new.held ≡ self.old.held }
    {
        match self.held.get(&file) {
            None => self.lists.set_open(file, site),
            Some(held) => self.lists.set_held(file, site, held),
        }
    }

    /// A place more is held.
    fn put(&mut self, pools: &Pools, actor: u32, place: &Placed) -> Result<(), Lost>
        ensures { (less more : List (ℕ × Claim)) → IsTailsOf self.old pools.now less → IsOneMore actor place.now less more → OnOk result (IsTailsOf self.new pools.now more) }
    {
        let file = place.segment.file;
        self.set(file, None)?;
        put_place(self.alloc, &mut self.held, actor, place)?;
        let site = self.base_at(pools, file);
        self.set(file, site)?;
        Ok(())
    }

    /// A place fewer is held.
    fn take(&mut self, pools: &Pools, actor: u32, segment: &Segment) -> Result<(), AllocError>
        ensures { (place : Placed) (less more : List (ℕ × Claim)) → place.segment ≡ segment.now → IsTailsOf self.old pools.now more → IsOneMore actor place less more → OnOk result (IsTailsOf self.new pools.now less) }
    {
        let file = segment.file;
        self.set(file, None)?;
        take_place(&mut self.held, actor, segment)?;
        let site = self.base_at(pools, file);
        self.set(file, site)?;
        Ok(())
    }

    /// A ticket of an actor holds these places beside.
    pub fn put_all(&mut self, pools: &Pools, actor: u32, places: &[Placed]) -> Result<(), Lost>
        ensures { (tickets : List (ℕ × Claim)) → IsTailsOf self.old pools.now tickets → OnOk result (IsTailsOf self.new pools.now (and_ticket actor places.now tickets)) }
    {
        'places: for place in places {
            self.put(pools, actor, place)?;
        }
        Ok(())
    }

    /// A ticket of an actor that holds these places goes.
    pub fn take_all(
        &mut self,
        pools: &Pools,
        actor: u32,
        places: &[Placed],
    ) -> Result<(), AllocError>
        ensures { (tickets : List (ℕ × Claim)) → IsTailsOf self.old pools.now (and_ticket actor places.now tickets) → OnOk result (IsTailsOf self.new pools.now tickets) }
    {
        'places: for place in places {
            self.take(pools, actor, &place.segment)?;
        }
        Ok(())
    }
}
