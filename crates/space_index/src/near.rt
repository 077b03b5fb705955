// The volumes of a sequential pool that are looked at one by one.
ghost use Rattle.std.specs.Prelude.{IfOk, OnOk};
ghost use Rattle.space_index.specs.Sequential.{view, KnowsMore, AreNear};

use crate::tails::Tails;
use pool_rows::Pools;
use space::{Request, Site};
use std::alloc::{AllocError, Global};
use std::collections::BTreeMap;

/// A volume of the pool is looked at as the actor sees it, where it wasn't before, and nobody else's tickets have space on it.
pub fn note_seen(
    pools: &Pools,
    tails: &Tails,
    request: &Request,
    number: u32,
    near: &mut BTreeMap<u32, Site>,
    file: u32,
) -> Result<(), AllocError>
    ensures { OnOk result (KnowsMore (view pools.now tails.now.held.entries number request.now.actor) file near.old.entries near.new.entries) }
{
    if near.get(&file).is_some() {
        return Ok(());
    }
    match tails.seen(pools, number, request.actor, file) {
        Some(site) => {
            near.insert(file, site)?;
            Ok(())
        }
        None => Ok(()),
    }
}

/// The preferred volume and the avoided one.
pub fn near_sites(
    alloc: Global,
    pools: &Pools,
    tails: &Tails,
    request: &Request,
    number: u32,
) -> Result<BTreeMap<u32, Site>, AllocError>
    ensures { IfOk result (λ near. AreNear (view pools.now tails.now.held.entries number request.now.actor) request.now.prefer request.now.avoid near.entries) }
{
    let mut near = BTreeMap::new(alloc);
    note_seen(pools, tails, request, number, &mut near, request.prefer)?;
    note_seen(pools, tails, request, number, &mut near, request.avoid)?;
    Ok(near)
}
