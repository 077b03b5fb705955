//! The index that is kept, and what is held beside the copies.
ghost use Rattle.std.specs.Prelude.{◌≡◌, map};
ghost use Rattle.kinds.specs.Answers.{Answers};
ghost use Rattle.inventory_rows.specs.State.{Inv};
ghost use Rattle.inventory_rules.specs.Transactions.{effect};
ghost use Rattle.pool_rows.specs.PoolRows.{PoolRows};
ghost use Rattle.space.specs.Claims.{Claims, forced, forgotten, held, noted, released};
ghost use Rattle.space.specs.Placing.{choose};
ghost use Rattle.space_index.specs.Tails.{IsIndexOf};
ghost use Rattle.kept_index.specs.Steps.{IsLegalOn, gone, named_by, named_in};
ghost use Rattle.kept_index.specs.Kept.{IsIndexed, IsKeptOf};

use crate::following::followed;
use entries::Change;
use kinds::{PoolChange, Refusal, Verb};
use pool_rows::Pools;
use space::{Claim, Placed, Places, Request, Space, choose_by_walk};
use space_index::{Index, choose};
use std::alloc::Global;

/// The index of free space, kept beside rows and beside what is held. It is lost where memory is wanted for a change of it, and where a storage pool is defined or deleted while tickets hold space; no call is refused then, and `make` makes it anew. Contracts
/// see of which rows and claims it is the index, where it is there.
#[derive(Drop)]
pub struct KeptIndex {
    alloc: Global,
    pub(crate) index: Option<Index>,
}

fn held(index: Index, pools: &Pools, space: &Space, number: u64, claim: &Claim) -> Option<Index>
    ensures { IsIndexOf index pools.now space.now → IsIndexed result pools.now (held number claim.now space.now) }
{
    let mut index = index;
    let None = space.tickets().get(&number) else {
        return None;
    };
    match index.hold(pools, claim) {
        Ok(()) => Some(index),
        Err(_) => None,
    }
}

fn released(index: Index, pools: &Pools, space: &Space, number: u64) -> Option<Index>
    ensures { IsIndexOf index pools.now space.now → IsIndexed result pools.now (released number space.now) }
{
    let mut index = index;
    let claim = match space.tickets().get(&number) {
        Some(claim) => claim,
        None => return None,
    };
    match index.release(pools, claim) {
        Ok(()) => Some(index),
        Err(_) => None,
    }
}

fn noted(index: Index, space: &Space, number: u64, places: &Places) -> Option<Index>
    ensures { (s : PoolRows) → IsIndexOf index s space.now → IsIndexed result s (noted number places.now space.now) }
{
    let mut index = index;
    let None = space.freed().get(&number) else {
        return None;
    };
    match index.note(places) {
        Ok(()) => Some(index),
        Err(_) => None,
    }
}

fn forgotten(index: Index, space: &Space, number: u64) -> Option<Index>
    ensures { (s : PoolRows) → IsIndexOf index s space.now → IsIndexed result s (forgotten number space.now) }
{
    let mut index = index;
    let places = match space.freed().get(&number) {
        Some(places) => places,
        None => return None,
    };
    match index.forget(places) {
        Ok(()) => Some(index),
        Err(_) => None,
    }
}

fn forced(index: Index, space: &Space) -> Option<Index>
    ensures { (s : PoolRows) → IsIndexOf index s space.now → IsIndexed result s (forced space.now) }
{
    let mut index = index;
    match index.force(space) {
        Ok(()) => Some(index),
        Err(_) => None,
    }
}

/// The volume that a change of the storage names, where it changes one or deletes it.
fn named_in(change: &PoolChange, pools: &Pools) -> Option<u32>
    ensures { result ≡ named_in change.now pools.now }
{
    match change {
        PoolChange::Volume {
            verb: Verb::Update,
            volume,
            ..
        } => pools.volume_named(volume),
        PoolChange::Volume {
            verb: Verb::Delete,
            volume,
            ..
        } => pools.volume_named(volume),
        _ => None,
    }
}

/// The volume that a change of the storage names, where it changes one or deletes it: by its name, in the rows before the transaction.
pub fn named_by(change: &Change, pools: &Pools) -> Option<u32>
    ensures { result ≡ named_by change.now pools.now }
{
    match change {
        Change::Pool(it) => named_in(it, pools),
        _ => None,
    }
}

impl KeptIndex {
    /// The index of these rows and of what is held beside them. It takes time for all volumes, their blocks and copies, and for all that is held.
    pub fn of(alloc: Global, pools: &Pools, space: &Space) -> Self
        ensures { IsKeptOf result pools.now space.now }
    {
        match Index::of(alloc, pools, space) {
            Ok(index) => KeptIndex {
                alloc,
                index: Some(index),
            },
            Err(_) => KeptIndex { alloc, index: None },
        }
    }

    /// Where the index was lost it is made anew, if there is memory for it.
    pub fn make(&mut self, pools: &Pools, space: &Space)
        ensures { IsKeptOf self.old pools.now space.now → IsKeptOf self.new pools.now space.now }
    {
        if self.index.is_some() {
            return;
        }
        *self = KeptIndex::of(self.alloc, pools, space);
    }

    /// The index is lost.
    pub fn lose(&mut self)
        ensures { (s : PoolRows) (c : Claims) → IsKeptOf self.new s c }
    {
        self.index = None;
    }

    /// A ticket gets its space: `space` is as it was before.
    pub fn hold(&mut self, pools: &Pools, space: &Space, number: u64, claim: &Claim)
        ensures { IsKeptOf self.old pools.now space.now → IsKeptOf self.new pools.now (held number claim.now space.now) }
    {
        self.index = match self.index.take() {
            Some(index) => held(index, pools, space, number, claim),
            None => None,
        };
    }

    /// A ticket gives its space back, or its segments have become a copy's: `space` is as it was before.
    pub fn release(&mut self, pools: &Pools, space: &Space, number: u64)
        ensures { IsKeptOf self.old pools.now space.now → IsKeptOf self.new pools.now (released number space.now) }
    {
        self.index = match self.index.take() {
            Some(index) => released(index, pools, space, number),
            None => None,
        };
    }

    /// A transaction that isn't forced yet is to take these segments away: `space` is as it was before.
    pub fn note(&mut self, space: &Space, number: u64, places: &Places)
        ensures { (s : PoolRows) → IsKeptOf self.old s space.now → IsKeptOf self.new s (noted number places.now space.now) }
    {
        self.index = match self.index.take() {
            Some(index) => noted(index, space, number, places),
            None => None,
        };
    }

    /// A transaction that was to take segments away wasn't made: `space` is as it was before.
    pub fn forget(&mut self, space: &Space, number: u64)
        ensures { (s : PoolRows) → IsKeptOf self.old s space.now → IsKeptOf self.new s (forgotten number space.now) }
    {
        self.index = match self.index.take() {
            Some(index) => forgotten(index, space, number),
            None => None,
        };
    }

    /// Every transaction is forced: `space` is as it was before. It takes time for the segments that they took away.
    pub fn force(&mut self, space: &Space)
        ensures { (s : PoolRows) → IsKeptOf self.old s space.now → IsKeptOf self.new s (forced space.now) }
    {
        self.index = match self.index.take() {
            Some(index) => forced(index, space),
            None => None,
        };
    }

    /// A transaction with this change was made, which named this volume (`named_by`) and took these segments away: these are the rows behind it. It takes time for the segments that came
    /// and went, logarithmic in all else; where a volume of random access is defined, for its blocks and for all that is held.
    pub fn follow(
        &mut self,
        change: &Change,
        named: Option<u32>,
        taken: &[Placed],
        pools: &Pools,
        space: &Space,
    )
        ensures { (v : Inv) → IsKeptOf self.old v.stores space.now → IsLegalOn change.now v → named ≡ named_by change.now v.stores → map (λ p. p.segment) taken.now ≡ gone change.now v → pools.now ≡ (effect change.now v).stores → IsKeptOf self.new pools.now space.now }
    {
        self.index = match self.index.take() {
            Some(index) => followed(index, change, named, taken, pools, space),
            None => None,
        };
    }

    /// Where an object goes, exactly as `choose_by_walk` of `space` answers: by the index where it is there, in the time that `choose` of `space_index` takes, and else by a walk.
    pub fn choose(&self, pools: &Pools, space: &Space, request: &Request) -> Result<Places, Refusal>
        requires { IsKeptOf self.now pools.now space.now }
        ensures { Answers result (choose request.now pools.now space.now) }
    {
        match &self.index {
            Some(index) => choose(self.alloc, pools, space, index, request),
            None => choose_by_walk(self.alloc, pools, space, request),
        }
    }
}
