//! The index: where space is free on volumes of random access, and which volumes of sequential pools have room behind their ends.

ghost use Rattle.std.specs.Prelude.{◌≡◌, ℕ, true, false, Some, None, Option, Ok, [], IfOk, OnOk};
ghost use Rattle.pool_tables.specs.Rows.{row_at};
ghost use Rattle.pool_rows.specs.PoolRows.{PoolRows, is_sequential};
ghost use Rattle.pool_rows.specs.Segments.{put_segment, take_segment};
ghost use Rattle.volume_rows.specs.declared.volume.Volume.{Volume};
ghost use Rattle.space.specs.declared.site.Site.{Site};
ghost use Rattle.space.specs.Claims.{Claims, held, released, noted, forgotten, forced};
ghost use Rattle.space_index.specs.Index.{shape_at, claims_reach};
ghost use Rattle.space_index.specs.Claimed.{pool_on};
ghost use Rattle.space_index.specs.Tails.{AreElse, base_at, IsTailsOf, IsIndexWith, IsIndexOf};
ghost use Rattle.space_index.specs.Updates.{ChangesAt, IsAccessOf};

use crate::lost::Lost;
use crate::random::RandomIndex;
use crate::tails::Tails;
use kinds::{Access, Segment};
use pool_rows::Pools;
use space::{Claim, Places, Space};
use std::alloc::{AllocError, Global};
use volume_rows::Volume;

/// Where space is free, kept beside the rows and beside what tickets hold. Contracts see of which rows and of what beside them it is the
/// index. Where a call is refused for want of memory it is the index of nothing any more: make a new one.
#[derive(Drop)]
pub struct Index {
    pub(crate) random: RandomIndex,
    pub(crate) tails: Tails,
}

/// The sequential volumes of these rows, where nothing is held.
fn rows_of(alloc: Global, pools: &Pools) -> Result<Tails, AllocError>
    ensures { IfOk result (λ t. IsTailsOf t pools.now []) }
{
    let mut tails = Tails::new(alloc);
    let _len = pools.volumes().len();
    'volumes: for (file, _) in pools.volumes() {
        let site = tails.base_at(pools, *file);
        tails.set(*file, site)?;
    }
    Ok(tails)
}

/// The sequential volumes of these rows, and what tickets hold.
fn tails_of(alloc: Global, pools: &Pools, space: &Space) -> Result<Tails, Lost>
    ensures { IfOk result (λ t. IsTailsOf t pools.now space.now.tickets) }
{
    let mut tails = rows_of(alloc, pools)?;
    'tickets: for (_, claim) in space.tickets() {
        tails.put_all(pools, claim.actor, claim.places.as_slice())?;
    }
    Ok(tails)
}

impl Index {
    /// The index of these rows and of what is held beside them. It takes time for all volumes, their blocks and copies, and for all that is held.
    /// `Kind` where places of tickets on one volume don't all name the same pool; those that `choose` answers do.
    pub fn of(alloc: Global, pools: &Pools, space: &Space) -> Result<Self, Lost>
        ensures { IfOk result (λ i. IsIndexOf i pools.now space.now) }
    {
        let tails = tails_of(alloc, pools, space)?;
        let random = RandomIndex::of(alloc, pools, space)?;
        Ok(Index { random, tails })
    }

    // ---- tickets and transactions

    /// A ticket gets its space, under a number that no ticket has. `Kind` where its places name another pool than those that are held on the same
    /// volume.
    pub fn hold(&mut self, pools: &Pools, claim: &Claim) -> Result<(), Lost>
        ensures { (c : Claims) (number : ℕ) → IsIndexOf self.old pools.now c → row_at number c.tickets ≡ None → OnOk result (IsIndexOf self.new pools.now (held number claim.now c)) }
    {
        self.random.hold(claim)?;
        self.tails
            .put_all(pools, claim.actor, claim.places.as_slice())?;
        Ok(())
    }

    /// A ticket gives its space back, or its segments have become a copy's.
    pub fn release(&mut self, pools: &Pools, claim: &Claim) -> Result<(), AllocError>
        ensures { (c : Claims) (number : ℕ) → IsIndexOf self.old pools.now c → row_at number c.tickets ≡ Some claim.now → OnOk result (IsIndexOf self.new pools.now (released number c)) }
    {
        self.random.release(claim)?;
        self.tails
            .take_all(pools, claim.actor, claim.places.as_slice())?;
        Ok(())
    }

    /// A transaction that isn't forced yet, under a number that none has, took these segments away.
    pub fn note(&mut self, places: &Places) -> Result<(), AllocError>
        ensures { (s : PoolRows) (c : Claims) (sites : ℕ → Option Site) (number : ℕ) → IsIndexWith self.old s c sites → row_at number c.freed ≡ None → OnOk result (IsIndexWith self.new s (noted number places.now c) sites) }
    {
        self.random.note(places)?;
        Ok(())
    }

    /// A transaction that was to take these segments away wasn't made: what was noted under its number goes.
    pub fn forget(&mut self, places: &Places) -> Result<(), AllocError>
        ensures { (s : PoolRows) (c : Claims) (sites : ℕ → Option Site) (number : ℕ) → IsIndexWith self.old s c sites → row_at number c.freed ≡ Some places.now → OnOk result (IsIndexWith self.new s (forgotten number c) sites) }
    {
        self.random.forget(places)?;
        Ok(())
    }

    /// Every transaction is forced: `space` is as it was before. It takes time for the segments that they took away.
    pub fn force(&mut self, space: &Space) -> Result<(), AllocError>
        ensures { (s : PoolRows) (sites : ℕ → Option Site) → IsIndexWith self.old s space.now sites → OnOk result (IsIndexWith self.new s (forced space.now) sites) }
    {
        self.random.force(space)?;
        Ok(())
    }

    // ---- rows

    /// A segment of a copy comes. Its volume is to be looked at, once the transaction's other segments came and went. Where the volume isn't
    /// there, no segment comes.
    pub fn put_copy(&mut self, segment: &Segment) -> Result<(), AllocError>
        ensures missing { (s : PoolRows) (c : Claims) (sites : ℕ → Option Site) → IsIndexWith self.old s c sites → row_at segment.now.file s.volumes ≡ None → OnOk result (IsIndexWith self.new s c sites) }
        ensures comes { (s t : PoolRows) (c : Claims) (sites : ℕ → Option Site) (object : ℕ) → IsIndexWith self.old s c sites → put_segment object segment.now s ≡ Ok t → OnOk result (IsIndexWith self.new t c sites) }
    {
        self.random.put_copy(segment)?;
        Ok(())
    }

    /// A segment of a copy goes. Its volume is to be looked at, once the transaction's other segments came and went. Where the volume isn't
    /// there, no segment goes.
    pub fn take_copy(&mut self, segment: &Segment) -> Result<(), AllocError>
        ensures missing { (s : PoolRows) (c : Claims) (sites : ℕ → Option Site) → IsIndexWith self.old s c sites → row_at segment.now.file s.volumes ≡ None → OnOk result (IsIndexWith self.new s c sites) }
        ensures goes { (s t : PoolRows) (c : Claims) (sites : ℕ → Option Site) (object today : ℕ) → IsIndexWith self.old s c sites → take_segment object segment.now today s ≡ Ok t → OnOk result (IsIndexWith self.new t c sites) }
    {
        self.random.take_copy(segment)?;
        Ok(())
    }

    /// A volume is none of random access now: it went, or one that is sequential has its number. It is to be looked at.
    pub fn set_aside(&mut self, file: u32) -> Result<(), AllocError>
        ensures { (s t : PoolRows) (c : Claims) (sites : ℕ → Option Site) → IsIndexWith self.old s c sites → ChangesAt file s t → shape_at t file ≡ None → OnOk result (IsIndexWith self.new t c sites) }
    {
        self.random.set_aside(file)?;
        Ok(())
    }

    /// A volume is listed as it stands in these rows.
    pub fn look_at(&mut self, pools: &Pools, file: u32) -> Result<(), AllocError>
        ensures { (s : PoolRows) (c : Claims) (sites others : ℕ → Option Site) → IsIndexWith self.old s c sites → AreElse file sites others → others file ≡ base_at pools.now c.tickets file → OnOk result (IsIndexWith self.new s c others) }
    {
        let site = self.tails.base_at(pools, file);
        self.tails.set(file, site)?;
        Ok(())
    }

    /// A segment of a copy came, and no other did: these are the rows behind it.
    pub fn put_copy_in(&mut self, pools: &Pools, segment: &Segment) -> Result<(), AllocError>
        ensures { (s : PoolRows) (c : Claims) (object : ℕ) → IsIndexOf self.old s c → put_segment object segment.now s ≡ Ok pools.now → OnOk result (IsIndexOf self.new pools.now c) }
    {
        self.put_copy(segment)?;
        self.look_at(pools, segment.file)?;
        Ok(())
    }

    /// A segment of a copy went, and no other did: these are the rows behind it.
    pub fn take_copy_in(&mut self, pools: &Pools, segment: &Segment) -> Result<(), AllocError>
        ensures { (s : PoolRows) (c : Claims) (object today : ℕ) → IsIndexOf self.old s c → take_segment object segment.now today s ≡ Ok pools.now → OnOk result (IsIndexOf self.new pools.now c) }
    {
        self.take_copy(segment)?;
        self.look_at(pools, segment.file)?;
        Ok(())
    }

    /// A volume goes: these are the rows behind it.
    pub fn remove_volume(&mut self, pools: &Pools, file: u32) -> Result<(), AllocError>
        ensures { (s : PoolRows) (c : Claims) → IsIndexOf self.old s c → ChangesAt file s pools.now → row_at file pools.now.volumes ≡ None → OnOk result (IsIndexOf self.new pools.now c) }
    {
        self.random.remove_volume(file)?;
        self.look_at(pools, file)?;
        Ok(())
    }

    /// Whether no ticket has space.
    pub fn is_unheld(&self) -> bool
        ensures { (s : PoolRows) (c : Claims) (sites : ℕ → Option Site) → IsIndexWith self.now s c sites → result ≡ true → (file : ℕ) → pool_on file c.tickets ≡ None }
    {
        self.tails.held.is_empty()
    }

    /// A volume's access changes, and no segment on it: these are the rows behind it.
    pub fn set_volume_access(
        &mut self,
        pools: &Pools,
        file: u32,
        access: &Access,
    ) -> Result<(), AllocError>
        ensures { (s : PoolRows) (c : Claims) → IsIndexOf self.old s c → ChangesAt file s pools.now → IsAccessOf access.now (row_at file s.volumes) (row_at file pools.now.volumes) → OnOk result (IsIndexOf self.new pools.now c) }
    {
        self.random.set_volume_access(file, access)?;
        self.look_at(pools, file)?;
        Ok(())
    }

    /// A sequential volume comes, or changes: these are the rows behind it.
    pub fn set_sequential_volume(&mut self, pools: &Pools, file: u32) -> Result<(), AllocError>
        ensures { (s : PoolRows) (c : Claims) → IsIndexOf self.old s c → ChangesAt file s pools.now → shape_at s file ≡ None → shape_at pools.now file ≡ None → OnOk result (IsIndexOf self.new pools.now c) }
    {
        self.look_at(pools, file)?;
        Ok(())
    }

    /// A volume of random access comes, on which nothing but its copies uses blocks: these are the rows behind it. It takes time for its
    /// blocks and copies.
    pub fn add_volume(
        &mut self,
        pools: &Pools,
        file: u32,
        volume: &Volume,
    ) -> Result<(), AllocError>
        ensures { (s : PoolRows) (c : Claims) → IsIndexOf self.old s c → ChangesAt file s pools.now → row_at file s.volumes ≡ None → row_at file pools.now.volumes ≡ Some volume.now → is_sequential volume.now.pool pools.now ≡ false → ((k : ℕ) → claims_reach c file k ≡ 0)
            → OnOk result (IsIndexOf self.new pools.now c) }
    {
        self.random.add_volume(file, volume)?;
        self.look_at(pools, file)?;
        Ok(())
    }
}
