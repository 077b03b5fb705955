// What tickets hold, volume by volume.
ghost use Rattle.std.specs.Prelude.{◌≡◌, ◌≢◌, ℕ, Some, None, List, [], OnOk};
ghost use Rattle.pool_tables.specs.Rows.{row_at};
ghost use Rattle.space.specs.declared.claims.Claim.{Claim};
ghost use Rattle.space.specs.declared.places.Placed.{Placed};
ghost use Rattle.space_index.specs.Claimed.{frame_end, IsOneMore, IsHeldBy, IsHeldAt, AreHeld, lone, is_lone, with_held};
ghost use Rattle.space_index.specs.Listed.{IsSetAt};

use crate::bag::Bag;
use crate::lost::Lost;
use kinds::Segment;
use space::{Placed, Site};
use std::alloc::{AllocError, Global};
use std::collections::BTreeMap;

/// What tickets hold on one volume.
#[derive(Drop)]
pub struct Held {
    /// The number of the pool that all places there name.
    pub(crate) pool: u32,
    /// The numbers of the actors whose tickets have the places.
    pub(crate) actors: Bag,
    /// Where the frames of the places end, in bytes.
    pub(crate) ends: Bag,
}

fn frame_end(segment: &Segment) -> u128
    ensures { result ≡ frame_end segment.now }
{
    u128::from(segment.offset) + 32 + u128::from(segment.len)
}

impl Held {
    fn new(alloc: Global, pool: u32) -> Self
        ensures actors { result.actors ≡ [] }
        ensures ends { result.ends ≡ [] }
        ensures pool { result.pool ≡ pool }
    {
        Held {
            pool,
            actors: Bag::new(alloc),
            ends: Bag::new(alloc),
        }
    }

    /// A place more is held.
    fn put(&mut self, actor: u32, place: &Placed) -> Result<(), Lost>
        ensures { (less more : List (ℕ × Claim)) → IsHeldBy place.now.segment.file less self.old → IsOneMore actor place.now less more → OnOk result (IsHeldAt place.now.segment.file more (Some self.new)) }
    {
        if place.pool != self.pool {
            return Err(Lost::Kind);
        }
        self.actors.put(u128::from(actor))?;
        self.ends.put(frame_end(&place.segment))?;
        Ok(())
    }

    /// A place fewer is held.
    fn take(&mut self, actor: u32, segment: &Segment) -> Result<(), AllocError>
        ensures { (place : Placed) (less more : List (ℕ × Claim)) → place.segment ≡ segment.now → IsHeldBy segment.now.file more self.old → IsOneMore actor place less more → OnOk result (IsHeldBy segment.now.file less self.new) }
    {
        self.actors.take(u128::from(actor))?;
        self.ends.take(frame_end(segment))?;
        Ok(())
    }

    /// The one actor whose tickets have all the places.
    pub(crate) fn lone(&self) -> Option<u128>
        ensures { result ≡ lone self.now.actors }
    {
        self.actors.lone()
    }

    /// Whether all places are this actor's.
    pub(crate) fn is_lone(&self, actor: u128) -> bool
        ensures { result ≡ is_lone actor self.now }
    {
        match self.lone() {
            Some(number) => number == actor,
            None => false,
        }
    }

    /// The volume with the places as if they were copies there already.
    pub(crate) fn on(&self, site: Site) -> Site
        ensures { result ≡ with_held self.now site }
    {
        Site {
            pool: site.pool,
            scratch: site.scratch,
            is_writable: site.is_writable,
            capacity: site.capacity,
            end: site.end.max(self.ends.greatest()),
            is_bare: false,
        }
    }
}

/// What is held on a volume is taken out.
fn take_out(held: &mut BTreeMap<u32, Held>, file: u32) -> Option<Held>
    ensures gone { IsSetAt file None held.old.entries held.new.entries }
    ensures was { result ≡ row_at file held.old.entries }
{
    held.remove(&file)
}

/// What is held on a volume is taken out, or nothing is.
fn held_on(alloc: Global, held: &mut BTreeMap<u32, Held>, file: u32, pool: u32) -> Held
    ensures gone { IsSetAt file None held.old.entries held.new.entries }
    ensures was { (tickets : List (ℕ × Claim)) → AreHeld held.old.entries tickets → IsHeldBy file tickets result }
{
    match take_out(held, file) {
        Some(it) => it,
        None => Held::new(alloc, pool),
    }
}

/// This is held on a volume now.
fn keep(held: &mut BTreeMap<u32, Held>, file: u32, it: Held) -> Result<(), AllocError>
    ensures { OnOk result (IsSetAt file (Some it) held.old.entries held.new.entries) }
{
    held.insert(file, it)?;
    Ok(())
}

/// A place more is held.
pub fn put_place(
    alloc: Global,
    held: &mut BTreeMap<u32, Held>,
    actor: u32,
    place: &Placed,
) -> Result<(), Lost>
    ensures counts { (less more : List (ℕ × Claim)) → AreHeld held.old.entries less → IsOneMore actor place.now less more → OnOk result (AreHeld held.new.entries more) }
    ensures others { OnOk result ((q : ℕ) → q ≢ place.now.segment.file → row_at q held.new.entries ≡ row_at q held.old.entries) }
{
    let file = place.segment.file;
    let mut it = held_on(alloc, held, file, place.pool);
    it.put(actor, place)?;
    keep(held, file, it)?;
    Ok(())
}

/// A place fewer is held.
pub fn take_place(
    held: &mut BTreeMap<u32, Held>,
    actor: u32,
    segment: &Segment,
) -> Result<(), AllocError>
    ensures counts { (place : Placed) (less more : List (ℕ × Claim)) → place.segment ≡ segment.now → AreHeld held.old.entries more → IsOneMore actor place less more → OnOk result (AreHeld held.new.entries less) }
    ensures others { OnOk result ((q : ℕ) → q ≢ segment.now.file → row_at q held.new.entries ≡ row_at q held.old.entries) }
{
    let file = segment.file;
    let Some(mut it) = take_out(held, file) else {
        return Ok(());
    };
    it.take(actor, segment)?;
    if it.actors.is_empty() {
        return Ok(());
    }
    keep(held, file, it)?;
    Ok(())
}
