//! How the index follows a transaction.
ghost use Rattle.std.specs.Prelude.{◌≡◌, ◌⊎◌, ℕ, None, Option, List, [], ◌∷◌, ◌++◌, map, OnOk};
ghost use Rattle.std.specs.List.{flat_map};
ghost use Rattle.entries.specs.declared.change.Change.TheVariants.{Pool, Reuse};
ghost use Rattle.kinds.specs.declared.change.PoolChange.TheVariants.{Volume};
ghost use Rattle.kinds.specs.declared.change.Verb.TheVariants.{Update};
ghost use Rattle.kinds.specs.declared.segment.Segment.{Segment};
ghost use Rattle.entries.specs.change_items.declared.items.ScratchVolume.{ScratchVolume};
ghost use Rattle.inventory_rows.specs.State.{Inv};
ghost use Rattle.inventory_rules.specs.Transactions.{effect};
ghost use Rattle.pool_rows.specs.PoolRows.{PoolRows, is_sequential};
ghost use Rattle.space.specs.declared.site.Site.{Site};
ghost use Rattle.space.specs.Claims.{Claims};
ghost use Rattle.space_index.specs.Claimed.{pool_on};
ghost use Rattle.space_index.specs.Tails.{IsIndexOf, IsIndexWith};
ghost use Rattle.kept_index.specs.Following.{AreLeaving, IsUnderway, Remains};
ghost use Rattle.kept_index.specs.Steps.{AllLie, IsLegalOn, gone, is_elsewhere, named_by, named_in, of_object, only_takes, puts, scratches, takes};
ghost use Rattle.kept_index.specs.Kept.{IsIndexed};

use crate::volumes::{define_volume, delete_volume, set_access};
use entries::Change;
use entries::change_items::{MovedCopy, NewCopy, NewHeldObject, NewVersion, ScratchVolume};
use kinds::{Access, PoolChange, Segment, Verb};
use pool_rows::Pools;
use space::{Placed, Space};
use space_index::{Index, Lost};

/// An item of a change that brings a copy of an object.
trait Brings {
    /// The object, and the copy's segments.
    ghost brought: { Self → ℕ × List Segment };

    /// The object.
    fn object(&self) -> u64
        ensures { result ≡ (brought self.now).0 };

    /// The copy's segments.
    fn segments(&self) -> &[Segment]
        ensures { result.now ≡ (brought self.now).1 };
}

impl Brings for NewVersion {
    ghost brought = { λ i. (i.object, i.segments) };

    fn object(&self) -> u64 {
        self.object
    }

    fn segments(&self) -> &[Segment] {
        self.segments.as_slice()
    }
}

impl Brings for NewHeldObject {
    ghost brought = { λ i. (i.object, i.segments) };

    fn object(&self) -> u64 {
        self.object
    }

    fn segments(&self) -> &[Segment] {
        self.segments.as_slice()
    }
}

impl Brings for NewCopy {
    ghost brought = { λ i. (i.object, i.segments) };

    fn object(&self) -> u64 {
        self.object
    }

    fn segments(&self) -> &[Segment] {
        self.segments.as_slice()
    }
}

impl Brings for MovedCopy {
    ghost brought = { λ i. (i.object, i.segments) };

    fn object(&self) -> u64 {
        self.object
    }

    fn segments(&self) -> &[Segment] {
        self.segments.as_slice()
    }
}

/// A scratch volume is made for a sequential pool.
fn make_scratch(index: &mut Index, pools: &Pools, volume: &ScratchVolume) -> Result<(), Lost>
    ensures { (c : Claims) (full : PoolRows) (xs : List ScratchVolume) (es : List (ℕ × Segment)) → Remains index.old c (volume.now ∷ xs) es full pools.now → OnOk result (Remains index.new c xs es full pools.now) }
{
    if !pools.is_sequential(volume.pool) {
        return Err(Lost::Kind);
    }
    index.set_aside(volume.file)?;
    index.look_at(pools, volume.file)?;
    Ok(())
}

fn make_all(index: &mut Index, pools: &Pools, scratch: &[ScratchVolume]) -> Result<(), Lost>
    ensures { (c : Claims) (full : PoolRows) (es : List (ℕ × Segment)) → Remains index.old c scratch.now es full pools.now → OnOk result (Remains index.new c [] es full pools.now) }
{
    'volumes: for volume in scratch {
        make_scratch(index, pools, volume)?;
    }
    Ok(())
}

/// A segment of an object comes, where its volume is there.
fn put_one(index: &mut Index, pools: &Pools, object: u64, segment: &Segment) -> Result<(), Lost>
    ensures { (c : Claims) (full : PoolRows) (es : List (ℕ × Segment)) → Remains index.old c [] ((object, segment.now) ∷ es) full pools.now → OnOk result (Remains index.new c [] es full pools.now) }
{
    index.put_copy(segment)?;
    index.look_at(pools, segment.file)?;
    Ok(())
}

fn put_all(index: &mut Index, pools: &Pools, object: u64, segments: &[Segment]) -> Result<(), Lost>
    ensures { (c : Claims) (full : PoolRows) (es : List (ℕ × Segment)) → Remains index.old c [] (of_object (object, segments.now) ++ es) full pools.now → OnOk result (Remains index.new c [] es full pools.now) }
{
    'segments: for segment in segments {
        put_one(index, pools, object, segment)?;
    }
    Ok(())
}

fn put_items<I: Brings>(index: &mut Index, pools: &Pools, items: &[I]) -> Result<(), Lost>
    ensures { (c : Claims) (full : PoolRows) → Remains index.old c [] (flat_map (λ i. of_object (I.brought i)) items.now) full pools.now → OnOk result (Remains index.new c [] [] full pools.now) }
{
    'items: for item in items {
        put_all(index, pools, item.object(), item.segments())?;
    }
    Ok(())
}

/// Scratch volumes are made, and then copies come.
fn bring<I: Brings>(
    index: &mut Index,
    pools: &Pools,
    scratch: &[ScratchVolume],
    items: &[I],
) -> Result<(), Lost>
    ensures { (s full : PoolRows) (c : Claims) → IsUnderway index.old c s pools.now → puts (flat_map (λ i. of_object (I.brought i)) items.now) (scratches scratch.now s) ≡ full → ((pool : ℕ) → is_sequential pool pools.now ≡ is_sequential pool full)
        → OnOk result (IsUnderway index.new c full pools.now) }
{
    make_all(index, pools, scratch)?;
    put_items(index, pools, items)?;
    Ok(())
}

/// A segment of an object goes, where its volume is there.
fn take_one(index: &mut Index, pools: &Pools, segment: &Segment) -> Result<(), Lost>
    ensures { (c : Claims) (today object : ℕ) (es : List (ℕ × Segment)) → AreLeaving index.old c today ((object, segment.now) ∷ es) pools.now → OnOk result (AreLeaving index.new c today es pools.now) }
{
    index.take_copy(segment)?;
    index.look_at(pools, segment.file)?;
    Ok(())
}

/// Segments go, each from its volume, whatever their objects are.
fn take_all(index: &mut Index, pools: &Pools, taken: &[Placed]) -> Result<(), Lost>
    ensures { (c : Claims) (today : ℕ) (es : List (ℕ × Segment)) → map (λ e. e.1) es ≡ map (λ p. p.segment) taken.now → AreLeaving index.old c today es pools.now → OnOk result (AreLeaving index.new c today [] pools.now) }
{
    'taken: for place in taken {
        take_one(index, pools, &place.segment)?;
    }
    Ok(())
}

/// The change leaves pools and volumes as they are.
fn is_elsewhere(change: &Change) -> bool
    ensures { result ≡ is_elsewhere change.now }
{
    match change {
        Change::Day { .. }
        | Change::Policy(_)
        | Change::Object(_)
        | Change::Rebind(_)
        | Change::Gone(_)
        | Change::DbBegin { .. }
        | Change::DbEnd { .. }
        | Change::DbDelete { .. } => true,
        _ => false,
    }
}

/// The change takes segments from their volumes, and does nothing else to pools and volumes.
fn only_takes(change: &Change) -> bool
    ensures { result ≡ only_takes change.now }
{
    match change {
        Change::Expire(_) | Change::Discard(_) | Change::DropCopies(_) => true,
        _ => false,
    }
}

/// Scratch volumes are made, new segments of all copies that move come, and then those that they leave go.
fn move_all(
    index: &mut Index,
    pools: &Pools,
    scratch: &[ScratchVolume],
    items: &[MovedCopy],
    taken: &[Placed],
) -> Result<(), Lost>
    ensures { (s full : PoolRows) (c : Claims) (today : ℕ) (es : List (ℕ × Segment)) → IsUnderway index.old c s pools.now → puts (flat_map (λ i. of_object (i.object, i.segments)) items.now) (scratches scratch.now s) ≡ full
        → map (λ e. e.1) es ≡ map (λ p. p.segment) taken.now → AllLie today es full → takes today es full ≡ pools.now → OnOk result (AreLeaving index.new c today [] pools.now) }
{
    bring(index, pools, scratch, items)?;
    take_all(index, pools, taken)?;
    Ok(())
}

/// The index behind a transaction that brings copies.
fn follow_brought(index: &mut Index, change: &Change, pools: &Pools) -> Result<(), Lost>
    ensures { (v : Inv) (c : Claims) → IsIndexOf index.old v.stores c → pools.now ≡ (effect change.now v).stores → OnOk result (IsIndexOf index.new pools.now c) }
{
    match change {
        Change::Backup(it) => bring(index, pools, it.scratch.as_slice(), it.items.as_slice()),
        Change::Hold(it) => bring(index, pools, it.scratch.as_slice(), it.items.as_slice()),
        Change::Copy(it) => bring(index, pools, it.scratch.as_slice(), it.items.as_slice()),
        _ => Err(Lost::Kind),
    }
}

/// The index behind a transaction that moves copies.
fn follow_moved(
    index: &mut Index,
    change: &Change,
    taken: &[Placed],
    pools: &Pools,
) -> Result<(), Lost>
    ensures { (v : Inv) (c : Claims) → IsIndexOf index.old v.stores c → IsLegalOn change.now v → map (λ p. p.segment) taken.now ≡ gone change.now v → pools.now ≡ (effect change.now v).stores → OnOk result (IsIndexOf index.new pools.now c) }
{
    match change {
        Change::Move(it) => move_all(
            index,
            pools,
            it.scratch.as_slice(),
            it.items.as_slice(),
            taken,
        ),
        _ => follow_brought(index, change, pools),
    }
}

/// The index behind a change of a volume: one that is defined has this file number, and else it was named.
fn follow_volume(
    index: &mut Index,
    verb: Verb,
    file: u32,
    access: &Access,
    named: Option<u32>,
    pools: &Pools,
    space: &Space,
) -> Result<(), Lost>
    ensures { (name : List ℕ) (pool capacity : ℕ) (v : Inv) → IsIndexOf index.old v.stores space.now → IsLegalOn (Pool (Volume verb name pool file capacity access.now)) v → named ≡ named_in (Volume verb name pool file capacity access.now) v.stores
        → pools.now ≡ (effect (Pool (Volume verb name pool file capacity access.now)) v).stores → OnOk result (IsIndexOf index.new pools.now space.now) }
{
    match verb {
        Verb::Define => define_volume(index, pools, space, file),
        Verb::Update => set_access(index, pools, named, access),
        Verb::Delete => delete_volume(index, pools, named),
    }
}

/// The index behind a change of a storage pool: where one is defined or deleted, nothing is to be held, since a scratch volume that a ticket has
/// drawn is as large as those of its pool.
fn follow_pool(index: &mut Index, verb: Verb) -> Result<(), Lost>
    ensures index { index.new ≡ index.old }
    ensures held { OnOk result ((verb ≡ Update) ⊎ ((s : PoolRows) (c : Claims) (sites : ℕ → Option Site) → IsIndexWith index.old s c sites → (file : ℕ) → pool_on file c.tickets ≡ None)) }
{
    match verb {
        Verb::Update => Ok(()),
        Verb::Define | Verb::Delete => {
            if index.is_unheld() {
                Ok(())
            } else {
                Err(Lost::Kind)
            }
        }
    }
}

/// The index behind a change of device classes, storage pools and volumes. Only that of a volume changes what volumes are.
fn follow_stores(
    index: &mut Index,
    change: &PoolChange,
    named: Option<u32>,
    pools: &Pools,
    space: &Space,
) -> Result<(), Lost>
    ensures { (v : Inv) → IsIndexOf index.old v.stores space.now → IsLegalOn (Pool change.now) v → named ≡ named_in change.now v.stores → pools.now ≡ (effect (Pool change.now) v).stores → OnOk result (IsIndexOf index.new pools.now space.now) }
{
    match change {
        PoolChange::DevClass { .. } => Ok(()),
        PoolChange::Pool { verb, .. } => follow_pool(index, *verb),
        PoolChange::Volume {
            verb,
            file,
            access,
            ..
        } => follow_volume(index, *verb, *file, access, named, pools, space),
    }
}

/// The index behind the reuse of a sequential volume.
fn follow_reused(index: &mut Index, file: u32, pools: &Pools) -> Result<(), Lost>
    ensures { (v : Inv) (c : Claims) → IsIndexOf index.old v.stores c → IsLegalOn (Reuse file) v → pools.now ≡ (effect (Reuse file) v).stores → OnOk result (IsIndexOf index.new pools.now c) }
{
    index.set_sequential_volume(pools, file)?;
    Ok(())
}

/// The index behind a transaction with this change, which named this volume and took these segments away.
fn follow(
    index: &mut Index,
    change: &Change,
    named: Option<u32>,
    taken: &[Placed],
    pools: &Pools,
    space: &Space,
) -> Result<(), Lost>
    ensures { (v : Inv) → IsIndexOf index.old v.stores space.now → IsLegalOn change.now v → named ≡ named_by change.now v.stores → map (λ p. p.segment) taken.now ≡ gone change.now v → pools.now ≡ (effect change.now v).stores → OnOk result (IsIndexOf index.new pools.now space.now) }
{
    if is_elsewhere(change) {
        return Ok(());
    }
    if only_takes(change) {
        return take_all(index, pools, taken);
    }
    match change {
        Change::Pool(it) => follow_stores(index, it, named, pools, space),
        Change::Reuse { file } => follow_reused(index, *file, pools),
        _ => follow_moved(index, change, taken, pools),
    }
}

/// The index of the rows behind a transaction with this change, which named this volume and took these segments away; or none.
pub fn followed(
    index: Index,
    change: &Change,
    named: Option<u32>,
    taken: &[Placed],
    pools: &Pools,
    space: &Space,
) -> Option<Index>
    ensures { (v : Inv) → IsIndexOf index v.stores space.now → IsLegalOn change.now v → named ≡ named_by change.now v.stores → map (λ p. p.segment) taken.now ≡ gone change.now v → pools.now ≡ (effect change.now v).stores → IsIndexed result pools.now space.now }
{
    let mut index = index;
    match follow(&mut index, change, named, taken, pools, space) {
        Ok(()) => Some(index),
        Err(_) => None,
    }
}
