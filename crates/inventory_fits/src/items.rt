//! Whether new objects, new copies and copies that move fit where they come.

ghost use Rattle.std.specs.Prelude.{◌≡◌, ◌&&◌, ◌||◌, not, Bool, List, []};
ghost use Rattle.std.specs.List.{list_all};
ghost use Rattle.inventory_rows.specs.Search.{is_primary};
ghost use Rattle.inventory_rows.specs.State.{Inv, inv_of};
ghost use Rattle.inventory_rules.specs.Copies.{new_copy_fits, moved_copy_fits};
ghost use Rattle.inventory_rules.specs.Segments.{items_fit};
ghost use Rattle.inventory_rules.specs.Versions.{new_held_fits, new_version_fits};
ghost use Rattle.inventory_fits.specs.Fitting.{has_primary, has_other, are_primary_in, copy_fits_at, added_fits_at, new_copy_fits_at, replaced_fits_at, moved_copy_fits_at};
ghost use Rattle.inventory_fits.specs.Lying.{Lying};
ghost use Rattle.inventory_fits.specs.Targets.{made};

use crate::overlaps::{Placed, are_all_clear};
use crate::placing::copy_fits;
use entries::change_items::{MovedCopy, NewCopy, NewHeldObject, NewVersion, ScratchVolume};
use inventory_rows::version_groups::{CopyRow, Version};
use inventory_rows::{Tables, is_primary};
use kinds::{ObjectSize, Segment};

/// What a transaction places, which has to fit.
pub(crate) trait Fitted: Placed {
    /// It fits.
    ghost fits: { List Self → Inv → Self → Bool };

    /// Whether it fits, together with these, once the scratch volumes are made.
    fn fits(&self, items: &[Self], tables: &Tables, scratch: &[ScratchVolume]) -> bool
        requires { Lying (inv_of tables.now) }
        ensures { result ≡ fits items.now (made scratch.now (inv_of tables.now)) self.now };
}

/// Whether one of the copies lies in a primary pool.
fn has_primary(tables: &Tables, copies: &[CopyRow]) -> bool
    ensures { result ≡ has_primary (inv_of tables.now) copies.now }
{
    'copies: for copy in copies {
        if is_primary(tables, copy.pool) {
            return true;
        }
    }
    false
}

/// Whether one of the copies but those in the one pool lies in the other.
fn has_other(copies: &[CopyRow], from: u32, pool: u32) -> bool
    ensures { result ≡ has_other from pool copies.now }
{
    'copies: for copy in copies {
        if copy.pool != from && copy.pool == pool {
            return true;
        }
    }
    false
}

/// Whether each of the copies that lies in a primary pool lies in this one.
fn are_primary_in(tables: &Tables, copies: &[CopyRow], from: u32) -> bool
    ensures { result ≡ are_primary_in (inv_of tables.now) from copies.now }
{
    'copies: for copy in copies {
        if is_primary(tables, copy.pool) && copy.pool != from {
            return false;
        }
    }
    true
}

fn new_object_fits(
    tables: &Tables,
    scratch: &[ScratchVolume],
    pool: u32,
    size: ObjectSize,
    segments: &[Segment],
) -> bool
    requires { Lying (inv_of tables.now) }
    ensures { result ≡ copy_fits_at [] scratch.now (inv_of tables.now) pool size segments.now }
{
    copy_fits(tables, &[], scratch, pool, size.bytes(), segments)
}

/// Whether a copy in this pool would be no second one in a primary pool.
fn is_only_primary(tables: &Tables, pool: u32, version: &Version) -> bool
    ensures { result ≡ (not (is_primary pool (inv_of tables.now)) || not (has_primary (inv_of tables.now) version.now.copies)) }
{
    !is_primary(tables, pool) || !has_primary(tables, version.copies.as_slice())
}

fn added_fits(tables: &Tables, scratch: &[ScratchVolume], item: &NewCopy, version: &Version) -> bool
    requires { Lying (inv_of tables.now) }
    ensures { result ≡ added_fits_at scratch.now (inv_of tables.now) item.now version.now }
{
    copy_fits(
        tables,
        &[],
        scratch,
        item.pool,
        version.size.bytes(),
        item.segments.as_slice(),
    ) && is_only_primary(tables, item.pool, version)
}

fn new_copy_fits(tables: &Tables, scratch: &[ScratchVolume], item: &NewCopy) -> bool
    requires { Lying (inv_of tables.now) }
    ensures { result ≡ new_copy_fits_at scratch.now (inv_of tables.now) item.now }
{
    match tables.objects.find(item.object) {
        None => false,
        Some(version) => added_fits(tables, scratch, item, version),
    }
}

/// Whether a copy that moves between these pools comes where no other copy lies, and where it is a primary pool, no other lies in one.
fn is_free(tables: &Tables, from: u32, pool: u32, version: &Version) -> bool
    ensures { result ≡ (not (has_other from pool version.now.copies) && (not (is_primary pool (inv_of tables.now)) || are_primary_in (inv_of tables.now) from version.now.copies)) }
{
    !has_other(version.copies.as_slice(), from, pool)
        && (!is_primary(tables, pool) || are_primary_in(tables, version.copies.as_slice(), from))
}

fn replaced_fits(
    tables: &Tables,
    moved: &[MovedCopy],
    scratch: &[ScratchVolume],
    item: &MovedCopy,
    version: &Version,
) -> bool
    requires { Lying (inv_of tables.now) }
    ensures { result ≡ replaced_fits_at moved.now scratch.now (inv_of tables.now) item.now version.now }
{
    copy_fits(
        tables,
        moved,
        scratch,
        item.pool,
        version.size.bytes(),
        item.segments.as_slice(),
    ) && is_free(tables, item.from, item.pool, version)
}

fn moved_copy_fits(
    tables: &Tables,
    moved: &[MovedCopy],
    scratch: &[ScratchVolume],
    item: &MovedCopy,
) -> bool
    requires { Lying (inv_of tables.now) }
    ensures { result ≡ moved_copy_fits_at moved.now scratch.now (inv_of tables.now) item.now }
{
    match tables.objects.find(item.object) {
        None => false,
        Some(version) => replaced_fits(tables, moved, scratch, item, version),
    }
}

impl Placed for NewVersion {
    ghost segments = { λ i. i.segments };

    fn segments(&self) -> &[Segment] {
        self.segments.as_slice()
    }
}

impl Fitted for NewVersion {
    ghost fits = { λ items. new_version_fits };

    fn fits(&self, _items: &[NewVersion], tables: &Tables, scratch: &[ScratchVolume]) -> bool {
        let segments = self.segments.as_slice();
        new_object_fits(tables, scratch, self.pool, self.size, segments)
    }
}

impl Placed for NewHeldObject {
    ghost segments = { λ i. i.segments };

    fn segments(&self) -> &[Segment] {
        self.segments.as_slice()
    }
}

impl Fitted for NewHeldObject {
    ghost fits = { λ items. new_held_fits };

    fn fits(&self, _items: &[NewHeldObject], tables: &Tables, scratch: &[ScratchVolume]) -> bool {
        let segments = self.segments.as_slice();
        new_object_fits(tables, scratch, self.pool, self.size, segments)
    }
}

impl Placed for NewCopy {
    ghost segments = { λ i. i.segments };

    fn segments(&self) -> &[Segment] {
        self.segments.as_slice()
    }
}

impl Fitted for NewCopy {
    ghost fits = { λ items. new_copy_fits };

    fn fits(&self, _items: &[NewCopy], tables: &Tables, scratch: &[ScratchVolume]) -> bool {
        new_copy_fits(tables, scratch, self)
    }
}

impl Placed for MovedCopy {
    ghost segments = { λ i. i.segments };

    fn segments(&self) -> &[Segment] {
        self.segments.as_slice()
    }
}

impl Fitted for MovedCopy {
    ghost fits = { moved_copy_fits };

    fn fits(&self, items: &[MovedCopy], tables: &Tables, scratch: &[ScratchVolume]) -> bool {
        moved_copy_fits(tables, items, scratch, self)
    }
}

fn each_fits<T: Fitted>(tables: &Tables, scratch: &[ScratchVolume], items: &[T]) -> bool
    requires { Lying (inv_of tables.now) }
    ensures { result ≡ list_all (T.fits items.now (made scratch.now (inv_of tables.now))) items.now }
{
    'items: for item in items {
        if !item.fits(items, tables, scratch) {
            return false;
        }
    }
    true
}

/// Whether each item fits once the scratch volumes are made, and no two of the new segments overlap.
pub(crate) fn items_fit<T: Fitted>(tables: &Tables, scratch: &[ScratchVolume], items: &[T]) -> bool
    requires { Lying (inv_of tables.now) }
    ensures { result ≡ items_fit (T.fits items.now) T.segments items.now (made scratch.now (inv_of tables.now)) }
{
    each_fits(tables, scratch, items) && are_all_clear(tables, scratch, items)
}
