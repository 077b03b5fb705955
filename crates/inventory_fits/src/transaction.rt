//! Whether what a transaction brings fits where it comes, and what it takes away is of no use.

ghost use Rattle.std.specs.Prelude.{◌≡◌, ◌&&◌, true};
ghost use Rattle.inventory_rows.specs.State.{inv_of};
ghost use Rattle.inventory_rules.specs.Held.{IsTied};
ghost use Rattle.inventory_rules.specs.Valid.{is_valid};
ghost use Rattle.inventory_rules.specs.Copies.{moved_copy_fits, new_copy_fits};
ghost use Rattle.inventory_rules.specs.Segments.{items_fit, scratch_fits};
ghost use Rattle.inventory_rules.specs.Transactions.{parts_fit};
ghost use Rattle.inventory_rules.specs.Versions.{new_held_fits, new_version_fits};
ghost use Rattle.inventory_fits.specs.Lying.{Lying};
ghost use Rattle.inventory_fits.specs.Targets.{made};

use crate::items::items_fit;
use crate::pools::{scratch_fits, store_fits};
use entries::Change;
use entries::change_items::{MovedCopies, NewCopies, NewHeldObjects, NewVersions};
use inventory_rows::Tables;

fn versions_fit(tables: &Tables, versions: &NewVersions) -> bool
    requires { Lying (inv_of tables.now) }
    ensures { result ≡ (scratch_fits (inv_of tables.now) versions.now.scratch
        && items_fit new_version_fits (λ i. i.segments) versions.now.items (made versions.now.scratch (inv_of tables.now))) }
{
    scratch_fits(tables, versions.scratch.as_slice())
        && items_fit(
            tables,
            versions.scratch.as_slice(),
            versions.items.as_slice(),
        )
}

fn held_fit(tables: &Tables, objects: &NewHeldObjects) -> bool
    requires { Lying (inv_of tables.now) }
    ensures { result ≡ (scratch_fits (inv_of tables.now) objects.now.scratch
        && items_fit new_held_fits (λ i. i.segments) objects.now.items (made objects.now.scratch (inv_of tables.now))) }
{
    scratch_fits(tables, objects.scratch.as_slice())
        && items_fit(tables, objects.scratch.as_slice(), objects.items.as_slice())
}

fn moves_fit(tables: &Tables, moved: &MovedCopies) -> bool
    requires { Lying (inv_of tables.now) }
    ensures { result ≡ (scratch_fits (inv_of tables.now) moved.now.scratch
        && items_fit (moved_copy_fits moved.now.items) (λ i. i.segments) moved.now.items (made moved.now.scratch (inv_of tables.now))) }
{
    scratch_fits(tables, moved.scratch.as_slice())
        && items_fit(tables, moved.scratch.as_slice(), moved.items.as_slice())
}

fn copies_fit(tables: &Tables, copies: &NewCopies) -> bool
    requires { Lying (inv_of tables.now) }
    ensures { result ≡ (scratch_fits (inv_of tables.now) copies.now.scratch
        && items_fit new_copy_fits (λ i. i.segments) copies.now.items (made copies.now.scratch (inv_of tables.now))) }
{
    scratch_fits(tables, copies.scratch.as_slice())
        && items_fit(tables, copies.scratch.as_slice(), copies.items.as_slice())
}

#[tactic(auto, unfolding(inventory_rules::specs::Transactions::parts_fit, crate::specs::Targets::made))]
fn change_fits(tables: &Tables, change: &Change) -> bool
    requires { Lying (inv_of tables.now) }
    ensures { result ≡ parts_fit change.now (inv_of tables.now) }
{
    match change {
        Change::Pool(change) => store_fits(tables, change),
        Change::Backup(versions) => versions_fit(tables, versions),
        Change::Hold(objects) => held_fit(tables, objects),
        Change::Move(moved) => moves_fit(tables, moved),
        Change::Copy(copies) => copies_fit(tables, copies),
        _ => true,
    }
}

/// Whether what a change of a valid database brings fits where it comes, and what it takes away is of no use: a pool that goes holds no copy; a
/// volume that is defined has a name, a capacity and an access that its pool's volumes may have; scratch volumes are made for sequential
/// pools; and new objects, new copies and copies that move have their pools, the bytes of their objects, and segments that lie on volumes
/// of their pools, end within them and overlap nothing but what copies that move with them leave. It takes no memory; for each new segment the
/// logarithm of what lies on its volume and as many steps as the transaction has scratch volumes and other segments, and where it comes to
/// segments that move, as many steps as the list has items for each of these.
#[tactic(auto, using(crate::proofs::Lie::lying))]
pub fn parts_fit(tables: &Tables, change: &Change) -> bool
    requires valid { is_valid (inv_of tables.now) ≡ true }
    requires tied { IsTied (inv_of tables.now) }
    ensures { result ≡ parts_fit change.now (inv_of tables.now) }
{
    change_fits(tables, change)
}
