//! What is asked of device classes.

ghost use Rattle.std.specs.Prelude.{◌≡◌, is_some};
ghost use Rattle.std.specs.List.{list_all, list_any};
ghost use Rattle.kinds.specs.Names.{is_same_name};
ghost use Rattle.inventory_rows.specs.State.{inv_of};
ghost use Rattle.inventory_rules.specs.Valid.{classes_are, disk, is_class};

use inventory_rows::Tables;
use inventory_rows::pool_rows::Pools;
use kinds::{Capacity, Name};

fn is_disk(class: &Name) -> bool
    ensures { result ≡ is_same_name disk class.now }
{
    b"DISK".as_slice() == class.as_bytes()
}

fn has_disk(pools: &Pools) -> bool
    ensures { result ≡ list_any (λ c. is_same_name disk c.0) pools.now.classes }
{
    'classes: for (class, _) in pools.classes() {
        if is_disk(class) {
            return true;
        }
    }
    false
}

fn is_class(class: &Name, capacity: Option<Capacity>) -> bool
    ensures { result ≡ is_class (class.now, capacity) }
{
    if is_disk(class) {
        capacity.is_none()
    } else {
        capacity.is_some()
    }
}

fn each_is_class(pools: &Pools) -> bool
    ensures { result ≡ list_all is_class pools.now.classes }
{
    'classes: for (class, capacity) in pools.classes() {
        if !is_class(class, *capacity) {
            return false;
        }
    }
    true
}

/// Whether the class DISK is there, and it alone has no capacity.
#[tactic(auto, using(crate::proofs::ClassNames::disk_there))]
pub fn classes_are(tables: &Tables) -> bool
    ensures { result ≡ classes_are (inv_of tables.now) }
{
    has_disk(&tables.pools) && each_is_class(&tables.pools)
}
