//! The memory for what may be told of that which a transaction may touch.
ghost use Rattle.std.specs.Prelude.{◌≡◌, ℕ, List, true, IfErr, OnOk};
ghost use Rattle.std.specs.List.{AllByRecursion};
ghost use Rattle.std.specs.Ordering.{nat_cmp};
ghost use Rattle.kinds.specs.declared.refusal.Refusal.TheVariants.{Memory};
ghost use Rattle.run_past.specs.Told.{has_key, has_path, pair_cmp, told_at, told_of_path};

use crate::emptied::{self, Emptied};
use crate::ledger::make_room;
use crate::prepared::PathAt;
use inventory_rows::version_groups::Version;
use kinds::Refusal;
use std::alloc::Global;
use std::collections::BTreeMap;

/// Memory for what may be told of each object.
pub(crate) fn for_objects(
    map: &mut BTreeMap<u64, Option<u64>>,
    versions: &[Version],
) -> Result<(), Refusal>
    ensures same { (q : ℕ) → told_at (nat_cmp q) map.new.entries ≡ told_at (nat_cmp q) map.old.entries }
    ensures room { OnOk result (AllByRecursion (λ w. has_key (nat_cmp w.object) map.new.entries ≡ true) versions.now) }
    ensures memory { IfErr result (λ e. e ≡ Memory) }
{
    'versions: for version in versions {
        make_room(map, version.object)?;
    }
    Ok(())
}

/// Memory for what may be told of each copy of an object.
fn for_copies_of(
    map: &mut BTreeMap<(u64, u32), Option<u64>>,
    version: &Version,
) -> Result<(), Refusal>
    ensures same { (q : ℕ × ℕ) → told_at (pair_cmp q) map.new.entries ≡ told_at (pair_cmp q) map.old.entries }
    ensures keeps { (q : ℕ × ℕ) → has_key (pair_cmp q) map.old.entries ≡ true → has_key (pair_cmp q) map.new.entries ≡ true }
    ensures room { OnOk result (AllByRecursion (λ c. has_key (pair_cmp (version.now.object, c.pool)) map.new.entries ≡ true) version.now.copies) }
    ensures memory { IfErr result (λ e. e ≡ Memory) }
{
    let copies = version.copies.as_slice();
    'copies: for copy in copies {
        make_room(map, (version.object, copy.pool))?;
    }
    Ok(())
}

/// Memory for what may be told of each copy of each object.
pub(crate) fn for_copies(
    map: &mut BTreeMap<(u64, u32), Option<u64>>,
    versions: &[Version],
) -> Result<(), Refusal>
    ensures same { (q : ℕ × ℕ) → told_at (pair_cmp q) map.new.entries ≡ told_at (pair_cmp q) map.old.entries }
    ensures room { OnOk result (AllByRecursion (λ w. AllByRecursion (λ c. has_key (pair_cmp (w.object, c.pool)) map.new.entries ≡ true) w.copies) versions.now) }
    ensures memory { IfErr result (λ e. e ≡ Memory) }
{
    'versions: for version in versions {
        for_copies_of(map, version)?;
    }
    Ok(())
}

/// Memory for what may be told of each path.
pub(crate) fn for_paths(
    alloc: Global,
    map: &mut BTreeMap<u32, Emptied>,
    paths: &[PathAt],
) -> Result<(), Refusal>
    ensures same { (f : ℕ) (p : List ℕ) → told_of_path f p map.new.entries ≡ told_of_path f p map.old.entries }
    ensures room { OnOk result (AllByRecursion (λ x. has_path x.filespace x.path map.new.entries ≡ true) paths.now) }
    ensures memory { IfErr result (λ e. e ≡ Memory) }
{
    'paths: for path in paths {
        emptied::make_room(alloc, map, path)?;
    }
    Ok(())
}
