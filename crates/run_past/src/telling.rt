//! What a transaction did is told, by what stood before it and what stands behind it.
ghost use Rattle.std.specs.Prelude.{◌≡◌, ℕ, List, true};
ghost use Rattle.std.specs.List.{AllByRecursion};
ghost use Rattle.std.specs.Option.{option_copied};
ghost use Rattle.std.specs.Ordering.{nat_cmp};
ghost use Rattle.inventory_rows.specs.Search.{copy_in};
ghost use Rattle.inventory_rows.specs.State.{inv_of};
ghost use Rattle.inventory_rules.specs.Run.{are_same_copies, differs_from};
ghost use Rattle.run_past.specs.Telling.{any_copy, any_copy_of, any_differs, any_emptied, any_gone, copy_differs, copy_differs_in, differs_now};
ghost use Rattle.run_past.specs.Told.{has_key, has_path, now_or, pair_cmp, told_at, told_of_path};

use crate::emptied::{self, Emptied};
use crate::ledger::tell;
use crate::prepared::PathAt;
use inventory_rows::Tables;
use inventory_rows::version_groups::{CopyRow, Version};
use std::collections::BTreeMap;

/// Whether the copies are in the same pools, placed by the same transactions.
fn are_same_copies(old: &[CopyRow], new: &[CopyRow]) -> bool
    ensures { result ≡ are_same_copies old.now new.now }
{
    match old {
        [] => match new {
            [] => true,
            [_, ..] => false,
        },
        [a, olds @ ..] => match new {
            [] => false,
            [b, news @ ..] => {
                a.pool == b.pool && a.placed == b.placed && are_same_copies(olds, news)
            }
        },
    }
}

fn differs_from(old: &Version, new: &Version) -> bool
    ensures { result ≡ differs_from old.now new.now }
{
    let same_day = old.since == new.since;
    !(same_day && are_same_copies(old.copies.as_slice(), new.copies.as_slice()))
}

/// The object isn't there, is inactive since another day, or has other copies.
fn differs_now(old: &Version, now: Option<&Version>) -> bool
    ensures { result ≡ differs_now old.now (option_copied now.entry) }
{
    match now {
        None => true,
        Some(new) => differs_from(old, new),
    }
}

/// The copy of a version in a pool.
fn copy_in<'a>(pool: u32, version: &'a Version) -> Option<&'a CopyRow>
    ensures { option_copied result ≡ copy_in pool version.now }
{
    version
        .copies
        .as_slice()
        .iter()
        .find(|copy| copy.pool == pool)
}

/// A copy isn't there any more, or was placed by another transaction.
fn copy_differs(old: Option<&CopyRow>, new: Option<&CopyRow>) -> bool
    ensures { result ≡ copy_differs (option_copied old.entry) (option_copied new.entry) }
{
    match (old, new) {
        (None, _) => false,
        (Some(_), None) => true,
        (Some(a), Some(b)) => a.placed != b.placed,
    }
}

/// The object's copy in a pool isn't there any more, or was placed by another transaction.
fn copy_differs_in(pool: u32, old: &Version, now: Option<&Version>) -> bool
    ensures { result ≡ copy_differs_in pool old.now (option_copied now.entry) }
{
    match now {
        None => copy_differs(copy_in(pool, old), None),
        Some(new) => copy_differs(copy_in(pool, old), copy_in(pool, new)),
    }
}

/// The transaction with this number removed those of the objects that aren't there any more.
pub(crate) fn tell_removed(
    map: &mut BTreeMap<u64, Option<u64>>,
    stood: &[Version],
    tables: &Tables,
    number: u64,
)
    requires { AllByRecursion (λ w. has_key (nat_cmp w.object) map.old.entries ≡ true) stood.now }
    ensures { (q : ℕ) → told_at (nat_cmp q) map.new.entries ≡ now_or (any_gone q stood.now (inv_of tables.now)) number (told_at (nat_cmp q) map.old.entries) }
{
    'versions: for version in stood {
        let gone = tables.objects.find(version.object).is_none();
        tell(map, &version.object, gone, number);
    }
}

/// The transaction with this number changed those of the objects that aren't as they were.
pub(crate) fn tell_changed(
    map: &mut BTreeMap<u64, Option<u64>>,
    stood: &[Version],
    tables: &Tables,
    number: u64,
)
    requires { AllByRecursion (λ w. has_key (nat_cmp w.object) map.old.entries ≡ true) stood.now }
    ensures { (q : ℕ) → told_at (nat_cmp q) map.new.entries ≡ now_or (any_differs q stood.now (inv_of tables.now)) number (told_at (nat_cmp q) map.old.entries) }
{
    'versions: for version in stood {
        let differs = differs_now(version, tables.objects.find(version.object));
        tell(map, &version.object, differs, number);
    }
}

/// The transaction with this number changed those of an object's copies that aren't as they were.
fn tell_copies_of(
    map: &mut BTreeMap<(u64, u32), Option<u64>>,
    old: &Version,
    now: Option<&Version>,
    number: u64,
)
    requires { AllByRecursion (λ c. has_key (pair_cmp (old.now.object, c.pool)) map.old.entries ≡ true) old.now.copies }
    ensures tells { (q : ℕ × ℕ) → told_at (pair_cmp q) map.new.entries ≡ now_or (any_copy_of q old.now (option_copied now.entry)) number (told_at (pair_cmp q) map.old.entries) }
    ensures keeps { (q : ℕ × ℕ) → has_key (pair_cmp q) map.new.entries ≡ has_key (pair_cmp q) map.old.entries }
{
    let copies = old.copies.as_slice();
    'copies: for copy in copies {
        let differs = copy_differs_in(copy.pool, old, now);
        tell(map, &(old.object, copy.pool), differs, number);
    }
}

/// The transaction with this number changed those of the objects' copies that aren't as they were.
pub(crate) fn tell_copies(
    map: &mut BTreeMap<(u64, u32), Option<u64>>,
    stood: &[Version],
    tables: &Tables,
    number: u64,
)
    requires { AllByRecursion (λ w. AllByRecursion (λ c. has_key (pair_cmp (w.object, c.pool)) map.old.entries ≡ true) w.copies) stood.now }
    ensures { (q : ℕ × ℕ) → told_at (pair_cmp q) map.new.entries ≡ now_or (any_copy q stood.now (inv_of tables.now)) number (told_at (pair_cmp q) map.old.entries) }
{
    'versions: for version in stood {
        tell_copies_of(map, version, tables.objects.find(version.object), number);
    }
}

/// The transaction with this number emptied those of the paths that have no versions any more.
pub(crate) fn tell_emptied(
    map: &mut BTreeMap<u32, Emptied>,
    stood: &[PathAt],
    tables: &Tables,
    number: u64,
)
    requires { AllByRecursion (λ x. has_path x.filespace x.path map.old.entries ≡ true) stood.now }
    ensures { (f : ℕ) (p : List ℕ) → told_of_path f p map.new.entries ≡ now_or (any_emptied f p stood.now (inv_of tables.now)) number (told_of_path f p map.old.entries) }
{
    'paths: for path in stood {
        let empty = tables.objects.group(path.filespace, &path.path).is_none();
        emptied::tell(map, path, empty, number);
    }
}
