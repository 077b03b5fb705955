//! Numbers that are drawn, and their bounds.

ghost use Rattle.std.specs.Prelude.{◌≡◌, ◌+◌, ◌^◌, ◌<◌, ◌∷◌, [], nat_lt, max};
ghost use Rattle.kinds.specs.Refusals.{foremost};
ghost use Rattle.inventory_rules.specs.inventory_rows.State.{inv_of};
ghost use Rattle.inventory_rules.specs.Common.{full_at, is_free_file, files_refused, file_bound};

use inventory_rules::inventory_rows::Tables;
use kinds::{Refusal, bad_value, unless};

/// The next number would reach its bound.
pub fn full_at(next: u32, bound: u32) -> Option<Refusal>
    ensures { result ≡ foremost (full_at next bound) }
{
    unless((next as u64) + 1 < bound as u64, Refusal::InventoryFull)
}

/// The next file number would reach its bound once this number is drawn.
pub fn file_bound(tables: &Tables, file: u32) -> Option<Refusal>
    ensures { result ≡ foremost (file_bound file (inv_of tables.now)) }
{
    let next = (tables.next_file as u64).max(file as u64 + 1);
    unless(next < u32::MAX as u64, Refusal::InventoryFull)
}

/// Whether a file number is one from 4 on that no volume and no listed database backup has.
pub fn is_free_file(tables: &Tables, file: u32) -> bool
    ensures { result ≡ is_free_file (inv_of tables.now) file }
{
    4 <= file && tables.pools.volumes().get(&file).is_none() && tables.backups.get(&file).is_none()
}

/// A new file's number is not free.
#[tactic(auto, using(crate::proofs::Files::one_file))]
pub fn file_refusal(tables: &Tables, file: u32) -> Option<Refusal>
    ensures { result ≡ foremost (files_refused (file ∷ []) (inv_of tables.now)) }
{
    unless(is_free_file(tables, file), bad_value())
}
