//! Scratch volumes that a transaction makes.

ghost use Rattle.std.specs.Prelude.{◌≡◌, ◌==◌, ◌&&◌, not, map};
ghost use Rattle.inventory_rules.specs.inventory_rows.version_groups.Entries.{all_later};
ghost use Rattle.std.specs.List.{list_all, flat_map};
ghost use Rattle.kinds.specs.Refusals.{foremost, unless};
ghost use Rattle.inventory_rules.specs.inventory_rows.State.{inv_of};
ghost use Rattle.inventory_rules.specs.Common.{is_free_file, files_refused, file_bound};
ghost use Rattle.inventory_rules.specs.Segments.{scratch_refused};

use crate::apart::are_apart;
use crate::numbers::{file_bound, is_free_file};
use inventory_rules::change_items::ScratchVolume;
use inventory_rules::inventory_rows::Tables;
use kinds::{Refusal, bad_value, sooner_of, unless};

/// Whether the file number of each scratch volume is free.
fn are_free(tables: &Tables, scratch: &[ScratchVolume]) -> bool
    ensures { result ≡ list_all (λ s. is_free_file (inv_of tables.now) s.file) scratch.now }
{
    'scratch: for volume in scratch {
        if !is_free_file(tables, volume.file) {
            return false;
        }
    }
    true
}

/// Whether the scratch volumes' file numbers are free, and each volume's its own.
fn are_new(tables: &Tables, scratch: &[ScratchVolume]) -> bool
    ensures { result ≡ (list_all (λ s. is_free_file (inv_of tables.now) s.file) scratch.now && all_later (λ a b. not (a.file == b.file)) scratch.now) }
{
    are_free(tables, scratch) && are_apart(scratch)
}

/// The next file number would reach its bound.
fn file_bounds(tables: &Tables, scratch: &[ScratchVolume]) -> Option<Refusal>
    ensures { result ≡ foremost (flat_map (λ s. file_bound s.file (inv_of tables.now)) scratch.now) }
{
    let mut found = None;
    'scratch: for volume in scratch {
        found = sooner_of(found, file_bound(tables, volume.file));
    }
    found
}

/// Why scratch volumes are refused: a file number below 4, or one that is in use or given twice, is `BadValue`, and a next file number that
/// would reach its bound is `InventoryFull`. It takes no memory, but as many steps as the list has pairs.
pub fn scratch_refused(tables: &Tables, scratch: &[ScratchVolume]) -> Option<Refusal>
    ensures { result ≡ foremost (scratch_refused scratch.now (inv_of tables.now)) }
{
    let new = unless(are_new(tables, scratch), bad_value());
    let bounds = file_bounds(tables, scratch);
    sooner_of(new, bounds)
}
