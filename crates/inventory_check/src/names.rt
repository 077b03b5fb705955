//! Names and numbers that are given once.

ghost use Rattle.std.specs.Prelude.{◌≡◌, ◌&&◌, ◌++◌, map};
ghost use Rattle.std.specs.Map.{keys_of};
ghost use Rattle.std.specs.Ordering.{nat_cmp};
ghost use Rattle.kinds.specs.Answers.{AnswersBy};
ghost use Rattle.inventory_rows.specs.object_rows.Build.{Builds};
ghost use Rattle.inventory_rows.specs.State.{inv_of};
ghost use Rattle.inventory_rules.specs.Valid.{are_apart, are_named, are_numbered};
ghost use Rattle.inventory_check.specs.Rows.{numbered};

use crate::numbers::files_apart;
use inventory_rows::{Backup, Tables};
use kinds::Refusal;
use std::alloc::Global;
use std::collections::BTreeMap;

/// Puts each backup's number into the index; false where two backups have one.
fn add_numbers(
    numbers: &mut BTreeMap<u64, u32>,
    backups: &BTreeMap<u32, Backup>,
) -> Result<bool, Refusal>
    ensures { Builds nat_cmp result numbers.old.entries numbers.new.entries (numbered backups.now.entries) }
{
    'backups: for (file, backup) in backups {
        if numbers.contains_key(&backup.number) {
            return Ok(false);
        }
        numbers.insert(backup.number, *file)?;
    }
    Ok(true)
}

/// Whether the backups hold what was there at different transactions.
fn backups_apart(alloc: Global, backups: &BTreeMap<u32, Backup>) -> Result<bool, Refusal>
    ensures { AnswersBy (λ apart. apart) result (are_apart (map (λ b. b.1.number) backups.now.entries)) }
{
    let mut numbers = BTreeMap::new(alloc);
    add_numbers(&mut numbers, backups)
}

/// Whether files and backups have numbers of their own.
fn numbers_apart(alloc: Global, tables: &Tables) -> Result<bool, Refusal>
    ensures { AnswersBy (λ apart. apart) result (are_apart (keys_of tables.now.pools.volumes ++ keys_of tables.now.backups.entries) && are_apart (map (λ b. b.1.number) tables.now.backups.entries)) }
{
    let apart = backups_apart(alloc, &tables.backups)?;
    Ok(files_apart(tables.pools.volumes(), &tables.backups) && apart)
}

/// Whether objects, files and backups have numbers of their own. The table of objects sees to theirs. Its one refusal is want of memory.
pub fn are_numbered(alloc: Global, tables: &Tables) -> Result<bool, Refusal>
    ensures { AnswersBy (λ numbered. numbered) result (are_numbered (inv_of tables.now)) }
{
    let _ = tables.objects.filespaces();
    numbers_apart(alloc, tables)
}

/// Whether nodes, pools, volumes and the filespaces of each node have names of their own, and volumes names of their kind. The tables see to it.
pub fn are_named(tables: &Tables) -> bool
    ensures { result ≡ are_named (inv_of tables.now) }
{
    let _ = tables.objects.filespaces();
    let _ = tables.pools.pools();
    let _ = tables.pools.volumes();
    true
}
