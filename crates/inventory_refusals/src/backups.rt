//! Why a change of the list of database backups is refused.

ghost use Rattle.std.specs.Prelude.{◌≡◌, ◌++◌, ◌∷◌, [], is_some};
ghost use Rattle.std.specs.Option.{option_copied};
ghost use Rattle.kinds.specs.Refusals.{foremost, unless};
ghost use Rattle.inventory_rows.specs.State.{inv_of};
ghost use Rattle.inventory_rules.specs.Backups.{after_refused, is_done, is_unfinished, backup_at};
ghost use Rattle.inventory_rules.specs.Common.{files_refused, file_bound};
ghost use Rattle.kinds.specs.declared.refusal.Refusal.TheVariants.{NotFound};

use inventory_rows::{Backup, Tables};
use item_refusals::{file_bound, file_refusal};
use kinds::{Refusal, sooner_of, unless};

fn is_done(backup: Option<&Backup>) -> bool
    ensures { result ≡ is_done (option_copied backup.entry) }
{
    match backup {
        None => false,
        Some(backup) => backup.is_done,
    }
}

/// The backup that one would follow isn't listed, or isn't whole.
fn after_refused(tables: &Tables, after: Option<u32>) -> Option<Refusal>
    ensures { result ≡ foremost (after_refused after (inv_of tables.now)) }
{
    match after {
        None => None,
        Some(file) => unless(is_done(tables.backups.get(&file)), Refusal::NotFound),
    }
}

/// Why a database backup doesn't begin: a backup that it would follow, by its file, and that is not listed or not whole is `NotFound`; a file
/// number that is below 4 or in use is `BadValue`; and a next file number that would reach its bound is `InventoryFull`. It takes no memory.
#[tactic(auto, using(item_refusals::proofs::Foremost::foremost_append))]
pub fn begin_refused(tables: &Tables, file: u32, after: Option<u32>) -> Option<Refusal>
    ensures { result ≡ foremost (after_refused after (inv_of tables.now) ++ (files_refused (file ∷ []) (inv_of tables.now) ++ file_bound file (inv_of tables.now))) }
{
    let follows = after_refused(tables, after);
    let free = file_refusal(tables, file);
    sooner_of(follows, sooner_of(free, file_bound(tables, file)))
}

fn is_unfinished(backup: Option<&Backup>) -> bool
    ensures { result ≡ is_unfinished (option_copied backup.entry) }
{
    match backup {
        None => false,
        Some(backup) => !backup.is_done,
    }
}

/// Why a database backup doesn't end: one that is not listed, or has ended, is `NotFound`. It takes no memory.
pub fn end_refused(tables: &Tables, file: u32) -> Option<Refusal>
    ensures { result ≡ foremost (unless (is_unfinished (backup_at file (inv_of tables.now))) NotFound) }
{
    let unfinished = is_unfinished(tables.backups.get(&file));
    unless(unfinished, Refusal::NotFound)
}

/// Why a database backup is not taken off the list: one that is not listed is `NotFound`. It takes no memory.
pub fn delete_refused(tables: &Tables, file: u32) -> Option<Refusal>
    ensures { result ≡ foremost (unless (is_some (backup_at file (inv_of tables.now))) NotFound) }
{
    let listed = tables.backups.get(&file).is_some();
    unless(listed, Refusal::NotFound)
}
