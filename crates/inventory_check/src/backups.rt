//! What is asked of database backups.

ghost use Rattle.std.specs.Prelude.{◌≡◌, nat_le};
ghost use Rattle.std.specs.List.{list_all};
ghost use Rattle.inventory_rows.specs.State.{inv_of};
ghost use Rattle.inventory_rules.specs.Valid.{are_by_today, are_past};

use crate::days::is_by;
use crate::stores::volumes_by_today;
use crate::versions::{Asked, all_versions, copies_are_past};
use inventory_rows::Tables;

fn backups_are_past(tables: &Tables) -> bool
    ensures { result ≡ list_all (λ b. nat_le b.1.number tables.now.number) tables.now.backups.entries }
{
    'backups: for (_, backup) in &tables.backups {
        if backup.number > tables.number {
            return false;
        }
    }
    true
}

/// Whether no backup was begun, and no copy placed, by a transaction to come.
pub fn are_past(tables: &Tables) -> bool
    ensures { result ≡ are_past (inv_of tables.now) }
{
    backups_are_past(tables) && copies_are_past(tables)
}

fn backups_by_today(tables: &Tables) -> bool
    ensures { result ≡ list_all (λ b. nat_le b.1.taken tables.now.today) tables.now.backups.entries }
{
    'backups: for (_, backup) in &tables.backups {
        if !is_by(backup.taken, tables.today) {
            return false;
        }
    }
    true
}

/// Whether no day that is kept is to come.
pub fn are_by_today(tables: &Tables) -> bool
    ensures { result ≡ are_by_today (inv_of tables.now) }
{
    all_versions(Asked::ByToday, tables) && (backups_by_today(tables) && volumes_by_today(tables))
}
