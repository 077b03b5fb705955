//! The backups of the database.
ghost use Rattle.std.specs.Prelude.{◌≡◌, None};
ghost use Rattle.steps.specs.Calls.{Call};
ghost use Rattle.db_backup.specs.Backups.{DatabaseBackup, Follows, FollowsNewest, IncrementalBackup};

use crate::listing::{list, newest_file};
use crate::taking::{Taken, take};
use kinds::Refusal;
use steps::{ImageKind, Stepper};

/// Makes a backup of the whole database, and answers the number of its file and that of the last transaction that it holds: that of its own beginning. Where another image is being written it waits and
/// tries again. `WriteFault` with the number of a file that can't be written: the backup is taken off the list again. It ends with `InventoryFull`, `LogFault`, `RunFull` or `Memory` where a step of its
/// own answers so, and with `Busy` where a step of its own and then `wait` answer so. An image stays in progress only with `LogFault`, `RunFull` or `Memory`.
pub fn backup_db<P: Stepper>(p: &mut P) -> Result<Taken, Refusal>
    ensures { Call P.did p.old p.new (λ events. DatabaseBackup None events result) }
{
    take(p, ImageKind::Backup)
}

/// Makes a backup of what came behind the one in this file.
fn follow<P: Stepper>(p: &mut P, after: Option<u32>) -> Result<Taken, Refusal>
    ensures { Call P.did p.old p.new (λ events. Follows after events result) }
{
    match after {
        Some(after) => take(p, ImageKind::Since { after }),
        None => Err(Refusal::NotFound),
    }
}

/// Asks for the list of backups, and makes one that follows the newest.
fn follow_newest<P: Stepper>(p: &mut P) -> Result<Taken, Refusal>
    ensures { Call P.did p.old p.new (λ events. FollowsNewest events result) }
{
    match list(p) {
        Ok(lines) => {
            let after = newest_file(lines.as_slice());
            drop(lines);
            follow(p, after)
        }
        Err(refusal) => Err(refusal),
    }
}

/// Makes a backup of what came behind the newest one, the whole one with the greatest number on the list, and answers the number of its file and that of the last transaction that it holds. `NotFound` where no
/// whole backup is on the list, or the newest isn't one of this run. It waits, and ends, as `backup_db` does.
pub fn backup_db_since<P: Stepper>(p: &mut P) -> Result<Taken, Refusal>
    ensures { Call P.did p.old p.new (λ events. IncrementalBackup events result) }
{
    follow_newest(p)
}
