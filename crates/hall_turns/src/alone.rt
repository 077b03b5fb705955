//! Processes whose actor has the hall alone.
ghost use Rattle.expiration.specs.Expiring.{Expiration};
ghost use Rattle.copy_pools.specs.Backups.{Backup};
ghost use Rattle.hall_turns.specs.Runs.{CameTo};

use crate::direct::Direct;
use copy_pools::backup_pool;
use copy_runs::Moved;
use expiration::expire;
use hall::Hall;
use kinds::Refusal;
use std::alloc::Global;
use store_api::Store;

/// Removes the objects that are not retained, as `expire` of `expiration` does, on a hall that its actor has alone, and answers how many went. So it ends only with `InventoryFull`, `LogFault`,
/// `RunFull` or `Memory`, where a step of its own answers so; what it removed until then stays removed.
pub fn expire_alone<S: Store>(alloc: Global, hall: &mut Hall<S>, actor: u32) -> Result<u64, Refusal>
    ensures { CameTo S.told S.moment_of S.faults_of actor (λ events. Expiration events result) hall.old hall.new }
{
    let mut direct = Direct::new(hall, actor);
    expire(alloc, &mut direct)
}

/// Copies what a primary pool holds into a copy pool that lacks it, as `backup_pool` of `copy_pools` does, on a hall that its actor has alone, and answers how many copies were made and for how
/// many objects none could be made. It ends as that does, and what it copied until then stays copied.
pub fn backup_pool_alone<S: Store>(
    alloc: Global,
    hall: &mut Hall<S>,
    actor: u32,
    primary: u32,
    copy: u32,
) -> Result<Moved, Refusal>
    ensures { CameTo S.told S.moment_of S.faults_of actor (λ events. Backup primary copy events result) hall.old hall.new }
{
    let mut direct = Direct::new(hall, actor);
    backup_pool(alloc, &mut direct, primary, copy)
}
