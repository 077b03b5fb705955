ghost use Rattle.std.specs.Prelude.{◌≡◌};
ghost use Rattle.kinds.specs.Answers.{AnswersBy};
ghost use Rattle.inventory_rows.specs.Fresh.{fresh};
ghost use Rattle.inventory_rows.specs.State.{inv_of};

use crate::backup::Backup;
use kinds::{Day, Refusal};
use object_rows::Objects;
use policy_domains::Domains;
use pool_rows::Pools;
use std::alloc::{AllocError, Global};
use std::collections::BTreeMap;

/// The rows of the database, whether or not they agree with one another.
#[derive(Drop)]
pub struct Tables {
    /// The number of the last transaction.
    pub number: u64,
    /// The day.
    pub today: Day,
    /// The number that the next client node gets.
    pub next_node: u32,
    /// The number that the next filespace gets.
    pub next_filespace: u32,
    /// The number that the next storage pool gets.
    pub next_pool: u32,
    /// The number that the next file of a volume or a database backup gets.
    pub next_file: u32,
    /// The number that the next stored object gets.
    pub next_object: u64,
    /// The policy domains.
    pub domains: Domains,
    /// The client nodes, their filespaces, the versions of their files and the objects that they archived.
    pub objects: Objects,
    /// The device classes, the storage pools and the volumes.
    pub pools: Pools,
    /// The database backups that are listed, by the numbers of their files.
    pub backups: BTreeMap<u32, Backup>,
}

/// The first day.
fn first_day() -> Day
    ensures { result ≡ 0 }
{
    match Day::new(0) {
        Some(day) => day,
        None => unreachable!(),
    }
}

impl Tables {
    /// What a server has that was just formatted.
    pub fn fresh(alloc: Global) -> Result<Tables, Refusal>
        ensures { AnswersBy inv_of result fresh }
    {
        Ok(Tables {
            number: 0,
            today: first_day(),
            next_node: 1,
            next_filespace: 1,
            next_pool: 2,
            next_file: 4,
            next_object: 1,
            domains: Domains::fresh(alloc)?,
            objects: Objects::new(alloc),
            pools: Pools::fresh(alloc)?,
            backups: BTreeMap::new(alloc),
        })
    }
}

impl Clone for Tables {
    ghost is_clone = { λ tables copy. inv_of copy ≡ inv_of tables };

    fn clone(&self) -> Result<Self, AllocError> {
        Ok(Tables {
            number: self.number,
            today: self.today,
            next_node: self.next_node,
            next_filespace: self.next_filespace,
            next_pool: self.next_pool,
            next_file: self.next_file,
            next_object: self.next_object,
            domains: self.domains.clone()?,
            objects: self.objects.clone()?,
            pools: self.pools.clone()?,
            backups: self.backups.clone()?,
        })
    }
}
