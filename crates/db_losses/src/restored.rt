// The database that is restored.
ghost use Rattle.std.specs.Prelude.{◌≡◌, ◌+◌, ◌<◌, ◌≤◌, ◌^◌, max, true};
ghost use Rattle.kinds.specs.Answers.{AnswersBy};
ghost use Rattle.inventory_rows.specs.State.{inv_of};
ghost use Rattle.db_losses.specs.Losses.{restored};

use crate::gone::take_all;
use crate::left::objects_left;
use crate::losses::Losses;
use inventory_rows::Tables;
use kinds::{Day, Refusal};
use std::alloc::Global;
use std::collections::BTreeMap;

/// The database that is restored on a day from the backup in a file, whose rows are these, where copies are lost. Objects without a copy go. Refused only for want of memory.
pub fn restore(
    alloc: Global,
    losses: &Losses,
    file: u32,
    day: Day,
    tables: &Tables,
) -> Result<Tables, Refusal>
    requires next { file + 1 < 2 ^ 32 }
    ensures { AnswersBy inv_of result (restored losses.now file day (inv_of tables.now)) }
{
    let objects = objects_left(alloc, losses, &tables.objects)?;
    let mut pools = tables.pools.clone()?;
    take_all(&mut pools, losses, &tables.objects, day);
    Ok(Tables {
        number: tables.number,
        today: day,
        next_node: tables.next_node,
        next_filespace: tables.next_filespace,
        next_pool: tables.next_pool,
        next_file: tables.next_file.max(file + 1),
        next_object: tables.next_object,
        domains: tables.domains.clone()?,
        objects,
        pools,
        backups: BTreeMap::new(alloc),
    })
}
