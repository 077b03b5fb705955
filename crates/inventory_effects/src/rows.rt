//! Changes of the policy, the nodes, the device classes, the storage pools and the volumes.

ghost use Rattle.std.specs.Prelude.{◌≡◌, ◌+◌, ◌<◌, ◌^◌, Ok};
ghost use Rattle.kinds.specs.Answers.{Becomes};
ghost use Rattle.inventory_rows.specs.policy_domains.Changes.{after};
ghost use Rattle.inventory_rows.specs.pool_rows.PoolRows.{pool_named};
ghost use Rattle.inventory_rows.specs.pool_tables.RowChanges.{reuse_volume};
ghost use Rattle.inventory_rows.specs.State.{inv_of};
ghost use Rattle.inventory_rules.specs.Clients.{client_changed, drawn_for_client, CanClients, HasNextClient};
ghost use Rattle.inventory_rules.specs.Common.{draw_file, or_same};
ghost use Rattle.inventory_rules.specs.Stores.{backups_lowered, drawn_for_store, store_changed, CanReuse, CanStores, HasNextStore};
ghost use Rattle.inventory_rules.specs.Policy.{CanPolicy};

use crate::backups::lower_delays;
use inventory_rows::Tables;
use kinds::{
    Day, Days, DefineOrDelete, Name, ObjectChange, PolicyChange, PoolChange, Refusal, Verb,
};

/// A new day. It takes no memory.
pub fn set_day(tables: &mut Tables, day: Day)
    ensures { inv_of tables.new ≡ record (inv_of tables.old) { today = day } }
{
    tables.today = day;
}

/// A change of the policy, refused for want of memory alone; then all is as it was.
pub fn change_policy(tables: &mut Tables, change: &PolicyChange) -> Result<(), Refusal>
    requires { CanPolicy change.now (inv_of tables.old) }
    ensures { Becomes result (inv_of tables.old) (inv_of tables.new) (Ok (record (inv_of tables.old) { domains = or_same tables.old.domains (after change.now tables.old.domains) })) }
{
    tables.domains.change(change)
}

/// The next file number lies behind a number that was drawn.
pub(crate) fn draw_file(tables: &mut Tables, file: u32)
    requires { file + 1 < 2 ^ 32 }
    ensures { inv_of tables.new ≡ draw_file file (inv_of tables.old) }
{
    tables.next_file = tables.next_file.max(file + 1);
}

/// The next numbers after a change of nodes or filespaces.
fn draw_for_client(tables: &mut Tables, change: &ObjectChange)
    requires { HasNextClient change.now (inv_of tables.old) }
    ensures { inv_of tables.new ≡ drawn_for_client change.now (inv_of tables.old) }
{
    match change {
        ObjectChange::Node {
            verb: DefineOrDelete::Define,
            ..
        } => tables.next_node += 1,
        ObjectChange::Node {
            verb: DefineOrDelete::Delete,
            ..
        } => {}
        ObjectChange::Filespace {
            verb: DefineOrDelete::Define,
            filespace,
            ..
        } => tables.next_filespace = tables.next_filespace.max(*filespace + 1),
        ObjectChange::Filespace {
            verb: DefineOrDelete::Delete,
            ..
        } => {}
    }
}

/// A change of the nodes or filespaces, refused for want of memory alone; then all is as it was.
pub fn change_clients(tables: &mut Tables, change: &ObjectChange) -> Result<(), Refusal>
    requires { CanClients change.now (inv_of tables.old) }
    ensures { Becomes result (inv_of tables.old) (inv_of tables.new) (Ok (client_changed change.now (inv_of tables.old))) }
{
    let number = tables.next_node;
    tables.objects.change(change, number)?;
    draw_for_client(tables, change);
    Ok(())
}

/// The delays that listed backups have of the pool with this name are lowered to this one, where that is less.
fn lower_named(tables: &mut Tables, name: &Name, delay: Days)
    ensures { inv_of tables.new ≡ record (inv_of tables.old) { backups = backups_lowered (pool_named name.now tables.old.pools) delay tables.old.backups.entries } }
{
    if let Some(pool) = tables.pools.pool_named(name) {
        lower_delays(&mut tables.backups, pool, delay);
    }
}

/// The next numbers, and the delays of listed backups, after a change of device classes, pools or volumes.
fn draw_for_store(tables: &mut Tables, change: &PoolChange)
    requires { HasNextStore change.now (inv_of tables.old) }
    ensures { inv_of tables.new ≡ drawn_for_store change.now (inv_of tables.old) }
{
    match change {
        PoolChange::DevClass { .. } => {}
        PoolChange::Pool {
            verb,
            pool,
            settings,
            ..
        } => match verb {
            Verb::Define => tables.next_pool += 1,
            Verb::Update => lower_named(tables, pool, settings.rule().reuse_delay),
            Verb::Delete => {}
        },
        PoolChange::Volume { verb, file, .. } => match verb {
            Verb::Define => draw_file(tables, *file),
            Verb::Update => {}
            Verb::Delete => {}
        },
    }
}

/// A change of the device classes, the storage pools or the volumes, refused for want of memory alone; then all is as it was.
pub fn change_stores(tables: &mut Tables, change: &PoolChange) -> Result<(), Refusal>
    requires { CanStores change.now (inv_of tables.old) }
    ensures { Becomes result (inv_of tables.old) (inv_of tables.new) (Ok (store_changed change.now (inv_of tables.old))) }
{
    let number = tables.next_pool;
    tables.pools.change(change, number)?;
    draw_for_store(tables, change);
    Ok(())
}

/// A volume is reused, which may be. It takes no memory.
pub fn reuse(tables: &mut Tables, file: u32)
    requires { CanReuse file (inv_of tables.old) }
    ensures { inv_of tables.new ≡ record (inv_of tables.old) { stores = record tables.old.pools { volumes = reuse_volume file tables.old.pools.volumes } } }
{
    let today = tables.today;
    match tables.pools.reuse(file, today) {
        Ok(()) => {}
        Err(_) => {}
    }
}
