//! The whole database.
ghost use Rattle.std.specs.Prelude.{◌≡◌, ◌+◌, ◌<◌, ◌^◌, true, length};
ghost use Rattle.std.specs.List.{list_all, sum_by};
ghost use Rattle.fields.specs.Editions.{second_form};
ghost use Rattle.inventory_rows.specs.object_rows.Items.{items_of_held};
ghost use Rattle.inventory_rows.specs.Items.{count_items, items_of_domain, items_of_filespace};
ghost use Rattle.inventory_rows.specs.State.{inv_of};
ghost use Rattle.inventory_rules.specs.Valid.{groups_are_orderly, is_orderly};
ghost use Rattle.inventory_bytes.specs.PolicyForms.{domains};
ghost use Rattle.inventory_bytes.specs.StoreForms.{volumes, backups};
ghost use Rattle.inventory_bytes.specs.Payload.{numbers, numbers_of, clients, held_objects, stores, payload, unheld, unheld_stores, unheld_volumes, unnumbered};

use crate::client_codecs::{FilespaceRow, HeldBytes, NodeRow};
use crate::policy_codecs::DomainRow;
use crate::row_fits::table_fits;
use crate::store_codecs::{BackupRow, ClassRow, PoolRow};
use crate::volume_codecs::VolumeRow;
use fields::Second;
use inventory_rows::object_rows::{HeldRow, Node, Objects};
use inventory_rows::policy_domains::{Domains, PolicyDomain};
use inventory_rows::pool_rows::Pools;
use inventory_rows::pool_tables::Pool;
use inventory_rows::version_groups::Filespace;
use inventory_rows::volume_rows::Volume;
use inventory_rows::{Backup, Tables};
use kinds::{Capacity, Fitting, Name};
use std::collections::BTreeMap;

#[tactic(auto, unfolding(crate::specs::Payload::numbers))]
fn numbers_fit(tables: &Tables)
    ensures { numbers.Fits (numbers_of (inv_of tables.now)) }
{
    tables.number.fits();
    tables.today.fits();
    tables.next_node.fits();
    tables.next_filespace.fits();
    tables.next_pool.fits();
    tables.next_file.fits();
    tables.next_object.fits();
}

fn domains_fit(rows: &Domains)
    requires { length rows.now + sum_by (λ d. items_of_domain d.1) rows.now < 2 ^ 32 }
    ensures { (domains second_form).Fits rows.now }
{
    table_fits::<Name, PolicyDomain, DomainRow<Second>>(rows.rows());
}

#[tactic(auto, unfolding(crate::specs::Payload::clients))]
fn clients_fit(objects: &Objects)
    requires few { length objects.now.nodes + (length objects.now.filespaces + sum_by (λ f. items_of_filespace f.1) objects.now.filespaces) < 2 ^ 32 }
    requires orderly { list_all (λ f. list_all (λ g. is_orderly g.1) f.1.groups) objects.now.filespaces ≡ true }
    ensures { (clients second_form).Fits (objects.now.nodes, objects.now.filespaces) }
{
    table_fits::<u32, Node, NodeRow>(objects.nodes());
    table_fits::<u32, Filespace, FilespaceRow<Second>>(objects.filespaces());
}

fn volumes_fit(map: &BTreeMap<u32, Volume>)
    requires { length map.now.entries < 2 ^ 32 }
    ensures { volumes.Fits (unheld_volumes map.now.entries) }
{
    table_fits::<u32, Volume, VolumeRow>(map);
}

#[tactic(auto, unfolding(crate::specs::Payload::stores))]
fn stores_fit(pools: &Pools)
    requires { length pools.now.classes + (length pools.now.pools + length pools.now.volumes) < 2 ^ 32 }
    ensures { (stores second_form).Fits (unheld_stores pools.now) }
{
    table_fits::<Name, Option<Capacity>, ClassRow>(pools.classes());
    table_fits::<u32, Pool, PoolRow<Second>>(pools.pools());
    volumes_fit(pools.volumes());
}

fn backups_fit(map: &BTreeMap<u32, Backup>)
    requires { length map.now.entries + sum_by (λ b. length b.1.delays) map.now.entries < 2 ^ 32 }
    ensures { (backups second_form).Fits map.now.entries }
{
    table_fits::<u32, Backup, BackupRow<Second>>(map);
}

#[tactic(auto, unfolding(crate::specs::Payload::held_objects))]
fn held_fit(objects: &Objects)
    requires { items_of_held objects.now.held < 2 ^ 32 }
    ensures { (held_objects second_form).Fits (unnumbered objects.now.held) }
{
    table_fits::<u64, HeldRow, HeldBytes>(objects.held());
}

/// Nothing is done; the caller learns that the database has bytes. Only the newest version of a path may be active, since
/// the bytes say of one alone that it is; a valid database is so.
#[tactic(auto, unfolding(crate::specs::Payload::payload))]
pub fn tables_fit(tables: &Tables)
    requires few { count_items (inv_of tables.now) < 2 ^ 32 }
    requires orderly { groups_are_orderly (inv_of tables.now) ≡ true }
    ensures { (payload second_form).Fits (unheld (inv_of tables.now)) }
{
    numbers_fit(tables);
    domains_fit(&tables.domains);
    clients_fit(&tables.objects);
    stores_fit(&tables.pools);
    backups_fit(&tables.backups);
    held_fit(&tables.objects);
}
