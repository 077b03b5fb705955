//! Numbers that were drawn, and those that are drawn next.

ghost use Rattle.std.specs.Prelude.{◌≡◌, ◌&&◌, ◌++◌, is_some, nat_le, nat_lt, not};
ghost use Rattle.std.specs.List.{list_all};
ghost use Rattle.std.specs.Map.{keys_of};
ghost use Rattle.inventory_rows.specs.pool_tables.Rows.{row_at};
ghost use Rattle.inventory_rows.specs.State.{inv_of};
ghost use Rattle.inventory_rules.specs.Valid.{are_apart, are_bounded, are_drawn, lie_in};

use crate::versions::objects_drawn;
use inventory_rows::object_rows::Node;
use inventory_rows::pool_tables::Pool;
use inventory_rows::version_groups::Filespace;
use inventory_rows::volume_rows::Volume;
use inventory_rows::{Backup, Tables};
use std::collections::BTreeMap;

fn lies_in(least: u64, bound: u64, number: u64) -> bool
    ensures { result ≡ (nat_le least number && nat_lt number bound) }
{
    least <= number && number < bound
}

fn lie_in(least: u64, bound: u64, numbers: &[u64]) -> bool
    ensures { result ≡ lie_in least bound numbers.now }
{
    numbers.iter().all(|number| lies_in(least, bound, *number))
}

fn nodes_drawn(nodes: &BTreeMap<u32, Node>, next: u32) -> bool
    ensures { result ≡ lie_in 1 next (keys_of nodes.now.entries) }
{
    'nodes: for (number, _) in nodes {
        if !lies_in(1, next as u64, *number as u64) {
            return false;
        }
    }
    true
}

fn filespaces_drawn(filespaces: &BTreeMap<u32, Filespace>, next: u32) -> bool
    ensures { result ≡ lie_in 1 next (keys_of filespaces.now.entries) }
{
    'filespaces: for (number, _) in filespaces {
        if !lies_in(1, next as u64, *number as u64) {
            return false;
        }
    }
    true
}

fn pools_drawn(pools: &BTreeMap<u32, Pool>, next: u32) -> bool
    ensures { result ≡ lie_in 1 next (keys_of pools.now.entries) }
{
    'pools: for (number, _) in pools {
        if !lies_in(1, next as u64, *number as u64) {
            return false;
        }
    }
    true
}

fn volumes_drawn(volumes: &BTreeMap<u32, Volume>, next: u32) -> bool
    ensures { result ≡ lie_in 4 next (keys_of volumes.now.entries) }
{
    'volumes: for (number, _) in volumes {
        if !lies_in(4, next as u64, *number as u64) {
            return false;
        }
    }
    true
}

fn backups_drawn(backups: &BTreeMap<u32, Backup>, next: u32) -> bool
    ensures { result ≡ lie_in 4 next (keys_of backups.now.entries) }
{
    'backups: for (number, _) in backups {
        if !lies_in(4, next as u64, *number as u64) {
            return false;
        }
    }
    true
}

fn files_drawn(tables: &Tables) -> bool
    ensures { result ≡ lie_in 4 tables.now.next_file (keys_of tables.now.pools.volumes ++ keys_of tables.now.backups.entries) }
{
    volumes_drawn(tables.pools.volumes(), tables.next_file)
        && backups_drawn(&tables.backups, tables.next_file)
}

/// Whether each number of a row is from the first one on and below the next one.
pub fn are_drawn(tables: &Tables) -> bool
    ensures { result ≡ are_drawn (inv_of tables.now) }
{
    nodes_drawn(tables.objects.nodes(), tables.next_node)
        && (filespaces_drawn(tables.objects.filespaces(), tables.next_filespace)
            && (pools_drawn(tables.pools.pools(), tables.next_pool)
                && (files_drawn(tables) && objects_drawn(tables))))
}

/// Whether the next numbers are from the first one on and below their bounds.
pub fn are_bounded(tables: &Tables) -> bool
    ensures { result ≡ are_bounded (inv_of tables.now) }
{
    let most = u32::MAX as u64;
    let clients = [tables.next_node as u64, tables.next_filespace as u64];
    lie_in(1, most, clients.as_slice())
        && (lie_in(1, 1 << 16, [tables.next_pool as u64].as_slice())
            && (lie_in(4, most, [tables.next_file as u64].as_slice())
                && (lie_in(1, 1 << 62, [tables.next_object].as_slice())
                    && (tables.number < 1 << 62 && tables.today.number() < 1 << 31))))
}

/// Whether no volume's file number is one of a backup's.
fn none_is_of(volumes: &BTreeMap<u32, Volume>, backups: &BTreeMap<u32, Backup>) -> bool
    ensures { result ≡ list_all (λ n. not (is_some (row_at n backups.now.entries))) (keys_of volumes.now.entries) }
{
    'volumes: for (file, _) in volumes {
        if backups.contains_key(file) {
            return false;
        }
    }
    true
}

/// Whether volumes and backups have file numbers of their own.
pub(crate) fn files_apart(volumes: &BTreeMap<u32, Volume>, backups: &BTreeMap<u32, Backup>) -> bool
    ensures { result ≡ are_apart (keys_of volumes.now.entries ++ keys_of backups.now.entries) }
{
    let _volumes = volumes.len();
    let _backups = backups.len();
    none_is_of(volumes, backups)
}
