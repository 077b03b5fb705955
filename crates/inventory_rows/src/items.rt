//! How many items the tables have, as room that is left.
ghost use Rattle.std.specs.Prelude.{◌≡◌, ◌+◌, length};
ghost use Rattle.std.specs.List.{sum_by};
ghost use Rattle.object_rows.specs.Items.{left};
ghost use Rattle.inventory_rows.specs.Items.{count_items, items_of_domain};
ghost use Rattle.inventory_rows.specs.State.{inv_of};

use crate::backup::Backup;
use crate::tables::Tables;
use kinds::Name;
use object_rows::left_by;
use policy_domains::{Domains, PolicyDomain, PolicySet};
use pool_rows::Pools;
use std::collections::BTreeMap;

/// The classes of a set.
fn left_by_set(set: &PolicySet, room: u128) -> Option<u128>
    ensures { result ≡ left (length set.now.classes) room }
{
    left_by(set.classes().len(), room)
}

fn left_by_sets(sets: &BTreeMap<Name, PolicySet>, room: u128) -> Option<u128>
    ensures { result ≡ left (sum_by (λ s. length s.1.classes) sets.now.entries) room }
{
    let mut rest = room;
    'sets: for (_, set) in sets.iter() {
        match left_by_set(set, rest) {
            Some(less) => rest = less,
            None => return None,
        }
    }
    Some(rest)
}

/// The sets of a domain and their classes.
fn left_by_domain(domain: &PolicyDomain, room: u128) -> Option<u128>
    ensures { result ≡ left (items_of_domain domain.now) room }
{
    match left_by(domain.sets().len(), room) {
        Some(rest) => left_by_sets(domain.sets(), rest),
        None => None,
    }
}

fn left_by_domains(domains: &BTreeMap<Name, PolicyDomain>, room: u128) -> Option<u128>
    ensures { result ≡ left (sum_by (λ d. items_of_domain d.1) domains.now.entries) room }
{
    let mut rest = room;
    'domains: for (_, domain) in domains.iter() {
        match left_by_domain(domain, rest) {
            Some(less) => rest = less,
            None => return None,
        }
    }
    Some(rest)
}

/// The delays of a database backup.
fn left_by_backup(backup: &Backup, room: u128) -> Option<u128>
    ensures { result ≡ left (length backup.now.delays) room }
{
    left_by(backup.delays.as_map().len(), room)
}

fn left_by_backups(backups: &BTreeMap<u32, Backup>, room: u128) -> Option<u128>
    ensures { result ≡ left (sum_by (λ b. length b.1.delays) backups.now.entries) room }
{
    let mut rest = room;
    'backups: for (_, backup) in backups.iter() {
        match left_by_backup(backup, rest) {
            Some(less) => rest = less,
            None => return None,
        }
    }
    Some(rest)
}

/// The device classes, pools and volumes.
fn left_by_pools(pools: &Pools, room: u128) -> Option<u128>
    ensures { result ≡ left (length pools.now.classes + (length pools.now.pools + length pools.now.volumes)) room }
{
    let rest = left_by(pools.classes().len(), room)?;
    let rest = left_by(pools.pools().len(), rest)?;
    left_by(pools.volumes().len(), rest)
}

/// The domains and what they have.
fn left_by_policy(domains: &Domains, room: u128) -> Option<u128>
    ensures { result ≡ left (length domains.now + sum_by (λ d. items_of_domain d.1) domains.now) room }
{
    let rows = domains.rows();
    let rest = left_by(rows.len(), room)?;
    left_by_domains(rows, rest)
}

/// The database backups and their delays.
fn left_by_listed(backups: &BTreeMap<u32, Backup>, room: u128) -> Option<u128>
    ensures { result ≡ left (length backups.now.entries + sum_by (λ b. length b.1.delays) backups.now.entries) room }
{
    let rest = left_by(backups.len(), room)?;
    left_by_backups(backups, rest)
}

impl Tables {
    /// What is left of the room once all items of the tables are in it: domains, sets and classes; nodes; filespaces, groups, versions, held
    /// objects, copies and segments; device classes, pools and volumes; database backups and their delays. None where they have no room. It
    /// walks the domains, their sets and the database backups, up to where the room ends, and takes no memory.
    pub fn items_left(&self, room: u128) -> Option<u128>
        ensures { result ≡ left (count_items (inv_of self.now)) room }
    {
        let rest = left_by_policy(&self.domains, room)?;
        let rest = self.objects.items_left(rest)?;
        let rest = left_by_pools(&self.pools, rest)?;
        left_by_listed(&self.backups, rest)
    }
}
