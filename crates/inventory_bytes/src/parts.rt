//! The rows as they are read, before the tables are made of them.
ghost use Rattle.std.specs.Prelude.{◌≡◌, ◌++◌, true, Some, OnOk, IfOk, IfSome, IfNone};
ghost use Rattle.fields.specs.Gives.{Gives};
ghost use Rattle.inventory_rows.specs.State.{inv_of};
ghost use Rattle.inventory_bytes.specs.Segments.{all_lie, are_there, AreFilled, IsFilled};
ghost use Rattle.inventory_rows.specs.pool_rows.PoolRows.{with_rows};
ghost use Rattle.fields.specs.Editions.{second_form};
ghost use Rattle.inventory_bytes.specs.Payload.{clients, inv_with, having_numbers, mark, stores, stores_with, unheld_stores, payload, payload_form, AreSound};

use crate::client_codecs::{FilespaceRow, NodeRow};
use crate::held_rows::{number_rows, take_held_rows};
use crate::numbers::Numbers;
use crate::policy_codecs::DomainRow;
use crate::segments::put_all;
use crate::store_codecs::{BackupRow, ClassRow, PoolRow};
use crate::volume_codecs::VolumeRow;
use crate::volume_rows_read::put_volumes;
use fields::{Decoder, Fault, Formed, InEdition, Memory, Reader, Second, put_table, take_table};
use inventory_rows::object_rows::{HeldRow, Node, Objects};
use inventory_rows::policy_domains::{Domains, PolicyDomain};
use inventory_rows::pool_rows::Pools;
use inventory_rows::pool_tables::Pool;
use inventory_rows::version_groups::Filespace;
use inventory_rows::volume_rows::Volume;
use inventory_rows::{Backup, Tables};
use kinds::{Capacity, Name};
use std::alloc::Global;
use std::collections::BTreeMap;
use std::marker::{Model, PhantomData};

/// Puts the nodes and the filespaces.
#[tactic(auto, unfolding(crate::specs::Payload::clients))]
pub(crate) fn put_clients(
    out: &mut Vec<u8>,
    nodes: &BTreeMap<u32, Node>,
    filespaces: &BTreeMap<u32, Filespace>,
) -> Result<(), Memory>
    requires { (clients second_form).Fits (nodes.now.entries, filespaces.now.entries) }
    ensures { OnOk result (out.new.items ≡ out.old.items ++ (clients second_form).spell (nodes.now.entries, filespaces.now.entries)) }
{
    put_table::<u32, Node, NodeRow>(out, nodes)?;
    put_table::<u32, Filespace, FilespaceRow<Second>>(out, filespaces)?;
    Ok(())
}

/// The nodes and the filespaces, each by number.
#[derive(Drop)]
pub(crate) struct Clients {
    pub(crate) nodes: BTreeMap<u32, Node>,
    pub(crate) filespaces: BTreeMap<u32, Filespace>,
}

impl Model for Clients {
    ghost use Rattle.inventory_bytes.specs.Payload.{ClientFields};

    ghost Value = { ClientFields };

    ghost view = { λ c. (c.nodes.entries, c.filespaces.entries) };
}

#[tactic(auto, unfolding(crate::specs::Payload::clients))]
fn take_clients<E: InEdition>(alloc: Global, reader: &mut Reader<'_>) -> Result<Clients, Fault>
    ensures { Gives result reader.new.rest ((clients E.edition).read reader.old.rest) }
{
    let nodes = take_table::<u32, Node, NodeRow>(alloc, reader, u32::MAX)?;
    let filespaces = take_table::<u32, Filespace, FilespaceRow<E>>(alloc, reader, u32::MAX)?;
    Ok(Clients { nodes, filespaces })
}

/// The device classes by name, the pools by number, and the volumes by file number.
#[derive(Drop)]
pub(crate) struct Stores {
    pub(crate) classes: BTreeMap<Name, Option<Capacity>>,
    pub(crate) pools: BTreeMap<u32, Pool>,
    pub(crate) volumes: BTreeMap<u32, Volume>,
}

impl Model for Stores {
    ghost use Rattle.inventory_rows.specs.pool_rows.PoolRows.{PoolRows};

    ghost Value = { PoolRows };

    ghost view = { λ s. record { classes = s.classes.entries; pools = s.pools.entries; volumes = s.volumes.entries } };
}

/// Puts the device classes, the pools, and the volumes without the segments on them.
#[tactic(auto, unfolding(crate::specs::Payload::stores))]
pub(crate) fn put_stores(
    out: &mut Vec<u8>,
    classes: &BTreeMap<Name, Option<Capacity>>,
    pools: &BTreeMap<u32, Pool>,
    volumes: &BTreeMap<u32, Volume>,
) -> Result<(), Memory>
    requires { (stores second_form).Fits (unheld_stores (stores_with (classes.now.entries, (pools.now.entries, volumes.now.entries)))) }
    ensures { OnOk result (out.new.items ≡ out.old.items ++ (stores second_form).spell (stores_with (classes.now.entries, (pools.now.entries, volumes.now.entries)))) }
{
    put_table::<Name, Option<Capacity>, ClassRow>(out, classes)?;
    put_table::<u32, Pool, PoolRow<Second>>(out, pools)?;
    put_volumes(out, volumes)?;
    Ok(())
}

#[tactic(auto, unfolding(crate::specs::Payload::stores))]
fn take_stores<E: InEdition>(alloc: Global, reader: &mut Reader<'_>) -> Result<Stores, Fault>
    ensures { Gives result reader.new.rest ((stores E.edition).read reader.old.rest) }
{
    let classes = take_table::<Name, Option<Capacity>, ClassRow>(alloc, reader, u32::MAX)?;
    let pools = take_table::<u32, Pool, PoolRow<E>>(alloc, reader, u32::MAX)?;
    let volumes = take_table::<u32, Volume, VolumeRow>(alloc, reader, u32::MAX)?;
    Ok(Stores {
        classes,
        pools,
        volumes,
    })
}

/// All rows as they are read.
#[derive(Drop)]
pub(crate) struct Parts {
    numbers: Numbers,
    domains: BTreeMap<Name, PolicyDomain>,
    clients: Clients,
    stores: Stores,
    backups: BTreeMap<u32, Backup>,
    held: BTreeMap<u64, HeldRow>,
}

impl Model for Parts {
    ghost use Rattle.inventory_rows.specs.State.{Inv};
    ghost use Rattle.inventory_bytes.specs.Payload.{inv_with};

    ghost Value = { Inv };

    ghost view = { λ p. inv_with (p.numbers, (p.domains.entries, (p.clients, (p.stores, (p.backups.entries, p.held.entries))))) };
}

/// All rows, from bytes in one of the two forms.
pub(crate) struct PartsBy<E> {
    edition: PhantomData<E>,
}

/// The number of the form.
fn mark<E: InEdition>() -> u8
    ensures { result ≡ mark E.edition }
{
    if E::is_second() { 2 } else { 1 }
}

#[tactic(auto, unfolding(crate::specs::Payload::payload))]
impl<E: InEdition> Decoder<Parts> for PartsBy<E> {
    ghost form = { payload E.edition };

    fn take(alloc: Global, reader: &mut Reader<'_>) -> Result<Parts, Fault> {
        if reader.u8()? != mark::<E>() {
            return Err(Fault::Malformed);
        }
        let numbers = Numbers::read_from(alloc, reader)?;
        let domains = take_table::<Name, PolicyDomain, DomainRow<E>>(alloc, reader, u32::MAX)?;
        let clients = take_clients::<E>(alloc, reader)?;
        let stores = take_stores::<E>(alloc, reader)?;
        let backups = take_table::<u32, Backup, BackupRow<E>>(alloc, reader, u32::MAX)?;
        let held = take_held_rows::<E>(alloc, reader)?;
        Ok(Parts {
            numbers,
            domains,
            clients,
            stores,
            backups,
            held,
        })
    }

    ghost is_form = { payload_form E.edition };
}

/// The pools of these rows, with the segments of all copies on their volumes; none where pools or volumes of one name or a volume
/// of another kind's name stand in them, or a segment's volume isn't there.
fn into_pools(
    alloc: Global,
    classes: BTreeMap<Name, Option<Capacity>>,
    pools: BTreeMap<u32, Pool>,
    mut volumes: BTreeMap<u32, Volume>,
    filespaces: &BTreeMap<u32, Filespace>,
    held: &BTreeMap<u64, HeldRow>,
) -> Result<Option<Pools>, Memory>
    ensures found { IfOk result (λ o. IfSome o (λ made. AreFilled filespaces.now.entries held.now.entries (stores_with (classes.entries, (pools.entries, volumes.entries))) made)) }
    ensures none { IfOk result (λ o. IfNone o (with_rows classes.entries pools.entries volumes.entries ≡ Some (stores_with (classes.entries, (pools.entries, volumes.entries))) → are_there filespaces.now.entries held.now.entries volumes.entries ≡ true → ⊥)) }
{
    if !put_all(&mut volumes, filespaces, held)? {
        return Ok(None);
    }
    match Pools::from_parts(alloc, classes, pools, volumes) {
        Ok(made) => Ok(made),
        Err(_) => Err(Memory),
    }
}

impl Parts {
    /// These rows, where each held object has the number under which it stands.
    pub(crate) fn numbered(self) -> Parts
        ensures { result ≡ having_numbers self }
    {
        let mut parts = self;
        number_rows(&mut parts.held);
        parts
    }

    /// The tables of these rows, with the segments of all copies on their volumes; none where the rows are not sound, or a
    /// segment's volume isn't there.
    pub(crate) fn into_tables(self, alloc: Global) -> Result<Option<Tables>, Memory>
        ensures found { IfOk result (λ o. IfSome o (λ t. IsFilled self (inv_of t))) }
        ensures none { IfOk result (λ o. IfNone o (AreSound self → all_lie self ≡ true → ⊥)) }
    {
        let Parts {
            numbers,
            domains,
            clients,
            stores,
            backups,
            held,
        } = self;
        let made = into_pools(
            alloc,
            stores.classes,
            stores.pools,
            stores.volumes,
            &clients.filespaces,
            &held,
        )?;
        let Some(pools) = made else {
            return Ok(None);
        };
        let Ok(made) = Objects::from_parts(alloc, clients.nodes, clients.filespaces, held) else {
            return Err(Memory);
        };
        let Some(objects) = made else {
            return Ok(None);
        };
        let Ok(domains) = Domains::from_rows(alloc, domains) else {
            return Err(Memory);
        };
        Ok(Some(Tables {
            number: numbers.number,
            today: numbers.today,
            next_node: numbers.next_node,
            next_filespace: numbers.next_filespace,
            next_pool: numbers.next_pool,
            next_file: numbers.next_file,
            next_object: numbers.next_object,
            domains,
            objects,
            pools,
            backups,
        }))
    }
}
