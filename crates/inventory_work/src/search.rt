// Things by their names.
ghost use Rattle.std.specs.Prelude.{◌≡◌};
ghost use Rattle.inventory_work.specs.Found.{number_found, device_found, filespace_asked, filespace_found, find_named};
ghost use Rattle.inventory_rows.specs.State.{inv_of};

use inventory_rows::Tables;
use inventory_rows::object_rows::Objects;
use inventory_rows::pool_rows::Pools;
use kinds::{Capacity, FilespaceName, Name, NodeName, Refusal};

/// A thing that is named.
#[derive(Drop)]
pub enum Named {
    Node(NodeName),
    /// A device class.
    DevClass(Name),
    Pool(Name),
    Volume(Name),
    /// A filespace of a node.
    Filespace {
        node: NodeName,
        filespace: FilespaceName,
    },
}

/// What a name leads to.
#[derive(Clone, Copy, Debug, PartialEq, Eq)]
pub enum Found {
    /// The number of a node, pool or filespace, or the file number of a volume.
    Number(u32),
    /// How many bytes the volumes of a device class have; none for DISK, whose volumes are of random access.
    DevClass(Option<Capacity>),
}

fn number_found(number: Option<u32>) -> Result<Found, Refusal>
    ensures { result ≡ number_found number }
{
    match number {
        Some(number) => Ok(Found::Number(number)),
        None => Err(Refusal::NotFound),
    }
}

fn device_found(pools: &Pools, class: &Name) -> Result<Found, Refusal>
    ensures { result ≡ device_found class.now pools.now }
{
    match pools.classes().get(class).copied() {
        Some(capacity) => Ok(Found::DevClass(capacity)),
        None => Err(Refusal::NotFound),
    }
}

/// The number of the filespace with this name of the node with that one. `NotFound` where one of the two is not there. It takes no memory, and no walk.
pub fn filespace_asked(
    objects: &Objects,
    node: &NodeName,
    filespace: &FilespaceName,
) -> Result<u32, Refusal>
    ensures { result ≡ filespace_asked node.now filespace.now objects.now }
{
    match objects.node_named(node) {
        None => Err(Refusal::NotFound),
        Some(node) => match objects.filespace_named(node, filespace) {
            None => Err(Refusal::NotFound),
            Some(number) => Ok(number),
        },
    }
}

fn filespace_found(
    objects: &Objects,
    node: &NodeName,
    filespace: &FilespaceName,
) -> Result<Found, Refusal>
    ensures { result ≡ filespace_found node.now filespace.now objects.now }
{
    match filespace_asked(objects, node, filespace) {
        Ok(number) => Ok(Found::Number(number)),
        Err(refusal) => Err(refusal),
    }
}

/// The number of the thing with this name, or the capacity of a device class. `NotFound` where it is not there, or, of a filespace, where its node is
/// not. It takes no memory, and no walk.
pub fn find_named(tables: &Tables, named: &Named) -> Result<Found, Refusal>
    ensures { result ≡ find_named named.now (inv_of tables.now) }
{
    match named {
        Named::Node(name) => number_found(tables.objects.node_named(name)),
        Named::DevClass(name) => device_found(&tables.pools, name),
        Named::Pool(name) => number_found(tables.pools.pool_named(name)),
        Named::Volume(name) => number_found(tables.pools.volume_named(name)),
        Named::Filespace { node, filespace } => {
            filespace_found(&tables.objects, node, filespace)
        }
    }
}
