ghost use Rattle.std.specs.Prelude.{◌≡◌, IfOk};

use crate::day::Days;
use crate::name::{Name, NodeName};
use crate::path::FilespaceName;
use crate::pool::{Access, Capacity, PoolKind, PoolSettings};
use crate::rule::{ArchiveGroup, CopyGroup};
use std::alloc::AllocError;

/// What is done with a row that may be updated.
#[derive(Clone, Copy, Debug, PartialEq, Eq)]
pub enum Verb {
    Define,
    Update,
    Delete,
}

/// What is done with a row that is never updated.
#[derive(Clone, Copy, Debug, PartialEq, Eq)]
pub enum DefineOrDelete {
    Define,
    Delete,
}

/// A change of the policy domains.
#[derive(Drop)]
pub enum PolicyChange {
    /// Of a domain and its BACKRETENTION.
    Domain {
        verb: Verb,
        domain: Name,
        back_retention: Days,
    },
    /// Of a policy set.
    Set {
        verb: DefineOrDelete,
        domain: Name,
        set: Name,
    },
    /// Of a management class.
    Class {
        verb: DefineOrDelete,
        domain: Name,
        set: Name,
        class: Name,
    },
    /// Of the backup copy group of a class. A group that is deleted comes with the rule that it has.
    Group {
        verb: Verb,
        domain: Name,
        set: Name,
        class: Name,
        group: CopyGroup,
    },
    /// Of the archive copy group of a class. A group that is deleted comes with the rule that it has.
    ArchiveGroup {
        verb: Verb,
        domain: Name,
        set: Name,
        class: Name,
        group: ArchiveGroup,
    },
    /// The class becomes its set's default.
    Assign {
        domain: Name,
        set: Name,
        class: Name,
    },
    /// The set is copied to the domain's active set.
    Activate {
        domain: Name,
        set: Name,
    },
}

/// A change of the client nodes and their filespaces.
#[derive(Drop)]
pub enum ObjectChange {
    /// Of a node, in a domain.
    Node {
        verb: DefineOrDelete,
        node: NodeName,
        domain: Name,
    },
    /// Of a filespace, with its number, of the node with that number.
    Filespace {
        verb: DefineOrDelete,
        node: u32,
        name: FilespaceName,
        filespace: u32,
    },
}

/// A change of the device classes, storage pools and volumes.
#[derive(Drop)]
pub enum PoolChange {
    /// Of a device class of sequential volumes, each with so many bytes.
    DevClass {
        verb: DefineOrDelete,
        class: Name,
        capacity: Capacity,
    },
    /// Of a storage pool, of this device class and kind.
    Pool {
        verb: Verb,
        pool: Name,
        class: Name,
        kind: PoolKind,
        settings: PoolSettings,
    },
    /// Of a volume, in the pool with this number, with its file number.
    Volume {
        verb: Verb,
        volume: Name,
        pool: u32,
        file: u32,
        capacity: Capacity,
        access: Access,
    },
}

/// Copies of two names.
fn copy_two(first: &Name, second: &Name) -> Result<(Name, Name), AllocError>
    ensures { IfOk result (λ copies. copies ≡ (first.now, second.now)) }
{
    let first = first.clone()?;
    Ok((first, second.clone()?))
}

/// Copies of three names.
fn copy_three(first: &Name, second: &Name, third: &Name) -> Result<(Name, Name, Name), AllocError>
    ensures { IfOk result (λ copies. copies ≡ (first.now, second.now, third.now)) }
{
    let (first, second) = copy_two(first, second)?;
    Ok((first, second, third.clone()?))
}

impl Clone for PolicyChange {
    ghost is_clone = { λ change copy. copy ≡ change };

    fn clone(&self) -> Result<Self, AllocError> {
        match self {
            PolicyChange::Domain {
                verb,
                domain,
                back_retention,
            } => Ok(PolicyChange::Domain {
                verb: *verb,
                domain: domain.clone()?,
                back_retention: *back_retention,
            }),
            PolicyChange::Set { verb, domain, set } => {
                let (domain, set) = copy_two(domain, set)?;
                Ok(PolicyChange::Set {
                    verb: *verb,
                    domain,
                    set,
                })
            }
            PolicyChange::Class {
                verb,
                domain,
                set,
                class,
            } => {
                let (domain, set, class) = copy_three(domain, set, class)?;
                Ok(PolicyChange::Class {
                    verb: *verb,
                    domain,
                    set,
                    class,
                })
            }
            PolicyChange::Group {
                verb,
                domain,
                set,
                class,
                group,
            } => {
                let (domain, set, class) = copy_three(domain, set, class)?;
                Ok(PolicyChange::Group {
                    verb: *verb,
                    domain,
                    set,
                    class,
                    group: *group,
                })
            }
            PolicyChange::ArchiveGroup {
                verb,
                domain,
                set,
                class,
                group,
            } => {
                let (domain, set, class) = copy_three(domain, set, class)?;
                Ok(PolicyChange::ArchiveGroup {
                    verb: *verb,
                    domain,
                    set,
                    class,
                    group: *group,
                })
            }
            PolicyChange::Assign { domain, set, class } => {
                let (domain, set, class) = copy_three(domain, set, class)?;
                Ok(PolicyChange::Assign { domain, set, class })
            }
            PolicyChange::Activate { domain, set } => {
                let (domain, set) = copy_two(domain, set)?;
                Ok(PolicyChange::Activate { domain, set })
            }
        }
    }
}

impl Clone for ObjectChange {
    ghost is_clone = { λ change copy. copy ≡ change };

    fn clone(&self) -> Result<Self, AllocError> {
        Ok(match self {
            ObjectChange::Node { verb, node, domain } => ObjectChange::Node {
                verb: *verb,
                node: node.clone()?,
                domain: domain.clone()?,
            },
            ObjectChange::Filespace {
                verb,
                node,
                name,
                filespace,
            } => ObjectChange::Filespace {
                verb: *verb,
                node: *node,
                name: name.clone()?,
                filespace: *filespace,
            },
        })
    }
}

impl Clone for PoolChange {
    ghost is_clone = { λ change copy. copy ≡ change };

    fn clone(&self) -> Result<Self, AllocError> {
        match self {
            PoolChange::DevClass {
                verb,
                class,
                capacity,
            } => Ok(PoolChange::DevClass {
                verb: *verb,
                class: class.clone()?,
                capacity: *capacity,
            }),
            PoolChange::Pool {
                verb,
                pool,
                class,
                kind,
                settings,
            } => {
                let (pool, class) = copy_two(pool, class)?;
                Ok(PoolChange::Pool {
                    verb: *verb,
                    pool,
                    class,
                    kind: *kind,
                    settings: *settings,
                })
            }
            PoolChange::Volume {
                verb,
                volume,
                pool,
                file,
                capacity,
                access,
            } => Ok(PoolChange::Volume {
                verb: *verb,
                volume: volume.clone()?,
                pool: *pool,
                file: *file,
                capacity: *capacity,
                access: *access,
            }),
        }
    }
}
