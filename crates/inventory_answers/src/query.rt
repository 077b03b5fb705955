use inventory_work::Named;
use kinds::{FilespaceName, Name, NodeName, Path};

/// What is asked of the database.
#[derive(Drop)]
pub enum Query {
    /// The number of the last transaction and the day alone.
    Today,
    /// The policy domains.
    Domains,
    /// The policy sets of a domain.
    Sets {
        domain: Name,
    },
    /// The management classes of a policy set.
    Classes {
        domain: Name,
        set: Name,
    },
    /// The backup copy groups of a policy set.
    Groups {
        domain: Name,
        set: Name,
    },
    /// Whether a policy set may be activated.
    Validated {
        domain: Name,
        set: Name,
    },
    /// The client nodes.
    Nodes,
    /// The filespaces of all nodes, or of one.
    Filespaces {
        node: Option<NodeName>,
    },
    /// The device classes.
    Devices,
    /// All storage pools, or one.
    Pools {
        pool: Option<Name>,
    },
    /// The volumes that have this name and that lie in this pool; where one of them isn't given, it doesn't matter.
    Volumes {
        volume: Option<Name>,
        pool: Option<Name>,
    },
    /// The objects on a volume.
    Content {
        volume: Name,
    },
    /// The database backups.
    History,
    /// The versions of a filespace's files.
    Versions {
        node: NodeName,
        filespace: FilespaceName,
    },
    /// The versions of one path of a filespace.
    Path {
        node: NodeName,
        filespace: FilespaceName,
        path: Path,
    },
    /// The objects that are held in the filespace with this number.
    Held {
        filespace: u32,
    },
    /// What a name leads to.
    Lookup {
        named: Named,
    },
    /// The rules of the management classes of a node's domain.
    Rules {
        node: u32,
    },
    /// The copies in a pool.
    OnPool {
        pool: u32,
    },
    /// The copies with a segment on a volume.
    OnVolume {
        file: u32,
    },
    /// The objects with a copy in the primary pool and none in the copy pool.
    Missing {
        primary: u32,
        copy: u32,
    },
    /// The volumes of a pool that are to be reclaimed at this threshold, in hundredths.
    Eligible {
        pool: u32,
        threshold: u8,
    },
    /// The objects that are not retained today.
    Unretained,
    /// The volumes that may be reused today.
    Emptied,
    /// How many bytes the log of transactions has: the rows don't say it, and who keeps the log answers it.
    LogBytes,
}
