use inventory_work::inventory_rows::volume_rows::Status;
use kinds::{
    Access, ArchiveRule, BackupRule, Capacity, Day, Days, Digest, FilespaceName, Name, NodeName,
    ObjectSize, Path, PoolKind, PoolRule, Text,
};

/// A policy domain.
#[derive(Drop)]
pub struct DomainLine {
    pub name: Name,
    /// BACKRETENTION.
    pub back_retention: Days,
    /// Whether the domain has the policy set ACTIVE.
    pub active: bool,
}

/// A policy set.
#[derive(Drop)]
pub struct SetLine {
    pub domain: Name,
    pub set: Name,
    /// The set's default management class, where it has one.
    pub default_class: Option<Name>,
}

/// A management class.
#[derive(Drop)]
pub struct ClassLine {
    pub domain: Name,
    pub set: Name,
    pub class: Name,
    /// Whether the class has a backup copy group.
    pub group: bool,
    /// The rule of its archive copy group, where it has one.
    pub archive: Option<ArchiveRule>,
}

/// A backup copy group.
#[derive(Drop)]
pub struct GroupLine {
    pub domain: Name,
    pub set: Name,
    pub class: Name,
    pub rule: BackupRule,
    /// The name of the pool that is the group's destination, where that pool is there.
    pub destination: Option<Name>,
}

/// A client node.
#[derive(Drop)]
pub struct NodeLine {
    pub number: u32,
    pub name: NodeName,
    pub domain: Name,
}

/// A filespace of a client node.
#[derive(Drop)]
pub struct FilespaceLine {
    /// The node's name, where the node is there.
    pub node: Option<NodeName>,
    pub number: u32,
    pub name: FilespaceName,
    /// How many paths have an active version.
    pub files: u64,
    /// How many versions are kept.
    pub versions: u64,
}

/// A version of a file.
#[derive(Drop)]
pub struct VersionLine {
    pub path: Path,
    /// The object's number.
    pub object: u64,
    /// How many bytes the file has.
    pub size: ObjectSize,
    /// When the file was changed last, as the client said.
    pub mtime: u64,
    /// The day on which the version was stored.
    pub stored: Day,
    /// The day from which on the version is inactive; none for an active one.
    pub since: Option<Day>,
    /// The management class to which the path is bound.
    pub class: Name,
    /// Whether the rule of the path's class retains the version today.
    pub owed: bool,
    /// The SHA-256 of the file's bytes.
    pub digest: Digest,
}

/// An object that a client archived.
#[derive(Drop)]
pub struct HeldLine {
    pub path: Path,
    /// What the client says of it.
    pub description: Text,
    /// The object's number.
    pub object: u64,
    /// How many bytes the file has.
    pub size: ObjectSize,
    /// When the file was changed last, as the client said.
    pub mtime: u64,
    /// The SHA-256 of the file's bytes.
    pub digest: Digest,
    /// The day on which the object was stored.
    pub stored: Day,
    /// The day from which on it is no longer kept; none where it is kept without a limit.
    pub until: Option<u32>,
    /// Whether the object is still kept: that day lies ahead, or there is none.
    pub owed: bool,
}

/// A device class.
#[derive(Drop)]
pub struct DeviceLine {
    pub name: Name,
    /// How many bytes its volumes have; none for DISK, whose volumes are of random access.
    pub capacity: Option<Capacity>,
}

/// A storage pool.
#[derive(Drop)]
pub struct PoolLine {
    pub number: u32,
    pub name: Name,
    pub kind: PoolKind,
    /// The pool's device class.
    pub class: Name,
    /// The name of the next pool of the hierarchy, where the pool has one that is there.
    pub next: Option<Name>,
    /// How much of the pool is used, in hundredths, rounded down.
    pub percent: u64,
    /// The least of all whole percentages that what is used doesn't exceed: `percent`, or the next one. None where that is above 255, or something is used of nothing.
    pub least: Option<u8>,
    /// The pool's settings, with the number of the next pool.
    pub settings: PoolRule,
}

/// A volume.
#[derive(Drop)]
pub struct VolumeLine {
    pub name: Name,
    /// The volume's file number.
    pub file: u32,
    /// The name of the volume's pool, where the pool is there.
    pub pool: Option<Name>,
    pub status: Status,
    pub access: Access,
    /// How many bytes are used: those of used blocks on a random volume, of live frames on a sequential one.
    pub used: u64,
    pub capacity: Capacity,
    /// Where the next frame is written on a sequential volume; 0 on one of random access.
    pub end: u64,
}

/// An object on a volume.
#[derive(Drop)]
pub struct ContentLine {
    pub volume: Name,
    /// The object's number.
    pub object: u64,
    /// How many bytes the object has, where it is kept.
    pub size: Option<ObjectSize>,
    /// How many of the object's segments lie on the volume.
    pub segments: u64,
}

/// A database backup.
#[derive(Drop)]
pub struct BackupLine {
    /// The number of the backup's file.
    pub file: u32,
    /// The day on which it was taken.
    pub taken: Day,
    /// The number of the last transaction that it holds.
    pub number: u64,
    /// Whether its file is whole.
    pub done: bool,
    /// The backup that it follows, by the number of its file, where it follows one.
    pub after: Option<u32>,
}
