use crate::lines::{
    BackupLine, ClassLine, ContentLine, DeviceLine, DomainLine, FilespaceLine, GroupLine, HeldLine,
    NodeLine, PoolLine, SetLine, VersionLine, VolumeLine,
};
use inventory_work::{CopyLine, Found, Listed, MissingLine, Rules, UnretainedLine};
use kinds::{Day, Refusal};

/// The rows that answer a query, one variant for each.
#[derive(Drop)]
pub enum Rows {
    Today,
    /// By name.
    Domains(Listed<DomainLine>),
    /// By name.
    Sets(Listed<SetLine>),
    /// By name.
    Classes(Listed<ClassLine>),
    /// By the name of the class.
    Groups(Listed<GroupLine>),
    /// By number.
    Nodes(Listed<NodeLine>),
    /// By number.
    Filespaces(Listed<FilespaceLine>),
    /// By name.
    Devices(Listed<DeviceLine>),
    /// By number.
    Pools(Listed<PoolLine>),
    /// By file number.
    Volumes(Listed<VolumeLine>),
    /// By object.
    Content(Listed<ContentLine>),
    /// By file number.
    History(Listed<BackupLine>),
    /// By path, the newest first; all of one path for the query of one.
    Versions(Listed<VersionLine>),
    /// By object.
    Held(Listed<HeldLine>),
    Lookup(Found),
    Rules(Rules),
    /// By object.
    OnPool(Listed<CopyLine>),
    /// By object.
    OnVolume(Listed<CopyLine>),
    /// By object.
    Missing(Listed<MissingLine>),
    /// File numbers, in ascending order.
    Eligible(Listed<u32>),
    /// By object.
    Unretained(Listed<UnretainedLine>),
    /// File numbers, in ascending order.
    Emptied(Listed<u32>),
    /// In bytes; always 0 here.
    LogBytes(u64),
    /// How the set's activation would be refused, where it would: `NotFound` or `NoDefaultClass`.
    Validated(Option<Refusal>),
}

/// What the database answers.
#[derive(Drop)]
pub struct Answer {
    /// The number of the last transaction.
    pub n: u64,
    /// The day.
    pub today: Day,
    pub rows: Rows,
}
