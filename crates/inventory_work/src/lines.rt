use crate::listed::Listed;
use kinds::{ArchiveRule, Day, Digest, Name, ObjectSize, Path, RuleFound};

/// A management class of a domain's policy set ACTIVE.
#[derive(Drop)]
pub struct ClassRule {
    pub class: Name,
    /// The rule by which files of the class are kept.
    pub rule: RuleFound,
    /// The rule by which objects are kept that are archived under the class, where it has one.
    pub archive: Option<ArchiveRule>,
}

/// How the files of a node are kept.
#[derive(Drop)]
pub struct Rules {
    /// The default class of the set ACTIVE of the node's domain, where it has such a set and the set has a default class.
    pub default_class: Option<Name>,
    /// The classes of that set, by name.
    pub classes: Listed<ClassRule>,
}

/// A stored copy of an object.
#[derive(Drop)]
pub struct CopyLine {
    /// The object's number.
    pub object: u64,
    /// How many bytes the object has.
    pub size: ObjectSize,
    /// The SHA-256 of the object's bytes.
    pub digest: Digest,
    /// The day on which the object was stored.
    pub stored: Day,
    /// The number of the client node.
    pub node: u32,
    /// The number of the pool in which the copy lies.
    pub pool: u32,
    /// The number of the transaction that placed the copy there.
    pub placed: u64,
}

/// An object of which a copy is missing.
#[derive(Drop)]
pub struct MissingLine {
    /// The object's number.
    pub object: u64,
    /// How many bytes the object has.
    pub size: ObjectSize,
}

/// An object that is not retained: a version by its rule, or a held object whose day has come.
#[derive(Drop)]
pub struct UnretainedLine {
    /// The filespace's number.
    pub filespace: u32,
    pub path: Path,
    /// The object's number.
    pub object: u64,
}
