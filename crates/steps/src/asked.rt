//! What is to be committed.

use entries::Change;
use inventory_answers::inventory_work::Listed;
use kinds::{Digest, Name, Path, Text};

/// A file that becomes a version of its path. Its bytes, their number and where they lie are those of a ticket.
#[derive(Drop)]
pub struct Item {
    /// The path of the client file.
    pub path: Path,
    /// The management class that the path is bound to.
    pub class: Name,
    /// When the file was changed last, in the unit of the tree that it comes from.
    pub mtime: u64,
    /// The SHA-256 of the file's bytes, which has to be that of the ticket's.
    pub digest: Digest,
}

/// A file that is archived. Its bytes, their number and where they lie are those of a ticket.
#[derive(Drop)]
pub struct HeldItem {
    /// The path of the client file.
    pub path: Path,
    /// What the client says of it.
    pub description: Text,
    /// When the file was changed last, in the unit of the tree that it comes from.
    pub mtime: u64,
    /// The SHA-256 of the file's bytes, which has to be that of the ticket's.
    pub digest: Digest,
    /// The day from which on it is no longer kept; none where it is kept without a limit.
    pub until: Option<u32>,
}

/// What a transaction is asked for. File numbers, filespace numbers and scratch volumes of a change are filled in when it is made: what stands there isn't
/// looked at.
#[derive(Drop)]
pub enum Asked {
    /// This change, which takes no ticket.
    Plain(Change),
    /// Files become versions of their paths in this filespace, the i-th from the i-th ticket.
    Backup {
        filespace: u32,
        items: Listed<Item>,
    },
    /// Files are archived into this filespace, the i-th from the i-th ticket.
    Hold {
        filespace: u32,
        items: Listed<HeldItem>,
    },
    /// The copies of the tickets, which are all to move or all further ones.
    Placed,
}
