use kinds::{Digest, FilespaceName, NodeName, ObjectSize, Path, Refusal};

/// A printed line of a command that isn't refused, its fields in the order in which they are printed.
#[derive(Drop)]
pub enum Shown {
    /// The last line of a change, VALIDATE, CHECKPOINT, WRITE or ERASE.
    Done,
    /// The last line of DAY or REUSE VOLUMES: how many volumes are used again.
    Reused {
        reused: u64,
    },
    /// The last line of PUT: the number of the object that was stored.
    Stored {
        object: u64,
    },
    /// A piece of the file that GET shows.
    Data {
        bytes: Vec<u8>,
    },
    /// The last line of GET.
    Read {
        object: u64,
        size: ObjectSize,
    },
    /// The last line of DSMC INCREMENTAL: how many files were sent, bound to another class, gone, left as they were, and failed.
    Sent {
        sent: u64,
        rebound: u64,
        gone: u64,
        skipped: u64,
        failed: u64,
    },
    /// A file that DSMC RESTORE or DSMC RETRIEVE wrote, with the SHA-256 of its bytes.
    File {
        path: Path,
        object: u64,
        size: ObjectSize,
        sha256: Digest,
    },
    /// A file on which a client's command failed.
    Failed {
        path: Path,
        refusal: Refusal,
    },
    /// The last line of DSMC RESTORE.
    RestoredFiles {
        restored: u64,
        failed: u64,
    },
    /// The last line of DSMC ARCHIVE: how many files were archived, deleted, and failed.
    Archived {
        archived: u64,
        deleted: u64,
        failed: u64,
    },
    /// The last line of DSMC RETRIEVE.
    Retrieved {
        retrieved: u64,
        failed: u64,
    },
    /// The last line of MIGRATE, RECLAIM or MOVE DATA: how many copies were moved, how many failed, and how many volumes are used again.
    Moved {
        moved: u64,
        failed: u64,
        reused: u64,
    },
    /// The last line of BACKUP STGPOOL.
    Copied {
        copied: u64,
        failed: u64,
    },
    /// The last line of RESTORE STGPOOL or RESTORE VOLUME.
    RestoredCopies {
        restored: u64,
        failed: u64,
        reused: u64,
    },
    /// The last line of EXPIRE INVENTORY.
    Expired {
        expired: u64,
        reused: u64,
    },
    /// The last line of DELETE FILESPACE.
    DiscardedFilespace {
        discarded: u64,
        reused: u64,
    },
    /// The last line of DELETE VOLUME: how many objects were discarded, and how many copies dropped.
    DeletedVolume {
        discarded: u64,
        dropped: u64,
    },
    /// A copy that AUDIT VOLUME found damaged: the digest that is kept, and that of the bytes that were found.
    Damaged {
        object: u64,
        kept: Digest,
        found: Digest,
    },
    /// The last line of AUDIT VOLUME.
    Audited {
        sound: u64,
        damaged: u64,
        fixed: u64,
    },
    /// The last line of BACKUP DB: the backup's file, and the number of the last transaction that it holds.
    BackedUp {
        file: u32,
        seq: u64,
    },
    /// The last line of DELETE VOLHISTORY.
    DeletedHistory {
        deleted: u64,
    },
    /// The last line of a query.
    Rows {
        rows: u64,
    },
}

/// A printed line that no line of the script causes, its fields in the order in which they are printed.
#[derive(Drop)]
pub enum Notice {
    /// An object that a restored database no longer has, since no copy of it was left.
    Lost {
        node: NodeName,
        filespace: FilespaceName,
        path: Path,
        object: u64,
    },
    /// The last line of `restoredb`: how many versions and archived objects the restored database has, how many copies of them, and how many were lost.
    Restored {
        versions: u64,
        copies: u64,
        lost: u64,
    },
    /// `format` or `restoredb` is refused.
    Refused {
        refusal: Refusal,
    },
    /// The file with this number is no database backup, or holds one that can't be read over the one that it says it follows.
    NotABackup {
        file: u32,
    },
}
