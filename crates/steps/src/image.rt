//! Images of the database that are written piece by piece.

/// What is asked of an image.
#[derive(Clone, Copy, Debug, PartialEq, Eq)]
pub enum ImageKind {
    /// Begin a checkpoint.
    Checkpoint,
    /// Begin a database backup.
    Backup,
    /// Begin a database backup of what came after the one in this file.
    Since { after: u32 },
    /// Go on with the image that the caller began.
    Next,
}

/// What an image came to.
#[derive(Clone, Copy, Debug, PartialEq, Eq)]
pub enum ImageReply {
    /// It goes into this file, and is that of the database behind the transaction `seq`.
    Begun { file: u32, seq: u64 },
    /// A piece was written.
    More,
    /// All of it stands, the database behind the transaction `seq`.
    Done { seq: u64 },
}
