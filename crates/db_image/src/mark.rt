// What kind of image a file holds.
ghost use Rattle.std.specs.Prelude.{◌≡◌};
ghost use Rattle.db_image.specs.Images.{mark_bytes};

/// The kind of an image, which its mark tells.
#[derive(Clone, Copy, Drop)]
pub enum Mark {
    /// A server's image of the database. That of generation g stands in file g mod 2.
    Server,
    /// A database backup.
    Backup,
}

impl Mark {
    /// The bytes that stand behind the gate: ASCII `TSMIMG1` or `TSMDBB1`.
    pub(crate) fn bytes(self) -> [u8; 7]
        ensures { result ≡ mark_bytes self }
    {
        match self {
            Mark::Server => *b"TSMIMG1",
            Mark::Backup => *b"TSMDBB1",
        }
    }
}
