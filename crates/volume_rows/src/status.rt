/// How a volume is used.
#[derive(Clone, Copy, Debug)]
pub enum Status {
    /// A volume of random access.
    Online,
    /// A sequential volume on which nothing was written yet.
    Empty,
    /// A sequential volume with copies, and with room for more.
    Filling,
    /// A sequential volume with copies, and fewer than 4,096 bytes left at its end.
    Full,
    /// A sequential volume whose last copy is gone, and which is not reused yet.
    Pending,
}

impl Status {
    ghost use Rattle.std.specs.Prelude.{◌≡◌};
    ghost use Rattle.volume_rows.specs.Volumes.{is_full};

    /// Whether the volume is FULL.
    pub fn is_full(self) -> bool
        ensures { result ≡ is_full self }
    {
        matches!(self, Status::Full)
    }
}
