/// A volume as one who asks for space sees it.
#[derive(Clone, Copy, Debug)]
pub struct Site {
    /// The number of its pool.
    pub pool: u32,
    /// Whether it is a scratch volume.
    pub scratch: bool,
    /// Whether its access is READWRITE.
    pub is_writable: bool,
    /// How many bytes it has.
    pub capacity: u64,
    /// Where the next frame is written on a sequential volume, in bytes.
    pub end: u128,
    /// Whether neither a copy nor a ticket has a segment there.
    pub is_bare: bool,
}
