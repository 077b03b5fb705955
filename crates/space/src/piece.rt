/// A piece of free space on a volume.
#[derive(Clone, Copy, Debug)]
pub struct Piece {
    /// The volume's file number; 2^32 and above for a scratch volume that no file number is left for.
    pub file: u64,
    /// Where a frame would begin, in bytes.
    pub offset: u64,
    /// How many bytes of data it has room for, behind the frame's header.
    pub room: u64,
}
