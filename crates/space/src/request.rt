use crate::aim::Aim;

/// What an actor asks for.
#[derive(Clone, Copy, Debug)]
pub struct Request {
    /// The actor's number.
    pub actor: u32,
    /// The object's size in bytes.
    pub size: u64,
    /// Where the object is to go.
    pub aim: Aim,
    /// The file number of a volume that is to be used before others, or 0.
    pub prefer: u32,
    /// The file number of a volume that is not to be used, or 0.
    pub avoid: u32,
}
