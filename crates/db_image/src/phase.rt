// How far an image has been written.

/// How far an image has been written.
#[derive(Clone, Copy, Drop)]
pub enum Phase {
    /// Nothing was done yet.
    Begun,
    /// The gate is shut, and behind it stand the head and so many bytes of the payload.
    Written(u64),
    /// All behind the gate is on the disk, and the gate is shut.
    Durable,
    /// The image is whole, and its gate is open.
    Open,
    /// A call on the file failed. Nothing more is done.
    Failed,
}

/// What a step of writing answers.
#[derive(Clone, Copy, Drop)]
pub enum Progress {
    /// A part of the payload was written, and the image isn't done yet.
    More,
    /// The image is whole, and its gate is open.
    Done,
}
