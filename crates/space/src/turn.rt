/// In which order the volumes of a sequential pool are used.
#[derive(Clone, Copy, Debug)]
pub enum Turn {
    /// First the volume that is preferred.
    Preferred,
    /// Then those that are FILLING.
    Filling,
    /// Then those that are EMPTY.
    Empty,
}
