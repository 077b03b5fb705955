// What was restored.

use db_losses::LostObjects;

/// What was restored.
#[derive(Drop)]
pub struct RestoreDone {
    /// How many objects are kept.
    pub versions: u64,
    /// How many copies they have.
    pub copies: u64,
    /// The objects that were kept in the backup and aren't any more, since no copy of them was found.
    pub lost: LostObjects,
}
