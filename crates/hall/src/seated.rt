//! Images of the database that are written piece by piece, as the hall holds them.

use db_image::Image;

/// An image in progress: a checkpoint, of which the vault knows how far it is, since it writes its pieces; or a database backup with its writer.
#[derive(Drop)]
pub struct Seated {
    /// The number of the actor who began it.
    pub actor: u32,
    /// The file that it goes to.
    pub file: u32,
    /// The number of the transaction whose database it is of.
    pub seq: u64,
    /// The writer of a database backup; none for a checkpoint.
    pub backup: Option<Image>,
}
