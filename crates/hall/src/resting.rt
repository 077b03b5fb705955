//! Whether anything is in progress in a hall.
ghost use Rattle.std.specs.Prelude.{◌-◌, ◌≤◌, ◌^◌, ◌↔◌, IsTrue};
ghost use Rattle.hall.specs.Rest.{Rests};

use crate::hall::Hall;
use crate::parts::{LAST_MOMENT, Parts};
use store_api::Store;

/// Whether nothing is in progress.
fn are_at_rest(parts: &Parts) -> bool
    ensures { IsTrue result ↔ Rests parts.now }
{
    if parts.seats.len() > 0 {
        return false;
    }
    if parts.image.is_some() {
        return false;
    }
    if parts.vault.fault().is_some() {
        return false;
    }
    parts.stamps.len() == parts.vault.journal().len()
}

impl<S: Store> Hall<S> {
    /// Whether nothing is in progress: there is no ticket and no image, each transaction has a stamp, and no fault has halted the hall.
    pub fn is_at_rest(&self) -> bool
        ensures { IsTrue result ↔ Rests self.now.held }
    {
        are_at_rest(&self.parts)
    }

    /// Whether no step is begun any more, since the store's moment is 2^62 - 2^24 or a later one.
    pub fn is_late(&self) -> bool
        ensures { IsTrue result ↔ (2 ^ 62 - 2 ^ 24 ≤ S.moment_of self.now.store) }
    {
        self.store.moment() >= LAST_MOMENT
    }
}
