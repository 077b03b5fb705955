//! What transactions on stored objects change, and the bytes of it both ways.
//!
//! A transaction on stored objects has a list of at most 256 items: new versions, rebindings, copies that move, and so on. Each
//! kind of item and of list is a struct whose values all have a form of bytes: its definition is the form's name in
//! `specs/ItemForms.antt`, `specs/ReasonForms.antt` and `specs/BatchForms.antt`. These names are opaque to the crates above, so
//! that a proof there carries a form's name and not the form.
#![tactic(auto)]

mod items;
mod lists;
mod reasons;
mod tagged;

pub use items::{
    Batch, DiscardedVersion, DroppedCopy, MovedCopy, NamedVersion, NewCopy, NewHeldObject,
    NewVersion, Rebinding, Scratch, ScratchVolume,
};
pub use lists::{
    DiscardedVersions, DroppedCopies, MovedCopies, NamedVersions, NewCopies, NewHeldObjects,
    NewVersions, Rebindings,
};
pub use reasons::{DiscardReason, DropReason};
pub use tagged::put_tagged;
