ghost use Rattle.std.specs.Prelude.{◌≡◌, ◌+◌, length, OnOk, IsTrue, Ok, Some, None, false};
ghost use Rattle.kinds.specs.Answers.{AnswersBy, Becomes, Makes};
ghost use Rattle.version_groups.specs.Copies.{takes_free_pool, Alters};
ghost use Rattle.version_groups.specs.Groups.{names_kept, taken, versions_after, group_after, group_altered, group_with};
ghost use Rattle.version_groups.specs.Versions.{has_object, copies_of};

use crate::copies::CopyChange;
use crate::versions::{Version, Versions};
use kinds::{Day, Name, Refusal};
use std::alloc::AllocError;

/// The group of one path.
#[derive(Drop)]
pub struct Group {
    /// The management class to which the path is bound.
    pub class: Name,
    /// The path's versions, the newest first.
    pub versions: Versions,
}

/// A change of a group that takes no memory.
#[derive(Drop)]
pub enum GroupChange {
    /// The newest version, which is the object's, is inactive from this day on.
    Gone { object: u64, today: Day },
    /// The object's version goes.
    Remove { object: u64 },
    /// The path is bound to this class.
    Rebind { class: Name },
    /// The newest version goes, the next one becomes active where there was an active one before, and the path is bound to
    /// the class that it had.
    Undo { class: Name, active: bool },
}

/// Whether the object that the change names, where it names one, has a version here.
fn names_kept(change: &GroupChange, versions: &Versions) -> bool
    ensures { result ≡ names_kept change.now versions.now }
{
    match change {
        GroupChange::Gone { object, .. } | GroupChange::Remove { object } => {
            versions.contains(*object)
        }
        GroupChange::Rebind { .. } | GroupChange::Undo { .. } => true,
    }
}

impl Group {
    /// A group of one version.
    pub fn of_one(class: Name, version: Version) -> Result<Self, Refusal>
        ensures { AnswersBy (λ group. group) result (group_with class version None) }
    {
        let versions = Versions::of_one(version)?;
        Ok(Group { class, versions })
    }

    /// Puts a version in front, and binds the path to this class; the former active version is inactive from the day on
    /// which the new one was stored.
    pub fn put(&mut self, class: Name, version: Version) -> Result<(), Refusal>
        requires { has_object version.object self.old.versions ≡ false }
        ensures { Becomes result self.old self.new (Ok (group_with class version (Some self.old))) }
    {
        self.versions.put(version)?;
        self.class = class;
        Ok(())
    }

    /// Changes the group. An object that is named and has no version here is `NotFound`. It takes no memory.
    pub fn change(&mut self, change: GroupChange) -> Result<(), Refusal>
        ensures value { Makes result self.old self.new (group_after change self.old) }
        ensures taken { OnOk result (length (versions_after change self.old.versions) + taken change self.old.versions ≡ length self.old.versions) }
    {
        if !names_kept(&change, &self.versions) {
            return Err(Refusal::NotFound);
        }
        match change {
            GroupChange::Gone { today, .. } => self.versions.retire(today),
            GroupChange::Remove { object } => self.versions.remove(object),
            GroupChange::Rebind { class } => self.class = class,
            GroupChange::Undo { class, active } => {
                self.versions.undo(active);
                self.class = class;
            }
        }
        Ok(())
    }

    /// Changes the copies of the object's version, as `Versions::alter` does.
    pub fn alter(&mut self, object: u64, change: CopyChange) -> Result<(), Refusal>
        requires { IsTrue (takes_free_pool change (copies_of object self.old.versions)) }
        ensures { Alters change result self.old self.new (group_altered object change self.old) }
    {
        self.versions.alter(object, change)
    }
}

impl Clone for Group {
    ghost is_clone = { λ group copy. copy ≡ group };

    fn clone(&self) -> Result<Self, AllocError> {
        Ok(Group {
            class: self.class.clone()?,
            versions: self.versions.clone()?,
        })
    }
}
